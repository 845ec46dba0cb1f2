// The CSRs that a program may read.
ghost use Rattle.std.specs.Prelude.{◌≡◌};
ghost use Rattle.isa.specs.Csrs.{csr_value};

use crate::instruction::Csr;

impl Csr {
    // What it reads: a half of the clock.
    pub fn value(self, clock: u64) -> u32
        ensures { result ≡ csr_value self clock }
    {
        match self {
            Csr::Cycle | Csr::Time => (clock % (1 << 32)) as u32,
            Csr::CycleHigh => (clock / (1 << 32)) as u32,
        }
    }
}
