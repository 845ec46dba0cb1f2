// Reading and writing a register.
ghost use Rattle.std.specs.Prelude.{◌≡◌};
ghost use Rattle.isa.specs.Registers.{blank, held, register, written};

use super::{Register, Registers};

impl Register {
    // The register that the low five bits of a number name.
    #[tactic(auto, using(crate::proofs::Same::same_register))]
    pub fn new(number: u32) -> Register
        ensures { result ≡ register number }
    {
        Register {
            index: (number % 32) as u8,
        }
    }
}

impl Registers {
    // Every register holds 0.
    pub fn new() -> Registers
        ensures { result ≡ blank }
    {
        Registers { words: [0; 32] }
    }

    pub fn read(&self, register: Register) -> u32
        ensures { result ≡ held self.now register }
    {
        self.words[register.index as usize]
    }

    // A write to register 0 is lost.
    #[tactic(auto, using(crate::proofs::Same::same_registers))]
    pub fn write(&mut self, register: Register, value: u32)
        ensures { self.new ≡ written self.old register value }
    {
        let at = register.index as usize;
        if at != 0 {
            self.words[at] = value;
        }
    }
}
