// Why a program stops.
ghost use Rattle.std.specs.Prelude.{◌≡◌};
ghost use Rattle.hart.specs.Causes.{cause_number, fault_cause};

use paging::access::Access;

#[derive(Clone, Copy)]
pub enum Cause {
    IllegalInstruction,
    FetchMisaligned,
    FetchFault,
    LoadMisaligned,
    LoadFault,
    StoreMisaligned,
    StoreFault,
}

impl Cause {
    // The number of the cause: a number, since it is printed, and the enum is the cause itself.
    pub fn number(self) -> u8
        ensures { result ≡ cause_number self }
    {
        match self {
            Cause::IllegalInstruction => 1,
            Cause::FetchMisaligned => 2,
            Cause::FetchFault => 3,
            Cause::LoadMisaligned => 4,
            Cause::LoadFault => 5,
            Cause::StoreMisaligned => 6,
            Cause::StoreFault => 7,
        }
    }
}

// The cause of a page fault.
impl From<Access> for Cause {
    ghost from_gives = { λ access cause. cause ≡ fault_cause access };

    fn from(access: Access) -> Self {
        match access {
            Access::Fetch => Cause::FetchFault,
            Access::Load => Cause::LoadFault,
            Access::Store => Cause::StoreFault,
        }
    }
}
