// What a page maps to: a frame, and what may be done with it.
ghost use Rattle.std.specs.Prelude.{◌≡◌};
ghost use Rattle.paging.specs.Accesses.{permitted};

use crate::access::Access;

#[derive(Clone, Copy, PartialEq, Eq, Debug)]
pub struct Leaf {
    pub frame: u32,
    // the three permissions of the format, each by itself
    pub readable: bool,
    pub writable: bool,
    pub executable: bool,
}

impl Leaf {
    // Whether the page may be used so. A store has to be allowed to read, too.
    pub fn permits(self, access: Access) -> bool
        ensures { result ≡ permitted self access }
    {
        match access {
            Access::Fetch => self.executable,
            Access::Load => self.readable,
            Access::Store => self.readable && self.writable,
        }
    }
}
