// A page-table entry: from bit 0 on the flags V, R, W, X, U, G, A and D, two bits for software, and from bit 10 on the number of a frame.
ghost use Rattle.std.specs.Prelude.{◌≡◌};
ghost use Rattle.paging.specs.Entries.{flag, frame_of, grants, is_leaf, is_pointer, is_valid, leaf_of};

use crate::leaf::Leaf;
use words::bits::bits;

#[derive(Clone, Copy)]
pub struct Entry(pub u32);

// Where the flags stand. G and the bits for software are never looked at.
// Constants and no enum, since `bits` takes the place as a number: an enum would only be cast to it.
const VALID: u32 = 0;

const READABLE: u32 = 1;

const WRITABLE: u32 = 2;

const EXECUTABLE: u32 = 3;

const USER: u32 = 4;

const ACCESSED: u32 = 6;

const DIRTY: u32 = 7;

impl Entry {
    #[tactic(auto, unfolding(crate::specs::Entries::flag))]
    fn flag(self, at: u32) -> bool
        ensures { result ≡ flag self.0 at }
    {
        bits(self.0, at, 1) == 1
    }

    pub fn is_valid(self) -> bool
        ensures { result ≡ is_valid self.0 }
    {
        self.flag(VALID)
    }

    fn grants(self) -> bool
        ensures { result ≡ grants self.0 }
    {
        self.flag(READABLE) || self.flag(WRITABLE) || self.flag(EXECUTABLE)
    }

    // Whether it points to a table of the next level.
    pub fn is_pointer(self) -> bool
        ensures { result ≡ is_pointer self.0 }
    {
        self.is_valid() && !self.grants()
    }

    // Whether it has the form of a leaf. The walk never writes an entry, so the bits that record a use have to be set beforehand.
    pub fn is_leaf(self) -> bool
        ensures { result ≡ is_leaf self.0 }
    {
        self.is_valid()
            && self.grants()
            && self.flag(USER)
            && self.flag(ACCESSED)
            && self.flag(DIRTY)
    }

    // The frame that it references.
    pub fn frame(self) -> u32
        ensures { result ≡ frame_of self.0 }
    {
        self.0 >> 10
    }

    // The leaf that it is, if it is one. To write without reading is reserved: such an entry always faults.
    pub fn leaf(self) -> Option<Leaf>
        ensures { result ≡ leaf_of self.0 }
    {
        let leaf = Leaf {
            frame: self.frame(),
            readable: self.flag(READABLE),
            writable: self.flag(WRITABLE),
            executable: self.flag(EXECUTABLE),
        };
        (self.is_leaf() && (leaf.readable || !leaf.writable)).then_some(leaf)
    }
}
