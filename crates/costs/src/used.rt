// What one instruction used, and what that costs.
ghost use Rattle.std.specs.Prelude.{◌≡◌};
ghost use Rattle.costs.specs.Cycles.{cache_cycles, cycles, plain, walk_cycles};

use crate::{INSTRUCTION, MISPREDICTION, MISS, WALK, WRITE_BACK};

// What the data cache did.
#[derive(Clone, Copy)]
pub enum CacheUse {
    Unused,
    Hit,
    Miss,
    // a dirty line was evicted and is written back
    DirtyMiss,
}

impl CacheUse {
    #[inline]
    fn cycles(self) -> u32
        ensures { result ≡ cache_cycles self }
    {
        match self {
            CacheUse::Unused | CacheUse::Hit => 0,
            CacheUse::Miss => MISS,
            CacheUse::DirtyMiss => MISS + WRITE_BACK,
        }
    }
}

// The cycles of a look-up that walked the page table, or did not.
#[inline]
pub fn walk_cycles(walked: bool) -> u32
    ensures { result ≡ walk_cycles walked }
{
    if walked { WALK } else { 0 }
}

// What an instruction used, in the order in which it used it.
#[derive(Clone, Copy)]
pub struct Used {
    // whether the page table was walked for its own page
    pub fetch_walked: bool,
    // and for the page of its data
    pub data_walked: bool,
    pub cache: CacheUse,
    pub mispredicted: bool,
}

impl Used {
    // Nothing but the instruction itself.
    #[inline]
    pub fn plain() -> Self
        ensures { result ≡ plain }
    {
        Used {
            fetch_walked: false,
            data_walked: false,
            cache: CacheUse::Unused,
            mispredicted: false,
        }
    }

    // The cycles that the instruction took.
    #[inline]
    pub fn cycles(self) -> u32
        ensures { result ≡ cycles self }
    {
        let wrong = if self.mispredicted { MISPREDICTION } else { 0 };
        INSTRUCTION
            + walk_cycles(self.fetch_walked)
            + walk_cycles(self.data_walked)
            + self.cache.cycles()
            + wrong
    }
}
