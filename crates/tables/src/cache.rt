// The data cache: which lines of memory are at hand, and which of them are dirty. It holds no words; what is loaded and stored lies in the frames at all times.
ghost use Rattle.std.specs.Prelude.{◌≡◌, ◌≤◌};
ghost use Rattle.costs.specs.Costs.{cache_lines};
ghost use Rattle.tables.specs.Cache.{AtHand, access_use, accessed, dirty_count, empty_cache, has_tag, is_dirty, line_of};

use costs::CACHE_LINES;
use costs::used::CacheUse;
use paging::physical::PhysicalAddress;

const LINES: usize = CACHE_LINES as usize;

const LINE_BYTES: u32 = 64;

// A line of memory that is in the cache: the tag is the part of its number that its place in the cache does not tell.
#[derive(Clone, Copy)]
pub struct Line {
    pub tag: u32,
    // the line's own mark; whether there is a line, the `Option` says
    pub dirty: bool,
}

#[derive(Clone, Copy)]
pub struct Cache {
    lines: [Option<Line>; LINES],
}

fn is_dirty(line: Option<Line>) -> bool
    ensures { result ≡ is_dirty line }
{
    line.is_some_and(|line| line.dirty)
}

fn has_tag(line: Option<Line>, tag: u32) -> bool
    ensures { result ≡ has_tag tag line }
{
    line.is_some_and(|line| line.tag == tag)
}

impl Cache {
    pub fn new() -> Self
        ensures { result ≡ empty_cache }
    {
        Cache {
            lines: [None; LINES],
        }
    }

    // A load or a store: what the cache does.
    // A frame has as many lines as the cache, so the place of a line in the cache is its place in the frame, and the frame is its tag.
    // The line is written whatever was there: which accesses hit is the program's doing, and a branch on it that goes either way takes longer.
    pub fn access(&mut self, physical: PhysicalAddress, store: bool) -> CacheUse
        ensures does { result ≡ access_use self.old (line_of physical) }
        ensures after { self.new ≡ accessed self.old (line_of physical) store }
        ensures there { AtHand self.new (line_of physical) }
    {
        let at = (physical.offset / LINE_BYTES) as usize % LINES;
        let tag = physical.frame;
        let old = self.lines[at];
        let hit = has_tag(old, tag);
        let dirty = is_dirty(old);
        self.lines[at] = Some(Line {
            tag,
            dirty: store || (hit && dirty),
        });
        match (hit, dirty) {
            (true, _) => CacheUse::Hit,
            (false, false) => CacheUse::Miss,
            (false, true) => CacheUse::DirtyMiss,
        }
    }

    // How many lines are dirty. A sum and no `filter` and `count`, which branch at each line: a switch counts whatever pattern a program left.
    #[tactic(auto, unfolding(ranges::specs::Questions::count))]
    pub fn dirty_lines(&self) -> u32
        ensures value { result ≡ dirty_count self.now }
        ensures most { result ≤ cache_lines }
    {
        let mut dirty = 0;
        for line in &self.lines {
            dirty += u32::from(is_dirty(*line));
        }
        dirty
    }
}
