// Marks on the 256 frames.
ghost use Rattle.std.specs.Prelude.{◌≡◌, ◌<◌, ◌&&◌, ◌||◌, true, ◌==◌};
ghost use Rattle.paging.specs.Entries.{frame_of, is_valid};
ghost use Rattle.checker.specs.Scaffold.{Shows, marked};

use paging::entry::Entry;
use paging::walk::MOST_FRAMES;
use std::array;

const FRAMES: usize = MOST_FRAMES as usize;

#[derive(Clone, Copy)]
pub(crate) struct Marks {
    marks: [bool; FRAMES],
}

impl Marks {
    pub(crate) const NONE: Marks = Marks {
        marks: [false; FRAMES],
    };

    pub(crate) fn has(&self, frame: u32) -> bool
        ensures value { result ≡ marked self.now frame }
        ensures below { result ≡ true → frame < 256 }
    {
        self.marks.get(frame as usize).copied().unwrap_or(false)
    }

    pub(crate) fn mark(&mut self, frame: u32)
        ensures { Shows self.new (λ f. marked self.old f || frame == f) }
    {
        // by index: what is written through `get_mut` is known to no proof
        if frame < MOST_FRAMES {
            self.marks[frame as usize] = true;
        }
    }

    pub(crate) fn add(&mut self, more: &Marks)
        ensures { Shows self.new (λ f. marked self.old f || marked more.now f) }
    {
        self.marks = array::from_fn(|f| self.marks[f] || more.marks[f]);
    }

    // Marks the frame that an entry references, if it is valid.
    pub(crate) fn mark_referenced(&mut self, entry: Entry)
        ensures { Shows self.new (λ f. marked self.old f || (is_valid entry.0 && frame_of entry.0 == f)) }
    {
        if entry.is_valid() {
            self.mark(entry.frame());
        }
    }
}
