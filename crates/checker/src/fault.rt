// What stops the check of a rule: it is broken, or a frame that is not lent would have to be read.
ghost use Rattle.std.specs.Prelude.{◌≡◌};
ghost use Rattle.checker.specs.Faults.{frame_fault, refused_with};
ghost use Rattle.ranges.specs.Questions.{unless};

use paging::walk::MOST_FRAMES;
use plan::refusal::Refusal;
use words::frames::is_lent;

#[derive(Clone, Copy)]
pub enum Fault {
    Broken,
    NotLent,
}

impl Fault {
    // The refusal of a plan at this fault, where `rule` is that of the rule.
    pub(crate) fn refusal(self, rule: Refusal) -> Refusal
        ensures { result ≡ refused_with rule self }
    {
        match self {
            Fault::Broken => rule,
            Fault::NotLent => Refusal::FramesMissing,
        }
    }
}

// Whether a page table may be read in the frame.
pub(crate) fn check_frame(words: &[u32], frame: u32) -> Result<(), Fault>
    ensures { result ≡ unless (frame_fault words.now frame) tt }
{
    if frame >= MOST_FRAMES {
        return Err(Fault::Broken);
    }
    if !is_lent(words, frame) {
        return Err(Fault::NotLent);
    }
    Ok(())
}
