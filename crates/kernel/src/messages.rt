// The messages that go after a slot: over each channel of the partition that ran, its page is copied to the receiver's.
ghost use Rattle.std.specs.Prelude.{◌≡◌, cond};
ghost use Rattle.plan.specs.Places.{leaves};
ghost use Rattle.plan.specs.Switch.{copies, message};
ghost use Rattle.checker.specs.Pages.{frames_at};
ghost use Rattle.kernel.specs.Switch.{carried, delivered};

use checker::Accepted;
use checker::pages::ChannelFrames;
use words::frames;

fn frames_at(frames: &[ChannelFrames], k: u8) -> ChannelFrames
    ensures { result ≡ frames_at frames.now k }
{
    frames.get(usize::from(k)).copied().unwrap_or_default()
}

fn carry(accepted: &Accepted, who: u8, k: u8, words: &mut [u32])
    ensures { words.new ≡ cond (leaves accepted.now.plan who k) (carried accepted.now words.old (message accepted.now.plan k)) words.old }
{
    if accepted.plan.channel(usize::from(k)).sender.partition == who {
        let frames = frames_at(&accepted.frames, k);
        frames::copy(words, frames.sender, frames.receiver);
    }
}

// Carries the messages out of the partition that ran, in the plan's order.
// By number and not by a `zip`: a plan that nobody accepted may count more channels than there are, and past them each is blank.
pub(crate) fn deliver(accepted: &Accepted, who: u8, words: &mut [u32])
    ensures { words.new ≡ delivered accepted.now (copies accepted.now.plan who) words.old }
{
    for k in 0..accepted.plan.counts.channels {
        carry(accepted, who, k, words);
    }
}
