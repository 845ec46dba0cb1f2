// The rules on the frames that a plan runs in, and the checker of all rules.
#![tactic(auto)]

ghost use Rattle.std.specs.Prelude.{◌≡◌};
ghost use Rattle.checker.specs.Checked.{TellsAll, checked};
ghost use Rattle.checker.specs.Found.{AcceptedSeparate, AcceptedUnshared, CheckedJudges, Judges, OneFirst};
ghost use Rattle.checker.specs.Lawful.{LeadsMaps};

mod claims;
pub mod fault;
mod marks;
pub mod pages;
mod roots;
mod sharing;
mod tables;

use crate::pages::{ChannelFrames, all_channel_frames, check_pages};
use crate::roots::check_roots;
use crate::sharing::Naming;
use plan::model::{MOST_CHANNELS, Plan};
use plan::refusal::Refusal;

// An accepted plan, and the two frames that each of its channels joins. They stand beside the channels, since a plan is what its bytes say.
#[derive(Clone, Copy)]
pub struct Accepted {
    pub plan: Plan,
    pub frames: [ChannelFrames; MOST_CHANNELS],
}

// The plan that the bytes say, with the frames of its channels, or the refusal of the first rule that it or the lent words break.
pub fn check(bytes: &[u8], words: &[u32]) -> Result<Accepted, Refusal>
    ensures value { result ≡ checked bytes.now words.now }
    ensures verdict { Judges bytes.now words.now result }
{
    first_refusal(bytes, words)
}

// The words, and the plan or a root, stay two parameters: with both in a struct, clauses say `self.entry.words.now` where they say `words.now`.
// Apart from `check`: in one function the verdict stayed open at eleven of its thirteen returns.
#[tactic(auto, unfolding(crate::specs::Checked::checked, crate::specs::Checked::first_refusal))]
fn first_refusal(bytes: &[u8], words: &[u32]) -> Result<Accepted, Refusal>
    ensures { result ≡ checked bytes.now words.now }
{
    let plan = Plan::read(bytes);
    plan.check_whole(bytes)?;
    plan.counts.check()?;
    plan.check_slots()?;
    plan.check_channels()?;
    check_pages(words, &plan)?;
    check_roots(words, &plan)?;
    let naming = Naming::check_tables(words, &plan)?;
    naming.check_shared()?;
    plan.check_starts()?;
    plan.check_budget()?;
    naming.check_lent(words, &plan)?;
    plan.check_end(bytes)?;
    Ok(Accepted {
        plan,
        frames: all_channel_frames(words, &plan),
    })
}

// A verdict is the only one, and stands on what pages map to. In an accepted plan no frame is referenced by two partitions, and no page-table frame
// by any, so no page leads there. A file is not read further than a byte past the longest plan.
pub fn laws()
    ensures judges { CheckedJudges }
    ensures one_first { OneFirst }
    ensures leads { LeadsMaps }
    ensures separate { AcceptedSeparate }
    ensures unshared { AcceptedUnshared }
    ensures tells_all { TellsAll }
{}
