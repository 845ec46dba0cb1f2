// The rule on the pages of channels: the sender may read its page, the receiver may read and not write its own,
// and neither frame is behind a page of another channel.
// Words and plan, or words and root, are two parameters, as lib.rt says.
ghost use Rattle.std.specs.Prelude.{◌≡◌, cond, nat_lt};
ghost use Rattle.plan.specs.Format.{rows};
ghost use Rattle.ranges.specs.Questions.{any, first, unless};
ghost use Rattle.checker.specs.Pages.{channel_frames, end_frame, frames_or_none, looked_up, meets, no_frames, pages_fault, pages_refusal, touch};

use crate::fault::{Fault, check_frame};
use crate::roots::root;
use paging::entry::Entry;
use paging::leaf::Leaf;
use paging::walk::{MOST_FRAMES, TABLE_ENTRIES};
use plan::model::{Channel, Endpoint, MOST_CHANNELS, Plan};
use plan::refusal::Refusal;
use std::array;
use words::frames::read;

// The frames behind the two pages of a channel.
#[derive(Clone, Copy, Default)]
pub struct ChannelFrames {
    pub sender: u32,
    pub receiver: u32,
}

impl ChannelFrames {
    // Whether one frame is behind a page of both.
    fn touch(self, other: ChannelFrames) -> bool
        ensures { result ≡ touch self other }
    {
        self.sender == other.sender
            || self.sender == other.receiver
            || self.receiver == other.sender
            || self.receiver == other.receiver
    }
}

// The leaf of a page. Its frame is not read, so it need not be lent.
#[tactic(auto, unfolding(crate::specs::Pages::looked_up))]
fn look_up(words: &[u32], root: u32, page: u32) -> Result<Leaf, Fault>
    ensures { result ≡ looked_up words.now root page }
{
    let (high, low) = (page / TABLE_ENTRIES, page % TABLE_ENTRIES);
    if high >= TABLE_ENTRIES {
        return Err(Fault::Broken);
    }
    check_frame(words, root)?;
    let entry = Entry(read(words, root, high));
    if !entry.is_pointer() {
        return Err(Fault::Broken);
    }
    check_frame(words, entry.frame())?;
    Entry(read(words, entry.frame(), low))
        .leaf()
        .filter(|leaf| leaf.frame < MOST_FRAMES)
        .ok_or(Fault::Broken)
}

// The frame behind a page that may be read, and, where it receives, not written.
#[tactic(auto, unfolding(crate::specs::Pages::end_frame))]
fn end_frame(words: &[u32], plan: &Plan, end: Endpoint, receives: bool) -> Result<u32, Fault>
    ensures { result ≡ end_frame words.now plan.now end receives }
{
    let leaf = look_up(words, root(plan, end.partition), end.page)?;
    if leaf.readable && !(receives && leaf.writable) {
        Ok(leaf.frame)
    } else {
        Err(Fault::Broken)
    }
}

#[tactic(auto, unfolding(crate::specs::Pages::channel_frames))]
fn channel_frames(words: &[u32], plan: &Plan, k: u8) -> Result<ChannelFrames, Fault>
    ensures { result ≡ channel_frames words.now plan.now k }
{
    let Channel { sender, receiver } = plan.channel(usize::from(k));
    let sender = end_frame(words, plan, sender, false)?;
    let receiver = end_frame(words, plan, receiver, true)?;
    Ok(ChannelFrames { sender, receiver })
}

#[tactic(auto, unfolding(crate::specs::Pages::meets))]
fn meets(words: &[u32], plan: &Plan, ours: ChannelFrames, j: u8) -> bool
    ensures { result ≡ meets words.now plan.now ours j }
{
    channel_frames(words, plan, j).is_ok_and(|theirs| ours.touch(theirs))
}

fn is_taken(words: &[u32], plan: &Plan, ours: ChannelFrames, k: u8) -> bool
    ensures { result ≡ any (meets words.now plan.now ours) k }
{
    (0..k).any(|j| meets(words, plan, ours, j))
}

#[tactic(auto, unfolding(crate::specs::Pages::pages_fault))]
fn check_pages_at(words: &[u32], plan: &Plan, k: u8) -> Result<(), Fault>
    ensures { result ≡ unless (pages_fault words.now plan.now k) tt }
{
    let ours = channel_frames(words, plan, k)?;
    if is_taken(words, plan, ours, k) {
        return Err(Fault::Broken);
    }
    Ok(())
}

fn check_pages_of(words: &[u32], plan: &Plan, k: u8) -> Result<(), Refusal>
    ensures { result ≡ unless (pages_refusal words.now plan.now k) tt }
{
    check_pages_at(words, plan, k).map_err(|fault| fault.refusal(Refusal::ChannelPage(k)))
}

// Whether both partitions of every channel may use its pages as said.
pub(crate) fn check_pages(words: &[u32], plan: &Plan) -> Result<(), Refusal>
    ensures { result ≡ unless (first (pages_refusal words.now plan.now) plan.now.counts.channels) tt }
{
    (0..plan.counts.channels).try_for_each(|k| check_pages_of(words, plan, k))
}

#[tactic(auto, unfolding(crate::specs::Pages::frames_or_none))]
fn frames_or_none(words: &[u32], plan: &Plan, k: u8) -> ChannelFrames
    ensures { result ≡ frames_or_none words.now plan.now k }
{
    channel_frames(words, plan, k).unwrap_or_default()
}

fn frames_or_blank(words: &[u32], plan: &Plan, k: usize) -> ChannelFrames
    ensures { result ≡ cond (nat_lt k plan.now.counts.channels) (frames_or_none words.now plan.now k) no_frames }
{
    if k < usize::from(plan.counts.channels) {
        frames_or_none(words, plan, k as u8)
    } else {
        ChannelFrames::default()
    }
}

// The frames of every channel, 0 where there are none.
pub(crate) fn all_channel_frames(words: &[u32], plan: &Plan) -> [ChannelFrames; MOST_CHANNELS]
    ensures { result ≡ rows (frames_or_none words.now plan.now) no_frames 16 plan.now.counts.channels }
{
    array::from_fn(|k| frames_or_blank(words, plan, k))
}
