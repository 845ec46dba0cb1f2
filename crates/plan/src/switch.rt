// What a switch makes after a slot of a partition, and the budget that covers every switch.
ghost use Rattle.std.specs.Prelude.{◌≡◌, ◌+◌, ◌*◌, ◌≤◌};
ghost use Rattle.costs.specs.Costs.{copied_word, worst_switch};
ghost use Rattle.plan.specs.Places.{channels_out};
ghost use Rattle.plan.specs.Switch.{copies, copy_cycles, required_budget};

use crate::model::Plan;
use costs::{COPIED_WORD, WORST_SWITCH};
use words::frames::FRAME_WORDS;

// The cycles of a message: one frame.
pub const MESSAGE: u32 = FRAME_WORDS as u32 * COPIED_WORD;

impl Plan {
    // How many channels lead out of a partition.
    pub fn channels_out(&self, who: u8) -> u8
        ensures { result ≡ channels_out self.now who }
    {
        (0..self.counts.channels)
            .filter(|k| self.channel(usize::from(*k)).sender.partition == who)
            .count() as u8
    }

    // The cycles of the copies after a slot of a partition: each channel out of it has one frame copied.
    #[tactic(auto, using(crate::proofs::Copying::cycles_of))]
    pub fn copy_cycles(&self, who: u8) -> u32
        ensures value { result ≡ copy_cycles (copies self.now who) }
        ensures most { result ≤ 255 * 1024 * copied_word }
    {
        u32::from(self.channels_out(who)) * MESSAGE
    }

    // The most cycles from the end of a slot of a partition to that of its switch: the rest of the last instruction, the write-back
    // of every line, and the copies.
    fn longest_switch(&self, who: u8) -> u32
        ensures { result ≡ worst_switch + copy_cycles (copies self.now who) }
    {
        WORST_SWITCH + self.copy_cycles(who)
    }

    // The least budget that covers every switch.
    pub(crate) fn required_budget(&self) -> u32
        ensures { result ≡ required_budget self.now }
    {
        (0..self.counts.partitions)
            .map(|who| self.longest_switch(who))
            .max()
            .unwrap_or(0)
            .max(WORST_SWITCH)
    }
}
