// The rules of a plan that need no memory.
ghost use Rattle.std.specs.Prelude.{◌≡◌};
ghost use Rattle.ranges.specs.Questions.{first, unless};
ghost use Rattle.plan.specs.Rules.{budget_fault, channel, channel_fault, count_fault, partition, slot, slot_fault, start_fault};

use crate::model::*;
use crate::refusal::{Count, Refusal};

const SHORTEST_SLOT: u32 = 128;

const LONGEST_SLOT: u32 = 1_000_000;

const LEAST_BUDGET: u32 = 64;

const MOST_BUDGET: u32 = 100_000;

impl Counts {
    // Whether each count is in its range.
    #[tactic(auto, unfolding(ranges::specs::Questions::first))]
    pub fn check(self) -> Result<(), Refusal>
        ensures { result ≡ unless (first (count_fault self) 3) tt }
    {
        if !(1..=MOST_PARTITIONS).contains(&usize::from(self.partitions)) {
            return Err(Refusal::CountRange(Count::Partitions));
        }
        if !(1..=MOST_SLOTS).contains(&usize::from(self.slots)) {
            return Err(Refusal::CountRange(Count::Slots));
        }
        if usize::from(self.channels) > MOST_CHANNELS {
            return Err(Refusal::CountRange(Count::Channels));
        }
        Ok(())
    }
}

impl Plan {
    // Partition k of the plan; blank past the last. Three names for the three kinds of rows, each over the library's `get`.
    pub fn partition(&self, k: usize) -> Partition
        ensures { result ≡ partition self.now k }
    {
        self.partitions.get(k).copied().unwrap_or_default()
    }

    // Slot k of the plan; blank past the last.
    pub fn slot(&self, k: usize) -> Slot
        ensures { result ≡ slot self.now k }
    {
        self.slots.get(k).copied().unwrap_or_default()
    }

    // Channel k of the plan; blank past the last.
    pub fn channel(&self, k: usize) -> Channel
        ensures { result ≡ channel self.now k }
    {
        self.channels.get(k).copied().unwrap_or_default()
    }

    fn check_slot(&self, k: u8) -> Result<(), Refusal>
        ensures { result ≡ unless (slot_fault self.now k) tt }
    {
        let Slot { partition, length } = self.slot(usize::from(k));
        if partition >= self.counts.partitions
            || !(SHORTEST_SLOT..=LONGEST_SLOT).contains(&length)
        {
            return Err(Refusal::SlotRule(k));
        }
        Ok(())
    }

    // Whether every slot is a partition's and of a length that is allowed.
    pub fn check_slots(&self) -> Result<(), Refusal>
        ensures { result ≡ unless (first (slot_fault self.now) self.now.counts.slots) tt }
    {
        (0..self.counts.slots).try_for_each(|k| self.check_slot(k))
    }

    fn check_channel(&self, k: u8) -> Result<(), Refusal>
        ensures { result ≡ unless (channel_fault self.now k) tt }
    {
        let Channel { sender, receiver } = self.channel(usize::from(k));
        let partitions = self.counts.partitions;
        if sender.partition >= partitions
            || receiver.partition >= partitions
            || sender.partition == receiver.partition
        {
            return Err(Refusal::ChannelRule(k));
        }
        Ok(())
    }

    // Whether every channel leads from one partition to another.
    pub fn check_channels(&self) -> Result<(), Refusal>
        ensures { result ≡ unless (first (channel_fault self.now) self.now.counts.channels) tt }
    {
        (0..self.counts.channels).try_for_each(|k| self.check_channel(k))
    }

    fn check_start(&self, k: u8) -> Result<(), Refusal>
        ensures { result ≡ unless (start_fault self.now k) tt }
    {
        if self.partition(usize::from(k)).start % 4 != 0 {
            return Err(Refusal::StartMisaligned(k));
        }
        Ok(())
    }

    // Whether every start address is a multiple of 4.
    pub fn check_starts(&self) -> Result<(), Refusal>
        ensures { result ≡ unless (first (start_fault self.now) self.now.counts.partitions) tt }
    {
        (0..self.counts.partitions).try_for_each(|k| self.check_start(k))
    }

    // Whether the budget is in its range and covers every switch.
    pub fn check_budget(&self) -> Result<(), Refusal>
        ensures { result ≡ unless (budget_fault self.now) tt }
    {
        if !(LEAST_BUDGET..=MOST_BUDGET).contains(&self.budget)
            || self.budget < self.required_budget()
        {
            return Err(Refusal::BudgetRule);
        }
        Ok(())
    }
}
