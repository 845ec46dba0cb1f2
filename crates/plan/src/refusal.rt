// Why a plan or an image is refused: a rule, by its number, and the place at which it is broken.
ghost use Rattle.std.specs.Prelude.{◌≡◌, Some};
ghost use Rattle.plan.specs.Refused.{number_of, place_of, refusal_text};

use std::fmt;

#[derive(Clone, Copy, Debug)]
pub enum Count {
    Partitions,
    Slots,
    Channels,
}

#[derive(Clone, Copy, Debug)]
pub enum Refusal {
    // the bytes end inside the plan, after so many
    Truncated(usize),
    // a count is outside of its range
    CountRange(Count),
    // a slot's partition or length
    SlotRule(u8),
    // a channel's partitions
    ChannelRule(u8),
    // a channel's pages are not pages that both may use as said
    ChannelPage(u8),
    // too many frames are lent, or a partition's root is no frame or an earlier one's
    RootRule(u8),
    // a partition's page tables are malformed
    TableMalformed(u8),
    // a frame is referenced by this partition and an earlier one, or a page-table frame by either
    FrameShared(u8),
    // a partition's start address is not a multiple of 4
    StartMisaligned(u8),
    // the budget is outside of its range or does not cover every switch
    BudgetRule,
    // fewer frames are lent than are needed
    FramesMissing,
    // bytes after the end, from this one on
    Surplus(usize),
}

impl Refusal {
    // The number of the broken rule: a number, since it is printed, and the enum is the refusal itself.
    pub fn number(self) -> u8
        ensures { result ≡ number_of self }
    {
        match self {
            Refusal::Truncated(_) => 1,
            Refusal::CountRange(_) => 2,
            Refusal::SlotRule(_) => 3,
            Refusal::ChannelRule(_) => 4,
            Refusal::ChannelPage(_) => 5,
            Refusal::RootRule(_) => 6,
            Refusal::TableMalformed(_) => 7,
            Refusal::FrameShared(_) => 8,
            Refusal::StartMisaligned(_) => 9,
            Refusal::BudgetRule => 10,
            Refusal::FramesMissing => 11,
            Refusal::Surplus(_) => 12,
        }
    }

    // The place at which it is broken, a number for the same reason.
    pub fn place(self) -> usize
        ensures { result ≡ place_of self }
    {
        match self {
            Refusal::Truncated(length) => length,
            Refusal::CountRange(Count::Partitions) => 0,
            Refusal::CountRange(Count::Slots) => 1,
            Refusal::CountRange(Count::Channels) => 2,
            Refusal::SlotRule(at)
            | Refusal::ChannelRule(at)
            | Refusal::ChannelPage(at)
            | Refusal::RootRule(at)
            | Refusal::TableMalformed(at)
            | Refusal::FrameShared(at)
            | Refusal::StartMisaligned(at) => usize::from(at),
            Refusal::BudgetRule => 3,
            Refusal::FramesMissing => 0,
            Refusal::Surplus(at) => at,
        }
    }
}

// By hand, since a contract says the text.
impl fmt::Display for Refusal {
    ghost output = { λ e. Some (refusal_text e) };

    fn fmt<W: fmt::Write>(&self, f: &mut fmt::Formatter<W>) -> fmt::Result {
        let number = self.number();
        let place = self.place();
        write!(f, "refused {number} at {place}")
    }
}
