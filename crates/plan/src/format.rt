// The plan's bytes: three counts of one byte, the budget in four, then the parts, rows of one size each. Numbers are
// low byte first.
ghost use Rattle.std.specs.Prelude.{◌≡◌, ℕ, ◌+◌, ◌*◌, ◌^◌, ◌<◌, List};
ghost use Rattle.std.proofs.Common.{rules};
ghost use Rattle.plan.specs.Format.{channel_at, channels_from, counts_of, longest, no_channel, no_partition, no_slot, partition_at, plan_of, plan_size, rows, slot_at, slots_from};

use crate::model::*;
use std::array;
use words::bytes::{byte_at, u16_at, u32_at};

const HEADER: usize = 7;

// A row of the plan, a kind of record of one size.
trait Row: Copy + Default {
    // how many bytes it has
    const SIZE: usize;

    ghost SIZE: { ℕ };

    // what the bytes from a place on say
    ghost row_at: { List ℕ → ℕ → Self };

    // what stands past the last
    ghost blank: { Self };

    fn read(bytes: &[u8], at: usize) -> Self
        requires { at < 2 ^ 32 }
        ensures { result ≡ row_at bytes.now at };

    ghost short: { SIZE < 2 ^ 8 };

    ghost blank_is_default: { (x : Self) → Self.is_default x → x ≡ blank };
}

// So many bytes of a file tell all: no counts ask for as many, so a plan that goes on has bytes after its end.
pub fn longest() -> usize
    ensures { result ≡ longest }
{
    let fullest = Counts {
        partitions: u8::MAX,
        slots: u8::MAX,
        channels: u8::MAX,
    };
    fullest.plan_size() + 1
}

impl Counts {
    // The counts in the first three bytes, whatever they are.
    pub fn read(bytes: &[u8]) -> Counts
        ensures { result ≡ counts_of bytes.now }
    {
        Counts {
            partitions: byte_at(bytes, 0),
            slots: byte_at(bytes, 1),
            channels: byte_at(bytes, 2),
        }
    }

    fn slots_from(self) -> usize
        ensures { result ≡ slots_from self }
    {
        HEADER + Partition::SIZE * usize::from(self.partitions)
    }

    fn channels_from(self) -> usize
        ensures { result ≡ channels_from self }
    {
        self.slots_from() + Slot::SIZE * usize::from(self.slots)
    }

    // How many bytes a plan with these counts has.
    pub(crate) fn plan_size(self) -> usize
        ensures { result ≡ plan_size self }
    {
        self.channels_from() + Channel::SIZE * usize::from(self.channels)
    }
}

impl Row for Partition {
    const SIZE: usize = 6;

    ghost SIZE = { 6 };

    ghost row_at = { partition_at };

    ghost blank = { no_partition };

    ghost short = { Prim.search rules };

    ghost blank_is_default = { Prim.search rules };

    fn read(bytes: &[u8], at: usize) -> Partition {
        Partition {
            root: u16_at(bytes, at),
            start: u32_at(bytes, at + 2),
        }
    }
}

impl Row for Slot {
    const SIZE: usize = 5;

    ghost SIZE = { 5 };

    ghost row_at = { slot_at };

    ghost blank = { no_slot };

    ghost short = { Prim.search rules };

    ghost blank_is_default = { Prim.search rules };

    fn read(bytes: &[u8], at: usize) -> Slot {
        Slot {
            partition: byte_at(bytes, at),
            length: u32_at(bytes, at + 1),
        }
    }
}

impl Row for Channel {
    const SIZE: usize = 10;

    ghost SIZE = { 10 };

    ghost row_at = { channel_at };

    ghost blank = { no_channel };

    ghost short = { Prim.search rules };

    ghost blank_is_default = { Prim.search rules };

    fn read(bytes: &[u8], at: usize) -> Channel {
        Channel {
            sender: Endpoint {
                partition: byte_at(bytes, at),
                page: u32_at(bytes, at + 2),
            },
            receiver: Endpoint {
                partition: byte_at(bytes, at + 1),
                page: u32_at(bytes, at + 6),
            },
        }
    }
}

impl Plan {
    // The plan that the bytes say, whether or not it keeps the rules.
    #[tactic(auto, unfolding(crate::specs::Format::plan_of))]
    pub fn read(bytes: &[u8]) -> Plan
        ensures { result ≡ plan_of bytes.now }
    {
        let counts = Counts::read(bytes);
        Plan {
            counts,
            budget: u32_at(bytes, 3),
            partitions: rows_in(bytes, HEADER, counts.partitions),
            slots: rows_in(bytes, counts.slots_from(), counts.slots),
            channels: rows_in(bytes, counts.channels_from(), counts.channels),
        }
    }
}

// The first `many` rows from a place on, and blanks up to N.
fn rows_in<T: Row, const N: usize>(bytes: &[u8], start: usize, many: u8) -> [T; N]
    requires { start < 2 ^ 16 }
    ensures { result ≡ rows (λ k. T.row_at bytes.now (start + T.SIZE * k)) T.blank N many }
{
    array::from_fn(
        |k: usize| -> T
            requires { start < 2 ^ 16 }
        {
            if k < usize::from(many) {
                T::read(bytes, start + T::SIZE * k)
            } else {
                T::default()
            }
        },
    )
}
