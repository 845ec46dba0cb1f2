// A plan as structs and fixed arrays. Places past a count hold the blank of their kind.
pub const MOST_PARTITIONS: usize = 8;

pub const MOST_SLOTS: usize = 64;

pub const MOST_CHANNELS: usize = 16;

// How many there are of each.
#[derive(Clone, Copy)]
pub struct Counts {
    pub partitions: u8,
    pub slots: u8,
    pub channels: u8,
}

// A program of its own: the frame of its root page table, and the address of its first instruction.
#[derive(Clone, Copy, Default)]
pub struct Partition {
    pub root: u16,
    pub start: u32,
}

// Which partition runs, and for how many cycles.
#[derive(Clone, Copy, Default)]
pub struct Slot {
    pub partition: u8,
    pub length: u32,
}

// A partition's end of a channel: one of its virtual pages.
#[derive(Clone, Copy, Default)]
pub struct Endpoint {
    pub partition: u8,
    pub page: u32,
}

// At each switch after a slot of the sender its page is copied over the receiver's.
#[derive(Clone, Copy, Default)]
pub struct Channel {
    pub sender: Endpoint,
    pub receiver: Endpoint,
}

// Arrays with their counts beside them, and no `Vec`: nothing below the programs has a heap.
#[derive(Clone, Copy)]
pub struct Plan {
    pub counts: Counts,
    // the cycles from the end of a slot's length to the next slot
    pub budget: u32,
    pub partitions: [Partition; MOST_PARTITIONS],
    pub slots: [Slot; MOST_SLOTS],
    pub channels: [Channel; MOST_CHANNELS],
}
