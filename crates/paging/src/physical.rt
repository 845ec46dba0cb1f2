// Places in memory.
use words::frames::FRAME_WORDS;

// A byte of memory: its frame, and how many bytes of the frame stand before it, below 4,096.
#[derive(Clone, Copy)]
pub struct PhysicalAddress {
    pub frame: u32,
    pub offset: u32,
}

// A page is as large as a frame.
pub const PAGE_BYTES: u32 = 4 * FRAME_WORDS as u32;
