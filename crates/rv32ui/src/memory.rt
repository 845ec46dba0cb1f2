// The memory in which programs run: frames with page tables, code and data.
ghost use Rattle.std.specs.Prelude.{◌≡◌};
ghost use Rattle.paging.specs.Small.{laid_out, with_page};
ghost use Rattle.rv32ui.specs.Memory.{put_at};

use words::frames::{FRAME_WORDS, write};

pub const MEMORY_WORDS: usize = 5 * FRAME_WORDS;

// The address of page 16.
pub const CODE: u32 = 0x1_0000;

pub const CODE_FRAME: u32 = 2;

// The frame of page 17.
pub const DATA_FRAME: u32 = 3;

// An entry with V alone, which points to frame 1.
pub const TO_FRAME_1: u32 = 0x0000_0401;

// Puts values into a frame, from a word of it on; nothing where not all of those words are lent.
pub fn put(words: &mut [u32], frame: u32, first: u32, values: &[u32])
    ensures { words.new ≡ put_at words.old frame first values.now }
{
    let start = frame as usize * FRAME_WORDS + first as usize;
    if start < words.len() && values.len() <= words.len() - start {
        words[start..start + values.len()].copy_from_slice(values);
    }
}

// The page tables. The root is frame 0 and points to frame 1. Page 16 is the code with R and X, page 17 is data with R and W.
pub fn lay_out(words: &mut [u32])
    ensures { words.new ≡ laid_out words.old }
{
    write(words, 0, 0, TO_FRAME_1);
    add_page(words, 16, 0x0000_08db);
    add_page(words, 17, 0x0000_0cd7);
}

// The entry of one more page.
pub fn add_page(words: &mut [u32], page: u32, entry: u32)
    ensures { words.new ≡ with_page words.old page entry }
{
    write(words, 1, page, entry);
}
