// The walk: an entry of the root frame points to a table, and an entry of the table is the leaf.
ghost use Rattle.std.specs.Prelude.{◌≡◌};
ghost use Rattle.paging.specs.Mapping.{Finds};
ghost use Rattle.paging.specs.Walks.{has_frame, leaf_at, table_at, walked};

use crate::entry::Entry;
use crate::leaf::Leaf;
use words::frames::{FRAME_WORDS, is_lent, read};

pub const MOST_FRAMES: u32 = 256;
// A table fills a frame.
pub const TABLE_ENTRIES: u32 = FRAME_WORDS as u32;

// Whether a walk may go to the frame: it is below 256, and all of its words are lent.
pub fn has_frame(words: &[u32], frame: u32) -> bool
    ensures { result ≡ has_frame words.now frame }
{
    frame < MOST_FRAMES && is_lent(words, frame)
}

fn table_at(words: &[u32], root: u32, high: u32) -> Option<u32>
    ensures { result ≡ table_at words.now root high }
{
    if high >= TABLE_ENTRIES || !has_frame(words, root) {
        return None;
    }
    let entry = Entry(read(words, root, high));
    (entry.is_pointer() && has_frame(words, entry.frame())).then_some(entry.frame())
}

fn leaf_at(words: &[u32], table: u32, low: u32) -> Option<Leaf>
    ensures { result ≡ leaf_at words.now table low }
{
    Entry(read(words, table, low))
        .leaf()
        .filter(|leaf| has_frame(words, leaf.frame))
}

// The leaf of a page under a root frame; none where the walk faults.
// The words and the root stay two parameters: the words are lent for writing one layer up, so nothing can hold the pair between walks.
#[tactic(auto, using(crate::proofs::Found::finds), unfolding(crate::specs::Walks::walked))]
pub fn walk(words: &[u32], root: u32, page: u32) -> Option<Leaf>
    ensures value { result ≡ walked words.now root page }
    ensures finds { Finds words.now root page result }
{
    let (high, low) = (page / TABLE_ENTRIES, page % TABLE_ENTRIES);
    let table = table_at(words, root, high)?;
    leaf_at(words, table, low)
}
