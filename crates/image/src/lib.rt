// An image of memory: a count of frames in two bytes, low byte first, then the frames, each 1,024 words of four bytes.
#![tactic(auto)]

ghost use Rattle.std.specs.Prelude.{◌≡◌, ◌≤◌, IfOk, MatchResult};
ghost use Rattle.ranges.specs.Questions.{unless};
ghost use Rattle.image.specs.Example.{Example};
ghost use Rattle.image.specs.Frames.{CountTells, ImageBroken, TellsAll, Whole, WordsAreBytes, counted, front_size, image_fault, image_size, image_words, lent_frames, longest};

use plan::refusal::Refusal;
use std::alloc::{AllocError, Global};
use words::bytes::{u16_at, u32_at};
use words::frames::FRAME_WORDS;

// The bytes of the count.
pub const HEADER: usize = 2;

const FRAME: usize = FRAME_WORDS * 4;

// The bytes that the image has to have.
fn size(image: &[u8]) -> usize
    ensures { result ≡ image_size (counted image.now) }
{
    HEADER + FRAME * usize::from(u16_at(image, 0))
}

// So many bytes of a file that begins with these tell all: an image that goes on has bytes after its last frame.
pub fn front_size(image: &[u8]) -> usize
    ensures value { result ≡ front_size image.now }
    ensures bounded { result ≤ longest }
{
    size(image) + 1
}

// How many frames the image lends: the whole ones that it has, at most as many as it counts.
fn lent(image: &[u8]) -> usize
    ensures { result ≡ lent_frames image.now }
{
    let whole = image.len().saturating_sub(HEADER) / FRAME;
    whole.min(usize::from(u16_at(image, 0)))
}

// The words of the lent frames.
pub fn load(heap: Global, image: &[u8]) -> Result<Vec<u32>, AllocError>
    ensures { IfOk result (λ v. v.items ≡ image_words image.now) }
{
    (0..lent(image) * FRAME_WORDS)
        .map(|k| u32_at(image, HEADER + 4 * k))
        .collect(heap)
}

// Whether the image has as many bytes as it counts frames, no fewer and no more.
#[tactic(auto, using(crate::proofs::Verdict::told_as))]
pub fn check(image: &[u8]) -> Result<(), Refusal>
    ensures value { result ≡ unless (image_fault image.now) tt }
    ensures verdict { MatchResult result (λ _. Whole image.now) (ImageBroken image.now) }
{
    let size = size(image);
    if image.len() < size {
        return Err(Refusal::FramesMissing);
    }
    if image.len() > size {
        return Err(Refusal::Surplus(size));
    }
    Ok(())
}

// The lent words are the bytes, frame by frame. A file is not read past the first byte after its last frame: nothing there changes a
// verdict or a lent word.
pub fn laws()
    ensures words_are_bytes { WordsAreBytes }
    ensures example { Example }
    ensures tells_all { TellsAll }
    ensures count_tells { CountTells }
{}
