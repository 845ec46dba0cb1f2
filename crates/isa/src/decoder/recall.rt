// Decoding a word anew, and recalling what it decodes to.
ghost use Rattle.std.specs.Prelude.{◌≡◌, ◌<◌, slice_index_or};
ghost use Rattle.isa.specs.Decoding.{decoded};
ghost use Rattle.isa.specs.Remembered.{decoding, first_decoder, kept_at, remembered};

use super::{Decoder, Decoding, REMEMBERED};
use crate::decode::decode;
use crate::instruction::Instruction;

// So far apart the words of one program are kept from those of the next: 273 of the 1,024 for each frame between their roots.
const APART: u32 = 1092;

// A constructor and no `From`: it decodes.
impl Decoding {
    #[tactic(auto, using(crate::proofs::Recalling::one_decoding))]
    fn new(word: u32) -> Self
        ensures { result ≡ decoding word }
    {
        Decoding {
            word,
            instruction: decode(word),
        }
    }
}

impl Decoder {
    pub fn new() -> Self
        ensures { result ≡ first_decoder }
    {
        Decoder {
            decodings: [Decoding::new(0); REMEMBERED],
        }
    }

    // The instruction of the word at an address of a program, none where it is illegal. It is decoded anew only where another word is
    // remembered for the address and the root: with any of them the answer is the same.
    #[inline]
    pub fn recall(&mut self, pc: u32, root: u32, word: u32) -> &Option<Instruction>
        ensures answer { result.now ≡ decoded word }
    {
        let at = kept_at(pc, root);
        self.remember(at, word);
        &self.decodings[at].instruction
    }

    // Sees to it that the word is remembered there.
    #[inline]
    fn remember(&mut self, at: usize, word: u32)
        requires within { at < 1024 }
        ensures after { self.new ≡ remembered self.old at word }
        ensures word { (slice_index_or self.new.decodings at (decoding 0)).word ≡ word }
    {
        if self.decodings[at].word != word {
            self.decodings[at] = Decoding::new(word);
        }
    }
}

// Where the word of an address is remembered.
fn kept_at(pc: u32, root: u32) -> usize
    ensures place { result ≡ kept_at pc root }
    ensures within { result < 1024 }
{
    (pc.wrapping_add(root.wrapping_mul(APART)) / 4) as usize % REMEMBERED
}
