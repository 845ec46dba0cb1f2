// A decoder that remembers. It is no part of the machine: it answers what decoding answers, and sooner.
ghost use Rattle.std.specs.Prelude.{◌≡◌};
ghost use Rattle.isa.specs.Decoding.{decoded};

use crate::instruction::Instruction;

const REMEMBERED: usize = 1024;

// A word, and what it decodes to.
#[derive(Clone, Copy)]
struct Decoding {
    word: u32,
    instruction: Option<Instruction>,
    ghost right: { instruction ≡ decoded word },
}

// Remembers words and what they decode to.
#[derive(Clone, Copy)]
pub struct Decoder {
    decodings: [Decoding; REMEMBERED],
}

mod recall;
