// The fields of an instruction word and its immediates.
ghost use Rattle.std.specs.Prelude.{◌≡◌};
ghost use Rattle.isa.specs.Formats.{b_immediate, funct3, funct7, i_immediate, j_immediate, opcode, rd, rs1, rs2, s_immediate, u_immediate};

use crate::register::Register;
use words::bits::{bits, sign_extended};

// Each field has a function by its name in the manual. What they share is `bits` and `Register::new`.
pub(crate) fn opcode(word: u32) -> u32
    ensures { result ≡ opcode word }
{
    bits(word, 0, 7)
}

pub(crate) fn rd(word: u32) -> Register
    ensures { result ≡ rd word }
{
    Register::new(word >> 7)
}

pub(crate) fn funct3(word: u32) -> u32
    ensures { result ≡ funct3 word }
{
    bits(word, 12, 3)
}

pub(crate) fn rs1(word: u32) -> Register
    ensures { result ≡ rs1 word }
{
    Register::new(word >> 15)
}

pub(crate) fn rs2(word: u32) -> Register
    ensures { result ≡ rs2 word }
{
    Register::new(word >> 20)
}

pub(crate) fn funct7(word: u32) -> u32
    ensures { result ≡ funct7 word }
{
    bits(word, 25, 7)
}

// The immediates: each shift stands where the format draws the part. One loop over tables of parts would ask a bound on their
// widths and an invariant, for four sums of shifts that need no proof.
pub(crate) fn i_immediate(word: u32) -> i32
    ensures { result ≡ i_immediate word }
{
    sign_extended(bits(word, 20, 12), 12)
}

pub(crate) fn s_immediate(word: u32) -> i32
    ensures { result ≡ s_immediate word }
{
    sign_extended((bits(word, 25, 7) << 5) + bits(word, 7, 5), 12)
}

pub(crate) fn b_immediate(word: u32) -> i32
    ensures { result ≡ b_immediate word }
{
    let high = (bits(word, 31, 1) << 12) + (bits(word, 7, 1) << 11);
    sign_extended(
        high + (bits(word, 25, 6) << 5) + (bits(word, 8, 4) << 1),
        13,
    )
}

pub(crate) fn u_immediate(word: u32) -> i32
    ensures { result ≡ u_immediate word }
{
    sign_extended(bits(word, 12, 20) << 12, 32)
}

pub(crate) fn j_immediate(word: u32) -> i32
    ensures { result ≡ j_immediate word }
{
    let high = (bits(word, 31, 1) << 20) + (bits(word, 12, 8) << 12);
    sign_extended(
        high + (bits(word, 20, 1) << 11) + (bits(word, 21, 10) << 1),
        21,
    )
}
