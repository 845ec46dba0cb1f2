// The ALU: one function for operations with a constant and with a register.
ghost use Rattle.std.specs.Prelude.{◌≡◌};
ghost use Rattle.isa.specs.Effects.{offset_by};
ghost use Rattle.isa.specs.Integers.{remainder};
ghost use Rattle.isa.specs.Operations.{computed};

use crate::instruction::Operation;

impl Operation {
    // Sums and differences wrap at 32 bits; a shift is by the low five bits of `right`.
    pub fn compute(self, left: u32, right: u32) -> u32
        ensures { result ≡ computed self left right }
    {
        match self {
            Operation::Add => left.wrapping_add(right),
            Operation::Sub => left.wrapping_sub(right),
            Operation::ShiftLeft => left << (right % 32),
            Operation::LessThan => u32::from(left.cast_signed() < right.cast_signed()),
            Operation::LessThanUnsigned => u32::from(left < right),
            Operation::Xor => left ^ right,
            Operation::ShiftRight => left >> (right % 32),
            Operation::ShiftRightArithmetic => (left.cast_signed() >> (right % 32)).cast_unsigned(),
            Operation::Or => left | right,
            Operation::And => left & right,
        }
    }
}

// The word of an instruction's constant: its remainder by 2 ^ 32. It says `cast_unsigned` in the words of `compute`'s definition.
pub fn word_of(constant: i32) -> u32
    ensures { result ≡ remainder 32 constant }
{
    constant.cast_unsigned()
}

// An address and an offset, which wrap at 2 ^ 32.
pub fn offset_by(address: u32, offset: i32) -> u32
    ensures { result ≡ offset_by address offset }
{
    address.wrapping_add(word_of(offset))
}
