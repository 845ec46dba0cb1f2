// Reading the numbers of the manual's tables.
ghost use Rattle.isa.specs.Conditions.{condition_number, conditions};
ghost use Rattle.isa.specs.Csrs.{csr_number, csrs};
ghost use Rattle.isa.specs.Loads.{load_number, loads};
ghost use Rattle.isa.specs.Operations.{ReadsOperation};
ghost use Rattle.isa.specs.Stores.{store_number, stores};
ghost use Rattle.isa.specs.Tables.{ReadAs};

use crate::instruction::{Condition, Csr, LoadWidth, Operation, StoreWidth};

// A number that its table doesn't have, or a word that has one and so is no instruction.
#[derive(Clone, Copy)]
pub struct Illegal;

// By funct3.
impl TryFrom<u32> for Condition {
    type Error = Illegal;

    ghost try_from_gives = { ReadAs condition_number conditions };

    fn try_from(number: u32) -> Result<Self, Illegal> {
        match number {
            0 => Ok(Condition::Equal),
            1 => Ok(Condition::NotEqual),
            4 => Ok(Condition::Less),
            5 => Ok(Condition::GreaterEqual),
            6 => Ok(Condition::LessUnsigned),
            7 => Ok(Condition::GreaterEqualUnsigned),
            _ => Err(Illegal),
        }
    }
}

// By funct3.
impl TryFrom<u32> for LoadWidth {
    type Error = Illegal;

    ghost try_from_gives = { ReadAs load_number loads };

    fn try_from(number: u32) -> Result<Self, Illegal> {
        match number {
            0 => Ok(LoadWidth::Byte),
            1 => Ok(LoadWidth::Half),
            2 => Ok(LoadWidth::Word),
            4 => Ok(LoadWidth::ByteUnsigned),
            5 => Ok(LoadWidth::HalfUnsigned),
            _ => Err(Illegal),
        }
    }
}

// By funct3.
impl TryFrom<u32> for StoreWidth {
    type Error = Illegal;

    ghost try_from_gives = { ReadAs store_number stores };

    fn try_from(number: u32) -> Result<Self, Illegal> {
        match number {
            0 => Ok(StoreWidth::Byte),
            1 => Ok(StoreWidth::Half),
            2 => Ok(StoreWidth::Word),
            _ => Err(Illegal),
        }
    }
}

// By the number among the control and status registers.
impl TryFrom<u32> for Csr {
    type Error = Illegal;

    ghost try_from_gives = { ReadAs csr_number csrs };

    fn try_from(number: u32) -> Result<Self, Illegal> {
        match number {
            0xc00 => Ok(Csr::Cycle),
            0xc01 => Ok(Csr::Time),
            0xc80 => Ok(Csr::CycleHigh),
            _ => Err(Illegal),
        }
    }
}

// By funct7 and funct3.
impl TryFrom<(u32, u32)> for Operation {
    type Error = Illegal;

    ghost try_from_gives = { ReadsOperation };

    fn try_from(numbers: (u32, u32)) -> Result<Self, Illegal> {
        match numbers {
            (0, 0) => Ok(Operation::Add),
            (0x20, 0) => Ok(Operation::Sub),
            (0, 1) => Ok(Operation::ShiftLeft),
            (0, 2) => Ok(Operation::LessThan),
            (0, 3) => Ok(Operation::LessThanUnsigned),
            (0, 4) => Ok(Operation::Xor),
            (0, 5) => Ok(Operation::ShiftRight),
            (0x20, 5) => Ok(Operation::ShiftRightArithmetic),
            (0, 6) => Ok(Operation::Or),
            (0, 7) => Ok(Operation::And),
            _ => Err(Illegal),
        }
    }
}
