// The instructions by kind.
use crate::register::Register;

// What the ALU computes from two words.
#[derive(Clone, Copy)]
pub enum Operation {
    Add,
    Sub,
    ShiftLeft,
    LessThan,
    LessThanUnsigned,
    Xor,
    ShiftRight,
    ShiftRightArithmetic,
    Or,
    And,
}

// When a branch is taken.
#[derive(Clone, Copy)]
pub enum Condition {
    Equal,
    NotEqual,
    Less,
    GreaterEqual,
    LessUnsigned,
    GreaterEqualUnsigned,
}

#[derive(Clone, Copy)]
pub enum LoadWidth {
    Byte,
    Half,
    Word,
    ByteUnsigned,
    HalfUnsigned,
}

#[derive(Clone, Copy)]
pub enum StoreWidth {
    Byte,
    Half,
    Word,
}

// The CSRs that a program may read.
#[derive(Clone, Copy)]
pub enum Csr {
    Cycle,
    Time,
    CycleHigh,
}

#[derive(Clone, Copy)]
pub enum Instruction {
    Lui {
        rd: Register,
        value: i32,
    },
    Auipc {
        rd: Register,
        value: i32,
    },
    Jal {
        rd: Register,
        offset: i32,
    },
    Jalr {
        rd: Register,
        base: Register,
        offset: i32,
    },
    Branch {
        condition: Condition,
        left: Register,
        right: Register,
        offset: i32,
    },
    Load {
        width: LoadWidth,
        rd: Register,
        base: Register,
        offset: i32,
    },
    Store {
        width: StoreWidth,
        base: Register,
        source: Register,
        offset: i32,
    },
    RegisterImmediate {
        operation: Operation,
        rd: Register,
        source: Register,
        value: i32,
    },
    RegisterRegister {
        operation: Operation,
        rd: Register,
        left: Register,
        right: Register,
    },
    ReadCsr {
        rd: Register,
        csr: Csr,
    },
}
