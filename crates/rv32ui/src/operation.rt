// The operations of the suite that compute or branch, in the order in which they are run.
use crate::row::Row;
use crate::rows::*;

// How the operands of a row are put into words. An enum, and no function for each operation: 27 operations share five forms, and a contract
// can name them.
#[derive(Clone, Copy)]
pub enum Form {
    // both operands in registers
    Registers,
    // the second operand is a constant of the instruction
    Constant,
    // the result is whether the branch is taken
    Branch,
    // LUI of the first operand, then SRAI by the second
    Upper,
    // AUIPC of the first operand, then ADDI of the second; the result counts from the third instruction's end
    Relative,
}

// An operation: its name, how its words are made, their fixed bits, and its vectors.
#[derive(Clone, Copy)]
pub struct Operation {
    pub name: &'static str,
    pub form: Form,
    pub fixed: u32,
    pub rows: &'static [Row],
}

pub static OPERATIONS: [Operation; 27] = [
    Operation {
        name: "add",
        form: Form::Registers,
        fixed: 0x0000_0033,
        rows: &ADD_ROWS,
    },
    Operation {
        name: "and",
        form: Form::Registers,
        fixed: 0x0000_7033,
        rows: &AND_ROWS,
    },
    Operation {
        name: "or",
        form: Form::Registers,
        fixed: 0x0000_6033,
        rows: &OR_ROWS,
    },
    Operation {
        name: "sll",
        form: Form::Registers,
        fixed: 0x0000_1033,
        rows: &SLL_ROWS,
    },
    Operation {
        name: "slt",
        form: Form::Registers,
        fixed: 0x0000_2033,
        rows: &SLT_ROWS,
    },
    Operation {
        name: "sltu",
        form: Form::Registers,
        fixed: 0x0000_3033,
        rows: &SLTU_ROWS,
    },
    Operation {
        name: "sra",
        form: Form::Registers,
        fixed: 0x4000_5033,
        rows: &SRA_ROWS,
    },
    Operation {
        name: "srl",
        form: Form::Registers,
        fixed: 0x0000_5033,
        rows: &SRL_ROWS,
    },
    Operation {
        name: "sub",
        form: Form::Registers,
        fixed: 0x4000_0033,
        rows: &SUB_ROWS,
    },
    Operation {
        name: "xor",
        form: Form::Registers,
        fixed: 0x0000_4033,
        rows: &XOR_ROWS,
    },
    Operation {
        name: "addi",
        form: Form::Constant,
        fixed: 0x0000_0013,
        rows: &ADDI_ROWS,
    },
    Operation {
        name: "andi",
        form: Form::Constant,
        fixed: 0x0000_7013,
        rows: &ANDI_ROWS,
    },
    Operation {
        name: "auipc",
        form: Form::Relative,
        fixed: 0x0000_0017,
        rows: &AUIPC_ROWS,
    },
    Operation {
        name: "lui",
        form: Form::Upper,
        fixed: 0x0000_0037,
        rows: &LUI_ROWS,
    },
    Operation {
        name: "ori",
        form: Form::Constant,
        fixed: 0x0000_6013,
        rows: &ORI_ROWS,
    },
    Operation {
        name: "slli",
        form: Form::Constant,
        fixed: 0x0000_1013,
        rows: &SLLI_ROWS,
    },
    Operation {
        name: "slti",
        form: Form::Constant,
        fixed: 0x0000_2013,
        rows: &SLTI_ROWS,
    },
    Operation {
        name: "sltiu",
        form: Form::Constant,
        fixed: 0x0000_3013,
        rows: &SLTIU_ROWS,
    },
    Operation {
        name: "srai",
        form: Form::Constant,
        fixed: 0x4000_5013,
        rows: &SRAI_ROWS,
    },
    Operation {
        name: "srli",
        form: Form::Constant,
        fixed: 0x0000_5013,
        rows: &SRLI_ROWS,
    },
    Operation {
        name: "xori",
        form: Form::Constant,
        fixed: 0x0000_4013,
        rows: &XORI_ROWS,
    },
    Operation {
        name: "beq",
        form: Form::Branch,
        fixed: 0x0000_0063,
        rows: &BEQ_ROWS,
    },
    Operation {
        name: "bge",
        form: Form::Branch,
        fixed: 0x0000_5063,
        rows: &BGE_ROWS,
    },
    Operation {
        name: "bgeu",
        form: Form::Branch,
        fixed: 0x0000_7063,
        rows: &BGEU_ROWS,
    },
    Operation {
        name: "blt",
        form: Form::Branch,
        fixed: 0x0000_4063,
        rows: &BLT_ROWS,
    },
    Operation {
        name: "bltu",
        form: Form::Branch,
        fixed: 0x0000_6063,
        rows: &BLTU_ROWS,
    },
    Operation {
        name: "bne",
        form: Form::Branch,
        fixed: 0x0000_1063,
        rows: &BNE_ROWS,
    },
];
