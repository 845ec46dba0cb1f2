// From words to instructions. Every word that the tables do not have is illegal.
ghost use Rattle.std.specs.Prelude.{◌≡◌};
ghost use Rattle.std.specs.Result.{result_ok};
ghost use Rattle.isa.specs.Decoding.{branch, decoded, jalr, load, read_csr, register_immediate, register_register, store};

use crate::fields::*;
use crate::instruction::*;
use crate::numbers::Illegal;
use words::bits::bits;

fn jalr(word: u32) -> Result<Instruction, Illegal>
    ensures { result_ok result ≡ jalr word }
{
    if funct3(word) == 0 {
        Ok(Instruction::Jalr {
            rd: rd(word),
            base: rs1(word),
            offset: i_immediate(word),
        })
    } else {
        Err(Illegal)
    }
}

fn branch(word: u32) -> Result<Instruction, Illegal>
    ensures { result_ok result ≡ branch word }
{
    let condition = Condition::try_from(funct3(word))?;
    Ok(Instruction::Branch {
        condition,
        left: rs1(word),
        right: rs2(word),
        offset: b_immediate(word),
    })
}

fn load(word: u32) -> Result<Instruction, Illegal>
    ensures { result_ok result ≡ load word }
{
    let width = LoadWidth::try_from(funct3(word))?;
    Ok(Instruction::Load {
        width,
        rd: rd(word),
        base: rs1(word),
        offset: i_immediate(word),
    })
}

fn store(word: u32) -> Result<Instruction, Illegal>
    ensures { result_ok result ≡ store word }
{
    let width = StoreWidth::try_from(funct3(word))?;
    Ok(Instruction::Store {
        width,
        base: rs1(word),
        source: rs2(word),
        offset: s_immediate(word),
    })
}

// An operation with a constant. The shifts are by 0 to 31; what stands above those five bits tells the right shifts apart.
fn register_immediate(word: u32) -> Result<Instruction, Illegal>
    ensures { result_ok result ≡ register_immediate word }
{
    let amount = bits(word, 20, 5) as i32;
    let (operation, value) = match (funct3(word), bits(word, 20, 12)) {
        (0, _) => (Operation::Add, i_immediate(word)),
        (1, 0..=0x1f) => (Operation::ShiftLeft, amount),
        (2, _) => (Operation::LessThan, i_immediate(word)),
        (3, _) => (Operation::LessThanUnsigned, i_immediate(word)),
        (4, _) => (Operation::Xor, i_immediate(word)),
        (5, 0..=0x1f) => (Operation::ShiftRight, amount),
        (5, 0x400..=0x41f) => (Operation::ShiftRightArithmetic, amount),
        (6, _) => (Operation::Or, i_immediate(word)),
        (7, _) => (Operation::And, i_immediate(word)),
        _ => return Err(Illegal),
    };
    Ok(Instruction::RegisterImmediate {
        operation,
        rd: rd(word),
        source: rs1(word),
        value,
    })
}

fn register_register(word: u32) -> Result<Instruction, Illegal>
    ensures { result_ok result ≡ register_register word }
{
    let operation = Operation::try_from((funct7(word), funct3(word)))?;
    Ok(Instruction::RegisterRegister {
        operation,
        rd: rd(word),
        left: rs1(word),
        right: rs2(word),
    })
}

// CSRRS of a CSR from register 0, which sets nothing.
fn read_csr(word: u32) -> Result<Instruction, Illegal>
    ensures { result_ok result ≡ read_csr word }
{
    if funct3(word) == 2 && bits(word, 15, 5) == 0 {
        let csr = Csr::try_from(bits(word, 20, 12))?;
        Ok(Instruction::ReadCsr { rd: rd(word), csr })
    } else {
        Err(Illegal)
    }
}

impl TryFrom<u32> for Instruction {
    type Error = Illegal;

    ghost try_from_gives = { λ word r. result_ok r ≡ decoded word };

    fn try_from(word: u32) -> Result<Self, Illegal> {
        match opcode(word) {
            0x37 => Ok(Instruction::Lui {
                rd: rd(word),
                value: u_immediate(word),
            }),
            0x17 => Ok(Instruction::Auipc {
                rd: rd(word),
                value: u_immediate(word),
            }),
            0x6f => Ok(Instruction::Jal {
                rd: rd(word),
                offset: j_immediate(word),
            }),
            0x67 => jalr(word),
            0x63 => branch(word),
            0x03 => load(word),
            0x23 => store(word),
            0x13 => register_immediate(word),
            0x33 => register_register(word),
            0x73 => read_csr(word),
            _ => Err(Illegal),
        }
    }
}

// The instruction of a word; none where the word is illegal.
pub fn decode(word: u32) -> Option<Instruction>
    ensures { result ≡ decoded word }
{
    Instruction::try_from(word).ok()
}
