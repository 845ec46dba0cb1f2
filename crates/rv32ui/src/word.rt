// Instruction words by the manual's opcode listing: the fixed bits of an instruction, and what it names in its place.
ghost use Rattle.std.specs.Prelude.{◌≡◌};
ghost use Rattle.rv32ui.specs.Words.{branch_format, jal_format, jalr_format, load_format, operand_format, store_format, upper_format};

pub const ADDI: u32 = 0x0000_0013;

pub const SRAI: u32 = 0x4000_5013;

const JAL: u32 = 0x0000_006f;

const JALR: u32 = 0x0000_0067;

// The second operand is a register, a constant of twelve bits, or the amount of a shift: all three stand from bit 20 on.
pub fn operand_word(fixed: u32, target: u32, first: u32, second: u32) -> u32
    ensures { result ≡ operand_format fixed target first second }
{
    fixed | target << 7 | first << 15 | second << 20
}

pub fn upper_word(fixed: u32, target: u32, value: u32) -> u32
    ensures { result ≡ upper_format fixed target value }
{
    fixed | target << 7 | value << 12
}

// A branch 16 bytes forward.
pub fn branch_word(fixed: u32, first: u32, second: u32) -> u32
    ensures { result ≡ branch_format fixed first second }
{
    fixed | 8 << 8 | first << 15 | second << 20
}

pub fn load_word(fixed: u32, target: u32, base: u32, offset: i32) -> u32
    ensures { result ≡ load_format fixed target base offset }
{
    operand_word(fixed, target, base, offset.cast_unsigned() % 4096)
}

// The low five bits of the offset stand where others have their target.
pub fn store_word(fixed: u32, base: u32, source: u32, offset: i32) -> u32
    ensures { result ≡ store_format fixed base source offset }
{
    let offset = offset.cast_unsigned();
    fixed | offset % 32 << 7 | base << 15 | source << 20 | offset / 32 % 128 << 25
}

// The bits of the offset from bit 31 on: 20, 10 to 1, 11, 19 to 12.
pub fn jal_word(target: u32, offset: i32) -> u32
    ensures { result ≡ jal_format target offset }
{
    let offset = offset.cast_unsigned();
    let low = offset / 2 % 1024 << 21 | offset / 0x800 % 2 << 20;
    let high = offset / 0x1000 % 256 << 12 | offset / 0x10_0000 % 2 << 31;
    JAL | target << 7 | low | high
}

pub fn jalr_word(target: u32, base: u32, offset: i32) -> u32
    ensures { result ≡ jalr_format target base offset }
{
    load_word(JALR, target, base, offset)
}
