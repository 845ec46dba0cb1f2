// Words as LLVM's assembler makes them.
use rv32ui::word::*;

// add x14, x1, x2; addi x5, x5, 4; lui x2, 17; beq x1, x2, 16; lw x6, 0(x2); lb x14, -3(x2);
// sw x2, 0(x2); sb x2, 1(x1); sh x1, -32(x2); jal x0, -28; jal x1, 2048; jalr x0, 20(x4)
#[test]
fn words_of_the_assembler(rt: HostRuntime) {
    for (made, word) in [
        (operand_word(0x33, 14, 1, 2), 0x0020_8733),
        (operand_word(ADDI, 5, 5, 4), 0x0042_8293),
        (upper_word(0x37, 2, 17), 0x0001_1137),
        (branch_word(0x63, 1, 2), 0x0020_8863),
        (load_word(0x2003, 6, 2, 0), 0x0001_2303),
        (load_word(0x3, 14, 2, -3), 0xffd1_0703),
        (store_word(0x2023, 2, 2, 0), 0x0021_2023),
        (store_word(0x23, 1, 2, 1), 0x0020_80a3),
        (store_word(0x1023, 2, 1, -32), 0xfe11_1023),
        (jal_word(0, -28), 0xfe5f_f06f),
        (jal_word(1, 2048), 0x0010_00ef),
        (jalr_word(0, 4, 20), 0x0142_0067),
    ] {
        assert_eq!(rt; made, word);
    }
}
