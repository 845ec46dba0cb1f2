// Numbers in bytes, fields, signs and frames, by example.
use std::test::Fail;
use words::bits::{bits, sign_extended};
use words::bytes::{byte_at, u16_at, u32_at};
use words::frames;

#[test]
fn numbers_are_low_byte_first(rt: HostRuntime) {
    let bytes = [0x78, 0x56, 0x34, 0x12, 0xff];
    assert_eq!(rt; byte_at(&bytes, 4), 0xff);
    assert_eq!(rt; byte_at(&bytes, 5), 0);
    assert_eq!(rt; u16_at(&bytes, 0), 0x5678);
    let words = [(0, 0x1234_5678), (3, 0xff12), (usize::MAX, 0)];
    for (at, word) in words {
        assert_eq!(rt; u32_at(&bytes, at), word);
    }
}

// fields of 0xFE000CE3, BEQ x0, x0, -8 in the manual's format B: first bit, length, number
#[test]
fn fields_of_a_word(rt: HostRuntime) {
    let word = 0xFE00_0CE3;
    let fields = [
        (0, 7, 0x63),
        (7, 1, 1),
        (8, 4, 12),
        (25, 6, 63),
        (31, 1, 1),
        (0, 32, word),
        (31, 40, 1),
        (32, 1, 0),
    ];
    for (low, count, number) in fields {
        assert_eq!(rt; bits(word, low, count), number);
    }
}

#[test]
fn signs(rt: HostRuntime) {
    let cases = [
        (0x7ff, 12, 2047),
        (0x800, 12, -2048),
        (0xffff_f800, 12, -2048),
        (1, 1, -1),
        (7, 0, 0),
        (0x8000_0000, 32, i32::MIN),
        (0xffff_ffff, 99, -1),
    ];
    for (value, count, number) in cases {
        assert_eq!(rt; sign_extended(value, count), number);
    }
}

// two frames, and 512 words that fill none
#[test]
fn frames_of_lent_words(rt: HostRuntime) -> Result<(), Fail> {
    let mut words = vec![in rt.alloc(); 0u32; 2560]?;
    let words = words.as_mut_slice();
    for (frame, offset, value) in [(0, 1023, 7), (1, 0, 9), (2, 0, 5), (3, 0, 11)] {
        assert_eq!(rt; frames::is_lent(words, frame), frame < 2);
        frames::write(words, frame, offset, value);
    }
    for (from, to) in [(0, 1), (2, 0), (0, 2)] {
        frames::copy(words, from, to);
    }
    let expected = [
        (0, 1023, 7),
        (1, 1023, 7),
        (1, 0, 0),
        (0, 0, 0),
        (2, 0, 5),
        (3, 0, 0),
    ];
    for (frame, offset, value) in expected {
        assert_eq!(rt; frames::read(words, frame, offset), value);
    }
    Ok(())
}
