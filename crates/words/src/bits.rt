// Fields of a word by shift and mask, and the sign of a field.
ghost use Rattle.std.specs.Prelude.{◌≡◌, ◌/◌, ◌%◌, ◌^◌, min};
ghost use Rattle.words.specs.Bits.{field, signed};

// The `count` bits of `word` from bit `low` on. Bits past bit 31 are 0.
pub fn bits(word: u32, low: u32, count: u32) -> u32
    ensures { result ≡ field word low count }
{
    low_bits(shifted(word, low), count)
}

fn shifted(word: u32, low: u32) -> u32
    ensures { result ≡ word / 2 ^ low }
{
    word.checked_shr(low).unwrap_or(0)
}

fn low_bits(word: u32, count: u32) -> u32
    ensures { result ≡ word % 2 ^ count }
{
    match 1u32.checked_shl(count) {
        Some(span) => word & (span - 1),
        None => word,
    }
}

// What the low `width` bits of `word` stand for in two's complement. A width above 32 counts as 32.
pub fn sign_extended(word: u32, width: u32) -> i32
    ensures { result ≡ signed (min width 32) word }
{
    if width >= 32 {
        return word.cast_signed();
    }
    let value = i64::from(bits(word, 0, width));
    let span = 1i64 << width;
    if 2 * value < span {
        value as i32
    } else {
        (value - span) as i32
    }
}
