// Bytes and halves in a word, low byte first.
ghost use Rattle.std.specs.Prelude.{◌≡◌, ◌+◌, ◌<◌, ◌≤◌};
ghost use Rattle.isa.specs.Loads.{load_bytes, loaded};
ghost use Rattle.isa.specs.Memory.{replaced};
ghost use Rattle.isa.specs.Stores.{store_bytes, stored};

use isa::instruction::{LoadWidth, StoreWidth};
use words::bits::{bits, sign_extended};

// How many bytes a load has, and a store. Loads and stores have enums of their own, so a trait over both would hold these same two matches.
pub(crate) fn load_bytes(width: LoadWidth) -> u32
    ensures { result ≡ load_bytes width }
{
    match width {
        LoadWidth::Byte | LoadWidth::ByteUnsigned => 1,
        LoadWidth::Half | LoadWidth::HalfUnsigned => 2,
        LoadWidth::Word => 4,
    }
}

pub(crate) fn store_bytes(width: StoreWidth) -> u32
    ensures { result ≡ store_bytes width }
{
    match width {
        StoreWidth::Byte => 1,
        StoreWidth::Half => 2,
        StoreWidth::Word => 4,
    }
}

// What a load gives from the word that its address lies in.
pub(crate) fn load(width: LoadWidth, word: u32, address: u32) -> u32
    ensures { result ≡ loaded width word address }
{
    let shift = 8 * (address % 4);
    match width {
        LoadWidth::Byte => sign_extended(bits(word, shift, 8), 8).cast_unsigned(),
        LoadWidth::Half => sign_extended(bits(word, shift, 16), 16).cast_unsigned(),
        LoadWidth::Word => bits(word, shift, 32),
        LoadWidth::ByteUnsigned => bits(word, shift, 8),
        LoadWidth::HalfUnsigned => bits(word, shift, 16),
    }
}

// The word after a store into it.
pub(crate) fn store(width: StoreWidth, word: u32, address: u32, value: u32) -> u32
    ensures { result ≡ stored width word address value }
{
    match width {
        StoreWidth::Byte => replace(word, 8 * (address % 4), 8, value),
        StoreWidth::Half => replace(word, 16 * (address / 2 % 2), 16, value),
        StoreWidth::Word => value,
    }
}

fn replace(word: u32, shift: u32, count: u32, value: u32) -> u32
    requires inside { shift < 32 }
    requires room { shift + count ≤ 32 }
    ensures { result ≡ replaced word shift count value }
{
    word - (bits(word, shift, count) << shift) + (bits(value, 0, count) << shift)
}
