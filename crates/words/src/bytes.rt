// Numbers written in bytes, low byte first. What lies past the end of the bytes counts as 0.
ghost use Rattle.std.specs.Prelude.{◌≡◌, ◌+◌, map};
ghost use Rattle.std.specs.List.{range_with_len};
ghost use Rattle.words.specs.Bytes.{byte, number};

use std::array;

// The byte at a place.
pub fn byte_at(bytes: &[u8], at: usize) -> u8
    ensures { result ≡ byte bytes.now at }
{
    bytes.get(at).copied().unwrap_or(0)
}

// The N bytes from a place on.
fn bytes_at<const N: usize>(bytes: &[u8], at: usize) -> [u8; N]
    ensures { result ≡ map (λ k. byte bytes.now (at + k)) (range_with_len 0 N) }
{
    array::from_fn(|k| byte_at(bytes, at.saturating_add(k)))
}

// The number of two bytes from a place on.
pub fn u16_at(bytes: &[u8], at: usize) -> u16
    ensures { result ≡ number bytes.now at 2 }
{
    u16::from_le_bytes(bytes_at(bytes, at))
}

// The number of four bytes from a place on.
pub fn u32_at(bytes: &[u8], at: usize) -> u32
    ensures { result ≡ number bytes.now at 4 }
{
    u32::from_le_bytes(bytes_at(bytes, at))
}
