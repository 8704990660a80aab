// Bits and numbers as the recorded files hold them: bit i is bit i mod 8 of byte i div 8, and a number's low byte is
// first. Past its end a list reads as 0, as the bits of a coefficient word past the last coefficient must be. It rests on
// the library's numbers in bytes.
ghost use Rattle.std.specs.Prelude.{◌≡◌, ◌+◌, ◌^◌, ◌≤◌, get_or};
ghost use Rattle.recorded.specs.Numbers.{bit_at, pair_at, half_at, word_at};

use std::array;

pub fn byte_at(bytes: &[u8], at: usize) -> u8
    ensures { result ≡ get_or bytes.now at 0 }
{
    bytes.get(at).copied().unwrap_or(0)
}

pub fn bit_at(bytes: &[u8], i: usize) -> u8
    ensures { result ≡ bit_at bytes.now i }
{
    (byte_at(bytes, i / 8) >> (i % 8)) % 2
}

// The number in the two bytes from `at` on. This and the next two differ in a type: `num_traits::FromBytes` has `from_le_bytes` of each, but its
// `Bytes` can't be made byte by byte in generic code, so that one function for the three would be no plainer.
pub fn pair_at(bytes: &[u8], at: usize) -> u16
    requires { at + 2 ≤ 2 ^ 64 }
    ensures { result ≡ pair_at bytes.now at }
{
    u16::from_le_bytes(array::from_fn(|i| byte_at(bytes, at + i)))
}

// The number in the four bytes from `at` on.
pub fn half_at(bytes: &[u8], at: usize) -> u32
    requires { at + 4 ≤ 2 ^ 64 }
    ensures { result ≡ half_at bytes.now at }
{
    u32::from_le_bytes(array::from_fn(|i| byte_at(bytes, at + i)))
}

// The number in the eight bytes from `at` on.
pub fn word_at(bytes: &[u8], at: usize) -> u64
    requires { at + 8 ≤ 2 ^ 64 }
    ensures { result ≡ word_at bytes.now at }
{
    u64::from_le_bytes(array::from_fn(|i| byte_at(bytes, at + i)))
}
