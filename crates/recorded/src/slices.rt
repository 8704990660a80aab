// Lists that are lent to the library or that it must leave: every entry is set, to one value or from its place. It rests on the numbers in a list of
// bytes.
ghost use Rattle.std.specs.Prelude.{map, ◌≡◌, ℕ, ◌*◌, ◌^◌, ◌≤◌, ◌<◌, length, replicate, slice_index_or};
ghost use Rattle.bits.specs.Range.{upto};
ghost use Rattle.recorded.specs.Numbers.{bit_at, pair_at, words_in};
ghost use Rattle.recorded.specs.Noise.{noise_at, noisy};

use crate::numbers::{bit_at, pair_at, word_at};

// Each entry from its place.
fn set_each<T: Drop, F: Fn(usize) -> T>(list: &mut [T], entry: F)
    requires { (i : ℕ) → i < length list.old → F.pre entry i }
    ensures len { length list.new ≡ length list.old }
    ensures entries { (i : ℕ) (d : T) → i < length list.old → F.post entry i (slice_index_or list.new i d) }
{
    for (i, slot) in list.iter_mut().enumerate() {
        *slot = entry(i);
    }
}

// A pattern by which a change past a result, or after a refusal, shows. It is `fill`, kept because the edit zero_for_the_pattern is tried on it.
pub fn set_pattern(list: &mut [u64], pattern: u64)
    ensures { list.new ≡ replicate (length list.old) pattern }
{
    list.fill(pattern);
}

// The bits, as entries 0 and 1.
pub fn set_bits(list: &mut [u64], bytes: &[u8])
    ensures { list.new ≡ map (bit_at bytes.now) (upto (length list.old)) }
{
    set_each(list, |i| u64::from(bit_at(bytes, i)));
}

// A table with these bits: an entry's other bits, which the library must not look at, vary with the setting.
pub fn set_table(table: &mut [u64], bytes: &[u8])
    ensures { table.new ≡ map (noisy bytes.now) (upto (length table.old)) }
{
    set_each(table, |i| noise(i) + u64::from(bit_at(bytes, i)));
}

// An even number.
fn noise(i: usize) -> u64
    ensures { result ≡ noise_at i }
{
    (((i % 65536) as u64) * 0x1E37_79B9_7F4A + 0x42B2_AE3D_27D4) * 2
}

// Words of 64 bits, the first bit lowest.
pub fn set_words(words: &mut [u64], bytes: &[u8])
    requires { length words.old ≤ 2 ^ 16 }
    ensures { words.new ≡ words_in (length words.old) bytes.now }
{
    set_each(words, |i| word_at(bytes, 8 * i));
}

// Masks of two bytes each.
pub fn set_masks(masks: &mut [u32], bytes: &[u8])
    requires { length masks.old ≤ 2 ^ 16 }
    ensures { masks.new ≡ map (λ i. pair_at bytes.now (2 * i)) (upto (length masks.old)) }
{
    set_each(masks, |i| u32::from(pair_at(bytes, 2 * i)));
}
