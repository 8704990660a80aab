// Masks of six flags and constant words about them, and the masks of a word, walked or listed. A word is a set of masks: bit m stands for the mask m.
// It rests on the definitions of `rules`.
#![tactic(auto)]

mod lookup;
mod mask;
mod ones;

ghost use Rattle.std.specs.Prelude.{Bool, ℕ, map, ◌≡◌, ◌+◌, ◌<◌, ◌≤◌};
ghost use Rattle.std.specs.Int.Count;
ghost use Rattle.bits.specs.Range.{keep, upto};
ghost use Rattle.bits.specs.Stored.{Room, Stored};
ghost use Rattle.bits.specs.Word.{places, word};
ghost use Rattle.mask_words.specs.inner.Degree.{layer};
ghost use Rattle.mask_words.specs.Lookup.{flag_word};

pub use crate::lookup::Lookup;
pub use crate::mask::{Mask, Monomial};
pub use crate::ones::Ones;

// How many masks of six flags there are, and so how many terms a form can have.
pub const MASK_COUNT: usize = 64;

// The masks that have flag 0, flag 1, and so on.
const FLAG_WORDS: [u64; 6] = [
    0xaaaa_aaaa_aaaa_aaaa,
    0xcccc_cccc_cccc_cccc,
    0xf0f0_f0f0_f0f0_f0f0,
    0xff00_ff00_ff00_ff00,
    0xffff_0000_ffff_0000,
    0xffff_ffff_0000_0000,
];

// The masks that have no ones, one, and so on.
const LAYERS: [u64; 7] = [
    0x0000_0000_0000_0001,
    0x0000_0001_0001_0116,
    0x0001_0116_0116_1668,
    0x0116_1668_1668_6880,
    0x1668_6880_6880_8000,
    0x6880_8000_8000_0000,
    0x8000_0000_0000_0000,
];

// The masks that have a flag, for each of the six.
#[inline]
pub fn flag_words() -> [u64; 6]
    ensures { result ≡ map flag_word (upto 6) }
{
    FLAG_WORDS
}

// The masks that have that many ones.
#[inline]
pub fn with_ones(count: usize) -> u64
    ensures { result ≡ layer count }
{
    LAYERS.get(count).copied().unwrap_or(0)
}

// The word of the places below `count` at which a test holds. A `for`: a `fold` would say the same step, with the word as one more parameter.
#[inline]
pub fn chosen<F: Fn(usize) -> bool>(count: usize, test: F) -> u64
    requires { (count ≤ 64) × ((i : ℕ) → i < count → F.pre test i) }
    ensures { (p : ℕ → Bool) → ((i : ℕ) (b : Bool) → i < count → F.post test i b → b ≡ p i) → result ≡ word (keep p (upto count)) }
{
    let mut word = 0;
    for place in 0..count {
        word |= u64::from(test(place)) << place;
    }
    word
}

// How many flags a mask has.
#[inline]
pub fn flag_count(mask: usize) -> usize
    ensures { (result ≡ Count.ones mask) × (result ≤ 64) }
{
    mask.count_ones() as usize
}

// The masks of a word, counted from `base`, at the front of `out`; how many there are. The count is the answer, so it is kept by hand: with
// `enumerate` it would be counted once more. `base` is bounded here, in `form` and in `anf_form` by the masks of 16 flags; a type for it would be
// made from a number at each call and taken apart here.
pub fn list(word: u64, base: usize, out: &mut [u32]) -> usize
    requires { (base ≤ 65536) × Room (places 64 word) 0 out.old }
    ensures { Stored (map (λ j. base + j) (places 64 word)) 0 result out.old out.new }
{
    let mut count = 0;
    for place in Ones::of(word) {
        out[count] = (base + place) as u32;
        count += 1;
    }
    count
}
