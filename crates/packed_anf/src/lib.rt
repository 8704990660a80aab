// Coefficients of an algebraic normal form in a slice of 64-bit words, after `packed_anf.rs`: coefficient m is bit m mod 64 of word m div 64.
// What a call is lent, a table's entries too, is in `lent`. It rests on the definitions of `rules`.
#![tactic(auto)]

pub mod lent;

ghost use Rattle.std.specs.Prelude.{◌≡◌, ◌/◌, ◌%◌, ◌<◌, ◌≤◌, ◌^◌, length};
ghost use Rattle.rules.specs.Limits.{form_flags};
ghost use Rattle.rules.specs.Coefficient.{word_count, packed, stray};
ghost use Rattle.packed_anf.specs.Raised.{Raised};

use rules::flags::Flags;

// How many settings that many flags have. A bound of `LIMIT` is asked for here, below and in `lent`: as a ghost fact of `Flags` it would be asked of
// `try_from`, which serves every limit and can ask nothing.
#[inline]
pub fn setting_count<const LIMIT: usize>(flags: Flags<LIMIT>) -> usize
    requires { LIMIT ≤ form_flags }
    ensures { result ≡ 2 ^ flags.entry.count }
{
    1 << flags.count
}

// How many words the coefficients of that many flags take: 2^n/64, rounded up.
#[inline]
pub fn word_count<const LIMIT: usize>(flags: Flags<LIMIT>) -> usize
    requires { LIMIT ≤ form_flags }
    ensures { result ≡ word_count flags.entry.count }
{
    word_index(setting_count(flags) + 63)
}

// Whether a coefficient at 2 ^ flags or above is 1 in the words of that many flags. Only with fewer than six flags is there room for one.
#[inline]
pub fn is_stray<const LIMIT: usize>(flags: Flags<LIMIT>, words: &[u64]) -> bool
    requires { (LIMIT ≤ form_flags) × (word_count flags.count ≤ length words.now) }
    ensures { result ≡ stray flags.entry.count words.now }
{
    if 5 < flags.count {
        return false;
    }
    low_bits(flags, words[0]) < words[0]
}

// The first word without coefficients at 2 ^ flags and above.
#[inline]
pub fn low_bits<const LIMIT: usize>(flags: Flags<LIMIT>, first: u64) -> u64
    requires { (LIMIT ≤ form_flags) × (flags.count < 6) }
    ensures { result ≡ first % 2 ^ (2 ^ flags.entry.count) }
{
    first & ((1 << setting_count(flags)) - 1)
}

// Whether coefficient m is 1.
#[inline]
pub fn get(words: &[u64], m: usize) -> bool
    requires { m / 64 < length words.now }
    ensures { result ≡ packed words.now m }
{
    (words[word_index(m)] >> bit_index(m)) & 1 == 1
}

// Coefficient m becomes 1.
#[inline]
pub fn set(words: &mut [u64], m: usize)
    requires { m / 64 < length words.old }
    ensures { Raised words.old m words.new }
{
    words[word_index(m)] |= 1 << bit_index(m);
}

// Which word holds coefficient m. Document 02, request 2: "a coefficient's place comes from its number by 64", and the code that gets or sets it
// "shall hold no division and no remainder".
#[inline]
fn word_index(m: usize) -> usize
    ensures { result ≡ m / 64 }
{
    m >> 6
}

// Which bit of that word it is.
#[inline]
fn bit_index(m: usize) -> usize
    ensures { result ≡ m % 64 }
{
    m & 63
}
