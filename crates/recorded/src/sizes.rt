// How much a table of n flags takes in each of its forms. A flag count that no table has answers 0 entries, so that a
// damaged file shows as a difference. It rests on the limit of flags.
ghost use Rattle.std.specs.Prelude.{◌≡◌, ◌^◌, ◌≤◌};
ghost use Rattle.rules.specs.Limits.{form_flags};
ghost use Rattle.recorded.specs.Sizes.{entries_of, words_of, bytes_of};

use rules::FORM_FLAGS;

// One entry for each setting.
pub fn entries(flags: usize) -> usize
    ensures { (result ≡ entries_of flags) × (result ≤ 2 ^ form_flags) }
{
    if flags > FORM_FLAGS {
        return 0;
    }
    1 << flags
}

// 64 coefficients to a word, rounded up. This and `bytes` are one division each: a function of both would only pass the divisor on.
pub fn words(flags: usize) -> usize
    ensures { (result ≡ words_of flags) × (result ≤ 2 ^ 10) }
{
    entries(flags).div_ceil(64)
}

// 8 bits to a byte, rounded up.
pub fn bytes(flags: usize) -> usize
    ensures { (result ≡ bytes_of flags) × (result ≤ 2 ^ 13) }
{
    entries(flags).div_ceil(8)
}
