// The digits of a table that is read: how many flags they have, whether they are digits, both at once, and the table's entries that they stand for.
// It rests on the number of flags of `rules`.
ghost use Rattle.std.specs.Prelude.{true, false, ℕ, ◌≡◌, ◌≤◌, IfSome, IfNone, length};
ghost use Rattle.std.proofs.Math.Option.{some};
ghost use Rattle.bits.specs.Range.{all};
ghost use Rattle.rules.specs.Text.{flags_of};
ghost use Rattle.text.specs.TableDigits.{is_digit, size_of, values};

use arrayvec::ArrayVec;
use rules::RuleFlags;

// The digits of a table of as many flags as a rule may have.
pub const TABLE_DIGITS: usize = 64;

// The digits of a table of so many flags.
#[derive(Clone, Copy)]
pub struct Digits<'a> {
    pub flags: RuleFlags,
    pub bytes: &'a [u8],
    ghost checked: { (flags_of (length bytes.now) ≡ some flags.count) × (all is_digit bytes.now ≡ true) },
}

impl<'a> Digits<'a> {
    // The bytes as the digits of a table, if they are.
    pub fn of(bytes: &'a [u8]) -> Option<Digits<'a>>
        ensures some { IfSome result (λ d. d.bytes.now ≡ bytes.now) }
        ensures none { IfNone result ((n : ℕ) → flags_of (length bytes.now) ≡ some n → all is_digit bytes.now ≡ false) }
    {
        let flags = flag_count(bytes.len())?;
        if !all_digits(bytes) {
            return None;
        }
        Some(Digits { flags, bytes })
    }
}

// The flag count of so many digits, where there is one. A row says what document 01 says, with no power and no limit to put together.
pub fn flag_count(digits: usize) -> Option<RuleFlags>
    ensures { size_of result ≡ flags_of digits }
{
    let count = match digits {
        1 => 0,
        2 => 1,
        4 => 2,
        8 => 3,
        16 => 4,
        32 => 5,
        64 => 6,
        _ => return None,
    };
    Some(RuleFlags { count })
}

// Whether all bytes are digits.
pub fn all_digits(bytes: &[u8]) -> bool
    ensures { result ≡ all is_digit bytes.now }
{
    bytes.iter().all(|byte| *byte == b'0' || *byte == b'1')
}

// Digit i as entry i.
pub fn entries<const N: usize>(digits: &[u8]) -> ArrayVec<u64, N>
    requires { (length digits.now ≤ N) × (all is_digit digits.now ≡ true) }
    ensures { result.items ≡ values digits.now }
{
    let mut entries = ArrayVec::new();
    // `collect` wants an allocator, and no crate allocates; `extend` has an `Err` for a full vector, which would have to be shown away.
    for digit in digits {
        entries.push(u64::from(*digit - b'0'));
    }
    entries
}
