// The rule package, request 4 of document 02: specs/ has its definitions, and proofs/ what holds of them, that what is written is read back and what
// is read is written the same. The code is what the writer (`package_writer`) and the reader (`package_reader`) share. It rests on `packed_anf` and
// `laws`.
#![tactic(auto)]

ghost use Rattle.std.specs.Prelude.{◌≡◌, ltb};
ghost use Rattle.rules.specs.Limits.{package_flags, too_many_flags, stray_table_bit};
ghost use Rattle.rules.specs.Outcome.{gives, refuse};
ghost use Rattle.rules.specs.Refusal.{outcome_of};
ghost use Rattle.rule_package.specs.Rule.{stray_bit};

use rules::flags::Flags;
use rules::{PACKAGE_FLAGS, Reason, Refusal};

// A number of flags that a rule of a package may have.
pub type PackageFlags = Flags<PACKAGE_FLAGS>;

// The bytes of a rule before its expression.
pub const HEADER_LENGTH: usize = 13;

// Whether a table word has a bit that is no setting's.
#[inline]
pub fn is_stray(flags: PackageFlags, table: u64) -> bool
    ensures { result ≡ stray_bit flags.count table }
{
    packed_anf::is_stray(flags, &[table])
}

// The rows 1 and 17, of a rule at a place: its flag count, if the table word is one of so many flags.
#[inline]
pub fn checked(flags: usize, table: u64, place: usize) -> Result<PackageFlags, Refusal>
    ensures { outcome_of (λ f. f.count) result ≡ refuse (ltb package_flags flags) too_many_flags place
        (refuse (stray_bit flags table) stray_table_bit place (gives flags)) }
{
    let Ok(flags) = PackageFlags::try_from(flags) else {
        return Err(Reason::TooManyFlags.at(place));
    };
    if is_stray(flags, table) {
        return Err(Reason::StrayTableBit.at(place));
    }
    Ok(flags)
}
