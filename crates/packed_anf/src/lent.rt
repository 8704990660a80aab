// What a call is lent, once it has passed the rows that several calls share: a complete table, and coefficients of which none is stray. It rests on
// the number of settings and of words.
ghost use Rattle.std.specs.Prelude.{◌≡◌, ◌≤◌, ◌^◌, false, ℕ, List, length};
ghost use Rattle.rules.specs.Coefficient.{word_count, stray};
ghost use Rattle.rules.specs.Limits.{form_flags};
ghost use Rattle.rules.specs.Refusal.{outcome_of};
ghost use Rattle.packed_anf.specs.Rows.{enough_entries, lent_table, lent_coefficients};

use rules::flags::Flags;
use rules::{Reason, Refusal};

// Rows 1 and 2, for a table of so many entries, whatever holds them. Why `LIMIT` has a bound in these clauses: `setting_count`.
pub fn enough_entries<const LIMIT: usize>(
    flags: usize,
    entries: usize,
) -> Result<Flags<LIMIT>, Refusal>
    requires { LIMIT ≤ form_flags }
    ensures { outcome_of (λ f. f.count) result ≡ enough_entries LIMIT flags entries }
{
    let flags = Flags::try_from(flags)?;
    if entries < crate::setting_count(flags) {
        return Err(Reason::ShortTable.at(0));
    }
    Ok(flags)
}

// A table with an entry for each setting.
#[derive(Clone, Copy)]
pub struct Entries<'a, const LIMIT: usize> {
    pub flags: Flags<LIMIT>,
    pub entries: &'a [u64],
    ghost complete: { 2 ^ flags.count ≤ length entries.now },
}

impl<'a, const LIMIT: usize> Entries<'a, LIMIT> {
    // Rows 1 and 2.
    pub fn checked(flags: usize, entries: &'a [u64]) -> Result<Self, Refusal>
        requires { LIMIT ≤ form_flags }
        ensures { outcome_of {B = ℕ × List ℕ} (λ t. (t.flags.count, t.entries.now)) result ≡ lent_table LIMIT flags entries.now }
    {
        let flags = enough_entries(flags, entries.len())?;
        Ok(Entries { flags, entries })
    }
}

// The words that hold the coefficients of that many flags, and no more.
#[derive(Clone, Copy)]
pub struct Coefficients<'a, const LIMIT: usize> {
    pub flags: Flags<LIMIT>,
    pub words: &'a [u64],
    ghost all: { length words.now ≡ word_count flags.count },
    ghost none_stray: { stray flags.count words.now ≡ false },
}

impl<'a, const LIMIT: usize> Coefficients<'a, LIMIT> {
    // Rows 1, 3 and 4.
    pub fn checked(flags: usize, words: &'a [u64]) -> Result<Self, Refusal>
        requires { LIMIT ≤ form_flags }
        ensures { outcome_of {B = ℕ × List ℕ} (λ c. (c.flags.count, c.words.now)) result ≡ lent_coefficients LIMIT flags words.now }
    {
        let flags = Flags::try_from(flags)?;
        let count = crate::word_count(flags);
        if words.len() < count {
            return Err(Reason::ShortCoefficients.at(0));
        }
        if crate::is_stray(flags, words) {
            return Err(Reason::StrayCoefficient.at(0));
        }
        Ok(Coefficients {
            flags,
            words: &words[..count],
        })
    }
}
