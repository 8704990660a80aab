// The binary Möbius transform between a rule table and the coefficients of its algebraic normal form, after `anf_transform.rs`: inside words, then
// between words. The same XOR over subsets is the way back. It rests on `packed_anf` and on the definitions of `rules`.
#![tactic(auto)]

mod between;
pub mod inside;
pub mod pack;

ghost use Rattle.std.specs.Prelude.{◌≡◌, ℕ, ◌<◌, ◌≤◌, ◌^◌, length};
ghost use Rattle.rules.specs.Calls.{transform, way_back};
ghost use Rattle.rules.specs.Coefficient.{coefficient, word_count, packed, words};
ghost use Rattle.rules.specs.Outcome.{left, written};
ghost use Rattle.rules.specs.Table.{entry};
ghost use Rattle.anf_transform.specs.Answers.{filled_of};
ghost use Rattle.anf_transform.specs.inner.Values.{values};

use packed_anf::lent::{Coefficients, Entries};
use rules::{FORM_FLAGS, FormFlags, Reason, Refusal};

// The coefficient words of the table's algebraic normal form, at the front of `out`; the answer is how many entries they are.
#[tactic(auto, unfolding(rules::specs::Calls::transform, rules::specs::Calls::with_table, rules::specs::Table::complete))]
pub fn compute_anf(flags: usize, table: &[u64], out: &mut [u64]) -> Result<usize, Refusal>
    ensures answer { filled_of out.new result ≡ transform flags table.now (length out.old) }
    ensures lent { out.new ≡ left out.old (transform flags table.now (length out.old)) }
{
    let table = Entries::<FORM_FLAGS>::checked(flags, table)?;
    let count = packed_anf::word_count(table.flags);
    if out.len() < count {
        return Err(Reason::ShortOutput.at(count));
    }
    transform_table(table, &mut out[..count]);
    Ok(count)
}

// One entry, 0 or 1, for each setting: the value there of the polynomial with these coefficients, at the front of `out`; the answer is how many
// entries they are.
pub fn compute_table(flags: usize, coefficients: &[u64], out: &mut [u64]) -> Result<usize, Refusal>
    ensures answer { filled_of out.new result ≡ way_back flags coefficients.now (length out.old) }
    ensures lent { out.new ≡ left out.old (way_back flags coefficients.now (length out.old)) }
{
    let coefficients = Coefficients::<FORM_FLAGS>::checked(flags, coefficients)?;
    let settings = packed_anf::setting_count(coefficients.flags);
    if out.len() < settings {
        return Err(Reason::ShortOutput.at(settings));
    }
    transform_back(coefficients, out);
    Ok(settings)
}

// The XOR over subsets of the coefficients in the words, for all flags.
fn transform_words(flags: FormFlags, words: &mut [u64])
    requires { length words.old ≡ word_count flags.count }
    ensures { (length words.new ≡ word_count flags.count)
        × ((m : ℕ) → m < 2 ^ flags.count → packed words.new m ≡ coefficient flags.count (packed words.old) m) }
{
    inside::inside(words);
    if 6 < flags.count {
        between::between(words, flags.count - 6);
    }
}

// The coefficient words of a complete table, in as many words as it takes.
fn transform_table(table: Entries<'_, FORM_FLAGS>, out: &mut [u64])
    requires { length out.old ≡ word_count table.flags.count }
    ensures { out.new ≡ words table.entry.flags.count (coefficient table.entry.flags.count (entry table.entry.entries.now)) }
{
    pack::pack(table, out);
    transform_words(table.flags, out);
    if table.flags.count < 6 {
        out[0] = packed_anf::low_bits(table.flags, out[0]);
    }
}

// The values of the polynomial at all settings, 0 or 1, at the front of `out`: its words come to hold them as bits and then give way to them.
fn transform_back(coefficients: Coefficients<'_, FORM_FLAGS>, out: &mut [u64])
    requires { 2 ^ coefficients.flags.count ≤ length out.old }
    ensures { out.new ≡ written out.old (values coefficients.entry.flags.count coefficients.entry.words.now) }
{
    let words = &mut out[..coefficients.words.len()];
    pack::copy(coefficients.words, words);
    transform_words(coefficients.flags, words);
    pack::unpack(coefficients.flags, out);
}
