// A rule's table of at most six flags by value: one word, whose bit s is the table's bit at setting s. Whoever asks a table these questions need not
// look at its word. It rests on `form`, `mask_words`, `anf_transform` and `packed_anf`.
#![tactic(auto)]

ghost use Rattle.std.specs.Prelude.{◌≡◌, ◌*◌, ◌/◌, ◌%◌, ◌≤◌, ◌<◌, ◌^◌, length};
ghost use Rattle.bits.specs.Bit.{◌⊕◌, bit};
ghost use Rattle.bits.specs.Range.{keep};
ghost use Rattle.rules.specs.Coefficient.{coefficient};
ghost use Rattle.rules.specs.Console.{entries};
ghost use Rattle.rules.specs.Limits.{rule_flags};
ghost use Rattle.rules.specs.Monomial as monomial;
ghost use Rattle.rules.specs.Table.{entry, settings};
ghost use Rattle.form.specs.Masks.{masks};
ghost use Rattle.table.specs.Truth.{truth, table_of, difference_of, first};

use form::Form;
use mask_words::Ones;
use packed_anf::lent::Entries;
use rules::{RULE_FLAGS, RuleFlags};

#[derive(Clone, Copy)]
pub struct Table {
    pub flags: RuleFlags,
    pub bits: u64,
}

impl Table {
    // The table of a complete list of entries.
    #[inline]
    pub fn of_entries(table: Entries<'_, RULE_FLAGS>) -> Table
        ensures { result ≡ table_of table.entry.flags (entry table.entry.entries.now) }
    {
        let settings = packed_anf::setting_count(table.flags);
        let bits = anf_transform::pack::pack_word(&table.entries[..settings]);
        Table {
            flags: table.flags,
            bits,
        }
    }

    // The table of a complete list of entries in bytes, eight an entry, low byte first: bit 0 of an entry is bit 0 of its low byte.
    pub fn of_bytes(flags: RuleFlags, bytes: &[u8]) -> Table
        requires { 8 * 2 ^ flags.count ≤ length bytes.now }
        ensures { result ≡ table_of flags (entry (entries bytes.now)) }
    {
        let set = |setting: usize| -> bool
            requires { setting < length bytes.now / 8 }
            ensures { result ≡ entry (entries bytes.entry.now) setting }
        { bytes[8 * setting] & 1 == 1 };
        let bits = mask_words::chosen(packed_anf::setting_count(flags), set);
        Table { flags, bits }
    }

    // The table's bit at a setting.
    #[inline]
    pub fn bit(self, setting: usize) -> bool
        requires { setting < 2 ^ rule_flags }
        ensures { result ≡ truth self setting }
    {
        (self.bits >> setting) & 1 == 1
    }

    // The form of the table's algebraic normal form.
    #[inline]
    pub fn form(self) -> Form
        ensures { masks result ≡ monomial.form self.flags.count (coefficient self.flags.count (truth self)) }
    {
        let word = low_settings(self.flags, anf_transform::inside::transform_word(self.bits));
        Form::of_coefficients(word)
    }

    // The smallest setting at which the table differs from the values that a word has at the settings, if there is one.
    #[inline]
    pub fn difference(self, values: u64) -> Option<usize>
        ensures { difference_of result ≡ first (keep (λ s. bit values s ⊕ truth self s) (settings self.flags.count)) }
    {
        Ones::of(low_settings(self.flags, values ^ self.bits)).next()
    }
}

// The bits at the settings of that many flags.
#[inline]
fn low_settings(flags: RuleFlags, word: u64) -> u64
    ensures { result ≡ word % 2 ^ (2 ^ flags.count) }
{
    if flags.count < 6 {
        return packed_anf::low_bits(flags, word);
    }
    word
}
