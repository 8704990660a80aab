// Between table entries and bits: entries are packed into words, and words are unpacked into entries 0 and 1. It rests on `packed_anf`.
ghost use Rattle.std.specs.Prelude.{map, ◌≡◌, ◌^◌, ◌≤◌, length, take};
ghost use Rattle.std.proofs.lemmas.List.Edits.{sets};
ghost use Rattle.bits.specs.Bit.{bit, digit};
ghost use Rattle.bits.specs.Range.{keep, upto};
ghost use Rattle.bits.specs.Word.{word};
ghost use Rattle.rules.specs.Coefficient.{word_count, words, packed};
ghost use Rattle.rules.specs.Table.{entry};

use packed_anf::lent::Entries;
use rules::{FORM_FLAGS, FormFlags};

// The low bits of the entries, as one word. By `mask_words::chosen` the test would be a closure with two clauses, no shorter than the loop.
#[inline]
pub fn pack_word(entries: &[u64]) -> u64
    requires { length entries.now ≤ 64 }
    ensures { result ≡ word (keep (entry entries.now) (upto (length entries.now))) }
{
    let mut word = 0;
    for (j, entry) in entries.iter().enumerate() {
        word |= (*entry & 1) << j;
    }
    word
}

// The low bits of a complete table. Words are stored by index, because of those that `iter_mut` lends to a `zip` a proof knows no value afterwards.
pub fn pack(table: Entries<'_, FORM_FLAGS>, out: &mut [u64])
    requires { length out.old ≡ word_count table.flags.count }
    ensures { out.new ≡ words table.entry.flags.count (entry table.entry.entries.now) }
{
    let settings = packed_anf::setting_count(table.flags);
    for (i, entries) in table.entries[..settings].chunks(64).enumerate() {
        out[i] = pack_word(entries);
    }
}

// The low bits of a word, as entries.
fn unpack_word(word: u64, entries: &mut [u64])
    requires { length entries.old ≤ 64 }
    ensures { entries.new ≡ map (λ j. digit (bit word j)) (upto (length entries.old)) }
{
    for (j, entry) in entries.iter_mut().enumerate() {
        *entry = (word >> j) & 1;
    }
}

// The words at the front of `out` give way to an entry a bit. The last word goes first, so that none is written over before it is read.
pub fn unpack(flags: FormFlags, out: &mut [u64])
    requires { 2 ^ flags.count ≤ length out.old }
    ensures { out.new ≡ sets out.old 0 (map (λ s. digit (packed out.old s)) (upto (2 ^ flags.count))) }
{
    let count = packed_anf::setting_count(flags).min(64);
    for i in (0..packed_anf::word_count(flags)).rev() {
        let word = out[i];
        let first = 64 * i;
        unpack_word(word, &mut out[first..first + count]);
    }
}

// The front of `from`, as long as `words`. Word by word, because with `copy_from_slice` the library for C needs `memmove` from outside.
pub fn copy(from: &[u64], words: &mut [u64])
    requires { length words.old ≤ length from.now }
    ensures { words.new ≡ take (length words.old) from.now }
{
    for i in 0..words.len() {
        words[i] = from[i];
    }
}
