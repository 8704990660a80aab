// One evaluation of stars.bin: the flag count, the words of the flags, an expression, and the values for 64 stars that the documents give it, or the
// refusal. It rests on the call; the promise says that what is compared is the call on paper that the head's bytes ask. `replay_expressions` reads
// the file; its data folder has the format.
// Buffers are arrays of the most that a file asks: no crate allocates.
#![tactic(auto)]

ghost use Rattle.std.specs.Prelude.{◌≡◌};
ghost use Rattle.rules.specs.Calls as paper;
ghost use Rattle.recorded.specs.Numbers.{words_in};
ghost use Rattle.recorded.specs.Results.{number_of};
ghost use Rattle.recorded_stars.specs.Stars.{stars_at, stars_agree};

use comparison::Outcome;
use comparison::outcome::alone;
use recorded::numbers::{byte_at, word_at};
use recorded::results::recorded_as;
use recorded::slices::set_words;
use stars::evaluate_stars;

// More words than any head asks for.
const WORDS: usize = 256;

// So many words are lent, which stand in `lent`.
fn asked(flags: usize, count: u8, lent: &[u8], bytes: &[u8]) -> Outcome
    ensures { result ≡ number_of (paper.evaluate_stars flags (words_in count lent.now) bytes.now) }
{
    let mut words = [0u64; WORDS];
    let words = &mut words[..usize::from(count)];
    set_words(words, lent);
    let answer = evaluate_stars(flags, words, bytes);
    Outcome::from(answer.map(|values| values as usize))
}

// The values, or the place of a refusal, take eight bytes.
fn expected(head: &[u8]) -> Outcome
    ensures { result ≡ stars_at head.now }
{
    let number = u64::from(byte_at(head, 11));
    recorded_as(number, alone(word_at(head, 12) as usize))
}

pub fn agrees(head: &[u8], lent: &[u8], bytes: &[u8]) -> bool
    ensures { result ≡ stars_agree head.now lent.now bytes.now }
{
    let flags = word_at(head, 0) as usize;
    asked(flags, byte_at(head, 8), lent, bytes) == expected(head)
}
