// One form of listings.bin: the constant and the number of monomials in the head, the bytes of the coefficients, and the
// original's list. It rests on the listing call, which is also asked to refuse the form with too many flags and in a buffer
// that is short; the promises say that what is compared is the call on paper. `replay_expressions` reads the file; its data
// folder has the format.
// Buffers are arrays of the most that a file asks: no crate allocates.
#![tactic(auto)]

ghost use Rattle.std.specs.Prelude.{◌≡◌, ◌+◌, ◌^◌, ◌≤◌, length};
ghost use Rattle.rules.specs.Calls as paper;
ghost use Rattle.comparison.specs.Called.{comes_to};
ghost use Rattle.recorded_listings.specs.Listings.{listed_of, masks_after, contents_of, lent_words};
ghost use Rattle.recorded_listings.specs.Listings.{refused_as, short_refused, listed_as, form_agrees};

use anf_form::{Contents, from_anf_coeffs};
use comparison::Outcome;
use comparison::outcome::comes_to;
use recorded::numbers::{byte_at, pair_at};
use recorded::pattern::MASK;
use recorded::sizes;
use recorded::slices::{set_masks, set_words};
use rules::Reason;

// The constant and the number of monomials are the results.
fn numbers(contents: Contents) -> [usize; 4]
    ensures { result ≡ contents_of contents }
{
    [usize::from(contents.constant), contents.count, 0, 0]
}

// The listing call with the outcome that it must have and the whole buffer that it must leave.
fn lists_as(flags: usize, words: &[u64], out: &mut [u32], expected: Outcome, left: &[u32]) -> bool
    ensures { result ≡ comes_to listed_of masks_after (paper.listing flags words.now (length out.old))
        out.old expected left.now }
{
    let answer = from_anf_coeffs(flags, words, out);
    let told = Outcome::from(answer.map(numbers));
    comes_to(told, out, expected, left)
}

// What a listing is asked to refuse: so many flags, and a buffer with so many entries too few. One above the limit of flags
// and 1 are right; the limit and 0 ask for the refusal of a good call, which must show as a difference. They stay numbers: the
// function took any number before, and a type must not ask more.
#[derive(Clone, Copy)]
pub struct Asked {
    pub flags: usize,
    pub lacking: usize,
}

fn is_refused(flags: usize, words: &[u64], room: usize, expected: Outcome) -> bool
    requires { room ≤ 2 ^ 16 + 3 }
    ensures { result ≡ refused_as flags words.now room expected }
{
    let mut out = [MASK; 65539];
    let left = [MASK; 65539];
    lists_as(flags, words, &mut out[..room], expected, &left[..room])
}

// A form with fewer monomials than the buffer is to lack has no such buffer: an empty one takes it.
fn is_short_refused(flags: usize, words: &[u64], count: usize, lacking: usize) -> bool
    requires { count ≤ 2 ^ 16 }
    ensures { result ≡ short_refused flags words.now count lacking }
{
    if count < lacking {
        return true;
    }
    let refused = Outcome::from(Reason::ShortOutput.at(count));
    is_refused(flags, words, count - lacking, refused)
}

fn is_listed(flags: usize, words: &[u64], room: usize, head: &[u8], masks: &[u8]) -> bool
    requires { room ≤ 2 ^ 16 + 3 }
    ensures { result ≡ listed_as flags words.now room head.now masks.now }
{
    let count = usize::from(pair_at(head, 2));
    if count > room {
        return false;
    }
    let mut out = [MASK; 65539];
    let mut left = [MASK; 65539];
    let left = &mut left[..room];
    set_masks(&mut left[..count], masks);
    let expected = Outcome::Results([usize::from(byte_at(head, 1)), count, 0, 0]);
    lists_as(flags, words, &mut out[..room], expected, left)
}

fn agrees(flags: usize, words: &[u64; 1027], head: &[u8], masks: &[u8], asked: Asked) -> bool
    ensures { result ≡ form_agrees flags words.now head.now masks.now asked.flags asked.lacking }
{
    let room = sizes::entries(flags) + 3;
    let count = usize::from(pair_at(head, 2));
    let refused = Outcome::from(Reason::TooManyFlags.at(0));
    is_refused(asked.flags, words, room, refused)
        & is_short_refused(flags, words, count, asked.lacking)
        & is_listed(flags, words, room, head, masks)
}

// The form that the bytes have. The words after it must be ignored.
pub fn agrees_form(flags: usize, bytes: &[u8], head: &[u8], masks: &[u8], asked: Asked) -> bool
    ensures { result ≡ form_agrees flags (lent_words flags bytes.now) head.now masks.now
        asked.flags asked.lacking }
{
    let count = sizes::words(flags);
    let mut words = [u64::MAX; 1027];
    set_words(&mut words[..count], bytes);
    agrees(flags, &words, head, masks, asked)
}
