// Monomials degree by degree. The flags of a mask above the six of its word are the word's index: a mask of degree d in word i is one of degree
// d - ones(i) in that word. So each set coefficient is visited once. It rests on `form`, which lists the masks of one degree in a word.
ghost use Rattle.std.specs.Prelude.{map, ◌≡◌, ◌+◌, ◌*◌, ◌≤◌, ◌<◌, length};
ghost use Rattle.std.proofs.lemmas.List.Edits.{sets};
ghost use Rattle.bits.specs.Stored.{Room, Stored};
ghost use Rattle.rules.specs.Monomial.{monomials, ordered};
ghost use Rattle.mask_words.specs.inner.Degree.{of_degree};
ghost use Rattle.anf_form.specs.Inner.{held, of_block};

use form::Form;
use packed_anf::lent::Coefficients;
use rules::FORM_FLAGS;

// All monomials, by degree from 1 to the number of flags, then by mask, at the front of `out`.
pub fn list(coefficients: Coefficients<'_, FORM_FLAGS>, out: &mut [u32])
    requires { length (monomials (held (length coefficients.words.now) coefficients.words.now)) ≤ length out.old }
    ensures { out.new ≡ sets out.old 0 (ordered (monomials (held (length coefficients.entry.words.now) coefficients.entry.words.now))) }
{
    let mut count = 0;
    for degree in 1..=coefficients.flags.count {
        count += list_degree(degree, coefficients, &mut out[count..]);
    }
}

// The masks of one degree, at the front of `out`; how many there are.
fn list_degree(degree: usize, coefficients: Coefficients<'_, FORM_FLAGS>, out: &mut [u32]) -> usize
    requires { Room (of_degree degree (held (length coefficients.words.now) coefficients.words.now)) 0 out.old }
    ensures { Stored (of_degree degree (held (length coefficients.entry.words.now) coefficients.entry.words.now)) 0 result out.old out.new }
{
    let mut count = 0;
    for (i, word) in coefficients.words.iter().enumerate() {
        count += list_block(degree, i, *word, &mut out[count..]);
    }
    count
}

// Those in word i, one of 1,024 at most.
fn list_block(degree: usize, i: usize, word: u64, out: &mut [u32]) -> usize
    requires few { i < 1024 }
    requires room { Room (of_block degree i word) 0 out.old }
    ensures { Stored (map (λ j. 64 * i + j) (of_block degree i word)) 0 result out.old out.new }
{
    let above = mask_words::flag_count(i);
    if degree < above {
        return 0;
    }
    Form::of_coefficients(word).list_degree(degree - above, 64 * i, out)
}
