// The raw cost of lent coefficients, after `raw_anf_cost` and `monomial_expr_cost` of `anf_cleanup.rs`. Document 02, request 3: "Add up the same
// terms over the coefficient word, lowest mask first."; no list of them is made. It rests on `mask_words`, whose walk over a word's masks goes from
// the lowest. With at most six flags there is one word; nothing here rests on that.
ghost use Rattle.std.specs.Prelude.{map, ◌≡◌, suc, ◌+◌, ◌≤◌, length};
ghost use Rattle.bits.specs.Sum.{total};
ghost use Rattle.bits.specs.Word.{places};
ghost use Rattle.rules.specs.Form.{term_cost, raw_cost};
ghost use Rattle.anf_form.specs.Inner.{held};

use mask_words::Ones;

// What a term costs: 2k - 1 for a monomial of k flags, and 1 for the constant 1, whose mask is 0. A number has at most 64 ones.
fn term_cost(mask: usize) -> usize
    ensures { (result ≡ term_cost mask) × (result ≤ 127) }
{
    if mask == 0 {
        return 1;
    }
    2 * mask_words::flag_count(mask) - 1
}

// The sum over the masks of a word, each moved up by `base`: what its term costs, and 1 for joining it. There are at most 64.
fn sum_terms(word: u64, base: usize) -> usize
    requires { base ≤ 65536 }
    ensures { (result ≡ total (λ m. suc (term_cost m)) (map (λ m. base + m) (places 64 word))) × (result ≤ 8192) }
{
    let mut sum = 0;
    for mask in Ones::of(word) {
        sum += term_cost(base + mask) + 1;
    }
    sum
}

// The raw cost of the masks in the words. The limit is that of 16 flags: it was promised, though who calls has one word. There is one join fewer than
// there are terms; with no term the cost is 1.
pub fn raw_cost(words: &[u64]) -> usize
    requires { length words.now ≤ 1024 }
    ensures { result ≡ raw_cost (held (length words.now) words.now) }
{
    let mut sum = 0;
    for (i, word) in words.iter().enumerate() {
        sum += sum_terms(*word, 64 * i);
    }
    if 0 < sum {
        return sum - 1;
    }
    1
}
