// A form of at most six flags by value: one word, whose bit m is the mask m and whose bit 0 is the constant. What is asked of a form here is promised
// over its masks; only the cleanup's searches (`search`) look at the word too. Any set of masks is such a word,
// also the cubes that a search tries. It rests on `mask_words`.
#![tactic(auto)]

ghost use Rattle.std.specs.Prelude.{◌^◌, not, [], ◌∷◌, map, ◌≡◌, ◌+◌, ◌*◌, ◌<◌, ◌≤◌, eqb, length};
ghost use Rattle.std.proofs.lemmas.List.Edits.{sets};
ghost use Rattle.bits.specs.Bit.{bit, within};
ghost use Rattle.bits.specs.Range.{any, keep, mem};
ghost use Rattle.bits.specs.Stored.{Room, Stored};
ghost use Rattle.bits.specs.Sum.{union};
ghost use Rattle.bits.specs.Word.{places};
ghost use Rattle.rules.specs.Cleanup as paper;
ghost use Rattle.rules.specs.Form as raw;
ghost use Rattle.rules.specs.Monomial as monomial;
ghost use Rattle.mask_words.specs.inner.Degree.{of_degree};
ghost use Rattle.mask_words.specs.Lookup.{mask_count};
ghost use Rattle.form.specs.Masks.{masks};

use mask_words::{Lookup, Mask, Monomial, Ones};

#[derive(Clone, Copy)]
pub struct Form {
    pub word: u64,
}

// Two monomials, ascending.
#[derive(Clone, Copy)]
pub struct Pair {
    pub first: Monomial,
    pub second: Monomial,
}

impl Form {
    // The form of one word of coefficients.
    #[inline]
    pub fn of_coefficients(word: u64) -> Form
        ensures { masks result ≡ places mask_count word }
    {
        Form { word }
    }

    // The masks, ascending.
    #[inline]
    pub fn masks(self) -> Ones
        ensures { places mask_count result.left ≡ masks self }
    {
        Ones::of(self.word)
    }

    // How many masks there are.
    pub fn size(self) -> usize
        ensures { (result ≡ length (masks self)) × (result ≤ mask_count) }
    {
        self.word.count_ones() as usize
    }

    // Whether there is no mask at all, not even the constant's.
    pub fn is_empty(self) -> bool
        ensures { result ≡ eqb (length (masks self)) 0 }
    {
        self.word == 0
    }

    // Whether a mask is there.
    #[inline]
    fn has(self, mask: Mask) -> bool
        ensures { result ≡ mem mask.bits (masks self) }
    {
        (self.word >> usize::from(mask)) & 1 == 1
    }

    // The constant.
    #[inline]
    pub fn constant(self) -> bool
        ensures { result ≡ monomial.constant (masks self) }
    {
        self.has(Mask::of(0))
    }

    // The monomials alone: the form without the constant, which is the lowest bit.
    #[inline]
    pub fn monomials(self) -> Form
        ensures { masks result ≡ monomial.monomials (masks self) }
    {
        let word = self.word & !1;
        Form { word }
    }

    // How many monomials there are.
    pub fn count(self) -> usize
        ensures { result ≡ length (monomial.monomials (masks self)) }
    {
        self.monomials().size()
    }

    // The two monomials of a form that has just two.
    pub fn pair(self) -> Pair
        requires { length (monomial.monomials (masks self)) ≡ 2 }
        ensures { monomial.monomials (masks self) ≡ result.first.mask.bits ∷ result.second.mask.bits ∷ [] }
    {
        let both = self.monomials().word;
        let first = both.trailing_zeros() as usize;
        let second = (both & (both - 1)).trailing_zeros() as usize;
        Pair {
            first: Monomial::of(first),
            second: Monomial::of(second),
        }
    }

    // The flags that occur as single-flag monomials.
    #[inline]
    pub fn singles(self) -> Mask
        ensures { result.bits ≡ paper.singles (masks self) }
    {
        let single = |flag: usize| -> bool
            requires { flag < 6 }
            ensures { result ≡ mem (2 ^ flag) (masks self) }
        { self.has(Mask::of(1 << flag)) };
        Mask::of(mask_words::chosen(6, single) as usize)
    }

    // The flags that occur. As a `Mask`, a byte, they were counted in more instructions, at each cube: 5 % of compiling, and the bar is 1 %.
    #[inline]
    pub fn flags(self) -> usize
        ensures { result ≡ union (masks self) }
    {
        let occurs = |flag: usize| -> bool
            requires { flag < 6 }
            ensures { result ≡ any (λ m. bit m flag) (places mask_count self.word) }
        { self.word & mask_words::flag_words()[flag] != 0 };
        mask_words::chosen(6, occurs) as usize
    }

    // The total number of flags in the masks. A mask's count of ones has three binary digits: the masks that have the digit are counted for each of
    // them.
    fn literals(self) -> usize
        ensures { result ≡ raw.literals (masks self) }
    {
        let ones = (self.word & 0x6996_9669_9669_6996).count_ones();
        let twos = (self.word & 0x8117_177e_177e_7ee8).count_ones();
        let fours = (self.word & 0xfee8_e880_e880_8000).count_ones();
        (ones + 2 * twos + 4 * fours) as usize
    }

    // The raw form's cost by a formula, because the cleanup asks for it at every step: twice the literals and twice the constant, less one. What raw
    // costing adds up term by term (`anf_form`) is the same number.
    pub fn raw_cost(self) -> usize
        ensures { result ≡ raw.raw_cost (masks self) }
    {
        if self.is_empty() {
            return 1;
        }
        2 * self.literals() + 2 * usize::from(self.constant()) - 1
    }

    // The masks that have that many ones, counted from `base`, at the front of `out`; how many there are.
    pub fn list_degree(self, degree: usize, base: usize, out: &mut [u32]) -> usize
        requires { (base ≤ 65536) × Room (of_degree degree (masks self)) 0 out.old }
        ensures { Stored (map (λ m. base + m) (of_degree degree (masks self))) 0 result out.old out.new }
    {
        mask_words::list(self.word & mask_words::with_ones(degree), base, out)
    }

    // All terms in the raw form's order, at the front of `out`, by count of ones, then mask: the constant 1 is the mask 0 and comes first. It answers
    // how many there are. As an `ArrayVec`, which is filled and moved first, they cost a compilation of four flags 2.9 % more instructions: the
    // bar is 1 %.
    pub fn terms(self, out: &mut [u32]) -> usize
        requires { length (masks self) ≤ length out.old }
        ensures { (result ≡ length (masks self)) × (out.new ≡ sets out.old 0 (monomial.ordered (masks self))) }
    {
        let mut count = 0;
        for degree in 0..7 {
            count += self.list_degree(degree, 0, &mut out[count..]);
        }
        count
    }

    // Whether the monomials are exactly the nonempty subsets of the single flags.
    pub fn is_family(self, lookup: &Lookup) -> bool
        ensures { result ≡ paper.is_family (masks self) }
    {
        let singles = self.singles();
        (0 < singles.bits) & (self.monomials().word == lookup.subsets(singles))
    }

    // The monomials that contain the whole cube, without its flags: a mask that loses the cube's flags moves down by the cube's number.
    pub fn stripped(self, cube: Monomial, lookup: &Lookup) -> Form
        ensures { masks result ≡ paper.stripped cube.mask.bits (masks self) }
    {
        let covered = self.word & lookup.supersets(cube.mask);
        let word = covered >> usize::from(cube);
        Form { word }
    }

    // The total number of flags in the monomials that contain the whole cube.
    pub fn covered_literals(self, cube: Mask, lookup: &Lookup) -> usize
        ensures { result ≡ raw.literals (paper.covered cube.bits (masks self)) }
    {
        let word = self.word & lookup.supersets(cube);
        let covered = Form { word };
        covered.literals()
    }

    // The masks that do not contain the whole cube.
    pub fn uncovered(self, cube: Mask, lookup: &Lookup) -> Form
        ensures { masks result ≡ keep (λ m. not (within cube.bits m)) (masks self) }
    {
        let word = self.word & !lookup.supersets(cube);
        Form { word }
    }

    // The form without the nonempty subsets of a mask.
    pub fn without(self, mask: Mask, lookup: &Lookup) -> Form
        ensures { masks result ≡ keep (λ x. not (mem x (paper.family mask.bits))) (masks self) }
    {
        let word = self.word & !lookup.subsets(mask);
        Form { word }
    }
}
