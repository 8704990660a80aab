// A set of flags among six, as a number: flag i is bit i. It rests on how many there are (specs, Lookup).

ghost use Rattle.std.specs.Prelude.{◌≡◌, ◌<◌};
ghost use Rattle.mask_words.specs.Lookup.{mask_count};

// A mask of six flags. A byte, so that what keeps masks is small. Its functions are always inlined: against plain numbers compiling six flags took
// 1.3 % more instructions with these hints, and 2.1 % without.
#[derive(Clone, Copy, Debug, PartialEq, Eq)]
pub struct Mask {
    pub bits: u8,
    ghost within: { bits < mask_count },
}

// A mask with a flag: a term that is not the constant, or a cube that such terms contain.
#[derive(Clone, Copy, Debug, PartialEq, Eq)]
pub struct Monomial {
    pub mask: Mask,
    ghost some: { 0 < mask.bits },
}

impl Mask {
    #[inline(always)]
    pub fn of(number: usize) -> Mask
        requires { number < mask_count }
        ensures { result.bits ≡ number }
    {
        Mask { bits: number as u8 }
    }
}

impl Monomial {
    #[inline(always)]
    pub fn of(number: usize) -> Monomial
        requires { (0 < number) × (number < mask_count) }
        ensures { result.mask.bits ≡ number }
    {
        Monomial {
            mask: Mask::of(number),
        }
    }
}

impl From<Mask> for usize {
    ghost from_gives = { λ mask n. n ≡ mask.bits };

    #[inline(always)]
    fn from(mask: Mask) -> usize {
        usize::from(mask.bits)
    }
}

impl From<Monomial> for usize {
    ghost from_gives = { λ monomial n. n ≡ monomial.mask.bits };

    #[inline(always)]
    fn from(monomial: Monomial) -> usize {
        usize::from(monomial.mask)
    }
}
