// The ones of a word, walked. It rests on the places of a word (bits, Word).

ghost use Rattle.std.specs.Prelude.{◌≡◌};
ghost use Rattle.std.specs.Iterator.{YieldsFirst, item_count};
ghost use Rattle.bits.specs.Word.{places};

// The places of a word's ones, ascending: the masks of a set of masks, or the flags of a mask. So they are numbers, and no `Mask`s.
#[derive(Clone, Copy, Drop)]
pub struct Ones {
    left: u64,
}

impl Ones {
    #[inline]
    pub fn of(word: u64) -> Ones
        ensures { result ≡ record { left = word } }
    {
        Ones { left: word }
    }

    // The ones that are left.
    #[inline]
    pub fn word(&self) -> u64
        ensures { result ≡ self.now.left }
    {
        self.left
    }
}

impl Iterator for Ones {
    type Item = usize;

    ghost next_gives = { YieldsFirst (λ s. places 64 s.left) };

    ghost remaining = { item_count (λ s. places 64 s.left) };

    #[inline]
    fn next(&mut self) -> Option<usize> {
        if self.left == 0 {
            return None;
        }
        let place = self.left.trailing_zeros() as usize;
        self.left &= self.left - 1;
        Some(place)
    }
}
