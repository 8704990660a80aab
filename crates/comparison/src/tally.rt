// The count of what was compared. It rests on nothing else: what is counted is a yes or a no.
ghost use Rattle.std.specs.Prelude.{◌≡◌};
ghost use Rattle.comparison.specs.Tally.{empty, one_more};

// `first` is the number of the first that differed, counted from 1.
#[derive(Clone, Copy, Debug, PartialEq, Eq)]
pub struct Tally {
    pub compared: u64,
    pub differences: u64,
    pub first: Option<u64>,
}

// Not derived: a derived default says its parts one by one, and each count that starts from it would need a lemma to be `empty`.
impl Default for Tally {
    ghost is_default = { λ t. t ≡ empty };

    fn default() -> Tally {
        Tally {
            compared: 0,
            differences: 0,
            first: None,
        }
    }
}

impl Tally {
    // One more comparison, and what it found.
    pub fn count(&mut self, is_same: bool)
        ensures { self.new ≡ one_more self.old is_same }
    {
        self.compared = self.compared.wrapping_add(1);
        if !is_same {
            self.differences = self.differences.wrapping_add(1);
            self.first = self.first.or(Some(self.compared));
        }
    }
}
