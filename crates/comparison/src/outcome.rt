// What a call answered, or is recorded to answer, as numbers, and whether both are the same. It rests on refusals.
ghost use Rattle.std.specs.Cmp.Lexicographic.{pointwise};
ghost use Rattle.std.specs.Prelude.{◌≡◌, ◌&&◌};
ghost use Rattle.rules.specs.Refusal as conditions;
ghost use Rattle.comparison.specs.Outcome.{results, alone, refusal, answer_of, same_outcome};

use rules::Refusal;

// Four numbers, with 0 for what a call does not have. A file can record any number for a refusal's, so that it need not be a condition's, and more
// beside a refusal's place, which is the first.
#[derive(Clone, Copy, Debug, PartialEq, Eq)]
pub enum Outcome {
    Results([usize; 4]),
    Refused { number: u64, results: [usize; 4] },
    // The answer where a damaged file asks what no call takes. It equals no recorded outcome.
    Damaged,
}

impl Outcome {
    // The result of a call that gives one number.
    pub fn one(number: usize) -> Outcome
        ensures { result ≡ results number 0 0 0 }
    {
        Outcome::Results(alone(number))
    }

    // A refusal with its place alone.
    pub fn refused(number: u64, place: usize) -> Outcome
        ensures { result ≡ refusal number place }
    {
        Outcome::Refused {
            number,
            results: [place, 0, 0, 0],
        }
    }
}

impl From<Refusal> for Outcome {
    ghost from_gives = { λ refused outcome. outcome ≡ refusal (conditions.number refused.reason) refused.place };

    fn from(refusal: Refusal) -> Outcome {
        Outcome::refused(refusal.number(), refusal.place)
    }
}

// An answer whose result is given in numbers.
impl From<Result<[usize; 4], Refusal>> for Outcome {
    ghost from_gives = { λ answer outcome. outcome ≡ answer_of (λ l. l) answer };

    fn from(answer: Result<[usize; 4], Refusal>) -> Outcome {
        match answer {
            Ok(results) => Outcome::Results(results),
            Err(refusal) => Outcome::from(refusal),
        }
    }
}

// An answer whose result is one number.
impl From<Result<usize, Refusal>> for Outcome {
    ghost from_gives = { λ answer outcome. outcome ≡ answer_of alone answer };

    fn from(answer: Result<usize, Refusal>) -> Outcome {
        Outcome::from(answer.map(alone))
    }
}

// A number by itself, as the results of a call that gives no other.
pub fn alone(number: usize) -> [usize; 4]
    ensures { result ≡ alone number }
{
    [number, 0, 0, 0]
}

// Whether a call tells the outcome and leaves the buffer that is expected of it.
pub fn comes_to<T: PartialEq>(told: Outcome, out: &[T], expected: Outcome, left: &[T]) -> bool
    ensures { result ≡ (same_outcome told expected && pointwise T.eq out.now left.now) }
{
    (told == expected) & (out == left)
}
