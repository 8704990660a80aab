// The answer of a call for C: numbers at the front of a lent block, as many of them as it has room for. It rests on the refusal that an answer can
// hold.
#![tactic(auto)]

ghost use Rattle.std.specs.Prelude.{◌≡◌};
ghost use Rattle.rules.specs.Refusal.{outcome_of};
ghost use Rattle.answer_block.specs.Block.{Answers, or_end, stored};
ghost use Rattle.answer_block.specs.Numbers.{alone};

use rules::Refusal;

// Stores what a call answers: a result's numbers, or a refusal's place alone. It returns what the call for C returns, a number: 0 where nothing was
// refused, or the refusal's.
#[inline]
pub fn answer<const N: usize>(block: &mut [u64], answer: Result<[u64; N], Refusal>) -> u64
    ensures { Answers (λ l. l) (outcome_of (λ l. l) answer.entry) block.old result block.new }
{
    match answer {
        Ok(numbers) => {
            store(block, numbers);
            0
        }
        Err(refusal) => {
            store(block, [refusal.place as u64]);
            refusal.number()
        }
    }
}

// The same of a reading, which at the end tells 0 alone, as both enums of kinds for C have it.
#[inline]
pub fn reading<const N: usize>(block: &mut [u64], read: Result<Option<[u64; N]>, Refusal>) -> u64
    ensures { Answers or_end (outcome_of (λ o. o) read.entry) block.old result block.new }
{
    match read.transpose() {
        None => answer(block, Ok([0])),
        Some(read) => answer(block, read),
    }
}

// A result that is one number, and one that is a count. (The check infers nothing of an array that a closure makes, so that a result becomes numbers
// by a function.)
#[inline]
pub fn alone(number: u64) -> [u64; 1]
    ensures { result ≡ alone number }
{
    [number]
}

#[inline]
pub fn count(number: usize) -> [u64; 1]
    ensures { result ≡ alone number }
{
    alone(number as u64)
}

// Each number is stored by itself: with `copy_from_slice` a short call took twice as long when measured (costing three records, 74 for 37 ns; costing
// at 3 flags is at 55 beside the original's 56). And after `block.iter_mut().zip(numbers)` nothing is known of the block: the library says so of
// every adapter of `iter_mut`.
#[inline]
fn store<const N: usize>(block: &mut [u64], numbers: [u64; N])
    ensures { block.new ≡ stored block.old numbers.entry }
{
    for (place, number) in numbers.iter().enumerate() {
        if place < block.len() {
            block[place] = *number;
        }
    }
}
