// Each call of the library that a case can ask for, and its answer as an outcome. It rests on those calls; the promises say
// that the outcome is the call's on paper.
// Buffers are arrays of the most that a file asks: no crate allocates.
#![tactic(auto)]

ghost use Rattle.std.specs.Prelude.{◌≡◌};
ghost use Rattle.rules.specs.Calls as paper;
ghost use Rattle.expr_cost.specs.Answers.{costs_of};
ghost use Rattle.recorded.specs.Results.{number_of};
ghost use Rattle.recorded_calls.specs.Answers.{numbers_of, costed_of, examined, raw_costed, chosen, preferred};

use anf_form::raw_anf_cost;
use cheaper::{cheaper, is_better};
use comparison::Outcome;
use evaluation::evaluate;
use examiner::examine;
use expr_cost::{Costs, compute_cost};
use recorded::numbers::{half_at, word_at};
use recorded::slices::set_table;

// More entries than any whole file asks for.
const ENTRIES: usize = 128;

pub fn evaluation(flags: usize, bytes: &[u8], setting: usize) -> Outcome
    ensures { result ≡ number_of (paper.evaluate flags bytes.now setting) }
{
    let answer = evaluate(flags, bytes, setting);
    Outcome::from(answer.map(|value| value as usize))
}

fn numbers(costs: Costs) -> [usize; 4]
    ensures { result ≡ numbers_of (costs_of costs) }
{
    [costs.cost, costs.size, costs.depth, 0]
}

pub fn costing(flags: usize, bytes: &[u8]) -> Outcome
    ensures { result ≡ costed_of (paper.costing flags bytes.now) }
{
    let answer = compute_cost(flags, bytes);
    Outcome::from(answer.map(numbers))
}

// The table has so many entries, whose lowest bits are `bits`.
pub fn examination(flags: usize, entries: usize, bits: &[u8], bytes: &[u8]) -> Outcome
    ensures { result ≡ examined flags entries bits.now bytes.now }
{
    if entries > ENTRIES {
        return Outcome::Damaged;
    }
    let mut table = [0u64; ENTRIES];
    set_table(&mut table, bits);
    Outcome::from(examine(flags, &table[..entries], bytes))
}

// So many words are lent, of which the first is `bits` and the others, which must be ignored, are not 0.
pub fn raw_costing(flags: usize, entries: usize, bits: &[u8]) -> Outcome
    ensures { result ≡ raw_costed flags entries bits.now }
{
    if entries > ENTRIES {
        return Outcome::Damaged;
    }
    let mut words = [u64::MAX; ENTRIES];
    words[0] = word_at(bits, 0);
    Outcome::from(raw_anf_cost(flags, &words[..entries]))
}

// Which of the two is handed back: 0 for an empty slice, 1 for the first, 2 for the second, by length and bytes. The numbers are the files'.
pub fn choice<'a>(flags: usize, first: &'a [u8], second: &'a [u8]) -> Outcome
    ensures { result ≡ chosen flags first.now second.now }
{
    let chosen = cheaper(flags, first, second);
    if chosen.is_empty() {
        return Outcome::one(0);
    }
    if chosen == first {
        return Outcome::one(1);
    }
    if chosen == second {
        return Outcome::one(2);
    }
    Outcome::Damaged
}

// Whether the second of two sizes and depths is better, as 0 or 1. The costs, by which neither must be chosen, are the
// other's size.
pub fn comparison(head: &[u8]) -> Outcome
    ensures { result ≡ preferred head.now }
{
    let size = half_at(head, 0) as usize;
    let rival = half_at(head, 8) as usize;
    let first = Costs {
        cost: rival,
        size,
        depth: half_at(head, 4) as usize,
    };
    let second = Costs {
        cost: size,
        size: rival,
        depth: half_at(head, 12) as usize,
    };
    Outcome::one(is_better(second, first) as usize)
}
