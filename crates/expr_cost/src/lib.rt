// Costs of an expression, after `expr_cost.rs` and `anf_expr_cost`: cost, size and depth in one walk over its records, whose values are the depths of
// trees. It rests on `walk`, which counts the records and the cost.
#![tactic(auto)]

ghost use Rattle.std.specs.Prelude.{◌≡◌};
ghost use Rattle.std.proofs.Common.{rules};
ghost use Rattle.rules.specs.Calls;
ghost use Rattle.rules.specs.Tree.{depth};
ghost use Rattle.expr_cost.specs.Answers.{costing_of};

use expr::Kind;
use rules::{Refusal, RuleFlags};
use walk::Values;

#[derive(Clone, Copy, Debug, PartialEq, Eq)]
pub struct Costs {
    pub cost: usize,
    pub size: usize,
    pub depth: usize,
}

// The depths of the trees of so many flags.
#[derive(Clone, Copy)]
struct Depths {
    flags: RuleFlags,
}

// The costs of an expression.
pub fn compute_cost(flags: usize, bytes: &[u8]) -> Result<Costs, Refusal>
    ensures { costing_of result ≡ Calls.costing flags bytes.now }
{
    let flags = RuleFlags::try_from(flags)?;
    let seen = walk::walk(&Depths { flags }, bytes)?;
    Ok(Costs {
        cost: seen.cost,
        size: seen.size,
        depth: usize::from(seen.value),
    })
}

impl Values for Depths {
    type Value = u16;

    ghost flag_count = { λ d. d.flags.count };

    ghost value = { λ d. depth };

    #[inline]
    fn flags(&self) -> RuleFlags {
        self.flags
    }

    // A leaf has depth 1, and an operator one more than its deepest operand.
    #[inline]
    fn apply(&self, kind: Kind, first: u16, second: u16) -> u16 {
        match kind.arity() {
            0 => 1,
            1 => first + 1,
            _ => first.max(second) + 1,
        }
    }

    ghost small = { Prim.search rules };
}
