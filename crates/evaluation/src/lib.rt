// Evaluation of an expression at one setting: a walk over its records, whose values are the truth values of trees there. It rests on `walk`.
#![tactic(auto)]

ghost use Rattle.std.specs.Prelude.{◌≡◌};
ghost use Rattle.std.proofs.Common.{rules};
ghost use Rattle.rules.specs.Calls;
ghost use Rattle.rules.specs.Tree.{value};
ghost use Rattle.evaluation.specs.Answers.{evaluation_of};

use expr::Kind;
use rules::{Reason, Refusal, RuleFlags};
use walk::Values;

// A setting of so many flags.
#[derive(Clone, Copy)]
struct Setting {
    flags: RuleFlags,
    bits: usize,
}

// The value at the setting.
pub fn evaluate(flags: usize, bytes: &[u8], setting: usize) -> Result<u64, Refusal>
    ensures { evaluation_of result ≡ Calls.evaluate flags bytes.now setting }
{
    let flags = RuleFlags::try_from(flags)?;
    if 1 << flags.count <= setting {
        return Err(Reason::BadSetting.at(0));
    }
    let seen = walk::walk(
        &Setting {
            flags,
            bits: setting,
        },
        bytes,
    )?;
    Ok(u64::from(seen.value))
}

impl Values for Setting {
    type Value = bool;

    ghost flag_count = { λ s. s.flags.count };

    ghost value = { λ s t. value t s.bits };

    #[inline]
    fn flags(&self) -> RuleFlags {
        self.flags
    }

    #[inline]
    fn apply(&self, kind: Kind, first: bool, second: bool) -> bool {
        match kind {
            Kind::Constant(b) => b,
            Kind::Variable(i) => (self.bits >> i) % 2 == 1,
            Kind::And => first & second,
            Kind::Or => first | second,
            Kind::Xor => first ^ second,
            Kind::Not => !first,
        }
    }

    ghost small = { Prim.search rules };
}
