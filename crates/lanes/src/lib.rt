// An expression at 64 settings side by side, one word for each flag: the values of its trees in one word each. A walk with these values (`walk`)
// answers the word of the whole. It rests on `walk`.
#![tactic(auto)]

ghost use Rattle.std.specs.Prelude.{◌≡◌, ◌≤◌, ◌<◌, length, get_or};
ghost use Rattle.std.proofs.Common.{rules};
ghost use Rattle.rules.specs.Stars.{star_values};
ghost use Rattle.lanes.specs.Inner.{filled};

use expr::Kind;
use rules::RuleFlags;
use walk::Values;

// A word for each flag, whose bit j is the flag at setting j.
#[derive(Clone, Copy)]
pub struct Lanes<'a> {
    pub flags: RuleFlags,
    pub words: &'a [u64],
    ghost enough: { flags.count ≤ length words.now },
}

impl<'a> Values for Lanes<'a> {
    type Value = u64;

    ghost flag_count = { λ l. l.flags.count };

    ghost value = { λ l. star_values l.flags.count l.words.now };

    #[inline]
    fn flags(&self) -> RuleFlags {
        self.flags
    }

    #[inline]
    fn apply(&self, kind: Kind, first: u64, second: u64) -> u64 {
        match kind {
            Kind::Constant(b) => all(b),
            Kind::Variable(i) => word(self.words, i),
            Kind::And => first & second,
            Kind::Or => first | second,
            Kind::Xor => first ^ second,
            Kind::Not => !first,
        }
    }

    ghost small = { Prim.search rules };
}

// The word of a flag.
#[inline]
fn word(words: &[u64], i: u8) -> u64
    requires { i < length words.now }
    ensures { result ≡ get_or words.now i 0 }
{
    words[usize::from(i)]
}

// A constant in all lanes.
#[inline]
fn all(b: bool) -> u64
    ensures { result ≡ filled b }
{
    if b { u64::MAX } else { 0 }
}
