// The documents as mathematics: specs/ has every definition of document 01, and of the requests of document 02 that are carried out but for a
// package's rules, writer and reader, which are in `rule_package`, each beside the sentence that it renders, and proofs/ computes the documents' own
// examples with them. The only code is what every call shares: the limits, a number of flags within one, and refusals. It rests on `bits`.
#![tactic(auto)]

pub mod flags;
pub mod refusal;

use crate::flags::Flags;
pub use crate::refusal::{Reason, Refusal};

// Limits: flags of a form (transform, way back, listing) and of a rule (all other calls), the records of an expression,
// and the bytes that always suffice for one that is compiled.
pub const FORM_FLAGS: usize = 16;

pub const RULE_FLAGS: usize = 6;

pub const RECORD_LIMIT: usize = 385;

pub const BYTE_LIMIT: usize = 963;

// Limits of a package: the flags of its rules, and its bytes.
pub const PACKAGE_FLAGS: usize = 6;

pub const PACKAGE_LIMIT: usize = 65536;

// A number of flags that a form or a rule may have.
pub type FormFlags = Flags<FORM_FLAGS>;

pub type RuleFlags = Flags<RULE_FLAGS>;
