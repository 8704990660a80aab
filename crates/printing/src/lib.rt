// The printing program over a reader and a writer: it reads a line of digits and writes the rule whose table they are, or `bad
// line`. It keeps the first 66 bytes of its input, which decide the output (`printed-front` of `rule_text`): a line has at
// most 65. It rests on `rule_text` and `pages`.
#![tactic(auto)]

ghost use Rattle.std.specs.Prelude.{OnOk, IfSome};
ghost use Rattle.std.specs.Io.KnownBytes.{Appends};
ghost use Rattle.rules.specs.Text.{printed};

use std::io;
use std::io::{Read, Write};

// (`examining` has the same two lines: each ties a name of the documents to its page. What they share is `pages::run`.)
// Everything that can be read from `input` is one line, and its answer goes to `output`.
pub fn run<R: Read, W: Write>(input: &mut R, output: &mut W) -> io::Result<()>
    ensures { OnOk result (IfSome (R.remaining input.old)
        (λ s. Appends (W.contents output.old) (W.contents output.new) (printed s))) }
{
    let mut line = [0u8; 66];
    pages::run(input, output, &mut line, rule_text::print_rule)
}
