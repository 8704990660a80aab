// The examining command over a reader and a writer: it reads a line of a table's digits and a line of a rule's records, and
// writes the examiner's verdict in words. It keeps the first 4096 bytes of its input, which decide the output
// (`page-front` of `examination_text`): the two lines have at most 4095. It rests on `examination_text` and `pages`.
#![tactic(auto)]

ghost use Rattle.std.specs.Prelude.{OnOk, IfSome};
ghost use Rattle.std.specs.Io.KnownBytes.{Appends};
ghost use Rattle.examination_text.specs.Input.{verdict_page};

use std::io;
use std::io::{Read, Write};

// (`printing` has the same two lines: each ties a name of the documents to its page. What they share is `pages::run`.)
// Everything that can be read from `input` is the two lines, and their verdict goes to `output`.
pub fn run<R: Read, W: Write>(input: &mut R, output: &mut W) -> io::Result<()>
    ensures { OnOk result (IfSome (R.remaining input.old)
        (λ s. Appends (W.contents output.old) (W.contents output.new) (verdict_page s))) }
{
    let mut lines = [0u8; 4096];
    pages::run(input, output, &mut lines, examination_text::examine_rule)
}
