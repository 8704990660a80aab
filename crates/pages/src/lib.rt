// Programs whose output is a page: a page written to a writer, and the run of a program whose page the front of its input decides. It rests on
// `text`, on `fronts` and on std's readers and writers.
#![tactic(auto)]

ghost use Rattle.std.specs.Prelude.{◌≡◌, ℕ, List, OnOk, IfSome, length, take};
ghost use Rattle.std.specs.Io.KnownBytes.{Appends};
ghost use Rattle.text.specs.Page.{Shows};

use std::io;
use std::io::{Read, Write};
use text::Page;

// The page's text goes to `output`. Any count may be given, as the fields are public: past the end of the bytes it means all of them, as in `take`.
pub fn write<W: Write>(output: &mut W, page: Page) -> io::Result<()>
    ensures { OnOk result (Appends (W.contents output.old) (W.contents output.new) (take page.count page.bytes)) }
{
    let count = page.count.min(page.bytes.len());
    output.write_all(&page.bytes[..count])
}

// The page of the front of the input, as much of it as the buffer holds, goes to `output`. Where that much decides the page's text, it is that of the
// whole input. The buffer is lent: with its length as a const parameter `N` the contract would have to ask `N < 2 ^ 63` (tried).
pub fn run<R: Read, W: Write, F: Fn(&[u8]) -> Page>(
    input: &mut R,
    output: &mut W,
    front: &mut [u8],
    page: F,
) -> io::Result<()>
    requires { F.IsAlwaysCallable page }
    ensures { (text : List ℕ → List ℕ) → ((s : List ℕ) → text (take (length front.old) s) ≡ text s)
        → ((s : _) (shown : _) → F.post page s shown → Shows (text s.now) shown)
        → OnOk result (IfSome (R.remaining input.old) (λ s. Appends (W.contents output.old) (W.contents output.new) (text s))) }
{
    let length = fronts::read(input, front)?;
    write(output, page(&front[..length]))
}
