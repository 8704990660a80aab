// Text written at a place of a lent buffer: byte strings and numbers. Each function answers the place behind what it wrote, and leaves the rest of
// the buffer as it was. A page keeps what it writes by itself (`push`); these are for who has a buffer of their own.
ghost use Rattle.std.specs.Prelude.{◌++◌};
ghost use Rattle.rules.specs.Text.{decimal};
ghost use Rattle.bits.specs.Stored.{Room, Stored};

use itoa::Buffer;

// A byte string.
pub fn put_text(text: &[u8], out: &mut [u8], at: usize) -> usize
    requires { Room text.now at out.old }
    ensures { Stored text.now at result out.old out.new }
{
    let end = at + text.len();
    out[at..end].copy_from_slice(text);
    end
}

// A number in base ten.
pub fn put_decimal(number: usize, out: &mut [u8], at: usize) -> usize
    requires { Room (decimal number) at out.old }
    ensures { Stored (decimal number) at result out.old out.new }
{
    put_text(Buffer::new().format(number).as_bytes(), out, at)
}

// A text and a number.
pub fn put_number(label: &[u8], number: usize, out: &mut [u8], at: usize) -> usize
    requires { Room (label.now ++ decimal number) at out.old }
    ensures { Stored (label.now ++ decimal number) at result out.old out.new }
{
    let digits = put_text(label, out, at);
    put_decimal(number, out, digits)
}

// Two texts, each with a number.
pub fn put_numbers(
    label: &[u8],
    number: usize,
    second: &[u8],
    other: usize,
    out: &mut [u8],
    at: usize,
) -> usize
    requires { Room (label.now ++ decimal number ++ (second.now ++ decimal other)) at out.old }
    ensures { Stored (label.now ++ decimal number ++ (second.now ++ decimal other)) at result
        out.old out.new }
{
    let next = put_number(label, number, out, at);
    put_number(second, other, out, next)
}
