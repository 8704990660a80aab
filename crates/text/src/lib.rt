// What the texts for people share: the page that a program writes, numbers in it, bytes and numbers at a place of a lent buffer, and the digits of a
// table that is read.
// It rests on `rules`, and on the library's vector of fixed capacity and its digits.
#![tactic(auto)]

pub mod out;
pub mod table;

ghost use Rattle.std.specs.Prelude.{◌++◌, ◌≤◌, length};
ghost use Rattle.rules.specs.Text.{decimal};
ghost use Rattle.text.specs.Page.{page_bytes, Shows, Written};

use arrayvec::ArrayVec;
use itoa::Buffer;

// A page is long enough for the three lines of any rule: line two has at most 1,347 bytes (`text_limit` of `rule_text`).
pub const PAGE_BYTES: usize = 1400;

// The output of a program: the first `count` bytes.
#[derive(Clone, Copy, Debug, PartialEq, Eq)]
pub struct Page {
    pub bytes: [u8; PAGE_BYTES],
    pub count: usize,
}

// The text of a page while it is put together.
pub type Text = ArrayVec<u8, PAGE_BYTES>;

// The page of one text.
pub fn page_of(text: &[u8]) -> Page
    requires { length text.now ≤ page_bytes }
    ensures { Shows text.now result }
{
    let mut bytes = [0u8; PAGE_BYTES];
    let count = text.len();
    bytes[..count].copy_from_slice(text);
    Page { bytes, count }
}

// A text behind what the page has, of any capacity. Nothing is asked here of the page, and nothing is said of it where it has no room for the text:
// that all texts fit is shown once, where the page is made.
pub fn push<const N: usize>(page: &mut ArrayVec<u8, N>, text: &[u8])
    ensures { Written N text.now page.old page.new }
{
    let _ = page.try_extend_from_slice(text);
}

// A text and a number in base ten.
pub fn push_number<const N: usize>(page: &mut ArrayVec<u8, N>, label: &[u8], number: usize)
    ensures { Written N (label.now ++ decimal number) page.old page.new }
{
    push(page, label);
    push(page, Buffer::new().format(number).as_bytes());
}
