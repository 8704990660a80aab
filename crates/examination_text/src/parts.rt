// Bytes taken apart at a separator. std's `split` makes one empty part of the empty line, which has no record, so that each of the two loops over
// records would ask for the empty line first; here one iterator serves lines and records. It rests on std's `position`.
ghost use Rattle.std.specs.Prelude.{◌≡◌, ◌==◌};
ghost use Rattle.std.specs.List.{position};
ghost use Rattle.std.specs.Iterator.{YieldsFirstRef, item_count};
ghost use Rattle.examination_text.specs.Notation.{split, record_texts};
ghost use Rattle.examination_text.specs.inner.Parts.{parts_left};

// The first place of a byte, if it stands there.
fn first(byte: u8, bytes: &[u8]) -> Option<usize>
    ensures { result ≡ position (λ other. other == byte) bytes.now }
{
    bytes.iter().position(|other| *other == byte)
}

// The parts that are still to come.
#[derive(Clone, Copy, Drop)]
pub struct Parts<'a> {
    separator: u8,
    rest: Option<&'a [u8]>,
}

impl<'a> Parts<'a> {
    // The parts before, between and after the separators.
    pub fn of(separator: u8, bytes: &'a [u8]) -> Parts<'a>
        ensures { parts_left result ≡ split separator bytes.now }
    {
        Parts {
            separator,
            rest: Some(bytes),
        }
    }

    // The texts of a line's records, with one space between two; the empty line has none.
    pub fn records(line: &'a [u8]) -> Parts<'a>
        ensures { parts_left result ≡ record_texts line.now }
    {
        if line.is_empty() {
            return Parts {
                separator: b' ',
                rest: None,
            };
        }
        Parts::of(b' ', line)
    }
}

impl<'a> Iterator for Parts<'a> {
    type Item = &'a [u8];

    ghost next_gives = { YieldsFirstRef parts_left };

    ghost remaining = { item_count parts_left };

    fn next(&mut self) -> Option<&'a [u8]> {
        let rest = self.rest?;
        let Some(end) = first(self.separator, rest) else {
            self.rest = None;
            return Some(rest);
        };
        self.rest = Some(&rest[end + 1..]);
        Some(&rest[..end])
    }
}
