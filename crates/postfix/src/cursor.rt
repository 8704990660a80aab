// Trees written as postfix records at a cursor of a lent buffer: each function writes behind any place of the buffer and leaves the rest as it was.
// `Postfix` keeps what it writes by itself, begins empty, and is what the crates above use; these are for who has a buffer of their own.
ghost use Rattle.std.specs.Prelude.{[], ◌∷◌, map, ◌+◌, ◌-◌, ◌*◌, ◌≤◌, ◌<◌, eqb, length, take, drop};
ghost use Rattle.rules.specs.Cleanup.{atop};
ghost use Rattle.rules.specs.Form.{flags, cube, or_chain, folded};
ghost use Rattle.rules.specs.Tree.{CO, AN, NO, write};
ghost use Rattle.postfix.specs.Put.{Room, Put, Writes};
ghost use Rattle.postfix.specs.Written.{chained};

// Where the next record goes, and how many records stand before it.
#[derive(Clone, Copy)]
pub struct Cursor {
    pub place: usize,
    pub records: usize,
}

// A record of two bytes: an operator's mark.
pub fn put_mark(first: u8, second: u8, out: &mut [u8], at: Cursor) -> Cursor
    requires { Room (first ∷ second ∷ []) at out.old }
    ensures { Put (first ∷ second ∷ []) 1 at result out.old out.new }
{
    let place = at.place;
    let records = at.records;
    out[place] = first;
    out[place + 1] = second;
    Cursor {
        place: place + 2,
        records: records + 1,
    }
}

// A record of three bytes: a leaf's mark and its payload.
pub fn put_leaf(first: u8, second: u8, payload: u8, out: &mut [u8], at: Cursor) -> Cursor
    requires { Room (first ∷ second ∷ payload ∷ []) at out.old }
    ensures { Put (first ∷ second ∷ payload ∷ []) 1 at result out.old out.new }
{
    let start = at.place;
    let before = at.records;
    out[start] = first;
    out[start + 1] = second;
    out[start + 2] = payload;
    Cursor {
        place: start + 3,
        records: before + 1,
    }
}

// A constant.
pub fn put_constant(bit: u8, out: &mut [u8], at: Cursor) -> Cursor
    requires { (bit < 2) × Room (write (CO (eqb bit 1))) at out.old }
    ensures { Writes (CO (eqb bit 1)) at result out.old out.new }
{
    put_leaf(b'C', b'O', bit, out, at)
}

// The product of the flags of a mask.
pub fn put_product(mask: usize, out: &mut [u8], at: Cursor) -> Cursor
    requires { (0 < mask) × Room (write (cube mask)) at out.old }
    ensures { Writes (cube mask) at result out.old out.new }
{
    put_chain(mask, b'A', b'N', out, at)
}

// The OR chain of the flags of a mask.
pub fn put_or_chain(mask: usize, out: &mut [u8], at: Cursor) -> Cursor
    requires { (0 < mask) × Room (write (or_chain mask)) at out.old }
    ensures { Writes (or_chain mask) at result out.old out.new }
{
    put_chain(mask, b'O', b'R', out, at)
}

// The flags of a mask upwards, nested to the left: the first flag, then each further flag with the operator after it.
fn put_chain(mask: usize, first: u8, second: u8, out: &mut [u8], at: Cursor) -> Cursor
    requires { (0 < mask) × Room (chained (first ∷ second ∷ []) (flags mask)) at out.old }
    ensures { Put (chained (first ∷ second ∷ []) (flags mask)) (2 * length (flags mask) - 1) at result out.old out.new }
{
    let mut left = mask & (mask - 1);
    let mut next = put_leaf(b'V', b'A', u64::trailing_zeros(mask as u64) as u8, out, at);
    while left != 0 {
        let flag = put_leaf(
            b'V',
            b'A',
            u64::trailing_zeros(left as u64) as u8,
            out,
            next,
        );
        next = put_mark(first, second, out, flag);
        left = left & (left - 1);
    }
    next
}

// One term of the raw form: the product of a mask, or the constant 1.
pub fn put_term(mask: usize, out: &mut [u8], at: Cursor) -> Cursor
    requires { Room (write (cube mask)) at out.old }
    ensures { Writes (cube mask) at result out.old out.new }
{
    if mask == 0 {
        return put_constant(1, out, at);
    }
    put_product(mask, out, at)
}

// The balanced fold of `count` terms from `from` on: half of them, the rest, and an XO.
pub fn put_fold(terms: &[u32], from: usize, count: usize, out: &mut [u8], at: Cursor) -> Cursor
    requires { (from + count ≤ length terms.now) × Room (write (folded (map cube (take count (drop from terms.now))))) at out.old }
    ensures { Writes (folded (map cube (take count (drop from terms.now)))) at result out.old out.new }
{
    if count == 0 {
        return put_constant(0, out, at);
    }
    if count == 1 {
        return put_term(terms[from] as usize, out, at);
    }
    let half = count / 2;
    let left = put_fold(terms, from, half, out, at);
    let right = put_fold(terms, from + half, count - half, out, left);
    put_mark(b'X', b'O', out, right)
}

// A whole OR family: the chain of its flags, and with constant 1 the XO of CO 1 and the chain.
pub fn put_family(constant: u8, mask: usize, out: &mut [u8], at: Cursor) -> Cursor
    requires { (constant < 2) × (0 < mask) × Room (write (atop (eqb constant 1) (or_chain mask))) at out.old }
    ensures { Writes (atop (eqb constant 1) (or_chain mask)) at result out.old out.new }
{
    if constant == 0 {
        return put_or_chain(mask, out, at);
    }
    let one = put_constant(1, out, at);
    let chain = put_or_chain(mask, out, one);
    put_mark(b'X', b'O', out, chain)
}

// An absorption: a product and NO of the product of what the second mask has beyond the first, and with constant 1 the XO of CO 1 and that.
pub fn put_absorption(
    constant: u8,
    first: usize,
    second: usize,
    out: &mut [u8],
    at: Cursor,
) -> Cursor
    requires { (constant < 2) × (first ≤ second)
        × Room (write (atop (eqb constant 1) (AN (cube first) (NO (cube (second - first)))))) at out.old }
    ensures { Writes (atop (eqb constant 1) (AN (cube first) (NO (cube (second - first))))) at result out.old out.new }
{
    if constant == 0 {
        return put_without(first, second - first, out, at);
    }
    let head = put_constant(1, out, at);
    let body = put_without(first, second - first, out, head);
    put_mark(b'X', b'O', out, body)
}

// The product of a mask where the product of another is 0.
fn put_without(mask: usize, other: usize, out: &mut [u8], at: Cursor) -> Cursor
    requires { Room (write (AN (cube mask) (NO (cube other)))) at out.old }
    ensures { Writes (AN (cube mask) (NO (cube other))) at result out.old out.new }
{
    let product = put_term(mask, out, at);
    let excluded = put_term(other, out, product);
    let turned = put_mark(b'N', b'O', out, excluded);
    put_mark(b'A', b'N', out, turned)
}
