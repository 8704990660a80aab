// Trees written as postfix records, each behind those that were written before: marks, leaves, products, OR chains, the raw form's balanced fold, and
// what the cleanup writes for a whole OR family and for an absorption. After `build_monomial`, `build_or_chain`, `xor_tree`, `emit_raw_anf` and parts
// of `cleanup_anf_memo` of `anf_cleanup.rs`. `cursor` has the same at any place of a lent buffer. It rests on the places of a mask's ones
// (`mask_words`) and on the library's `arrayvec`.
#![tactic(auto)]

pub mod cursor;

ghost use Rattle.std.specs.Prelude.{[], ◌∷◌, map, ◌+◌, ◌-◌, ◌*◌, ◌≤◌, ◌<◌, ◌≡◌, ◌++◌, length};
ghost use Rattle.rules.specs.Cleanup.{atop};
ghost use Rattle.rules.specs.Form.{flags, cube, or_chain, folded};
ghost use Rattle.rules.specs.Tree.{CO, AN, NO, size, write};
ghost use Rattle.postfix.specs.Written.{Fits, followed, with_tree, chained};

use arrayvec::ArrayVec;
pub use cursor::{
    Cursor, put_absorption, put_constant, put_family, put_fold, put_leaf, put_mark, put_or_chain,
    put_product, put_term,
};
use mask_words::Ones;
use std::marker::Model;

// What has been written: at most `CAP` bytes, and how many records they are.
#[derive(Drop)]
pub struct Postfix<const CAP: usize> {
    bytes: ArrayVec<u8, CAP>,
    records: usize,
}

impl<const CAP: usize> Model for Postfix<CAP> {
    ghost use Rattle.std.specs.Prelude.{◌≤◌, length};
    ghost use Rattle.postfix.specs.Written.{Written};

    ghost Value = { Written };

    ghost view = { λ p. record { bytes = p.bytes.items; records = p.records } };

    ghost invariant = { λ p. p.records ≤ length p.bytes.items };
}

#[tactic(auto, unfolding(rules::specs::Tree::write, rules::specs::Tree::size, rules::specs::Ascii::ascii, rules::specs::Cleanup::atop))]
impl<const CAP: usize> Postfix<CAP> {
    // Nothing yet.
    pub fn new() -> Postfix<CAP>
        ensures { result ≡ record { bytes = []; records = 0 } }
    {
        Postfix {
            bytes: ArrayVec::new(),
            records: 0,
        }
    }

    #[inline]
    pub fn bytes(&self) -> &[u8]
        ensures { result.now ≡ self.now.bytes }
    {
        self.bytes.as_slice()
    }

    #[inline]
    pub fn records(&self) -> usize
        ensures { result ≡ self.now.records }
    {
        self.records
    }

    // A record of two bytes: an operator's mark.
    #[inline]
    pub fn put_mark(&mut self, mark: &[u8; 2])
        requires { Fits CAP mark.now self.old }
        ensures { self.new ≡ followed self.old mark.now 1 }
    {
        self.bytes.push(mark[0]);
        self.bytes.push(mark[1]);
        self.records += 1;
    }

    // A record of three bytes: a leaf's mark and its payload.
    #[inline]
    pub fn put_leaf(&mut self, mark: &[u8; 2], payload: u8)
        requires { Fits CAP (mark.now ++ payload ∷ []) self.old }
        ensures { self.new ≡ followed self.old (mark.now ++ payload ∷ []) 1 }
    {
        self.put_mark(mark);
        self.bytes.push(payload);
    }

    // A constant.
    #[inline]
    pub fn put_constant(&mut self, constant: bool)
        requires { Fits CAP (write (CO constant)) self.old }
        ensures { self.new ≡ with_tree self.old (CO constant) }
    {
        self.put_leaf(b"CO", u8::from(constant));
    }

    // One term of the raw form: the product of a mask, or the constant 1.
    #[tactic(auto, using(crate::proofs::Chains::chains))]
    pub fn put_term(&mut self, mask: usize)
        requires { Fits CAP (write (cube mask)) self.old }
        ensures { self.new ≡ with_tree self.old (cube mask) }
    {
        match mask {
            0 => self.put_constant(true),
            _ => self.put_product(mask),
        }
    }

    // The product of the flags of a mask. Here and below a mask stays a number: it may have any of 64 flags, and a `Monomial`, of six, would take
    // fewer.
    #[tactic(auto, using(crate::proofs::Chains::chains))]
    pub fn put_product(&mut self, mask: usize)
        requires some { 0 < mask }
        requires fits { Fits CAP (write (cube mask)) self.old }
        ensures { self.new ≡ with_tree self.old (cube mask) }
    {
        self.put_chain(mask, b"AN");
    }

    // The OR chain of the flags of a mask. The two names stay: a contract of `put_chain` for both would take the tree as a function of the mark.
    #[tactic(auto, using(crate::proofs::Chains::chains))]
    pub fn put_or_chain(&mut self, mask: usize)
        requires some { 0 < mask }
        requires fits { Fits CAP (write (or_chain mask)) self.old }
        ensures { self.new ≡ with_tree self.old (or_chain mask) }
    {
        self.put_chain(mask, b"OR");
    }

    // The flags of a mask upwards, nested to the left: the first flag, then each further flag with the operator after it.
    #[tactic(auto, using(crate::proofs::Chains::links))]
    fn put_chain(&mut self, mask: usize, mark: &[u8; 2])
        requires { Fits CAP (chained mark.now (flags mask)) self.old }
        ensures { self.new ≡ followed self.old (chained mark.now (flags mask)) (2 * length (flags mask) - 1) }
    {
        let mut flags = Ones::of(mask as u64);
        let Some(first) = flags.next() else {
            return;
        };
        self.put_leaf(b"VA", first as u8);
        for flag in flags {
            self.put_leaf(b"VA", flag as u8);
            self.put_mark(mark);
        }
    }

    // The balanced fold of the terms: that of half of them, that of the rest, and an XO. By the count of bytes, which is told apart, the rest fits.
    #[tactic(auto, using(crate::proofs::Fold::folds))]
    pub fn put_fold(&mut self, terms: &[u32])
        requires { Fits CAP (write (folded (map cube terms.now))) self.old }
        ensures written { self.new ≡ with_tree self.old (folded (map cube terms.now)) }
        ensures len { length self.new.bytes ≡ length self.old.bytes + length (write (folded (map cube terms.now))) }
    {
        match terms {
            [] => self.put_constant(false),
            [term] => self.put_term(*term as usize),
            _ => {
                let (half, rest) = halves(terms);
                self.put_fold(half);
                self.put_fold(rest);
                self.put_mark(b"XO");
            }
        }
    }

    // A whole OR family: the chain of its flags, and with constant 1 the XO of CO 1 and the chain.
    pub fn put_family(&mut self, constant: bool, mask: usize)
        requires some { 0 < mask }
        requires fits { Fits CAP (write (atop constant (or_chain mask))) self.old }
        ensures { self.new ≡ with_tree self.old (atop constant (or_chain mask)) }
    {
        if constant {
            self.put_constant(constant);
        }
        self.put_or_chain(mask);
        if constant {
            self.put_mark(b"XO");
        }
    }

    // An absorption: a product and NO of the product of what the second mask has beyond the first, and with constant 1 the XO of CO 1 and that.
    // It stays beside `put_family`: what both share would take the writing of the tree as a closure, with a contract longer than these lines.
    pub fn put_absorption(&mut self, constant: bool, first: usize, second: usize)
        requires ascending { first ≤ second }
        requires fits { Fits CAP (write (atop constant (AN (cube first) (NO (cube (second - first)))))) self.old }
        ensures { self.new ≡ with_tree self.old (atop constant (AN (cube first) (NO (cube (second - first))))) }
    {
        if constant {
            self.put_constant(true);
        }
        self.put_without(first, second - first);
        if constant {
            self.put_mark(b"XO");
        }
    }

    // The product of a mask where the product of another is 0.
    fn put_without(&mut self, mask: usize, other: usize)
        requires { Fits CAP (write (AN (cube mask) (NO (cube other)))) self.old }
        ensures { self.new ≡ with_tree self.old (AN (cube mask) (NO (cube other))) }
    {
        self.put_term(mask);
        self.put_term(other);
        self.put_mark(b"NO");
        self.put_mark(b"AN");
    }
}

// Two terms or more as the two parts that the balanced fold joins by an XO, with what is written of them.
#[tactic(auto, using(crate::proofs::Fold::folds))]
fn halves(terms: &[u32]) -> (&[u32], &[u32])
    requires { 2 ≤ length terms.now }
    ensures first { length result.0.now < length terms.now }
    ensures second { length result.1.now < length terms.now }
    ensures bytes { write (folded (map cube terms.now))
        ≡ write (folded (map cube result.0.now)) ++ write (folded (map cube result.1.now)) ++ 88 ∷ 79 ∷ [] }
    ensures room { length (write (folded (map cube terms.now)))
        ≡ length (write (folded (map cube result.0.now))) + length (write (folded (map cube result.1.now))) + 2 }
    ensures records { size (folded (map cube terms.now)) ≡ 1 + size (folded (map cube result.0.now)) + size (folded (map cube result.1.now)) }
{
    terms.split_at(terms.len() / 2)
}
