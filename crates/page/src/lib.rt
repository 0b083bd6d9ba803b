// A page of text in room for N bytes: what is put stands after what stands there. Of our own, since a list of bytes of the kit's
// would serve `put` alone, and digits are most of it.
#![tactic(auto)]

ghost use Rattle.std.specs.Prelude.{◌≡◌, ◌+◌, ◌≤◌, ◌<◌, [], ◌∷◌, ◌++◌, length};
ghost use Rattle.page.specs.Page as spec;

use std::marker::Model;

#[derive(Drop)]
pub struct Page<const N: usize> {
    bytes: [u8; N],
    end: usize,
}

// Clauses see the bytes that stand on the page.
impl<const N: usize> Model for Page<N> {
    ghost use Rattle.std.specs.Prelude.{ℕ, List, take, ◌≤◌};

    ghost Value = { List ℕ };

    ghost view = { λ p. take p.end p.bytes };

    ghost invariant = { λ p. p.end ≤ N };
}

#[tactic(auto, unfolding(crate::specs::Page::glyph))]
fn glyph(d: u8) -> u8
    requires { d < 16 }
    ensures { result ≡ spec.glyph d }
{
    if d < 10 { b'0' + d } else { b'A' + (d - 10) }
}

impl<const N: usize> Page<N> {
    // An empty page.
    pub fn new() -> Self
        ensures { result ≡ [] }
    {
        Page {
            bytes: [0; N],
            end: 0,
        }
    }

    // The text on the page.
    pub fn text(&self) -> &[u8]
        ensures { result.now ≡ self.now }
    {
        &self.bytes[..self.end]
    }

    // The bytes of a text.
    pub fn put(&mut self, text: &[u8])
        requires { length self.old + length text.now ≤ N }
        ensures text { self.new ≡ self.old ++ text.now }
        ensures len { length self.new ≡ length self.old + length text.now }
    {
        for byte in text {
            self.push(*byte);
        }
    }

    fn push(&mut self, byte: u8)
        requires { length self.old < N }
        ensures text { self.new ≡ self.old ++ byte ∷ [] }
        ensures len { length self.new ≡ length self.old + 1 }
    {
        self.bytes[self.end] = byte;
        self.end += 1;
    }

    // The last k digits of n in a base up to 16, the highest first: put from the last one on, since a call for each digit would
    // take stack for each. Not by write!: it promises its text with an Ok alone, and nothing promises the Ok.
    pub fn put_digits(&mut self, base: u64, k: usize, n: u64)
        requires base_nonzero { (0 < base) × (base ≤ 16) }
        requires room { length self.old + k ≤ N }
        ensures text { self.new ≡ self.old ++ spec.digits base k n }
        ensures len { length self.new ≡ length self.old + k }
    {
        let mut rest = n;
        for i in (0..k).rev() {
            self.bytes[self.end + i] = glyph((rest % base) as u8);
            rest /= base;
        }
        self.end += k;
    }

    // A number in decimal, without leading zeros.
    #[tactic(auto, using(crate::proofs::Digits::decimal_by_power), unfolding(crate::specs::Page::decimal))]
    pub fn put_decimal(&mut self, n: u64)
        requires { length self.old + 20 ≤ N }
        ensures text { self.new ≡ self.old ++ spec.decimal n }
        ensures len { length self.new ≤ length self.old + 20 }
    {
        let places = n.max(1).ilog10() as usize + 1;
        self.put_digits(10, places, n);
    }

    // A number as 16 hexadecimal digits.
    #[tactic(auto, unfolding(crate::specs::Page::word))]
    pub fn put_word(&mut self, n: u64)
        requires { length self.old + 16 ≤ N }
        ensures text { self.new ≡ self.old ++ spec.word n }
        ensures len { length self.new ≡ length self.old + 16 }
    {
        self.put_digits(16, 16, n);
    }
}
