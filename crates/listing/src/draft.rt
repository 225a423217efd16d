// A line while it is made.
ghost use Rattle.std.specs.Prelude.{◌≡◌, [], ◌∷◌, ◌++◌, ◌≤◌, ◌<◌, length, drop};
ghost use Rattle.listing.specs.Draft.{cut, Adds};
ghost use Rattle.listing.specs.Item.{ending_of, letter_of, line_of};
ghost use Rattle.listing.specs.Text.{digit_of, hex2, hex3, lead, byte_number, address_number};

use crate::item::Item;
use crate::{LINE_BYTES, text};
use std::marker::Model;

// The capital hex digit of a number below 16. (Why no `write!` with {:02X}: std promises its bytes where it answers Ok, and never that it
// does, so that a line would owe an answer to an error that never comes.)
#[tactic(auto, unfolding(isa::specs::Choice::pick))]
fn digit(v: u8) -> u8
    requires { v < 16 }
    ensures { result ≡ digit_of v }
{
    if v < 10 { b'0' + v } else { b'A' + (v - 10) }
}

fn hex2(v: u8) -> [u8; 2]
    ensures { result ≡ hex2 v }
{
    [digit(v / 16), digit(v % 16)]
}

fn hex3(v: u16) -> [u8; 3]
    requires { v < 4096 }
    ensures { result ≡ hex3 v }
{
    let [high, low] = v.to_be_bytes();
    let [second, third] = hex2(low);
    [digit(high), second, third]
}

// A 0 before a leading letter.
#[tactic(auto, unfolding(isa::specs::Choice::pick))]
fn lead(v: u8) -> &'static [u8]
    ensures { result.now ≡ lead v }
{
    if v < 10 { b"" } else { b"0" }
}

// The bytes so far. A full line stays as it is. (Why no `arrayvec::ArrayVec`: that takes all of a slice or nothing, so that each `put`
// would owe that there is room, or answer an error that never comes.)
#[derive(Clone, Copy)]
pub struct Draft {
    bytes: [u8; LINE_BYTES],
    length: usize,
}

impl Model for Draft {
    ghost use Rattle.std.specs.Prelude.{◌≡◌, ◌≤◌, ◌-◌, List, ℕ, take, drop, replicate};
    ghost use Rattle.std.proofs.Common.{arith, sym, take-append-drop, length-take-le};
    ghost use Rattle.listing.specs.Draft.{filled_up, length_of};

    ghost Value = { List ℕ };

    ghost view = { λ d. take d.length d.bytes };

    // Past the length all is 0, so that the bytes so far give the fields back.
    ghost invariant = { λ d. (d.length ≤ 32) × (length_of d.bytes ≡ 32) × (drop d.length d.bytes ≡ replicate (32 - d.length) 0) };

    ghost inverse = { λ xs. record { bytes = filled_up xs; length = length_of xs } };

    ghost inverse_ok = { λ d h i.
        let size : length_of (take d.length d.bytes) ≡ d.length = length-take-le d.length d.bytes (omega (arith, h.0, h.1)) in
        let whole : filled_up (take d.length d.bytes) ≡ d.bytes = rw (size, sym h.2) (take-append-drop d.length d.bytes) in
        record { bytes = whole i; length = size i } };
}

impl Draft {
    fn new() -> Self
        ensures { result ≡ [] }
    {
        Draft {
            bytes: [0; LINE_BYTES],
            length: 0,
        }
    }

    // The line of an item: "address in 3 hex digits, 2 spaces, bytes padded to 5, 2 spaces, text", and LF.
    #[tactic(auto, using(crate::proofs::Drafts::cut_cut))]
    pub fn of(item: &Item) -> Self
        ensures { result ≡ cut (line_of item.now) }
    {
        let mut line = Draft::new();
        line.put(&hex3(item.address));
        line.put(b"  ");
        line.put(&hex2(item.code));
        match item.second {
            Some(second) => {
                line.put(b" ");
                line.put(&hex2(second));
            }
            None => line.put(b"   "),
        }
        line.put_ending(item);
        line
    }

    // Puts bytes behind the line, as many as there is room for.
    fn put(&mut self, bytes: &[u8])
        ensures { Adds self.old bytes.now self.new }
    {
        let room = LINE_BYTES - self.length;
        let n = room.min(bytes.len());
        self.bytes[self.length..self.length + n].copy_from_slice(&bytes[..n]);
        self.length += n;
    }

    #[tactic(auto, using(crate::proofs::Drafts::cut_cut))]
    // (A byte and an address are two, since each has its own digits, and the definitions a text of each.)
    fn put_byte(&mut self, v: u8)
        ensures { Adds self.old (byte_number v) self.new }
    {
        self.put(lead(v / 16));
        self.put(&hex2(v));
        self.put(b"H");
    }

    #[tactic(auto, using(crate::proofs::Drafts::cut_cut))]
    fn put_address(&mut self, v: u16)
        requires { v < 4096 }
        ensures { Adds self.old (address_number v) self.new }
    {
        let [high, _] = v.to_be_bytes();
        self.put(lead(high));
        self.put(&hex3(v));
        self.put(b"H");
    }

    // One letter of a row's text: a small letter is a number.
    #[tactic(auto, unfolding(crate::specs::Text::expand, isa::specs::Choice::pick))]
    fn put_letter(&mut self, item: &Item, letter: u8)
        ensures { Adds self.old (letter_of item.now letter) self.new }
    {
        let data = item.second.unwrap_or(item.code);
        match letter {
            b'r' | b'p' => self.put(&[digit(item.code % 8)]),
            b'b' => self.put(&[digit(item.code / 32)]),
            b'd' => self.put_byte(data),
            b'a' => self.put_address(u16::from_be_bytes([item.code / 32, data])),
            b't' => self.put_address(isa::pages::branch_target(item.address, data)),
            _ => self.put(&[letter]),
        }
    }

    // The text behind its 2 spaces, and LF.
    #[tactic(auto, using(crate::proofs::Texts::endings))]
    fn put_ending(&mut self, item: &Item)
        ensures { Adds self.old (ending_of item.now) self.new }
    {
        self.put(b"  ");
        for letter in text::text_of(item.kind).as_bytes() {
            self.put_letter(item, *letter);
        }
        self.put(b"\n");
    }

    // Copies the line to the front of a buffer, and gives its length.
    pub fn copy_to(&self, buffer: &mut [u8]) -> usize
        requires { 32 ≤ length buffer.old }
        ensures length { result ≡ length self.now }
        ensures copied { buffer.new ≡ self.now ++ drop (length self.now) buffer.old }
    {
        let n = self.length;
        buffer[..n].copy_from_slice(&self.bytes[..n]);
        n
    }
}
