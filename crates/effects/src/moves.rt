// Moves between A and RAM that do more than one thing; `at` is a cell that is there.
ghost use Rattle.std.specs.Prelude.{◌≡◌, ◌<◌, length};
ghost use Rattle.effects.specs.Effect.{answer_of, done_as, written};
ghost use Rattle.effects.specs.Moves.{exchanged, digits_exchanged, raised};

use crate::{Effect, memory, stored_effect};
use machine::State;

// XCH and XCHD stand apart: in one function, over how much of the byte changes places, XCH would divide a byte by 256.
pub fn exchange(s: State, ram: &mut [u8], at: usize) -> Effect
    requires { at < length ram.old }
    ensures answer { done_as result ≡ answer_of (exchanged s ram.old at) }
    ensures memory { ram.new ≡ written ram.old (exchanged s ram.old at).write }
{
    let v = memory::cell(&ram[..], at);
    stored_effect(s.with_a(v), ram, at, s.a)
}

pub fn exchange_digits(s: State, ram: &mut [u8], at: usize) -> Effect
    requires { at < length ram.old }
    ensures answer { done_as result ≡ answer_of (digits_exchanged s ram.old at) }
    ensures memory { ram.new ≡ written ram.old (digits_exchanged s ram.old at).write }
{
    let v = memory::cell(&ram[..], at);
    stored_effect(
        s.with_a(s.a / 16 * 16 + v % 16),
        ram,
        at,
        v / 16 * 16 + s.a % 16,
    )
}

// INC and DEC of a cell, n being 1 or 255, for `raised` adds a number.
pub fn raise(s: State, ram: &mut [u8], at: usize, n: u8) -> Effect
    requires { at < length ram.old }
    ensures answer { done_as result ≡ answer_of (raised s ram.old at n) }
    ensures memory { ram.new ≡ written ram.old (raised s ram.old at n).write }
{
    let v = memory::cell(&ram[..], at);
    stored_effect(s, ram, at, v.wrapping_add(n))
}
