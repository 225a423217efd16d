#![tactic(auto)]
// What is done to A, and to C and AC.
ghost use Rattle.std.specs.Prelude.{◌≡◌};
ghost use Rattle.isa.specs.Choice.{one_if};
ghost use Rattle.accumulator.specs.Accumulator.{added, operated, with_ac, decimal_adjusted, changed};

use isa::{Operation, Unary};
use machine::{State, psw};

fn add(s: State, x: u8, c: bool) -> State
    ensures { result ≡ added s x (one_if c) }
{
    let (a, carry) = s.a.carrying_add(x, c);
    let half = s.a % 16 + x % 16 + c as u8;
    State {
        a,
        psw: psw::with_carries(s.psw, carry, 15 < half),
        ..s
    }
}

pub fn operate(op: Operation, x: u8, s: State) -> State
    ensures { result ≡ operated op x s }
{
    match op {
        Operation::Add => add(s, x, false),
        Operation::Addc => add(s, x, psw::c(s.psw)),
        Operation::Anl => s.with_a(s.a & x),
        Operation::Orl => s.with_a(s.a | x),
        Operation::Xrl => s.with_a(s.a ^ x),
    }
}

fn with_a_and_c(s: State, a: u8, c: bool) -> State
    ensures { result ≡ with_ac s a (one_if c) }
{
    State {
        a,
        psw: psw::with_c(s.psw, c),
        ..s
    }
}

// DA A: the Intel manual's two corrections, each below its sentence. Document 01 decides where a paper's wording differs: C is set and
// never cleared, and AC stays, though note 2 of source documents 000, 003 and 004 clears both where nothing overflows.
#[tactic(auto, unfolding(isa::specs::Choice::pick))]
fn decimal_adjust(s: State) -> State
    ensures { result ≡ decimal_adjusted s }
{
    // (In 16 bits, since the high digit may become 16; % 256 then takes the byte, as in the definition.)
    let mut a = s.a as u16;
    let c = psw::c(s.psw);
    let ac = psw::ac(s.psw);
    // "If the contents of bits 0-3 are greater than nine, or if AC is one, the accumulator is incremented by six."
    let low = a % 16;
    if 9 < low || ac {
        a += 6;
    }
    // "The four high-order bits are then checked. If bits 4-7 exceed nine, or if C is one, these bits are increased by six."
    // A carry of the first correction counts: FA has become 100 hex, and its high digit is 16 and not 0.
    let high = a / 16;
    if 9 < high || c {
        a += 6 * 16;
        return with_a_and_c(s, (a % 256) as u8, true);
    }
    s.with_a((a % 256) as u8)
}

// All five rotates are written by division, as their laws are: the library turns A alone (rotate_left, rotate_right), and RLC and RRC,
// which turn through C, have no method. Two forms side by side would be no plainer.
pub fn change(op: Unary, s: State) -> State
    ensures { result ≡ changed op s }
{
    match op {
        Unary::CplA => s.with_a(!s.a),
        Unary::ClrA => s.with_a(0),
        Unary::DaA => decimal_adjust(s),
        Unary::DecA => s.with_a(s.a.wrapping_sub(1)),
        Unary::IncA => s.with_a(s.a.wrapping_add(1)),
        Unary::RlA => s.with_a(s.a % 128 * 2 + s.a / 128),
        Unary::RlcA => with_a_and_c(s, s.a % 128 * 2 + psw::c(s.psw) as u8, s.a / 128 == 1),
        Unary::RrA => s.with_a(s.a / 2 + s.a % 2 * 128),
        Unary::RrcA => with_a_and_c(s, s.a / 2 + psw::c(s.psw) as u8 * 128, s.a % 2 == 1),
        Unary::SwapA => s.with_a(s.a % 16 * 16 + s.a / 16),
    }
}
