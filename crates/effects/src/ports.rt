// Ports, BUS and the expander.
ghost use Rattle.std.specs.Prelude.{◌≡◌};
ghost use Rattle.effects.specs.Ports.{input, latch_of, output, joined, digit_moved};

use isa::{DigitMove, Join, Latch};
use machine::{Ports, State, pins};

// IN and INS: for a port, what is high on both its latch and its pins.
#[tactic(auto, unfolding(isa::specs::Choice::pick))]
pub fn read_pins(l: Latch, s: State, second: u32) -> State
    ensures { result ≡ input l s second }
{
    match l {
        Latch::Bus => s.with_a(pins::bus(second)),
        Latch::Port(1) => s.with_a(s.ports.p1 & pins::p1(second)),
        Latch::Port(_) => s.with_a(s.ports.p2 & pins::p2(second)),
    }
}

#[tactic(auto, unfolding(isa::specs::Choice::pick))]
pub fn latch_value(l: Latch, s: State) -> u8
    ensures { result ≡ latch_of l s }
{
    match l {
        Latch::Bus => s.ports.bus,
        Latch::Port(1) => s.ports.p1,
        Latch::Port(_) => s.ports.p2,
    }
}

#[tactic(auto, unfolding(isa::specs::Choice::pick))]
pub fn write_latch(l: Latch, s: State, v: u8) -> State
    ensures { result ≡ output l s v }
{
    match l {
        Latch::Bus => s.with_ports(Ports {
            bus: v,
            driven: true,
            ..s.ports
        }),
        Latch::Port(1) => s.with_ports(Ports { p1: v, ..s.ports }),
        Latch::Port(_) => s.with_ports(Ports { p2: v, ..s.ports }),
    }
}

pub fn join_latch(op: Join, x: u8, d: u8) -> u8
    ensures { result ≡ joined op x d }
{
    match op {
        Join::AnlLatch => x & d,
        Join::OrlLatch => x | d,
    }
}

// What the expander's moves do to the chip itself.
pub fn move_digit(op: DigitMove, s: State, second: u32) -> State
    ensures { result ≡ digit_moved op s second }
{
    match op {
        DigitMove::MovdRead => s.with_a(pins::p2(second) % 16),
        DigitMove::MovdWrite | DigitMove::Orld | DigitMove::Anld => s,
    }
}
