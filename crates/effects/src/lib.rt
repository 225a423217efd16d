#![tactic(auto)]
// What an instruction answers, and what is done to registers, RAM and ports.
ghost use Rattle.std.specs.Prelude.{◌≡◌, ◌<◌, length};
ghost use Rattle.effects.specs.Effect.{answer_of, done_as, written};
ghost use Rattle.effects.specs.Moves.{quiet, stored, started};

use isa::DigitMove;
use machine::State;

pub mod memory; // registers and RAM
pub mod moves; // XCH, XCHD, INC and DEC of a cell
pub mod ports; // ports, BUS, the expander

// What is seen from outside, besides the latches. (Values by place, as C gets them: address or port, then data or digit.)
#[derive(Clone, Copy)]
pub enum Event {
    Quiet,
    // MOVX A,@Rr: the address
    ExternalRead(u8),
    // MOVX @Rr,A: the address and the data
    ExternalWrite(u8, u8),
    // MOVD, ORLD, ANLD: the operation, the port and A's low digit as it was before
    ExpanderMove(DigitMove, u8, u8),
}

// What an instruction does besides writing to RAM, which it does in place. Its event is asked for apart, by a single step alone.
#[derive(Clone, Copy)]
pub struct Effect {
    // the instruction has started the counter, so that its own cycle isn't counted (a flag of its own: the state is there either way)
    pub fresh: bool,
    pub state: State,
}

// Here and in all that follows an answer and the RAM it leaves are two clauses over one definition: one says what comes back, the other
// what is written in place.
pub fn quiet_effect(s: State) -> Effect
    ensures { done_as result ≡ answer_of (quiet s) }
{
    Effect {
        fresh: false,
        state: s,
    }
}

#[tactic(auto, unfolding(crate::specs::Effect::written))]
pub fn stored_effect(s: State, ram: &mut [u8], at: usize, v: u8) -> Effect
    requires { at < length ram.old }
    ensures answer { done_as result ≡ answer_of (stored s at v) }
    ensures memory { ram.new ≡ written ram.old (stored s at v).write }
{
    memory::store(ram, at, v);
    quiet_effect(s)
}

// (Beside `quiet_effect`, and no flag as a parameter: docs/STATEMENTS.md names both.)
pub fn started_effect(s: State) -> Effect
    ensures { done_as result ≡ answer_of (started s) }
{
    Effect {
        fresh: true,
        state: s,
    }
}
