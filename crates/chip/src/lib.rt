#![tactic(auto)]
// The chip: one step, but for what is asked before it and told after it. crates/runs has the step and the run as a caller has them.
ghost use Rattle.std.specs.Prelude.{◌≡◌, ◌≤◌};
ghost use Rattle.machine.specs.Rom.{lent_as};
ghost use Rattle.chip.specs.Admission.{lent_of};
ghost use Rattle.chip.specs.Step.{moved_by, moved_of, ram_after, settled, step_of, ticked};

use effects::Event;
use isa::{Instruction, Refusal};
use machine::cycle::count_cycle;
use machine::pins::{Pin, Pins, is_high};
use machine::rom::Lent;
use machine::{Count, Counting, State};

pub mod admission; // the lengths, the state and the samples
pub mod acting; // reset, a wait, interrupt calls, one instruction
mod fetching; // the instruction at PC

// What is fetched at PC: the instruction, the PC after it, and its machine cycles.
#[derive(Clone, Copy)]
pub struct Fetch {
    pub instruction: Instruction,
    pub next: u16,
    pub cycles: u8,
}

// What a step's turn is. Each goes before those below it. (An enum, since a step does it and `report_of` asks for it, too; and no function
// may hand out what to do as a function.)
#[derive(Clone, Copy)]
pub enum Turn {
    // a sample has one of bits 29 to 31
    Refuse,
    Reset,
    // it is halted or stopped
    Wait,
    ExternalCall,
    TimerCall,
    // one instruction
    CarryOut,
}

// What a course takes: a halted or stopped machine waits for a sample, and no machine cycle; any other takes cycles, and a flag says
// whether it has started the counter, so that its own cycle isn't counted (the cycles are there either way).
#[derive(Clone, Copy)]
pub enum Spent {
    Waited,
    Cycles { cycles: u8, fresh: bool },
}

// What a step does before its cycles are counted, besides writing to RAM, which it does in place. (What it takes stands first for speed:
// docs/PERFORMANCE.md.)
#[derive(Clone, Copy)]
pub struct Course {
    pub spent: Spent,
    pub state: State,
}

// What an accepted step does to the machine: the state, the machine cycles spent and the samples used.
#[derive(Clone, Copy)]
pub struct Moved {
    pub state: State,
    pub cycles: u8,
    pub used: u8,
}

// What a step shows outside: its event, and how many of its bytes came from the second program.
#[derive(Clone, Copy)]
pub struct Report {
    pub event: Event,
    pub outside: u8,
}

// What an accepted step answers: all of both.
#[derive(Clone, Copy)]
pub struct Outcome {
    pub moved: Moved,
    pub shown: Report,
}

// What a run answers: the refusal that ended it, none if samples ran out, the state, the samples used and the machine cycles spent.
#[derive(Clone, Copy)]
pub struct Ran {
    pub ended: Option<Refusal>,
    pub state: State,
    pub used: usize,
    pub cycles: u64,
}

// A run, and what its first step showed, if that was asked for.
#[derive(Clone, Copy)]
pub struct Played {
    pub ran: Ran,
    pub shown: Report,
}

// The counter after the cycles of a step, one or two.
#[tactic(auto, unfolding(crate::specs::Step::ticked, isa::specs::Choice::pick))]
fn tick(counting: Counting, c: Count, cycles: u8, fresh: bool, enabled: bool, pins: Pins) -> Count
    requires { 1 ≤ cycles }
    ensures { result ≡ ticked counting c cycles fresh enabled pins.first pins.second }
{
    let t1 = is_high(Pin::T1, pins.first);
    if fresh {
        return Count { last: t1, ..c };
    }
    let d = count_cycle(counting, c, t1, enabled);
    if cycles == 2 {
        count_cycle(counting, d, is_high(Pin::T1, pins.second), enabled)
    } else {
        d
    }
}

#[tactic(auto, unfolding(crate::specs::Step::settled))]
fn settle(s: State, cycles: u8, fresh: bool, pins: Pins) -> State
    requires { 1 ≤ cycles }
    ensures { result ≡ settled s cycles fresh pins.first pins.second }
{
    s.with_count(tick(
        s.counting,
        s.count(),
        cycles,
        fresh,
        s.interrupts.tcnti,
        pins,
    ))
}

// The whole step. Lengths and state are admitted: `step` asks before, and `run` once, since an accepted step leaves it so (the law
// `still-stands`). That is asked for here, in acting and in runs, and is no type: it is a fact of programs, RAM and state together, and RAM
// is lent for writing. A refused step has written nothing to RAM (the laws `refused-writes` and `plan-writes`).
#[tactic(auto, using(crate::proofs::Lasting::lasts), unfolding(crate::specs::Step::plan_by, isa::specs::Choice::pick))]
pub fn do_step(lent: Lent, ram: &mut [u8], s: State, pins: Pins) -> Result<Moved, Refusal>
    requires admitted { lent_of (lent_as lent) ram.old s ≡ 0 }
    ensures answer { moved_by s result ≡ moved_of (step_of (lent_as lent.entry) ram.old s pins.first pins.second) }
    ensures memory { ram.new ≡ ram_after (lent_as lent.entry) ram.old s pins.first pins.second }
{
    let course = acting::course_of(lent, ram, s, pins)?;
    match course.spent {
        Spent::Waited => Ok(Moved {
            state: course.state,
            cycles: 0,
            used: 1,
        }),
        Spent::Cycles { cycles, fresh } => Ok(Moved {
            state: settle(course.state, cycles, fresh, pins),
            cycles,
            used: cycles,
        }),
    }
}
