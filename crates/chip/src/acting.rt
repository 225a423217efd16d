// What a step does before its cycles are counted: reset, a wait in standby, an interrupt call, or one instruction.
ghost use Rattle.std.specs.Prelude.{ℕ, ◌≤◌, List, ◌≡◌, length};
ghost use Rattle.machine.specs.Rom.{Roms, lent_as, seen_by};
ghost use Rattle.effects.specs.Effect as defined;
ghost use Rattle.effects.specs.Effect.{answer_of, done_as, written};
ghost use Rattle.chip.specs.Admission.{lent_of};
ghost use Rattle.chip.specs.Step.{course_answer, told_as, told_by, accepted, reset_state, released, waits, called, without_request, carried, course_by, course};

use crate::{Course, Spent, Turn};
use effects::Effect;
use isa::Refusal;
use machine::pins::{Pin, Pins, is_high, is_low};
use machine::rom::{Lent, Seen};
use machine::{Interrupts, Mode, Ports, State};

#[tactic(auto, unfolding(crate::specs::Step::accepted))]
fn accept(e: Effect, cycles: u8) -> Course
    ensures { (x : defined.Effect) → done_as e ≡ answer_of x → told_as result ≡ course_answer (accepted x cycles) }
{
    Course {
        spent: Spent::Cycles {
            cycles,
            fresh: e.fresh,
        },
        state: e.state,
    }
}

#[tactic(auto, unfolding(crate::specs::Step::reset_state))]
fn reset(s: State) -> State
    ensures { result ≡ reset_state s }
{
    let power_up = State::power_up();
    State {
        a: s.a,
        psw: s.psw / 64 * 64 + s.psw / 8 % 2 * 8,
        t: s.t,
        divider: s.divider,
        last: s.last,
        ports: Ports {
            bus: s.ports.bus,
            ..power_up.ports
        },
        ..power_up
    }
}

// INT low releases a machine that is halted or stopped.
#[tactic(auto, unfolding(isa::specs::Choice::pick))]
fn release(s: State, first: u32) -> State
    ensures { result ≡ released s first }
{
    if is_low(Pin::Int, first) {
        s.with_mode(Mode::Released)
    } else {
        s
    }
}

// A halted or stopped machine waits: nothing but the samples used goes on.
#[tactic(auto, unfolding(crate::specs::Step::waits))]
fn wait(s: State, first: u32) -> Course
    ensures { told_as result ≡ course_answer (waits s first) }
{
    Course {
        spent: Spent::Waited,
        state: release(s, first),
    }
}

#[tactic(auto, unfolding(crate::specs::Step::called))]
fn call(s: State, ram: &mut [u8], vector: u16) -> Effect
    requires { 64 ≤ length ram.old }
    ensures answer { done_as result ≡ answer_of (called s vector) }
    ensures memory { ram.new ≡ written ram.old (called s vector).write }
{
    let served = State {
        interrupts: Interrupts {
            service: true,
            ..s.interrupts
        },
        ..s
    };
    flow::stack::push(served, ram, vector)
}

#[tactic(auto, unfolding(crate::specs::Step::without_request))]
fn without_request(s: State) -> State
    ensures { result ≡ without_request s }
{
    State {
        request: false,
        ..s
    }
}

// The instruction at PC. Where the fetch or a table byte is refused, so is the step, and nothing is written.
#[tactic(auto, using(crate::proofs::Telling::courses), unfolding(crate::specs::Step::carried))]
fn carry_out(lent: Lent, ram: &mut [u8], s: State, pins: Pins) -> Result<Course, Refusal>
    requires { 64 ≤ length ram.old }
    ensures answer { told_by s result ≡ course_answer (carried (seen_by (lent_as lent.entry) pins.first) ram.old s pins.first pins.second) }
    ensures memory { ram.new ≡ written ram.old (carried (seen_by (lent_as lent.entry) pins.first) ram.old s pins.first pins.second).write }
{
    let seen = Seen {
        lent,
        ea: is_high(Pin::Ea, pins.first),
    };
    let f = crate::fetching::fetch_at(seen, s.pc)?;
    let e = execute::execute(f.instruction, seen, ram, s.running_at(f.next), s.pc, pins)?;
    Ok(accept(e, f.cycles))
}

// The turn of a step. It is nearly always an instruction's, so that is looked for first: no sample is refused, RESET and INT are high,
// no request is stored, and the machine runs. These exclude all other turns (the law `usual`).
#[tactic(auto, unfolding(crate::specs::Step::course, crate::specs::Admission::admission, isa::specs::Choice::pick))]
pub fn turn_of(s: State, pins: Pins) -> Turn
    ensures { (roms : Roms) (ram : List ℕ) → lent_of roms ram s ≡ 0 → course roms ram s pins.first pins.second ≡ course_by result roms ram s pins.first pins.second }
{
    let allowed = crate::admission::samples_allowed(pins);
    let usual = allowed
        && is_high(Pin::Reset, pins.first)
        && is_high(Pin::Int, pins.first)
        && !s.request
        && machine::is_running(s.mode);
    if usual {
        return Turn::CarryOut;
    }
    if !allowed {
        return Turn::Refuse;
    }
    if is_low(Pin::Reset, pins.first) {
        return Turn::Reset;
    }
    match s.mode {
        Mode::HaltMode | Mode::StopMode => return Turn::Wait,
        // One instruction runs before an interrupt may be called.
        Mode::Released => return Turn::CarryOut,
        Mode::Running => {}
    }
    let i = s.interrupts;
    let external = !i.service && i.external && is_low(Pin::Int, pins.first);
    if external {
        return Turn::ExternalCall;
    }
    let timer = !i.service && i.tcnti && s.request;
    if timer {
        return Turn::TimerCall;
    }
    Turn::CarryOut
}

#[tactic(auto, using(crate::proofs::Telling::courses))]
pub fn course_of(lent: Lent, ram: &mut [u8], s: State, pins: Pins) -> Result<Course, Refusal>
    requires admitted { lent_of (lent_as lent) ram.old s ≡ 0 }
    ensures answer { told_by s result ≡ course_answer (course (lent_as lent.entry) ram.old s pins.first pins.second) }
    ensures memory { ram.new ≡ written ram.old (course (lent_as lent.entry) ram.old s pins.first pins.second).write }
{
    match turn_of(s, pins) {
        Turn::Refuse => Err(Refusal::SampleBits),
        Turn::Reset => Ok(accept(effects::quiet_effect(reset(s)), 1)),
        Turn::Wait => Ok(wait(s, pins.first)),
        Turn::ExternalCall => Ok(accept(call(s, ram, State::EXTERNAL_VECTOR), 2)),
        Turn::TimerCall => Ok(accept(call(without_request(s), ram, State::TIMER_VECTOR), 2)),
        Turn::CarryOut => carry_out(lent, ram, s, pins),
    }
}
