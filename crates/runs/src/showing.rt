// What a step shows outside, from the state before it: its event, and how many bytes it takes from the second program. Only a single step
// is asked for it; a run isn't, and spends no time on it.
ghost use Rattle.std.specs.Prelude.{ℕ, ◌≤◌, List, ◌∷◌, [], ◌≡◌, eqb, length};
ghost use Rattle.isa.specs.Choice.{pick};
ghost use Rattle.isa.specs.Reading.{next_pc};
ghost use Rattle.isa.specs.Sheet.{entry_of, instruction_of};
ghost use Rattle.isa.specs.declared.Set as sets;
ghost use Rattle.machine.specs.Rom.{answering, lent_as};
ghost use Rattle.machine.specs.State.{running_at};
ghost use Rattle.execute.specs.Execute.{executed};
ghost use Rattle.chip.specs.Admission.{lent_of};
ghost use Rattle.chip.specs.Outside.{counted_outside, outside_among, table_bytes};
ghost use Rattle.chip.specs.Step.{Shows, report_of, step_of};

use chip::{Report, Turn};
use effects::{Event, memory};
use isa::{DigitMove, Set, pages, table};
use machine::State;
use machine::pins::{Pin, Pins, is_high};
use machine::rom::{Lent, Memory, Seen};

// The event of an instruction, by its code: MOVX and the moves of a digit have one. (By the decoded instruction a step of a run missed its
// bound by far: docs/PERFORMANCE.md.)
#[tactic(auto, using(crate::proofs::Shows::events), unfolding(isa::specs::Choice::pick))]
fn event_of(code: u8, ram: &[u8], s: State) -> Event
    requires { 64 ≤ length ram.now }
    ensures { (set : sets.Set) (d next base first second : ℕ) (bytes : List ℕ) → result ≡ (executed (instruction_of set code d) bytes ram.now (running_at s next) base first second).event }
{
    let at = memory::register(s.psw, code);
    let port = code % 8;
    let digit = s.a % 16;
    match code {
        // MOVX A,@Rr
        0x80..=0x81 => Event::ExternalRead(memory::cell(ram, at)),
        // MOVX @Rr,A
        0x90..=0x91 => Event::ExternalWrite(memory::cell(ram, at), s.a),
        // MOVD A,Pp
        0x0C..=0x0F => Event::ExpanderMove(DigitMove::MovdRead, port, digit),
        // MOVD Pp,A
        0x3C..=0x3F => Event::ExpanderMove(DigitMove::MovdWrite, port, digit),
        // ORLD Pp,A
        0x8C..=0x8F => Event::ExpanderMove(DigitMove::Orld, port, digit),
        // ANLD Pp,A
        0x9C..=0x9F => Event::ExpanderMove(DigitMove::Anld, port, digit),
        _ => Event::Quiet,
    }
}

// 1 if the byte at an address comes from outside.
fn from_outside(seen: Seen, at: u16) -> u8
    ensures small { result ≤ 1 }
    ensures is { result ≡ counted_outside (answering seen.entry.lent.program.now seen.entry.ea at) }
{
    match seen.answering(at) {
        Memory::Internal => 0,
        Memory::External => 1,
    }
}

// How many bytes an instruction takes from outside: of its first byte, and of its second or its table byte, if it has one.
#[tactic(auto, unfolding(isa::specs::Choice::pick))]
fn outside_of(code: u8, bytes: u8, seen: Seen, s: State) -> u8
    ensures { result ≡ outside_among seen.entry.lent.program.now seen.entry.ea (s.pc ∷ pick (eqb bytes 2) (next_pc s.pc ∷ []) (table_bytes code s.pc s.a)) }
{
    let first = from_outside(seen, s.pc);
    if bytes == 2 {
        return first + from_outside(seen, isa::next_pc(s.pc));
    }
    match code {
        // MOVP
        0xA3 => first + from_outside(seen, pages::movp_address(s.pc, s.a)),
        // JMPP
        0xB3 => first + from_outside(seen, pages::jmpp_address(s.pc, s.a)),
        // MOVP3
        0xE3 => first + from_outside(seen, pages::movp3_address(s.pc, s.a)),
        _ => first,
    }
}

// How many bytes an instruction has by its code, 0 if that is undefined.
fn bytes_in(set: Set, code: u8) -> u8
    ensures { result ≡ (entry_of set code).bytes }
{
    table::entry_of(set, code).map_or(0, |entry| entry.bytes)
}

// What the instruction at PC shows. (A step that lacks it is refused, and shows nothing.)
fn report_at(lent: Lent, ram: &[u8], s: State, first: u32) -> Report
    requires { 64 ≤ length ram.now }
    ensures { (second : ℕ) → Shows (lent_as lent.entry) ram.now s first second result }
{
    let seen = Seen {
        lent,
        ea: is_high(Pin::Ea, first),
    };
    let code = seen.fetch(s.pc).unwrap_or(0);
    Report {
        event: event_of(code, ram, s),
        outside: outside_of(code, bytes_in(lent.set, code), seen, s),
    }
}

// What a step shows, if it is accepted: an instruction what it does, and no other turn anything.
#[tactic(auto, using(crate::proofs::Shows::reports))]
pub fn report_of(lent: Lent, ram: &[u8], s: State, pins: Pins) -> Report
    requires admitted { lent_of (lent_as lent) ram.now s ≡ 0 }
    ensures { (step_of (lent_as lent.entry) ram.now s pins.first pins.second).number ≡ 0 → result ≡ report_of (step_of (lent_as lent.entry) ram.now s pins.first pins.second) }
{
    match chip::acting::turn_of(s, pins) {
        Turn::CarryOut => report_at(lent, ram, s, pins.first),
        Turn::Refuse | Turn::Reset | Turn::Wait | Turn::ExternalCall | Turn::TimerCall => {
            crate::nothing_shown()
        }
    }
}
