#![tactic(auto)]
// What each of the 98 instructions does to the state, to RAM and to the world outside.
ghost use Rattle.std.specs.Prelude.{◌≡◌, ◌≤◌, length};
ghost use Rattle.machine.specs.Rom.{visible_in};
ghost use Rattle.machine.specs.State.{with_pc};
ghost use Rattle.effects.specs.Effect.{answer_of, effect_as, written};
ghost use Rattle.execute.specs.Execute.{executed};

use effects::{Effect, memory, moves, ports, quiet_effect, stored_effect};
use flow::{control, jumps, stack};
use isa::{Instruction, Refusal, pages};
use machine::pins::{self, Pins};
use machine::rom::Seen;
use machine::{Mode, State};

// The effect of an instruction whose first byte is at `base`, on a state whose PC is past it already.
#[tactic(auto, unfolding(crate::specs::Execute::executed, effects::specs::Effect::written, isa::specs::Choice::pick))]
pub fn execute(
    i: Instruction,
    seen: Seen,
    ram: &mut [u8],
    s: State,
    base: u16,
    pins: Pins,
) -> Result<Effect, Refusal>
    requires { 64 ≤ length ram.old }
    ensures answer { effect_as (with_pc s base) result ≡ answer_of (executed i (visible_in seen.entry) ram.old s base pins.first pins.second) }
    ensures memory { ram.new ≡ written ram.old (executed i (visible_in seen.entry) ram.old s base pins.first pins.second).write }
{
    match i {
        Instruction::Alu(op, from) => Ok(quiet_effect(accumulator::operate(
            op,
            memory::source(from, &ram[..], s.psw),
            s,
        ))),
        Instruction::Accumulator(op) => Ok(quiet_effect(accumulator::change(op, s))),
        Instruction::Djnz(r, d) => Ok(jumps::djnz(s, ram, memory::register(s.psw, r), base, d)),
        Instruction::Branch(c, d) => Ok(quiet_effect(jumps::branch(c, s, base, d, pins.first))),
        Instruction::Jmp(a) => Ok(quiet_effect(s.with_pc(jumps::far_target(s, a)))),
        Instruction::Jmpp => jumps::jump_by_table(seen, s, base, pages::jmpp_address(base, s.a)),
        Instruction::Control(op) => Ok(control::switch(op, s)),
        Instruction::MovA(from) => Ok(quiet_effect(s.with_a(memory::source(
            from,
            &ram[..],
            s.psw,
        )))),
        Instruction::Mov(to) => {
            let at = memory::place(to, &ram[..], s.psw);
            Ok(stored_effect(s, ram, at, s.a))
        },
        Instruction::MovData(to, d) => {
            let at = memory::place(to, &ram[..], s.psw);
            Ok(stored_effect(s, ram, at, d))
        },
        Instruction::MovAPsw => Ok(quiet_effect(s.with_a(s.psw))),
        Instruction::MovPswA => Ok(quiet_effect(s.with_psw(s.a / 16 * 16 + 8 + s.a % 8))),
        Instruction::Movp => jumps::load_table(seen, s, pages::movp_address(base, s.a)),
        Instruction::Movp3 => jumps::load_table(seen, s, pages::movp3_address(base, s.a)),
        Instruction::MovxRead(_) => Ok(quiet_effect(s.with_a(pins::bus(pins.second)))),
        Instruction::MovxWrite(_) => Ok(quiet_effect(s)),
        Instruction::Xch(c) => {
            let at = memory::place(c, &ram[..], s.psw);
            Ok(moves::exchange(s, ram, at))
        },
        Instruction::Xchd(r) => {
            let at = memory::indirect(&ram[..], s.psw, r);
            Ok(moves::exchange_digits(s, ram, at))
        },
        Instruction::Cpl(f) => Ok(quiet_effect(control::complement(f, s))),
        Instruction::Clr(f) => Ok(quiet_effect(control::clear(f, s))),
        Instruction::Logic(op, l, d) => Ok(quiet_effect(ports::write_latch(
            l,
            s,
            ports::join_latch(op, ports::latch_value(l, s), d),
        ))),
        Instruction::In(l) => Ok(quiet_effect(ports::read_pins(l, s, pins.second))),
        Instruction::Outl(l) => Ok(quiet_effect(ports::write_latch(l, s, s.a))),
        Instruction::Expander(op, _) => Ok(quiet_effect(ports::move_digit(op, s, pins.second))),
        Instruction::Dec(r) => Ok(moves::raise(s, ram, memory::register(s.psw, r), 255)),
        Instruction::Inc(c) => {
            let at = memory::place(c, &ram[..], s.psw);
            Ok(moves::raise(s, ram, at, 1))
        },
        Instruction::Call(a) => Ok(stack::push(s, ram, jumps::far_target(s, a))),
        Instruction::Ret => Ok(quiet_effect(stack::ret(s, &ram[..]))),
        Instruction::Retr => Ok(quiet_effect(stack::retr(s, &ram[..]))),
        Instruction::MovAT => Ok(quiet_effect(s.with_a(s.t))),
        Instruction::MovTA => Ok(quiet_effect(State { t: s.a, ..s })),
        Instruction::Nop => Ok(quiet_effect(s)),
        Instruction::Halt => Ok(quiet_effect(control::stand_by(s, Mode::HaltMode, pins.first))),
        Instruction::Stop => Ok(quiet_effect(control::stand_by(s, Mode::StopMode, pins.first))),
    }
}
