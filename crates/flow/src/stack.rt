// The stack: RAM 8 to 23.
ghost use Rattle.std.specs.Prelude.{◌+◌, ◌*◌, ◌/◌, ◌%◌, ◌≡◌, ◌≤◌, length};
ghost use Rattle.effects.specs.Effect.{answer_of, done_as, written};
ghost use Rattle.flow.specs.Stack.{high_byte, low_byte, pushed, restored, returned, sp_below};

use effects::{Effect, memory};
use machine::{Interrupts, State, psw};

// PC and the upper half of PSW go on the stack, and PC becomes `to`.
#[tactic(auto, unfolding(effects::specs::Effect::written, crate::specs::Stack::pushed))]
pub fn push(s: State, ram: &mut [u8], to: u16) -> Effect
    requires { 64 ≤ length ram.old }
    ensures answer { done_as result ≡ answer_of (pushed s to) }
    ensures memory { ram.new ≡ written ram.old (pushed s to).write }
{
    let at = (8 + psw::sp(s.psw) * 2) as usize;
    let [low, high] = s.pc.to_le_bytes();
    memory::store(ram, at, low);
    memory::store(ram, at + 1, high % 16 + s.psw / 16 * 16);
    effects::quiet_effect(State {
        pc: to,
        psw: psw::with_sp(s.psw, psw::sp(s.psw) + 1),
        ..s
    })
}

// What stands on top of the stack: SP counted down, PC, and PSW bits 4-7, where they stand in PSW.
#[derive(Clone, Copy)]
struct Popped {
    sp: u8,
    pc: u16,
    upper: u8,
}

fn pop(s: State, ram: &[u8]) -> Popped
    requires { 64 ≤ length ram.now }
    ensures sp { result.sp ≡ sp_below s }
    ensures pc { result.pc ≡ low_byte s ram.now + high_byte s ram.now % 16 * 256 }
    ensures upper { result.upper ≡ high_byte s ram.now / 16 * 16 }
{
    let sp = (psw::sp(s.psw) + 7) % 8;
    let at = (8 + sp * 2) as usize;
    let low = memory::cell(ram, at);
    let high = memory::cell(ram, at + 1);
    Popped {
        sp,
        pc: u16::from_le_bytes([low, high % 16]),
        upper: high / 16 * 16,
    }
}

pub fn ret(s: State, ram: &[u8]) -> State
    requires { 64 ≤ length ram.now }
    ensures { result ≡ returned s ram.now }
{
    let Popped { sp, pc, .. } = pop(s, ram);
    State {
        pc,
        psw: psw::with_sp(s.psw, sp),
        ..s
    }
}

pub fn retr(s: State, ram: &[u8]) -> State
    requires { 64 ≤ length ram.now }
    ensures { result ≡ restored s ram.now }
{
    let Popped { sp, pc, upper } = pop(s, ram);
    State {
        pc,
        psw: upper + s.psw / 8 % 2 * 8 + sp,
        interrupts: Interrupts {
            service: false,
            ..s.interrupts
        },
        ..s
    }
}
