// Jumps, and table bytes; `base` is the address of the instruction's first byte.
ghost use Rattle.std.specs.Prelude.{ℕ, ◌≡◌, ◌<◌, length};
ghost use Rattle.machine.specs.Rom.{visible_in};
ghost use Rattle.machine.specs.State.{with_pc};
ghost use Rattle.effects.specs.Effect.{answer_of, done_as, effect_as, written};
ghost use Rattle.flow.specs.Jumps.{far_target, jump_if, without_tf, branched, decremented, table_byte, table_loaded, table_jumped};

use effects::{Effect, memory};
use isa::{Condition, Refusal, pages};
use machine::pins::{Pin, is_high, is_low};
use machine::rom::Seen;
use machine::{State, psw};

#[tactic(auto, unfolding(isa::specs::Choice::pick))]
pub fn far_target(s: State, a: u16) -> u16
    ensures { result ≡ far_target s a }
{
    if s.dbf && !s.interrupts.service {
        a % 2048 + 2048
    } else {
        a % 2048
    }
}

#[tactic(auto, unfolding(isa::specs::Choice::pick))]
fn jump_if(taken: bool, s: State, base: u16, d: u8) -> State
    ensures { result ≡ jump_if taken s base d }
{
    if taken {
        s.with_pc(pages::branch_target(base, d))
    } else {
        s
    }
}

fn without_tf(s: State) -> State
    ensures { result ≡ without_tf s }
{
    State { tf: false, ..s }
}

pub fn branch(c: Condition, s: State, base: u16, d: u8, first: u32) -> State
    ensures { result ≡ branched c s base d first }
{
    match c {
        Condition::Jb(b) => jump_if((s.a >> (b % 8)) % 2 == 1, s, base, d),
        Condition::Jc => jump_if(psw::c(s.psw), s, base, d),
        Condition::Jf0 => jump_if(psw::f0(s.psw), s, base, d),
        Condition::Jf1 => jump_if(s.f1, s, base, d),
        Condition::Jnc => jump_if(!psw::c(s.psw), s, base, d),
        Condition::Jni => jump_if(is_low(Pin::Int, first), s, base, d),
        Condition::Jnt0 => jump_if(is_low(Pin::T0, first), s, base, d),
        Condition::Jnt1 => jump_if(is_low(Pin::T1, first), s, base, d),
        Condition::Jnz => jump_if(s.a != 0, s, base, d),
        Condition::Jtf => jump_if(s.tf, without_tf(s), base, d),
        Condition::Jt0 => jump_if(is_high(Pin::T0, first), s, base, d),
        Condition::Jt1 => jump_if(is_high(Pin::T1, first), s, base, d),
        Condition::Jz => jump_if(s.a == 0, s, base, d),
    }
}

pub fn djnz(s: State, ram: &mut [u8], at: usize, base: u16, d: u8) -> Effect
    requires { at < length ram.old }
    ensures answer { done_as result ≡ answer_of (decremented s ram.old at base d) }
    ensures memory { ram.new ≡ written ram.old (decremented s ram.old at base d).write }
{
    let v = memory::cell(&ram[..], at).wrapping_sub(1);
    effects::stored_effect(jump_if(v != 0, s, base, d), ram, at, v)
}

// The byte at an address of a table.
#[tactic(auto, using(machine::proofs::Seeing::found_seen), unfolding(crate::specs::Jumps::table_byte, isa::specs::Choice::pick))]
fn table_byte(seen: Seen, address: u16) -> Result<u8, Refusal>
    ensures { result ≡ table_byte (visible_in seen.entry) address }
{
    seen.fetch(address).ok_or(Refusal::PastEnd)
}

// MOVP and MOVP3.
#[tactic(auto, unfolding(crate::specs::Jumps::table_byte, isa::specs::Choice::pick))]
pub fn load_table(seen: Seen, s: State, address: u16) -> Result<Effect, Refusal>
    ensures { (base : ℕ) → effect_as (with_pc s base) result ≡ answer_of (table_loaded (visible_in seen.entry) s base address) }
{
    let byte = table_byte(seen, address)?;
    Ok(effects::quiet_effect(s.with_a(byte)))
}

// JMPP.
#[tactic(auto, unfolding(crate::specs::Jumps::table_byte, isa::specs::Choice::pick))]
pub fn jump_by_table(seen: Seen, s: State, base: u16, address: u16) -> Result<Effect, Refusal>
    ensures { effect_as (with_pc s base) result ≡ answer_of (table_jumped (visible_in seen.entry) s base address) }
{
    let byte = table_byte(seen, address)?;
    Ok(effects::quiet_effect(s.with_pc(pages::in_page(base, byte))))
}
