// Flags, and what sets something in the machine.
ghost use Rattle.std.specs.Prelude.{◌≡◌};
ghost use Rattle.effects.specs.Effect.{answer_of, done_as};
ghost use Rattle.flow.specs.Control.{with_f1, with_dbf, cleared, complemented, external_enabled, tcnti_enabled, switched, standing_by};

use effects::Effect;
use isa::{Flag, Switch};
use machine::pins::{Pin, is_low};
use machine::{Counting, Interrupts, Mode, State, psw};

pub fn clear(f: Flag, s: State) -> State
    ensures { result ≡ cleared f s }
{
    match f {
        Flag::FlagC => s.with_psw(psw::with_c(s.psw, false)),
        Flag::FlagF0 => s.with_psw(psw::with_f0(s.psw, false)),
        Flag::FlagF1 => State { f1: false, ..s },
    }
}

pub fn complement(f: Flag, s: State) -> State
    ensures { result ≡ complemented f s }
{
    match f {
        Flag::FlagC => s.with_psw(psw::with_c(s.psw, !psw::c(s.psw))),
        Flag::FlagF0 => s.with_psw(psw::with_f0(s.psw, !psw::f0(s.psw))),
        Flag::FlagF1 => State { f1: !s.f1, ..s },
    }
}

fn enable_external(on: bool, s: State) -> State
    ensures { result ≡ external_enabled on s }
{
    s.with_interrupts(Interrupts {
        external: on,
        ..s.interrupts
    })
}

fn enable_tcnti(on: bool, s: State) -> State
    ensures { result ≡ tcnti_enabled on s }
{
    State {
        request: s.request & on,
        interrupts: Interrupts {
            tcnti: on,
            ..s.interrupts
        },
        ..s
    }
}

// HALT and STOP: with INT low in the first sample the mode isn't entered.
#[tactic(auto, unfolding(isa::specs::Choice::pick))]
pub fn stand_by(s: State, mode: Mode, first: u32) -> State
    ensures { result ≡ standing_by s mode first }
{
    if is_low(Pin::Int, first) {
        s
    } else {
        s.with_mode(mode)
    }
}

pub fn switch(op: Switch, s: State) -> Effect
    ensures { done_as result ≡ answer_of (switched op s) }
{
    match op {
        Switch::EnI => effects::quiet_effect(enable_external(true, s)),
        Switch::DisI => effects::quiet_effect(enable_external(false, s)),
        Switch::Ent0Clk => effects::quiet_effect(State { clock: true, ..s }),
        Switch::SelMb0 => effects::quiet_effect(State { dbf: false, ..s }),
        Switch::SelMb1 => effects::quiet_effect(State { dbf: true, ..s }),
        Switch::SelRb0 => effects::quiet_effect(s.with_psw(psw::with_bs(s.psw, false))),
        Switch::SelRb1 => effects::quiet_effect(s.with_psw(psw::with_bs(s.psw, true))),
        Switch::EnTcnti => effects::quiet_effect(enable_tcnti(true, s)),
        Switch::DisTcnti => effects::quiet_effect(enable_tcnti(false, s)),
        Switch::StopTcnt => effects::quiet_effect(State {
            counting: Counting::Stopped,
            ..s
        }),
        Switch::StrtCnt => effects::started_effect(State {
            counting: Counting::Counter,
            ..s
        }),
        Switch::StrtT => effects::started_effect(s.with_counting(Counting::Timer, 0)),
    }
}
