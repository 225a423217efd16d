#![tactic(auto)]
// The machine state, what it may hold, program memory, pins, and the counting of one machine cycle.
ghost use Rattle.std.specs.Prelude.{◌≡◌, is_ok, IfOk, IfErr, ltb};
ghost use Rattle.machine.specs.Counting.{counting_of};
ghost use Rattle.machine.specs.Mode.{is_running, mode_allowed, mode_of};
ghost use Rattle.machine.specs.State.{power_up, permitted, count_of, with_core, with_flags, with_count, with_counting, with_interrupts, with_ports, with_mode, running_at, with_a, with_pc, with_psw};

use isa::{Refusal, Set};

pub mod cycle; // one machine cycle
pub mod pins; // the bits of a pin sample
pub mod psw; // the bits of PSW
pub mod rom; // program memory, inside and outside

// "The counter stands still, counts cycles or counts falls of T1: one of the three."
#[derive(Clone, Copy)]
pub enum Counting {
    Stopped = 0,
    Timer = 1,
    Counter = 2,
}

impl TryFrom<u8> for Counting {
    type Error = Refusal;

    ghost use Rattle.isa.specs.declared.Refusal.TheVariants.{StateOutside};

    ghost try_from_gives = { λ n r. (is_ok r ≡ ltb n 3) × IfOk r (λ counting. counting ≡ counting_of n) × IfErr r (λ e. e ≡ StateOutside) };

    #[tactic(auto, unfolding(crate::specs::Counting::counting_of, isa::specs::Choice::pick))]
    fn try_from(n: u8) -> Result<Self, Refusal> {
        match n {
            0 => Ok(Counting::Stopped),
            1 => Ok(Counting::Timer),
            2 => Ok(Counting::Counter),
            _ => Err(Refusal::StateOutside),
        }
    }
}

// Whether the machine runs, is in the data sheet's HALT mode or STOP mode, or was just released from one by INT.
#[derive(Clone, Copy)]
pub enum Mode {
    Running = 0,
    HaltMode = 1,
    StopMode = 2,
    Released = 3,
}

impl TryFrom<u8> for Mode {
    type Error = Refusal;

    ghost use Rattle.isa.specs.declared.Refusal.TheVariants.{StateOutside};

    ghost try_from_gives = { λ n r. (is_ok r ≡ ltb n 4) × IfOk r (λ mode. mode ≡ mode_of n) × IfErr r (λ e. e ≡ StateOutside) };

    #[tactic(auto, unfolding(crate::specs::Mode::mode_of, isa::specs::Choice::pick))]
    fn try_from(n: u8) -> Result<Self, Refusal> {
        match n {
            0 => Ok(Mode::Running),
            1 => Ok(Mode::HaltMode),
            2 => Ok(Mode::StopMode),
            3 => Ok(Mode::Released),
            _ => Err(Refusal::StateOutside),
        }
    }
}

// The interrupts enabled, the external one and TCNTI, the timer's, and whether one is in service.
#[derive(Clone, Copy)]
pub struct Interrupts {
    pub external: bool,
    pub tcnti: bool,
    pub service: bool,
}

// The latches of P1, P2 and BUS, and whether BUS is driven.
#[derive(Clone, Copy)]
pub struct Ports {
    pub p1: u8,
    pub p2: u8,
    pub bus: u8,
    pub driven: bool,
}

// The machine state. Numbers and flags come first and what is nested last: the order matters for speed (docs/PERFORMANCE.md).
#[derive(Clone, Copy)]
pub struct State {
    pub mode: Mode,
    pub a: u8,
    pub pc: u16,
    // bit 7 C, 6 AC, 5 F0, 4 bank BS, 3 always 1, 2 to 0 SP
    pub psw: u8,
    pub counting: Counting,
    // the counter T, its divider, the timer flag TF, the stored timer request, and T1's level in the cycle before
    pub t: u8,
    pub divider: u8,
    pub tf: bool,
    pub request: bool,
    pub last: bool,
    pub f1: bool,
    pub dbf: bool,
    // T0 gives out the clock
    pub clock: bool,
    pub interrupts: Interrupts,
    pub ports: Ports,
}

// The part of the state that counting a cycle changes. (The state has these five itself: the theorems of the demands name them as its
// parts, and a Count in it costs time in each of three places: docs/PERFORMANCE.md.)
#[derive(Clone, Copy)]
pub struct Count {
    pub t: u8,
    pub divider: u8,
    pub tf: bool,
    pub request: bool,
    pub last: bool,
}

// Whether the machine simply runs: it is in no standby mode, and was not just released from one. (Its promise is docs/STATEMENTS.md's.)
pub fn is_running(m: Mode) -> bool
    ensures { result ≡ is_running m }
{
    matches!(m, Mode::Running)
}

// Whether a set has the mode.
fn is_allowed(set: Set, m: Mode) -> bool
    ensures { result ≡ mode_allowed set m }
{
    match set {
        Set::Intel => is_running(m),
        Set::Nec => true,
    }
}

impl State {
    pub const RESET_VECTOR: u16 = 0;

    pub const EXTERNAL_VECTOR: u16 = 3;

    pub const TIMER_VECTOR: u16 = 7;

    pub const PC_LIMIT: u16 = 4096;

    pub const DIVIDER_LIMIT: u16 = 32;

    // The bytes of program memory and of RAM that an 8048, an 8049 and an 8050 have.
    pub const PROGRAM_8048: usize = 1024;

    pub const PROGRAM_8049: usize = 2048;

    pub const PROGRAM_8050: usize = 4096;

    // The second program, outside of the chip, if there is one.
    pub const PROGRAM_OUTSIDE: usize = 4096;

    pub const RAM_8048: usize = 64;

    pub const RAM_8049: usize = 128;

    pub const RAM_8050: usize = 256;

    // The state after power-up.
    pub fn power_up() -> Self
        ensures { result ≡ power_up }
    {
        State {
            mode: Mode::Running,
            a: 0,
            pc: Self::RESET_VECTOR,
            psw: 0x08,
            counting: Counting::Stopped,
            t: 0,
            divider: 0,
            tf: false,
            request: false,
            last: false,
            f1: false,
            dbf: false,
            clock: false,
            interrupts: Interrupts {
                external: false,
                tcnti: false,
                service: false,
            },
            ports: Ports {
                p1: 0xFF,
                p2: 0xFF,
                bus: 0xFF,
                driven: false,
            },
        }
    }

    // Whether each part is within its size, PSW bit 3 is 1, and the set has the mode; if not, it is refused as StateOutside.
    pub fn is_permitted(self, set: Set) -> bool
        ensures { result ≡ permitted set self }
    {
        // (& and no &&, which misses the bound of a run's step: docs/PERFORMANCE.md.)
        (self.pc < Self::PC_LIMIT)
            & ((self.divider as u16) < Self::DIVIDER_LIMIT)
            & (self.psw / 8 % 2 == 1)
            & is_allowed(set, self.mode)
    }

    // The changes of a state, each of the parts that it names: a caller's (docs/STATEMENTS.md), beside which `..` says the same.
    pub fn with_core(self, a: u8, pc: u16, psw: u8) -> Self
        ensures { result ≡ with_core self a pc psw }
    {
        State { a, pc, psw, ..self }
    }

    pub fn with_flags(self, f1: bool, dbf: bool, clock: bool) -> Self
        ensures { result ≡ with_flags self f1 dbf clock }
    {
        State {
            f1,
            dbf,
            clock,
            ..self
        }
    }

    pub fn with_count(self, c: Count) -> Self
        ensures { result ≡ with_count self c }
    {
        State {
            t: c.t,
            divider: c.divider,
            tf: c.tf,
            request: c.request,
            last: c.last,
            ..self
        }
    }

    pub fn with_counting(self, counting: Counting, divider: u8) -> Self
        ensures { result ≡ with_counting self counting divider }
    {
        State {
            counting,
            divider,
            ..self
        }
    }

    pub fn with_interrupts(self, interrupts: Interrupts) -> Self
        ensures { result ≡ with_interrupts self interrupts }
    {
        State { interrupts, ..self }
    }

    pub fn with_ports(self, ports: Ports) -> Self
        ensures { result ≡ with_ports self ports }
    {
        State { ports, ..self }
    }

    pub fn with_mode(self, mode: Mode) -> Self
        ensures { result ≡ with_mode self mode }
    {
        State { mode, ..self }
    }

    // An instruction begins: PC is past it, and what a release held back is over.
    pub fn running_at(self, next: u16) -> Self
        ensures { result ≡ running_at self next }
    {
        State {
            mode: Mode::Running,
            pc: next,
            ..self
        }
    }

    pub fn with_a(self, a: u8) -> Self
        ensures { result ≡ with_a self a }
    {
        State { a, ..self }
    }

    pub fn with_pc(self, pc: u16) -> Self
        ensures { result ≡ with_pc self pc }
    {
        State { pc, ..self }
    }

    pub fn with_psw(self, psw: u8) -> Self
        ensures { result ≡ with_psw self psw }
    {
        State { psw, ..self }
    }

    pub fn count(self) -> Count
        ensures { result ≡ count_of self }
    {
        Count {
            t: self.t,
            divider: self.divider,
            tf: self.tf,
            request: self.request,
            last: self.last,
        }
    }
}
