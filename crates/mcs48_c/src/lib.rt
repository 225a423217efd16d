#![tactic(auto)]
// The C interface; the crate mcs48_c_c exports its functions. include/mcs48.h documents each of them for its users.
ghost use Rattle.std.specs.Prelude.{◌≡◌, length};
ghost use Rattle.isa.specs.Choice.{pick};
ghost use Rattle.machine.specs.State.{power_up};
ghost use Rattle.chip.specs.Run.{number_ended, unshown};
ghost use Rattle.mcs48_c.specs.Bytes.{holding};
ghost use Rattle.mcs48_c.specs.Calls.{after_run, after_step, line_from, listed_from, ram_from, read_from, run_answer, run_from, shown_from, step_from, totalled, totals_after};
ghost use Rattle.mcs48_c.specs.Packed.{packed_answer, packed_line, packed_read, packed_step};

use chip::Report;
use isa::{Refusal, Set};
use listing::Listed;
use machine::State;
use machine::rom::Lent;

mod bytes; // the machine state as 24 bytes
pub mod packing; // answers packed into one number

// The state after power-up, into a buffer of 24 bytes.
pub fn mcs48_power_up(state: &mut [u8])
    ensures { state.new ≡ holding state.old power_up }
{
    bytes::hold(state, State::power_up());
}

// What mcs48_read answers, or the refusal.
#[tactic(auto, unfolding(isa::specs::Choice::pick), using(crate::proofs::Inside::inside))]
fn read(set: u32, program: &[u8], address: usize) -> Result<u64, Refusal>
    ensures { packed_answer result ≡ packed_read program.now address (read_from set program.now address) }
{
    let set = Set::try_from(set)?;
    let n = isa::read(set, program, address)?.bytes;
    let code = program[address];
    let second = if n == 2 {
        program[isa::next_pc(address as u16) as usize]
    } else {
        0
    };
    Ok(packing::pack(0, n, code, second, 0))
}

// The instruction at an address: its length, and the bytes that the writer gives for it, which are those that stand there (`read-write`).
pub fn mcs48_read(set: u32, program: &[u8], address: usize) -> u64
    ensures { result ≡ packed_read program.now address (read_from set program.now address) }
{
    packing::answer(read(set, program, address))
}

// What mcs48_list_line answers, or the refusal.
fn list_line(set: u32, program: &[u8], address: usize, line: &mut [u8]) -> Result<u64, Refusal>
    ensures answer { packed_answer result ≡ packed_line (listed_from set program.now address (length line.old)) }
    ensures left { line.new ≡ line_from set program.now address line.old }
{
    let set = Set::try_from(set)?;
    let Listed { length, size } = listing::line(set, program, address, line)?;
    Ok(packing::pack(0, length as u8, 0, size, 0))
}

// One line of a listing, into a buffer.
pub fn mcs48_list_line(set: u32, program: &[u8], address: usize, line: &mut [u8]) -> u64
    ensures answer { result ≡ packed_line (listed_from set program.now address (length line.old)) }
    ensures left { line.new ≡ line_from set program.now address line.old }
{
    packing::answer(list_line(set, program, address, line))
}

// What is left of a run's answer once its state is in the lent bytes; `shown` is what its first step showed, if that was asked for.
#[derive(Clone, Copy)]
pub struct RunAnswer {
    // 0 if no step was refused. (An Option here misses the bound of a run's step: docs/PERFORMANCE.md.)
    pub number: u8,
    pub used: usize,
    pub cycles: u64,
    pub shown: Report,
}

// A run over lent buffers. The only caller of the chip, and a step from C is a run over its two samples: so the whole step is in one place
// in the machine code (docs/PERFORMANCE.md).
#[tactic(auto, unfolding(isa::specs::Choice::pick))]
fn run_lent(
    set: u32,
    program: &[u8],
    outside: &[u8],
    ram: &mut [u8],
    state: &mut [u8],
    samples: &[u32],
    // (A flag: see `shown_ahead` of runs.)
    asked: bool,
) -> RunAnswer
    ensures answer { result ≡ run_answer (run_from set program.now outside.now ram.old state.old samples.now).ran (pick asked (shown_from set program.now outside.now ram.old state.old samples.now) unshown) }
    ensures memory { ram.new ≡ (run_from set program.now outside.now ram.old state.old samples.now).ram }
    ensures left { state.new ≡ after_run state.old (run_from set program.now outside.now ram.old state.old samples.now).ran }
{
    let set = match Set::try_from(set) {
        Ok(set) => set,
        Err(refusal) => {
            return RunAnswer {
                number: u8::from(refusal),
                used: 0,
                cycles: 0,
                shown: runs::nothing_shown(),
            };
        }
    };
    let start = bytes::state_of(&state[..]);
    let lent = Lent {
        set,
        program,
        outside,
    };
    let p = runs::play(lent, ram, start, samples, asked);
    let r = p.ran;
    // (Read here and not below, which costs time: docs/PERFORMANCE.md.)
    let shown = p.shown;
    if r.used != 0 {
        bytes::hold(state, r.state);
    }
    RunAnswer {
        number: number_ended(r.ended),
        used: r.used,
        cycles: r.cycles,
        shown,
    }
}

// The number that C gets: 0 if no step was refused.
fn number_ended(ended: Option<Refusal>) -> u8
    ensures { result ≡ number_ended ended }
{
    ended.map_or(0, u8::from)
}

#[tactic(auto, unfolding(crate::specs::Calls::totalled, isa::specs::Choice::pick))]
fn total(totals: &mut [u64], used: usize, cycles: u64)
    ensures { totals.new ≡ totalled totals.old used cycles }
{
    if let Some(sums) = totals.first_chunk_mut::<2>() {
        *sums = [used as u64, cycles];
    }
}

// A run over samples.
pub fn mcs48_run(
    set: u32,
    program: &[u8],
    outside: &[u8],
    ram: &mut [u8],
    state: &mut [u8],
    samples: &[u32],
    totals: &mut [u64],
) -> u64
    ensures answer { result ≡ (run_from set program.now outside.now ram.old state.old samples.now).ran.number }
    ensures memory { ram.new ≡ (run_from set program.now outside.now ram.old state.old samples.now).ram }
    ensures left { state.new ≡ after_run state.old (run_from set program.now outside.now ram.old state.old samples.now).ran }
    ensures sums { totals.new ≡ totals_after totals.old (run_from set program.now outside.now ram.old state.old samples.now).ran }
{
    let r = run_lent(set, program, outside, ram, state, samples, false);
    total(totals, r.used, r.cycles);
    r.number as u64
}

// One step, as a run over its two samples.
pub fn mcs48_step(
    set: u32,
    program: &[u8],
    outside: &[u8],
    ram: &mut [u8],
    state: &mut [u8],
    first: u32,
    second: u32,
) -> u64
    ensures answer { result ≡ packed_step (step_from set program.now outside.now ram.old state.old first second) }
    ensures memory { ram.new ≡ ram_from set program.now outside.now ram.old state.old first second }
    ensures left { state.new ≡ after_step state.old (step_from set program.now outside.now ram.old state.old first second) }
{
    let samples = [first, second];
    let r = run_lent(set, program, outside, ram, state, &samples, true);
    packing::pack_step(
        r.number,
        r.cycles as u8,
        r.used as u8,
        r.shown.outside,
        r.shown.event,
    )
}
