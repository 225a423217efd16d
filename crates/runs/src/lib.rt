#![tactic(auto)]
// The step and the run, as a caller has them: lengths and state asked before, and what a step shows told besides.
ghost use Rattle.std.specs.Prelude.{true, ◌≡◌};
ghost use Rattle.isa.specs.Choice.{pick};
ghost use Rattle.machine.specs.Rom.{lent_as};
ghost use Rattle.chip.specs.Admission.{lent_of};
ghost use Rattle.chip.specs.Run.{begun, first_accepted, first_shown, played_as, played_of, ran_as, run_of, run_over, unshown};
ghost use Rattle.chip.specs.Step.{outcome_by, ram_after, step_of};

use chip::{Outcome, Played, Ran, Report};
use effects::Event;
use isa::Refusal;
use machine::State;
use machine::pins::Pins;
use machine::rom::Lent;

mod showing; // what a step shows outside

// Nothing is seen outside.
pub fn nothing_shown() -> Report
    ensures { result ≡ unshown }
{
    Report {
        event: Event::Quiet,
        outside: 0,
    }
}

// One step. RAM is changed only if it is accepted.
#[tactic(auto, using(chip::proofs::Telling::courses), unfolding(chip::specs::Step::plan_by, isa::specs::Choice::pick))]
pub fn step(lent: Lent, ram: &mut [u8], state: State, pins: Pins) -> Result<Outcome, Refusal>
    ensures answer { outcome_by state result ≡ step_of (lent_as lent.entry) ram.old state pins.first pins.second }
    ensures memory { ram.new ≡ ram_after (lent_as lent.entry) ram.old state pins.first pins.second }
{
    let (program, outside) = (lent.program.len(), lent.outside.len());
    chip::admission::admit(lent.set, program, outside, ram.len(), state)?;
    let shown = showing::report_of(lent, &ram[..], state, pins);
    let moved = chip::do_step(lent, ram, state, pins)?;
    Ok(Outcome { moved, shown })
}

// Steps while two samples remain, or until a refusal. None of them is asked for lengths and state again: an accepted step leaves no state
// that would be refused (the law `accepted-permitted`).
#[tactic(auto, using(crate::proofs::Going::turn))]
fn run_on(lent: Lent, ram: &mut [u8], start: State, samples: &[u32]) -> Ran
    requires admitted { lent_of (lent_as lent) ram.old start ≡ 0 }
    ensures answer { ran_as result ≡ (run_over (lent_as lent.entry) samples.now (begun ram.old start)).ran }
    ensures memory { ram.new ≡ (run_over (lent_as lent.entry) samples.now (begun ram.old start)).ram }
{
    let mut state = start;
    let mut left = samples;
    let mut used: usize = 0;
    let mut cycles: u64 = 0;
    let ended = loop {
        let &[first, second, ..] = left else {
            break None
        };
        match chip::do_step(lent, ram, state, Pins { first, second }) {
            Ok(moved) => {
                state = moved.state;
                used += moved.used as usize;
                cycles += moved.cycles as u64;
                left = &left[moved.used as usize..];
            }
            Err(refusal) => break Some(refusal),
        }
    };
    Ran {
        ended,
        state,
        used,
        cycles,
    }
}

// What the first step of a run will show, if that is asked for and the step is accepted. (A flag and no function of its own: where a single
// step asks for it apart from the run, the state's bytes are read twice, and a single step misses its bound: docs/PERFORMANCE.md.)
#[tactic(auto, unfolding(isa::specs::Choice::pick, chip::specs::Run::first_shown, chip::specs::Run::first_accepted))]
fn shown_ahead(asked: bool, lent: Lent, ram: &[u8], s: State, samples: &[u32]) -> Report
    requires admitted { lent_of (lent_as lent) ram.now s ≡ 0 }
    ensures { first_accepted (lent_as lent.entry) ram.now s samples.now ≡ true → result ≡ pick asked (first_shown (lent_as lent.entry) ram.now s samples.now) unshown }
{
    match samples {
        &[first, second, ..] if asked => showing::report_of(lent, ram, s, Pins { first, second }),
        _ => nothing_shown(),
    }
}

// A run: its steps, one by one; and, if that is asked for (see `shown_ahead`), what its first step shows outside.
#[tactic(auto, using(crate::proofs::Shows::plays), unfolding(chip::specs::Run::run_of, isa::specs::Choice::pick))]
pub fn play(lent: Lent, ram: &mut [u8], state: State, samples: &[u32], asked: bool) -> Played
    ensures answer { played_as result ≡ played_of asked (lent_as lent.entry) ram.old state samples.now }
    ensures memory { ram.new ≡ (run_of (lent_as lent.entry) ram.old state samples.now).ram }
{
    let (program, outside) = (lent.program.len(), lent.outside.len());
    if let Err(refusal) = chip::admission::admit(lent.set, program, outside, ram.len(), state) {
        return Played {
            ran: Ran {
                ended: Some(refusal),
                state,
                used: 0,
                cycles: 0,
            },
            shown: nothing_shown(),
        };
    }
    let shown = shown_ahead(asked, lent, &ram[..], state, samples);
    let ran = run_on(lent, ram, state, samples);
    // Every step that is accepted uses a sample: the first was refused, or there was none.
    if ran.used == 0 {
        return Played {
            ran,
            shown: nothing_shown(),
        };
    }
    Played { ran, shown }
}

// A run alone.
pub fn run(lent: Lent, ram: &mut [u8], state: State, samples: &[u32]) -> Ran
    ensures answer { ran_as result ≡ (run_of (lent_as lent.entry) ram.old state samples.now).ran }
    ensures memory { ram.new ≡ (run_of (lent_as lent.entry) ram.old state samples.now).ram }
{
    play(lent, ram, state, samples, false).ran
}
