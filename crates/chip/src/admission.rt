// What is looked at before a step does anything.
ghost use Rattle.std.specs.Prelude.{◌&&◌, ◌≡◌};
ghost use Rattle.isa.specs.Numbers.{number_given};
ghost use Rattle.chip.specs.Admission.{lent_number, sample_allowed};

use isa::{Refusal, Set};
use machine::pins::Pins;
use machine::{State, pins};

// Whether the programs' and the RAM's lengths and the state are admitted.
#[tactic(auto, unfolding(crate::specs::Admission::lent_number, isa::specs::Choice::pick))]
pub fn admit(set: Set, program: usize, outside: usize, ram: usize, s: State) -> Result<(), Refusal>
    ensures { number_given result ≡ lent_number set program outside ram s }
{
    if !matches!(
        program,
        State::PROGRAM_8048 | State::PROGRAM_8049 | State::PROGRAM_8050
    ) {
        return Err(Refusal::ProgramLength);
    }
    if !matches!(outside, 0 | State::PROGRAM_OUTSIDE) {
        return Err(Refusal::ProgramLength);
    }
    if !matches!(ram, State::RAM_8048 | State::RAM_8049 | State::RAM_8050) {
        return Err(Refusal::RamLength);
    }
    if !s.is_permitted(set) {
        return Err(Refusal::StateOutside);
    }
    Ok(())
}

// Whether both samples are allowed.
pub fn samples_allowed(pins: Pins) -> bool
    ensures { result ≡ (sample_allowed pins.first && sample_allowed pins.second) }
{
    pins.first < pins::LIMIT && pins.second < pins::LIMIT
}
