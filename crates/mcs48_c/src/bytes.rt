// The machine state as 24 bytes.
ghost use Rattle.std.specs.Prelude.{◌≡◌, eqb, ltb, is_ok, IfOk};
ghost use Rattle.mcs48_c.specs.Bytes.{bytes_of, formed, holding, outside, state_in, state_of};

use isa::Refusal;
use machine::{Counting, Interrupts, Mode, Ports, State};

const STATE_BYTES: usize = 24;

// A flag's byte is 0 or 1.
fn flag(b: u8) -> Result<bool, Refusal>
    ensures known { is_ok result ≡ ltb b 2 }
    ensures is { IfOk result (λ on. on ≡ eqb b 1) }
{
    match b {
        0 => Ok(false),
        1 => Ok(true),
        _ => Err(Refusal::StateOutside),
    }
}

#[tactic(auto, unfolding(crate::specs::Bytes::bytes_of))]
fn bytes_of(s: State) -> [u8; STATE_BYTES]
    ensures { result ≡ bytes_of s }
{
    let i = s.interrupts;
    let p = s.ports;
    let [low, high] = s.pc.to_le_bytes();
    [
        s.a,
        low,
        high,
        s.psw,
        s.f1 as u8,
        s.dbf as u8,
        s.t,
        s.divider,
        s.counting as u8,
        s.tf as u8,
        s.request as u8,
        i.external as u8,
        i.tcnti as u8,
        i.service as u8,
        s.last as u8,
        s.clock as u8,
        p.p1,
        p.p2,
        p.bus,
        p.driven as u8,
        s.mode as u8,
        0,
        0,
        0,
    ]
}

// The state whose bytes they are, if they are those of a state. (One pattern over the 24 bytes misses the bound of a run's step:
// docs/PERFORMANCE.md.)
fn state_in(b: &[u8; STATE_BYTES]) -> Result<State, Refusal>
    ensures known { is_ok result ≡ formed b.now }
    ensures is { IfOk result (λ s. s ≡ state_in b.now) }
{
    if b[21] != 0 || b[22] != 0 || b[23] != 0 {
        return Err(Refusal::StateOutside);
    }
    Ok(State {
        mode: Mode::try_from(b[20])?,
        a: b[0],
        pc: u16::from_le_bytes([b[1], b[2]]),
        psw: b[3],
        counting: Counting::try_from(b[8])?,
        t: b[6],
        divider: b[7],
        tf: flag(b[9])?,
        request: flag(b[10])?,
        last: flag(b[14])?,
        f1: flag(b[4])?,
        dbf: flag(b[5])?,
        clock: flag(b[15])?,
        interrupts: Interrupts {
            external: flag(b[11])?,
            tcnti: flag(b[12])?,
            service: flag(b[13])?,
        },
        ports: Ports {
            p1: b[16],
            p2: b[17],
            bus: b[18],
            driven: flag(b[19])?,
        },
    })
}

fn outside_state() -> State
    ensures { result ≡ outside }
{
    State::power_up().with_pc(State::PC_LIMIT)
}

// What lent bytes stand for: a state outside its sizes where no state has such bytes, so that the chip itself refuses them.
#[tactic(auto, unfolding(crate::specs::Bytes::state_of, isa::specs::Choice::pick))]
pub fn state_of(b: &[u8]) -> State
    ensures { result ≡ state_of b.now }
{
    match b.as_array::<STATE_BYTES>() {
        Some(bytes) => state_in(bytes).unwrap_or(outside_state()),
        None => outside_state(),
    }
}

// Writes a state to a lent buffer, if that has 24 bytes.
#[tactic(auto, unfolding(crate::specs::Bytes::holding, isa::specs::Choice::pick))]
pub fn hold(b: &mut [u8], s: State)
    ensures { b.new ≡ holding b.old s }
{
    if let Some(bytes) = b.as_mut_array::<STATE_BYTES>() {
        *bytes = bytes_of(s);
    }
}
