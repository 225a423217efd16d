// The instruction at PC. (isa's `read` goes the same way over a slice. One function of both would take a closure that gives the bytes,
// promise something for every list that it might give them from, and hand next PC and cycles to the reader, who has no use for them: no
// plainer.)
ghost use Rattle.isa.specs.Reading.{under};
ghost use Rattle.machine.specs.Rom.{visible_in};
ghost use Rattle.chip.specs.Step.{Fetched};

use crate::Fetch;
use isa::{Refusal, decode, table};
use machine::rom::Seen;

#[tactic(auto, using(crate::proofs::Fetches::fetches), unfolding(isa::specs::Choice::pick))]
pub fn fetch_at(seen: Seen, pc: u16) -> Result<Fetch, Refusal>
    ensures { Fetched (under seen.entry.lent.set (visible_in seen.entry)) pc result }
{
    let code = seen.fetch(pc).ok_or(Refusal::PastEnd)?;
    let entry = table::entry_of(seen.lent.set, code).ok_or(Refusal::UndefinedCode)?;
    let next = isa::next_pc(pc);
    let (second, after) = if entry.bytes == 1 {
        (0, next)
    } else {
        let second = seen.fetch(next).ok_or(Refusal::PastEnd)?;
        (second, isa::next_pc(next))
    };
    Ok(Fetch {
        instruction: decode::made(entry.kind, code, second),
        next: after,
        cycles: entry.cycles,
    })
}
