#![tactic(auto)]
// One line of a listing: address, bytes, text, LF.
ghost use Rattle.std.specs.Prelude.{◌≡◌, ◌+◌, ◌≤◌, length, IfOk};
ghost use Rattle.isa.specs.Reading.{under};
ghost use Rattle.listing.specs.Listing.{listed_as, listed_of, line_after};

mod draft;
mod item;
mod text;

use draft::Draft;
use isa::{PROGRAM_LIMIT, Refusal, Set};
use item::Item;

// The most that a line takes, its LF with it.
pub const LINE_BYTES: usize = 32;

// A line that stands in a buffer: its length, and how many bytes of the program it shows.
#[derive(Clone, Copy)]
pub struct Listed {
    pub length: usize,
    pub size: u8,
}

// One line of the listing of a program, at an address, into a buffer.
#[tactic(auto, unfolding(crate::specs::Listing::listed_of, crate::specs::Listing::line_after, isa::specs::Choice::pick))]
pub fn line(set: Set, program: &[u8], address: usize, buffer: &mut [u8]) -> Result<Listed, Refusal>
    ensures answer { listed_as result ≡ listed_of (under set program.now) address (length buffer.old) }
    ensures left { buffer.new ≡ line_after (under set program.now) address buffer.old }
    ensures shown { IfOk result (λ line. (line.length ≤ 32) × (1 ≤ line.size) × (address + line.size ≤ length program.now)) }
{
    if PROGRAM_LIMIT < program.len() {
        return Err(Refusal::ProgramLength);
    }
    if buffer.len() < LINE_BYTES {
        return Err(Refusal::LineTooShort);
    }
    if program.len() <= address {
        return Err(Refusal::PastEnd);
    }
    let item = Item::at(set, program, address as u16);
    let length = Draft::of(&item).copy_to(buffer);
    Ok(Listed {
        length,
        size: item.size(),
    })
}
