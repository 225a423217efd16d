#![tactic(auto)]
// What is read at an address, written again: the reader and the writer as one function of C, for the comparison with the second emulator.
// (mcs48_read gives the same, and calls the reader for the length or the refusal alone.)
ghost use Rattle.std.specs.Prelude.{◌≡◌};
ghost use Rattle.mcs48_c.specs.Calls.{read_from};
ghost use Rattle.mcs48_c.specs.Packed.{packed_answer, packed_read};

use isa::{Refusal, Set};
use mcs48_c::packing;
use writer::Encoded;

// The length of the instruction at an address and the bytes that the writer gives for it, packed.
fn reread(set: u32, program: &[u8], address: usize) -> Result<u64, Refusal>
    ensures { packed_answer result ≡ packed_read program.now address (read_from set program.now address) }
{
    let set = Set::try_from(set)?;
    let read = isa::read(set, program, address)?;
    match writer::write(set, read.instruction)? {
        Encoded::One(b) => Ok(packing::pack(0, read.bytes, b, 0, 0)),
        Encoded::Two(b, d) => Ok(packing::pack(0, read.bytes, b, d, 0)),
    }
}

#[unsafe(no_mangle)]
pub extern "C" fn mcs48_reread(set: u32, program: &[u8], address: usize) -> u64
    ensures { result ≡ packed_read program.now address (read_from set program.now address) }
{
    packing::answer(reread(set, program, address))
}
