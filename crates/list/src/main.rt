#![tactic(auto)]
// Lists the program on standard input, line by line, by Intel's set: at most 4,096 bytes, or `refused 1`.
ghost use Rattle.std.specs.Prelude.{◌≤◌};

use isa::{PROGRAM_LIMIT, Set};
use listing::{LINE_BYTES, Listed};
use std::io::{self, Read, Write};

// How much of a buffer is filled, by how much is left. The difference never saturates, but what std promises of a write into a buffer says
// nothing of how much is left.
fn filled(size: usize, left: usize) -> usize
    ensures { result ≤ size }
{
    size.saturating_sub(left)
}

// Prints a program's lines, each from where the bytes end that the one before shows. A program that is too long is `refused 1`. No other
// refusal comes: each line is asked for at an address that the program has, with a buffer that is long enough.
fn write_lines<W: Write>(output: &mut W, program: &[u8]) -> io::Result<()> {
    let mut line = [0u8; LINE_BYTES];
    let mut at = 0;
    // No `for`: each step is as long as its line's bytes.
    while at < program.len() {
        match listing::line(Set::Intel, program, at, &mut line) {
            Ok(Listed { length, size }) => {
                output.write_all(&line[..length])?;
                at += size as usize;
            }
            // One write, as of a line.
            Err(refusal) => {
                let mut room = &mut line[..];
                writeln!(room, "{refusal}")?;
                let left = room.len();
                return output.write_all(&line[..filled(LINE_BYTES, left)]);
            }
        }
    }
    Ok(())
}

// Reads one byte more than a program may have, so that a longer one is seen. (A buffer of that size and how much of it is read: no heap.)
fn main(rt: HostRuntime) -> io::Result<()> {
    let mut program = [0u8; PROGRAM_LIMIT + 1];
    let mut room = &mut program[..];
    io::copy(&mut rt.stdin().take(room.len() as u64), &mut room)?;
    let left = room.len();
    let n = filled(program.len(), left);
    write_lines(&mut rt.stdout(), &program[..n])
}
