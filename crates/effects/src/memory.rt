// Registers and RAM. Every chip has 64 bytes at least, so that each cell an instruction names is there and no test is needed: here and in
// flow, execute, chip and runs each function that reads or writes RAM asks for those 64, or for the one cell it is given. A struct of the
// slice and that fact is no plainer: whoever writes would have to say besides that the struct still lends the same slice.
ghost use Rattle.std.specs.Prelude.{◌≡◌, ◌≤◌, ◌<◌, length, set};
ghost use Rattle.isa.specs.Reading.{byte_at};
ghost use Rattle.effects.specs.Memory.{register_at, indirect_at, place_of, source_of};

use isa::{Cell, Source};

// One cell. (`cell` and `store` are for the crates above: docs/STATEMENTS.md names both.)
pub fn cell(ram: &[u8], i: usize) -> u8
    requires { i < length ram.now }
    ensures { result ≡ byte_at ram.now i }
{
    ram[i]
}

pub fn store(ram: &mut [u8], at: usize, v: u8)
    requires { at < length ram.old }
    ensures { ram.new ≡ set ram.old at v }
{
    ram[at] = v;
}

pub fn register(psw: u8, r: u8) -> usize
    ensures { result ≡ register_at psw r }
{
    (psw / 16 % 2 * 24 + r % 8) as usize
}

pub fn indirect(ram: &[u8], psw: u8, r: u8) -> usize
    requires { 64 ≤ length ram.now }
    ensures address { result ≡ indirect_at ram.now psw r }
    ensures there { result < length ram.now }
{
    let held = cell(ram, register(psw, r)) as usize;
    let size = ram.len();
    // An address within RAM is its own remainder, and needs no division.
    if held < size { held } else { held % size }
}

pub fn place(c: Cell, ram: &[u8], psw: u8) -> usize
    requires { 64 ≤ length ram.now }
    ensures address { result ≡ place_of c ram.now psw }
    ensures there { result < length ram.now }
{
    match c {
        Cell::Register(r) => register(psw, r),
        Cell::Indirect(r) => indirect(ram, psw, r),
    }
}

pub fn source(from: Source, ram: &[u8], psw: u8) -> u8
    requires { 64 ≤ length ram.now }
    ensures { result ≡ source_of from ram.now psw }
{
    match from {
        Source::FromCell(c) => cell(ram, place(c, ram, psw)),
        Source::Immediate(d) => d,
    }
}
