#![tactic(auto)]
// The instruction sets of the MCS-48 family: Intel's 96 instructions and NEC's 98, the table of the 256 codes, and the reader.
ghost use Rattle.std.specs.Prelude.{◌≡◌};
ghost use Rattle.isa.specs.Naming.{named_as, set_of};
ghost use Rattle.isa.specs.Numbers.{number_of};
ghost use Rattle.isa.specs.Reading.{decoded_at, next_pc, read_as, read_of, under};

use std::error::Error;
use std::fmt;

pub mod decode; // from a row's number and the bytes to the instruction
pub mod pages; // the 256-byte pages of jumps and tables
pub mod table; // length, cycles and kind of each code

// The longest program that there is.
pub const PROGRAM_LIMIT: usize = 4096;

// Why a call is refused, in the whole product, with its number: document 01's, and 25 for a set that there is not; specs/Numbers.antt has
// the same.
#[derive(Clone, Copy, Debug, PartialEq, Eq)]
pub enum Refusal {
    ProgramLength = 1,
    RamLength = 2,
    StateOutside = 3,
    UndefinedCode = 4,
    PastEnd = 5,
    SampleBits = 6,
    LineTooShort = 7,
    OperandTooLarge = 23,
    SetUnknown = 25,
}

// Whose instruction set a program is written in: Intel's, or that of NEC's µPD80C49H, which adds HALT and STOP.
#[derive(Clone, Copy)]
pub enum Set {
    Intel,
    Nec,
}

// A cell of RAM: Rr of the bank in use, or @Rr, the cell whose address R0 or R1 holds. (An operand is a number here and below, a port too,
// and may be more than a code holds: of such a one `write` promises OperandTooLarge.)
#[derive(Clone, Copy)]
pub enum Cell {
    Register(u8),
    Indirect(u8),
}

// What an instruction takes into A: Rr, @Rr or #data.
#[derive(Clone, Copy)]
pub enum Source {
    FromCell(Cell),
    Immediate(u8),
}

// A and a source are joined.
#[derive(Clone, Copy)]
pub enum Operation {
    Add,
    Addc,
    Anl,
    Orl,
    Xrl,
}

// A alone is changed.
#[derive(Clone, Copy)]
pub enum Unary {
    CplA,
    ClrA,
    DaA,
    DecA,
    IncA,
    RlA,
    RlcA,
    RrA,
    RrcA,
    SwapA,
}

// When a conditional jump is taken.
#[derive(Clone, Copy)]
pub enum Condition {
    Jb(u8),
    Jc,
    Jf0,
    Jf1,
    Jnc,
    Jni,
    Jnt0,
    Jnt1,
    Jnz,
    Jtf,
    Jt0,
    Jt1,
    Jz,
}

#[derive(Clone, Copy)]
pub enum Flag {
    FlagC,
    FlagF0,
    FlagF1,
}

// BUS, or P1 or P2.
#[derive(Clone, Copy)]
pub enum Latch {
    Bus,
    Port(u8),
}

// ANL and ORL on a latch.
#[derive(Clone, Copy)]
pub enum Join {
    AnlLatch,
    OrlLatch,
}

// The moves of a digit to and from the expander's ports P4 to P7: MOVD A,Pp and MOVD Pp,A, ORLD, ANLD, each with its event's number.
#[derive(Clone, Copy)]
pub enum DigitMove {
    MovdRead = 3,
    MovdWrite = 4,
    Orld = 5,
    Anld = 6,
}

// What takes no operand and sets something in the machine.
#[derive(Clone, Copy)]
pub enum Switch {
    EnI,
    DisI,
    Ent0Clk,
    SelMb0,
    SelMb1,
    SelRb0,
    SelRb1,
    EnTcnti,
    DisTcnti,
    StopTcnt,
    StrtCnt,
    StrtT,
}

// The 98 instructions by families, under the data sheet's mnemonics; a number is a register, a port, a data byte or an address.
// JMP and CALL hold 11 bits of an address, a conditional jump the low 8.
#[derive(Clone, Copy)]
pub enum Instruction {
    // ADD, ADDC, ANL, ORL, XRL A,..
    Alu(Operation, Source),
    // CPL A to SWAP A
    Accumulator(Unary),
    Djnz(u8, u8),
    Branch(Condition, u8),
    Jmp(u16),
    Jmpp,
    Control(Switch),
    // MOV A,..
    MovA(Source),
    // MOV Rr,A and MOV @Rr,A
    Mov(Cell),
    // MOV Rr,#data and MOV @Rr,#data
    MovData(Cell, u8),
    MovAPsw,
    MovPswA,
    Movp,
    Movp3,
    // MOVX A,@Rr
    MovxRead(u8),
    // MOVX @Rr,A
    MovxWrite(u8),
    Xch(Cell),
    Xchd(u8),
    Cpl(Flag),
    Clr(Flag),
    // ANL and ORL BUS,#data or Pp,#data
    Logic(Join, Latch, u8),
    // IN A,Pp and INS A,BUS
    In(Latch),
    Outl(Latch),
    Expander(DigitMove, u8),
    Dec(u8),
    Inc(Cell),
    Call(u16),
    Ret,
    Retr,
    MovAT,
    MovTA,
    Nop,
    // the NEC set alone has these two
    Halt,
    Stop,
}

// What the reader finds: an instruction, and of how many bytes.
#[derive(Clone, Copy)]
pub struct Decoded {
    pub instruction: Instruction,
    pub bytes: u8,
}

impl fmt::Display for Refusal {
    ghost use Rattle.std.specs.Prelude.{Some};
    ghost use Rattle.isa.specs.Numbers.{refusal_text};

    ghost output = { λ r. Some (refusal_text r) };

    fn fmt<W: fmt::Write>(&self, f: &mut fmt::Formatter<W>) -> fmt::Result {
        write!(f, "refused {}", u8::from(*self))
    }
}

impl Error for Refusal {}

// The number of a refusal.
impl From<Refusal> for u8 {
    ghost from_gives = { λ r number. number ≡ number_of r };

    fn from(r: Refusal) -> u8 {
        r as u8
    }
}

// A caller in C names a set by a number.
impl TryFrom<u32> for Set {
    type Error = Refusal;

    ghost try_from_gives = { λ name r. named_as r ≡ set_of name };

    #[tactic(auto, unfolding(crate::specs::Naming::set_of, crate::specs::Choice::pick))]
    fn try_from(name: u32) -> Result<Self, Refusal> {
        match name {
            0 => Ok(Set::Intel),
            1 => Ok(Set::Nec),
            _ => Err(Refusal::SetUnknown),
        }
    }
}

// The PC after `pc`: the low 11 bits count and wrap, bit 11 stays.
pub fn next_pc(pc: u16) -> u16
    ensures { result ≡ next_pc pc }
{
    pc / 2048 * 2048 + (pc % 2048 + 1) % 2048
}

// The instruction whose first byte, at `pc`, is `code`.
#[tactic(auto, unfolding(crate::specs::Reading::decoded_at, crate::specs::Choice::pick))]
fn decoded_at(set: Set, program: &[u8], pc: u16, code: u8) -> Result<Decoded, Refusal>
    ensures { read_as result ≡ decoded_at (under set program.now) pc code }
{
    let entry = table::entry_of(set, code).ok_or(Refusal::UndefinedCode)?;
    if entry.bytes == 1 {
        return Ok(Decoded {
            instruction: decode::made(entry.kind, code, 0),
            bytes: 1,
        });
    }
    let d = *program.get(next_pc(pc) as usize).ok_or(Refusal::PastEnd)?;
    Ok(Decoded {
        instruction: decode::made(entry.kind, code, d),
        bytes: 2,
    })
}

// The instruction at an address of a program, which may have up to 4,096 bytes.
#[tactic(auto, unfolding(crate::specs::Reading::read_of, crate::specs::Reading::instruction_at, crate::specs::Choice::pick))]
pub fn read(set: Set, program: &[u8], address: usize) -> Result<Decoded, Refusal>
    ensures { read_as result ≡ read_of (under set program.now) address }
{
    if PROGRAM_LIMIT < program.len() {
        return Err(Refusal::ProgramLength);
    }
    let code = *program.get(address).ok_or(Refusal::PastEnd)?;
    decoded_at(set, program, address as u16, code)
}
