// From the number of a row and an instruction's bytes to the instruction.
ghost use Rattle.std.specs.Prelude.{◌≡◌, ◌+◌, ◌*◌, ◌/◌};
ghost use Rattle.isa.specs.Sheet.{make_of};

use crate::{
    Cell, Condition, DigitMove, Flag, Instruction, Join, Latch, Operation, Source, Switch, Unary,
};

// The address in JMP and CALL: its bits 8-10 stand in bits 5-7 of the code.
fn address(code: u8, d: u8) -> u16
    ensures { result ≡ code / 32 * 256 + d }
{
    u16::from_be_bytes([code / 32, d])
}

// The instruction of row `kind` of specs/Sheet.antt, an arm a row, for the code `code` and the second byte `d`.
// An arm takes its operand itself: taken before the match, the operands would cost time in every step. The row is a number and no enum,
// since the clause holds of every number: of one past the last row too.
#[tactic(auto, using(crate::proofs::Arms::arm))]
pub fn made(kind: u8, code: u8, d: u8) -> Instruction
    ensures { result ≡ make_of kind code d }
{
    match kind {
        // Accumulator
        1 => Instruction::Alu(Operation::Add, Source::Immediate(d)),
        2 => Instruction::Alu(Operation::Add, Source::FromCell(Cell::Register(code % 8))),
        3 => Instruction::Alu(Operation::Add, Source::FromCell(Cell::Indirect(code % 8))),
        4 => Instruction::Alu(Operation::Addc, Source::Immediate(d)),
        5 => Instruction::Alu(Operation::Addc, Source::FromCell(Cell::Register(code % 8))),
        6 => Instruction::Alu(Operation::Addc, Source::FromCell(Cell::Indirect(code % 8))),
        7 => Instruction::Alu(Operation::Anl, Source::Immediate(d)),
        8 => Instruction::Alu(Operation::Anl, Source::FromCell(Cell::Register(code % 8))),
        9 => Instruction::Alu(Operation::Anl, Source::FromCell(Cell::Indirect(code % 8))),
        10 => Instruction::Accumulator(Unary::CplA),
        11 => Instruction::Accumulator(Unary::ClrA),
        12 => Instruction::Accumulator(Unary::DaA),
        13 => Instruction::Accumulator(Unary::DecA),
        14 => Instruction::Accumulator(Unary::IncA),
        15 => Instruction::Alu(Operation::Orl, Source::Immediate(d)),
        16 => Instruction::Alu(Operation::Orl, Source::FromCell(Cell::Register(code % 8))),
        17 => Instruction::Alu(Operation::Orl, Source::FromCell(Cell::Indirect(code % 8))),
        18 => Instruction::Accumulator(Unary::RlA),
        19 => Instruction::Accumulator(Unary::RlcA),
        20 => Instruction::Accumulator(Unary::RrA),
        21 => Instruction::Accumulator(Unary::RrcA),
        22 => Instruction::Accumulator(Unary::SwapA),
        23 => Instruction::Alu(Operation::Xrl, Source::Immediate(d)),
        24 => Instruction::Alu(Operation::Xrl, Source::FromCell(Cell::Register(code % 8))),
        25 => Instruction::Alu(Operation::Xrl, Source::FromCell(Cell::Indirect(code % 8))),
        // Branch
        26 => Instruction::Djnz(code % 8, d),
        27 => Instruction::Branch(Condition::Jb(code / 32), d),
        28 => Instruction::Branch(Condition::Jc, d),
        29 => Instruction::Branch(Condition::Jf0, d),
        30 => Instruction::Branch(Condition::Jf1, d),
        31 => Instruction::Jmp(address(code, d)),
        32 => Instruction::Jmpp,
        33 => Instruction::Branch(Condition::Jnc, d),
        34 => Instruction::Branch(Condition::Jni, d),
        35 => Instruction::Branch(Condition::Jnt0, d),
        36 => Instruction::Branch(Condition::Jnt1, d),
        37 => Instruction::Branch(Condition::Jnz, d),
        38 => Instruction::Branch(Condition::Jtf, d),
        39 => Instruction::Branch(Condition::Jt0, d),
        40 => Instruction::Branch(Condition::Jt1, d),
        41 => Instruction::Branch(Condition::Jz, d),
        // Control
        42 => Instruction::Control(Switch::EnI),
        43 => Instruction::Control(Switch::DisI),
        44 => Instruction::Control(Switch::Ent0Clk),
        45 => Instruction::Control(Switch::SelMb0),
        46 => Instruction::Control(Switch::SelMb1),
        47 => Instruction::Control(Switch::SelRb0),
        48 => Instruction::Control(Switch::SelRb1),
        // Data moves
        49 => Instruction::MovA(Source::Immediate(d)),
        50 => Instruction::MovA(Source::FromCell(Cell::Register(code % 8))),
        51 => Instruction::MovA(Source::FromCell(Cell::Indirect(code % 8))),
        52 => Instruction::MovAPsw,
        53 => Instruction::MovData(Cell::Register(code % 8), d),
        54 => Instruction::Mov(Cell::Register(code % 8)),
        55 => Instruction::Mov(Cell::Indirect(code % 8)),
        56 => Instruction::MovData(Cell::Indirect(code % 8), d),
        57 => Instruction::MovPswA,
        58 => Instruction::Movp,
        59 => Instruction::Movp3,
        60 => Instruction::MovxRead(code % 8),
        61 => Instruction::MovxWrite(code % 8),
        62 => Instruction::Xch(Cell::Register(code % 8)),
        63 => Instruction::Xch(Cell::Indirect(code % 8)),
        64 => Instruction::Xchd(code % 8),
        // Flags
        65 => Instruction::Cpl(Flag::FlagC),
        66 => Instruction::Cpl(Flag::FlagF0),
        67 => Instruction::Cpl(Flag::FlagF1),
        68 => Instruction::Clr(Flag::FlagC),
        69 => Instruction::Clr(Flag::FlagF0),
        70 => Instruction::Clr(Flag::FlagF1),
        // Input/output
        71 => Instruction::Logic(Join::AnlLatch, Latch::Bus, d),
        72 => Instruction::Logic(Join::AnlLatch, Latch::Port(code % 8), d),
        73 => Instruction::Expander(DigitMove::Anld, code % 8),
        74 => Instruction::In(Latch::Port(code % 8)),
        75 => Instruction::In(Latch::Bus),
        76 => Instruction::Expander(DigitMove::MovdRead, code % 8),
        77 => Instruction::Expander(DigitMove::MovdWrite, code % 8),
        78 => Instruction::Logic(Join::OrlLatch, Latch::Bus, d),
        79 => Instruction::Expander(DigitMove::Orld, code % 8),
        80 => Instruction::Logic(Join::OrlLatch, Latch::Port(code % 8), d),
        81 => Instruction::Outl(Latch::Bus),
        82 => Instruction::Outl(Latch::Port(code % 8)),
        // Registers
        83 => Instruction::Dec(code % 8),
        84 => Instruction::Inc(Cell::Register(code % 8)),
        85 => Instruction::Inc(Cell::Indirect(code % 8)),
        // Subroutine
        86 => Instruction::Call(address(code, d)),
        87 => Instruction::Ret,
        88 => Instruction::Retr,
        // Timer/counter
        89 => Instruction::Control(Switch::EnTcnti),
        90 => Instruction::Control(Switch::DisTcnti),
        91 => Instruction::MovAT,
        92 => Instruction::MovTA,
        93 => Instruction::Control(Switch::StopTcnt),
        94 => Instruction::Control(Switch::StrtCnt),
        95 => Instruction::Control(Switch::StrtT),
        // Miscellaneous
        96 => Instruction::Nop,
        // Standby
        97 => Instruction::Halt,
        98 => Instruction::Stop,
        _ => Instruction::Nop,
    }
}
