#![tactic(auto)]
// The instruction writer: the bytes of an instruction. Its codes stand here and in isa's sheet, and each is proved to be the sheet's.
ghost use Rattle.std.specs.Prelude.{◌≡◌, [], ◌∷◌, ℕ, ◌+◌, ◌*◌, ◌≤◌, ◌<◌};
ghost use Rattle.isa.specs.Numbers.{given};
ghost use Rattle.isa.specs.declared.Set.{Set};
ghost use Rattle.isa.specs.declared.Instruction.TheVariants.{Alu, Accumulator, Branch, Control, Logic, Expander};
ghost use Rattle.writer.specs.Codes.{held, coded, alone, with_second, cell_code, source_code, latch_code, flag_code, nec_code};
ghost use Rattle.writer.specs.Writing.{Writes, encoded_as};

use isa::{
    Cell, Condition, DigitMove, Flag, Instruction, Join, Latch, Operation, Refusal, Set, Source,
    Switch, Unary,
};

// The bytes of an instruction.
#[derive(Clone, Copy)]
pub enum Encoded {
    One(u8),
    Two(u8, u8),
}

// The number k, if it is from `low` to `high`.
#[tactic(auto, unfolding(isa::specs::Choice::pick))]
fn held(low: u8, high: u8, k: u8) -> Result<u8, Refusal>
    ensures { result ≡ held low high k }
{
    if k < low || high < k {
        Err(Refusal::OperandTooLarge)
    } else {
        Ok(k)
    }
}

// The code `base` with the number k in it, if k is from `low` to `high`: in bits 0-2 for weight 1, in bits 5-7 for weight 32.
#[tactic(auto, unfolding(isa::specs::Choice::pick))]
fn coded(base: u8, weight: u8, low: u8, high: u8, k: u8) -> Result<u8, Refusal>
    requires { base + weight * high < 256 }
    ensures { result ≡ coded base weight low high k }
{
    Ok(base + weight * held(low, high, k)?)
}

// Rr in the lower half of a row of codes, @Rr in its first two.
fn cell_code(base: u8, c: Cell) -> Result<u8, Refusal>
    requires { base + 16 ≤ 256 }
    ensures { result ≡ cell_code base c }
{
    match c {
        Cell::Register(r) => coded(base + 8, 1, 0, 7, r),
        Cell::Indirect(r) => coded(base, 1, 0, 1, r),
    }
}

// Rr and @Rr as in a cell's code; #data stands behind a code of its own.
fn source_code(base: u8, immediate: u8, s: Source) -> Result<Encoded, Refusal>
    requires { base + 16 ≤ 256 }
    ensures { result ≡ source_code base immediate s }
{
    match s {
        Source::FromCell(c) => cell_code(base, c).map(Encoded::One),
        Source::Immediate(d) => Ok(Encoded::Two(immediate, d)),
    }
}

fn latch_code(bus: u8, base: u8, l: Latch) -> Result<u8, Refusal>
    requires { base + 2 < 256 }
    ensures { result ≡ latch_code bus base l }
{
    match l {
        Latch::Bus => Ok(bus),
        Latch::Port(p) => coded(base, 1, 1, 2, p),
    }
}

// A flag's code, of three.
fn flag_code(c: u8, f0: u8, f1: u8, f: Flag) -> u8
    ensures { result ≡ flag_code c f0 f1 f }
{
    match f {
        Flag::FlagC => c,
        Flag::FlagF0 => f0,
        Flag::FlagF1 => f1,
    }
}

// From here to nec_code: what Intel's set has, and NEC's too.
fn operation_code(op: Operation, s: Source) -> Result<Encoded, Refusal>
    ensures { (set : Set) → Writes set (Alu op s) (encoded_as result) }
{
    match op {
        Operation::Add => source_code(0x60, 0x03, s),
        Operation::Addc => source_code(0x70, 0x13, s),
        Operation::Anl => source_code(0x50, 0x53, s),
        Operation::Orl => source_code(0x40, 0x43, s),
        Operation::Xrl => source_code(0xD0, 0xD3, s),
    }
}

#[tactic(auto, using(crate::proofs::Families::read_back), unfolding(isa::specs::Sheet::entry_of, isa::specs::Sheet::kind_of, isa::specs::Choice::pick))]
fn unary_code(op: Unary) -> u8
    ensures { (set : Set) → Writes set (Accumulator op) (given (result ∷ [])) }
{
    match op {
        Unary::CplA => 0x37,
        Unary::ClrA => 0x27,
        Unary::DaA => 0x57,
        Unary::DecA => 0x07,
        Unary::IncA => 0x17,
        Unary::RlA => 0xE7,
        Unary::RlcA => 0xF7,
        Unary::RrA => 0x77,
        Unary::RrcA => 0x67,
        Unary::SwapA => 0x47,
    }
}

// The code of a conditional jump; its address is the second byte.
#[tactic(auto, using(crate::proofs::Families::read_back), unfolding(isa::specs::Sheet::entry_of, isa::specs::Sheet::kind_of, isa::specs::Choice::pick))]
fn condition_code(c: Condition) -> Result<u8, Refusal>
    ensures { (set : Set) (d : ℕ) → Writes set (Branch c d) (encoded_as (with_second result d)) }
{
    match c {
        Condition::Jb(b) => coded(0x12, 32, 0, 7, b),
        Condition::Jc => Ok(0xF6),
        Condition::Jf0 => Ok(0xB6),
        Condition::Jf1 => Ok(0x76),
        Condition::Jnc => Ok(0xE6),
        Condition::Jni => Ok(0x86),
        Condition::Jnt0 => Ok(0x26),
        Condition::Jnt1 => Ok(0x46),
        Condition::Jnz => Ok(0x96),
        Condition::Jtf => Ok(0x16),
        Condition::Jt0 => Ok(0x36),
        Condition::Jt1 => Ok(0x56),
        Condition::Jz => Ok(0xC6),
    }
}

#[tactic(auto, using(crate::proofs::Families::read_back), unfolding(isa::specs::Sheet::entry_of, isa::specs::Sheet::kind_of, isa::specs::Choice::pick))]
fn switch_code(op: Switch) -> u8
    ensures { (set : Set) → Writes set (Control op) (given (result ∷ [])) }
{
    match op {
        Switch::EnI => 0x05,
        Switch::DisI => 0x15,
        Switch::Ent0Clk => 0x75,
        Switch::SelMb0 => 0xE5,
        Switch::SelMb1 => 0xF5,
        Switch::SelRb0 => 0xC5,
        Switch::SelRb1 => 0xD5,
        Switch::EnTcnti => 0x25,
        Switch::DisTcnti => 0x35,
        Switch::StopTcnt => 0x65,
        Switch::StrtCnt => 0x45,
        Switch::StrtT => 0x55,
    }
}

// The code of ANL and ORL on BUS or a port; the data is the second byte.
fn logic_code(op: Join, l: Latch) -> Result<u8, Refusal>
    ensures { (set : Set) (d : ℕ) → Writes set (Logic op l d) (encoded_as (with_second result d)) }
{
    match op {
        Join::AnlLatch => latch_code(0x98, 0x98, l),
        Join::OrlLatch => latch_code(0x88, 0x88, l),
    }
}

fn digit_move_code(op: DigitMove, p: u8) -> Result<u8, Refusal>
    ensures { (set : Set) → Writes set (Expander op p) (encoded_as (alone result)) }
{
    match op {
        DigitMove::MovdRead => coded(0x08, 1, 4, 7, p),
        DigitMove::MovdWrite => coded(0x38, 1, 4, 7, p),
        DigitMove::Orld => coded(0x88, 1, 4, 7, p),
        DigitMove::Anld => coded(0x98, 1, 4, 7, p),
    }
}

// A code that NEC alone has; under Intel it is undefined.
fn nec_code(set: Set, code: u8) -> Result<u8, Refusal>
    ensures { result ≡ nec_code set code }
{
    match set {
        Set::Intel => Err(Refusal::UndefinedCode),
        Set::Nec => Ok(code),
    }
}

// The bytes of an instruction in a set.
#[tactic(auto, using(crate::proofs::Families::read_back), unfolding(isa::specs::Sheet::entry_of, isa::specs::Sheet::kind_of, isa::specs::Choice::pick))]
pub fn write(set: Set, i: Instruction) -> Result<Encoded, Refusal>
    ensures { Writes set i (encoded_as result) }
{
    match i {
        Instruction::Alu(op, s) => operation_code(op, s),
        Instruction::Accumulator(op) => Ok(Encoded::One(unary_code(op))),
        Instruction::Djnz(r, d) => coded(0xE8, 1, 0, 7, r).map(|code| Encoded::Two(code, d)),
        Instruction::Branch(c, d) => condition_code(c).map(|code| Encoded::Two(code, d)),
        Instruction::Jmp(a) => {
            let [high, low] = a.to_be_bytes();
            coded(0x04, 32, 0, 7, high).map(|code| Encoded::Two(code, low))
        },
        Instruction::Jmpp => Ok(Encoded::One(0xB3)),
        Instruction::Control(op) => Ok(Encoded::One(switch_code(op))),
        Instruction::MovA(s) => source_code(0xF0, 0x23, s),
        Instruction::Mov(c) => cell_code(0xA0, c).map(Encoded::One),
        Instruction::MovData(c, d) => cell_code(0xB0, c).map(|code| Encoded::Two(code, d)),
        Instruction::MovAPsw => Ok(Encoded::One(0xC7)),
        Instruction::MovPswA => Ok(Encoded::One(0xD7)),
        Instruction::Movp => Ok(Encoded::One(0xA3)),
        Instruction::Movp3 => Ok(Encoded::One(0xE3)),
        Instruction::MovxRead(r) => coded(0x80, 1, 0, 1, r).map(Encoded::One),
        Instruction::MovxWrite(r) => coded(0x90, 1, 0, 1, r).map(Encoded::One),
        Instruction::Xch(c) => cell_code(0x20, c).map(Encoded::One),
        Instruction::Xchd(r) => coded(0x30, 1, 0, 1, r).map(Encoded::One),
        Instruction::Cpl(f) => Ok(Encoded::One(flag_code(0xA7, 0x95, 0xB5, f))),
        Instruction::Clr(f) => Ok(Encoded::One(flag_code(0x97, 0x85, 0xA5, f))),
        Instruction::Logic(op, l, d) => logic_code(op, l).map(|code| Encoded::Two(code, d)),
        Instruction::In(l) => latch_code(0x08, 0x08, l).map(Encoded::One),
        Instruction::Outl(l) => latch_code(0x02, 0x38, l).map(Encoded::One),
        Instruction::Expander(op, p) => digit_move_code(op, p).map(Encoded::One),
        Instruction::Dec(r) => coded(0xC8, 1, 0, 7, r).map(Encoded::One),
        Instruction::Inc(c) => cell_code(0x10, c).map(Encoded::One),
        Instruction::Call(a) => {
            let [high, low] = a.to_be_bytes();
            coded(0x14, 32, 0, 7, high).map(|code| Encoded::Two(code, low))
        },
        Instruction::Ret => Ok(Encoded::One(0x83)),
        Instruction::Retr => Ok(Encoded::One(0x93)),
        Instruction::MovAT => Ok(Encoded::One(0x42)),
        Instruction::MovTA => Ok(Encoded::One(0x62)),
        Instruction::Nop => Ok(Encoded::One(0x00)),
        Instruction::Halt => nec_code(set, 0x01).map(Encoded::One),
        Instruction::Stop => nec_code(set, 0x82).map(Encoded::One),
    }
}
