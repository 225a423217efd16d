// The bits of PSW: bit 7 C, 6 AC, 5 F0, 4 bank BS, 3 always 1, 2 to 0 SP. (A function for each, by the data sheet's name; what puts halves
// of a PSW together, RETR, reset and MOV PSW,A, writes that out.)
ghost use Rattle.std.specs.Prelude.{◌≡◌, ◌%◌, eqb};
ghost use Rattle.isa.specs.Choice.{one_if};
ghost use Rattle.machine.specs.Psw as defined;
ghost use Rattle.machine.specs.Psw.{bit_ac, bit_c, bit_f0};

pub fn c(psw: u8) -> bool
    ensures { result ≡ eqb (bit_c psw) 1 }
{
    psw / 128 == 1
}

pub fn ac(psw: u8) -> bool
    ensures { result ≡ eqb (bit_ac psw) 1 }
{
    psw / 64 % 2 == 1
}

pub fn f0(psw: u8) -> bool
    ensures { result ≡ eqb (bit_f0 psw) 1 }
{
    psw / 32 % 2 == 1
}

pub fn sp(psw: u8) -> u8
    ensures { result ≡ defined.sp psw }
{
    psw % 8
}

pub fn with_c(psw: u8, c: bool) -> u8
    ensures { result ≡ defined.with_c psw (one_if c) }
{
    psw % 128 + c as u8 * 128
}

pub fn with_carries(psw: u8, c: bool, ac: bool) -> u8
    ensures { result ≡ defined.with_carries psw (one_if c) (one_if ac) }
{
    psw % 64 + ac as u8 * 64 + c as u8 * 128
}

pub fn with_f0(psw: u8, f0: bool) -> u8
    ensures { result ≡ defined.with_f0 psw (one_if f0) }
{
    psw / 64 * 64 + f0 as u8 * 32 + psw % 32
}

pub fn with_bs(psw: u8, bs: bool) -> u8
    ensures { result ≡ defined.with_bs psw (one_if bs) }
{
    psw / 32 * 32 + bs as u8 * 16 + psw % 16
}

// SP counts modulo 8.
pub fn with_sp(psw: u8, sp: u8) -> u8
    ensures { result ≡ defined.with_sp psw (sp % 8) }
{
    psw / 8 * 8 + sp % 8
}
