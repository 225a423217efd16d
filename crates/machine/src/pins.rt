// The pin samples of a step, and what a sample says.
ghost use Rattle.std.specs.Prelude.{◌≡◌};
ghost use Rattle.machine.specs.Pins as defined;
ghost use Rattle.machine.specs.Pins.{bus_pins, p1_pins, p2_pins, pin_number};

// Instructions look at a step's first two samples. "Tests of T0, T1 and INT use the first sample; ports and BUS the second."
#[derive(Clone, Copy)]
pub struct Pins {
    pub first: u32,
    pub second: u32,
}

// The pins with a bit of their own, each with the number of its bit.
#[derive(Clone, Copy)]
pub enum Pin {
    Int = 24,
    T0 = 25,
    T1 = 26,
    Reset = 27,
    Ea = 28,
}

// Bits 29-31 are 0: a sample is below this.
pub const LIMIT: u32 = 0x2000_0000;

// A pin's level in a sample. (Two, since the definitions and the documents' rules have a test of each.)
pub fn is_high(pin: Pin, sample: u32) -> bool
    ensures { result ≡ defined.is_high (pin_number pin) sample }
{
    (sample >> pin as u32) % 2 == 1
}

pub fn is_low(pin: Pin, sample: u32) -> bool
    ensures { result ≡ defined.is_low (pin_number pin) sample }
{
    (sample >> pin as u32) % 2 == 0
}

// The eight pins of BUS, P1 and P2. (One function by a number would have to answer for a fourth port.)
pub fn bus(sample: u32) -> u8
    ensures { result ≡ bus_pins sample }
{
    let [bus, _, _, _] = sample.to_le_bytes();
    bus
}

pub fn p1(sample: u32) -> u8
    ensures { result ≡ p1_pins sample }
{
    let [_, p1, _, _] = sample.to_le_bytes();
    p1
}

pub fn p2(sample: u32) -> u8
    ensures { result ≡ p2_pins sample }
{
    let [_, _, p2, _] = sample.to_le_bytes();
    p2
}
