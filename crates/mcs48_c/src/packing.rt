// Answers packed into one 64-bit number.
ghost use Rattle.std.specs.Prelude.{◌≡◌, ◌^◌, ◌<◌, [], ◌∷◌};
ghost use Rattle.isa.specs.Numbers.{number_of};
ghost use Rattle.effects.specs.Events.{event_as};
ghost use Rattle.mcs48_c.specs.Packed.{packed, packed_answer, packed_refusal, packed_used};

use effects::Event;
use isa::Refusal;

// Bytes 0 to 4 of a number. (Five, though the last is 0 in each call here: its clause is `packed` of five, docs/STATEMENTS.md.)
#[tactic(auto, unfolding(crate::specs::Packed::packed))]
pub fn pack(b0: u8, b1: u8, b2: u8, b3: u8, b4: u8) -> u64
    ensures is { result ≡ packed b0 b1 b2 b3 b4 }
    ensures small { result < 2 ^ 40 }
{
    u64::from_le_bytes([b0, b1, b2, b3, b4, 0, 0, 0])
}

// The C interface gives a refusal as a number.
pub fn pack_refusal(r: Refusal) -> u64
    ensures { result ≡ packed_refusal (number_of r) }
{
    pack(u8::from(r), 0, 0, 0, 0)
}

// What is packed already, or a refusal.
pub fn answer(answered: Result<u64, Refusal>) -> u64
    ensures { result ≡ packed_answer answered }
{
    answered.unwrap_or_else(pack_refusal)
}

// An event's number, its address or port, and its data or digit.
fn event_bytes(event: Event) -> [u8; 3]
    ensures { result ≡ (event_as event).number ∷ (event_as event).place ∷ (event_as event).value ∷ [] }
{
    match event {
        Event::Quiet => [0, 0, 0],
        Event::ExternalRead(address) => [1, address, 0],
        Event::ExternalWrite(address, d) => [2, address, d],
        Event::ExpanderMove(op, port, digit) => [op as u8, port, digit],
    }
}

// A step's answer, with how many bytes came from outside in byte 5 and the samples used in byte 6. The C interface gives its refusal as a
// number too, and 0 for none.
#[tactic(auto, unfolding(crate::specs::Packed::packed))]
pub fn pack_step(number: u8, cycles: u8, used: u8, outside: u8, event: Event) -> u64
    ensures { result ≡ packed_used number cycles used outside event }
{
    let [kind, place, value] = event_bytes(event);
    u64::from_le_bytes([number, cycles, kind, place, value, outside, used, 0])
}
