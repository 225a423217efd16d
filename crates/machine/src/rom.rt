// Program memory: the program in the chip, and a second one outside of it.
ghost use Rattle.std.specs.Prelude.{◌≡◌};
ghost use Rattle.machine.specs.Rom.{answering, fetched, found_of};

use isa::Set;

// Which of the two must answer a fetch.
#[derive(Clone, Copy)]
pub enum Memory {
    Internal,
    External,
}

// What is lent as program memory: the set, the program in the chip, and the second one, which is empty where there is none.
#[derive(Clone, Copy)]
pub struct Lent<'a> {
    pub set: Set,
    pub program: &'a [u8],
    pub outside: &'a [u8],
}

// Program memory as a step sees it: what is lent, and whether EA is high.
#[derive(Clone, Copy)]
pub struct Seen<'a> {
    pub lent: Lent<'a>,
    pub ea: bool,
}

impl Seen<'_> {
    // The memory that must answer. Past the internal end, and everywhere while EA is high, it is the one outside.
    #[tactic(auto, unfolding(isa::specs::Choice::pick))]
    pub fn answering(self, address: u16) -> Memory
        ensures { result ≡ answering self.entry.lent.program.now self.entry.ea address }
    {
        let outer = self.ea || self.lent.program.len() <= address as usize;
        if outer {
            Memory::External
        } else {
            Memory::Internal
        }
    }

    // The byte at an address, if the memory that must answer has it.
    #[tactic(auto, unfolding(crate::specs::Rom::fetched, crate::specs::Rom::found_of, isa::specs::Choice::pick))]
    pub fn fetch(self, address: u16) -> Option<u8>
        ensures { result ≡ found_of (fetched self.entry.lent.program.now self.entry.lent.outside.now self.entry.ea address) }
    {
        let at = address as usize;
        match self.answering(address) {
            Memory::Internal => self.lent.program.get(at).copied(),
            Memory::External => self.lent.outside.get(at).copied(),
        }
    }
}
