// What a line shows.
ghost use Rattle.std.specs.Prelude.{◌<◌};

use isa::Set;

// A code at an address, and the number of its row in isa's sheet. With row 0 it is a byte alone, which is DB.
#[derive(Clone, Copy)]
pub struct Item {
    // The number of a row, as `isa::decode::made` takes it.
    pub kind: u8,
    pub address: u16,
    pub code: u8,
    // A line of one byte has none.
    pub second: Option<u8>,
    ghost in_range: { (kind < 99) × (address < 4096) },
}

impl Item {
    ghost use Rattle.std.specs.Prelude.{◌≡◌, ◌≤◌, ◌<◌, length};
    ghost use Rattle.isa.specs.Reading.{under};
    ghost use Rattle.listing.specs.Item.{line_of, second_of, size_of};
    ghost use Rattle.listing.specs.Listing.{line_at, size_at};

    // The second byte of a code, where the program has it. One at 7FF or FFF has none.
    #[tactic(auto, unfolding(isa::specs::Choice::pick))]
    fn second_at(program: &[u8], at: usize) -> Option<u8>
        requires { length program.now ≤ 4096 }
        ensures { result ≡ second_of program.now at }
    {
        if at % 2048 < 2047 {
            program.get(at + 1).copied()
        } else {
            None
        }
    }

    // What the line at an address shows. An undefined code is DB, and so is one that lacks its second byte.
    #[tactic(auto, unfolding(crate::specs::Listing::line_at, crate::specs::Listing::size_at, isa::specs::Choice::pick))]
    pub fn at(set: Set, program: &[u8], address: u16) -> Self
        requires { (length program.now ≤ 4096) × (address < length program.now) }
        ensures line { line_of result ≡ line_at (under set program.now) address }
        ensures size { size_of result ≡ size_at (under set program.now) address }
    {
        let at = address as usize;
        let code = program[at];
        let db = Item {
            kind: 0,
            address,
            code,
            second: None,
        };
        let Some(entry) = isa::table::entry_of(set, code) else {
            return db;
        };
        let (kind, second) = match (entry.bytes, Self::second_at(program, at)) {
            (1, _) => (entry.kind, None),
            (2, Some(second)) => (entry.kind, Some(second)),
            _ => return db,
        };
        Item {
            kind,
            address,
            code,
            second,
        }
    }

    // How many bytes of the program the line shows.
    pub fn size(&self) -> u8
        ensures { result ≡ size_of self.now }
    {
        match self.second {
            Some(_) => 2,
            None => 1,
        }
    }
}
