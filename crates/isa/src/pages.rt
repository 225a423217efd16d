// Where a conditional jump goes and where a table byte stands. `base` is the address of the instruction's first byte.
ghost use Rattle.std.specs.Prelude.{◌≡◌};
ghost use Rattle.isa.specs.Pages.{branch_target, in_page, jmpp_address, movp3_address, movp_address};

// The address in the page of `of` whose low 8 bits are `d`. (By division, as the definitions have it and the three below.)
pub fn in_page(of: u16, d: u8) -> u16
    ensures { result ≡ in_page of d }
{
    of / 256 * 256 + d as u16
}

// A conditional jump stays in the page of its second byte. (It and MOVP are two rules, with one page today and a wrong answer each: the
// edits branch_page_of_first and movp_page_of_first.)
pub fn branch_target(base: u16, d: u8) -> u16
    ensures { result ≡ branch_target base d }
{
    in_page(crate::next_pc(base), d)
}

// MOVP reads in the page of the instruction that follows it.
pub fn movp_address(base: u16, a: u8) -> u16
    ensures { result ≡ movp_address base a }
{
    in_page(crate::next_pc(base), a)
}

// JMPP reads in the page of its own first byte.
pub fn jmpp_address(base: u16, a: u8) -> u16
    ensures { result ≡ jmpp_address base a }
{
    in_page(base, a)
}

// MOVP3 reads in page 3 of its bank.
pub fn movp3_address(base: u16, a: u8) -> u16
    ensures { result ≡ movp3_address base a }
{
    base / 2048 * 2048 + 0x300 + a as u16
}
