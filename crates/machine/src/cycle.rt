// The counting of one machine cycle.
ghost use Rattle.std.specs.Prelude.{Bool, ◌≡◌};
ghost use Rattle.machine.specs.Counting.{advanced, counted};

use crate::{Count, Counting, State};

// Counts one cycle in which T1 has the level t1; `enabled` says whether the timer interrupt is.
pub fn count_cycle(counting: Counting, c: Count, t1: bool, enabled: bool) -> Count
    ensures { result ≡ counted counting c t1 enabled }
{
    match counting {
        Counting::Stopped => advance(c, c.divider, 0, t1, enabled),
        Counting::Timer => {
            let next = c.divider as u16 + 1;
            // The usual cycle leaves T alone, and so leaves here.
            if next < State::DIVIDER_LIMIT {
                return advance(c, next as u8, 0, t1, enabled);
            }
            advance(
                c,
                (next % State::DIVIDER_LIMIT) as u8,
                (next / State::DIVIDER_LIMIT) as u8,
                t1,
                enabled,
            )
        }
        Counting::Counter => {
            let fall = c.last & !t1;
            advance(c, c.divider, fall as u8, t1, enabled)
        }
    }
}

// The divider becomes `divider`, T goes up by n, which is 0 or 1 (a number, as the definition adds it), and T1's level is remembered.
fn advance(c: Count, divider: u8, n: u8, t1: bool, enabled: bool) -> Count
    ensures { result ≡ advanced c divider n t1 enabled }
{
    let (t, over) = c.t.overflowing_add(n);
    Count {
        t,
        divider,
        tf: c.tf | over,
        request: c.request | (over & enabled),
        last: t1,
    }
}
