// The timer takes the first s ticks of every p. Its s and p stand in front of the rows. (docs/RULES.md, 3.16 and 3.17.)
ghost use Rattle.std.specs.Prelude.{◌≡◌};
ghost use Rattle.table.specs.Timer.{timer_in_range, read_timer};

use crate::rows::read_value;
use crate::{Table, TimerAt, within_limit};
use kinds::{Refusal, RefusedAt};

// A timer is in range when p is from 1 to its limit and s is below p. (3.16)
pub fn timer_in_range(s: u64, p: u64) -> bool
    ensures { result ≡ timer_in_range s p }
{
    within_limit(Table::MAX_P, p) & (s < p)
}

// Both s and p are read before either is tested, and p is tested first. An s that is not below p is refused at its start, place 0. (3.16, 3.17)
pub(crate) fn read_timer(bytes: &[u8]) -> Result<TimerAt, RefusedAt>
    ensures { result ≡ read_timer bytes.now }
{
    let s = numbers::read(bytes, 0)?;
    let p = read_value(bytes, s.next, Table::MAX_P)?;
    if s.value >= p.value {
        return Err(Refusal::ValueOutOfRange.at(0));
    }
    Ok(TimerAt {
        s: s.value,
        p: p.value,
        next: p.next,
    })
}
