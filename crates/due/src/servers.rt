// Odd jobs: the due time of a server's next job. (docs/RULES.md, 4.9.)
ghost use Rattle.std.specs.Prelude.{◌≡◌};
ghost use Rattle.due.specs.OddJobs.{odd_due_of};

use crate::in_time;
use kinds::{Refusal, Tick};
use table::{Row, Server};

// The answer is the due time of a server's next job, where `last` is the server's last due time. A server out of range is refusal 3, a cost that no odd job
// may have is 7, and a due time above 2^40 is 9. A release or a last due time above 2^40 is refused before it is added to, so that no sum overflows. Asking
// moves no last due time. (4.4, 4.7, 4.9)
pub fn odd_due(server: Server, last: Tick, release: Tick, cost: u64) -> Result<Tick, Refusal>
    ensures { result ≡ odd_due_of server last.0 release.0 cost }
{
    if !server.in_range() {
        return Err(Refusal::ValueOutOfRange);
    }
    if cost < 1 || Row::MAX_C < cost {
        return Err(Refusal::CostOutOfRange);
    }
    let later = in_time(release.max(last))?;
    in_time(Tick(later.0 + (cost * server.b).div_ceil(server.a)))
}
