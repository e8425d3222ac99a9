// The playing of a record that passed its tests: the ticks until its script time, and its release. (docs/RULES.md, 6.6 to 6.9, 8.2 and 8.5.)
ghost use Rattle.std.specs.Prelude.{◌≡◌, ◌<◌, length, get_or};
ghost use Rattle.table.specs.Limits.{max_servers};
ghost use Rattle.due.specs.OddJobs.{odd_due_of};
ghost use Rattle.replay.specs.Arrays.{lasts_after_due, PlaceInRange, CanGo, RecordPlayed};

use crate::ticks::run_until;
use crate::{Going, ServerOf, Source, Timer};
use jobs::{Job, Pending};
use kinds::{Refusal, RefusedAt, Serial, Tick};
use records::Ready;
use table::Table;

// The due time of a server's next job, by the server's last due time. A due time that is given becomes the last due time, and a refusal changes nothing. (4.4,
// 4.9)
fn next_odd(
    lasts: &mut [Tick; Table::MAX_SERVERS],
    odd: ServerOf,
    release: Tick,
    cost: u64,
) -> Result<Tick, Refusal>
    requires { odd.place < max_servers }
    ensures { (result ≡ odd_due_of odd.server (get_or lasts.old odd.place (record { 0 = 0 })).0 release.0 cost)
        × (lasts.new ≡ lasts_after_due result lasts.old odd.place) }
{
    let due = due::odd_due(odd.server, lasts[odd.place], release, cost)?;
    lasts[odd.place] = due;
    Ok(due)
}

// Plays a record whose numbers passed their tests: it ticks until the record's script time, and then releases the record's job. Time in which nothing is
// pending is crossed in one go. `source` is the record's row or server, and `place` is the record's start, at which 8 and 9 are refused. (8.2, 8.4, 8.5)
pub(crate) fn play_record(
    going: &mut Going,
    log: &mut [u8],
    timer: Timer,
    ready: Ready,
    source: Source,
    place: usize,
) -> Result<(), RefusedAt>
    requires { PlaceInRange source × CanGo log.old going.old ready }
    ensures { (length log.new ≡ length log.old)
        × RecordPlayed timer.s timer.p place ready source log.old log.new going.old going.new result }
{
    run_until(
        &mut going.jobs,
        log,
        &mut going.logged,
        timer,
        going.clock,
        ready.time,
    );
    if Pending::PLACES <= going.jobs.count {
        return Err(Refusal::PlacesFull.at(place));
    }
    let given = match source {
        Source::Row(row) => going.rings.next_due(ready.row, row, ready.time, ready.cost),
        Source::Server(odd) => next_odd(&mut going.lasts, odd, ready.time, ready.cost),
    };
    let due = match given {
        Ok(due) => due,
        Err(refusal) => return Err(refusal.at(place)),
    };
    let job = Job {
        serial: going.next,
        row: ready.row,
        release: ready.time,
        due,
        cost: ready.cost,
        left: ready.cost,
    };
    match going.jobs.put(job) {
        Ok(()) => {
            going.clock = ready.time;
            going.next = Serial(going.next.0 + 1);
            Ok(())
        }
        Err(refusal) => Err(refusal.at(place)),
    }
}
