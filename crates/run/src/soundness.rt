// What soundness asks of each pending job, of each row and of its kept due times, and of each server and of its last due time. (docs/RULES.md, 6.21, 6.22 and
// 6.24.)
ghost use Rattle.std.specs.Prelude.{◌≡◌, ◌&&◌, ◌≤◌};
ghost use Rattle.table.specs.Costs.{cost_limits};
ghost use Rattle.table.specs.Limits.{max_rows, max_servers};
ghost use Rattle.jobs.specs.Places.{jobs_of};
ghost use Rattle.jobs.specs.Serials.{distinct_serials};
ghost use Rattle.run.specs.Sound.{job_fits, jobs_sound, rows_sound, servers_sound};

use due::Kept;
use jobs::{Job, Pending};
use kinds::{Serial, Tick};
use table::{Row, Server, Table};

// Every pending job is sound, and no two have the same serial. In a run that came from a fresh one the serials rise from place to place, so one look at each
// job tests all of it. Otherwise every two serials are compared. (6.22)
pub(crate) fn jobs_sound(table: &Table, clock: Tick, next: Serial, pending: &Pending) -> bool
    requires { (table.now.count ≤ max_rows) × (table.now.serving ≤ max_servers) }
    ensures { result ≡ (jobs_sound (cost_limits table.now) clock.0 next.0 (jobs_of pending.now) && distinct_serials (jobs_of pending.now)) }
{
    let limits = table.cost_limits();
    let used = &limits[..table.count + table.serving];
    let mut rising = true;
    let mut lowest: u64 = 0;
    for &job in pending.jobs() {
        let limit = table::limit_of(used, job.row);
        if let Err(_) = table::cost_answer(limit, job.cost) {
            return false;
        }
        if !job_fits(job, clock, next) {
            return false;
        }
        if job.serial.0 < lowest {
            rising = false;
        }
        lowest = job.serial.0 + 1;
    }
    rising || pending.distinct()
}

// What soundness asks of a pending job, apart from its row and its cost. (6.22)
#[tactic(auto, unfolding(crate::specs::Sound::job_fits))]
fn job_fits(job: Job, clock: Tick, next: Serial) -> bool
    ensures { result ≡ job_fits clock.0 next.0 job }
{
    job.release <= clock
        && (1 <= job.left && job.left <= job.cost)
        && job.due.0 <= Tick::MAX
        && job.serial < next
}

// Each row is one that a table may have, and has at most x due times kept, none of them above 2^40. (6.21, 6.24)
pub(crate) fn rows_sound(rows: &[Row], kept: &[Kept]) -> bool
    ensures { result ≡ rows_sound rows.now kept.now }
{
    rows.iter()
        .zip(kept)
        .all(|(row, times)| row.acceptable() && times.sound(*row))
}

// Each server is one that a table may have, and its last due time is not above 2^40. (6.21, 6.24)
pub(crate) fn servers_sound(servers: &[Server], last: &[Tick]) -> bool
    ensures { result ≡ servers_sound servers.now last.now }
{
    servers
        .iter()
        .zip(last)
        .all(|(server, due)| server.in_range() && due.0 <= Tick::MAX)
}
