// Functions of one job or two: what an unused place holds, which of two jobs goes first, whether a job becomes late or finishes when it is due, and what is
// answered when it gets a unit. (docs/RULES.md, 6.11 to 6.14.)
ghost use Rattle.std.specs.Prelude.{◌≡◌};
ghost use Rattle.jobs.specs.Places.{no_job};
ghost use Rattle.jobs.specs.Choice.{goes_before};
ghost use Rattle.jobs.specs.Late.{is_late};
ghost use Rattle.jobs.specs.OneLook.{finishes_when_due};
ghost use Rattle.jobs.specs.Units.{ran_of};

use crate::{Finished, Job, Ran};
use kinds::{RowNumber, Serial, Tick};

// An unused place holds zeros. (6.13)
pub(crate) fn no_job() -> Job
    ensures { result ≡ no_job }
{
    Job {
        serial: Serial(0),
        row: RowNumber(0),
        release: Tick(0),
        due: Tick(0),
        cost: 0,
        left: 0,
    }
}

// The earlier due time goes first, and among equal due times the lower serial. (6.11)
#[tactic(auto, unfolding(crate::specs::Choice::goes_before))]
pub(crate) fn goes_before(a: Job, b: Job) -> bool
    ensures { result ≡ goes_before a b }
{
    (a.due, a.serial) < (b.due, b.serial)
}

// A job becomes late if it is unfinished and its due time equals the clock. (1.9, 6.14)
pub(crate) fn is_late(job: Job, clock: Tick) -> bool
    ensures { result ≡ is_late clock.0 job }
{
    job.due == clock && 0 < job.left
}

// A job that gets a unit finishes when it is due if that unit is its last and its due time equals the clock. Without the unit it would become late. (6.13, 6.14)
pub(crate) fn finishes_when_due(job: Job, clock: Tick) -> bool
    ensures { result ≡ finishes_when_due clock.0 job }
{
    job.left <= 1 && is_late(job, clock)
}

// For a job that gets a unit, its serial is answered, and whether it finished. (6.12)
pub(crate) fn ran_of(job: Job) -> Ran
    ensures { result ≡ ran_of job }
{
    Ran {
        serial: job.serial,
        finished: if job.left <= 1 {
            Finished::Yes
        } else {
            Finished::No
        },
    }
}
