// Two tests of the serials of jobs: whether they rise from place to place, and whether no serial stands at two places. (docs/RULES.md, 6.22.)
ghost use Rattle.std.specs.Prelude.{◌≡◌};
ghost use Rattle.jobs.specs.Serials.{has_not, distinct_serials, rising_serials};

use crate::Job;
use kinds::Serial;

// `rising` tests that each serial is above the one before it. Serials that rise are distinct. (6.22)
pub(crate) fn rising(jobs: &[Job]) -> bool
    ensures { result ≡ rising_serials jobs.now }
{
    jobs.is_sorted_by(|job, next| job.serial < next.serial)
}

// `has_not` tests that no job has a serial. (6.22)
fn has_not(jobs: &[Job], serial: Serial) -> bool
    ensures { result ≡ has_not serial.0 jobs.now }
{
    jobs.iter().all(|job| job.serial != serial)
}

// `all_distinct` tests for each job that no later one has its serial. (6.22)
pub(crate) fn all_distinct(jobs: &[Job]) -> bool
    ensures { result ≡ distinct_serials jobs.now }
{
    for (i, job) in jobs.iter().enumerate() {
        if !has_not(&jobs[i + 1..], job.serial) {
            return false;
        }
    }
    true
}
