// Ticks on pending jobs that stand in arrays. Each job that finishes gets its record in the log. Jobs get free ticks alone, so these are counted, and the ticks
// that the timer takes are crossed in one go. (docs/RULES.md, 6.5, 6.10 to 6.13, 8.4 and 8.8 to 8.13.)
ghost use Rattle.std.specs.Prelude.{◌≡◌, ◌+◌, ◌-◌, ◌^◌, ◌≤◌, ◌<◌, length};
ghost use Rattle.kinds.specs.Numbering.{max_time};
ghost use Rattle.theory.specs.Ticks.{free_before, timer, free_tick_at};
ghost use Rattle.replay.specs.Arrays.{OneLogged, tick_arrays, InBounds, LeadsTo};

use crate::{Logged, Timer};
use columns::Columns;
use kinds::{Finish, Tick};

impl Logged {
    // Counts a job that finished if it is late, and writes its record behind the last one. Where the record does not fit, the log is full from then on. (8.9,
    // 8.13, 8.14)
    fn add(&mut self, log: &mut [u8], job: Finish)
        requires { (self.old.length ≤ length log.old) × (self.old.late + 1 ≤ 2 ^ 63) }
        ensures { OneLogged self.old job log.old log.new self.new }
    {
        if job.due < job.finish {
            self.late += 1;
        }
        if self.full {
            return;
        }
        match logs::write_record(&mut log[self.length..], job) {
            Ok(n) => self.length += n,
            Err(_) => self.full = true,
        }
    }
}

impl Timer {
    // How many of the ticks before a time are free: the timer takes the first s of every p. (6.5)
    fn free_before(self, time: u64) -> u64
        ensures { result ≡ free_before (timer self.s self.p) time }
    {
        if self.s == 0 {
            return time;
        }
        let taken = time / self.p * self.s;
        time - taken - self.s.min(time % self.p)
    }

    // The time right after the n-th free tick, counted from 1: the finish of a job that has this tick for its last unit. (6.5, 6.13)
    fn after_free(self, n: u64) -> u64
        requires { (1 ≤ n) × (n ≤ max_time) }
        ensures { result ≡ free_tick_at self.s self.p (n - 1) + 1 }
    {
        if self.s == 0 {
            return n;
        }
        let earlier = n - 1;
        let free = self.p - self.s;
        let start = earlier / free * self.p;
        start + self.s + earlier % free + 1
    }
}

// Ticks until the clock is at `until`, or until nothing is pending, whichever comes first. Each job that finishes is logged. The answer is the clock. The timer
// takes the first s ticks of every p. `Columns::work` gets the number of free ticks before the clock for its clock, since jobs get these ticks and no others.
// (6.5, 8.2 to 8.4)
pub(crate) fn run_until(
    jobs: &mut Columns,
    log: &mut [u8],
    logged: &mut Logged,
    timer: Timer,
    clock: Tick,
    until: Tick,
) -> Tick
    requires { (until.0 ≤ max_time) × InBounds (tick_arrays jobs.old log.old clock.0 logged.old) }
    ensures { (length log.new ≡ length log.old)
        × LeadsTo timer.s timer.p until.0 (tick_arrays jobs.old log.old clock.0 logged.old) (tick_arrays jobs.new log.new result.0 logged.new) }
{
    if until <= clock {
        return clock;
    }
    let end = Tick(timer.free_before(until.0));
    let mut free = Tick(timer.free_before(clock.0));
    let mut clock = clock;
    while 0 < jobs.count {
        let worked = jobs.work(free, end);
        let job = match worked.finished {
            Some(job) => job,
            None => return until,
        };
        free = worked.clock;
        clock = Tick(timer.after_free(free.0));
        let finished = Finish {
            finish: clock,
            ..job
        };
        logged.add(log, finished);
    }
    clock
}
