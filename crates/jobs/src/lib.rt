// Pending jobs: putting a job in, the choice of the job that goes first, giving one unit, taking a job out, counting the jobs that became late, and one tick.
// Nothing here knows about tables or about the clock's limit, so another kind of run can use it. (docs/RULES.md, section 6.)
#![tactic(auto)]

mod distinct;
mod one_job;

ghost use Rattle.std.specs.Prelude.{◌≡◌, ◌<◌, get_or};
ghost use Rattle.jobs.specs.Places.{max_places, no_job, empty_pending, jobs_of, used, put_step, taken_out, take_step};
ghost use Rattle.jobs.specs.Choice.{choice_of};
ghost use Rattle.jobs.specs.Units.{after, given};
ghost use Rattle.jobs.specs.Late.{late_count};
ghost use Rattle.jobs.specs.OneLook.{look_of};
ghost use Rattle.jobs.specs.Serials.{place_of, distinct_serials};
ghost use Rattle.jobs.specs.Turns.{turned};

use crate::distinct::{all_distinct, rising};
use crate::one_job::{finishes_when_due, goes_before, is_late, no_job, ran_of};
use kinds::{Refusal, RowNumber, Serial, Tick};

// A pending job holds what its release settled, and its units left. (1.7, 6.1)
#[repr(C)]
#[derive(Clone, Copy)]
pub struct Job {
    pub serial: Serial,
    pub row: RowNumber,
    pub release: Tick,
    pub due: Tick,
    pub cost: u64,
    pub left: u64,
}

// The pending jobs are those in the first `count` places. A count above the number of places means all of them. (6.1)
// There is a count beside the array, because C reads this struct. (9.16)
#[repr(C)]
#[derive(Clone, Copy)]
pub struct Pending {
    pub places: [Job; Pending::PLACES],
    pub count: usize,
}

// A job finishes when it gets its last unit. (6.13)
#[derive(Clone, Copy, Debug, PartialEq, Eq)]
pub enum Finished {
    Yes,
    No,
}

// The job that had a unit is named by its serial, with whether it finished. (6.12)
#[derive(Clone, Copy, Debug, PartialEq, Eq)]
pub struct Ran {
    pub serial: Serial,
    pub finished: Finished,
}

// The job that goes first, and its place. (6.11)
#[derive(Clone, Copy)]
struct FirstJob {
    place: usize,
    job: Job,
}

// One look at the pending jobs finds the job that goes first, if one is pending. It counts the jobs that become late at a clock if none of them gets a unit
// before. (6.11, 6.14)
#[derive(Clone, Copy)]
struct Look {
    first: Option<FirstJob>,
    late: u64,
}

// The pending jobs after a job was put in, or was refused because all places are in use. (6.7, 6.8)
#[derive(Clone, Copy)]
pub struct PutStep {
    pub pending: Pending,
    pub answer: Result<(), Refusal>,
}

// The pending jobs after the job at a place was taken out, and that job. The answer is `None` if nobody was pending there. (6.13, 10.7)
#[derive(Clone, Copy)]
pub struct TakeStep {
    pub pending: Pending,
    pub answer: Option<Job>,
}

// The pending jobs after a unit was given to the job at a place, and what it made of that job. The answer is `None` if nobody was pending there. (6.12, 10.7)
#[derive(Clone, Copy)]
pub struct Given {
    pub pending: Pending,
    pub answer: Option<Ran>,
}

// A tick gives the pending jobs after it, the job that had the unit, and how many jobs became late. It is idle, and `turn` is `None`, exactly when nothing is
// pending. (6.12, 6.14)
#[derive(Clone, Copy)]
pub struct Turned {
    pub pending: Pending,
    pub turn: Option<Ran>,
    pub late: u64,
}

impl Pending {
    // At most this many jobs are pending. (6.1, 6.2)
    pub const PLACES: usize = 256;

    // The contract ties the limit in the code to that in the definitions.
    pub fn limit() -> usize
        ensures { result ≡ max_places }
    {
        Pending::PLACES
    }

    // No job is pending, and every place holds zeros. (6.3)
    pub fn empty() -> Pending
        ensures { result ≡ empty_pending }
    {
        Pending {
            places: [no_job(); Pending::PLACES],
            count: 0,
        }
    }

    // The pending jobs are those in the places in use. (6.1)
    pub fn jobs(&self) -> &[Job]
        ensures { result.now ≡ jobs_of self.now }
    {
        &self.places[..self.count.min(Pending::PLACES)]
    }

    // The job goes into the first unused place. If there is none, that is refusal 8, and nothing changes. (6.7, 6.8, 10.7)
    #[tactic(auto, unfolding(crate::specs::Places::put, crate::specs::Places::put_step))]
    pub fn put(mut self, job: Job) -> PutStep
        ensures { result ≡ put_step self job }
    {
        if Pending::PLACES <= self.count {
            return PutStep {
                pending: self,
                answer: Err(Refusal::PlacesFull),
            };
        }
        self.places[self.count] = job;
        self.count += 1;
        PutStep {
            pending: self,
            answer: Ok(()),
        }
    }

    // One look at each pending job finds the one that goes first, and counts those that are unfinished and whose due time equals the clock. (6.11, 6.14)
    fn look(&self, clock: Tick) -> Look
        ensures { result ≡ look_of clock.0 (jobs_of self.now) }
    {
        let jobs = self.jobs();
        if jobs.is_empty() {
            return Look {
                first: None,
                late: 0,
            };
        }
        let mut place: usize = 0;
        let mut best = jobs[0];
        let mut late: u64 = 0;
        for (i, &job) in jobs.iter().enumerate() {
            if is_late(job, clock) {
                late += 1;
            }
            if goes_before(job, best) {
                place = i;
                best = job;
            }
        }
        Look {
            first: Some(FirstJob { place, job: best }),
            late,
        }
    }

    // The job with the earliest due time goes first, and among equal due times the one with the lowest serial. (6.11)
    pub fn choice(self) -> Option<usize>
        ensures { result ≡ choice_of (jobs_of self) }
    {
        self.look(Tick(0)).first.map(|first| first.place)
    }

    // The late count is the number of jobs that are unfinished and whose due time equals the clock. (6.14)
    pub fn late(self, clock: Tick) -> u64
        ensures { result ≡ late_count clock.0 (jobs_of self) }
    {
        self.look(clock).late
    }

    // Without the job at a place, the jobs in later places move down one place, and the place that this frees holds zeros. (6.13)
    fn without(mut self, at: usize) -> Pending
        requires { at < used self }
        ensures { result ≡ taken_out self at }
    {
        let used = self.jobs().len();
        self.places.copy_within(at + 1..used, at);
        self.places[used - 1] = no_job();
        self.count = used - 1;
        self
    }

    // The job at a place is taken out and handed back. The jobs in later places move down one place, and the place that this frees holds zeros. (6.13)
    #[tactic(auto, unfolding(crate::specs::Places::taken_out, crate::specs::Places::take_step))]
    pub fn take_out(self, at: usize) -> TakeStep
        ensures { result ≡ take_step self at }
    {
        if at >= self.jobs().len() {
            return TakeStep {
                pending: self,
                answer: None,
            };
        }
        TakeStep {
            answer: Some(self.places[at]),
            pending: self.without(at),
        }
    }

    // `job`, which is the job at a place, gets one unit, and is taken out if that was its last. (6.10, 6.13)
    #[tactic(auto, unfolding(crate::specs::Units::after))]
    fn after(mut self, at: usize, mut job: Job) -> Pending
        requires { (at < used self) × (job ≡ get_or self.places at no_job) }
        ensures { result ≡ after self at }
    {
        if job.left <= 1 {
            return self.without(at);
        }
        job.left -= 1;
        self.places[at] = job;
        self.count = self.jobs().len();
        self
    }

    // The job at a place gets one unit. If nobody is pending there, that is the answer, and nothing changes. (6.10, 10.7)
    #[tactic(auto, unfolding(crate::specs::Units::given))]
    pub fn give(self, at: usize) -> Given
        ensures { result ≡ given self at }
    {
        if at >= self.jobs().len() {
            return Given {
                pending: self,
                answer: None,
            };
        }
        let job = self.places[at];
        Given {
            answer: Some(ran_of(job)),
            pending: self.after(at, job),
        }
    }

    // The place of the pending job that has a serial, or nobody. (6.27)
    pub fn place_of(self, serial: Serial) -> Option<usize>
        ensures { result ≡ place_of serial.0 (jobs_of self) }
    {
        self.jobs().iter().position(|job| job.serial == serial)
    }

    // `distinct` tests that no two jobs have the same serial. In a run that came from a fresh one the serials rise from place to place, and comparing
    // neighbours is enough. Otherwise every two are compared. (6.22)
    pub fn distinct(self) -> bool
        ensures { result ≡ distinct_serials (jobs_of self) }
    {
        rising(self.jobs()) || all_distinct(self.jobs())
    }

    // One tick takes the clock to `clock`. The job that goes first gets a unit, if one is pending. The jobs that became late were counted by the same look that
    // found it. The one that finishes now is no longer one of them. (6.10 to 6.14)
    pub fn tick(self, clock: Tick) -> Turned
        ensures { result ≡ turned self clock.0 }
    {
        let look = self.look(clock);
        match look.first {
            None => Turned {
                pending: self,
                turn: None,
                late: 0,
            },
            Some(first) => {
                let mut late = look.late;
                if finishes_when_due(first.job, clock) {
                    late -= 1;
                }
                Turned {
                    turn: Some(ran_of(first.job)),
                    late,
                    pending: self.after(first.place, first.job),
                }
            }
        }
    }
}
