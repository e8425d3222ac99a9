// The run is the scheduler's state. Each call takes any run by value, tests that it is sound, and hands back the next run beside its answer.
// (docs/RULES.md, section 6.)
#![tactic(auto)]

mod soundness;

ghost use Rattle.std.specs.Prelude.{◌≡◌};
ghost use Rattle.run.specs.Runs.{fresh_run, started};
ghost use Rattle.run.specs.Sound.{sound_of, Whole};
ghost use Rattle.run.specs.Release.{refused_release, released};
ghost use Rattle.run.specs.Ticking.{ticked};
ghost use Rattle.run.specs.Ending.{refused_end, ended};

use crate::soundness::{jobs_sound, rows_sound, servers_sound};
use due::Kept;
use jobs::{Job, Pending, Ran};
use kinds::{Refusal, RefusedAt, RowNumber, Serial, Tick};
use table::Table;

// A run holds its table, which is the timer, the rows and the servers, the clock, the pending jobs, the next serial, the kept due times of each row, the last
// due time of each server, and how many jobs were ended early. In memory it is a list of numbers of eight bytes, in this order. (6.1, 9.16)
#[repr(C)]
#[derive(Clone, Copy)]
pub struct Run {
    pub table: Table,
    pub clock: Tick,
    pub pending: Pending,
    pub next: Serial,
    pub kept: [Kept; Table::MAX_ROWS],
    pub last: [Tick; Table::MAX_SERVERS],
    pub ended: u64,
}

// The run that was started, beside the answer. After a refusal it is the fresh run of the empty table. (6.4)
#[derive(Clone, Copy)]
pub struct Started {
    pub run: Run,
    pub answer: Result<(), RefusedAt>,
}

// What an accepted release answers: the job's serial and its due time. (6.6)
#[derive(Clone, Copy)]
pub struct Accepted {
    pub serial: Serial,
    pub due: Tick,
}

// The next run after a release, beside the answer. Beside a refusal it is the run as it was. (6.18, 6.19)
#[derive(Clone, Copy)]
pub struct ReleaseStep {
    pub run: Run,
    pub answer: Result<Accepted, Refusal>,
}

// The answer of a tick: it was idle, a job had the unit, the timer took it, or it was refused. The rules name these four answers side by side, and one match
// tells them apart. (6.12, 6.16)
#[derive(Clone, Copy)]
pub enum Ticked {
    Idle,
    Ran(Ran),
    Taken,
    Refused(Refusal),
}

// The next run after a tick, beside the answer and the late count. The late count is answered whatever the answer is. (6.14, 6.19)
#[derive(Clone, Copy)]
pub struct TickStep {
    pub run: Run,
    pub answer: Ticked,
    pub late: u64,
}

// The next run after an end, beside the answer. Beside a refusal it is the run as it was. (6.18, 6.19)
#[derive(Clone, Copy)]
pub struct EndStep {
    pub run: Run,
    pub answer: Result<u64, Refusal>,
}

// Starts a run on a table's bytes. An accepted table, an overloaded one too, gives its fresh run. Other bytes give the table's refusal, with the fresh run of
// the empty table. (6.4)
pub fn start(bytes: &[u8]) -> Started
    ensures { result ≡ started bytes.now }
{
    let read = table::read_table(bytes);
    Started {
        run: Run::fresh(read.table),
        answer: read.answer.map(|_| ()),
    }
}

impl Run {
    // No more jobs than this are pending. (6.2)
    pub const MAX_PENDING: usize = Pending::PLACES;

    // The clock is at most 2^40. (6.2)
    pub const MAX_CLOCK: u64 = Tick::MAX;

    // At most 2^40 jobs are ended early. (6.23)
    pub const MAX_ENDED: u64 = Tick::MAX;

    // The fresh run of a table. (6.2, 6.3)
    pub fn fresh(table: Table) -> Run
        ensures { result ≡ fresh_run table }
    {
        Run {
            table,
            clock: Tick(0),
            pending: Pending::empty(),
            next: Serial(0),
            kept: [Kept::empty(); Table::MAX_ROWS],
            last: [Tick(0); Table::MAX_SERVERS],
            ended: 0,
        }
    }

    // Whether the run is sound. The second clause holds whatever the answer is: the run's arrays have all their places. (6.20)
    #[tactic(auto, unfolding(crate::specs::Sound::sound_of))]
    pub fn sound(self) -> bool
        ensures value { result ≡ sound_of self }
        ensures whole { Whole self }
    {
        table::timer_in_range(self.table.s, self.table.p)
            && self.table.count <= Table::MAX_ROWS
            && self.table.serving <= Table::MAX_SERVERS
            && self.clock.0 <= Run::MAX_CLOCK
            && self.pending.count <= Run::MAX_PENDING
            && self.ended <= Run::MAX_ENDED
            && rows_sound(&self.table.rows[..self.table.count], &self.kept)
            && servers_sound(&self.table.servers[..self.table.serving], &self.last)
            && jobs_sound(&self.table, self.clock, self.next, &self.pending)
            && self.next.0 <= self.clock.0 + self.pending.count as u64 + self.ended
    }

    // Releases a job of a row or of a server at the clock. It answers the job's serial and due time, or refuses with 11, 6, 7, 8 or 9, in this order. A
    // refused release leaves the run unchanged. (6.6 to 6.8, 6.18)
    pub fn release(mut self, row: RowNumber, cost: u64) -> ReleaseStep
        ensures { result ≡ released self row.0 cost }
    {
        if !self.sound() {
            return refused_release(self, Refusal::RunNotSound);
        }
        let limits = self.table.cost_limits();
        let used = self.table.count + self.table.serving;
        let limit = table::limit_of(&limits[..used], row);
        if let Err(r) = table::cost_answer(limit, cost) {
            return refused_release(self, r);
        }
        if Run::MAX_PENDING <= self.pending.count {
            return refused_release(self, Refusal::PlacesFull);
        }
        let at = row.0 as usize;
        let count = self.table.count;
        let given = if at < count {
            self.kept[at].due(self.table.rows[at], self.clock, cost)
        } else {
            due::odd_due(
                self.table.servers[at - count],
                self.last[at - count],
                self.clock,
                cost,
            )
        };
        let due = match given {
            Ok(due) => due,
            Err(r) => return refused_release(self, r),
        };
        // A place is unused and the row or server is in range, so the job is put in and its due time is kept.
        let serial = self.next;
        let put = self.pending.put(Job {
            serial,
            row,
            release: self.clock,
            due,
            cost,
            left: cost,
        });
        self.pending = put.pending;
        if at < count {
            let keep = self.kept[at].keep(self.table.rows[at], due);
            self.kept[at] = keep.kept;
        } else {
            self.last[at - count] = due;
        }
        self.next = Serial(serial.0 + 1);
        ReleaseStep {
            run: self,
            answer: Ok(Accepted { serial, due }),
        }
    }

    // Lets one tick go by. It refuses with 11 or 10, in this order, and a refused tick leaves the run unchanged. A tick that the timer takes gives no unit, and
    // any other gives one unit to the chosen job, if one is pending. (6.5, 6.10 to 6.14, 6.16, 6.18)
    pub fn tick(mut self) -> TickStep
        ensures { result ≡ ticked self }
    {
        if !self.sound() {
            return TickStep {
                run: self,
                answer: Ticked::Refused(Refusal::RunNotSound),
                late: 0,
            };
        }
        let clock = self.clock;
        if Run::MAX_CLOCK <= clock.0 {
            return TickStep {
                run: self,
                answer: Ticked::Refused(Refusal::TimeTooLate),
                late: 0,
            };
        }
        let later = Tick(clock.0 + 1);
        self.clock = later;
        if clock.0 % self.table.p < self.table.s {
            let late = self.pending.late(later);
            return TickStep {
                run: self,
                answer: Ticked::Taken,
                late,
            };
        }
        let turned = self.pending.tick(later);
        self.pending = turned.pending;
        TickStep {
            run: self,
            answer: match turned.turn {
                None => Ticked::Idle,
                Some(ran) => Ticked::Ran(ran),
            },
            late: turned.late,
        }
    }

    // Ends the pending job that has a serial before it has had its cost. It answers the units that the job was given so far, or refuses with 11, 17 or 18, in
    // this order. A refused end leaves the run unchanged. (6.18, 6.27 to 6.30)
    pub fn end(self, serial: Serial) -> EndStep
        ensures { result ≡ ended self serial.0 }
    {
        if !self.sound() {
            return refused_end(self, Refusal::RunNotSound);
        }
        // The pending jobs stand in a variable: `run.pending` in its place would take one more copy of the run, and nearly twice the time.
        let mut run = self;
        let pending = run.pending;
        let Some(at) = pending.place_of(serial) else {
            return refused_end(run, Refusal::NotPending);
        };
        if Run::MAX_ENDED <= run.ended {
            return refused_end(run, Refusal::TooManyEnded);
        }
        let job = pending.places[at];
        let step = pending.take_out(at);
        run.pending = step.pending;
        run.ended += 1;
        EndStep {
            run,
            answer: Ok(job.cost - job.left),
        }
    }
}

// A refused end leaves the run unchanged. Its step is of another type than that of a refused release. (6.18)
fn refused_end(run: Run, refusal: Refusal) -> EndStep
    ensures { result ≡ refused_end run refusal }
{
    EndStep {
        run,
        answer: Err(refusal),
    }
}

// A refused release leaves the run unchanged. (4.4, 6.18)
fn refused_release(run: Run, refusal: Refusal) -> ReleaseStep
    ensures { result ≡ refused_release run refusal }
{
    ReleaseStep {
        run,
        answer: Err(refusal),
    }
}
