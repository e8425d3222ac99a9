// Pending jobs in arrays of numbers, one array for each field of a job. They stand in the order in which they are chosen, so that the first of them goes
// first. A job is put in where it belongs, and ticks are given until a job finishes. Nothing here depends on tables, scripts or logs, and no call copies an
// array. (docs/RULES.md, section 6.)
#![tactic(auto)]

mod places;

ghost use Rattle.std.specs.Prelude.{◌≡◌};
ghost use Rattle.columns.specs.Columns.{empty_columns, put_in, put_answer};
ghost use Rattle.columns.specs.Ticks.{work_on, work_answer};

use crate::places::{move_down, open_up, place_for, start_of, units_to_go};
use jobs::{Job, Pending};
use kinds::{Finish, Refusal, RowNumber, Serial, Tick};

// The entries of each array: twice as many as there are places, so that a job that leaves at the front seldom makes the others move.
pub const ROOM: usize = 2 * Pending::PLACES;

// Pending jobs in five arrays of numbers, one array for each field of a job that is still needed. They stand in the order in which they are chosen, from the
// entry `first` on, as many as the count says. A count above the number of places means all of them, and jobs that would reach past the end are the last
// entries. (6.1)
// There are five arrays, and not one of jobs: the search for a job's place reads due times and serials alone, which then lie close together.
#[derive(Drop)]
pub struct Columns {
    pub serials: [u64; ROOM],
    pub rows: [u64; ROOM],
    pub releases: [u64; ROOM],
    pub dues: [u64; ROOM],
    pub left: [u64; ROOM],
    pub first: usize,
    pub count: usize,
}

// What some ticks have led to: the clock, and the job that finished, if one did.
#[derive(Clone, Copy)]
pub struct Worked {
    pub clock: Tick,
    pub finished: Option<Finish>,
}

impl Columns {
    // No job is pending, and every entry is 0. (6.3)
    pub fn empty() -> Columns
        ensures { result ≡ empty_columns }
    {
        Columns {
            serials: [0; ROOM],
            rows: [0; ROOM],
            releases: [0; ROOM],
            dues: [0; ROOM],
            left: [0; ROOM],
            first: 0,
            count: 0,
        }
    }

    // Puts a job in behind those that are chosen before it. Where all places are in use, that is refusal 8, and nothing changes. Where no entry is left behind
    // the last job, all jobs move to the front first. (6.7, 6.8, 6.11, 10.7)
    pub fn put(&mut self, job: Job) -> Result<(), Refusal>
        ensures answer { result ≡ put_answer self.old }
        ensures columns { self.new ≡ put_in self.old job }
    {
        if Pending::PLACES <= self.count {
            return Err(Refusal::PlacesFull);
        }
        let count = self.count;
        let mut start = start_of(self.first, count);
        if start + count == ROOM {
            move_down(&mut self.serials, start, count);
            move_down(&mut self.rows, start, count);
            move_down(&mut self.releases, start, count);
            move_down(&mut self.dues, start, count);
            move_down(&mut self.left, start, count);
            start = 0;
        }
        let at = place_for(
            &self.dues,
            &self.serials,
            start,
            count,
            job.due.0,
            job.serial.0,
        );
        let end = start + count;
        open_up(&mut self.serials, at, end, job.serial.0);
        open_up(&mut self.rows, at, end, job.row.0);
        open_up(&mut self.releases, at, end, job.release.0);
        open_up(&mut self.dues, at, end, job.due.0);
        open_up(&mut self.left, at, end, job.left);
        self.first = start;
        self.count = count + 1;
        Ok(())
    }

    // Gives ticks until a job finishes, until the clock is at `until`, or until nothing is pending. All of them go to the first job, so they are counted in one
    // step. (6.10 to 6.13)
    pub fn work(&mut self, clock: Tick, until: Tick) -> Worked
        ensures answer { result ≡ work_answer self.old clock.0 until.0 }
        ensures columns { self.new ≡ work_on self.old clock.0 until.0 }
    {
        let many = self.count.min(Pending::PLACES);
        let at = start_of(self.first, many);
        self.first = at;
        self.count = many;
        if many == 0 || until <= clock {
            return Worked {
                clock,
                finished: None,
            };
        }
        let ticks = until.0 - clock.0;
        let units = units_to_go(self.left[at]);
        if ticks < units {
            self.left[at] = units - ticks;
            return Worked {
                clock: until,
                finished: None,
            };
        }
        let end = Tick(clock.0 + units);
        self.first = at + 1;
        self.count = many - 1;
        Worked {
            clock: end,
            finished: Some(Finish {
                serial: Serial(self.serials[at]),
                row: RowNumber(self.rows[at]),
                release: Tick(self.releases[at]),
                due: Tick(self.dues[at]),
                finish: end,
            }),
        }
    }
}
