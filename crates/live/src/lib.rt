// What the host is told: a status, which is never zero, and two numbers beside it. Here stand all statuses, and what the calls on a live run say.
// (docs/RULES.md, 1.15 and 9.12.)
#![tactic(auto)]

ghost use Rattle.std.specs.Prelude.{◌≡◌};
ghost use Rattle.kinds.specs.Numbering.{refused_says, without_place};
ghost use Rattle.run.specs.Answers.{release_says, tick_says, end_says};
ghost use Rattle.live.specs.Statuses.{status_number, as_said, start_said, release_said, tick_said, end_said};

use jobs::Finished;
use kinds::{Refusal, RefusedAt};
use run::{Accepted, Ticked};

// The statuses that are no refusal. (1.15, 9.12)
#[derive(Clone, Copy, Debug, PartialEq, Eq)]
pub enum Status {
    Feasible,
    Overloaded,
    InTime,
    Late,
    Started,
    Accepted,
    Idle,
    Ran,
    Finished,
    Taken,
    Ended,
}

impl Status {
    // The status's number. (1.15, 9.12)
    pub fn number(self) -> u32
        ensures { result ≡ status_number self }
    {
        match self {
            Status::Feasible => 20,
            Status::Overloaded => 21,
            Status::InTime => 22,
            Status::Late => 23,
            Status::Started => 33,
            Status::Accepted => 34,
            Status::Idle => 35,
            Status::Ran => 36,
            Status::Finished => 37,
            Status::Taken => 38,
            Status::Ended => 39,
        }
    }
}

// The number of a status or of a refusal, and the two numbers beside it. (9.4)
#[derive(Clone, Copy)]
pub struct Saying {
    pub number: u32,
    pub first: u64,
    pub second: u64,
}

impl Saying {
    // A status that is no refusal, with its two numbers. (9.4)
    pub fn new(status: Status, first: u64, second: u64) -> Saying
        ensures { result ≡ record { number = status_number status; first = first; second = second } }
    {
        Saying {
            number: status.number(),
            first,
            second,
        }
    }
}

impl From<RefusedAt> for Saying {
    ghost from_gives = { λ at said. as_said said ≡ refused_says at };

    // A refusal with a place says its number, its place and 0. (9.12)
    fn from(at: RefusedAt) -> Saying {
        Saying {
            number: at.refusal.number(),
            first: at.place as u64,
            second: 0,
        }
    }
}

impl From<Refusal> for Saying {
    ghost from_gives = { λ refusal said. as_said said ≡ refused_says (without_place refusal) };

    // A refusal that names no place says its number and place 0. (9.12, 10.2)
    fn from(refusal: Refusal) -> Saying {
        refusal.at(0).into()
    }
}

// What a start says. (9.10, 9.12)
pub fn start(answer: Result<(), RefusedAt>) -> Saying
    ensures { as_said result ≡ start_said answer }
{
    match answer {
        Ok(()) => Saying::new(Status::Started, 0, 0),
        Err(at) => at.into(),
    }
}

// What a release says. Its refusals name no place. (9.12, 10.2)
pub fn release(answer: Result<Accepted, Refusal>) -> Saying
    ensures { as_said result ≡ release_said (release_says answer) }
{
    match answer {
        Ok(job) => Saying::new(Status::Accepted, job.serial.0, job.due.0),
        Err(refusal) => refusal.into(),
    }
}

// What a tick says, with its late count. Its refusals name no place. (9.12, 10.2)
pub fn tick(answer: Ticked, late: u64) -> Saying
    ensures { as_said result ≡ tick_said (tick_says answer) late }
{
    match answer {
        Ticked::Idle => Saying::new(Status::Idle, 0, 0),
        Ticked::Ran(ran) => match ran.finished {
            Finished::No => Saying::new(Status::Ran, ran.serial.0, late),
            Finished::Yes => Saying::new(Status::Finished, ran.serial.0, late),
        },
        Ticked::Taken => Saying::new(Status::Taken, 0, late),
        Ticked::Refused(r) => r.into(),
    }
}

// What an end says. Its refusals name no place. (9.12, 10.2)
pub fn end(answer: Result<u64, Refusal>) -> Saying
    ensures { as_said result ≡ end_said (end_says answer) }
{
    match answer {
        Ok(units) => Saying::new(Status::Ended, units, 0),
        Err(r) => r.into(),
    }
}
