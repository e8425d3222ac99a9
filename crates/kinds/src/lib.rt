// The kinds that every crate uses: the three kinds of number that must never be mixed up, what is known about a finished job, and the refusals.
#![tactic(auto)]

ghost use Rattle.std.specs.Prelude.{◌≡◌};
ghost use Rattle.kinds.specs.Numbering.{max_time, refusal_number};

// The serial of a job. Accepted jobs are numbered from 0 in the order in which they are accepted, over all rows. (1.5, 1.14)
#[repr(C)]
#[derive(Clone, Copy, Debug, PartialEq, Eq, PartialOrd, Ord)]
pub struct Serial(pub u64);

// A row number: a row's position in its table, counted from 0. (1.2, 1.14)
#[repr(C)]
#[derive(Clone, Copy, Debug, PartialEq, Eq, PartialOrd, Ord)]
pub struct RowNumber(pub u64);

// A time, as a number of ticks since 0: a clock, a release, a due time or a finish. (1.3, 1.14)
#[repr(C)]
#[derive(Clone, Copy, Debug, PartialEq, Eq, PartialOrd, Ord)]
pub struct Tick(pub u64);

impl Tick {
    // The largest time, 2^40. No clock, script time or due time may be above it. (4.7, 6.1, 8.6)
    pub const MAX: u64 = 0x100_0000_0000;

    // Returns the code's limit, so that the contract can say that it equals the rules' limit.
    pub fn max() -> u64
        ensures { result ≡ max_time }
    {
        Tick::MAX
    }
}

// What a log's record says about one finished job. The job got its last unit in the tick that ended at `finish`. (6.13, 8.8)
#[derive(Clone, Copy)]
pub struct Finish {
    pub serial: Serial,
    pub row: RowNumber,
    pub release: Tick,
    pub due: Tick,
    pub finish: Tick,
}

// Why a call refuses. There is one case for each refusal, with the name that the rules give it. (10.1, 10.3)
#[derive(Clone, Copy, Debug, PartialEq, Eq)]
pub enum Refusal {
    Misspelled,
    TooManyRows,
    ValueOutOfRange,
    ExtraBytes,
    PeriodTooLong,
    NoSuchRow,
    CostOutOfRange,
    PlacesFull,
    DueTooLate,
    TimeTooLate,
    RunNotSound,
    NoRoom,
    AnswerNot16Bytes,
    ScriptMisspelled,
    HopelessRow,
    NotPending,
    TooManyEnded,
    NumberTooBig,
}

// A refusal, and the place in the lent bytes that its rule names. (10.2)
#[derive(Clone, Copy, Debug, PartialEq, Eq)]
pub struct RefusedAt {
    pub refusal: Refusal,
    pub place: usize,
}

impl Refusal {
    // This refusal, at a place in the lent bytes. (10.2)
    pub fn at(self, place: usize) -> RefusedAt
        ensures { result ≡ record { refusal = self; place = place } }
    {
        RefusedAt {
            refusal: self,
            place,
        }
    }

    // The refusal's number. (10.3)
    pub fn number(self) -> u32
        ensures { result ≡ refusal_number self }
    {
        match self {
            Refusal::Misspelled => 1,
            Refusal::TooManyRows => 2,
            Refusal::ValueOutOfRange => 3,
            Refusal::ExtraBytes => 4,
            Refusal::PeriodTooLong => 5,
            Refusal::NoSuchRow => 6,
            Refusal::CostOutOfRange => 7,
            Refusal::PlacesFull => 8,
            Refusal::DueTooLate => 9,
            Refusal::TimeTooLate => 10,
            Refusal::RunNotSound => 11,
            Refusal::NoRoom => 12,
            Refusal::AnswerNot16Bytes => 13,
            Refusal::ScriptMisspelled => 14,
            Refusal::HopelessRow => 16,
            Refusal::NotPending => 17,
            Refusal::TooManyEnded => 18,
            Refusal::NumberTooBig => 25,
        }
    }
}
