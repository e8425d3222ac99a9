// The due times of a row: those that are kept, the due time of a release, and keeping one more; and the due time of a server's job. No run is needed.
// (docs/RULES.md, section 4.)
#![tactic(auto)]

mod servers;

ghost use Rattle.std.specs.Prelude.{◌≡◌};
ghost use Rattle.due.specs.Kept.{max_kept, nothing_kept, not_too_late, due_of, keep_step, kept_sound};

use kinds::{Refusal, Tick};
pub use servers::odd_due;
use table::Row;

// The first `count` times are the due times of a row's newest accepted jobs, oldest first. A count above the array's length means all of the array. (4.6)
// There is a count beside the array, because C reads this struct. (9.16)
#[repr(C)]
#[derive(Clone, Copy)]
pub struct Kept {
    pub times: [Tick; Kept::MAX],
    pub count: usize,
}

// What is kept afterwards stands beside the answer, because rule 10.7 says what it is after a refusal too. (4.6, 10.7)
#[derive(Clone, Copy)]
pub struct KeepStep {
    pub kept: Kept,
    pub answer: Result<(), Refusal>,
}

impl Kept {
    // The rule for due times needs at most x of them, and x is at most this. (3.2, 4.6)
    pub const MAX: usize = Row::MAX_X as usize;

    // The contract ties the limit in the code to that in the definitions.
    pub fn limit() -> usize
        ensures { result ≡ max_kept }
    {
        Kept::MAX
    }

    // A row with no jobs yet keeps no due times. (6.3)
    pub fn empty() -> Kept
        ensures { result ≡ nothing_kept }
    {
        Kept {
            times: [Tick(0); Kept::MAX],
            count: 0,
        }
    }

    // The answer is the due time of the row's next job. A row out of range is refusal 3, and a due time above 2^40 is refusal 9. Asking keeps nothing, so a
    // release that is refused takes no j and leaves every due time alone. The cost plays no part. (4.2, 4.3, 4.4, 4.7, 4.8)
    pub fn due(self, row: Row, release: Tick, cost: u64) -> Result<Tick, Refusal>
        ensures { result ≡ due_of self row release.0 cost }
    {
        if !row.in_range() {
            return Err(Refusal::ValueOutOfRange);
        }
        let plain = in_time(release)?.0 + row.d;
        let x = row.x as usize;
        let count = self.count.min(Kept::MAX);
        if x <= count {
            let spaced = in_time(self.times[count - x])?.0 + row.y;
            return in_time(Tick(plain.max(spaced)));
        }
        in_time(Tick(plain))
    }

    // One more due time is kept, and of the row's due times the newest x stay. A row out of range is refusal 3, and then nothing changes. (4.6, 10.7)
    pub fn keep(self, row: Row, due: Tick) -> KeepStep
        ensures { result ≡ keep_step self row due }
    {
        let mut kept = self;
        if !row.in_range() {
            return KeepStep {
                kept,
                answer: Err(Refusal::ValueOutOfRange),
            };
        }
        let x = row.x as usize;
        let count = self.count.min(Kept::MAX);
        if count < x {
            kept.times[count] = due;
            kept.count = count + 1;
        } else {
            let last = x - 1;
            kept.times.copy_within(count - last..count, 0);
            kept.times[last] = due;
            kept.count = x;
        }
        KeepStep {
            kept,
            answer: Ok(()),
        }
    }

    // What is kept for a row is sound if at most x due times are counted, and none of these is above 2^40. (6.24)
    #[tactic(auto, unfolding(crate::specs::Kept::kept_sound))]
    pub fn sound(self, row: Row) -> bool
        ensures { result ≡ kept_sound self row }
    {
        let count = self.count.min(Kept::MAX);
        self.count as u64 <= row.x && self.times[..count].iter().all(|time| time.0 <= Tick::MAX)
    }
}

// A time of at most 2^40 stands, and one above it is refusal 9. (4.7)
pub fn in_time(time: Tick) -> Result<Tick, Refusal>
    ensures { result ≡ not_too_late time.0 }
{
    if Tick::MAX < time.0 {
        return Err(Refusal::DueTooLate);
    }
    Ok(time)
}
