// The kept due times of all rows in a lent struct of arrays. Each row has a ring of places of its own, so that its next due time is found and kept without moving any
// other. (docs/RULES.md, section 4.)
#![tactic(auto)]

ghost use Rattle.std.specs.Prelude.{◌≡◌, ◌≤◌, ◌<◌};
ghost use Rattle.table.specs.Limits.{max_y, max_d};
ghost use Rattle.due.specs.Kept.{not_too_late};
ghost use Rattle.rings.specs.Rings.{max_times, empty_rings, can_be, place_after_oldest, due_in, rings_after_due};
ghost use Rattle.rings.specs.OneRing.{place_in, due_after};

use due::{Kept, in_time};
use kinds::{Refusal, RowNumber, Tick};
use table::{Row, Table};

// There is room for the kept due times of as many rows as a table may have, for each row as many as x may be. (3.1, 3.2, 4.6)
pub const TIMES: usize = Table::MAX_ROWS * Kept::MAX;

// The contract ties the limit of the code to the limit of `specs/`.
pub fn limit() -> usize
    ensures { result ≡ max_times }
{
    TIMES
}

// The rings of all rows: the due times that they hold, how many each row keeps, and at which place in its ring each row's oldest stands. (4.6)
// They are three arrays of numbers, because the theorems of the rings (`AllRingPlaces`, `RingsHold`) speak of three lists.
#[derive(Drop)]
pub struct Rings {
    pub times: [u64; TIMES],
    pub many: [usize; Table::MAX_ROWS],
    pub oldest: [usize; Table::MAX_ROWS],
}

impl Rings {
    // Before the first release no due time is kept. (6.3)
    pub fn empty() -> Rings
        ensures { result ≡ empty_rings }
    {
        Rings {
            times: [0; TIMES],
            many: [0; Table::MAX_ROWS],
            oldest: [0; Table::MAX_ROWS],
        }
    }

    // The due time of a row's next job, released at a time with a stated cost, by what the row's ring holds. A due time that is given is kept there. A row
    // number that no table has room for is refusal 6, a row out of range is 3, a ring that can't be the row's is 11, and a due time above 2^40 is 9. A refusal
    // changes nothing. The cost plays no part. (4.4, 4.6, 4.7, 4.8, 10.7)
    pub fn next_due(
        &mut self,
        number: RowNumber,
        row: Row,
        release: Tick,
        cost: u64,
    ) -> Result<Tick, Refusal>
        ensures answer { result ≡ due_in self.old number.0 row release.0 cost }
        ensures rings { self.new ≡ rings_after_due result self.old number.0 row }
    {
        if Table::MAX_ROWS as u64 <= number.0 {
            return Err(Refusal::NoSuchRow);
        }
        if !row.in_range() {
            return Err(Refusal::ValueOutOfRange);
        }
        let its = number.0 as usize;
        let x = row.x as usize;
        let held = self.many[its];
        let at = self.oldest[its];
        if !can_be(held, at, x) {
            return Err(Refusal::RunNotSound);
        }
        let place = its * Kept::MAX + place_in(held, at, x);
        let before = (x <= held).then_some(self.times[place]);
        let due = due_by(release, row.d, row.y, before)?;
        self.times[place] = due.0;
        if held < x {
            self.many[its] = held + 1;
        } else {
            self.oldest[its] = place_after(at, x);
        }
        Ok(due)
    }
}

// Whether a ring can be a row's. With fewer than x due times kept, the oldest stands at place 0. With x kept, it stands at a place below x. More than x are
// never kept. (4.6)
fn can_be(many: usize, oldest: usize, x: usize) -> bool
    ensures { result ≡ can_be many oldest x }
{
    if many < x {
        oldest == 0
    } else {
        many == x && oldest < x
    }
}

// The place in a row's ring where its next due time goes. It is the first unused place while fewer than x are kept, and the oldest's place after that. (4.6)
fn place_in(many: usize, oldest: usize, x: usize) -> usize
    ensures { result ≡ place_in many oldest x }
{
    if many < x { many } else { oldest }
}

// The place after the oldest's in a ring of x places. After the last of them it is place 0.
fn place_after(oldest: usize, x: usize) -> usize
    requires { oldest < x }
    ensures { result ≡ place_after_oldest oldest x }
{
    if oldest + 1 < x { oldest + 1 } else { 0 }
}

// The due time of a job released at a time, or refusal 9. It is t + d; if it is spaced from an earlier due time, it is the later of t + d and that one + y. A
// release or an earlier due time above 2^40 is refused before it is added to, so that no sum overflows. (4.2, 4.3, 4.7)
fn due_by(release: Tick, d: u64, y: u64, before: Option<u64>) -> Result<Tick, Refusal>
    requires { (d ≤ max_d) × (y ≤ max_y) }
    ensures { result ≡ not_too_late (due_after release.0 d y before) }
{
    let plain = in_time(release)?.0 + d;
    if let Some(before) = before {
        let spaced = in_time(Tick(before))?.0 + y;
        return in_time(Tick(plain.max(spaced)));
    }
    in_time(Tick(plain))
}
