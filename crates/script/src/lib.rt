// Scripts are lists of releases with their times, as bytes. This crate reads one number or one record at a place, and chooses which of two scripts comes next.
// It looks at spelling only, and at the times that the chooser is handed. Rows, costs and the limit of a record's time are tested by the replay.
// (docs/RULES.md, section 7.)
#![tactic(auto)]

ghost use Rattle.std.specs.Prelude.{◌≡◌, ◌≤◌};
ghost use Rattle.kinds.specs.Numbering.{max_time};
ghost use Rattle.numbers.specs.Spelling.{max_number};
ghost use Rattle.script.specs.Records.{script_number, record_at};
ghost use Rattle.script.specs.Chooser.{too_late, next_of, earlier_of, chosen, part_of, part_start};

use kinds::{Refusal, RefusedAt, RowNumber, Tick};
use numbers::Number;

// A record of a script: the gap since the last record, the row number and the cost. (7.1, 7.2)
#[derive(Clone, Copy)]
pub struct Record {
    pub gap: u64,
    pub row: RowNumber,
    pub cost: u64,
}

// A record, and the place right after it. (7.4)
#[derive(Clone, Copy)]
pub struct RecordAt {
    pub release: Record,
    pub next: usize,
}

// The first or the second of two scripts.
#[derive(Clone, Copy)]
pub enum Which {
    First,
    Second,
}

// A refusal in one of two scripts, with which script it is. (7.11, 7.12)
#[derive(Clone, Copy)]
pub struct RefusedIn {
    pub script: Which,
    pub at: RefusedAt,
}

// Which script's record comes next, and how many bytes its spelling has. (7.8)
#[derive(Clone, Copy)]
pub struct Next {
    pub script: Which,
    pub length: usize,
}

// A number of a script: refusal 14 where it can't be read, at the place where the number reader refuses it. So a place past the end is refused at the script's
// length. (2.9, 2.10, 7.5)
pub fn number_at(script: &[u8], at: usize) -> Result<Number, RefusedAt>
    ensures { result ≡ script_number script.now at }
{
    numbers::read(script, at).map_err(|r| Refusal::ScriptMisspelled.at(r.place))
}

// The record at a place, or the end at the script's length. A number that can't be read is refusal 14 at its bad byte, and a place past the end is refusal 14
// at the script's length. (7.4 to 7.6)
pub fn record_at(script: &[u8], at: usize) -> Result<Option<RecordAt>, RefusedAt>
    ensures { result ≡ record_at script.now at }
{
    if at == script.len() {
        return Ok(None);
    }
    let gap = number_at(script, at)?;
    let row = number_at(script, gap.next)?;
    let cost = number_at(script, row.next)?;
    Ok(Some(RecordAt {
        release: Record {
            gap: gap.value,
            row: RowNumber(row.value),
            cost: cost.value,
        },
        next: cost.next,
    }))
}

// Chooses which of two scripts, each read from its start, has the record that comes next, given the time that each has reached. A time reached above 2^40 is
// refusal 10, and then a next record that can't be read is 14, the first script's before the second's. The record with the earlier time comes next, and at
// equal times the first script's. A record's time above 2^40 is compared like any other. Places count from the start of each lent script. (7.8 to 7.13, 7.15)
pub fn choose(
    first: &[u8],
    second: &[u8],
    first_time: Tick,
    second_time: Tick,
) -> Result<Option<Next>, RefusedIn>
    ensures { result ≡ chosen first.now second.now first_time.0 second_time.0 }
{
    if Tick::MAX < first_time.0 {
        return too_late(Which::First);
    }
    if Tick::MAX < second_time.0 {
        return too_late(Which::Second);
    }
    let one = record_at(first, 0).map_err(|r| RefusedIn {
        script: Which::First,
        at: r,
    })?;
    let other = record_at(second, 0).map_err(|r| RefusedIn {
        script: Which::Second,
        at: r,
    })?;
    match (one, other) {
        (Some(a), Some(b)) => earlier(a, b, first_time, second_time),
        (Some(a), None) => next_of(Which::First, a.next),
        (None, Some(b)) => next_of(Which::Second, b.next),
        (None, None) => Ok(None),
    }
}

// The bytes of the record that `choose` names, as a part of one script or the other. When both have ended, and with a refusal, the part is an empty part of the
// first script. (7.8, 7.10, 7.14)
pub fn chosen_part<'a>(
    first: &'a [u8],
    second: &'a [u8],
    first_time: Tick,
    second_time: Tick,
) -> &'a [u8]
    ensures bytes { result.now
        ≡ part_of (chosen first.now second.now first_time.0 second_time.0) first.now second.now }
    ensures place { result.ref_ptr
        ≡ part_start (chosen first.now second.now first_time.0 second_time.0) first.entry.ref_ptr second.entry.ref_ptr }
{
    match choose(first, second, first_time, second_time) {
        Ok(Some(n)) => match n.script {
            Which::First => &first[..n.length],
            Which::Second => &second[..n.length],
        },
        Ok(None) | Err(_) => &first[..0],
    }
}

// Of two records the one with the earlier time comes next, and at equal times the first script's. A time above 2^40 is compared like any other. (7.9, 7.13)
fn earlier(
    a: RecordAt,
    b: RecordAt,
    first_time: Tick,
    second_time: Tick,
) -> Result<Option<Next>, RefusedIn>
    requires { (first_time.0 ≤ max_time) × (second_time.0 ≤ max_time) × (a.release.gap ≤ max_number) × (b.release.gap ≤ max_number) }
    ensures { result ≡ earlier_of a b first_time.0 second_time.0 }
{
    if first_time.0 + a.release.gap <= second_time.0 + b.release.gap {
        next_of(Which::First, a.next)
    } else {
        next_of(Which::Second, b.next)
    }
}

// The record that comes next is the first of this script, and its spelling has this many bytes. (7.8)
fn next_of(script: Which, length: usize) -> Result<Option<Next>, RefusedIn>
    ensures { result ≡ next_of script length }
{
    Ok(Some(Next { script, length }))
}

// A time reached above 2^40 is refusal 10, with which script it is and place 0. (7.11)
fn too_late(script: Which) -> Result<Option<Next>, RefusedIn>
    ensures { result ≡ too_late script }
{
    Err(RefusedIn {
        script,
        at: Refusal::TimeTooLate.at(0),
    })
}
