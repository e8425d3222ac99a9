// The three numbers of a script's record, and their tests in the order of the rules. (docs/RULES.md, 7.1 to 7.6 and 8.5.)
#![tactic(auto)]

ghost use Rattle.std.specs.Prelude.{◌≡◌, Some, Ok};
ghost use Rattle.table.specs.Costs.{cost_answer};
ghost use Rattle.records.specs.Numbers.{placed_at, place_after_number, numbers_at, refused_at, time_after, on_cost, tested_by, record_tested};

use kinds::{Refusal, RefusedAt, RowNumber, Tick};
use numbers::Number;
use script::Record;

// A number of a script: the place where it starts, and what is read there.
#[derive(Clone, Copy)]
pub struct Placed {
    pub place: usize,
    pub read: Result<Number, RefusedAt>,
}

// The three numbers of a record, each with its place. (7.1)
#[derive(Clone, Copy)]
pub struct Numbers {
    pub gap: Placed,
    pub row: Placed,
    pub cost: Placed,
}

// The release that a record at a place asks for: its time, its row number and its cost, and the place after the record. The fields of `Asked` stand here
// themselves, because `ready.time` is plainer than `ready.asked.time`.
#[derive(Clone, Copy)]
pub struct Ready {
    pub time: Tick,
    pub row: RowNumber,
    pub cost: u64,
    pub next: usize,
}

// The release that a record asks for that was read already: its time, its row number and its cost.
#[derive(Clone, Copy)]
pub struct Asked {
    pub time: Tick,
    pub row: RowNumber,
    pub cost: u64,
}

// The number of a script at a place, with that place. (7.6)
fn placed_at(script: &[u8], at: usize) -> Placed
    ensures { result ≡ placed_at script.now at }
{
    let read = script::number_at(script, at);
    Placed { place: at, read }
}

// The place right after a number. For a number that can't be read it is the number's own place.
fn place_after(number: Placed) -> usize
    ensures { result ≡ place_after_number number.read number.place }
{
    match number.read {
        Ok(n) => n.next,
        Err(_) => number.place,
    }
}

// The three numbers of the record at a place, one after another: the gap, the row number and the cost. (7.1)
pub fn numbers_at(script: &[u8], at: usize) -> Numbers
    ensures { result ≡ numbers_at script.now at }
{
    let gap = placed_at(script, at);
    let row = placed_at(script, place_after(gap));
    let cost = placed_at(script, place_after(row));
    Numbers { gap, row, cost }
}

// The answer of a test that refuses: the refusal, with a place. (10.2)
fn refused_at(refusal: Refusal, place: usize) -> Result<Ready, RefusedAt>
    ensures { result ≡ refused_at refusal place }
{
    Err(refusal.at(place))
}

// The script time of a record: the time reached and the record's gap. There is none above 2^40. It is compared before it is made, since the sum could
// overflow. (8.5, step 2)
fn time_after(time: Tick, gap: u64) -> Option<Tick>
    ensures { result ≡ time_after time.0 gap }
{
    if Tick::MAX < time.0 || Tick::MAX - time.0 < gap {
        return None;
    }
    Some(Tick(time.0 + gap))
}

// The last test of a record's numbers, once the gap and the row number have passed theirs. `most` is the most that a job of the row may cost, and `place` is
// where the cost starts. (8.5, step 6)
fn ready_by_cost(
    time: Tick,
    row: RowNumber,
    most: u64,
    cost: Number,
    place: usize,
) -> Result<Ready, RefusedAt>
    ensures { result ≡ on_cost (cost_answer (Some most) cost.value) place
        (Ok (record { time = time; row = row; cost = cost.value; next = cost.next })) }
{
    match table::cost_answer(Some(most), cost.value) {
        Err(r) => refused_at(r, place),
        Ok(()) => Ok(Ready {
            time,
            row,
            cost: cost.value,
            next: cost.next,
        }),
    }
}

// The tests of a record's three numbers. Each number is tested before the next is looked at: the gap by 14 and 10, the row number by 14 and 6, the cost by 14
// and 7. `limits` lends the most that a job of each row may cost, and `time` is the script time of the record before. (8.5, steps 1 to 6)
pub fn test_numbers(numbers: Numbers, limits: &[u64], time: Tick) -> Result<Ready, RefusedAt>
    ensures { result ≡ tested_by limits.now time.0 numbers }
{
    let gap = numbers.gap.read?;
    let Some(later) = time_after(time, gap.value) else {
        return refused_at(Refusal::TimeTooLate, numbers.gap.place);
    };
    let row = numbers.row.read?;
    let number = RowNumber(row.value);
    let Some(most) = table::limit_of(limits, number) else {
        return refused_at(Refusal::NoSuchRow, numbers.row.place);
    };
    let cost = numbers.cost.read?;
    ready_by_cost(later, number, most, cost, numbers.cost.place)
}

// The record at a place, read and tested, with the answer that `numbers_at` and `test_numbers` give together. It is faster, since each number is tested
// before the next is read. (8.5, steps 1 to 6)
pub fn ready_at(script: &[u8], at: usize, limits: &[u64], time: Tick) -> Result<Ready, RefusedAt>
    ensures { result ≡ tested_by limits.now time.0 (numbers_at script.now at) }
{
    let gap = script::number_at(script, at)?;
    let Some(later) = time_after(time, gap.value) else {
        return refused_at(Refusal::TimeTooLate, at);
    };
    let row = script::number_at(script, gap.next)?;
    let number = RowNumber(row.value);
    let Some(most) = table::limit_of(limits, number) else {
        return refused_at(Refusal::NoSuchRow, gap.next);
    };
    let cost = script::number_at(script, row.next)?;
    ready_by_cost(later, number, most, cost, row.next)
}

// The tests of a record whose three numbers were read already. They refuse with 10, 6 or 7, in this order, and name no place. (10.7)
pub fn test_record(release: Record, limits: &[u64], time: Tick) -> Result<Asked, Refusal>
    ensures { result ≡ record_tested limits.now time.0 release }
{
    let Some(later) = time_after(time, release.gap) else {
        return Err(Refusal::TimeTooLate);
    };
    table::cost_answer(table::limit_of(limits, release.row), release.cost)?;
    Ok(Asked {
        time: later,
        row: release.row,
        cost: release.cost,
    })
}
