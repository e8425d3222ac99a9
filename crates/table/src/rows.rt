// How rows are read: a value, a row of four values, and rows one after another after their count. (docs/RULES.md, 3.3 and 3.6 to 3.10.)
ghost use Rattle.std.specs.Prelude.{◌≡◌};
ghost use Rattle.table.specs.Rows.{within_limit, read_value, read_row};
ghost use Rattle.table.specs.Tables.{rows_from, held_as};

use crate::{Row, RowAt, RowsAt, Table, within_limit};
use kinds::{Refusal, RefusedAt};
use numbers::Number;

// A value with a limit is tested as it is read, before the next is looked at. (3.7, 3.10)
pub(crate) fn read_value(bytes: &[u8], at: usize, most: u64) -> Result<Number, RefusedAt>
    ensures { result ≡ read_value (within_limit most) bytes.now at }
{
    let number = numbers::read(bytes, at)?;
    if !within_limit(most, number.value) {
        return Err(Refusal::ValueOutOfRange.at(at));
    }
    Ok(number)
}

// A row is read as x, y, d and c, from left to right. A c above d is refused after its own range was tested, at its start. (3.3, 3.6, 3.7)
fn read_row(bytes: &[u8], at: usize) -> Result<RowAt, RefusedAt>
    ensures { result ≡ read_row bytes.now at }
{
    let x = read_value(bytes, at, Row::MAX_X)?;
    let y = read_value(bytes, x.next, Row::MAX_Y)?;
    let d = read_value(bytes, y.next, Row::MAX_D)?;
    let c = read_value(bytes, d.next, Row::MAX_C)?;
    let row = Row {
        x: x.value,
        y: y.value,
        d: d.value,
        c: c.value,
    };
    if row.hopeless() {
        return Err(Refusal::HopelessRow.at(d.next));
    }
    Ok(RowAt { row, next: c.next })
}

// The row count is read at a place, and then the rows after it. (3.6, 3.7, 3.9)
pub(crate) fn read_rows(bytes: &[u8], at: usize) -> Result<RowsAt, RefusedAt>
    ensures { result ≡ held_as (rows_from bytes.now at) }
{
    let count = numbers::read(bytes, at)?;
    if count.value > Table::MAX_ROWS as u64 {
        return Err(Refusal::TooManyRows.at(at));
    }
    let mut held = Table::empty();
    let mut next = count.next;
    for i in 0..count.value as usize {
        let read = read_row(bytes, next)?;
        held.rows[i] = read.row;
        next = read.next;
    }
    Ok(RowsAt {
        rows: held.rows,
        count: count.value as usize,
        next,
    })
}
