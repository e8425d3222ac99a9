// The test of a row number and a cost: is the row number in use, and is the cost from 1 to the row's c? A server is a row whose c is 4,096. (docs/RULES.md,
// 3.20 and 6.8.)
ghost use Rattle.std.specs.Prelude.{◌≡◌};
ghost use Rattle.table.specs.Costs.{held_limits, limit_of, cost_answer};

use crate::{Row, Table};
use kinds::{Refusal, RowNumber};

impl Table {
    // The most that a job may cost is listed by row number: the c of every row in use, and then 4,096 for every server. The entries of the row numbers in use
    // are the first, as many as there are rows and servers in use. (1.6, 3.14, 3.20)
    pub fn cost_limits(self) -> [u64; Table::MAX_SOURCES]
        ensures { result ≡ held_limits self }
    {
        let mut limits: [u64; Table::MAX_SOURCES] = [Row::MAX_C; Table::MAX_SOURCES];
        for i in 0..self.count.min(Table::MAX_ROWS) {
            limits[i] = self.rows[i].c;
        }
        limits
    }
}

// `limits` holds the most that a job may cost, for each row number in use. The row number is compared with their count before it is narrowed. (2.11, 6.8)
pub fn limit_of(limits: &[u64], number: RowNumber) -> Option<u64>
    ensures { result ≡ limit_of limits.now number.0 }
{
    if number.0 < limits.len() as u64 {
        return Some(limits[number.0 as usize]);
    }
    None
}

// `limit` is the most that a job of the row number may cost, and there is none where the row number is not in use: then every cost is refusal 6. A cost from 1
// to the limit is allowed, and any other is refusal 7. (6.8)
pub fn cost_answer(limit: Option<u64>, cost: u64) -> Result<(), Refusal>
    ensures { result ≡ cost_answer limit cost }
{
    let Some(most) = limit else {
        return Err(Refusal::NoSuchRow);
    };
    if cost < 1 {
        return Err(Refusal::CostOutOfRange);
    }
    if most < cost {
        return Err(Refusal::CostOutOfRange);
    }
    Ok(())
}
