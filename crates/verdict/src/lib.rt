// The verdict on a table. It is feasible if no length of time, however long, has more demand than length. Otherwise it is overloaded, and the answer is the
// smallest length that has, with its demand. (docs/RULES.md, section 5.)
#![tactic(auto)]

mod blocks;
mod choices;
mod classes;
mod cycle;
mod descent;
mod lifts;
mod line;
mod parts;
mod stretch;
mod terms;

ghost use Rattle.std.specs.Prelude.{◌≡◌, ◌+◌, ◌≤◌};
ghost use Rattle.theory.specs.Curves.{Curve, FitsUpTo};
ghost use Rattle.theory.specs.Ticks.{timer_takes};
ghost use Rattle.table.specs.SpelledTables.{WithinLimits};
ghost use Rattle.table.specs.Limits.{max_period};
ghost use Rattle.table.specs.Timer.{GoodTimer};
ghost use Rattle.table.specs.Servers.{GoodServer};
ghost use Rattle.table.specs.Tables.{InRange};
ghost use Rattle.verdict.specs.Demand.{row_demand_of, server_demand_of, table_demand, table_growth, largest_d, max_length};
ghost use Rattle.verdict.specs.Verdict.{Scanned, RightFor, Judged};
ghost use Rattle.verdict.specs.HeldParts.{PeriodOf};

use crate::cycle::Cycle;
use crate::descent::search;
use crate::terms::Terms;
use kinds::RefusedAt;
use table::{Row, Server, Table};

// The witness of an overloaded table is the smallest length whose demand is above it, with that demand. (1.11)
#[derive(Clone, Copy)]
pub struct Witness {
    pub length: u64,
    pub demand: u64,
}

// A table is feasible, overloaded with a witness, or refused. (5.4, 5.5)
// It is no `Result`: the rules name three answers side by side, and one `match` tells them apart.
#[derive(Clone, Copy)]
pub enum Verdict {
    Feasible,
    Overloaded(Witness),
    Refused(RefusedAt),
}

// Below d there is no demand. Testing this first keeps the subtraction from wrapping. (5.1)
fn row_demand(row: Row, length: u64) -> u64
    requires { (WithinLimits row) × (length ≤ max_length) }
    ensures { result ≡ row_demand_of row length }
{
    if length < row.d {
        return 0;
    }
    ((length - row.d) / row.y + 1) * row.x * row.c
}

// A server's demand is rounded down. (5.16)
fn server_demand(server: Server, length: u64) -> u64
    requires { (GoodServer server) × (length ≤ max_length) }
    ensures { result ≡ server_demand_of server length }
{
    server.a * length / server.b
}

// The timer takes s ticks of each whole p, and of the rest as many as there are, but at most s. (5.3)
fn timer_takes(s: u64, p: u64, length: u64) -> u64
    requires { GoodTimer s p }
    ensures { result ≡ timer_takes s p length }
{
    let whole = length / p * s;
    whole + s.min(length % p)
}

// The demand in each length from `first` to `last` is worked out, and the first length whose demand is above it ends the scan as the witness. The ticks that the
// timer takes are counted first, then each server's demand, and then each row's. (5.3, 5.5)
fn scan_range(table: Table, first: u64, last: u64) -> Option<Witness>
    requires { (InRange table) × (last ≤ max_length) }
    ensures { Scanned (table_demand table) first last result }
{
    for length in first..last + 1 {
        let mut demand = timer_takes(table.s, table.p, length);
        for k in 0..table.serving {
            demand += server_demand(table.servers[k], length);
        }
        for i in 0..table.count {
            demand += row_demand(table.rows[i], length);
        }
        if length < demand {
            return Some(Witness { length, demand });
        }
    }
    None
}

// The sum of s · (period/p), of a · (period/b) over the servers and of x · c · (period/y) over the rows is how much the demand grows in a period. (5.7)
fn growth(table: Table, period: u64) -> u64
    requires { (InRange table) × (period ≤ max_period) }
    ensures { result ≡ table_growth table period }
{
    let mut sum = period / table.p * table.s;
    for k in 0..table.serving {
        let server = table.servers[k];
        sum += period / server.b * server.a;
    }
    for i in 0..table.count {
        let row = table.rows[i];
        sum += period / row.y * (row.x * row.c);
    }
    sum
}

// The largest d of no rows is 0. Servers have no d. (5.8)
fn largest_d(table: Table) -> u64
    requires { InRange table }
    ensures { result ≡ largest_d table }
{
    let mut largest: u64 = 0;
    for i in 0..table.count {
        largest = largest.max(table.rows[i].d);
    }
    largest
}

// The answer is the verdict on the table that the bytes spell, or its refusal. Every length is looked at in turn. Where the demand grows in H ticks by at most
// H, the lengths up to H + the largest d settle the verdict. Otherwise a length up to (the largest d + 1) · H + the largest d fails. (5.4 to 5.9)
pub fn judge_every_length(bytes: &[u8]) -> Verdict
    ensures { Judged bytes.now result }
{
    let read = table::read_table(bytes);
    let table = read.table;
    let period = match read.answer {
        Ok(h) => h,
        Err(r) => return Verdict::Refused(r),
    };
    let d = largest_d(table);
    let mut last = period + d;
    if period < growth(table, period) {
        last = (d + 1) * period + d;
    }
    match scan_range(table, 1, last) {
        None => Verdict::Feasible,
        Some(w) => Verdict::Overloaded(w),
    }
}

// The quick search on a table whose lengths up to `done` fit. It is a function of its own, so that a verdict that needs no quick search makes no array of terms.
// (5.4 to 5.9)
fn search_on(table: Table, d: u64, period: u64, growth: u64, done: u64) -> Verdict
    requires { (InRange table) × (d ≡ largest_d table) × (1 ≤ period) × (period ≤ max_period) × (PeriodOf table period)
        × (Curve (table_demand table) d period growth) × (done ≤ d + period) × (FitsUpTo (table_demand table) done) }
    ensures { RightFor (table_demand table) result }
{
    let cycle = Cycle {
        terms: Terms::of_table(table),
        d,
        period,
        growth,
    };
    search(&cycle, done)
}

// So many lengths are looked at in turn before the quick search begins: tables with a small witness, and small tables, need no more.
const EARLY: u64 = 64;

// The answer is the verdict on the table that the bytes spell, or its refusal. It is the same as that of `judge_every_length`, and needs far fewer looks at
// lengths. (5.4 to 5.9)
pub fn judge(bytes: &[u8]) -> Verdict
    ensures { Judged bytes.now result }
{
    let read = table::read_table(bytes);
    let table = read.table;
    let period = match read.answer {
        Ok(h) => h,
        Err(r) => return Verdict::Refused(r),
    };
    let d = largest_d(table);
    let early = EARLY.min(d + period);
    if let Some(w) = scan_range(table, 1, early) {
        return Verdict::Overloaded(w);
    }
    let growth = growth(table, period);
    if d + period <= EARLY && growth <= period {
        return Verdict::Feasible;
    }
    search_on(table, d, period, growth, early)
}
