// Tables: the rows and the servers of a rig, the timer that takes ticks from them, and the reader that turns any bytes into a table or its exact refusal.
// (docs/RULES.md, section 3.)
#![tactic(auto)]

mod costs;
mod rows;
mod servers;
mod timer;

ghost use Rattle.std.specs.Prelude.{◌≡◌, ◌+◌, ◌≤◌, take};
ghost use Rattle.table.specs.Limits.{max_rows, max_servers, limits};
ghost use Rattle.table.specs.Period.{periods_of};
ghost use Rattle.table.specs.Rows.{within_limit, fine, row_in_range, hopeless, row_acceptable};
ghost use Rattle.table.specs.Tables.{content_of, empty_table, table_read};

use crate::rows::read_rows;
use crate::servers::read_servers;
use crate::timer::read_timer;
pub use costs::{cost_answer, limit_of};
use kinds::{Refusal, RefusedAt};
pub use timer::timer_in_range;

// A row expects x jobs in any y ticks, each due d ticks after its release and costing at most c units. (1.1)
#[repr(C)]
#[derive(Clone, Copy)]
pub struct Row {
    pub x: u64,
    pub y: u64,
    pub d: u64,
    pub c: u64,
}

// A server gives odd jobs a share of the processor, a units in b ticks. (1.21)
#[repr(C)]
#[derive(Clone, Copy)]
pub struct Server {
    pub a: u64,
    pub b: u64,
}

// The timer takes the first s ticks of every p. The rows in use are the first `count`, and the servers in use are the first `serving`. The others hold
// zeros in every table that was read. (3.14, 3.16, 3.18)
// Each array and the number of its places in use are two fields, since C reads this struct. (9.16)
#[repr(C)]
#[derive(Clone, Copy)]
pub struct Table {
    pub s: u64,
    pub p: u64,
    pub rows: [Row; Table::MAX_ROWS],
    pub count: usize,
    pub servers: [Server; Table::MAX_SERVERS],
    pub serving: usize,
}

// The table that was read stands beside the answer. If it was refused, this is the empty table. (10.5)
#[derive(Clone, Copy)]
pub struct TableRead {
    pub table: Table,
    pub answer: Result<u64, RefusedAt>,
}

// These are all limits of a table. (3.1, 3.2, 3.4, 3.16, 3.18)
#[derive(Clone, Copy)]
pub struct Limits {
    pub p: u64,
    pub rows: usize,
    pub x: u64,
    pub y: u64,
    pub d: u64,
    pub c: u64,
    pub servers: usize,
    pub b: u64,
    pub period: u64,
}

// A timer that was read comes with the place right after it.
#[derive(Clone, Copy)]
struct TimerAt {
    s: u64,
    p: u64,
    next: usize,
}

// A row that was read comes with the place right after it.
#[derive(Clone, Copy)]
struct RowAt {
    row: Row,
    next: usize,
}

// Rows that were read come with the place right after them. (`ServersAt` is its twin: one type for both would be longer than the two, with a type parameter, a
// length and a trait for what is read.)
#[derive(Clone, Copy)]
struct RowsAt {
    rows: [Row; Table::MAX_ROWS],
    count: usize,
    next: usize,
}

// A server that was read comes with the place right after it.
#[derive(Clone, Copy)]
struct ServerAt {
    server: Server,
    next: usize,
}

// Servers that were read come with the place right after them.
#[derive(Clone, Copy)]
struct ServersAt {
    servers: [Server; Table::MAX_SERVERS],
    serving: usize,
    next: usize,
}

impl Row {
    // The next four constants are the most that x, y, d and c may be. The least is 1. (3.2)
    pub const MAX_X: u64 = 64;

    pub const MAX_Y: u64 = 4_096;

    pub const MAX_D: u64 = 16_384;

    pub const MAX_C: u64 = 4_096;

    // A row is in range when each value is from 1 to its limit. (3.2)
    pub fn in_range(self) -> bool
        ensures { result ≡ row_in_range self }
    {
        within_limit(Row::MAX_X, self.x)
            & within_limit(Row::MAX_Y, self.y)
            & within_limit(Row::MAX_D, self.d)
            & within_limit(Row::MAX_C, self.c)
    }

    // A row is hopeless when its c is above its d: a job of full cost can never be met. (3.3)
    pub fn hopeless(self) -> bool
        ensures { result ≡ hopeless self }
    {
        self.d < self.c
    }

    // A table may have a row that is in range and not hopeless. (3.2, 3.3)
    pub fn acceptable(self) -> bool
        ensures { result ≡ row_acceptable self }
    {
        self.in_range() & !self.hopeless()
    }
}

// `within_limit` tests whether a value is from 1 to its limit. (3.2)
fn within_limit(most: u64, value: u64) -> bool
    ensures { result ≡ fine (within_limit most value) }
{
    (1..=most).contains(&value)
}

impl Table {
    // A table has room for this many rows. (3.1)
    pub const MAX_ROWS: usize = 64;
    // A table has room for this many servers. (3.18)
    pub const MAX_SERVERS: usize = 8;
    // A table has room for this many rows and servers together, each of which has a row number. (1.2)
    pub const MAX_SOURCES: usize = Table::MAX_ROWS + Table::MAX_SERVERS;
    // The timer's p may be at most this. (3.16)
    pub const MAX_P: u64 = 4_096;
    // H may be at most this. (3.4)
    pub const MAX_PERIOD: u64 = 1_048_576;
    // H is made from at most this many numbers: p, the y of every row and the b of every server. (3.4)
    const MAX_PERIODS: usize = Table::MAX_SOURCES + 1;

    // The empty table has no rows and no servers, and its timer takes no tick. (3.15)
    pub fn empty() -> Table
        ensures { result ≡ empty_table }
    {
        Table {
            s: 0,
            p: 1,
            rows: [Row {
                x: 0,
                y: 0,
                d: 0,
                c: 0,
            }; Table::MAX_ROWS],
            count: 0,
            servers: [Server { a: 0, b: 0 }; Table::MAX_SERVERS],
            serving: 0,
        }
    }

    // The numbers from which H is made are listed: p, then the y of every row in use, and then the b of every server in use. What follows them counts for
    // nothing. (3.4, 3.14)
    fn periods(self) -> [u64; Table::MAX_PERIODS]
        requires { (self.count ≤ max_rows) × (self.serving ≤ max_servers) }
        ensures { take (self.count + self.serving + 1) result ≡ periods_of (content_of self) }
    {
        let mut periods: [u64; Table::MAX_PERIODS] = [self.p; Table::MAX_PERIODS];
        for i in 0..self.count {
            periods[i + 1] = self.rows[i].y;
        }
        for k in 0..self.serving {
            periods[self.count + 1 + k] = self.servers[k].b;
        }
        periods
    }

    // The contract ties the limits in the code to those in the definitions.
    pub fn limits() -> Limits
        ensures { result ≡ limits }
    {
        Limits {
            p: Table::MAX_P,
            rows: Table::MAX_ROWS,
            x: Row::MAX_X,
            y: Row::MAX_Y,
            d: Row::MAX_D,
            c: Row::MAX_C,
            servers: Table::MAX_SERVERS,
            b: Server::MAX_B,
            period: Table::MAX_PERIOD,
        }
    }
}

// Reads the table that the bytes spell into a table that is lent, which is empty before. The answer is its H, or the refusal with its place, and a refusal
// leaves the table empty. The table is lent, and is no part of the answer, so that a `Result` holds no table that is then copied out of it. (3.6, 3.7, 3.13,
// 3.17, 3.19)
fn spelled(bytes: &[u8], table: &mut Table) -> Result<u64, RefusedAt>
    requires { table.old ≡ empty_table }
    ensures { record { table = table.new; answer = result } ≡ table_read bytes.now }
{
    let timer = read_timer(bytes)?;
    let read = read_rows(bytes, timer.next)?;
    let served = read_servers(bytes, read.next)?;
    if served.next < bytes.len() {
        return Err(Refusal::ExtraBytes.at(served.next));
    }
    // The check wants an array that goes into a literal in a variable of its own.
    let rows = read.rows;
    let servers = served.servers;
    let whole = Table {
        s: timer.s,
        p: timer.p,
        rows,
        count: read.count,
        servers,
        serving: served.serving,
    };
    let periods = whole.periods();
    match periods::period_within(
        &periods[..whole.count + whole.serving + 1],
        Table::MAX_PERIOD,
    ) {
        Ok(period) => {
            *table = whole;
            Ok(period)
        }
        Err(r) => Err(r.at(bytes.len())),
    }
}

// The answer is the table that the bytes spell, or the refusal with its place. For a refused table the empty table stands beside the refusal. (3.6, 3.7, 3.13,
// 3.17, 3.19, 10.5)
pub fn read_table(bytes: &[u8]) -> TableRead
    ensures { result ≡ table_read bytes.now }
{
    let mut table = Table::empty();
    let answer = spelled(bytes, &mut table);
    TableRead { table, answer }
}
