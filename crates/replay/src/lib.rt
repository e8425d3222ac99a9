// Replay: a script is played on a table, and a record of each job is written into a log. (docs/RULES.md, section 8.)
#![tactic(auto)]

mod steps;
mod ticks;

ghost use Rattle.std.specs.Prelude.{◌≡◌, true, length};
ghost use Rattle.table.specs.Timer.{GoodTimer};
ghost use Rattle.run.specs.Runs.{fresh_run};
ghost use Rattle.run.specs.Sound.{sound_of, Whole};
ghost use Rattle.play.specs.Play.{played, played_on};
ghost use Rattle.replay.specs.Outcome.{finished_in, replay_of, replay_outcome, log_after};
ghost use Rattle.replay.specs.Arrays.{LeftIn, play_outcome};

use crate::steps::play_record;
use crate::ticks::run_until;
use columns::Columns;
use kinds::{Refusal, RefusedAt, Serial, Tick};
use rings::Rings;
use table::{Row, Server, Table};

// The outcome of a replay with late jobs: the log's length in bytes, and the number of jobs that finished after their due time. (8.14, 8.15)
#[derive(Clone, Copy)]
pub struct LateJobs {
    pub length: usize,
    pub late: u64,
}

// What a replay answers: all jobs in time, with the log's length; or with late jobs; or refused. The rules tell these three apart side by side, and one `match`
// does too, so this is no `Result`. (8.15, 8.17)
#[derive(Clone, Copy)]
pub enum Replayed {
    InTime(usize),
    Late(LateJobs),
    Refused(RefusedAt),
}

// The timer of a table: it takes the first s ticks of every p. (3.16, 6.5)
#[derive(Clone, Copy)]
struct Timer {
    s: u64,
    p: u64,
    ghost good: { GoodTimer s p },
}

// What is known about a log so far: its length in bytes, the number of jobs late, and whether it is full. Once a record did not fit, the log is full: it stays
// so, and is not written to any more. (8.13)
#[derive(Clone, Copy)]
struct Logged {
    length: usize,
    late: u64,
    full: bool,
}

// How far a play has come: the pending jobs, the kept due times of the rows, the last due times of the servers, the clock, the next serial, and what is known
// about the log. It is lent from record to record, so that none of its arrays is copied.
#[derive(Drop)]
struct Going {
    jobs: Columns,
    rings: Rings,
    lasts: [Tick; Table::MAX_SERVERS],
    clock: Tick,
    next: Serial,
    logged: Logged,
}

// A server, and its place among the servers of its table. (1.2)
#[derive(Clone, Copy)]
struct ServerOf {
    server: Server,
    place: usize,
}

// Whose job a record releases: a row's or a server's. (1.2)
#[derive(Clone, Copy)]
enum Source {
    Row(Row),
    Server(ServerOf),
}

// Plays a script on a table. The answer is the log's length and the number of jobs late, which may be 0. The pending jobs, the kept due times and the last due
// times stand in arrays, so that no run is copied for a record. After a refusal the log may hold anything: the caller fills it with zeros. (8.2, 8.3)
fn play(table: Table, script: &[u8], log: &mut [u8]) -> Result<LateJobs, RefusedAt>
    requires { (sound_of (fresh_run table) ≡ true) × Whole (fresh_run table) }
    ensures { (play_outcome result ≡ replay_outcome (length log.old) (length script.now) (played_on script.now (fresh_run table)))
        × LeftIn (play_outcome result) (finished_in (played_on script.now (fresh_run table))) log.old log.new }
{
    let limits = table.cost_limits();
    let in_use = table.count + table.serving;
    let timer = Timer {
        s: table.s,
        p: table.p,
    };
    let mut going = Going {
        jobs: Columns::empty(),
        rings: Rings::empty(),
        lasts: [Tick(0); Table::MAX_SERVERS],
        clock: Tick(0),
        next: Serial(0),
        logged: Logged {
            length: 0,
            late: 0,
            full: false,
        },
    };
    let mut at: usize = 0;
    while at < script.len() {
        let ready = records::ready_at(script, at, &limits[..in_use], going.clock)?;
        let number = ready.row.0 as usize;
        let source = if number < table.count {
            Source::Row(table.rows[number])
        } else {
            let place = number - table.count;
            let server = table.servers[place];
            Source::Server(ServerOf { server, place })
        };
        play_record(&mut going, log, timer, ready, source, at)?;
        at = ready.next;
    }
    run_until(
        &mut going.jobs,
        log,
        &mut going.logged,
        timer,
        going.clock,
        Tick(Tick::MAX),
    );
    if 0 < going.jobs.count {
        return Err(Refusal::TimeTooLate.at(script.len()));
    }
    if going.logged.full {
        return Err(Refusal::NoRoom.at(script.len()));
    }
    Ok(LateJobs {
        length: going.logged.length,
        late: going.logged.late,
    })
}

// Replays a script on a table, into a log. It refuses as the table is refused, then for each record with 14, 10, 14, 6, 14, 7, 8 and 9 in this order, then with
// 10 in the final ticks, and last of all with 12. A refusal fills the log buffer with zeros. Otherwise the bytes past the log's length stay as they were. (8.1,
// 8.5, 8.12, 8.16, 8.17, 10.4)
pub fn replay(table: &[u8], script: &[u8], log: &mut [u8]) -> Replayed
    ensures { (result ≡ replay_of table.now script.now (length log.old))
        × (log.new ≡ log_after result (finished_in (played table.now script.now)) log.old) }
{
    let read = table::read_table(table);
    let played = match read.answer {
        Ok(_) => play(read.table, script, log),
        Err(r) => Err(r),
    };
    match played {
        Ok(jobs) => {
            if jobs.late == 0 {
                Replayed::InTime(jobs.length)
            } else {
                Replayed::Late(jobs)
            }
        }
        Err(r) => {
            log.fill(0);
            Replayed::Refused(r)
        }
    }
}
