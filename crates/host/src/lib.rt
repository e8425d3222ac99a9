// The host's calls: the verdict and the replay here, and the four calls on a live run in live_run.rt. The host is a C program: it calls them with byte buffers,
// and gets a status number back (9.1). The status is never zero, and the two numbers beside it are written into the answer buffer (9.5). The caller lends
// buffers that don't overlap, and no null pointer except with length 0 (9.8). The manual for a C program is include/jyrmekko.h. (docs/RULES.md, section 9.)
#![tactic(auto)]

mod live_run;

ghost use Rattle.std.specs.Prelude.{◌≡◌, length};
ghost use Rattle.host.specs.Answer.{answer_bytes, VerdictAnswered, answer_length};
ghost use Rattle.host.specs.Answer.{replay_status, replay_answer, replay_log};
ghost use Rattle.live.specs.Statuses.{as_said};
ghost use Rattle.replay.specs.Outcome.{replay_says};
ghost use Rattle.verdict.specs.Verdict.{verdict_says};

use kinds::Refusal;
use live::{Saying, Status};
pub use live_run::{run_end, run_release, run_start, run_tick};
use replay::Replayed;
use verdict::Verdict;
use words::WORD;

// The length of an answer buffer in bytes: two numbers of eight bytes each. (9.4)
pub const ANSWER: usize = 2 * WORD;

// Writes the two numbers beside a status into the answer buffer, and returns the status. (9.4)
fn say(answer: &mut [u8], told: Saying) -> u32
    requires { length answer.old ≡ answer_length }
    ensures { (result ≡ told.number) × (answer.new ≡ answer_bytes (as_said told)) }
{
    // The buffer has room for both numbers, so neither call is refused.
    let _ = words::put(answer, told.first);
    let _ = words::put(&mut answer[WORD..], told.second);
    told.number
}

// What a verdict says: 20, or 21 with the smallest length and its demand, or the table's refusal with its place. It is public, since the probe says its verdicts
// by it too. (9.2, 9.5)
pub fn verdict_told(verdict: Verdict) -> Saying
    ensures { as_said result ≡ verdict_says verdict }
{
    match verdict {
        Verdict::Feasible => Saying::new(Status::Feasible, 0, 0),
        Verdict::Overloaded(w) => Saying::new(Status::Overloaded, w.length, w.demand),
        Verdict::Refused(r) => r.into(),
    }
}

// What a replay says: 22 or 23 with the log's length and the jobs late, or the refusal with its place. Its cases are of another type than those of a verdict.
// (9.3, 9.5)
fn replay_told(outcome: Replayed) -> Saying
    ensures { as_said result ≡ replay_says outcome }
{
    match outcome {
        Replayed::InTime(length) => Saying::new(Status::InTime, length as u64, 0),
        Replayed::Late(jobs) => Saying::new(Status::Late, jobs.length as u64, jobs.late),
        Replayed::Refused(r) => r.into(),
    }
}

// The verdict on a table. It returns 20 where the table is feasible, 21 where it is overloaded, with the smallest length and its demand, and else the table's
// refusal, with its place. Before all that, an answer buffer that is not 16 bytes long is refused with 13, and nothing is written. (9.2, 9.5, 9.6)
pub fn verdict(table: &[u8], answer: &mut [u8]) -> u32
    ensures { VerdictAnswered table.now answer.old result answer.new }
{
    if answer.len() != ANSWER {
        return Refusal::AnswerNot16Bytes.number();
    }
    say(answer, verdict_told(verdict::judge(table)))
}

// The replay of a script on a table, into a log. It returns 22 where all jobs are in time and 23 where some are late, both with the log's length and the jobs
// late, and else the refusal, with its place. Before all that, an answer buffer that is not 16 bytes long is refused with 13, and nothing is written, neither
// answer nor log. (9.3, 9.5, 9.6)
pub fn replay(table: &[u8], script: &[u8], log: &mut [u8], answer: &mut [u8]) -> u32
    ensures { (result ≡ replay_status table.now script.now (length log.old) (length answer.old))
        × (answer.new ≡ replay_answer table.now script.now (length log.old) answer.old)
        × (log.new ≡ replay_log table.now script.now log.old (length answer.old)) }
{
    if answer.len() != ANSWER {
        return Refusal::AnswerNot16Bytes.number();
    }
    say(answer, replay_told(replay::replay(table, script, log)))
}
