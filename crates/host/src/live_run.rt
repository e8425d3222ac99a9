// The four calls on a live run, which stands in the host's own memory: start, release, tick and end. Each is lent the run and an answer buffer, tests the
// buffer first, makes its call by value, stores the run that this leaves, and writes the answer. C calls each by its name, and each makes another call of `run`
// and of `live`. (docs/RULES.md, 9.9 to 9.15.)
ghost use Rattle.std.specs.Prelude.{◌≡◌, length};
ghost use Rattle.host.specs.Live.{start_told, release_told, tick_told, end_told, answer_after, start_leaves, release_leaves, tick_leaves, end_leaves};

use crate::{ANSWER, say};
use kinds::{Refusal, RowNumber, Serial};
use run::Run;

// Starts a run on a table, in the memory that is lent, whatever stands there. It returns 33, or the table's refusal with its place, after which the memory
// holds the fresh run of the empty table. Before all that, an answer buffer that is not 16 bytes long is refused with 13, and nothing changes. (9.10, 9.12,
// 9.13)
pub fn run_start(table: &[u8], run: &mut Run, answer: &mut [u8]) -> u32
    ensures { (result ≡ (start_leaves (length answer.old) run.old table.now).status)
        × (answer.new ≡ answer_after answer.old (start_told table.now))
        × (run.new ≡ (start_leaves (length answer.old) run.old table.now).run) }
{
    if answer.len() != ANSWER {
        return Refusal::AnswerNot16Bytes.number();
    }
    let step = run::start(table);
    *run = step.run;
    say(answer, live::start(step.answer))
}

// Releases a job of a row or a server in the run that is lent. It returns 34 with the job's serial and due time, or 11, 6, 7, 8 or 9, which leave the run as it
// was. Before all that, an answer buffer that is not 16 bytes long is refused with 13, and nothing changes. (9.11 to 9.13)
pub fn run_release(run: &mut Run, row: u64, cost: u64, answer: &mut [u8]) -> u32
    ensures { (result ≡ (release_leaves (length answer.old) run.old row cost).status)
        × (answer.new ≡ answer_after answer.old (release_told run.old row cost))
        × (run.new ≡ (release_leaves (length answer.old) run.old row cost).run) }
{
    if answer.len() != ANSWER {
        return Refusal::AnswerNot16Bytes.number();
    }
    let step = run.release(RowNumber(row), cost);
    *run = step.run;
    say(answer, live::release(step.answer))
}

// Lets one tick go by in the run that is lent. It returns 35 for idle, 36 or 37 with the serial of the job that had the unit and the jobs that became late, 38
// for taken with the jobs that became late, or 11 or 10, which leave the run as it was. Before all that, an answer buffer that is not 16 bytes long is refused
// with 13, and nothing changes. (9.11 to 9.13)
pub fn run_tick(run: &mut Run, answer: &mut [u8]) -> u32
    ensures { (result ≡ (tick_leaves (length answer.old) run.old).status)
        × (answer.new ≡ answer_after answer.old (tick_told run.old))
        × (run.new ≡ (tick_leaves (length answer.old) run.old).run) }
{
    if answer.len() != ANSWER {
        return Refusal::AnswerNot16Bytes.number();
    }
    let step = run.tick();
    *run = step.run;
    say(answer, live::tick(step.answer, step.late))
}

// Ends the pending job that has a serial in the run that is lent. It returns 39 with the units that the job was given, or 11, 17 or 18, which leave the run as
// it was. Before all that, an answer buffer that is not 16 bytes long is refused with 13, and nothing changes. (9.11 to 9.13)
pub fn run_end(run: &mut Run, serial: u64, answer: &mut [u8]) -> u32
    ensures { (result ≡ (end_leaves (length answer.old) run.old serial).status)
        × (answer.new ≡ answer_after answer.old (end_told run.old serial))
        × (run.new ≡ (end_leaves (length answer.old) run.old serial).run) }
{
    if answer.len() != ANSWER {
        return Refusal::AnswerNot16Bytes.number();
    }
    let step = run.end(Serial(serial));
    *run = step.run;
    say(answer, live::end(step.answer))
}
