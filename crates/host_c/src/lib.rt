// The six calls that a C program links, each with the clauses of the call of crate `host` that it makes. The manual for a C program is include/jyrmekko.h.
// (docs/RULES.md, section 9.)
#![tactic(auto)]

ghost use Rattle.std.specs.Prelude.{◌≡◌, length};
ghost use Rattle.host.specs.Answer.{VerdictAnswered, replay_status, replay_answer, replay_log};
ghost use Rattle.host.specs.Live.{start_told, release_told, tick_told, end_told, answer_after, start_leaves, release_leaves, tick_leaves, end_leaves};

use run::Run;

// The verdict on a table. (9.2, 9.5, 9.6)
#[unsafe(no_mangle)]
pub extern "C" fn verdict(table: &[u8], answer: &mut [u8]) -> u32
    ensures { VerdictAnswered table.now answer.old result answer.new }
{
    host::verdict(table, answer)
}

// The replay of a script on a table, into a log. (9.3, 9.5, 9.6)
#[unsafe(no_mangle)]
pub extern "C" fn replay(table: &[u8], script: &[u8], log: &mut [u8], answer: &mut [u8]) -> u32
    ensures { (result ≡ replay_status table.now script.now (length log.old) (length answer.old))
        × (answer.new ≡ replay_answer table.now script.now (length log.old) answer.old)
        × (log.new ≡ replay_log table.now script.now log.old (length answer.old)) }
{
    host::replay(table, script, log, answer)
}

// Starts a run on a table, in the memory that is lent. (9.10, 9.12, 9.13)
#[unsafe(no_mangle)]
pub extern "C" fn run_start(table: &[u8], run: &mut Run, answer: &mut [u8]) -> u32
    ensures { (result ≡ (start_leaves (length answer.old) run.old table.now).status)
        × (answer.new ≡ answer_after answer.old (start_told table.now))
        × (run.new ≡ (start_leaves (length answer.old) run.old table.now).run) }
{
    host::run_start(table, run, answer)
}

// Releases a job of a row or a server in the run that is lent. (9.11 to 9.13)
#[unsafe(no_mangle)]
pub extern "C" fn run_release(run: &mut Run, row: u64, cost: u64, answer: &mut [u8]) -> u32
    ensures { (result ≡ (release_leaves (length answer.old) run.old row cost).status)
        × (answer.new ≡ answer_after answer.old (release_told run.old row cost))
        × (run.new ≡ (release_leaves (length answer.old) run.old row cost).run) }
{
    host::run_release(run, row, cost, answer)
}

// Lets one tick go by in the run that is lent. (9.11 to 9.13)
#[unsafe(no_mangle)]
pub extern "C" fn run_tick(run: &mut Run, answer: &mut [u8]) -> u32
    ensures { (result ≡ (tick_leaves (length answer.old) run.old).status)
        × (answer.new ≡ answer_after answer.old (tick_told run.old))
        × (run.new ≡ (tick_leaves (length answer.old) run.old).run) }
{
    host::run_tick(run, answer)
}

// Ends the pending job that has a serial in the run that is lent. (9.11 to 9.13)
#[unsafe(no_mangle)]
pub extern "C" fn run_end(run: &mut Run, serial: u64, answer: &mut [u8]) -> u32
    ensures { (result ≡ (end_leaves (length answer.old) run.old serial).status)
        × (answer.new ≡ answer_after answer.old (end_told run.old serial))
        × (run.new ≡ (end_leaves (length answer.old) run.old serial).run) }
{
    host::run_end(run, serial, answer)
}
