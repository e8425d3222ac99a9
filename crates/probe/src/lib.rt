// The probe, which is for comparisons only: calls by which another program can compare what the host's calls don't reach. They are the number writer, the
// chooser, the verdict by every length, a trace of calls on a run, and four calls on a run that is lent. Numbers are lent as words of eight bytes, lowest byte
// first.
#![tactic(auto)]

ghost use Rattle.std.specs.Prelude.{◌≡◌, ◌*◌, ◌≤◌, length};
ghost use Rattle.std.proofs.lemmas.List.Edits.{sets};
ghost use Rattle.numbers.specs.Answers.{written_says};
ghost use Rattle.numbers.specs.Writing.{written, buffer_after};
ghost use Rattle.script.specs.Answers.{which_number};
ghost use Rattle.words.specs.Words.{word_length};
ghost use Rattle.host.specs.Answer.{answer_length, answer_bytes, VerdictAnswered};
ghost use Rattle.run.specs.Answers.{start_says, release_says, tick_says, end_says};
ghost use Rattle.live.specs.Statuses.{as_said};
ghost use Rattle.probe.specs.Words.{words_bytes};
ghost use Rattle.probe.specs.Written.{in_one_number};
ghost use Rattle.probe.specs.Chosen.{copied, chosen_said, chosen_answered};
ghost use Rattle.probe.specs.Traced.{word_or_0, as_call, call_of, start_words, release_words, tick_words, end_words};
ghost use Rattle.probe.specs.Traced.{after_call, answers_shown, trace_words, answers_after};
ghost use Rattle.probe.specs.LentRuns.{lent_started, lent_released, lent_ticked, lent_ended};

use jobs::Finished;
use kinds::{Refusal, RefusedAt, RowNumber, Serial, Tick};
use live::Saying;
use run::{Accepted, Run, Ticked};
use script::{Next, RefusedIn, Which};
use words::WORD;

// The length of the chooser's answer buffer in bytes: two words.
const CHOICE: usize = 2 * WORD;

// What the chooser returns where nothing is refused.
const A_RECORD: u32 = 1;

// The length of one call of a trace in bytes: three words.
const CALL: usize = 3 * WORD;

// The length of one answer of a trace in bytes: four words.
const ANSWER: usize = 4 * WORD;

// The first word of a release. A call whose first word is neither this nor `END` is a tick.
const RELEASE: u64 = 1;

// The first word of an end.
const END: u64 = 3;

// The most answers that a trace writes: their number is returned in four bytes.
const MOST: usize = 0xFFFF_FFFF;

// Writes words into a buffer, one after another, from its start on.
fn put_words(buffer: &mut [u8], words: &[u64])
    requires { word_length * length words.now ≤ length buffer.old }
    ensures { buffer.new ≡ sets buffer.old 0 (words_bytes words.now) }
{
    for (k, &word) in words.iter().enumerate() {
        // The buffer has room for all words, so none is refused.
        let _ = words::put(&mut buffer[k * WORD..], word);
    }
}

// Writes the two numbers beside a status into an answer buffer of two words, and returns the status. (9.4)
fn say(answer: &mut [u8], told: Saying) -> u32
    requires { length answer.old ≡ answer_length }
    ensures { (result ≡ told.number) × (answer.new ≡ answer_bytes (as_said told)) }
{
    put_words(answer, &[told.first, told.second]);
    told.number
}

// ---- the number writer

// Writes a number's spelling at the start of the buffer. It returns the spelling's length, 1 to 6, or the refusal's number, 12 or 25. (2.12, 2.13)
#[unsafe(no_mangle)]
pub extern "C" fn write_number(number: u64, buffer: &mut [u8]) -> u32
    ensures { (result ≡ in_one_number (written_says (written number (length buffer.old))))
        × (buffer.new ≡ buffer_after (written number (length buffer.old)) number buffer.old) }
{
    match numbers::write(buffer, number) {
        Ok(n) => n as u32,
        Err(r) => r.number(),
    }
}

// ---- the chooser

// Copies bytes to the start of a buffer, as many as fit.
fn copy(bytes: &[u8], buffer: &mut [u8])
    ensures { buffer.new ≡ copied bytes.now buffer.old }
{
    let fit = bytes.len().min(buffer.len());
    buffer[..fit].copy_from_slice(&bytes[..fit]);
}

// The number that says which script it is: 1 for the first and 2 for the second. It is no `From`, because both types are those of other crates.
fn which_number(script: Which) -> u64
    ensures { result ≡ which_number script }
{
    match script {
        Which::First => 1,
        Which::Second => 2,
    }
}

// What the chooser says: 1 with the next record's length and its script, 1 with 0 and 0 where both scripts have ended, or the refusal with its place and which
// script it is. (7.8 to 7.12)
fn chosen_told(chosen: Result<Option<Next>, RefusedIn>) -> Saying
    ensures { as_said result ≡ chosen_said chosen }
{
    match chosen {
        Ok(Some(next)) => Saying {
            number: A_RECORD,
            first: next.length as u64,
            second: which_number(next.script),
        },
        Ok(None) => Saying {
            number: A_RECORD,
            first: 0,
            second: 0,
        },
        Err(r) => Saying {
            number: r.at.refusal.number(),
            first: r.at.place as u64,
            second: which_number(r.script),
        },
    }
}

// The record that comes next of two scripts. The call returns 1, copies the record's bytes to the start of `part`, as many as fit, and writes the record's
// length and its script, 1 or 2, into the answer buffer. Where both scripts have ended, it returns 1 and writes 0 and 0. Where the chooser refuses, it returns
// the refusal's number and writes its place and which script it is. Before all that, an answer buffer that is not 16 bytes long is refused with 13. (7.8 to
// 7.12)
#[unsafe(no_mangle)]
pub extern "C" fn choose<'a>(
    first: &'a [u8],
    second: &'a [u8],
    first_time: u64,
    second_time: u64,
    part: &mut [u8],
    answer: &mut [u8],
) -> u32
    ensures { record { status = result; part = part.new; answer = answer.new }
        ≡ chosen_answered first.now second.now first_time second_time part.old answer.old }
{
    if answer.len() != CHOICE {
        return Refusal::AnswerNot16Bytes.number();
    }
    let one = Tick(first_time);
    let other = Tick(second_time);
    copy(script::chosen_part(first, second, one, other), part);
    let chosen = script::choose(first, second, one, other);
    say(answer, chosen_told(chosen))
}

// ---- the verdict by every length

// The verdict on a table, by a look at every length in turn. It returns and writes what the host's verdict does, by the same contract, which one status and one
// answer buffer only satisfy. (9.2, 9.5, 9.6)
#[unsafe(no_mangle)]
pub extern "C" fn verdict_every_length(table: &[u8], answer: &mut [u8]) -> u32
    ensures { VerdictAnswered table.now answer.old result answer.new }
{
    if answer.len() != host::ANSWER {
        return Refusal::AnswerNot16Bytes.number();
    }
    let verdict = verdict::judge_every_length(table);
    say(answer, host::verdict_told(verdict))
}

// ---- a trace

// A call of a trace: a release of a row with a cost, the end of the job with a serial, or a tick.
#[derive(Clone, Copy)]
enum Call {
    Release(RowNumber, u64),
    End(Serial),
    Tick,
}

impl Call {
    // The call that three words say.
    fn of(kind: u64, row: u64, cost: u64) -> Call
        ensures { as_call result ≡ call_of kind row cost }
    {
        match kind {
            RELEASE => Call::Release(RowNumber(row), cost),
            END => Call::End(Serial(row)),
            _ => Call::Tick,
        }
    }
}

// The run after a call, and the call's answer in four words.
#[derive(Clone, Copy)]
struct Played {
    run: Run,
    answer: [u64; 4],
}

// The word at a place, or 0 where it is cut off.
fn word_at(bytes: &[u8], at: usize) -> u64
    ensures { result ≡ word_or_0 bytes.now at }
{
    match words::get(bytes, at) {
        Ok(n) => n.value,
        Err(_) => 0,
    }
}

// The words of a start's answer: 1 where the run is ready, or 6 with the refusal's number and place. (6.4)
fn start_words(answer: Result<(), RefusedAt>) -> [u64; 4]
    ensures { result ≡ start_words (start_says answer) }
{
    match answer {
        Ok(()) => [1, 0, 0, 0],
        Err(r) => [6, r.refusal.number() as u64, r.place as u64, 0],
    }
}

// The words of a release's answer: 2 with the job's serial and due time, or 6 with the refusal's number. (6.6, 6.8)
fn release_words(answer: Result<Accepted, Refusal>) -> [u64; 4]
    ensures { result ≡ release_words (release_says answer) }
{
    match answer {
        Ok(a) => [2, a.serial.0, a.due.0, 0],
        Err(r) => [6, r.number() as u64, 0, 0],
    }
}

// The words of a tick's answer, with the late count as the last: 3 for idle, 4 with the serial for a unit that did not finish its job, 5 with the serial for
// one that did, 7 for taken, or 6 with the refusal's number. (6.12, 6.14, 6.16)
fn tick_words(answer: Ticked, late: u64) -> [u64; 4]
    ensures { result ≡ tick_words (tick_says answer) late }
{
    match answer {
        Ticked::Idle => [3, 0, 0, late],
        Ticked::Ran(ran) => match ran.finished {
            Finished::No => [4, ran.serial.0, 0, late],
            Finished::Yes => [5, ran.serial.0, 0, late],
        },
        Ticked::Taken => [7, 0, 0, late],
        Ticked::Refused(r) => [6, r.number() as u64, 0, 0],
    }
}

// The words of an end's answer: 8 with the units that the job was given, or 6 with the refusal's number. (6.27, 6.30)
fn end_words(answer: Result<u64, Refusal>) -> [u64; 4]
    ensures { result ≡ end_words (end_says answer) }
{
    match answer {
        Ok(units) => [8, units, 0, 0],
        Err(r) => [6, r.number() as u64, 0, 0],
    }
}

// Plays a call on a run.
fn play(run: Run, call: Call) -> Played
    ensures { result ≡ after_call run (as_call call) }
{
    match call {
        Call::Release(row, cost) => {
            let step = run.release(row, cost);
            Played {
                run: step.run,
                answer: release_words(step.answer),
            }
        }
        Call::End(serial) => {
            let step = run.end(serial);
            Played {
                run: step.run,
                answer: end_words(step.answer),
            }
        }
        Call::Tick => {
            let step = run.tick();
            Played {
                run: step.run,
                answer: tick_words(step.answer, step.late),
            }
        }
    }
}

// How many answers are written: one for the start and one for each whole call, but no more than there is room for, and at most `MOST`. `calls` and `room` are
// the lengths of the two buffers in bytes.
fn answers_shown(calls: usize, room: usize) -> usize
    ensures { result ≡ answers_shown calls room }
{
    (calls / CALL + 1).min(room / ANSWER).min(MOST)
}

// Plays calls on a run that is started on a table. It writes the answer of the start and then the answer of each call, in four words each, and returns how many
// answers were written. A call is three words: 1, the row number and the cost for a release; 3 and the serial for an end. Any other first word is a tick.
#[unsafe(no_mangle)]
pub extern "C" fn trace(table: &[u8], calls: &[u8], answers: &mut [u8]) -> u32
    ensures { (result ≡ answers_shown (length calls.now) (length answers.old))
        × (answers.new ≡ answers_after result (trace_words table.now calls.now) answers.old) }
{
    let shown = answers_shown(calls.len(), answers.len());
    if shown == 0 {
        return 0;
    }
    let started = run::start(table);
    put_words(answers, &start_words(started.answer));
    let mut run = started.run;
    for i in 1..shown {
        let at = (i - 1) * CALL;
        let call = Call::of(
            word_at(calls, at),
            word_at(calls, at + WORD),
            word_at(calls, at + 2 * WORD),
        );
        let step = play(run, call);
        put_words(&mut answers[i * ANSWER..], &step.answer);
        run = step.run;
    }
    shown as u32
}

// ---- a lent run: release, tick and end go through crate `lent`

// The answer of a call on a lent run: the four words that a trace writes.
#[repr(C)]
#[derive(Clone, Copy)]
pub struct FourWords {
    pub words: [u64; 4],
}

// Starts a run on a table, in the memory that is lent, whatever stood there before. It returns the start's answer in four words, as a trace writes it. (6.4)
#[unsafe(no_mangle)]
pub extern "C" fn lent_start(table: &[u8], run: &mut Run) -> FourWords
    ensures { (result ≡ (lent_started table.now).answer) × (run.new ≡ (lent_started table.now).run) }
{
    let started = run::start(table);
    *run = started.run;
    FourWords {
        words: start_words(started.answer),
    }
}

// Releases a job of a row in the run that is lent. It returns the release's answer in four words, as a trace writes it. The run afterwards is that of the
// release by value, refusals included. (6.6, 6.18, 6.19)
#[unsafe(no_mangle)]
pub extern "C" fn lent_release(run: &mut Run, row: RowNumber, cost: u64) -> FourWords
    ensures { (result ≡ (lent_released run.old row.0 cost).answer) × (run.new ≡ (lent_released run.old row.0 cost).run) }
{
    FourWords {
        words: release_words(lent::release(run, row, cost)),
    }
}

// Lets one tick go by in the run that is lent. It returns the tick's answer in four words, as a trace writes it. The run afterwards is that of the tick by
// value, refusals included. (6.10, 6.18, 6.19)
#[unsafe(no_mangle)]
pub extern "C" fn lent_tick(run: &mut Run) -> FourWords
    ensures { (result ≡ (lent_ticked run.old).answer) × (run.new ≡ (lent_ticked run.old).run) }
{
    let said = lent::tick(run);
    FourWords {
        words: tick_words(said.answer, said.late),
    }
}

// Ends the pending job that has a serial in the run that is lent. It returns the end's answer in four words, as a trace writes it. The run afterwards is that
// of the end by value, refusals included. (6.18, 6.19, 6.27)
#[unsafe(no_mangle)]
pub extern "C" fn lent_end(run: &mut Run, serial: Serial) -> FourWords
    ensures { (result ≡ (lent_ended run.old serial.0).answer) × (run.new ≡ (lent_ended run.old serial.0).run) }
{
    FourWords {
        words: end_words(lent::end(run, serial)),
    }
}
