// Release, tick and end of a run that is lent by exclusive reference and changed in place. Answers and runs are those of the calls by value. (docs/RULES.md,
// 6.19.)
#![tactic(auto)]

ghost use Rattle.std.specs.Prelude.{◌≡◌};
ghost use Rattle.run.specs.Ending.{ended};
ghost use Rattle.run.specs.Release.{released};
ghost use Rattle.run.specs.Ticking.{ticked};
ghost use Rattle.lent.specs.Lent.{tick_answer_of};

use kinds::{Refusal, RowNumber, Serial};
use run::{Accepted, EndStep, ReleaseStep, Run, TickStep, Ticked};

// What a tick of a lent run answers: the answer and the late count of the tick by value. (6.14, 6.19)
#[derive(Clone, Copy)]
pub struct TickAnswer {
    pub answer: Ticked,
    pub late: u64,
}

// Releases a job of a row. The answer, and the run behind the reference afterwards, are those of the release by value, refusals included. (6.18, 6.19)
pub fn release(run: &mut Run, row: RowNumber, cost: u64) -> Result<Accepted, Refusal>
    ensures { (result ≡ (released run.old row.0 cost).answer) × (run.new ≡ (released run.old row.0 cost).run) }
{
    let step = run.release(row, cost);
    *run = step.run;
    step.answer
}

// Lets one tick go by. The answer, the late count, and the run behind the reference afterwards are those of the tick by value, refusals included. (6.18, 6.19)
pub fn tick(run: &mut Run) -> TickAnswer
    ensures { (result ≡ tick_answer_of (ticked run.old)) × (run.new ≡ (ticked run.old).run) }
{
    let step = run.tick();
    *run = step.run;
    TickAnswer {
        answer: step.answer,
        late: step.late,
    }
}

// Ends the pending job that has a serial. The answer, and the run behind the reference afterwards, are those of the end by value, refusals included. (6.18,
// 6.19, 6.27)
pub fn end(run: &mut Run, serial: Serial) -> Result<u64, Refusal>
    ensures { (result ≡ (ended run.old serial.0).answer) × (run.new ≡ (ended run.old serial.0).run) }
{
    let step = run.end(serial);
    *run = step.run;
    step.answer
}

// A release by value that goes through the release of a lent run: the run is lent, and handed back beside the answer. Its parameters are plain values, so that
// code can use it which has no run to lend. (6.19)
pub fn release_lent(mut run: Run, row: RowNumber, cost: u64) -> ReleaseStep
    ensures { result ≡ released run row.0 cost }
{
    let answer = release(&mut run, row, cost);
    ReleaseStep { run, answer }
}

// A tick by value that goes through the tick of a lent run: the run is lent, and handed back beside the answer. Its parameters are plain values, so that code
// can use it which has no run to lend. (6.19)
pub fn tick_lent(mut run: Run) -> TickStep
    ensures { result ≡ ticked run }
{
    let said = tick(&mut run);
    TickStep {
        run,
        answer: said.answer,
        late: said.late,
    }
}

// An end by value that goes through the end of a lent run: the run is lent, and handed back beside the answer. Its parameters are plain values, so that code
// can use it which has no run to lend. (6.19)
pub fn end_lent(mut run: Run, serial: Serial) -> EndStep
    ensures { result ≡ ended run serial.0 }
{
    let answer = end(&mut run, serial);
    EndStep { run, answer }
}
