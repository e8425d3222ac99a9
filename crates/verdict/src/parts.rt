// The part of a demand that repeats itself every P, and the line above the rest. The terms whose b divides P repeat themselves every P, and the others stay below
// a straight line. (docs/RULES.md, 5.4 to 5.8.)
ghost use Rattle.std.specs.Prelude.{◌≡◌, ◌+◌, ◌≤◌};
ghost use Rattle.theory.specs.Parts.{taken_into_part, left_out_of_part};
ghost use Rattle.verdict.specs.HeldTerms.{max_searched};
ghost use Rattle.verdict.specs.HeldParts.{max_over};
ghost use Rattle.verdict.specs.Searched.{with_line, IsPart};

use crate::cycle::Cycle;
use crate::line::Line;
use crate::terms::{GROUP, Terms};

// The part of a demand that repeats itself every P, and the line above the rest.
#[derive(Drop)]
pub(crate) struct Part {
    pub(crate) terms: Terms,
    pub(crate) line: Line,
}

impl Part {
    // The part that takes in all terms. Its line is flat.
    pub(crate) fn whole(cycle: &Cycle) -> Part
        requires { cycle.now.growth ≤ cycle.now.period + max_over }
        ensures { result.line.period ≡ cycle.now.period }
    {
        Part {
            terms: Terms {
                entries: cycle.terms.entries,
                count: cycle.terms.count,
            },
            line: Line {
                slope: 0,
                lift: 0,
                period: cycle.period,
                extra: cycle.growth.saturating_sub(cycle.period),
            },
        }
    }

    // A look at a length: the demand of the part, the height of its line, and the line's `extra`. A line without slope costs no division.
    pub(crate) fn look_at(&self, length: u64) -> u64
        requires { length ≤ max_searched }
        ensures { result ≡ with_line self.now.terms self.now.line length }
    {
        let line = &self.line;
        let demand = self.terms.demand(length) + line.extra;
        if line.slope == 0 {
            return demand;
        }
        demand + (line.slope * length + line.lift) / line.period
    }
}

// The amount n where b divides the step, and otherwise 0.
// This and `left_out` are two functions of one line, since each has a definition of the theory for its contract.
fn taken_in(step: u64, b: u64, n: u64) -> u64
    requires { 1 ≤ b }
    ensures { result ≡ taken_into_part step b n }
{
    if step % b == 0 { n } else { 0 }
}

// The amount n where b does not divide the step, and otherwise 0.
fn left_out(step: u64, b: u64, n: u64) -> u64
    requires { 1 ≤ b }
    ensures { result ≡ left_out_of_part step b n }
{
    if step % b == 0 { 0 } else { n }
}

// The part for a step, and its line, in the place of the part that is lent. A term whose b divides the step is taken in. Any other is left out: its growth in a
// period is added to the slope, and that growth times `up` to the lift. (5.7)
pub(crate) fn part_of(cycle: &Cycle, step: u64, part: &mut Part)
    requires { cycle.now.growth ≤ cycle.now.period + max_over }
    ensures { IsPart cycle.now.terms.entries cycle.now.terms.count step cycle.now.period cycle.now.growth part.new }
{
    let terms = &cycle.terms;
    let period = cycle.period;
    let s = terms.entries[0];
    let p = terms.entries[1];
    let takes = s * (period / p);
    part.terms
        .restart(taken_in(step, p, s), p, terms.entries[2]);
    let mut slope = left_out(step, p, takes);
    let mut lift = left_out(step, p, takes * (p - s));
    for i in 0..terms.count {
        let at = GROUP * i + GROUP;
        let w = terms.entries[at + 1];
        let up = terms.entries[at + 2];
        let down = terms.entries[at + 3];
        let b = terms.entries[at + 4];
        let a = terms.entries[at + 5];
        if step % b == 0 {
            part.terms.put(b, a, w, up, down);
        } else {
            let growth = period / b * a * w;
            slope += growth;
            lift += growth * up;
        }
    }
    part.line = Line {
        slope,
        lift,
        period,
        extra: cycle.growth.saturating_sub(period),
    };
}
