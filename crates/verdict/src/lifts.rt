// Lower lines above what a part leaves out. The line of a part is the sum of its terms' lines, and may be far above the sum of the terms. What is left out
// repeats itself every Q, where Q is a multiple of the b of each term that is left out. So looks at the lengths up to d + Q tell the lowest line of the same
// slope that is above it in every length. (docs/RULES.md, 5.3 and 5.7.)
ghost use Rattle.std.specs.Prelude.{◌≡◌, true, ◌≢◌, ℕ, ◌+◌, ◌%◌, ◌≤◌};
ghost use Rattle.std.specs.Int.{◌∣◌};
ghost use Rattle.table.specs.Limits.{max_period};
ghost use Rattle.verdict.specs.HeldTerms.{max_searched};
ghost use Rattle.verdict.specs.HeldParts.{LeftOutRepeats, LineAbove, LowerLift, max_over, part_demand, line_slope, line_lift};
ghost use Rattle.verdict.specs.Searched.{held_by, IsLine};

use crate::choices::Way;
use crate::cycle::Cycle;
use crate::parts::{Part, part_of};
use crate::terms::{GROUP, Terms};

// Whether b divides the step or the turn.
fn divides_one(step: u64, turn: u64, b: u64) -> bool
    requires { 1 ≤ b }
    ensures { result ≡ true → step % b ≢ 0 → b ∣ turn }
{
    step % b == 0 || turn % b == 0
}

// Whether what is left out of the part for a step repeats itself every `turn`.
fn repeats_every(terms: &Terms, step: u64, turn: u64) -> bool
    ensures { result ≡ true → LeftOutRepeats terms.now.entries terms.now.count step turn }
{
    if !divides_one(step, turn, terms.entries[1]) {
        return false;
    }
    for i in 0..terms.count {
        if !divides_one(step, turn, terms.entries[GROUP * i + GROUP + 4]) {
            return false;
        }
    }
    true
}

// The smallest multiple of `parts` after which what is left out of the part for a step repeats itself, if there is one up to `most`.
pub(crate) fn turn_of(terms: &Terms, step: u64, parts: u64, most: u64) -> Option<u64>
    requires { (1 ≤ parts) × (parts ≤ max_period) × (most ≤ max_period) }
{
    let mut turn = parts;
    while turn <= most {
        if repeats_every(terms, step, turn) {
            return Some(turn);
        }
        turn += parts;
    }
    None
}

// The smallest lift with which the line of a part is above what the part leaves out in every length below `end`.
fn least_lift(terms: &Terms, part: &Part, end: u64) -> u64
    requires { (end ≤ max_searched + 1)
        × (LineAbove (held_by terms.now) (held_by part.now.terms) part.now.line.period part.now.line.slope part.now.line.lift) }
    ensures { LowerLift (held_by terms.now) (held_by part.now.terms) part.now.line.period part.now.line.slope part.now.line.lift end result }
{
    let mut most: u64 = 0;
    for at in 0..end {
        let rest = terms.demand(at).saturating_sub(part.terms.demand(at));
        most = most.max((part.line.period * rest).saturating_sub(part.line.slope * at));
    }
    most
}

// The part for the step of a way, in the place of the part that is lent. Its line is lowered where the way has a `turn` after which what is left out repeats
// itself.
pub(crate) fn lowered(cycle: &Cycle, way: Way, part: &mut Part)
    requires { cycle.now.growth ≤ cycle.now.period + max_over }
    ensures { (IsLine (held_by cycle.now.terms) part.new.terms cycle.now.d way.step cycle.now.period cycle.now.growth part.new.line)
        × ((L : ℕ) → held_by part.new.terms L ≡ part_demand cycle.now.terms.entries cycle.now.terms.count way.step L)
        × (part.new.line.slope ≡ line_slope cycle.now.terms.entries cycle.now.terms.count way.step cycle.now.period)
        × (part.new.line.lift ≤ line_lift cycle.now.terms.entries cycle.now.terms.count way.step cycle.now.period) }
{
    part_of(cycle, way.step, part);
    if let Some(turn) = way.turn
        && 1 <= turn
        && turn <= cycle.period
        && repeats_every(&cycle.terms, way.step, turn)
    {
        part.line.lift = least_lift(&cycle.terms, part, cycle.d + turn);
    }
}
