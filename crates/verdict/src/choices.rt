// How a period is searched: by the classes of a P that divides H, by descent, or by blocks. Samples of the lengths choose. That any choice finds the same length
// is proved where the lengths are searched, so nothing rests on the samples. (docs/RULES.md, 5.4 to 5.8.)
ghost use Rattle.std.specs.Prelude.{◌≡◌, ◌+◌, ◌≤◌, IfSome};
ghost use Rattle.table.specs.Limits.{max_d, max_period};
ghost use Rattle.verdict.specs.HeldTerms.{max_searched};
ghost use Rattle.verdict.specs.HeldParts.{max_over};

use crate::cycle::Cycle;
use crate::lifts::{lowered, turn_of};
use crate::parts::Part;

// A period is divided into at most so many parts.
const MOST_PARTS: u64 = 4096;

// A way to search a period by classes: the P, and, where the line of its part is lowered, the lengths after which what its part leaves out repeats itself.
#[derive(Clone, Copy)]
pub(crate) struct Way {
    pub(crate) step: u64,
    pub(crate) turn: Option<u64>,
    ghost some_step: { 1 ≤ step },
}

// The way that was chosen, if one was, and about how many looks at lengths the search will need.
#[derive(Clone, Copy)]
pub(crate) struct Choice {
    pub(crate) way: Option<Way>,
    pub(crate) looks: u64,
}

// One of the lengths from d + 1 to d + step.
fn sample(x: u64, d: u64, step: u64) -> u64
    requires { (d ≤ max_d) × (1 ≤ step) × (step ≤ max_period) }
    ensures { (d + 1 ≤ result) × (result ≤ d + step) }
{
    d + 1 + x / 64 % step
}

// The share of a look that a length costs, in parts of 64. A look at a length that fits passes over the lengths down to its demand.
fn share(length: u64, demand: u64) -> u64
    requires { length ≤ max_searched }
    ensures { result ≤ 64 }
{
    64 / (length.saturating_sub(demand) + 1)
}

// About how many looks a search of a period needs with a part that repeats itself every `step`. Samples of the first `range` lengths after d tell how far one
// look reaches, and how many lengths have to be walked along. Nothing rests on the answer.
fn guess(part: &Part, d: u64, step: u64, range: u64) -> u64
    requires { (64 ≤ part.now.line.period) × (d ≤ max_d) × (step ≤ part.now.line.period) × (1 ≤ range) × (range ≤ part.now.line.period) }
{
    let period = part.line.period;
    let mut samples = (period / 64).min(1024);
    let mut bad: u64 = 0;
    let mut sum: u64 = 0;
    let mut x: u64 = 1;
    let mut n: u64 = 0;
    // `samples` may get smaller on the way, and n is read afterwards, so no `for` counts this loop.
    while n < samples {
        x = (x * 1103515245 + 12345) % 2147483648;
        let length = sample(x, d, range);
        let demand = part.look_at(length);
        n += 1;
        sum += share(length, demand);
        if length < demand {
            bad += 1;
            if bad == 16 {
                samples = n;
            }
        }
    }
    step * sum / 64 / n + (bad + 1) * period / n
}

// About how many looks a search by classes needs in one way, whose part is made in the place of the part that is lent. Nothing rests on the answer.
fn guess_part(cycle: &Cycle, way: Way, range: u64, part: &mut Part) -> u64
    requires { (64 ≤ cycle.now.period) × (cycle.now.growth ≤ cycle.now.period + max_over) × (way.step ≤ cycle.now.period)
        × (1 ≤ range) × (range ≤ cycle.now.period) }
{
    lowered(cycle, way, part);
    guess(part, cycle.d, way.step, range)
}

// The choice among the steps, beginning with an earlier choice: the step with which a search by classes is thought to need the fewest looks, or the earlier
// choice where no step is thought to need fewer. Where lines are lowered, looks at lengths are spent on it, but no more than `room` of them.
// `lowering` is a flag: a closure in its place would change `room`, and would have to promise what `guess_part` requires of the range.
fn choose(cycle: &Cycle, early: Choice, lowering: bool, part: &mut Part) -> Choice
    requires { (64 ≤ cycle.now.period) × (cycle.now.growth ≤ cycle.now.period + max_over)
        × (IfSome early.way (λ way. way.step ≤ cycle.now.period)) }
    ensures { IfSome result.way (λ way. way.step ≤ cycle.now.period) }
{
    let period = cycle.period;
    let mut choice = early;
    let mut room = period / 8 / (cycle.terms.count as u64 + 8);
    let most = MOST_PARTS.min(period / 64);
    for parts in (2..most + 1).rev() {
        if choice.looks <= period / 32 {
            return choice;
        }
        let step = period / parts;
        if period % parts == 0 && step / 8 < choice.looks {
            let mut turn = None;
            let mut range = step;
            if lowering {
                let left = room.saturating_sub(cycle.d);
                turn = turn_of(&cycle.terms, step, parts, left);
                let Some(lengths) = turn else {
                    continue;
                };
                room = left.saturating_sub(lengths);
                range = period;
            }
            let way = Way { step, turn };
            let looks = guess_part(cycle, way, range, part);
            if looks < choice.looks {
                choice = Choice {
                    way: Some(way),
                    looks,
                };
            }
        }
    }
    choice
}

// So many terms and more are searched by blocks where a 24th of the period's lengths or more would be looked at: the cost of a block does not grow with the
// terms. Looks at fewer terms are cheaper, so that these are searched by blocks where a 5th or more would be looked at.
const MANY: usize = 12;

// Whether the lengths are searched by blocks. Nothing rests on the answer.
pub(crate) fn by_blocks(cycle: &Cycle, looks: u64) -> bool {
    let share = if cycle.terms.count < MANY { 5 } else { 24 };
    cycle.period / share < looks
}

// The way in which the period is searched by classes, or none where it is searched by descent or by blocks. `part` is the part that takes in all terms. The
// parts of the ways that are tried are made in its place.
pub(crate) fn choose_way(cycle: &Cycle, part: &mut Part) -> Choice
    requires { (64 ≤ cycle.now.period) × (cycle.now.growth ≤ cycle.now.period + max_over) × (part.old.line.period ≡ cycle.now.period) }
    ensures { IfSome result.way (λ way. way.step ≤ cycle.now.period) }
{
    let period = cycle.period;
    let descent = Choice {
        way: None,
        looks: guess(part, cycle.d, period, period),
    };
    let early = choose(cycle, descent, false, part);
    let choice = choose(cycle, early, true, part);
    if by_blocks(cycle, choice.looks) {
        return Choice {
            way: None,
            looks: choice.looks,
        };
    }
    choice
}
