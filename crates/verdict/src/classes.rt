// The search of one period by classes. Lengths that are P apart are one class. Where the slack is small in all lengths, a descent passes over few of them at
// once. But a part of the demand repeats itself every P, and the rest stays below a straight line. So one look at the smallest length of a class can show that
// all its lengths fit, and only the other classes are walked along. (docs/RULES.md, 5.4 to 5.8.)
ghost use Rattle.std.specs.Prelude.{◌+◌, ◌≤◌, ◌<◌};
ghost use Rattle.theory.specs.Curves.{FitsUpTo};
ghost use Rattle.verdict.specs.HeldTerms.{max_searched};
ghost use Rattle.verdict.specs.HeldParts.{LooksSettle, SettledFrom, WalkFound, max_over};
ghost use Rattle.verdict.specs.QuickVerdict.{LargestOrNone, SmallestOrNone};
ghost use Rattle.verdict.specs.Searched.{held_by, with_line};

use crate::blocks::blocks;
use crate::choices::{Way, by_blocks, choose_way};
use crate::cycle::Cycle;
use crate::descent::first;
use crate::lifts::lowered;
use crate::parts::Part;
use crate::stretch::Stretch;
use crate::terms::Terms;

// A period below this is searched by descent alone.
const SHORT: u64 = 8192;

// A demand whose growth in a period is above the period by more than this is searched by descent alone.
const MOST_OVER: u64 = 64;

// About so many lengths of a class are looked at to see from which one on all of them fit.
const LOOKS_IN_CLASS: u64 = 32;

// The largest length of a stretch that fails the part with its line, if one does.
// One search over a closure would replace this and `descend`, but each call would then state the closure's bound and law, which is longer than this loop.
fn descend_part(part: &Part, stretch: Stretch) -> Option<u64>
    ensures { LargestOrNone (with_line part.now.terms part.now.line) stretch.lo stretch.hi result }
{
    let mut at = stretch.hi;
    while stretch.lo <= at {
        let demand = part.look_at(at);
        if at < demand {
            return Some(at);
        }
        if demand <= stretch.lo {
            return None;
        }
        at = demand - 1;
    }
    None
}

// The lengths of a class from `from` on and below `best`. They are `step` apart.
#[derive(Clone, Copy)]
struct Class {
    step: u64,
    from: u64,
    best: u64,
    ghost some_step: { 1 ≤ step },
    ghost most_step: { step ≤ max_searched },
    ghost searched: { best ≤ max_searched + 1 },
}

// The walk along one class: the smallest of its lengths that fails, or `best` if none does.
fn walk(terms: &Terms, class: Class) -> u64
    ensures { WalkFound (held_by terms.now) class.step class.from class.best result }
{
    let mut at = class.from;
    while at < class.best {
        if at < terms.demand(at) {
            return at;
        }
        at += class.step;
    }
    class.best
}

// The first length of some of a class at which a look shows that it and the later ones fit, or `best` if there is none.
fn settled_from(part: &Part, class: Class) -> u64
    ensures { SettledFrom (with_line part.now.terms part.now.line) class.step class.from class.best result }
{
    let jump = (part.line.period / class.step / LOOKS_IN_CLASS + 1) * class.step;
    let mut at = class.from;
    while at < class.best {
        if part.look_at(at) <= at {
            return at;
        }
        at += jump;
    }
    class.best
}

// The smallest length of a class that fails, or `best` if none does. Only the lengths before one at which a look settles the later ones are walked along.
fn walk_class(terms: &Terms, part: &Part, d: u64, class: Class) -> u64
    requires { (d < class.from) × (class.best ≤ d + part.now.line.period + 1)
        × (LooksSettle (held_by terms.now) (with_line part.now.terms part.now.line) d class.step part.now.line.period) }
    ensures { WalkFound (held_by terms.now) class.step class.from class.best result }
{
    let end = settled_from(part, class);
    let before_end = Class {
        step: class.step,
        from: class.from,
        best: end,
    };
    let found = walk(terms, before_end);
    if found < end { found } else { class.best }
}

// The smallest length of the period after d that fails, if one does, by classes. Their part is made in the place of the part that is lent. (5.8)
fn classes(cycle: &Cycle, way: Way, part: &mut Part) -> Option<u64>
    requires { (cycle.now.growth ≤ cycle.now.period + max_over) × (way.step ≤ cycle.now.period) }
    ensures { SmallestOrNone (held_by cycle.now.terms) (cycle.now.d + 1) (cycle.now.d + cycle.now.period) result }
{
    lowered(cycle, way, part);
    let d = cycle.d;
    let mut best = d + part.line.period + 1;
    let mut top = d + way.step;
    while d < top {
        match descend_part(part, Stretch { lo: d + 1, hi: top }) {
            None => top = d,
            Some(found) => {
                let class = Class {
                    step: way.step,
                    from: found,
                    best,
                };
                best = walk_class(&cycle.terms, part, d, class);
                top = found - 1;
            }
        }
    }
    if d + part.line.period < best {
        return None;
    }
    Some(best)
}

// The smallest length of a stretch that fails, if one does, by blocks or by descent.
fn search_rest(cycle: &Cycle, looks: u64, stretch: Stretch) -> Option<u64>
    ensures { SmallestOrNone (held_by cycle.now.terms) stretch.lo stretch.hi result }
{
    if by_blocks(cycle, looks) {
        return blocks(&cycle.terms, stretch);
    }
    first(&cycle.terms, 0, stretch)
}

// The smallest length up to d + period that fails, if one does, where the lengths up to `done` fit. A short period is searched by descent, and so is the
// start of a long one. (5.8)
pub(crate) fn period_search(cycle: &Cycle, done: u64) -> Option<u64>
    requires { (done ≤ cycle.now.d + cycle.now.period) × (FitsUpTo (held_by cycle.now.terms) done) }
    ensures { SmallestOrNone (held_by cycle.now.terms) (done + 1) (cycle.now.d + cycle.now.period) result }
{
    let terms = &cycle.terms;
    let all = Stretch {
        lo: done + 1,
        hi: cycle.d + cycle.period,
    };
    if cycle.period < SHORT || cycle.period + MOST_OVER < cycle.growth {
        return first(terms, 0, all);
    }
    let near = Stretch {
        lo: done + 1,
        hi: cycle.d + cycle.period / 64,
    };
    if let Some(early) = first(terms, 0, near) {
        return Some(early);
    }
    let mut part = Part::whole(cycle);
    let choice = choose_way(cycle, &mut part);
    let rest = Stretch {
        lo: near.hi + 1,
        hi: all.hi,
    };
    let Some(way) = choice.way else {
        return search_rest(cycle, choice.looks, rest);
    };
    let middle = Stretch {
        lo: rest.lo,
        hi: rest.hi.min(cycle.d + choice.looks / 2),
    };
    if let Some(sooner) = first(terms, 0, middle) {
        return Some(sooner);
    }
    classes(cycle, way, &mut part)
}
