// The quick search among the lengths up to H + the largest d. The demand never falls from a length to a longer one. So where a length fits, every length from
// its demand up to it fits as well, and a search that starts at the end of a stretch passes over all of these at once. Everything here is about the demand that
// an array of terms holds, raised by `extra` in every length. (docs/RULES.md, 5.4 to 5.9.)
ghost use Rattle.std.specs.Prelude.{◌≡◌, ◌+◌, ◌≤◌, ◌<◌};
ghost use Rattle.theory.specs.Curves.{SmallestFailing, FitsUpTo};
ghost use Rattle.theory.specs.Descent.{raised, LeastSlack, SmallestFrom, FitsBetween};
ghost use Rattle.verdict.specs.Verdict.{RightFor};
ghost use Rattle.verdict.specs.HeldTerms.{max_searched};
ghost use Rattle.verdict.specs.QuickVerdict.{LargestOrNone, SmallestOrNone, Failing};
ghost use Rattle.verdict.specs.Searched.{held_by};

use crate::classes::period_search;
use crate::cycle::Cycle;
use crate::stretch::Stretch;
use crate::terms::Terms;
use crate::{Verdict, Witness};

// The largest length of a stretch that fails, if one does. Each look at a length settles all lengths down to its demand.
// `extra` stands beside the terms: a struct of both would lend the terms, and each function here would name how long it lends them.
fn descend(terms: &Terms, extra: u64, stretch: Stretch) -> Option<u64>
    requires { extra ≤ max_searched }
    ensures { LargestOrNone (raised (held_by terms.now) extra) stretch.lo stretch.hi result }
{
    let mut at = stretch.hi;
    while stretch.lo <= at {
        let demand = terms.demand(at) + extra;
        if at < demand {
            return Some(at);
        }
        if demand <= stretch.lo {
            return None;
        }
        at = demand - 1;
    }
    None
}

// The smallest length of a stretch that fails, where its last one does. The lengths below it are halved until none is left.
fn smallest(terms: &Terms, extra: u64, stretch: Stretch) -> u64
    requires { (extra ≤ max_searched) × (Failing (raised (held_by terms.now) extra) stretch.lo stretch.hi) }
    ensures { SmallestFrom (raised (held_by terms.now) extra) stretch.lo stretch.hi result }
{
    let mut low = stretch.lo;
    let mut high = stretch.hi;
    while low < high {
        let middle = low + (high - low - 1) / 2;
        let lower = Stretch {
            lo: low,
            hi: middle,
        };
        match descend(terms, extra, lower) {
            None => low = middle + 1,
            Some(found) => high = found,
        }
    }
    high
}

// The smallest length of a stretch that fails, if one does. The stretches that are looked at double, so that the cost follows the smallest one that fails.
pub(crate) fn first(terms: &Terms, extra: u64, stretch: Stretch) -> Option<u64>
    requires { extra ≤ max_searched }
    ensures { SmallestOrNone (raised (held_by terms.now) extra) stretch.lo stretch.hi result }
{
    let mut low = stretch.lo;
    while low <= stretch.hi {
        let high = (low + (low - stretch.lo)).min(stretch.hi);
        if let Some(found) = descend(terms, extra, Stretch { lo: low, hi: high }) {
            return Some(smallest(terms, extra, Stretch { lo: low, hi: found }));
        }
        low = high + 1;
    }
    None
}

// The least slack of the lengths of a stretch, all of which fit: the ticks that the tightest of them has to spare.
fn least_slack(terms: &Terms, stretch: Stretch) -> u64
    requires { (stretch.lo ≤ stretch.hi) × (FitsBetween (held_by terms.now) stretch.lo stretch.hi) }
    ensures { LeastSlack (held_by terms.now) stretch.lo stretch.hi result }
{
    let Stretch { lo, hi } = stretch;
    let mut slack = hi - terms.demand(hi);
    let mut top = hi - 1;
    while lo <= top {
        let Some(found) = descend(terms, slack, Stretch { lo, hi: top }) else {
            return slack;
        };
        slack = found - terms.demand(found);
        top = found - 1;
    }
    slack
}

// The witness where the growth is above the period and the lengths up to d + period fit. The least slack of the period after d is used up after k periods, and
// the witness is k periods after the first length of that period that has less than k · over ticks to spare. (5.9)
fn late_witness(cycle: &Cycle) -> Witness
    requires { (cycle.now.period < cycle.now.growth) × (FitsUpTo (held_by cycle.now.terms) (cycle.now.d + cycle.now.period)) }
    ensures { (SmallestFailing (held_by cycle.now.terms) result.length) × (result.demand ≡ held_by cycle.now.terms result.length) }
{
    let terms = &cycle.terms;
    let after_d = Stretch {
        lo: cycle.d + 1,
        hi: cycle.d + cycle.period,
    };
    let over = cycle.growth - cycle.period;
    let k = least_slack(terms, after_d) / over + 1;
    let r = first(terms, k * over, after_d).unwrap();
    Witness {
        length: k * cycle.period + r,
        demand: k * cycle.growth + terms.demand(r),
    }
}

// The verdict where the lengths up to `done` fit. The lengths up to d + period settle it where the growth is at most the period. Otherwise there is a witness,
// and looks at the period after d tell it. (5.4 to 5.9)
pub(crate) fn search(cycle: &Cycle, done: u64) -> Verdict
    requires { (done ≤ cycle.now.d + cycle.now.period) × (FitsUpTo (held_by cycle.now.terms) done) }
    ensures { RightFor (held_by cycle.now.terms) result }
{
    if let Some(found) = period_search(cycle, done) {
        return Verdict::Overloaded(Witness {
            length: found,
            demand: cycle.terms.demand(found),
        });
    }
    if cycle.growth <= cycle.period {
        return Verdict::Feasible;
    }
    Verdict::Overloaded(late_witness(cycle))
}
