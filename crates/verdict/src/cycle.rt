// What the quick search knows of a demand: the terms that hold it, and how it repeats itself. (docs/RULES.md, 5.7.)
ghost use Rattle.std.specs.Prelude.{◌≤◌};
ghost use Rattle.theory.specs.Curves.{Curve};
ghost use Rattle.table.specs.Limits.{max_d, max_period};
ghost use Rattle.verdict.specs.HeldTerms.{held_demand};
ghost use Rattle.verdict.specs.HeldParts.{Repeats};

use crate::terms::Terms;

// A demand that is higher by `growth` one period later, from the length d on. Each of its terms repeats itself from d on, too.
// What a search by classes needs besides is a clause: other searches take a cycle of any period and any growth.
#[derive(Drop)]
pub(crate) struct Cycle {
    pub(crate) terms: Terms,
    pub(crate) d: u64,
    pub(crate) period: u64,
    pub(crate) growth: u64,
    ghost most_d: { d ≤ max_d },
    ghost some_period: { 1 ≤ period },
    ghost most_period: { period ≤ max_period },
    ghost repeats: { Repeats terms.entries terms.count d period },
    ghost curve: { Curve (held_demand terms.entries terms.count) d period growth },
}
