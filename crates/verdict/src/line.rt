// A straight line above a part of a demand. (docs/RULES.md, 5.7.)
ghost use Rattle.std.specs.Prelude.{◌≤◌};
ghost use Rattle.table.specs.Limits.{max_period};
ghost use Rattle.verdict.specs.HeldParts.{GoodLine, max_over};

// In a length L the line's height is (slope · L + lift)/period. A look at a length adds `extra`, by which the demand grows in a period more than the period.
#[derive(Drop)]
pub(crate) struct Line {
    pub(crate) slope: u64,
    pub(crate) lift: u64,
    pub(crate) period: u64,
    pub(crate) extra: u64,
    ghost good: { GoodLine slope lift period },
    ghost most_period: { period ≤ max_period },
    ghost most_extra: { extra ≤ max_over },
}
