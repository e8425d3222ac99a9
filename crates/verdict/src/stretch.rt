// A stretch of lengths, as the quick search goes through the lengths. (docs/RULES.md, 5.4 to 5.9.)
ghost use Rattle.std.specs.Prelude.{◌≤◌};
ghost use Rattle.verdict.specs.HeldTerms.{max_searched};

// The lengths from `lo` to `hi`. Where `hi` is below `lo`, there are none.
#[derive(Clone, Copy)]
pub(crate) struct Stretch {
    pub(crate) lo: u64,
    pub(crate) hi: u64,
    ghost some_length: { 1 ≤ lo },
    ghost searched: { hi ≤ max_searched },
}
