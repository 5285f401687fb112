//! Whether patterns are equal.
ghost use Rattle.std.specs.Prelude.{◌≡◌};
ghost use Rattle.tks_event.specs.Equality.{equal_pattern, equal_patterns};
ghost use Rattle.std.specs.Bool.{Decides};

use crate::pattern::Pattern;

impl Pattern {
    /// Whether it is equal to another.
    pub fn is(&self, other: &Pattern) -> bool
        ensures { result ≡ equal_pattern self.now other.now }
    {
        self.near == other.near
            && self.kind == other.kind
            && self.modifiers.bits() == other.modifiers.bits()
            && self.detail == other.detail
    }
}

/// Whether patterns are equal, one by one.
#[tactic(auto, using(crate::proofs::Equal::equal_so))]
pub fn are_equal(patterns: &[Pattern], others: &[Pattern]) -> bool
    ensures value { result ≡ equal_patterns patterns.now others.now }
    ensures equal { Decides result (patterns.now ≡ others.now) }
{
    each_is(patterns, others)
}

fn each_is(patterns: &[Pattern], others: &[Pattern]) -> bool
    ensures { result ≡ equal_patterns patterns.now others.now }
{
    match (patterns, others) {
        ([], []) => true,
        ([pattern, patterns @ ..], [other, others @ ..]) => {
            pattern.is(other) && each_is(patterns, others)
        }
        _ => false,
    }
}
