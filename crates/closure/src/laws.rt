// Laws of the closure.
ghost use Rattle.closure.specs.Exact.{ForcedIsTheSmallest, ComputedIsTheForced};

/// The forced literals are the smallest set that holds what is given and is closed under the unit rule.
pub fn forced_is_the_smallest()
    ensures { ForcedIsTheSmallest }
{}

/// The computed closure fails exactly where a literal and its opposite are forced, and else marks the forced literals.
pub fn computed_is_the_forced()
    ensures { ComputedIsTheForced }
{}
