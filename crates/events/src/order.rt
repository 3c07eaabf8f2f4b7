// Numbers upward or downward.
ghost use Rattle.std.specs.Prelude.{◌≡◌, ◌<◌};
ghost use Rattle.events.specs.Ordered.{ordered};

// A range and its reverse are two types of iterator, and one loop takes either way by this.

/// The k-th of the numbers below n, going up or going down.
pub fn in_order(down: bool, n: usize, k: usize) -> usize
    requires { k < n }
    ensures { result ≡ ordered down n k }
{
    if down { n - 1 - k } else { k }
}
