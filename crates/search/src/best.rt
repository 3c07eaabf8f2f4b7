// The cheapest find so far, and where a part of the search has ended.
ghost use Rattle.std.specs.Prelude.{◌≡◌};
ghost use Rattle.search.specs.Finds.{beats};

use crate::choices::Choices;

// The find's list stands in a buffer of the search's own, which goes from try to try beside the price: the price by
// value, as in the definitions, the list in place. In one struct it would be copied at each call, or lent with a price
// before and after. The caller's list is written once the search has ended.

/// All of it was tried: the price of the cheapest find, if there is one, and the record of choices as it is by then.
#[derive(Clone, Copy)]
pub struct Passed {
    pub best: Option<u32>,
    pub choices: Choices,
}

/// The cap was reached: the record of choices as it is by then.
#[derive(Clone, Copy)]
pub struct Cut {
    pub choices: Choices,
}

/// Whether steps of this price may still lead to a cheaper find.
pub fn undercuts(price: u32, best: Option<u32>) -> bool
    ensures { result ≡ beats price best }
{
    match best {
        None => true,
        Some(least) => price < least,
    }
}
