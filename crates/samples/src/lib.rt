// Sample tables with their answers, worked out from the definitions: each law is the contract of a function that does
// nothing.
#![tactic(auto)]

ghost use Rattle.std.specs.Prelude.{◌≡◌, true};
ghost use Rattle.table.specs.Accept.{all};
ghost use Rattle.samples.specs.Samples.{passes, cases};
ghost use Rattle.samples.specs.Families.{family_cases};
ghost use Rattle.samples.specs.Prices.{price_cases, SheetAtAnyPrices};
ghost use Rattle.samples.specs.Settled.{settled_cases};
ghost use Rattle.samples.specs.Holding.{writes, holding_cases};

/// Each sample's table is accepted, and Repair or the judge answers what the sample says; where that is a find, the
/// search itself finds the list that the sample says, before it is struck.
pub fn samples_pass()
    ensures plain { all passes cases ≡ true }
    ensures families { all passes family_cases ≡ true }
    ensures prices { all passes price_cases ≡ true }
    ensures settled { all passes settled_cases ≡ true }
{}

/// The sheet at any prices: found from cap 6 on, at the price of one step, and spent below; and the list that the
/// search itself finds, before it is struck.
pub fn sheet_at_any_prices()
    ensures { SheetAtAnyPrices }
{}

/// Each sample of Holding has its answer, and leaves the buffer as it says.
pub fn holding_pass()
    ensures { all writes holding_cases ≡ true }
{}
