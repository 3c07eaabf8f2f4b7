// What holds of all texts, as the contract of a function that does nothing.
ghost use Rattle.sheet.specs.OneReading.{OneReading};

/// A text is of sheet form exactly when it is the rendering of values in their ranges, and of no others.
#[tactic(auto, using(crate::proofs::Readings::one_reading))]
pub fn a_sheet_has_one_reading()
    ensures { OneReading }
{}
