// What is printed of the sample sheets. A call does nothing when it runs.
ghost use Rattle.report.specs.Samples.{SamplesPrinted};

/// Each sample sheet is printed as it should be, by the definitions alone.
#[tactic(auto, using(crate::proofs::SampleTexts::samples_printed))]
pub fn samples()
    ensures { SamplesPrinted }
{}
