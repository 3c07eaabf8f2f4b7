// Samples of reading, as the contracts of functions that do nothing.
ghost use Rattle.reader.specs.Sample.{SampleReads};
ghost use Rattle.reader.specs.Readings.{ReadingsOfTheForm};

/// A sheet of three states, read.
#[tactic(auto, using(crate::proofs::Sample::sample_reads))]
pub fn samples()
    ensures { SampleReads }
{}

/// Texts at the edges of the form, and the number that each is answered.
#[tactic(auto, using(crate::proofs::Readings::readings))]
pub fn readings_of_the_form()
    ensures { ReadingsOfTheForm }
{}
