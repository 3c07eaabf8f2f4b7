// What holds of writing and reading together, and a sample, as the contracts of functions that do nothing.
ghost use Rattle.render.specs.RoundTrip.{RoundTrip};
ghost use Rattle.render.specs.Sample.{SampleWritten};

/// Reading what was written gives the table again, and writing what was read gives the text again.
#[tactic(auto, using(crate::proofs::RoundTrip::round_trip))]
pub fn sheets_round_trip()
    ensures { RoundTrip }
{}

/// A sheet of three states, written.
#[tactic(auto, using(crate::proofs::Sample::sample_written))]
pub fn samples()
    ensures { SampleWritten }
{}
