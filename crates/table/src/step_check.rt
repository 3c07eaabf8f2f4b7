// The tests of the step records.
ghost use Rattle.std.specs.Prelude.{◌≡◌, false, ◌≤◌, ◌<◌};
ghost use Rattle.table.specs.Table.{records, step_of, step_width};
ghost use Rattle.table.specs.Accept.{step_fits, steps_verdict};

use crate::record::{Step, record_at};
use crate::refusal::Refusal;

// Both ends are states.
fn step_fits(n: usize, x: Step) -> bool
    ensures { result ≡ step_fits n x }
{
    x.from < n && x.to < n
}

// One pass: the first step with an end that is no state is refused at once. Which steps were given is kept in a table
// of bits, a row for each state and a bit for each end, so that a step given twice is found without comparing pairs.
pub fn check_steps(section: &[u8], e: usize, n: usize) -> Result<(), Refusal>
    requires { n ≤ 32 }
    ensures { result ≡ steps_verdict n (records step_of step_width e section.now) }
{
    let mut given = [0u32; 32];
    let mut repeated = false;
    for j in 0..e {
        let x: Step = record_at(section, j);
        if !step_fits(n, x) {
            return Err(Refusal::StepEnd);
        }
        let row = given[x.from];
        repeated = repeated || sets::contains(row, x.to);
        given[x.from] = sets::insert(row, x.to);
    }
    if repeated {
        Err(Refusal::RepeatedStep)
    } else {
        Ok(())
    }
}
