// Samples, run through the calls: an example of each answer that a call gives, and the most steps that a table may
// have.
#![tactic(auto)]

mod calls;
mod print;
mod refused;
mod repaired;
mod steps;

use print::print_names;
use refused::{run_lists, run_tables};
use repaired::run_repairs;
use std::io;
use steps::run_steps;

fn main(rt: HostRuntime) -> io::Result<()> {
    print_names(&rt)?;
    run_tables(&rt)?;
    run_lists(&rt)?;
    run_repairs(&rt)?;
    run_steps(&rt)
}
