// Reads a sheet from standard input and prints what the fitter answers. Where reading fails nothing is printed.
#![tactic(auto)]

use std::io;
use std::process::ExitCode;

fn main(rt: HostRuntime) -> ExitCode {
    match report::fit_input(&mut rt.stdin(), &mut io::writer(&rt)) {
        Ok(()) => ExitCode::SUCCESS,
        Err(_) => ExitCode::FAILURE,
    }
}
