//! The program `canon` as the gate runs it on an argument that is not UTF-8, and so none that it knows: what it says,
//! it says on standard output, which the gate compares.
#![tactic(auto)]

use canon_program::program;
use std::process::ExitCode;

fn main(rt: HostRuntime) -> ExitCode {
    program(&rt, &mut rt.stdout())
}
