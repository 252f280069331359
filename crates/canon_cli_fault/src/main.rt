//! The program `canon` as the gate runs it on a text that is at fault: it writes nothing, and ends with 1.
#![tactic(auto)]

use canon_program::program;
use std::process::ExitCode;

fn main(rt: HostRuntime) -> ExitCode {
    program(&rt, &mut rt.stderr())
}
