//! The program `canon` as the gate runs it on the argument `outline`.
#![tactic(auto)]

use canon_program::program;
use std::process::ExitCode;

fn main(rt: HostRuntime) -> ExitCode {
    program(&rt, &mut rt.stderr())
}
