//! The program `canon` as the gate runs it on the argument `join` and names of files, one of them twice: `-` is a name
//! as any other. What stands on standard input is not read.
#![tactic(auto)]

use canon_program::program;
use std::process::ExitCode;

fn main(rt: HostRuntime) -> ExitCode {
    program(&rt, &mut rt.stderr())
}
