//! The program `canon`: reads Rust source on standard input, or in files, and writes its canonical form to
//! standard output, or says on standard error why there is none.
#![tactic(auto)]

use canon_program::program;
use std::process::ExitCode;

/// Ends with 0 where the canonical form or the outline was written, 1 where the text is at fault, 2 where there are
/// other arguments than none, `outline`, or `join` and files, and 3 where something else failed.
fn main(rt: HostRuntime) -> ExitCode {
    program(&rt, &mut rt.stderr())
}
