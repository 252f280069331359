//! What the program `canon` does: arguments, standard streams, the status, and what is said. It is a library so that
//! the same can be asked with streams and files in memory, and so that programs can say it elsewhere than on standard
//! error.
//!
//! - `files`: files that are joined.
#![tactic(auto)]

ghost use Rattle.canon.specs.Message.{status_of};
ghost use Rattle.canon_io.specs.Watched.{has_failed, inner_of};
ghost use Rattle.canon_program.specs.Asked.{IsAsked};
ghost use Rattle.canon_program.specs.Ending.{Ends};
ghost use Rattle.std.specs.Prelude.{◌≡◌, drop, false, map, string_bytes};

pub mod files;

use crate::files::{Files, run_join};
use canon::{Fault, Watched, run, run_outline, status, write_fault};
use std::alloc::Global;
use std::env;
use std::io::{ErrorKind, Read, Write};
use std::process::ExitCode;

/// The status of a call with arguments that the program doesn't know.
const USAGE: u8 = 2;

/// What is asked for.
#[derive(Clone, Copy, Drop)]
pub enum Asked<'a> {
    /// The canonical form.
    Canonical,
    /// The outline.
    Outline,
    /// What the files of these names are joined to.
    Join(&'a [String]),
    /// Nothing that the program knows.
    Unknown,
}

/// Reads Rust source on standard input and writes its canonical form to standard output, or its outline where the one
/// argument is `outline`. Where the first argument is `join`, it reads the files that the others name in place of
/// standard input, and writes the canonical form of what they are joined to. Or it says to `messages` why there is
/// none, in one line.
///
/// Ends with 0 where that was written, 1 where the text is at fault, 2 where there are other arguments, and 3 where
/// something else failed. A failed write to `messages` changes no status.
pub fn program<M: Write>(rt: &HostRuntime, messages: &mut M) -> ExitCode {
    let mut reader = Watched::new(rt.reader());
    let mut writer = Watched::new(rt.stdout());
    ExitCode::from(match words_of(rt) {
        Ok(words) => {
            let asked = words
                .as_ref()
                .map_or(Asked::Unknown, |words| asked_by(words.as_slice()));
            run_asked(rt.alloc(), rt, asked, &mut reader, &mut writer, messages)
        }
        Err(fault) => ended(messages, &Err(fault)),
    })
}

// The program's name and its arguments. None: one of them isn't UTF-8.
fn words_of(rt: &HostRuntime) -> Result<Option<Vec<String>>, Fault> {
    match env::args(rt) {
        Ok(args) => Ok(Some(args.collect(rt.alloc())?)),
        Err(error) if error.kind() == ErrorKind::OutOfMemory => Err(Fault::Memory),
        Err(_) => Ok(None),
    }
}

/// What is asked for by the program's name and its arguments.
pub fn asked_by(words: &[String]) -> Asked<'_>
    ensures { IsAsked (map string_bytes (drop 1 words.now)) result }
{
    match words {
        [] | [_] => Asked::Canonical,
        [_, word] if word.as_str() == "outline" => Asked::Outline,
        [_, word, names @ ..] if word.as_str() == "join" && !names.is_empty() => Asked::Join(names),
        _ => Asked::Unknown,
    }
}

/// Does what is asked for, from a reader or files to a writer, and says to `messages` why it is not done, if it isn't:
/// the program, but for its arguments and the files and streams that it has. The answer is the status.
pub fn run_asked<F: Files, R: Read, W: Write, M: Write>(
    alloc: Global,
    files: &F,
    asked: Asked<'_>,
    reader: &mut Watched<R>,
    writer: &mut Watched<W>,
    messages: &mut M,
) -> u8
    requires reader { has_failed reader.old ≡ false }
    requires writer { has_failed writer.old ≡ false }

    // The status is that of a run's outcome, by which the page was written, or what was read was at fault; or 2.
    ensures { Ends (F.held files.now) asked.entry result (R.remaining (inner_of reader.old))
        (W.contents (inner_of writer.old)) (W.contents (inner_of writer.new)) }
{
    match asked {
        Asked::Canonical => ended(messages, &run(alloc, reader, writer)),
        Asked::Outline => ended(messages, &run_outline(alloc, reader, writer)),
        Asked::Join(names) => ended(messages, &run_join(alloc, files, names, writer)),
        Asked::Unknown => usage(messages),
    }
}

// Says what the program may be asked for. The answer is the status of a call that asks for something else.
fn usage<M: Write>(messages: &mut M) -> u8
    ensures { result ≡ 2 }
{
    let _ = writeln!(messages, "usage: canon [outline | join FILE..]");
    USAGE
}

// Says the fault, if there is one. The answer is the outcome's status.
fn ended<M: Write>(messages: &mut M, outcome: &Result<(), Fault>) -> u8
    ensures { result ≡ status_of outcome.now }
{
    if let Err(fault) = outcome {
        let _ = write_fault(fault, messages);
    }
    status(outcome)
}
