//! The output of a text, or its fault, by `canonical` and by `run`.

use canon::{Fault, Watched, run, status};
use rust_map::SourceMap;
use std::alloc::{AllocError, Global};
use test_support::{Page, Unanswered};

/// What a text is answered.
pub type Answer = Result<String, Fault>;

/// What a text is answered by `canonical`, in a map of its own.
pub fn answer(alloc: Global, text: &str) -> Answer {
    canon::canonical(alloc, text, &mut SourceMap::new(alloc))
}

/// The output of a text, which is its own output, or what is said of its fault. `run` does alike.
pub fn canonical(text: &str, page: &mut Page) -> Result<(), Unanswered> {
    let answer = answer(page.alloc(), text);
    if runs_alike(page.alloc(), text, &answer)? {
        put(&answer, page);
    } else {
        page.put("run does otherwise");
    }
    Ok(())
}

/// The same, but of a text that is refused no more than that.
pub fn of_file(text: &str, page: &mut Page) -> Result<(), Unanswered> {
    match answer(page.alloc(), text) {
        Err(Fault::Lexical(_) | Fault::Syntax { .. }) => page.put("refused"),
        _ => return canonical(text, page),
    }
    Ok(())
}

fn put(answer: &Answer, page: &mut Page) {
    match answer {
        Ok(output) => put_output(output.as_str(), page),
        Err(fault) => page.show(fault),
    }
}

// Puts an output, if it is its own.
fn put_output(output: &str, page: &mut Page) {
    match answer(page.alloc(), output) {
        Ok(again) if again.as_str() == output => page.quote(output),
        Ok(again) => write!(page, "not its own: {again}"),
        Err(fault) => write!(page, "not its own: {fault}"),
    }
}

// Whether `run` of a text writes that output and a line feed, or refuses it by that fault with nothing written.
fn runs_alike(alloc: Global, text: &str, answer: &Answer) -> Result<bool, AllocError> {
    let mut writer = Watched::new(Vec::new(alloc));
    let outcome = run(alloc, &mut Watched::new(text.as_bytes()), &mut writer);
    let is_written = is_output(answer, writer.get_ref().as_slice());
    Ok(is_written && status(&outcome) == wanted_status(answer) && is_said(alloc, answer, &outcome)?)
}

// Whether bytes are the output and a line feed, or none at all for a fault.
fn is_output(answer: &Answer, written: &[u8]) -> bool {
    match answer {
        Ok(output) => is_line(written, output.as_str()),
        Err(_) => written.is_empty(),
    }
}

/// Whether bytes are a text and a line feed.
pub fn is_line(written: &[u8], text: &str) -> bool {
    written.strip_suffix(b"\n") == Some(text.as_bytes())
}

// The status that goes with an answer.
fn wanted_status(answer: &Answer) -> u8 {
    match answer {
        Ok(_) => 0,
        Err(_) => 1,
    }
}

// Whether the same is said of the fault, if there is one.
fn is_said(
    alloc: Global,
    answer: &Answer,
    outcome: &Result<(), Fault>,
) -> Result<bool, AllocError> {
    match (answer, outcome) {
        (Ok(_), Ok(())) => Ok(true),
        (Err(fault), Err(again)) => {
            let wanted = fault.to_string(alloc)?;
            Ok(wanted.as_str() == again.to_string(alloc)?.as_str())
        }
        _ => Ok(false),
    }
}
