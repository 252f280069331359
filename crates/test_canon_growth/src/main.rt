//! The canonical form of the text on standard input, or its outline where the argument is `outline`, or that of the
//! texts that stand on its lines where it is `join`, in a map that holds an older text. `tests/refused.sh` runs it once
//! for each allocation, refusing that one: where that was refused to the call, the older text's spans answer as before,
//! and the call answers once more as it does in a map of its own.
#![tactic(auto)]

use canon::{Fault, LineColumn, SourceMap, canonical, canonical_joined, outline};
use proc_macro2::TokenStream;
use rust_map::Span;
use std::alloc::{AllocError, Global};
use std::env;
use std::process::ExitCode;
use test_support::{Page, Stop, asked, ended, refused, told};

// Which call is asked for.
#[derive(Clone, Copy)]
enum Call {
    Canonical,
    Outline,
    Join,
}

// What the call answers: what it writes, a line for each row, or the words of its fault.
fn answer(
    alloc: Global,
    call: Call,
    text: &str,
    map: &mut SourceMap,
) -> Result<String, AllocError> {
    let answer = match call {
        Call::Canonical => canonical(alloc, text, map),
        Call::Outline => lines(alloc, text, map),
        Call::Join => joined(alloc, text, map),
    };
    match answer {
        Ok(written) => Ok(written),
        Err(Fault::Memory) => Err(AllocError),
        Err(fault) => fault.to_string(alloc),
    }
}

// The rows of an outline, a line for each.
fn lines(alloc: Global, text: &str, map: &mut SourceMap) -> Result<String, Fault> {
    let mut lines = String::new(alloc);
    for row in outline(alloc, text, map)? {
        let (name, line, column) = (row.name.as_str(), row.place.line, row.place.column);
        let kind = row.kind;
        writeln!(lines, "{kind} {name} {line}:{column}")?;
    }
    Ok(lines)
}

// The canonical form of what a text's lines are joined to.
fn joined(alloc: Global, text: &str, map: &mut SourceMap) -> Result<String, Fault> {
    let mut lines = Vec::new(alloc);
    for line in text.lines() {
        if lines.push(line).is_err() {
            return Err(Fault::Memory);
        }
    }
    canonical_joined(alloc, lines.as_slice(), map)
}

// The span of the one token of an older text.
fn older(alloc: Global, map: &mut SourceMap) -> Result<Span, Stop> {
    let Ok(stream) = TokenStream::from_str(alloc, " older", map) else {
        return Err(Stop::Elsewhere);
    };
    match stream.trees().first() {
        Some(tree) => Ok(tree.span()),
        None => Err(Stop::Changed),
    }
}

// Whether that span stands where it stood.
fn stands(map: &SourceMap, span: Span) -> bool {
    map.holds(span)
        && span.start(map) == LineColumn { line: 1, column: 1 }
        && span.end(map) == LineColumn { line: 1, column: 6 }
}

// What the call answers behind an older text.
fn answer_behind(alloc: Global, call: Call, text: &str, wanted: &str) -> Result<String, Stop> {
    let mut map = SourceMap::new(alloc);
    let span = older(alloc, &mut map)?;
    match answer(alloc, call, text, &mut map) {
        Ok(written) => Ok(written),
        Err(AllocError) => {
            let again = answer(alloc, call, text, &mut map)?;
            refused(stands(&map, span) && again.as_str() == wanted)
        }
    }
}

fn call_of(rt: &HostRuntime) -> Result<Call, Stop> {
    match env::args(rt) {
        Ok(args) => Ok(match args.skip(1).next() {
            None => Call::Canonical,
            Some(word) if word.as_str() == "join" => Call::Join,
            Some(_) => Call::Outline,
        }),
        Err(_) => Err(Stop::Elsewhere),
    }
}

fn run(rt: &HostRuntime) -> Result<(), Stop> {
    let call = call_of(rt)?;
    let Ok(text) = asked(rt) else {
        return Err(Stop::Elsewhere);
    };
    let wanted = answer(
        rt.alloc(),
        call,
        text.as_str(),
        &mut SourceMap::new(rt.alloc()),
    )?;
    let written = answer_behind(rt.alloc(), call, text.as_str(), wanted.as_str())?;
    let mut page = Page::new(rt.alloc());
    page.put(written.as_str());
    match told(rt, &page) {
        Ok(()) => Ok(()),
        Err(_) => Err(Stop::Elsewhere),
    }
}

/// Ends as `stops` says.
fn main(rt: HostRuntime) -> ExitCode {
    ended(run(&rt))
}
