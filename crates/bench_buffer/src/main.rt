//! Reads Rust source on standard input, lexes it, makes the buffer of its tokens and walks it, and writes how many
//! tokens of each sort it met. For benchmarks: how fast a buffer is made and walked.
//!
//! The first argument says how often it is walked; with none the text is lexed, and no buffer is made. With a second
//! argument the walk also looks at each place for kinds: a keyword, a name, punctuations of one mark, two and three.
//!
//! - `counts`: what a walk met.
//! - `walk`: walks.
#![tactic(auto)]

mod counts;
mod walk;

use crate::counts::Counts;
use crate::walk::walk;
use anyhow::Result;
use proc_macro2::{SourceMap, TokenStream};
use std::env;
use std::io::Read;
use syn_buffer::{Cursor, TokenBuffer};

// How a buffer is to be walked.
#[derive(Clone, Copy)]
struct Plan {
    // How often.
    walks: u32,
    // Whether kinds are looked for at each place.
    by_kinds: bool,
}

// What the arguments say; with none, nothing is walked.
fn planned(rt: &HostRuntime) -> Result<Option<Plan>> {
    let mut args = env::args(rt)?;
    let _ = args.next();
    let Some(walks) = args.next() else {
        return Ok(None);
    };
    let walks = walks.parse::<u32>()?;
    let by_kinds = args.next().is_some();
    Ok(Some(Plan { walks, by_kinds }))
}

fn main(rt: HostRuntime) -> Result<()> {
    let mut text = String::new(rt.alloc());
    rt.reader().read_to_string(&mut text)?;
    lex(&rt, text.as_str())
}

// Lexes a text, and walks its tokens if that is asked for.
fn lex(rt: &HostRuntime, text: &str) -> Result<()> {
    let mut map = SourceMap::new(rt.alloc());
    let stream = TokenStream::from_str(rt.alloc(), text, &mut map)?;
    match planned(rt)? {
        Some(plan) => walk_all(rt, &stream, plan),
        None => Ok(()),
    }
}

// Walks the buffer of a stream, and prints what was met.
fn walk_all(rt: &HostRuntime, stream: &TokenStream, plan: Plan) -> Result<()> {
    let buffer = TokenBuffer::new2(rt.alloc(), stream, 1)?;
    let counts = counted(buffer.begin(), plan);
    Ok(println!(rt; "{counts}")?)
}

// What all walks from a place meet.
fn counted(begin: Cursor<'_>, plan: Plan) -> Counts {
    let mut counts = Counts::none();
    for _ in 0..plan.walks {
        walk(begin, plan.by_kinds, &mut counts);
    }
    counts
}
