//! Reads Rust source on standard input and lexes it. With the argument `print` it writes the printed
//! tokens to standard output. For benchmarks: what it lexes, and how fast.
#![tactic(auto)]

use proc_macro2::tree::TokenStream;
use proc_macro2::{LexError, LexFault};
use rust_map::source_map::SourceMap;
use std::env;
use std::io::{Read, Write};
use std::process::ExitCode;

/// Ends with 0 where the text lexes, 1 where it has a lexical fault, and 3 where something else failed.
fn main(rt: HostRuntime) -> ExitCode {
    let mut text = String::new(rt.alloc());
    match rt.reader().read_to_string(&mut text) {
        Ok(_) => lex(&rt, text.as_str()),
        Err(_) => failed(),
    }
}

// Something else than the text failed.
fn failed() -> ExitCode {
    ExitCode::from(3)
}

fn lex(rt: &HostRuntime, text: &str) -> ExitCode {
    let mut map = SourceMap::new(rt.alloc());
    match TokenStream::from_str(rt.alloc(), text, &mut map) {
        Ok(stream) => finish(rt, &stream),
        Err(LexFault::Lex(error)) => refuse(rt, error),
        Err(_) => failed(),
    }
}

// Says where the text is at fault.
fn refuse(rt: &HostRuntime, error: LexError) -> ExitCode {
    let _ = writeln!(rt.stderr(), "{error}");
    ExitCode::from(1)
}

// Writes the printed tokens, if an argument asks for them.
fn finish(rt: &HostRuntime, stream: &TokenStream) -> ExitCode {
    match env::args(rt) {
        Ok(args) if args.len() < 2 => ExitCode::SUCCESS,
        Ok(_) => print(rt, stream),
        Err(_) => failed(),
    }
}

fn print(rt: &HostRuntime, stream: &TokenStream) -> ExitCode {
    match stream.to_string(rt.alloc()) {
        Ok(text) => write(rt, text.as_str()),
        Err(_) => failed(),
    }
}

fn write(rt: &HostRuntime, text: &str) -> ExitCode {
    match rt.stdout().write_all(text.as_bytes()) {
        Ok(()) => ExitCode::SUCCESS,
        Err(_) => failed(),
    }
}
