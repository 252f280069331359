//! A parser of one's own: a small language of lines `let NAME = NUMBER;`, `let NAME = [NUMBER, NUMBER];` and
//! `use NAME, NAME;`. Each line of standard input is a text of its own. Behind it stands what it says; or where it
//! can't be read (line and column, columns from 0, or its end) and why.
//!
//! - `line`: the syntax.
//! - `read`: reads it.
#![tactic(auto)]

mod line;
mod read;

use anyhow::{Result, anyhow};
use line::{Definition, Import, Line, Value};
use std::alloc::AllocError;
use std::fmt::Display;
use std::io::{Read, Write};
use syn_parse::{
    Error, LineColumn, ParseFault, Punctuated, SourceMap, Span, TokenStream, parse_stream, token,
};

// Puts the values, with a space before each, and a line's end.
fn put_values<T: Display>(
    values: &Punctuated<T, token::Comma>,
    out: &mut String,
) -> Result<(), AllocError> {
    for value in values.iter() {
        write!(out, " {value}")?;
    }
    out.push_str("\n")
}

fn put_definition(definition: &Definition, out: &mut String) -> Result<(), AllocError> {
    let ident = &definition.ident;
    match &definition.value {
        Value::Number(number) => writeln!(out, "  {ident} is {number}"),
        Value::List(numbers) => {
            write!(out, "  {ident} has")?;
            put_values(numbers, out)
        }
    }
}

fn put_import(import: &Import, out: &mut String) -> Result<(), AllocError> {
    out.push_str("  uses")?;
    put_values(&import.names, out)
}

// Puts what a line says.
fn put_line(line: &Line, out: &mut String) -> Result<(), AllocError> {
    match line {
        Line::Definition(definition) => put_definition(definition, out),
        Line::Import(import) => put_import(import, out),
    }
}

fn put_lines(lines: &Punctuated<Line, token::Semi>, out: &mut String) -> Result<(), AllocError> {
    for line in lines.iter() {
        put_line(line, out)?;
    }
    Ok(())
}

// Puts where a text can't be read, and why.
fn put_error(map: &SourceMap, error: &Error, out: &mut String) -> Result<(), AllocError> {
    let span = error.span();
    if map.holds(span) && !span.eq(&Span::call_site()) {
        let LineColumn { line, column } = span.start(map);
        writeln!(out, "  {line}:{column}: {error}")
    } else {
        writeln!(out, "  at the end: {error}")
    }
}

// Puts a text and what is said of it.
fn report(text: &str, out: &mut String) -> Result<()> {
    writeln!(out, "{text}")?;
    let alloc = *out.allocator();
    let mut map = SourceMap::new(alloc);
    let stream = TokenStream::from_str(alloc, text, &mut map)?;
    match parse_stream(alloc, read::lines, &stream) {
        Ok(lines) => Ok(put_lines(&lines, out)?),
        Err(ParseFault::Syntax(error)) => Ok(put_error(&map, &error, out)?),
        Err(ParseFault::Memory) => Err(anyhow!("out of memory")),
    }
}

fn main(rt: HostRuntime) -> Result<()> {
    let mut texts = String::new(rt.alloc());
    rt.reader().read_to_string(&mut texts)?;
    let mut out = String::new(rt.alloc());
    for text in texts.lines() {
        report(text, &mut out)?;
    }
    Ok(rt.stdout().write_all(out.as_bytes())?)
}
