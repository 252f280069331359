//! Computes constant arithmetic in expressions. Each line of standard input is an expression; it is printed again with
//! `+`, `-`, `*`, `/` and `%` of integers without suffix computed, and with just the parentheses that it needs then.
//!
//! What overflows an `i128`, or divides by zero, stays as it is; so does what stands in the own part of a form, as the
//! arguments of a call. A line that is no expression is said to be none; at one that is none of tokens the program
//! ends.
//!
//! - `number`: the numbers that literals write, and what is computed of them.
//! - `fold`: an expression with its constant arithmetic computed.
#![tactic(auto)]

mod fold;
mod number;

use crate::fold::folded;
use anyhow::{Result, anyhow};
use std::alloc::AllocError;
use std::io::{Read, Write};
use syn::{
    Arena, Kind, ParseFault, Position, SourceMap, TokenBuffer, TokenStream, Tree, parse_as, print,
    write_in,
};

// The form of an expression.
fn form_of<'t, 'a>(tree: &'t Tree<'a>) -> Option<&'t Tree<'a>> {
    let (_, inner) = tree.node()?;
    inner.whole()
}

// The line of an expression with such a form.
fn put_form(form: &Tree, out: &mut String) -> Result<(), AllocError> {
    let alloc = *out.allocator();
    let mut pieces = Vec::new(alloc);
    write_in(Position::Plain, form, &mut pieces)?;
    let text = print(alloc, pieces.as_slice())?;
    writeln!(out, "{text}")
}

// The line of an expression, computed.
fn put_folded<'a>(arena: &'a Arena, tree: &Tree<'a>, out: &mut String) -> Result<()> {
    let Some(form) = form_of(tree) else {
        return Err(anyhow!("what was read as an expression is none"));
    };
    let form = folded(arena, form)?;
    Ok(put_form(&form, out)?)
}

// The line that is said of what is no expression.
fn put_fault(fault: &ParseFault, out: &mut String) -> Result<()> {
    match fault {
        ParseFault::Syntax(_) => Ok(writeln!(out, "no expression")?),
        ParseFault::Memory => Err(anyhow!("out of memory")),
    }
}

// The line that is said of what a buffer holds.
fn put_line(buffer: &TokenBuffer, out: &mut String) -> Result<()> {
    let arena = Arena::new(*out.allocator());
    match parse_as(&arena, Kind::Expression(Position::Plain), buffer) {
        Ok(tree) => put_folded(&arena, &tree, out),
        Err(fault) => put_fault(&fault, out),
    }
}

// The line that is said of a text.
fn put_text(text: &str, out: &mut String) -> Result<()> {
    let alloc = *out.allocator();
    let mut map = SourceMap::new(alloc);
    let stream = TokenStream::from_str(alloc, text, &mut map)?;
    let buffer = TokenBuffer::new2(alloc, &stream, 1)?;
    put_line(&buffer, out)
}

// The lines that are said of the lines of a text.
fn put_lines(lines: &str, out: &mut String) -> Result<()> {
    for text in lines.lines() {
        put_text(text, out)?;
    }
    Ok(())
}

fn main(rt: HostRuntime) -> Result<()> {
    let mut lines = String::new(rt.alloc());
    rt.reader().read_to_string(&mut lines)?;
    let mut out = String::new(rt.alloc());
    put_lines(lines.as_str(), &mut out)?;
    rt.stdout().write_all(out.as_bytes())?;
    Ok(())
}
