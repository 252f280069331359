//! A derive helper: reads structs, unions and enums from standard input, one behind the other, and writes for each, on
//! a line of its own, an impl that lists the names of its fields as `FIELDS` (of unnamed ones their numbers), or those
//! of its variants as `VARIANTS`. An impl is built of tokens, and is printed only where it is read back as the same
//! tokens. Where what stands there is no such item, its place is said and what was wanted there, and nothing is
//! written.
//!
//! - `listing`: the impl.
//! - `members`: the names of the fields or the variants.
//! - `parameters`: the generic parameters.
//! - `tokens`: tokens, put behind others.
#![tactic(auto)]

mod listing;
mod members;
mod parameters;
mod tokens;

use crate::listing::impl_of;
use anyhow::{Error, Result, anyhow};
use std::io::{Read, Write};
use syn::{
    Arena, DeriveInput, LineColumn, ParseFault, Reader, SourceMap, Span, TokenBuffer, TokenStream,
};

// Where a token begins, if it stands in a text of the map.
fn place_of(map: &SourceMap, span: Span) -> Option<LineColumn> {
    if map.holds(span) && !span.eq(&Span::call_site()) {
        Some(span.start(map))
    } else {
        None
    }
}

// What is said of a text that is no such item, with the place.
fn refused(map: &SourceMap, fault: &ParseFault) -> Error {
    let ParseFault::Syntax(error) = fault else {
        return anyhow!("out of memory");
    };
    match place_of(map, error.span()) {
        Some(LineColumn { line, column }) => anyhow!("syntax fault at {line}:{column}: {error}"),
        None => anyhow!("syntax fault at end of input: {error}"),
    }
}

// Puts the print of the impl for an item.
fn put_impl(input: &DeriveInput, out: &mut String) -> Result<()> {
    let impl_block = impl_of(*out.allocator(), input)?;
    if !impl_block.is_well_spaced() {
        return Err(anyhow!("the impl is not read back as it was built"));
    }
    Ok(writeln!(out, "{impl_block}")?)
}

// Puts the print of the impl for the item that stands next.
fn put_next(map: &SourceMap, input: &mut Reader, out: &mut String) -> Result<()> {
    match input.form::<DeriveInput>() {
        Ok(item) => put_impl(&item, out),
        Err(fault) => Err(refused(map, &fault)),
    }
}

// Puts the print of the impl for each item that a buffer holds, in their order.
fn put_derived(map: &SourceMap, buffer: &TokenBuffer, out: &mut String) -> Result<()> {
    let arena = Arena::new(*out.allocator());
    let mut input = Reader::new(&arena, buffer);
    for _ in 0..u64::MAX {
        if input.is_empty() {
            break;
        }
        put_next(map, &mut input, out)?;
    }
    Ok(())
}

// Puts the print of the impl for each item that a text holds, in their order.
fn put_text(text: &str, out: &mut String) -> Result<()> {
    let alloc = *out.allocator();
    let mut map = SourceMap::new(alloc);
    let stream = TokenStream::from_str(alloc, text, &mut map)?;
    let buffer = TokenBuffer::new2(alloc, &stream, 1)?;
    put_derived(&map, &buffer, out)
}

fn main(rt: HostRuntime) -> Result<()> {
    let mut text = String::new(rt.alloc());
    rt.reader().read_to_string(&mut text)?;
    let mut out = String::new(rt.alloc());
    put_text(text.as_str(), &mut out)?;
    rt.stdout().write_all(out.as_bytes())?;
    Ok(())
}
