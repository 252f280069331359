//! Prints every lifetime that a type mentions, with its place. Each line of standard input is a type by itself; behind
//! it stand its lifetimes, one a line, with the column in which each begins (from 0), or why it is no type.
#![tactic(auto)]

use anyhow::Result;
use std::io::{Read, Write};
use syn::{
    Arena, Kind, Leaf, ParseFault, Plus, SourceMap, Span, TokenBuffer, TokenStream, Tree, parse_as,
    put_leaves,
};

// The column in which a token begins, if it stands in the text.
fn column_of(map: &SourceMap, span: Span) -> Option<usize> {
    if map.holds(span) && !span.eq(&Span::call_site()) {
        Some(span.start(map).column)
    } else {
        None
    }
}

// A line for each lifetime of the type.
fn put_lifetimes(map: &SourceMap, tree: &Tree, out: &mut String) -> Result<()> {
    let mut leaves = Vec::new(*out.allocator());
    put_leaves(tree, &mut leaves)?;
    for leaf in &leaves {
        if let Leaf::Lifetime(span, ident) = leaf {
            if let Some(column) = column_of(map, *span) {
                writeln!(out, "  '{ident} at {column}")?;
            }
        }
    }
    Ok(())
}

// Why a text is no type, and where.
fn put_fault(map: &SourceMap, fault: &ParseFault, out: &mut String) -> Result<()> {
    let column = match fault {
        ParseFault::Syntax(error) => column_of(map, error.span()),
        ParseFault::Memory => None,
    };
    match column {
        Some(column) => writeln!(out, "  no type: {fault} at {column}")?,
        None => writeln!(out, "  no type: {fault}")?,
    }
    Ok(())
}

// What is said of the type that a buffer holds.
fn put_type(map: &SourceMap, buffer: &TokenBuffer, out: &mut String) -> Result<()> {
    let arena = Arena::new(*out.allocator());
    let tree = match parse_as(&arena, Kind::AType(Plus::WithPlus), buffer) {
        Ok(tree) => tree,
        Err(fault) => return put_fault(map, &fault, out),
    };
    put_lifetimes(map, &tree, out)
}

// A text, and what is said of it.
fn report(text: &str, out: &mut String) -> Result<()> {
    let alloc = *out.allocator();
    writeln!(out, "{text}")?;
    let mut map = SourceMap::new(alloc);
    let stream = TokenStream::from_str(alloc, text, &mut map)?;
    let buffer = TokenBuffer::new2(alloc, &stream, 1)?;
    put_type(&map, &buffer, out)
}

fn main(rt: HostRuntime) -> Result<()> {
    let mut lines = String::new(rt.alloc());
    rt.reader().read_to_string(&mut lines)?;
    let mut out = String::new(rt.alloc());
    for text in lines.as_str().lines() {
        report(text, &mut out)?;
    }
    rt.stdout().write_all(out.as_bytes())?;
    Ok(())
}
