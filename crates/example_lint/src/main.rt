//! Finds the calls of `unwrap` in a file that is read from standard input: for each a line with the line and the column
//! of its name (lines from 1, columns in characters from 0). The insides of macros are tokens, and are not looked into.
#![tactic(auto)]

use anyhow::Result;
use std::alloc::Global;
use std::io::{Read, Write};
use syn::{
    Arena, Form, Kind, LineColumn, Part, SourceMap, Span, TokenBuffer, TokenStream, Tree,
    parse_file, put_nodes,
};

// Where a token begins, if it stands in a text of the map, behind other places.
fn put_place(map: &SourceMap, span: Span, places: &mut Vec<LineColumn>) -> Result<()> {
    if map.holds(span) && !span.eq(&Span::call_site()) {
        places.push(span.start(map))?;
    }
    Ok(())
}

// Where a method's call has its name, if it calls `unwrap`.
fn put_call(map: &SourceMap, call: &Tree, places: &mut Vec<LineColumn>) -> Result<()> {
    let Some(name) = call.the(Part::Name) else {
        return Ok(());
    };
    match &name.form {
        Form::Word(ident) if ident.is_text("unwrap") => put_place(map, ident.span(), places),
        _ => Ok(()),
    }
}

// Where the file has such calls, in the order of the text: a call stands in the tree before the calls left of it.
fn calls(map: &SourceMap, file: &Tree, alloc: Global) -> Result<Vec<LineColumn>> {
    let (mut nodes, mut places) = (Vec::new(alloc), Vec::new(alloc));
    put_nodes(file, &mut nodes)?;
    for tree in &nodes {
        if let Form::Back(Kind::ExprMethodCall, two) = &tree.form {
            put_call(map, &two.back, &mut places)?;
        }
    }
    places.sort()?;
    Ok(places)
}

// A line for each such call of the file that a buffer holds.
fn put_file(map: &SourceMap, buffer: &TokenBuffer, out: &mut String) -> Result<()> {
    let alloc = *out.allocator();
    let arena = Arena::new(alloc);
    let file = parse_file(&arena, buffer)?;
    for place in &calls(map, &file, alloc)? {
        let (line, column) = (place.line, place.column);
        writeln!(out, "{line}:{column}: `unwrap` may panic")?;
    }
    Ok(())
}

// The same of the file that a text is.
fn put_text(text: &str, out: &mut String) -> Result<()> {
    let alloc = *out.allocator();
    let mut map = SourceMap::new(alloc);
    let stream = TokenStream::from_str(alloc, text, &mut map)?;
    let buffer = TokenBuffer::new2(alloc, &stream, 1)?;
    put_file(&map, &buffer, out)
}

fn main(rt: HostRuntime) -> Result<()> {
    let mut text = String::new(rt.alloc());
    rt.reader().read_to_string(&mut text)?;
    let mut out = String::new(rt.alloc());
    put_text(text.as_str(), &mut out)?;
    rt.stdout().write_all(out.as_bytes())?;
    Ok(())
}
