//! Lists the functions of a file, those in modules, impls, traits and extern blocks too: each with the line and the
//! column of its name (lines from 1, columns in characters from 0), whether it is `unsafe`, and whether a doc comment
//! or a `doc` attribute stands in front of it. The file is read from standard input.
#![tactic(auto)]

use anyhow::Result;
use std::io::{Read, Write};
use syn::{
    Arena, Form, Kind, Leaf, LineColumn, Part, SourceMap, Span, TokenBuffer, TokenStream, Tree,
    parse_file, put_leaves, put_nodes,
};

// Where a token begins, if it stands in a text of the map.
fn place_of(map: &SourceMap, span: Span) -> Option<LineColumn> {
    if map.holds(span) && !span.eq(&Span::call_site()) {
        Some(span.start(map))
    } else {
        None
    }
}

// Whether an attribute is a doc comment, or is written like one.
fn is_doc(attribute: &Tree, out: &String) -> Result<bool> {
    let mut leaves = Vec::new(*out.allocator());
    put_leaves(attribute, &mut leaves)?;
    Ok(match leaves.as_slice().get(2) {
        Some(Leaf::Ident(ident)) => ident.is_text("doc"),
        _ => false,
    })
}

// A line for the function that has a signature.
fn put_function(
    map: &SourceMap,
    signature: &Tree,
    is_documented: bool,
    out: &mut String,
) -> Result<()> {
    let Some(name) = signature.the(Part::Name) else {
        return Ok(());
    };
    let Form::Word(ident) = &name.form else {
        return Ok(());
    };
    write!(out, "fn {ident}")?;
    if let Some(place) = place_of(map, ident.span()) {
        let (line, column) = (place.line, place.column);
        write!(out, " {line}:{column}")?;
    }
    if signature.has(Part::Safety) {
        out.push_str(" unsafe")?;
    }
    if is_documented {
        out.push_str(" documented")?;
    }
    out.push('\n')?;
    Ok(())
}

// A line for each function of a file. In front of a function stand the attributes of the item that it is.
fn put_functions(map: &SourceMap, file: &Tree, out: &mut String) -> Result<()> {
    let mut nodes = Vec::new(*out.allocator());
    put_nodes(file, &mut nodes)?;
    let mut is_documented = false;
    for tree in &nodes {
        match tree.node() {
            Some((Kind::AnItem | Kind::AForeignItem, _)) => is_documented = false,
            Some((Kind::ATraitItem | Kind::AnImplItem, _)) => is_documented = false,
            Some((Kind::OuterAttribute, _)) => is_documented = is_documented || is_doc(tree, out)?,
            Some((Kind::Signature(_), inner)) => put_function(map, inner, is_documented, out)?,
            _ => {}
        }
    }
    Ok(())
}

// The same of the file that a buffer holds.
fn put_file(map: &SourceMap, buffer: &TokenBuffer, out: &mut String) -> Result<()> {
    let arena = Arena::new(*out.allocator());
    let file = parse_file(&arena, buffer)?;
    put_functions(map, &file, out)
}

// The same of the file that a text is.
fn put_text(text: &str, out: &mut String) -> Result<()> {
    let alloc = *out.allocator();
    let mut map = SourceMap::new(alloc);
    let stream = TokenStream::from_str(alloc, text, &mut map)?;
    let buffer = TokenBuffer::new2(alloc, &stream, 1)?;
    put_file(&map, &buffer, out)
}

fn main(rt: HostRuntime) -> Result<()> {
    let mut text = String::new(rt.alloc());
    rt.reader().read_to_string(&mut text)?;
    let mut out = String::new(rt.alloc());
    put_text(text.as_str(), &mut out)?;
    rt.stdout().write_all(out.as_bytes())?;
    Ok(())
}
