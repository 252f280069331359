//! Where the names of a file's functions and its string literals stand. What is walked are trees with the entries that
//! they were read from, so each place is that of the token itself.

use crate::place::place_of;
use anyhow::Result;
use std::alloc::AllocError;
use syn::{
    Arena, Ident, Kind, LineColumn, Literal, Part, SourceMap, Span, TokenBuffer, parse_file,
};
use syn_placed::placed::Placed;

// The place of a token, and the end of its line.
fn put_place(map: &SourceMap, span: Span, out: &mut String) -> Result<(), AllocError> {
    match place_of(map, span) {
        Some(LineColumn { line, column }) => writeln!(out, " {line}:{column}"),
        None => writeln!(out, ""),
    }
}

// The name of the function that has a signature.
fn name_of<'a>(signature: Placed<'_, 'a>) -> Option<&'a Ident> {
    signature.the(Part::Name)?.word()
}

// A line for the function that has a signature.
fn put_function(map: &SourceMap, signature: Placed, out: &mut String) -> Result<(), AllocError> {
    let Some(name) = name_of(signature) else {
        return Ok(());
    };
    write!(out, "fn {name}")?;
    put_place(map, name.span(), out)
}

// Whether a literal is a string, raw or not.
fn is_string(text: &str) -> bool {
    text.starts_with("\"") || text.starts_with("r")
}

// A line for a literal, if it is a string.
fn put_literal(map: &SourceMap, literal: &Literal, out: &mut String) -> Result<(), AllocError> {
    let text = literal.as_str();
    if !is_string(text) {
        return Ok(());
    }
    write!(out, "str {text}")?;
    put_place(map, literal.span(), out)
}

// A line for what stands in a tree itself, and not in what stands in it.
fn put_placed(map: &SourceMap, placed: Placed, out: &mut String) -> Result<(), AllocError> {
    if let Some((Kind::Signature(_), signature)) = placed.node() {
        put_function(map, signature, out)
    } else if let Some(literal) = placed.literal() {
        put_literal(map, literal, out)
    } else {
        Ok(())
    }
}

// What has the same tokens as a tree that it stands in alone.
fn inside<'t, 'a>(placed: Placed<'t, 'a>) -> Option<Placed<'t, 'a>> {
    if let Some((_, inner)) = placed.node() {
        Some(inner)
    } else if let Some((_, inner)) = placed.called() {
        Some(inner)
    } else if let Some((_, own)) = placed.alone() {
        Some(own)
    } else {
        placed.whole().or(placed.group())
    }
}

// The two trees of which a tree is made: a pair, or an own part with one operand.
fn two<'t, 'a>(placed: Placed<'t, 'a>) -> Option<(Placed<'t, 'a>, Placed<'t, 'a>)> {
    if let Some((_, own, right)) = placed.front() {
        Some((own, right))
    } else if let Some((left, _, own)) = placed.back() {
        Some((left, own))
    } else {
        placed.pair()
    }
}

// Puts turns, in their order.
fn put_turns<'t, 'a>(
    placed: Placed<'t, 'a>,
    all: &mut Vec<Placed<'t, 'a>>,
) -> Result<(), AllocError> {
    if let Some(turns) = placed.turns() {
        for turn in turns {
            all.push(turn)?;
        }
    }
    Ok(())
}

// Puts the elements of a list, in their order.
fn put_elements<'t, 'a>(
    placed: Placed<'t, 'a>,
    all: &mut Vec<Placed<'t, 'a>>,
) -> Result<(), AllocError> {
    if let Some(elements) = placed.list() {
        for listed in elements {
            all.push(listed.element)?;
        }
    }
    Ok(())
}

// Puts the turns or the elements that a tree has, the last one first.
fn put_each<'t, 'a>(
    placed: Placed<'t, 'a>,
    todo: &mut Vec<Placed<'t, 'a>>,
) -> Result<(), AllocError> {
    let mut all = Vec::new(*todo.allocator());
    put_turns(placed, &mut all)?;
    put_elements(placed, &mut all)?;
    all.reverse();
    todo.extend_from_slice(&all)
}

// Puts what stands in a tree, the last one first.
fn put_inside<'t, 'a>(
    placed: Placed<'t, 'a>,
    todo: &mut Vec<Placed<'t, 'a>>,
) -> Result<(), AllocError> {
    if let Some(inner) = inside(placed) {
        todo.extend_from_slice(&[inner])
    } else if let Some((front, back)) = two(placed) {
        todo.extend_from_slice(&[back, front])
    } else if let Some((left, _, own, right)) = placed.infix() {
        todo.extend_from_slice(&[right, own, left])
    } else {
        put_each(placed, todo)
    }
}

// A line for each function and each string literal of a tree, in their order.
fn put_all(map: &SourceMap, whole: Placed, out: &mut String) -> Result<(), AllocError> {
    let mut todo = Vec::new(*out.allocator());
    todo.push(whole)?;
    for _ in 0..u64::MAX {
        let Some(placed) = todo.pop() else {
            break;
        };
        let placed = placed.choice();
        put_placed(map, placed, out)?;
        put_inside(placed, &mut todo)?;
    }
    Ok(())
}

/// Puts a line for each function and each string literal of the file that a buffer holds, in their order.
pub(crate) fn put_file(map: &SourceMap, buffer: &TokenBuffer, out: &mut String) -> Result<()> {
    let arena = Arena::new(*out.allocator());
    let file = parse_file(&arena, buffer)?;
    Ok(put_all(map, Placed::of_buffer(&file, buffer), out)?)
}
