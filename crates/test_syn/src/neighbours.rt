//! Rows whose form is that of the row above.

use crate::kinds::kind_of;
use crate::reading::{buffers, front, lexed};
use std::alloc::Global;
use syn::{Arena, Kind, TokenBuffer, TokenStream, Tree, equal};
use test_support::{Page, Unanswered, parts, read};

/// Puts the rows that begin with the same form as the row above, one below the other, between a heading and an empty
/// line.
pub(crate) fn put_again(lines: &str, page: &mut Page) -> Result<(), Unanswered> {
    page.put("# Rows that begin with the same form as the row above.\n");
    let mut above = None;
    for line in lines.lines() {
        if let Some(before) = above {
            if rows_begin_alike(page.alloc(), before, line)? {
                write!(page, "{line}\n");
            }
        }
        above = Some(line);
    }
    page.put("\n");
    Ok(())
}

// The tokens of a text as a row writes it, if it is one of tokens.
fn stream_of(alloc: Global, written: &str) -> Result<Option<TokenStream>, Unanswered> {
    let text = read(alloc, written)?;
    Ok(lexed(alloc, text.as_str()))
}

// The tokens of texts as rows write them, of those that are ones of tokens.
fn streams(alloc: Global, texts: &[&str]) -> Result<Vec<TokenStream>, Unanswered> {
    let mut all = Vec::new(alloc);
    for written in texts {
        if let Some(stream) = stream_of(alloc, written)? {
            all.push(stream)?;
        }
    }
    Ok(all)
}

// A buffer begins with that form of the kind.
fn begins_so<'a>(
    arena: &'a Arena,
    kind: Kind,
    tree: &Tree<'a>,
    buffer: &'a TokenBuffer<'_>,
) -> Result<bool, Unanswered> {
    match front(arena, kind, buffer)? {
        Some((other, _)) => Ok(equal(tree, &other)),
        None => Ok(false),
    }
}

// Two buffers begin with the same form of the kind.
fn begin_alike<'a>(
    arena: &'a Arena,
    kind: Kind,
    one: &'a TokenBuffer<'_>,
    other: &'a TokenBuffer<'_>,
) -> Result<bool, Unanswered> {
    match front(arena, kind, one)? {
        Some((tree, _)) => begins_so(arena, kind, &tree, other),
        None => Ok(false),
    }
}

// The same of buffers that are two, with an arena of its own.
fn buffers_begin_alike(
    alloc: Global,
    kind: Kind,
    buffers: &[TokenBuffer<'_>],
) -> Result<bool, Unanswered> {
    let [one, other] = buffers else {
        return Ok(false);
    };
    let arena = Arena::new(alloc);
    begin_alike(&arena, kind, one, other)
}

// Two texts begin with the same form of the kind.
fn texts_begin_alike(alloc: Global, kind: Kind, texts: &[&str]) -> Result<bool, Unanswered> {
    let streams = streams(alloc, texts)?;
    let buffers = buffers(alloc, streams.as_slice())?;
    buffers_begin_alike(alloc, kind, buffers.as_slice())
}

// Two texts begin with the same form of the kind that a row names, if it names one.
fn texts_of_call_begin_alike(
    alloc: Global,
    call: &str,
    texts: &[&str],
) -> Result<bool, Unanswered> {
    match kind_of(call) {
        Some(kind) => texts_begin_alike(alloc, kind, texts),
        None => Ok(false),
    }
}

// A row of that call begins with the same form as a text.
fn row_begins_alike(alloc: Global, call: &str, text: &str, row: &str) -> Result<bool, Unanswered> {
    match parts(row)? {
        Some((other_call, other)) if other_call == call => {
            texts_of_call_begin_alike(alloc, call, &[text, other])
        }
        _ => Ok(false),
    }
}

// Two rows begin with the same form, if they name a kind.
fn rows_begin_alike(alloc: Global, one: &str, other: &str) -> Result<bool, Unanswered> {
    match parts(one)? {
        Some((call, text)) => row_begins_alike(alloc, call, text, other),
        None => Ok(false),
    }
}
