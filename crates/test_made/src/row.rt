//! What is answered for a row.

use crate::asked::{Asked, asked_by};
use crate::change::{Unmade, made};
use proc_macro2::{SourceMap, TokenStream};
use std::alloc::Global;
use syn::{Arena, NormalFault, ParseFault, TokenBuffer, Tree, parse_as, print, put_normal};
use test_support::{Page, Stop, refused};

// Puts what is written of a tree.
fn put_written<'a>(arena: &'a Arena, tree: &Tree<'a>, page: &mut Page) -> Result<(), Stop> {
    let mut pieces = Vec::new(page.alloc());
    match put_normal(arena, tree, &mut pieces) {
        Ok(()) => {
            page.put_made(print(page.alloc(), pieces.as_slice()));
            Ok(())
        }
        Err(NormalFault::Memory) => Err(Stop::Elsewhere),
        Err(NormalFault::Separators) => Err(Stop::Changed),
    }
}

// Puts what is said of what was made: what is written of it, in quotes, or that it is none.
fn put_found<'a>(arena: &'a Arena, found: Option<Tree<'a>>, page: &mut Page) -> Result<(), Stop> {
    match found {
        Some(tree) => {
            page.put("«");
            put_written(arena, &tree, page)?;
            page.put("»");
        }
        None => page.put("none"),
    }
    Ok(())
}

// The same of what is made of a tree, where no memory is refused any more.
fn put_again<'a>(
    arena: &'a Arena,
    asked: Asked,
    tree: &'a Tree<'a>,
    page: &mut Page,
) -> Result<(), Stop> {
    match made(arena, asked, tree) {
        Ok(found) => put_found(arena, found, page),
        Err(Unmade::Memory) => Err(Stop::Elsewhere),
        Err(Unmade::NoRow) => Err(Stop::Changed),
    }
}

// What is written of a tree, on a page of its own.
fn written<'a>(arena: &'a Arena, tree: &Tree<'a>) -> Result<Page, Stop> {
    let mut page = Page::new(arena.alloc());
    put_written(arena, tree, &mut page)?;
    Ok(page)
}

// What is said of what is made of a tree, on a page of its own.
fn said_of_made<'a>(arena: &'a Arena, asked: Asked, tree: &'a Tree<'a>) -> Result<Page, Stop> {
    let mut page = Page::new(arena.alloc());
    put_again(arena, asked, tree, &mut page)?;
    Ok(page)
}

// Whether two pages have the same text.
fn are_same(one: &Page, other: &Page) -> bool {
    match (one.whole(), other.whole()) {
        (Ok(one), Ok(other)) => one == other,
        _ => false,
    }
}

// Two arenas: the one where a tree stands, and one in which nothing stands yet, so that what is made there first grows
// it.
#[derive(Clone, Copy)]
struct Arenas<'a> {
    own: &'a Arena,
    fresh: &'a Arena,
}

// Whether what is made of a tree in either arena is the same.
fn is_made_alike<'a>(arenas: Arenas<'a>, asked: Asked, tree: &'a Tree<'a>) -> Result<bool, Stop> {
    let one = said_of_made(arenas.fresh, asked, tree)?;
    let other = said_of_made(arenas.own, asked, tree)?;
    Ok(are_same(&one, &other))
}

// Whether a tree is written as before, and what is made of it in either arena is the same.
fn is_as_before<'a>(
    arenas: Arenas<'a>,
    asked: Asked,
    tree: &'a Tree<'a>,
    before: &Page,
) -> Result<bool, Stop> {
    let now = written(arenas.own, tree)?;
    if are_same(before, &now) {
        is_made_alike(arenas, asked, tree)
    } else {
        Ok(false)
    }
}

// Puts what is said of what is made of a tree, which is written so before. Where memory is refused, all is looked at.
fn put_made<'a>(
    arenas: Arenas<'a>,
    asked: Asked,
    tree: &'a Tree<'a>,
    before: &Page,
    page: &mut Page,
) -> Result<(), Stop> {
    match made(arenas.fresh, asked, tree) {
        Ok(found) => put_found(arenas.fresh, found, page),
        Err(Unmade::Memory) => refused(is_as_before(arenas, asked, tree, before)?),
        Err(Unmade::NoRow) => Err(Stop::Changed),
    }
}

// The same of a tree that was read, which is put into its arena.
fn put_tree<'a>(
    arenas: Arenas<'a>,
    asked: Asked,
    tree: Tree<'a>,
    page: &mut Page,
) -> Result<(), Stop> {
    let tree = arenas.own.put(tree)?;
    let before = written(arenas.own, tree)?;
    put_made(arenas, asked, tree, &before, page)
}

// Puts what is said of what is made of the form that a buffer holds.
fn put_read<'a>(
    arenas: Arenas<'a>,
    asked: Asked,
    buffer: &'a TokenBuffer<'a>,
    page: &mut Page,
) -> Result<(), Stop> {
    match parse_as(arenas.own, asked.kind, buffer) {
        Ok(tree) => put_tree(arenas, asked, tree, page),
        Err(ParseFault::Memory) => Err(Stop::Elsewhere),
        Err(ParseFault::Syntax(_)) => Err(Stop::Changed),
    }
}

// The same with arenas of its own.
fn put_held(asked: Asked, buffer: &TokenBuffer<'_>, page: &mut Page) -> Result<(), Stop> {
    let alloc = page.alloc();
    let own = Arena::new(alloc);
    let fresh = Arena::new(alloc);
    let arenas = Arenas {
        own: &own,
        fresh: &fresh,
    };
    put_read(arenas, asked, buffer, page)
}

// The tokens of a text.
fn lexed(alloc: Global, text: &str) -> Result<TokenStream, Stop> {
    match TokenStream::from_str(alloc, text, &mut SourceMap::new(alloc)) {
        Ok(stream) => Ok(stream),
        Err(_) => Err(Stop::Elsewhere),
    }
}

/// Puts the answer to a row, of a kind with a change, and of a text.
pub(crate) fn answer(call: &str, text: &str, page: &mut Page) -> Result<(), Stop> {
    let Some(asked) = asked_by(call) else {
        return Err(Stop::Changed);
    };
    let stream = lexed(page.alloc(), text)?;
    let buffer = TokenBuffer::new2(page.alloc(), &stream, 1)?;
    put_held(asked, &buffer, page)
}
