//! Streams by hand.

use super::shown::{as_before, shown};
use proc_macro2::delimiter::Delimiter;
use proc_macro2::tree::{Group, TokenStream, TokenTree};
use rust_leaf::ident::{Ident, IdentFault};
use rust_leaf::literal::Literal;
use rust_map::span::Span;
use std::alloc::{AllocError, Global};
use test_support::{Page, Stop, looked_at};
use try_clone::TryClone;

/// Puts the print of a group of a stream that was grown and copied, and how many trees it has.
pub fn built(page: &mut Page) -> Result<(), Stop> {
    let mut stream = first(page.alloc())?;
    grow_by_trees(page.alloc(), &mut stream)?;
    grow_by_streams(page.alloc(), &mut stream)?;
    put_copied(&stream, page)
}

fn grow_by_trees(alloc: Global, stream: &mut TokenStream) -> Result<(), Stop> {
    let trees = trees(alloc)?;
    let before = shown(alloc, stream);
    let answer = stream.extend_trees(trees);
    grown(answer, &before, &shown(alloc, stream))
}

fn grow_by_streams(alloc: Global, stream: &mut TokenStream) -> Result<(), Stop> {
    let streams = streams(alloc)?;
    let before = shown(alloc, stream);
    let answer = stream.extend_streams(streams);
    grown(answer, &before, &shown(alloc, stream))
}

// What a call that grows a stream answered: refused, it leaves the stream as it was printed before.
fn grown(answer: Result<(), AllocError>, before: &Page, after: &Page) -> Result<(), Stop> {
    match answer {
        Ok(()) => Ok(()),
        Err(_) => {
            as_before(before, after)?;
            Err(Stop::Refused)
        }
    }
}

// Puts a copy of a stream, which is as it was printed before, also where the copy is refused.
fn put_copied(stream: &TokenStream, page: &mut Page) -> Result<(), Stop> {
    let before = shown(page.alloc(), stream);
    let outcome = put_copy(stream.try_clone(), page);
    as_before(&before, &shown(page.alloc(), stream))?;
    if stream.is_empty() {
        return Err(Stop::Changed);
    }
    outcome
}

fn put_copy(copy: Result<TokenStream, AllocError>, page: &mut Page) -> Result<(), Stop> {
    match copy {
        Ok(stream) => put_group(&Group::new(Delimiter::Brace, stream), page),
        Err(_) => Err(Stop::Refused),
    }
}

fn put_group(group: &Group, page: &mut Page) -> Result<(), Stop> {
    let count = count(looked_at(group.stream())?)?;
    write!(page, "{group} {count}\n");
    Ok(())
}

// How many trees a copy of a stream's iterator gives.
fn count(stream: TokenStream) -> Result<usize, Stop> {
    let trees = looked_at(stream.into_iter())?;
    Ok(looked_at(trees.try_clone())?.count())
}

// a - 1i8
fn first(alloc: Global) -> Result<TokenStream, Stop> {
    let mut trees = Vec::new(alloc);
    trees.push(named(Ident::new(alloc, "a", Span::call_site()))?)?;
    push(Literal::i8_suffixed(alloc, -1), &mut trees)?;
    looked_at(TokenStream::from_trees(alloc, trees))
}

// (r#type)
fn trees(alloc: Global) -> Result<Vec<TokenTree>, Stop> {
    let mut trees = Vec::new(alloc);
    trees.push(TokenTree::Group(group(alloc)?))?;
    Ok(trees)
}

fn group(alloc: Global) -> Result<Group, Stop> {
    let ident = named(Ident::new_raw(alloc, "type", Span::call_site()))?;
    let inside = looked_at(TokenStream::from_tree(alloc, ident))?;
    Ok(Group::new(Delimiter::Parenthesis, inside))
}

// "x\"y" 'z' b"\0" b'w', and nothing.
fn streams(alloc: Global) -> Result<Vec<TokenStream>, Stop> {
    let mut both = Vec::new(alloc);
    both.push(texts(alloc)?)?;
    both.push(bytes(alloc)?)?;
    let mut streams = Vec::new(alloc);
    streams.push(looked_at(TokenStream::from_streams(alloc, both))?)?;
    streams.push(TokenStream::new(alloc))?;
    Ok(streams)
}

// "x\"y" 'z'
fn texts(alloc: Global) -> Result<TokenStream, Stop> {
    let mut trees = Vec::new(alloc);
    push(Literal::string(alloc, "x\"y"), &mut trees)?;
    push(Literal::character(alloc, 'z'), &mut trees)?;
    looked_at(TokenStream::from_trees(alloc, trees))
}

// b"\0" b'w'
fn bytes(alloc: Global) -> Result<TokenStream, Stop> {
    let mut trees = Vec::new(alloc);
    push(Literal::byte_string(alloc, &[0]), &mut trees)?;
    push(Literal::byte_character(alloc, b'w'), &mut trees)?;
    looked_at(TokenStream::from_trees(alloc, trees))
}

fn push(made: Result<Literal, AllocError>, trees: &mut Vec<TokenTree>) -> Result<(), Stop> {
    trees.push(TokenTree::Literal(looked_at(made)?))?;
    Ok(())
}

// The answer of a constructor of an identifier, whose text is one.
fn named(answer: Result<Ident, IdentFault>) -> Result<TokenTree, Stop> {
    match answer {
        Ok(ident) => Ok(TokenTree::Ident(ident)),
        Err(IdentFault::Memory) => Err(Stop::Refused),
        Err(_) => Err(Stop::Changed),
    }
}
