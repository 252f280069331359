//! Groups that are closed, forks, and invisible groups.

ghost use Rattle.std.specs.Prelude.{OnOk};
ghost use Rattle.syn_parse.specs.Input.{IsOnward};

use crate::peeks::{Look, Looked, all_read, put_look};
use crate::texts::{name, put, stream_of};
use proc_macro2::{Delimiter, Group, Ident, SourceMap, TokenStream, TokenTree};
use std::alloc::Global;
use syn_error::ParseFault;
use syn_kinds::token;
use syn_parse::parser::parse_stream;
use syn_parse::{ParseBuffer, Parser, parenthesized};
use test_support::{Page, Unanswered};

// One identifier of a group in parentheses, whatever else stands in it.
fn first_inside(input: &mut ParseBuffer<'_>) -> Result<Ident, ParseFault>
    ensures { OnOk result (IsOnward input.old input.new) }
{
    let (_span, mut content) = input.parse_group(Delimiter::Parenthesis)?;
    let ident = content.parse::<Ident>()?;
    input.close(content);
    Ok(ident)
}

/// What is left in a closed group is refused.
pub fn closed(page: &mut Page) {
    for text in ["(a)", "(a b)", "(a) b", "[a]"] {
        put_closed(text, page);
    }
}

fn put_closed(text: &str, page: &mut Page) {
    match stream_of(page.alloc(), text) {
        Ok(stream) => {
            let read = parse_stream(page.alloc(), first_inside, &stream);
            put("closed", text, read, page);
        }
        Err(_) => page.cut(),
    }
}

// The same by a fork, to which the stream is advanced.
fn by_a_fork(input: &mut ParseBuffer<'_>) -> Result<Ident, ParseFault> {
    let mut fork = input.fork();
    let ident = first_inside(&mut fork)?;
    input.advance_to(fork);
    Ok(ident)
}

// The second identifier behind a fork that read the first one and is let go.
fn behind_a_fork(input: &mut ParseBuffer<'_>) -> Result<Ident, ParseFault> {
    let mut fork = input.fork();
    let _ = first_inside(&mut fork)?;
    input.discard(fork);
    second_inside(input)
}

fn second_inside(input: &mut ParseBuffer<'_>) -> Result<Ident, ParseFault> {
    let (_span, mut content) = input.parse_group(Delimiter::Parenthesis)?;
    let _ = content.parse::<Ident>()?;
    let second = content.parse::<Ident>()?;
    input.close(content);
    Ok(second)
}

/// Whether what a fork read is read again, and is passed where the stream is advanced to a fork.
pub fn by_forks(input: &mut ParseBuffer<'_>) -> Looked {
    let is_again = is_read_again(input)?;
    let mut fork = input.fork();
    let _ = fork.parse::<Ident>()?;
    input.advance_to(fork);
    Ok(is_again & input.is_empty())
}

fn is_read_again(input: &mut ParseBuffer<'_>) -> Looked {
    let mut fork = input.fork();
    let _ = fork.parse::<Ident>()?;
    let again = input.parse::<Ident>()?;
    input.discard(fork);
    Ok(again.is_text("a"))
}

/// What a fork left over is taken over with it, and forks move by themselves.
pub fn forked(page: &mut Page) {
    let map = &mut SourceMap::new(page.alloc());
    put_forked("(a)", map, page);
    put_forked("(a b)", map, page);
    match stream_of(page.alloc(), "(a) b") {
        Ok(stream) => put(
            "forked",
            "(a) b",
            by_a_fork.parse2(page.alloc(), stream),
            page,
        ),
        Err(_) => page.cut(),
    }
    let read = behind_a_fork.parse_str(page.alloc(), "(a b)", map);
    put("let go", "(a b)", read, page);
    put_look("forks", "a b", Look::Forks, map, page);
}

fn put_forked(text: &str, map: &mut SourceMap, page: &mut Page) {
    let read = by_a_fork.parse_str(page.alloc(), text, map);
    put("forked", text, read, page);
}

/// Whether a group's first name is read, and what stands behind the group is next.
pub fn within(input: &mut ParseBuffer<'_>) -> Looked {
    let (_span, a) = input.within(Delimiter::Bracket, |content| content.parse::<Ident>())?;
    let is_next = input.peek::<Ident>();
    all_read(input, a.is_text("a") & is_next)
}

/// The same by the macro that enters a group.
pub fn by_macro(input: &mut ParseBuffer<'_>) -> Looked {
    let mut content;
    let _paren = parenthesized!(content in input);
    let a = content.parse::<Ident>()?;
    input.close(content);
    let is_next = input.peek::<token::Bracket>();
    all_read(input, a.is_text("a") & is_next)
}

/// Groups that are entered by a call, and by the macro.
pub fn entered(page: &mut Page) {
    let map = &mut SourceMap::new(page.alloc());
    put_look("within", "[a] b", Look::Within, map, page);
    put_look("by macro", "(a) [b]", Look::ByMacro, map, page);
}

// An invisible group round a stream.
fn hidden(inside: TokenStream) -> TokenTree {
    TokenTree::from(Group::new(Delimiter::None, inside))
}

// An identifier as a tree.
fn named(alloc: Global, text: &str) -> Result<TokenTree, Unanswered> {
    Ok(TokenTree::from(name(alloc, text)?))
}

// So many invisible groups in one another, the innermost of `a`.
fn enclosed(alloc: Global, depth: usize) -> Result<TokenStream, Unanswered> {
    let mut stream = TokenStream::from_tree(alloc, named(alloc, "a")?)?;
    for _ in 0..depth {
        stream = TokenStream::from_tree(alloc, hidden(stream))?;
    }
    Ok(stream)
}

/// So many invisible groups in one another, the innermost of `a`, and an empty one behind them; then `b`.
pub fn nested(alloc: Global, depth: usize) -> Result<TokenStream, Unanswered> {
    let mut stream = enclosed(alloc, depth)?;
    stream.push_tree(hidden(TokenStream::new(alloc)))?;
    stream.push_tree(named(alloc, "b")?)?;
    Ok(stream)
}

// Whether `a` and then `b` are read, and no parenthesis is seen between them.
fn two_names(input: &mut ParseBuffer<'_>) -> Looked {
    let a = input.parse::<Ident>()?;
    let is_group = input.peek::<token::Paren>();
    let b = input.parse::<Ident>()?;
    Ok(a.is_text("a") & !is_group & b.is_text("b") & input.is_empty())
}

/// Invisible groups are passed through.
pub fn passed(page: &mut Page) {
    match nested(page.alloc(), 3) {
        Ok(stream) => {
            let read = parse_stream(page.alloc(), two_names, &stream);
            put("invisible", "((( a ))) () b", read, page);
        }
        Err(_) => page.cut(),
    }
}
