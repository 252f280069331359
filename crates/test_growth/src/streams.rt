//! Forms that are read from a stream of tokens.

ghost use Rattle.syn_input.specs.Input.{IsOnward};

use crate::asked::{Question, ask_all, ask_of, lexed};
use crate::reading::{put_said, put_streamed};
use proc_macro2::TokenStream;
use proc_macro2::delimiter::Delimiter;
use proc_macro2::tree::{Group, TokenTree};
use std::alloc::Global;
use syn::{Arena, Kind, ParseFault, ParseForm, ParseForms, Plus, TokenBuffer, Tree, Type};
use syn_kinds::token;
use syn_parse::{ParseBuffer, Punctuated, parse_buffer};
use test_support::{Page, Stop};

// Puts the type that stands first, as a stream of its own.
fn put_type<'a>(
    input: &mut ParseBuffer<'a>,
    arena: &'a Arena,
    page: &mut Page,
) -> Result<(), Stop> {
    let from = input.cursor();
    match input.parse_as(arena, Kind::AType(Plus::WithPlus)) {
        Ok(tree) => put_streamed(&tree, page),
        Err(fault) => put_said(fault, input.cursor().eq(&from), page),
    }
}

// Puts what type stands first.
fn put_form<'a>(
    input: &mut ParseBuffer<'a>,
    arena: &'a Arena,
    page: &mut Page,
) -> Result<(), Stop> {
    let from = input.cursor();
    let form: Result<Type, ParseFault> = input.form(arena);
    match form {
        Ok(Type::Reference(_)) => {
            page.put("a reference");
            Ok(())
        }
        Ok(_) => Err(Stop::Changed),
        Err(fault) => put_said(fault, input.cursor().eq(&from), page),
    }
}

// A type that stands in a list.
#[derive(Drop)]
struct Listed<'a> {
    ty: Tree<'a>,
}

// The type that stands there.
fn parse_listed<'a>(input: &mut ParseBuffer<'a>, arena: &'a Arena) -> Result<Listed<'a>, ParseFault>
    ensures { IsOnward input.old input.new }
{
    let ty = input.parse_as(arena, Kind::AType(Plus::WithPlus))?;
    Ok(Listed { ty })
}

// The types that are left, with a comma behind each but perhaps the last.
fn types<'a>(
    input: &mut ParseBuffer<'a>,
    arena: &'a Arena,
) -> Result<Punctuated<Listed<'a>, token::Comma>, ParseFault>
    ensures { IsOnward input.old input.new }
{
    Punctuated::parse_terminated_with(
        input,
        |input| -> Result<Listed, ParseFault>
            ensures { IsOnward input.old input.new }
        { parse_listed(input, arena) },
    )
}

// All of the buffer as types.
fn all_types<'a>(
    arena: &'a Arena,
    buffer: &'a TokenBuffer<'a>,
) -> Result<Punctuated<Listed<'a>, token::Comma>, ParseFault> {
    parse_buffer(
        arena.alloc(),
        |input| -> Result<Punctuated<Listed, token::Comma>, ParseFault>
            ensures { IsOnward input.old input.new }
        { types(input, arena) },
        buffer,
    )
}

// Puts what all types of the buffer are as a stream, one behind the other.
fn put_types<'a>(
    arena: &'a Arena,
    buffer: &'a TokenBuffer<'a>,
    page: &mut Page,
) -> Result<(), Stop> {
    match all_types(arena, buffer) {
        Ok(types) => put_list(&types, page),
        Err(fault) => put_said(fault, true, page),
    }
}

fn put_list(types: &Punctuated<Listed<'_>, token::Comma>, page: &mut Page) -> Result<(), Stop> {
    for found in types {
        put_streamed(&found.ty, page)?;
        page.put(";");
    }
    Ok(())
}

/// Puts what is read of a buffer, in lines.
pub(crate) fn put_read<'a>(
    arena: &'a Arena,
    buffer: &'a TokenBuffer<'a>,
    page: &mut Page,
) -> Result<(), Stop> {
    let mut input = ParseBuffer::new(page.alloc(), buffer.begin());
    put_form(&mut input.fork(), arena, page)?;
    page.put("\n");
    put_type(&mut input, arena, page)?;
    page.put("\n");
    put_types(arena, buffer, page)
}

// A stream of one invisible group, in which a type stands.
fn invisible(alloc: Global) -> Result<TokenStream, Stop> {
    let mut stream = TokenStream::new(alloc);
    let group = Group::new(Delimiter::None, lexed(alloc, "u8")?);
    stream.push_tree(TokenTree::Group(group))?;
    Ok(stream)
}

const TEXTS: [(Question, &str); 3] = [
    (Question::Streamed, "& 'a [u8 ; 2] , b"),
    (Question::Streamed, "+ 1"),
    (Question::Streamed, ""),
];

/// Puts the answers for three texts, and for a stream with an invisible group.
pub(crate) fn put_answers(page: &mut Page) -> Result<(), Stop> {
    ask_all(TEXTS.as_slice(), page)?;
    ask_of(Question::Streamed, &invisible(page.alloc())?, page)?;
    page.put("\n");
    Ok(())
}
