//! Forms and tokens that are read one behind the other, and tokens as a stream.

use crate::asked::Question;
use proc_macro2::delimiter::Delimiter;
use syn::{
    Arena, Kind, Literals, ParseFault, Plus, Reader, Sign, TokenBuffer, Tree, Type, Words,
    stream_of, write,
};
use test_support::{Page, Stop, looked_at, refused};

/// Puts the text of a tree's tokens as a stream.
pub(crate) fn put_streamed(tree: &Tree<'_>, page: &mut Page) -> Result<(), Stop> {
    let mut pieces = Vec::new(page.alloc());
    looked_at(write(tree, &mut pieces))?;
    match looked_at(stream_of(page.alloc(), pieces.as_slice()))? {
        Some(stream) => {
            page.show(&stream);
            Ok(())
        }
        None => Err(Stop::Changed),
    }
}

/// Puts what is said of a call that was refused: where memory was, the reader stands where it stood.
pub(crate) fn put_said(fault: ParseFault, stays: bool, page: &mut Page) -> Result<(), Stop> {
    match fault {
        ParseFault::Memory => refused(stays),
        ParseFault::Syntax(error) if stays => {
            page.show(&error);
            Ok(())
        }
        ParseFault::Syntax(_) => Err(Stop::Changed),
    }
}

// Puts the type that stands first, as a stream.
fn put_type(input: &mut Reader<'_>, page: &mut Page) -> Result<(), Stop> {
    let left = input.entries().len();
    match input.parse(Kind::AType(Plus::WithPlus)) {
        Ok(tree) => put_streamed(&tree, page),
        Err(fault) => put_said(fault, input.entries().len() == left, page),
    }
}

// Puts what type begins there, read as one by a fork.
fn put_form(start: Reader<'_>, page: &mut Page) -> Result<(), Stop> {
    let left = start.entries().len();
    let mut fork = start;
    match fork.form::<Type>() {
        Ok(Type::Reference(_)) => {
            page.put("a reference");
            Ok(())
        }
        Ok(_) => Err(Stop::Changed),
        Err(fault) => put_said(fault, fork.entries().len() == left, page),
    }
}

// Puts what is said of a call in a line of its own, if it was refused.
fn put_refusal<T: Drop>(
    answer: Result<T, ParseFault>,
    stays: bool,
    page: &mut Page,
) -> Result<(), Stop> {
    match answer {
        Ok(_) => Ok(()),
        Err(fault) => {
            page.put("\n");
            put_said(fault, stays, page)
        }
    }
}

// Puts what the readers of words and of literals say where none stands there, in lines.
fn put_leaf_refusals(start: Reader<'_>, page: &mut Page) -> Result<(), Stop> {
    let left = start.entries().len();
    let mut fork = start;
    let word = fork.word(Words::Ident);
    put_refusal(word, fork.entries().len() == left, page)?;
    let mut fork = start;
    let literal = fork.literal(Literals::Text);
    put_refusal(literal, fork.entries().len() == left, page)
}

// The same of the readers of punctuation, of groups and of the end.
fn put_refusals(start: Reader<'_>, page: &mut Page) -> Result<(), Stop> {
    let left = start.entries().len();
    let mut fork = start;
    let sign = fork.sign(Sign::Comma);
    put_refusal(sign, fork.entries().len() == left, page)?;
    let mut fork = start;
    let group = fork.group(Delimiter::Brace);
    put_refusal(group, fork.entries().len() == left, page)?;
    put_refusal(start.finish(), true, page)
}

/// Puts the type that a buffer begins with, and what readers of other tokens say behind it, in lines.
pub(crate) fn put_read<'a>(
    arena: &'a Arena,
    buffer: &'a TokenBuffer<'a>,
    page: &mut Page,
) -> Result<(), Stop> {
    let mut input = Reader::new(arena, buffer);
    put_form(input, page)?;
    page.put("\n");
    put_type(&mut input, page)?;
    put_leaf_refusals(input, page)?;
    put_refusals(input, page)
}

/// Texts that begin with a type, and that don't.
pub(crate) const TEXTS: [(Question, &str); 3] = [
    (Question::Read, "& 'a [u8 ; 2] , b"),
    (Question::Read, "+ 1"),
    (Question::Read, ""),
];
