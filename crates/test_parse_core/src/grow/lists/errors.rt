//! Errors that are made, extended, copied and gone over.

use crate::errors::put_messages;
use crate::grow::given::{lexed_in, message};
use crate::grow::shown::{begins_with, is_front_of, is_text, messages_of};
use proc_macro2::{LexFault, SourceMap, TokenStream};
use std::alloc::Global;
use syn_error::Error;
use syn_parse::TokenBuffer;
use test_support::{Page, Stop, looked_at, refused};
use try_clone::TryClone;

/// Errors of a lexical fault, and of what lies between two places.
pub(crate) fn made(page: &mut Page) -> Result<(), Stop> {
    put_made(&mut SourceMap::new(page.alloc()), page)
}

fn put_made(map: &mut SourceMap, page: &mut Page) -> Result<(), Stop> {
    let mut error = of_fault(page.alloc(), map)?;
    error.combine(of_range(page.alloc(), map)?)?;
    put_messages(&error, page);
    put_compiled(error, page)
}

// The error of a text's lexical fault.
fn of_fault(alloc: Global, map: &mut SourceMap) -> Result<Error, Stop> {
    match TokenStream::from_str(alloc, "a)", map) {
        Err(LexFault::Lex(fault)) => looked_at(Error::from_lex(alloc, fault)),
        Err(LexFault::Memory) => Err(Stop::Elsewhere),
        Err(LexFault::MapFull) | Ok(_) => Err(Stop::Changed),
    }
}

// An error of what lies between two places of a text.
fn of_range(alloc: Global, map: &mut SourceMap) -> Result<Error, Stop> {
    let stream = lexed_in(alloc, "a b", map)?;
    let buffer = TokenBuffer::new2(alloc, &stream, 1)?;
    let range = buffer.begin()..buffer.begin();
    looked_at(Error::new_range(alloc, range, "nowhere"))
}

fn put_compiled(error: Error, page: &mut Page) -> Result<(), Stop> {
    let tokens = looked_at(error.into_compile_error(page.alloc()))?;
    write!(page, "{tokens}\n");
    Ok(())
}

// An error that says these words one by one.
fn error_of(alloc: Global, words: &[&str]) -> Result<Error, Stop> {
    let mut all = message(alloc, "first")?;
    for said in words {
        all.combine(message(alloc, said)?)?;
    }
    Ok(all)
}

/// An error that is extended by the messages of another one. Where that is refused, it keeps those before the refused
/// one.
pub(crate) fn extended(page: &mut Page) -> Result<(), Stop> {
    let mut error = error_of(page.alloc(), &["a"])?;
    match error.extend(error_of(page.alloc(), &["b", "c", "d"])?) {
        Ok(()) => {
            put_messages(&error, page);
            Ok(())
        }
        Err(_) => refused(is_kept(&messages_of(page.alloc(), &error))),
    }
}

// Whether these are the first messages, at least the older two.
fn is_kept(kept: &Page) -> bool {
    begins_with(kept, "first\na\n") && is_front_of(kept, "first\na\nfirst\nb\nc\nd\n")
}

// What a call on the error that is copied answers. Where it was refused, the error is as before.
fn as_before(alloc: Global, error: &Error) -> Result<(), Stop> {
    refused(is_text(&messages_of(alloc, error), "first\na\nb\n"))
}

/// An error that is copied, gone over and written as tokens. Where that is refused, it is as before, and a message that
/// can't be copied is passed.
pub(crate) fn copied(page: &mut Page) -> Result<(), Stop> {
    let error = error_of(page.alloc(), &["a", "b"])?;
    match error.try_clone() {
        Ok(copy) => put_copy(&copy, page),
        Err(_) => as_before(page.alloc(), &error),
    }
}

fn put_copy(copy: &Error, page: &mut Page) -> Result<(), Stop> {
    if !are_copied(copy) {
        return as_before(page.alloc(), copy);
    }
    match copy.to_compile_error(page.alloc()) {
        Ok(tokens) => put_spanned(&tokens, page),
        Err(_) => as_before(page.alloc(), copy),
    }
}

// Whether each message is copied.
fn are_copied(error: &Error) -> bool {
    let mut all = true;
    for message in error {
        all &= message.is_ok();
    }
    all
}

fn put_spanned(tokens: &TokenStream, page: &mut Page) -> Result<(), Stop> {
    let spanned = looked_at(Error::new_spanned(page.alloc(), tokens, "of tokens"))?;
    put_messages(&spanned, page);
    Ok(())
}
