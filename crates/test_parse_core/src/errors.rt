//! Errors: messages put together, gone over, and as tokens.

use crate::texts::put_stream;
use proc_macro2::Span;
use std::alloc::{AllocError, Global};
use syn_error::{Error, ParseFault};
use test_support::Page;

// Two messages.
fn two(alloc: Global) -> Result<Error, AllocError> {
    let mut error = Error::new(alloc, Span::call_site(), "one")?;
    error.combine(Error::new(alloc, Span::call_site(), "two")?)?;
    Ok(error)
}

/// What errors of several messages say.
pub(crate) fn errors(page: &mut Page) {
    match two(page.alloc()) {
        Ok(error) => put_errors(error, page),
        Err(_) => page.cut(),
    }
    let memory = ParseFault::Memory;
    write!(page, "{memory}\n");
}

fn put_errors(error: Error, page: &mut Page) {
    write!(page, "{error}\n");
    put_messages(&error, page);
    put_stream(error.to_compile_error(page.alloc()), page);
    page.put("\n");
    put_extended(error, page);
}

/// Puts the words of all messages, in lines.
pub(crate) fn put_messages(error: &Error, page: &mut Page) {
    for message in error {
        match message {
            Ok(message) => write!(page, "{message}\n"),
            Err(_) => page.cut(),
        }
    }
}

// Puts the messages of an error that is extended by those of another one.
fn put_extended(error: Error, page: &mut Page) {
    match extended(page.alloc(), error) {
        Ok(more) => put_faults(more, page),
        Err(_) => page.cut(),
    }
}

fn extended(alloc: Global, error: Error) -> Result<Error, AllocError> {
    let mut more = Error::new(alloc, Span::call_site(), 7)?;
    more.extend(error)?;
    Ok(more)
}

fn put_faults(error: Error, page: &mut Page) {
    for message in error {
        let fault = ParseFault::Syntax(message);
        write!(page, "{fault}\n");
    }
}
