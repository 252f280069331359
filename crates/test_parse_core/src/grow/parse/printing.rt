//! A list that grows and is printed, errors that are put together.

use crate::errors::put_messages;
use crate::grow::given::{Names, front, message, name};
use crate::grow::grown::{print_behind, put_in};
use crate::grow::shown::{is_text, messages_of};
use std::alloc::Global;
use syn_error::Error;
use test_support::{Page, Stop, refused};

/// The print of a list behind other tokens.
pub(crate) fn list(page: &mut Page) -> Result<(), Stop> {
    let names = five(page.alloc())?;
    let mut tokens = front(page.alloc())?;
    print_behind(page.alloc(), &names, &mut tokens)?;
    write!(page, "{tokens}\n");
    Ok(())
}

// Names that are put behind one another, each with what is there before it.
fn five(alloc: Global) -> Result<Names, Stop> {
    let mut names = Names::new(alloc);
    for (text, before) in [
        ("a", ""),
        ("b", "a"),
        ("c", "a , b"),
        ("d", "a , b , c"),
        ("e", "a , b , c , d"),
    ] {
        let pushed = names.push(name(alloc, text)?);
        put_in(pushed, &names, text, before)?;
    }
    Ok(names)
}

/// The messages of errors that were put together. Where that is refused, the first is as before.
pub(crate) fn errors(page: &mut Page) -> Result<(), Stop> {
    let mut error = message(page.alloc(), "first")?;
    for (words, before) in [
        ("second", "first\n"),
        ("third", "first\nsecond\n"),
        ("fourth", "first\nsecond\nthird\n"),
    ] {
        combine(page.alloc(), &mut error, words, before)?;
    }
    put_messages(&error, page);
    Ok(())
}

fn combine(alloc: Global, error: &mut Error, words: &str, before: &str) -> Result<(), Stop> {
    match error.combine(message(alloc, words)?) {
        Ok(()) => Ok(()),
        Err(_) => refused(is_text(&messages_of(alloc, error), before)),
    }
}
