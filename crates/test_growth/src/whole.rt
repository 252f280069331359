//! Texts that are read in one call, by a function that is lent their tokens.

use proc_macro2::SourceMap;
use syn::{ParseFault, TextFault, Type, parse_str_with, parse2};
use test_support::{Page, Stop};

const TEXTS: [&str; 4] = ["Vec<u8>", "(u8, u8)", "Vec<", "("];

// What is said of a type.
fn named(ty: Type<'_, '_>) -> Result<&'static str, ParseFault> {
    match ty {
        Type::Path(_) => Ok("a path: "),
        Type::Tuple(_) => Ok("a tuple: "),
        _ => Ok("another: "),
    }
}

// What is said of a text that is read as a type, or of why it is none.
fn told(read: Result<&'static str, TextFault>) -> Result<&'static str, Stop> {
    match read {
        Ok(words) => Ok(words),
        Err(TextFault::Lexical(_)) => Ok("a lexical fault: "),
        Err(TextFault::Syntax(_)) => Ok("a syntax fault: "),
        Err(TextFault::MapFull) => Err(Stop::Changed),
        Err(TextFault::Memory) => Err(Stop::Refused),
    }
}

// The same of a text.
fn said(text: &str, page: &Page) -> Result<&'static str, Stop> {
    let mut map = SourceMap::new(page.alloc());
    told(parse_str_with(page.alloc(), text, &mut map, |arena, buffer| {
        named(parse2::<Type>(arena, buffer)?)
    }))
}

/// Puts what each text is, in lines.
pub fn put_answers(page: &mut Page) -> Result<(), Stop> {
    for text in TEXTS {
        page.put(said(text, page)?);
        page.put(text);
        page.put("\n");
    }
    Ok(())
}
