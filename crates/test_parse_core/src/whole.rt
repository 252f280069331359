//! Values that are read whole, and those that aren't.

use crate::leaves;
use proc_macro2::{Delimiter, Ident, Literal, Punct, SourceMap, TokenStream};
use std::alloc::Global;
use std::fmt::Debug;
use syn_error::{ParseFault, TextFault, ToTokens};
use syn_kinds::{Nothing, token};
use syn_parse::lifetime::Lifetime;
use syn_parse::parser::parse_str;
use syn_parse::{Cursor, LifetimeExt, Parse, ParseBuffer};
use test_support::Page;

/// Puts a line: the tokens of the value that a text is read as, or the fault.
pub fn read<T: Parse + ToTokens>(asked: &str, text: &str, page: &mut Page) {
    write!(page, "{asked} [{text}]: ");
    leaves::read::<T>(text, page);
    page.put("\n");
}

/// Texts that are read.
pub fn values(page: &mut Page) {
    read::<Ident>("identifier", " name ", page);
    read::<Box<Literal>>("literal", "0x1F", page);
    read::<Punct>("mark", ";", page);
    read::<Lifetime>("lifetime", "'a", page);
    read::<Option<token::Struct>>("struct or nothing", "", page);
    read::<Option<token::Struct>>("struct or nothing", "struct", page);
    read::<token::ShlEq>("<<=", "<<=", page);
    read::<token::PathSep>("::", "::", page);
    read::<token::Underscore>("_", "_", page);
    read::<Nothing>("nothing", "", page);
}

/// Texts that aren't.
pub fn faults(page: &mut Page) {
    read::<token::Semi>("semicolon", ",", page);
    read::<token::Semi>("semicolon", "", page);
    read::<Ident>("identifier", "fn", page);
    read::<token::Fn>("fn", "r#fn", page);
    read::<Ident>("identifier", "a b", page);
    read::<Lifetime>("lifetime", "a", page);
    read::<Punct>("mark", "'a", page);
    read::<token::PathSep>("::", ": :", page);
}

/// A text with a lexical fault, one that is no identifier, and one for which the map has no positions left.
pub fn of_texts(page: &mut Page) {
    let alloc = page.alloc();
    put_fault("a )", SourceMap::new(alloc), page);
    put_fault("a b", SourceMap::new(alloc), page);
    put_fault("abc", SourceMap::starting_at(alloc, 4_294_967_294), page);
}

// Puts the kind of the fault that a text has behind the others of the map.
fn put_fault(text: &str, mut map: SourceMap, page: &mut Page) {
    let fault = kind(parse_str::<Ident>(page.alloc(), text, &mut map));
    write!(page, "fault [{text}]: {fault}\n");
}

fn kind(answer: Result<Ident, TextFault>) -> &'static str {
    match answer {
        Ok(_) => "none",
        Err(TextFault::Lexical(_)) => "lexical",
        Err(TextFault::MapFull) => "map full",
        Err(TextFault::Syntax(_)) => "syntax",
        Err(TextFault::Memory) => "memory",
    }
}

/// What is left of a stream, as users and as programmers are shown it.
pub fn shown(begin: Cursor<'_>, page: &mut Page) {
    let mut input = ParseBuffer::new(page.alloc(), begin);
    if let Err(fault) = put_left(&mut input, page) {
        page.show(&fault);
    }
    match input.cursor().token_stream(page.alloc()) {
        Ok(left) => put_is_debug(&input, &left, page),
        Err(_) => page.cut(),
    }
}

// Puts a lifetime that a stream begins with, what is left behind it, and what is left of a group behind its first name.
fn put_left(input: &mut ParseBuffer<'_>, page: &mut Page) -> Result<(), ParseFault> {
    let lifetime = Lifetime::parse_any(input)?;
    write!(page, "{lifetime}, and left: {input}\n");
    let (_span, mut content) = input.parse_group(Delimiter::Parenthesis)?;
    let _name = content.parse::<Ident>()?;
    write!(page, "left in the group: {content}\n");
    Ok(())
}

// Puts whether programmers are shown of a stream what they are shown of the tokens that are left.
fn put_is_debug(input: &ParseBuffer<'_>, left: &TokenStream, page: &mut Page) {
    let shown = debugged(page.alloc(), input);
    let wanted = debugged(page.alloc(), left);
    match (shown.whole(), wanted.whole()) {
        (Ok(shown), Ok(wanted)) => {
            let is_debug = shown == wanted;
            write!(page, "its tokens by debug: {is_debug}\n");
        }
        _ => page.cut(),
    }
}

// A value as programmers are shown it, on a page of its own.
fn debugged<T: Debug>(alloc: Global, value: &T) -> Page {
    let mut page = Page::new(alloc);
    page.debug(value);
    page
}
