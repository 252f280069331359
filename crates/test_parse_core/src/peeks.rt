//! What is looked for in streams.

use crate::groups::{by_forks, by_macro, within};
use crate::texts::put;
use proc_macro2::{Ident, SourceMap, TokenStream, TokenTree};
use syn_error::ParseFault;
use syn_kinds::{End, IdentAny, Lifetime, token};
use syn_parse::{Parse, ParseBuffer, Parser};
use test_support::Page;

/// Whether a stream is as it should be, whose tokens are read.
pub type Looked = Result<bool, ParseFault>;

/// What is looked for, in tokens that stand there.
#[derive(Clone, Copy)]
pub enum Look {
    /// A compound mark that is read in part.
    Marks,
    /// An equals sign at two.
    Equals,
    /// Words, raw names and keywords.
    Words,
    /// What stands behind trees.
    BehindTrees,
    /// What forks read.
    Forks,
    /// What a group has that is entered by a call.
    Within,
    /// What a group has that is entered by the macro.
    ByMacro,
}

fn look_for(look: Look, input: &mut ParseBuffer<'_>) -> Looked {
    match look {
        Look::Marks => marks(input),
        Look::Equals => equals(input),
        Look::Words => words(input),
        Look::BehindTrees => behind_trees(input),
        Look::Forks => by_forks(input),
        Look::Within => within(input),
        Look::ByMacro => by_macro(input),
    }
}

/// Puts whether a text, behind the others of the map, is as it should be.
pub fn put_look(asked: &str, text: &str, look: Look, map: &mut SourceMap, page: &mut Page) {
    let parser = |input: &mut ParseBuffer<'_>| look_for(look, input);
    put(asked, text, parser.parse_str(page.alloc(), text, map), page);
}

/// Marks, words, and what stands behind trees.
pub fn peeks(page: &mut Page) {
    let map = &mut SourceMap::new(page.alloc());
    put_look("marks", "+= + =", Look::Marks, map, page);
    put_look("equals", "==", Look::Equals, map, page);
    put_look("words", "union r#struct struct", Look::Words, map, page);
    put_look("behind trees", "'a (b c) , d", Look::BehindTrees, map, page);
}

/// That, once the rest of a stream is read.
pub fn all_read(input: &mut ParseBuffer<'_>, is_so: bool) -> Looked {
    let _rest = input.parse::<TokenStream>()?;
    Ok(is_so)
}

// Reads what stands first.
fn skip<T: Parse>(input: &mut ParseBuffer<'_>) -> Result<(), ParseFault> {
    let _first = input.parse::<T>()?;
    Ok(())
}

// A compound mark is read in part, and what is left of it is another mark.
fn marks(input: &mut ParseBuffer<'_>) -> Looked {
    let is_compound = input.peek::<token::PlusEq>();
    skip::<token::Plus>(input)?;
    let is_equals = input.peek::<token::Eq>();
    let is_other = input.peek::<token::EqEq>() | input.peek::<token::Plus>();
    all_read(input, is_compound & is_equals & !is_other)
}

// An equals sign stands at two.
fn equals(input: &mut ParseBuffer<'_>) -> Looked {
    let is_one = input.peek::<token::Eq>();
    let is_two = input.peek::<token::EqEq>();
    let is_end = input.peek::<End>();
    all_read(input, is_one & is_two & !is_end)
}

// Words that are reserved somewhere alone, raw names and keywords are told apart.
fn words(input: &mut ParseBuffer<'_>) -> Looked {
    let is_word = input.peek::<token::Union>() & input.peek::<Ident>();
    skip::<Ident>(input)?;
    let is_raw = !input.peek::<token::Struct>() & input.peek::<IdentAny>();
    skip::<Ident>(input)?;
    let is_keyword = input.peek::<token::Struct>() & !input.peek::<Ident>();
    skip::<token::Struct>(input)?;
    let is_end = input.peek::<End>() & input.is_empty();
    Ok(is_word & is_raw & is_keyword & is_end)
}

// A group is one tree, and a lifetime too.
fn behind_trees(input: &mut ParseBuffer<'_>) -> Looked {
    let is_first = input.peek::<Lifetime>();
    let are_behind = input.peek2::<token::Paren>() & input.peek3::<token::Comma>();
    let is_comma = input.peek2::<token::Comma>();
    skip::<Lifetime>(input)?;
    let are_next = input.peek2::<token::Comma>() & input.peek3::<Ident>();
    skip::<TokenTree>(input)?;
    let is_last = is_last(input)?;
    Ok(is_first & are_behind & !is_comma & are_next & is_last)
}

// A comma and a name are left.
fn is_last(input: &mut ParseBuffer<'_>) -> Looked {
    skip::<token::Comma>(input)?;
    let is_last = input.peek::<Ident>();
    let is_more = input.peek2::<Ident>() | input.peek3::<Ident>();
    skip::<Ident>(input)?;
    Ok(is_last & !is_more)
}
