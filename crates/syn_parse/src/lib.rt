//! Reading syntax from token streams. A parser names this crate alone: all that it names stands here.
//!
//! The parts are crates of their own:
//!
//! - `proc_macro2`: token streams and what they are made of, texts and their map.
//! - `syn_error`: errors, and what is printed as tokens.
//! - `syn_kinds`: kinds of tokens as values, by their names in `token`, and lifetimes.
//! - `syn_buffer`: the tokens of a stream as one flat list, and places in it.
//! - `syn_peek`: looking for kinds of tokens at a place.
//! - `syn_input`: streams that are read, groups, what can be read, whole parses, and what identifiers have besides.
//! - `syn_lists`: lists of values with separators.
//!
//! The definitions that their contracts cite stand in `specs/` here too, and the macros that enter groups
//! (`parenthesized!`, `braced!`, `bracketed!`) here alone.
#![tactic(auto)]

mod macros;

pub use proc_macro2::{
    DelimSpan, Delimiter, Group, Ident, IdentFault, LexError, LexFault, LineColumn, Literal, Punct,
    SourceMap, Spacing, Span, TokenStream, TokenTree, TryClone,
};
pub use syn_buffer::{
    Cursor, Next, TokenBuffer, buffer, cursor, entry, next, place, position, skip, trees, visible,
};
pub use syn_error::{Error, ErrorPlace, ParseFault, Result, TextFault, ToTokens};
pub use syn_input::{
    Braces, Brackets, Delimited, IdentExt, LifetimeExt, Lookahead1, Parens, Parse, ParseBuffer,
    ParseStream, Parser, StepCursor, fault, group, input, lookahead, parse, parse_buffer,
    parse_str, parse_stream, parse2, parser, step, within,
};
pub use syn_kinds::delimiters::Delimiters;
pub use syn_kinds::keyword::Keyword;
pub use syn_kinds::punctuation::Punctuation;
pub use syn_kinds::{End, IdentAny, Lifetime, Nothing, lifetime, token};
pub use syn_lists as punctuated;
pub use syn_lists::{Nowhere, Pair, ParseBufferExt, Punctuated, read_many};
pub use syn_peek::{Peek, Token};
