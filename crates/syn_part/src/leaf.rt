//! Leaves: what a field of a type holds that is a token, and the delimiters of a group.

use proc_macro2::delimiter::Delimiter;
use reader_table::word::Sign;
use rust_leaf::ident::Ident;
use rust_leaf::punct::Spacing;
use rust_map::span::Span;

/// A punctuation.
#[derive(Clone, Copy)]
pub struct Mark {
    /// Which one.
    pub sign: Sign,
    /// How its last mark is spaced.
    pub spacing: Spacing,
    /// Where its first mark stands.
    pub span: Span,
}

/// A lifetime.
#[derive(Clone, Copy)]
pub struct Lifetime<'a> {
    /// Where its `'` stands.
    pub apostrophe: Span,
    /// Its name.
    pub ident: &'a Ident,
}

/// The delimiters of a group.
#[derive(Clone, Copy)]
pub struct Delimiters {
    /// Which they are.
    pub delimiter: Delimiter,
    /// Where the group stands.
    pub span: Span,
}
