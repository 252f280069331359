//! The syntax of the small language.

use syn_parse::{Ident, Literal, Punctuated, token};

/// What stands before a `;`: a definition or an import.
#[derive(Drop)]
pub enum Line {
    Definition(Definition),
    Import(Import),
}

/// `let NAME = VALUE`
#[derive(Drop)]
pub struct Definition {
    pub let_token: token::Let,
    pub ident: Ident,
    pub eq_token: token::Eq,
    pub value: Value,
}

/// `NUMBER`, or `[NUMBER, NUMBER]`
#[derive(Drop)]
pub enum Value {
    Number(Literal),
    List(Punctuated<Literal, token::Comma>),
}

/// `use NAME, NAME`: one name at least.
#[derive(Drop)]
pub struct Import {
    pub use_token: token::Use,
    pub names: Punctuated<Ident, token::Comma>,
}
