//! The kinds of tokens as values, and lifetimes.
//!
//! - `table`: which words the keywords are, and which marks the punctuations; the words that are no names.
//! - `token`: the kinds by their names, as `token::Struct` and `token::Comma`.
//! - `keyword`, `punctuation`, `underscore`: one token, or marks that belong together.
//! - `delimiters`, `group`: what encloses a group.
//! - `markers`: kinds that are no tokens.
//! - `lifetime`: lifetimes; `symbol`: those of texts.
//! - `laws`: laws of kinds and of lifetimes that are compared.
//! - `put` (private): prints one token.
//!
//! When a kind stands at the front of tokens is defined in `specs/Stands`.
#![tactic(auto)]

pub mod delimiters;
pub mod group;
pub mod keyword;
pub mod laws;
pub mod lifetime;
pub mod markers;
pub mod punctuation;
mod put;
pub mod symbol;
pub mod table;
pub mod token;
pub mod underscore;

pub use lifetime::Lifetime;
pub use markers::{End, IdentAny, Nothing};
