//! Leaves of token trees: identifiers, punctuation marks and literals.
//!
//! A leaf is its printed text and its span. Contracts see the text as characters, by the words
//! `ident_text` and `literal_text`.
//!
//! - `leaf_text` (private): the text of an identifier or a literal.
//! - `text_table`: tables by which leaves share their texts.
//! - `ident`: identifiers, and the faults of a text that is none.
//! - `punct`: punctuation marks.
//! - `literal`: literals.
//! - `debug` (private): leaves as `{:?}` shows them.
//! - `escape` (private): how characters and bytes are written inside quotes.
//! - `in_quotes` (private): the constructors of literals in quotes.
//! - `integer` (private): the constructors of integer literals.
//! - `minus`: the minus that may stand before a number.
//! - `parse` (private): literals of texts, and which texts are literals.
//! - `subspan` (private): the spans of parts of literals.
//! - `quoted` (private): literals in quotes, and where their insides stand.
//! - `spelled` (private): what the units of an inside spell.
//! - `value`: the values of literals in quotes, and of their texts.
//! - `value_laws`: laws of these values.
//! - `messages` (private): what is said of faults.
//! - `laws`: laws of equality, order and hash, and of what leaves are written as.
#![tactic(auto)]

mod debug;
mod escape;
pub mod ident;
mod in_quotes;
mod integer;
pub mod laws;
mod leaf_text;
pub mod literal;
mod messages;
pub mod minus;
mod parse;
pub mod punct;
mod quoted;
mod spelled;
mod subspan;
pub mod text_table;
pub mod value;
pub mod value_laws;

pub use ident::{Ident, IdentFault};
pub use literal::Literal;
pub use punct::{Punct, Spacing};
pub use text_table::TextTable;
pub use value::ConversionErrorKind;
