//! Streams that are read, and what can be read from them.
//!
//! - `input`: streams that are read.
//! - `fault`: what is said of tokens that can't be read.
//! - `group`: groups in a stream.
//! - `delimited`: groups that are entered by their kind of delimiters.
//! - `parse`: what can be read.
//! - `parse_trees`: reading what holds other syntax.
//! - `lifetime_ext`: what lifetimes have besides.
//! - `leaves`, `kinds`, `marks`: reading names, literals and lifetimes, keywords and other kinds, punctuations.
//! - `trees`: reading token trees and streams.
//! - `shown`: what is left of a stream, shown.
//! - `step`, `within`: reading by functions.
//! - `parser`: whole parses.
//! - `ident_ext`: what identifiers have besides; `raw` (private): texts of raw identifiers.
//! - `lookahead`: looking for several kinds at one place, and the error that none stands there.
//! - `laws`: laws of streams that are read.
#![tactic(auto)]

pub mod delimited;
pub mod fault;
pub mod group;
pub mod ident_ext;
pub mod input;
mod kinds;
pub mod laws;
mod leaves;
pub mod lifetime_ext;
pub mod lookahead;
mod marks;
pub mod parse;
mod parse_trees;
pub mod parser;
mod raw;
mod shown;
pub mod step;
mod trees;
pub mod within;

pub use delimited::{Braces, Brackets, Delimited, Parens};
pub use ident_ext::IdentExt;
pub use input::{ParseBuffer, ParseStream};
pub use lifetime_ext::LifetimeExt;
pub use lookahead::Lookahead1;
pub use parse::Parse;
pub use parser::{Parser, parse_buffer, parse_str, parse_stream, parse2};
pub use step::StepCursor;
