//! The source map: the texts that were read, and the places of their characters.
//!
//! A map lays its texts one behind the other on one line of positions: a text takes a position
//! for each of its characters, and one for its end. A span is a pair of positions.
//!
//! - `place`: a line and a column.
//! - `span`: a pair of positions, and what a map says of it: line, column, bytes, text.
//! - `packed`: a span as one number.
//! - `source_map`: the texts of a map.
//! - `ahead`: the span that a text will have.
//! - `fault`: why a text was refused.
//! - `file` (private): a text with its tables.
//! - `tables` (private, but for `characters`): the tables of a text.
//! - `walk` (private): on by so many characters.
#![tactic(auto)]

pub mod ahead;
pub mod fault;
mod file;
pub mod packed;
pub mod place;
pub mod source_map;
pub mod span;
mod tables;
mod walk;

pub use fault::{LexError, LexFault};
pub use packed::PackedSpan;
pub use place::LineColumn;
pub use source_map::{MapFull, SourceMap};
pub use span::Span;
pub use tables::characters;
