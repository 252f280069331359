//! Forms of the written grammar, read from tokens: as trees, and as the types of the syntax tree that say one layer of
//! them (those of `syn_typed` and `syn_single`). Its parts stand in `syn`, under the same names.
//!
//! - `parse`: tokens that are one form of a kind: a file, an item, a type, an expression.
//! - `peek`: whether an expression begins there.
//! - `reader`, `reading`: forms and tokens, read one behind the other.
//! - `stream`: forms read from a `ParseBuffer`, among tokens.
//! - `text`: a text, read by a function in one call.
//! - `typed`: forms that are read as a type of the syntax tree; `single`: forms that are one of several of a kind.
//! - `optional`: forms that may be missing; `safety`: whether a function is safe to call, and whether a static may be
//!   written.
#![tactic(auto)]

pub mod optional;
pub mod parse;
pub mod peek;
pub mod reader;
mod reading;
mod safety;
pub mod single;
pub mod stream;
pub mod text;
pub mod typed;

pub use optional::ParseOptional;
pub use parse::{parse_as, parse_file, parse_front};
pub use peek::begins_expression;
pub use reader::{Entered, ReadSign, Reader};
pub use single::{ParseSingleForm, parse2_single};
pub use stream::{ParseForm, ParseForms, ParseOptionalForm};
pub use text::parse_str_with;
pub use typed::parse2;
