//! Looking for kinds of tokens at a place.
//!
//! - `token`: kinds of tokens that can be looked for.
//! - `words`: words at a place.
//! - `kinds`: keywords, delimiters and other kinds.
//! - `marks`: punctuations.
//! - `leaves`: names, literals and lifetimes.
#![tactic(auto)]

mod kinds;
mod leaves;
pub mod marks;
pub mod token;
pub mod words;

pub use token::{Peek, Token};
