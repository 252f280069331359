//! Syntax errors, and what is printed as tokens.
//!
//! - `to_tokens`: what is printed as tokens.
//! - `place`: places between tokens, of which an error can speak.
//! - `error`: errors: one or more messages, each with the part of the text that it speaks of.
//! - `iter`: the messages of an error one by one, and errors put together.
//! - `compile_error`: an error as tokens that the compiler refuses with its words.
//! - `fault`: why tokens, or a text, are not read.
#![tactic(auto)]

mod compile_error;
pub mod error;
pub mod fault;
pub mod iter;
pub mod place;
pub mod to_tokens;

pub use error::Error;
pub use fault::{ParseFault, TextFault};
pub use place::ErrorPlace;
pub use to_tokens::ToTokens;

/// What is read, or why it is not.
pub type Result<T> = std::result::Result<T, ParseFault>;
