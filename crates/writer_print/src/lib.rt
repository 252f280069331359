//! Tokens that are to be written, and their printed text.
//!
//! - `piece`: the tokens.
//! - `sheet`: texts that are printed part by part.
//! - `print`: the text of tokens.
#![tactic(auto)]

pub mod piece;
pub mod print;
pub mod sheet;
