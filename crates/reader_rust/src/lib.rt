//! Reading by the written grammar.
//!
//! - `count` (private): how many tokens a tree has.
//! - `grammar`: the rules by which Rust is read.
//! - `names`: the names of a file's items.
//! - `said`: what is said of tokens that could not be read.
#![tactic(auto)]

mod count;
pub mod grammar;
pub mod names;
pub mod said;
