//! Whether two trees of what was read are one: the same tree of the written grammar, wherever their tokens stand.
//!
//! - `tree`: trees compared.
//! - `laws`: what holds of that.
//! - `rest` (private): what is left to be compared, once what two trees are made of has been looked at.
//! - `leaf` (private): marks, words and tokens compared.
#![tactic(auto)]

pub mod laws;
mod leaf;
mod rest;
pub mod tree;
