//! Literals and operators.
//!
//! - `values`: the values of literals, and their copies.
//! - `tokens`: what is printed and read.

pub(crate) mod tokens;
pub(crate) mod values;
