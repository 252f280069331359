//! The syntax tree's types of patterns, over `syn_part`.
//!
//! - `patterns`: what patterns are read as; `pat`: patterns by their form; `pat_type`: a pattern and its type.
//! - `conversions` (private): of a form into the enum that holds it.
#![tactic(auto)]

mod conversions;
pub mod pat;
pub mod pat_type;
pub mod patterns;
