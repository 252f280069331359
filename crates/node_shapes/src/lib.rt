//! The shapes of trees: what of an entry of the grammar a tree keeps that is looked at without the tokens around it.
//!
//! In `specs/`: `Forms` (which operands a form of an expression has), `Streams`
//! (tokens that are those of trees), `Shape` (the shape of an entry).
//!
//! - `laws`: what was read has the shape of its entry.
#![tactic(auto)]

pub mod laws;
