//! The types of expressions, statements and blocks: what was read as a tree, one layer at a time, as structs whose
//! fields are its parts.
//!
//! - `expr`: forms of expressions; `expr::whole`: which of them an expression is.
//! - `blocks`: blocks, files and expressions that hold other ones in delimiters.
//! - `stmt`: statements; `typed`: the patterns with a type of `let`s and of closures' parameters.
//! - `conversions` (private): of a form into the enum that holds it.
//! - `modifiers`: what may stand beside the parts of closures, blocks and `let`s.
//! - `part` (private): parts by their names, and what stands in delimiters.
#![tactic(auto)]

pub mod blocks;
mod conversions;
pub mod expr;
pub mod modifiers;
mod part;
pub mod stmt;
pub mod typed;
