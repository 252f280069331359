//! Trees put where they stand: a form of a type, a pattern, a statement or an item, wrapped in what the grammar reads
//! there, as exactly one tree. `syn_made` makes the forms, and wraps one as an expression (`expr::whole::expression`).
//!
//! - `types`, `patterns`: types and patterns of their forms.
//! - `statements`: a statement among others, and a block of them.
//! - `among`: items among others, by their form, and several as what stands in a file, a module, a trait or an impl.
//! - `derive`: what is derived for as an item among others.
#![tactic(auto)]

pub mod among;
pub mod derive;
pub mod patterns;
pub mod statements;
pub mod types;
