//! The syntax tree's types: what was read as a tree, one layer at a time, as structs whose fields are its parts. Here
//! are those that other forms have in common, over `syn_part`, which has how a tree is taken apart; `syn_pat` has
//! patterns; `syn_expr`, `syn_data` and `syn_item` have the rest.
//!
//! - `types`, `bounds`: types.
//! - `paths`: paths, members and macros; `position`: where the trait's path ends in a qualified one.
//! - `generics`: generics and where clauses.
//! - `attributes`, `visibility`.
//! - `conversions` (private): of a form into the enum that holds it.
//! - `laws`: how the segments of a path are counted.
#![tactic(auto)]

pub mod attributes;
pub mod bounds;
mod conversions;
pub mod generics;
pub mod laws;
pub mod paths;
pub mod position;
pub mod types;
pub mod visibility;
