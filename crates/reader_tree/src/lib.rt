//! What is read by the table of the written grammar: a tree whose leaves are the tokens, lent.
//!
//! - `arena`: where trees stand.
//! - `tree`: trees.
//! - `made`: trees, made of their parts.
//! - `copy`: trees once more.
//! - `part`: their parts.
//! - `shape`: what a tree is, and what stands in it.
//! - `count`: how many tokens it has.
#![tactic(auto)]

pub mod arena;
pub mod copy;
pub mod count;
pub mod made;
pub mod part;
pub mod placed_spacing;
pub mod shape;
pub mod tree;
