//! What a tree has in it, and what it is as tokens. Its parts stand in `syn`, under the same names.
//!
//! - `leaf`: the leaves of a tree, in their order, each with where it stands but marks between elements.
//! - `node`: its nodes and the forms of its expressions, at every depth.
//! - `tokens`: tokens that are to be written, as a stream of trees.
#![tactic(auto)]

pub mod leaf;
pub mod node;
pub mod tokens;
