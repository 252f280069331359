//! A group, of what was read of its inside.
//!
//! - `made`: the tree of the group, where all of its inside was read.
#![tactic(auto)]

pub mod made;
