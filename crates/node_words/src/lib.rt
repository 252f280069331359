//! The words in which it is said what a node is as a tree of the grammar. They stand in `specs/Words`.
#![tactic(auto)]
