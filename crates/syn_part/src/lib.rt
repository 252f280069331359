//! What the syntax tree's types have in common: how a tree that was read is taken apart, one layer at a time, and what
//! stands in several types. `syn_pat`, `syn_ast`, `syn_expr`, `syn_data` and `syn_item` have the types.
//!
//! - `leaf`: marks, lifetimes and delimiters; `list`, `iter`: lists, and their elements one by one.
//! - `take`: what a tree is made of, as the other modules ask for it; `inside`: what stands in a node of a kind, and in
//!   a part of a name; `joined`: several parts at once.
//! - `sub`, `name`, `missing`: what stands in several types.
//! - `laws`, `kept`: that what was read is what these functions ask for.
#![tactic(auto)]

pub mod inside;
pub mod iter;
pub mod joined;
pub mod kept;
pub mod laws;
pub mod leaf;
pub mod list;
pub mod missing;
pub mod name;
pub mod sub;
pub mod take;
