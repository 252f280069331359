//! The items of traits, impls and extern blocks, as the enums that hold their form. Which form one has, and the tree
//! that is that form, `syn_item::members` says: of that it is put together again.
//!
//! - `associated`: the items of traits and impls, as one type.
//! - `foreign`: the items of extern blocks.
//! - `conversions` (private): of a form into the enum that holds it.
//! - `reading` (private): an item of an extern block, read from tokens.
#![tactic(auto)]

pub mod associated;
mod conversions;
pub mod foreign;
mod reading;
