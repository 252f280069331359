//! The types of items other than data: what was read as a tree, one layer at a time, as structs whose fields are its
//! parts.
//!
//! - `entry`: items with their attributes and their visibility.
//! - `function`: functions, with their signatures, parameters and receivers.
//! - `arguments`: the receiver and the dots of a signature.
//! - `uses`: what use declarations name.
//! - `modules`: modules and extern blocks.
//! - `alias`, `constant`: type aliases and constants.
//! - `traits`, `impls`: traits, their aliases, and impls.
//! - `members`: the items of traits, impls and extern blocks, by their form.
//! - `macros`: macros as items.
//! - `modifiers`: what may stand in front of an item, and that none of it does.
//! - `item`: items, by their form.
//! - `conversions` (private): of a form into the enum that holds it.
//! - `kept`: that what was read is kept as it was read.
//! - `part`, `judged`: what several of these have.
#![tactic(auto)]

pub mod alias;
pub mod arguments;
pub mod constant;
mod conversions;
pub mod entry;
pub mod function;
pub mod impls;
pub mod item;
pub mod judged;
pub mod kept;
pub mod macros;
pub mod members;
pub mod modifiers;
pub mod modules;
pub mod part;
pub mod traits;
pub mod uses;
