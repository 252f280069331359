//! Data and items as trees: the types of `syn_data` and of `syn_item`.
//!
//! - `data`, `item`, `derive`: fields and variants; structs, enums, unions, statics, uses and crates; what is derived
//!   for.
//! - `function`: functions, with their signatures, parameters and receivers.
//! - `uses`, `modules`, `alias`, `constant`, `traits`, `impls`, `macros`, `members`: the other items.
//! - `entry`: items of any kind with their attributes and their visibility.
//! - `part`: a part that may be missing.

pub mod alias;
pub mod constant;
pub mod data;
pub mod derive;
pub mod entry;
pub mod function;
pub mod impls;
pub mod item;
pub mod macros;
pub mod members;
pub mod modules;
pub mod part;
pub mod traits;
pub mod uses;
