//! The syntax tree's types of data: fields, variants, structs, enums and unions, one layer at a time.
//!
//! - `data`: fields and variants; `members`: what fields are named by.
//! - `item`: structs, enums, unions, statics, uses and extern crates.
//! - `derive`: what is derived for: a struct, an enum or a union with its attributes and its visibility.
//! - `conversions` (private): of a form into the enum that holds it.
//! - `laws`: that what was read is what these functions ask for.
//! - `part` (private): what several of these have.
#![tactic(auto)]

mod conversions;
pub mod data;
pub mod derive;
pub mod item;
pub mod laws;
pub mod members;
mod part;
