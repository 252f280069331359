//! The table of the written grammar as data: an entry for each kind, as steps that code can follow.
//!
//! - `kind`, `part`, `word`: the kinds of node, the names of parts, and the words and punctuations of which entries
//!   speak; `same`: kinds and names that are one.
//! - `op`: the steps of entries and of looks.
//! - `composite`: looks of several steps, by their names; `sights`: what they see, step by
//!   step (`entry_sights`, `form_sights`).
//! - `form`: which forms of expressions begin at tokens, and which have their left operand before them.
//! - `entry`: the entry of each kind. The entries stand in `paths`, `types`, `patterns`, `attributes`, `generics`,
//!   `expressions`, `items`, `functions`, `lists` and `statements`, as in the written grammar.
//!
//! `tools/rows.py` writes the entries and the looks from the written grammar; each is proved to be what it was
//! written from.
#![tactic(auto)]

mod attributes;
pub mod composite;
pub mod entry;
mod entry_sights;
mod expressions;
pub mod form;
mod form_sights;
mod functions;
mod generics;
mod items;
pub mod kind;
mod lists;
pub mod op;
pub mod part;
mod paths;
mod patterns;
pub mod same;
pub mod sights;
mod statements;
mod types;
pub mod word;
