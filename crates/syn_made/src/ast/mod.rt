//! The types of `syn_ast` and `syn_pat` as trees; modules mirror theirs. Of a value that no form of the grammar is, as
//! a tuple of one type without a comma, `try_to_tree` answers `None`.
//!
//! - `types`, `bounds`: types.
//! - `paths`: paths, members and macros.
//! - `generics`: generics and where clauses.
//! - `attributes`, `visibility`.
//! - `patterns`: what patterns are read as; `pat`: patterns by their form.

pub mod attributes;
pub mod bounds;
pub mod generics;
pub mod pat;
pub mod paths;
pub mod patterns;
pub mod types;
pub mod visibility;
