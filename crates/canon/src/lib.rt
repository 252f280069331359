//! The canonical form of a Rust source text.
//!
//! - `form`: the canonical form of a text.
//! - `joins`: the canonical form of texts that are joined.
//! - `outlines`: the names of the items of a text, and where they stand.
//! - `runs`: runs, from a reader to a writer; `pages` (private): what they write.
//! - `fault`: why a text has none, and what the program says then.
//! - `causes` (private): faults of the parts of a run, as faults of the run.
//! - `stands` (private): where the tokens stand of which errors speak.
//! - `file` (private): the forms that tokens begin with.
//! - `parts` (private): the text of a file's normal form, part by part.
//! - `laws`: laws of programs and their canonical forms, which are those of `laws_programs`.
#![tactic(auto)]

mod causes;
pub mod fault;
mod file;
pub mod form;
pub mod joins;
pub mod outlines;
mod pages;
mod parts;
pub mod runs;
mod stands;

pub use canon_io::watched::Watched;
pub use fault::{Fault, status, write_fault};
pub use form::canonical;
pub use joins::canonical_joined;
pub use laws_programs::laws;
pub use outlines::{Row, outline};
pub use proc_macro2::{LineColumn, MapFull, SourceMap};
pub use runs::{run, run_joined, run_limited, run_outline};
pub use syn_error::Error;
