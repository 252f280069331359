//! The programs of texts, over the whole grammar, and their canonical forms.
//!
//! - `laws`: laws of both.
#![tactic(auto)]

pub mod laws;
