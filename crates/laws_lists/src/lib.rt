//! Laws of lists that are printed and read.
//!
//! - `laws`: lists of names with punctuations between them; each is the contract of a function that does nothing.
//! - `many`: lists that are read by a function, against the written grammar.
//! - `chain`: the same where the separator has any number of marks.
//! - `read_back`: the calls themselves, one behind the other.
#![tactic(auto)]

pub mod chain;
pub mod laws;
pub mod many;
pub mod read_back;
