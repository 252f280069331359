//! Looking at tokens, as the table of the written grammar does.
//!
//! - `leaf`: words that pass; `reserved`: which of them are reserved.
//! - `literals`: literals that pass; `text`: their texts.
//! - `sign`: punctuations and lifetimes that stand first.
//! - `group`: groups that stand first.
//! - `laws`: whole entries, and entries in which each group closes where it says.
#![tactic(auto)]

pub mod group;
pub mod laws;
pub mod leaf;
pub mod literals;
mod reserved;
pub mod sign;
pub mod text;
