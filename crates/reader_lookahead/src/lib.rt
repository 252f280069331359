//! What the looks of the table see.
//!
//! - `sights`: looks of several steps, step by step.
//! - `glance`: what the first tokens say of them before that.
//! - `told`: whether it sees what it wants, where the first tokens tell.
//! - `look`: looks, and the tests of the table.
//! - `form`: which form of expressions stands at tokens, and whether it has an operand behind it.
#![tactic(auto)]

pub mod form;
mod glance;
pub mod look;
pub mod sights;
mod told;
