//! The reader that follows the table of the written grammar.
//!
//! Each function answers what a run of the grammar does (`specs/Answers`): a tree and what is left behind it, or a
//! refusal. In `proofs/`: `Says` (what steps in a row say), `Turns`, `Elements`, `Operands` (a run of repetitions, of
//! lists and of expressions, one turn, element or form at a time), `Pendings` (what is made of what was read by all
//! that is pending), `Groups` (a run enters the groups of whole entries), `Public` (what a run with enough fuel says).
//!
//! - `read`: the reader.
//! - `rules`: what it asks of tokens, and of what was read.
//! - `refusal`: why tokens were not read.
//! - `run`: the run: steps of entries, one after the other; `next`: what goes on from a left operand.
//! - `pending`, `finish`: what is pending while something is read, and what is made of what was read.
//! - `leaf`, `group`: tokens that are read one by one, and groups.
//! - `choice`, `around`, `form`: the parts of a step, and what is made of what was read of them.
//! - `unfit`: what is said where what was read may not stand there.
#![tactic(auto)]

mod around;
mod choice;
mod finish;
mod form;
mod group;
mod leaf;
mod next;
pub mod pending;
pub mod read;
pub mod refusal;
pub mod rules;
mod run;
mod unfit;
