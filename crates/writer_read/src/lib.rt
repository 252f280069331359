//! Writing the normal form of what was read: laws of what is written, and the writer.
//!
//! How each part is written is `writer_rules`'s. `specs/Formed` has what of a tree that was read its normal form
//! stands on, and `specs/Chains` what is written behind operands that stand one left of the other. Which operands are
//! put in parentheses is said in `laws_ranges`.
//!
//! In `proofs/`, in this order: `Dots` (numbers behind dots, and forms), `OfKinds` and `Bare` (kinds one by one),
//! `Lifetimes` and `Impls` (arguments that are lifetimes, and impls that keep their generics, are seen in what was
//! read), `Row` (parameters and arguments), `Stand` (elements, expressions and statements), `Fits` (where expressions
//! stand in an entry), `Apart` (raw items among statements), `Read` (what was read is formed), `LaidTrees` (what is
//! laid of it); `Flat` (tokens that are put as they were read), `Inside` (what a tree ends with is smaller), `Opening`
//! and `Begins` (parentheses that are added, and that stood there), and `Laying`, `Expressing` and `Chains` (what is
//! laid of each form, of expressions, and of operands that stand one left of the other).
//!
//! - `laws`: what is written of each form and of each kind, in terms of its parts.
//! - `as_read`: the tokens of a tree, as they were read.
//! - `place`: a place in a tree.
//! - `begun`: whether what was read begins with a parenthesis.
//! - `opened`: whether an expression or a statement begins with one that is added.
//! - `laid`: the tokens of the normal form of what was read.
//! - `expressed`: those of expressions and statements.
//! - `chain`: those of operands that stand one left of the other, with no call for each of them.
//! - `turn`: those of turns, of which raw ones are set apart.
//! - `write`: its normal form.
#![tactic(auto)]

pub mod as_read;
mod begun;
mod chain;
mod expressed;
mod laid;
pub mod laws;
mod opened;
mod place;
mod turn;
pub mod write;
