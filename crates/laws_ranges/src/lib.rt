//! Laws of expressions in which ranges have attributes.
//!
//! Normal form puts a range behind attributes in parentheses: `#[a] ..b` becomes `#[a] (..b)`. What stands left of a
//! form may end in such a range, as in `|x| #[a] .. + 1`, which is read as `(|x| #[a] ..) + 1`, since no range stands
//! left of a sum; with the range in parentheses the sum would go on with it, so the whole left operand is put in
//! parentheses. No other operand of an expression that was read is.
//!
//! `specs/Shelled` says which operands these are, `specs/Opens` whether an expression begins with such a parenthesis.
//! In `proofs/`, in this order: `Parens` (what parentheses change is what is taken for a range), `Dotted` and `InKept`
//! (the same is seen in what was read and in what is kept of it), `Starts` (how an expression begins), `Held` (the
//! first law), `Given` (attributes of a statement), `Behind` (what is written of each form), `OfStatements` (how
//! statements begin), `Unshelled` (no range has attributes).
//!
//! - `laws`: these laws.
#![tactic(auto)]

pub mod laws;
