//! Writing expressions whose forms were put together by hand, with just the parentheses that they need. The own parts
//! of the forms, besides their operands, are as parts that were read.
//!
//! An expression is written in one pass: what is handed down is the position and the first tokens of what follows, and
//! of an operand that is written its first tokens and ten facts are kept. That this writes the normal form is the law
//! of `laws_binding` of one who writes in one pass. `specs/Begins` has what tokens begin with, `specs/Heads` the first
//! tokens, `specs/Facts`, `specs/Ropes` and `specs/Kept` what is kept of an operand, `specs/Behind` and
//! `specs/Found` what numbers behind dots are, and `specs/Asked` what is written.
//!
//! In `proofs/`: `Begins` (what looks see is seen at the first three tokens), `Heads` (the first tokens of what is
//! joined), `Lasts` (what ends in a name), `Owns` (own parts in normal form), `Fielded` and `Parts` (numbers behind
//! dots), `Builds` (each form), `Pushing` (tokens that are put).
//!
//! - `seen`: what is seen of a token.
//! - `head`: the first tokens of something.
//! - `sight`: what is seen there.
//! - `facts`: what is kept of an operand.
//! - `rope`: tokens that are to be written, joined without a copy.
//! - `operand`: operands that are written.
//! - `dots`: own parts behind a left operand, numbers behind dots among them.
//! - `stays`: whether an operand stays as it is.
//! - `build`: writing an expression.
#![tactic(auto)]

pub mod build;
mod dots;
mod facts;
pub mod head;
mod operand;
mod rope;
pub mod seen;
pub mod sight;
pub mod stays;
