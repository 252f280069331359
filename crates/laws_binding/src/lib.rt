//! Laws of how expressions bind, over the written grammar of `syn_grammar`: definitions and no code.
//!
//! `specs/Bare` has what the first law speaks of, `specs/Written` one who writes in one pass, `specs/Meets` and
//! `Spelled` the two parts of what binds an expression. In `proofs/`, in this order: `Leads` (how own parts begin,
//! entry by entry), `Begun` (an expression begins in normal form as it did), `Turns` (what stands behind an operand),
//! `Sights` (what the tables of forms say of tokens), `Shells` and `Same` (what is kept has the same forms), `Casts` (a
//! type before `<`), `Fields` (a field before a call), `Ended` (left operands end), `Stays` and `Gains` (the first
//! law); `OnePass`, `Levels` and `Parted` (one law each).
//!
//! - `laws`: these laws.
#![tactic(auto)]

pub mod laws;
