//! Expressions in normal form are read back, over the written grammar of `syn_grammar`: definitions and no code.
//!
//! `specs/Behind` has what may stand behind an own part and behind a whole expression, `specs/Formed` what a formed
//! expression is: its own parts are read wherever their forms may stand. In `proofs/`, in this order: `Turned` and
//! `Opened` (how an own part behind an operand, and an operand, begin, whatever follows), `Near` (an operand in its
//! position and in plain position meets the conditions of levels, and goes on with nothing), `Begins` (with what an
//! expression in normal form begins), `Ends` (what stands behind a left operand), `Stands` (the own parts are read
//! where they stand) and `ReadBack` (the laws of expressions).
//!
//! `specs/Firm` has the kinds of own parts that nothing behind them changes: by `Signs` (punctuations) and `Owns` they
//! are read wherever their forms may stand, if they are read by themselves. `specs/Simple` has the expressions of such
//! forms, of references, of `break`, of names and of fields: by `Names`, `Prefixes`, `Dots`, `Jumps` and `Simples` they
//! are formed. `Examples` has one.
//!
//! - `laws`: the laws.
#![tactic(auto)]

pub mod laws;
