//! Expressions that were built by hand are read back, of every form: definitions and no code.
//!
//! `specs/Spelled` has what is asked of one: its tokens, with each operand in parentheses, are read as it with these
//! parentheses. In `proofs/`: an expression is printed where there is a tree that fits (`laws_reread_kinds`), of which
//! it is held (`Laid`); then so are its operands, with its form's own part (`Parts`), and what it has in parentheses.
//! What a normal form has in parentheses is settled in these (`Placed`), and with each operand in parentheses an
//! expression is in normal form (`Stays`, `Parenthesized`). Both have the expression's forms, each with parentheses
//! round it or without (`Dressed`), and so the one is printed where the other is (`Redressed`). What was read is
//! printed, and what is printed is read (`Read`, from `laws_reread`). `ReadBack` has the laws, and `Examples` an
//! expression.
//!
//! - `laws`: the laws.
#![tactic(auto)]

pub mod laws;
