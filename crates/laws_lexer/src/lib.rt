//! Printed tokens are read back exactly if they are well spaced.
//!
//! The rules of `rust_lex` say which pieces a text has, and `proc_macro2` which tokens these pieces are
//! and how tokens are printed. Here both are held against each other, for all texts and tokens: what is
//! a leaf in some text is one by itself, the tokens of a text are well spaced leaves, and the printed
//! text of leaves has the same tokens exactly if they are well spaced. A doc stands for its attribute.
//!
//! - `laws`: these laws.
//! - `parsed`: the same of the stream that a text gives.
//! - `spaced`: the same of a stream: `is_well_spaced` is true exactly if it is read back from its print.
//! - `places`: laws on where the tokens of a text stand in it.
//! - `placed`: what a map says of the tokens of a text.
#![tactic(auto)]

pub mod laws;
pub mod parsed;
pub mod placed;
pub mod places;
pub mod spaced;
