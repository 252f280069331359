//! Laws of items and of raw tokens, over the written grammar of `syn_grammar`: definitions and no code.
//!
//! In `specs/`: `Raws` (the raw tokens that a tree holds), `Visible` (tokens without an invisible group), `Readers`
//! (the readers of one kind of item), `Begins` (what tokens begin with, and kinds among their like), `Apart` (a tree
//! whose last mark stands alone). In `proofs/`: `Every` (what holds of all groups, all leaves and all raw tokens, kept
//! and in normal form), `Fronts` and `Statements` (what stands first of an item and of a statement), `Spacing`, `Ends`,
//! `Tame` and `Quiet` (well spaced normal forms), `Passed` (looks that pass a group), `Alike`, `Bars`,
//! `Steady`, `Ended`, `Forms` and `Stays` (tests that see nothing behind a semicolon or a brace: looks, entries, the
//! forms of expressions, and items), `Apart` and `SetApart` (verdicts, and items, whose last mark is set apart),
//! `Places` and `Impls` (where an item's form stands among others), and a file for each law.
//!
//! - `laws`: these laws.
#![tactic(auto)]

pub mod laws;
