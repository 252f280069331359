//! What a tree is made of, where it has the shape of an entry. None answers that a tree has another shape, since that
//! is asked of the caller; what was read has the shape of its entry.
//!
//! - `part`: the parts of sequences, nodes, groups, named parts and expressions.
//! - `choice`: what may be missing, and which alternative was chosen.
//! - `form`: the forms of expressions.
//! - `leaf`: punctuations, words, literals, lifetimes and raw tokens.
//! - `list`: elements with separators, and turns.
#![tactic(auto)]

pub mod choice;
pub mod form;
pub mod leaf;
pub mod list;
pub mod part;

pub use choice::{alternative, optional};
pub use form::{Alone, Before, Behind, Between, Formed, which_form};
pub use leaf::{
    ident, keyword, lifetime, literal, optional_keyword, optional_lifetime, optional_sign, sign,
    underscore,
};
pub use list::{Listed, Make, Turns, all_turns, each, elements, lone, separated};
pub use part::{called, eight, five, four, group, kept, node, pair, seven, six, three, whole};
