//! The pieces of a text: which piece stands at a place, by Rust's lexical rules.
//!
//! The rules are the definitions in `specs/`: `Piece.antt` has the classes, with the condition of each
//! on what follows, and `Cover.antt` a text as a list of pieces. `scan::next_piece` answers the piece at
//! a place exactly, and `laws` says that there is at most one. A file may begin with a shebang, which is no piece:
//! `FileCover.antt` has a file as its front and the pieces behind it.
//!
//! - `group_marks`: what encloses a group.
//! - `piece`: the classes of pieces.
//! - `front`: what a character begins.
//! - `walk`: the tests on characters that a place is moved behind, and suffixes.
//! - `cooked`, `raw`, `comment`, `number`, `word`: where each of these ends.
//! - `scan`: the piece at a place, and whether a mark is joint.
//! - `shebang`: where the line ends that names what runs a file.
//! - `laws`: laws of the rules.
#![tactic(auto)]

pub mod comment;
pub mod cooked;
pub mod front;
pub mod group_marks;
pub mod laws;
pub mod number;
pub mod piece;
pub mod raw;
pub mod scan;
pub mod shebang;
pub mod walk;
pub mod word;
