//! Characters by their places in a text.
//!
//! A place is in bytes from 0: a character begins there, or the text ends. Each call asks for one, and answers one.
//!
//! - `place` (private): the character at a place, and the next one or none.
//! - `walk` (private): on behind the characters that pass a test.
//!
//! The definitions lie in `specs/`: `Places` has places and what stands from one on, `Chars` tests on characters.
#![tactic(auto)]

mod place;
mod walk;

pub use place::{char_at, next_char};
pub use walk::{
    Test, all_pass, begins, past, past_blocks, past_bytes, past_long, past_many, past_narrow,
};
