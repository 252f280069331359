//! The escapes of Rust's literals, and the values that they spell.
//!
//! The inside of a literal is a list of units, each one character or one escape; most spell a value.
//! The definitions lie in `specs/`.
//!
//! - `error`: what is wrong with a unit.
//! - `messages` (private): what is said of it.
//! - `mode`: the kinds of literals.
//! - `mixed_unit`: the values of a C string's units.
//! - `value`: what a unit stands for.
//! - `place`: characters by their places in a text.
//! - `read`: reads one unit, by the rule of the calls.
//! - `lexical`: the same by the rule of the lexer.
//! - `unit`: the units that callbacks get.
//! - `single`: the insides of characters and bytes.
//! - `unescape`: hands the units of an inside to a callback.
//! - `check`: hands what is wrong with an inside to a callback.
#![tactic(auto)]

pub mod check;
pub mod error;
pub mod lexical;
mod messages;
pub mod mixed_unit;
pub mod mode;
pub mod place;
pub mod read;
pub mod single;
pub mod unescape;
mod unit;
pub mod value;

pub use crate::check::check_for_errors;
pub use crate::error::EscapeError;
pub use crate::mixed_unit::{MixedUnit, NonZeroChar};
pub use crate::mode::Mode;
pub use crate::single::{unescape_byte, unescape_char};
pub use crate::unescape::{
    check_raw_byte_str, check_raw_c_str, check_raw_str, unescape_byte_str, unescape_c_str,
    unescape_str,
};
pub use crate::value::Value;
