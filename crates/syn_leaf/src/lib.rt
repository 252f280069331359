//! Leaves of syntax: operators, members of structs and literals.
//!
//! - `operators`: operators of expressions, and what stands between the ends of a range.
//! - `member`: members of structs, by name or by number.
//! - `lit`: literals of every class.
//! - `boolean`: `true` and `false`.
//! - `literal`: literals of one class.
//! - `classes`: the classes of literals.
//! - `float` (private): the suffixes of floats.
//! - `integer`: the numbers that integer literals write.
//! - `kind` (private): which literal a text is.
//! - `laws`: laws of equality, and that what was read is printed as it stood.
//! - `places` (private): texts from a place on.
//! - `quoted` (private): literals in quotes, taken apart.
//! - `read` (private): reading literals and members, and looking for literals.
//! - `read_operators` (private): reading operators.
//! - `spelled` (private): what the units of an inside spell.
//! - `value` (private): the values of literals in quotes.
#![tactic(auto)]

pub mod boolean;
pub mod classes;
mod float;
mod integer;
mod kind;
pub mod laws;
pub mod lit;
pub mod literal;
pub mod member;
pub mod operators;
mod places;
mod quoted;
mod read;
mod read_operators;
mod spelled;
mod value;

pub use boolean::LitBool;
pub use lit::{Lit, LitByte, LitByteStr, LitCStr, LitChar, LitFloat, LitInt, LitStr};
pub use member::{Index, Member};
pub use operators::{BinOp, RangeLimits, UnOp};
