//! Expressions, statements and blocks as trees; modules mirror those of `syn_expr`. Of a value that no form of the
//! grammar is, as a field with a `:` and no value, `try_to_tree` answers `None`.
//!
//! - `whole`: a form as an expression, for where one stands.
//! - `forms`: forms of expressions, of their kind, their own part and their operands.

pub mod atoms;
pub mod blocks;
pub mod forms;
pub mod infix;
pub mod jumps;
pub mod ops;
pub mod parts;
pub mod postfix;
pub mod prefix;
pub mod stmt;
pub mod whole;
