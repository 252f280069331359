//! Expressions.

pub mod atoms;
pub mod forms;
pub mod infix;
pub mod jumps;
pub mod laws;
pub mod ops;
pub mod parts;
pub mod placeholder;
pub mod postfix;
pub mod prefix;
pub mod whole;
