//! Leaves as values: literals by their class, with what they write, operators, and members of structs.
//!
//! A tree lends its leaves as tokens. `Lit::new(literal.try_clone()?)` is the literal that a token is, of its class,
//! whose value is asked: `LitStr::value`, `LitInt::value` and the like. They are those of `syn_leaf`, which has their
//! contracts.

pub use syn_leaf::{
    BinOp, Index, Lit, LitBool, LitByte, LitByteStr, LitCStr, LitChar, LitFloat, LitInt, LitStr,
    Member, RangeLimits, UnOp,
};
pub use try_clone::TryClone;
