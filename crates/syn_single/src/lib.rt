//! The types of the syntax tree that are one of several forms of a kind: of each the kind that it is read as, which
//! trees of that kind are meant, and what is said where another form stands. What reads the tokens is `syn_read`. Its
//! parts stand in `syn`, under the same names.
//!
//! - `single`: what is asked of such a type; `single_types`: forms of types, and of what stands in an attribute.
//! - `single_expr`: what is asked of a form of expressions; `single_blocks`, `single_exprs`: these forms.
#![tactic(auto)]

pub mod single;
mod single_blocks;
pub mod single_expr;
mod single_exprs;
mod single_types;

pub use single::ParseSingle;
pub use single_expr::SingleExpr;
