//! Trees that are made of the syntax tree's types: what `of` of each type takes apart, put together. A value of a
//! type, be it one that was read, one with some fields of another, or one that is new, is a tree again, which is
//! written as each tree is that was put together by hand.
//!
//! - `to_tree`: the trait that all of them have.
//! - `forms`: what trees are made of, by which most of them say in one line what tree they are.
//! - `leaf`: words, literals, marks, lifetimes, tokens that are kept, and trees that are lent; `lists`: lists and
//!   turns.
//! - `parts`: nothing, and several trees one behind the other; `put`: the forms by functions, which lend what they are
//!   of.
//! - `sub`, `name`: what stands in several types.
//! - `ast`: the types of `syn_ast` and `syn_pat`; `expr`: expressions, statements and blocks; `item`: data and items.
//! - `try_to_tree`: the trait of types of which some values are no tree of the grammar.
#![tactic(auto)]

pub mod ast;
pub mod expr;
pub mod forms;
pub mod item;
pub mod leaf;
pub mod lists;
pub mod name;
pub mod parts;
pub mod put;
pub mod sub;
pub mod to_tree;
pub mod try_to_tree;
