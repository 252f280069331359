//! The plainest forms, read by code of their own, as the table of the written grammar reads them.
//!
//! Most of what stands in a program is plain: a path is a name or two, a type is such a path, no attributes stand in
//! front. Followed through the table, such a form takes a dozen steps, each with a call. Here it is read at once, where
//! it is of that shape; where it isn't, that is seen by a token or two, and nothing is answered.
//!
//! - `read`: the plain forms of all kinds.
//! - `names`: paths of names alone, and types that are such paths.
//! - `absent`: parts that may be absent, where none stands; and `pub` alone.
//! - `attributes`: outer attributes that are a path alone, or with a group or a literal behind it.
//! - `bindings`: names that patterns bind.
//! - `lone`: expressions that are a literal or a path of names alone.
//! - `parts`: what several of them are made of, and how one is handed on that was found.
#![tactic(auto)]

mod absent;
mod attributes;
mod bindings;
mod lone;
mod names;
mod parts;
pub mod read;
