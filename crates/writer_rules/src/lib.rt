//! How each part of a tree is written, decided at the part itself: no function here walks through a tree to write it,
//! as `writer_read` does.
//!
//! `specs/Said` has the tokens of the normal form of what is kept, `specs/Firsts` those of a list whose lifetimes come
//! first, and `specs/Turns` where among statements a raw item's last mark is set apart. `specs/Laid` has the tokens of
//! the normal form of what was read, in terms of what was read; `specs/Seen` and `specs/Operands` what is seen in a
//! tree for that, `specs/Way` the ways in which its nodes and parts are written, and `specs/Front` what stays in front
//! of what is put. Which operands are put in parentheses is said in `laws_ranges`.
//!
//! In `proofs/`: `Pushing` and `Putting` (tokens that are put, and those of a tree by its form), `Fronts` (what stays
//! in front of them), `Indices` (numbers in texts), `SeenForms`, `WayForms`, `Operands` and `OffKinds` (what is seen,
//! and the ways, by the forms of trees, and what is not seen of other kinds), `Shells` (parentheses that are added)
//! and `Apartness` (turns that are raw, and marks that are set apart).
//!
//! - `seen`: what decides how a part is written.
//! - `operand`: forms with an operand before them, and statements that are expressions.
//! - `within`: where a tree stands in what is written.
//! - `way`: the way in which a node, a part and what stands behind a left operand are written.
//! - `shell`: which operands are put in parentheses.
//! - `put`: tokens that are put behind those that are to be written.
//! - `fields`: numbers of fields, and those behind a dot.
//! - `raw`: raw items among statements, and what sets the last mark of one apart.
#![tactic(auto)]

pub mod fields;
pub mod operand;
pub mod put;
pub mod raw;
pub mod seen;
pub mod shell;
pub mod way;
pub mod within;
