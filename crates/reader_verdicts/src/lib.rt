//! How what was read is judged, and how expressions bind.
//!
//! - `level`: how tightly forms bind, and where their operands stand.
//! - `left`: what may stand left of a form.
//! - `asked`: what is asked of elements and parts; `lists`: of the elements of a list.
//! - `statements`: what statements and arms need behind them; `closing`: whether what was read ends in braces.
//! - `roots`: which uses have a root in their braces.
//! - `kept`: which lists, traits, impls and lets are kept; `items`: which items are raw or refused.
//! - `verdict`: what becomes of what was read; `judge`: by how it is to be judged.
#![tactic(auto)]

pub mod asked;
pub mod closing;
pub mod items;
pub mod judge;
pub mod kept;
pub mod left;
pub mod level;
pub mod lists;
pub mod roots;
pub mod statements;
pub mod verdict;
