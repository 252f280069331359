//! The types of the syntax tree that are read from tokens: of each the kind that it is read as, and one layer of a
//! tree of that kind. What reads the tokens is `syn_read`. Its parts stand in `syn`, under the same names.
//!
//! - `typed`: what is asked of such a type; `forms`, `type_forms`, `item_forms`, `member_forms`, `parts`: the types
//!   that are.
//! - `one_item`: items of one kind that are read by themselves, as `OneItem<ItemFn>`.
#![tactic(auto)]

mod forms;
mod item_forms;
mod member_forms;
pub mod one_item;
mod parts;
mod type_forms;
pub mod typed;

pub use item_forms::{AnyItem, OneForeignItem, OneImplItem, OneTraitItem};
pub use member_forms::{
    OneForeignItemFn, OneForeignItemMacro, OneForeignItemType, OneImplItemConst, OneImplItemFn,
    OneImplItemMacro, OneImplItemType, OneTraitItemConst, OneTraitItemFn, OneTraitItemMacro,
    OneTraitItemType,
};
pub use one_item::OneItem;
pub use typed::Parse;
