//! What is derived for as an item among others.

ghost use Rattle.std.specs.Prelude.{◌≡◌, IfOk, IfSome, MatchOption};
ghost use Rattle.syn_data.specs.Derive.{IsEnded, IsItemOf, data_form};
ghost use Rattle.syn_wrapped.specs.Among.{data_item_form, kept_item};

use crate::among::kept;
use reader_tree::arena::Arena;
use reader_tree::tree::Tree;
use std::alloc::AllocError;
use syn_data::derive::{Data, DeriveInput};
use syn_item::item::{Item, ItemForm};
use syn_made::item::derive::form;

// The form of an item that data is.
fn item_form(which: &Data<'_, '_>) -> ItemForm
    ensures { result ≡ data_item_form which.now }
{
    match which {
        Data::Struct(_) => ItemForm::Struct,
        Data::Enum(_) => ItemForm::Enum,
        Data::Union(_) => ItemForm::Union,
    }
}

/// What is derived for as an item among others, as a node of the kind `AnItem`; `None`, exactly where the semicolon of
/// a struct is not as its fields need it.
///
/// # Errors
///
/// Where there is no memory for it.
pub fn item<'a>(
    arena: &'a Arena,
    input: &DeriveInput<'_, 'a>,
) -> Result<Option<Tree<'a>>, AllocError>
    ensures says { IfOk result (λ o. MatchOption o (IsEnded input.now.«data» → ⊥)
        (λ x. IsEnded input.now.«data» × IsItemOf input.now x)) }
    ensures same { IfOk result (λ o. IfSome o (λ x. x ≡ kept_item input.now.attrs.now input.now.vis.now
        (data_item_form input.now.«data») (data_form input.now))) }
{
    let Some(form) = form(arena, input)? else {
        return Ok(None);
    };
    let item = Item {
        form: item_form(&input.data),
        tree: &form,
    };
    Ok(Some(kept(arena, input.attrs, input.vis, &item)?))
}
