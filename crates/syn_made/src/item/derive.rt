//! What is derived for: structs, enums and unions, with their attributes and their visibility.

ghost use Rattle.std.specs.Prelude.{◌≡◌, IfOk, MatchOption};
ghost use Rattle.syn_data.specs.Derive.{IsEnded, IsWhole, chosen_data, data_form, derive_input, item_tree};

use crate::forms::{First, Seconds};
use crate::put::{nth, some_node};
use crate::to_tree::ToTree;
use crate::try_to_tree::TryToTree;
use reader_table::kind::Kind;
use reader_tree::arena::Arena;
use reader_tree::tree::Tree;
use std::alloc::AllocError;
use syn_data::derive::{Data, DataItem, DeriveInput};
use syn_data::item::{ItemEnum, ItemStruct, ItemUnion};

impl<'t, 'a> TryToTree<'a> for DataItem<'t, 'a> {
    ghost says = { λ x tree. IsWhole x × (tree ≡ item_tree x) };

    fn try_to_tree(&self, arena: &'a Arena) -> Result<Option<Tree<'a>>, AllocError> {
        match self {
            DataItem::Struct(item) => item.try_to_tree(arena),
            DataItem::Enum(item) => item.to_some_tree(arena),
            DataItem::Union(item) => item.to_some_tree(arena),
        }
    }
}

/// What is derived for, behind its attributes and its visibility: the form of an item; `None`, exactly where the
/// semicolon of a struct is not as its fields need it.
///
/// # Errors
///
/// Where there is no memory for it.
pub fn form<'a>(
    arena: &'a Arena,
    input: &DeriveInput<'_, 'a>,
) -> Result<Option<Tree<'a>>, AllocError>
    ensures { IfOk result (λ o. MatchOption o (IsEnded input.now.«data» → ⊥)
        (λ x. IsEnded input.now.«data» × (x ≡ data_form input.now))) }
{
    match &input.data {
        Data::Struct(found) => {
            let item = ItemStruct {
                struct_token: found.struct_token,
                ident: input.ident,
                generics: input.generics,
                where_clause: input.where_clause,
                fields: found.fields,
                semi_token: found.semi_token,
            };
            item.try_to_tree(arena)
        }
        Data::Enum(found) => {
            let item = ItemEnum {
                enum_token: found.enum_token,
                ident: input.ident,
                generics: input.generics,
                where_clause: input.where_clause,
                brace_token: found.brace_token,
                variants: found.variants,
            };
            item.to_some_tree(arena)
        }
        Data::Union(found) => {
            let item = ItemUnion {
                union_token: found.union_token,
                ident: input.ident,
                generics: input.generics,
                where_clause: input.where_clause,
                fields: found.fields,
            };
            item.to_some_tree(arena)
        }
    }
}

// Which of the three was chosen, of a form.
#[derive(Clone, Copy)]
struct Chosen<'t, 'a>(Data<'t, 'a>, &'t Tree<'a>);

impl<'t, 'a> ToTree<'a> for Chosen<'t, 'a> {
    ghost tree = { λ x. chosen_data x.0 x.1.now };

    fn to_tree(&self, arena: &'a Arena) -> Result<Tree<'a>, AllocError> {
        match self.0 {
            Data::Struct(_) => nth(arena, 0, &self.1),
            Data::Enum(_) => Seconds(1, First(self.1)).to_tree(arena),
            Data::Union(_) => Seconds(2, self.1).to_tree(arena),
        }
    }
}

impl<'t, 'a> TryToTree<'a> for DeriveInput<'t, 'a> {
    ghost says = { λ x tree. IsEnded x.«data» × (tree ≡ derive_input x) };

    fn try_to_tree(&self, arena: &'a Arena) -> Result<Option<Tree<'a>>, AllocError> {
        let Some(form) = form(arena, self)? else {
            return Ok(None);
        };
        let inside = (self.attrs, self.vis, Chosen(self.data, &form));
        some_node(arena, Kind::DeriveInput, &inside)
    }
}
