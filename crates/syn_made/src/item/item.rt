//! Structs, enums and unions; statics, uses and crates.

ghost use Rattle.std.specs.Prelude.{◌≡◌, IfOk, MatchOption};
ghost use Rattle.syn_data.specs.Items.{IsClosed, item_enum, item_extern_crate, item_static, item_struct, item_union};
ghost use Rattle.syn_data.specs.Items.{item_use, mutability_tree, struct_end};

use crate::forms::{Called, First, Grouped, Second};
use crate::put::{behind, node, nth, some_node};
use crate::to_tree::ToTree;
use crate::try_to_tree::TryToTree;
use reader_table::kind::Kind;
use reader_table::part::Part;
use reader_tree::arena::Arena;
use reader_tree::tree::Tree;
use std::alloc::AllocError;
use syn_data::data::Fields;
use syn_data::item::{
    ItemEnum, ItemExternCrate, ItemStatic, ItemStruct, ItemUnion, ItemUse, StaticMutability,
};
use syn_part::leaf::Mark;

// What stands behind the generic parameters of a struct, if the semicolon is as its fields need it.
fn struct_end<'a>(
    arena: &'a Arena,
    fields: Fields<'_, 'a>,
    where_clause: &Tree<'a>,
    semi_token: Option<Mark>,
) -> Result<Option<Tree<'a>>, AllocError>
    ensures { IfOk result (λ o. MatchOption o (IsClosed fields.entry semi_token → ⊥)
        (λ x. IsClosed fields.entry semi_token × (x ≡ struct_end fields.entry where_clause.entry semi_token))) }
{
    let where_part = Called(Part::Where, where_clause);
    match (fields, semi_token) {
        (Fields::Named(fields), None) => { Second((where_part, First(fields))).to_some_tree(arena) }
        (Fields::Unnamed(fields), Some(semi)) => {
            First((fields, where_part, semi)).to_some_tree(arena)
        }
        (Fields::Unit, Some(semi)) => { Second((where_part, Second(semi))).to_some_tree(arena) }
        _ => Ok(None),
    }
}

impl<'t, 'a> TryToTree<'a> for ItemStruct<'t, 'a> {
    ghost says = { λ x tree. IsClosed x.fields x.semi_token × (tree ≡ item_struct x) };

    fn try_to_tree(&self, arena: &'a Arena) -> Result<Option<Tree<'a>>, AllocError> {
        let Some(end) = struct_end(arena, self.fields, self.where_clause, self.semi_token)? else {
            return Ok(None);
        };
        let ident = Called(Part::Name, self.ident);
        let generics = Called(Part::Generics, self.generics);
        let inside = (self.struct_token, ident, generics, &end);
        some_node(arena, Kind::AStruct, &inside)
    }
}

impl<'t, 'a> ToTree<'a> for ItemEnum<'t, 'a> {
    ghost tree = { item_enum };

    fn to_tree(&self, arena: &'a Arena) -> Result<Tree<'a>, AllocError> {
        let ident = Called(Part::Name, self.ident);
        let generics = Called(Part::Generics, self.generics);
        let where_clause = Called(Part::Where, self.where_clause);
        let body = Grouped(self.brace_token, self.variants);
        let inside = (self.enum_token, ident, (generics, where_clause, body));
        node(arena, Kind::AnEnum, &inside)
    }
}

impl<'t, 'a> ToTree<'a> for ItemUnion<'t, 'a> {
    ghost tree = { item_union };

    fn to_tree(&self, arena: &'a Arena) -> Result<Tree<'a>, AllocError> {
        let ident = Called(Part::Name, self.ident);
        let generics = Called(Part::Generics, self.generics);
        let where_clause = Called(Part::Where, self.where_clause);
        let inside = (
            self.union_token,
            ident,
            (generics, where_clause, self.fields),
        );
        node(arena, Kind::AUnion, &inside)
    }
}

impl<'a> ToTree<'a> for StaticMutability<'a> {
    ghost tree = { mutability_tree };

    fn to_tree(&self, arena: &'a Arena) -> Result<Tree<'a>, AllocError> {
        match *self {
            StaticMutability::Mut(word) => nth(arena, 0, &word),
            StaticMutability::None => behind(arena, 1, &()),
        }
    }
}

impl<'t, 'a> ToTree<'a> for ItemStatic<'t, 'a> {
    ghost tree = { item_static };

    fn to_tree(&self, arena: &'a Arena) -> Result<Tree<'a>, AllocError> {
        let ident = Called(Part::Name, self.ident);
        let behind = (ident, self.ty, self.expr, self.semi_token);
        let inside = (self.static_token, self.mutability, behind);
        node(arena, Kind::AStatic, &inside)
    }
}

impl<'t, 'a> ToTree<'a> for ItemUse<'t, 'a> {
    ghost tree = { item_use };

    fn to_tree(&self, arena: &'a Arena) -> Result<Tree<'a>, AllocError> {
        let inside = (
            self.use_token,
            Called(Part::Path, self.tree),
            self.semi_token,
        );
        node(arena, Kind::AUse, &inside)
    }
}

impl<'a> ToTree<'a> for ItemExternCrate<'a> {
    ghost tree = { item_extern_crate };

    fn to_tree(&self, arena: &'a Arena) -> Result<Tree<'a>, AllocError> {
        let named = (Called(Part::Name, self.ident), self.rename, self.semi_token);
        let inside = (self.extern_token, self.crate_token, named);
        node(arena, Kind::AnExternCrate, &inside)
    }
}
