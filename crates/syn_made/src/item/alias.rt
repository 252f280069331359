//! Type aliases.

ghost use Rattle.std.specs.Prelude.{◌≡◌, ◌↔◌, IsTrue};
ghost use Rattle.syn_item.specs.ItemAliases.{IsOrderIn, item_type, type_end_tree};

use crate::forms::Called;
use crate::put::{behind, nth, some_node};
use crate::to_tree::ToTree;
use crate::try_to_tree::TryToTree;
use reader_table::kind::{Kind, Place};
use reader_table::part::Part;
use reader_tree::arena::Arena;
use reader_tree::tree::Tree;
use std::alloc::AllocError;
use syn_item::alias::{ItemType, WhereOrder};
use syn_part::sub::MarkedType;

// Whether a definition and a where clause stand in that order in the place: in a trait or an impl one alone.
fn is_order_in(place: Place, order: WhereOrder) -> bool
    ensures { IsTrue result ↔ IsOrderIn place order }
{
    match (place, order) {
        (Place::InFile, _) => true,
        (Place::InForeign, _) => true,
        (_, WhereOrder::Behind) => true,
        (_, WhereOrder::Before) => false,
    }
}

// A definition and a where clause, as the place has them.
#[derive(Clone, Copy)]
struct TypeEnd<'t, 'a>(Place, WhereOrder, Option<MarkedType<'t, 'a>>, &'t Tree<'a>);

impl<'t, 'a> ToTree<'a> for TypeEnd<'t, 'a> {
    ghost tree = { λ x. type_end_tree x.0 x.1 x.2 x.3 };

    fn to_tree(&self, arena: &'a Arena) -> Result<Tree<'a>, AllocError> {
        let where_part = Called(Part::Where, self.3);
        match (self.0, self.1) {
            (Place::InTrait, _) => (self.2, where_part).to_tree(arena),
            (Place::InImpl, _) => (self.2, where_part).to_tree(arena),
            (_, WhereOrder::Before) => nth(arena, 0, &(where_part, self.2)),
            (_, WhereOrder::Behind) => behind(arena, 1, &(self.2, where_part)),
        }
    }
}

// In a trait or an impl the where clause stands behind the definition alone.
impl<'t, 'a> TryToTree<'a> for ItemType<'t, 'a> {
    ghost says = { λ x tree. IsOrderIn x.place x.where_order × (tree ≡ item_type x) };

    fn try_to_tree(&self, arena: &'a Arena) -> Result<Option<Tree<'a>>, AllocError> {
        if !is_order_in(self.place, self.where_order) {
            return Ok(None);
        }
        let end = TypeEnd(self.place, self.where_order, self.ty, self.where_clause);
        let generics = Called(Part::Generics, self.generics);
        let bounds = Called(Part::Bounds, self.bounds);
        let behind = (bounds, Called(Part::Value, end), self.semi_token);
        let inside = (
            self.type_token,
            Called(Part::Name, self.ident),
            generics,
            behind,
        );
        some_node(arena, Kind::ATypeAlias(self.place), &inside)
    }
}
