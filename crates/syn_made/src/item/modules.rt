//! Modules and extern blocks.

ghost use Rattle.std.specs.Prelude.{◌≡◌};
ghost use Rattle.syn_item.specs.ItemModules.{foreign_items, item_foreign_mod, item_mod, items};
ghost use Rattle.syn_item.specs.ItemParts.{braced_tree};
ghost use Rattle.syn_made.specs.MadeWhole.{IsModuleEnd};

use crate::forms::{Called, First, Grouped, Second};
use crate::item::part::MaybeCalled;
use crate::put::{node, some_node};
use crate::to_tree::ToTree;
use crate::try_to_tree::TryToTree;
use reader_table::kind::Kind;
use reader_table::part::Part;
use reader_tree::arena::Arena;
use reader_tree::tree::Tree;
use std::alloc::AllocError;
use syn_item::modules::{ForeignItems, ItemForeignMod, ItemMod, Items};
use syn_item::part::Braced;

impl<'t, 'a> ToTree<'a> for Braced<'t, 'a> {
    ghost tree = { braced_tree };

    fn to_tree(&self, arena: &'a Arena) -> Result<Tree<'a>, AllocError> {
        Grouped(self.brace_token, (self.attrs, self.items)).to_tree(arena)
    }
}

impl<'t, 'a> ToTree<'a> for ItemForeignMod<'t, 'a> {
    ghost tree = { item_foreign_mod };

    fn to_tree(&self, arena: &'a Arena) -> Result<Tree<'a>, AllocError> {
        let unsafety = MaybeCalled(Part::Safety, self.unsafety);
        let body = Grouped(self.brace_token, (self.attrs, self.items));
        node(arena, Kind::AForeignModule, &(unsafety, self.abi, body))
    }
}

impl<'t, 'a> TryToTree<'a> for ItemMod<'t, 'a> {
    ghost says = { λ x tree. IsModuleEnd x.content x.semi × (tree ≡ item_mod x) };

    fn try_to_tree(&self, arena: &'a Arena) -> Result<Option<Tree<'a>>, AllocError> {
        let unsafety = MaybeCalled(Part::Safety, self.unsafety);
        let ident = Called(Part::Name, self.ident);
        match (self.content, self.semi) {
            (Some(content), None) => {
                let inside = (unsafety, self.mod_token, ident, Second(content));
                some_node(arena, Kind::AModule, &inside)
            }
            (None, Some(semi)) => {
                let inside = (unsafety, self.mod_token, ident, First(semi));
                some_node(arena, Kind::AModule, &inside)
            }
            _ => Ok(None),
        }
    }
}

impl<'t, 'a> ToTree<'a> for Items<'t, 'a> {
    ghost tree = { items };

    fn to_tree(&self, arena: &'a Arena) -> Result<Tree<'a>, AllocError> {
        node(arena, Kind::Items, &self.items)
    }
}

impl<'t, 'a> ToTree<'a> for ForeignItems<'t, 'a> {
    ghost tree = { foreign_items };

    fn to_tree(&self, arena: &'a Arena) -> Result<Tree<'a>, AllocError> {
        node(arena, Kind::ForeignItems, &self.items)
    }
}
