//! Constants.

ghost use Rattle.syn_item.specs.ItemAliases.{item_const};

use crate::forms::Called;
use crate::put::node;
use crate::to_tree::ToTree;
use reader_table::kind::Kind;
use reader_table::part::Part;
use reader_tree::arena::Arena;
use reader_tree::tree::Tree;
use std::alloc::AllocError;
use syn_item::constant::ItemConst;

impl<'t, 'a> ToTree<'a> for ItemConst<'t, 'a> {
    ghost tree = { item_const };

    fn to_tree(&self, arena: &'a Arena) -> Result<Tree<'a>, AllocError> {
        let generics = Called(Part::Generics, self.generics);
        let where_clause = Called(Part::Where, self.where_clause);
        let value = (
            Called(Part::Type, self.ty),
            self.expr,
            where_clause,
            self.semi_token,
        );
        let named = (
            Called(Part::Name, self.ident),
            generics,
            self.colon_token,
            value,
        );
        node(arena, Kind::AConst, &(self.const_token, named))
    }
}
