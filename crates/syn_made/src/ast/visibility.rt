//! Visibilities as trees.

ghost use Rattle.syn_ast.specs.Visibility.{restriction_tree, visibility};

use crate::forms::{Called, First, Grouped, Second};
use crate::put::{behind, node, nth};
use crate::to_tree::ToTree;
use reader_table::kind::Kind;
use reader_table::part::Part;
use reader_tree::arena::Arena;
use reader_tree::tree::Tree;
use std::alloc::AllocError;
use syn_ast::visibility::{RestrictedTo, Restriction, Visibility};

impl<'t, 'a> ToTree<'a> for Restriction<'t, 'a> {
    ghost tree = { restriction_tree };

    fn to_tree(&self, arena: &'a Arena) -> Result<Tree<'a>, AllocError> {
        match self.path {
            RestrictedTo::Path(path) => nth(arena, 0, &Grouped(self.paren_token, path)),
            RestrictedTo::Keyword(word) => behind(arena, 1, &Grouped(self.paren_token, word)),
        }
    }
}

impl<'t, 'a> ToTree<'a> for Visibility<'t, 'a> {
    ghost tree = { visibility };

    fn to_tree(&self, arena: &'a Arena) -> Result<Tree<'a>, AllocError> {
        match *self {
            Visibility::Public(word) => {
                let written = (Called(Part::Pub, word), Second(()));
                node(arena, Kind::Visibility, &First(written))
            }
            Visibility::Restricted(found) => {
                let written = (Called(Part::Pub, found.pub_token), First(found.restriction));
                node(arena, Kind::Visibility, &First(written))
            }
            Visibility::Inherited => node(arena, Kind::Visibility, &Second(())),
        }
    }
}
