//! Names, of which a keyword may stand in the place.

ghost use Rattle.syn_part.specs.Name.{name_tree, renamed_tree};

use crate::put::{behind, nth};
use crate::to_tree::ToTree;
use reader_tree::arena::Arena;
use reader_tree::tree::Tree;
use std::alloc::AllocError;
use syn_part::name::{Name, Renamed};

impl<'a> ToTree<'a> for Name<'a> {
    ghost tree = { name_tree };

    fn to_tree(&self, arena: &'a Arena) -> Result<Tree<'a>, AllocError> {
        match *self {
            Name::Keyword(word) => nth(arena, 0, &word),
            Name::Ident(word) => behind(arena, 1, &word),
        }
    }
}

impl<'a> ToTree<'a> for Renamed<'a> {
    ghost tree = { renamed_tree };

    fn to_tree(&self, arena: &'a Arena) -> Result<Tree<'a>, AllocError> {
        (self.as_token, self.rename).to_tree(arena)
    }
}
