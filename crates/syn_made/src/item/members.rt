//! The items of traits, impls and extern blocks, by their form.

ghost use Rattle.syn_item.specs.ItemMembers.{associated_item, foreign_item, foreign_static};

use crate::forms::Called;
use crate::put::nth;
use crate::to_tree::ToTree;
use reader_table::part::Part;
use reader_tree::arena::Arena;
use reader_tree::made;
use reader_tree::tree::Tree;
use std::alloc::AllocError;
use syn_item::members::{AssociatedForm, AssociatedItem, ForeignForm, ForeignItem, ForeignStatic};

// As the grammar chooses it, behind the attributes, the visibility and `default`.
impl<'t, 'a> ToTree<'a> for AssociatedItem<'t, 'a> {
    ghost tree = { associated_item };

    fn to_tree(&self, arena: &'a Arena) -> Result<Tree<'a>, AllocError> {
        match self.form {
            AssociatedForm::Fn => nth(arena, 0, &self.tree),
            AssociatedForm::Const => nth(arena, 1, &self.tree),
            AssociatedForm::Type => nth(arena, 2, &self.tree),
            AssociatedForm::Macro => nth(arena, 3, &self.tree),
            AssociatedForm::Verbatim => made::verbatim(arena, self.tree.copy()),
        }
    }
}

impl<'t, 'a> ToTree<'a> for ForeignStatic<'t, 'a> {
    ghost tree = { foreign_static };

    fn to_tree(&self, arena: &'a Arena) -> Result<Tree<'a>, AllocError> {
        (self.safety, Called(Part::Item, self.item)).to_tree(arena)
    }
}

// As the grammar chooses it, behind the attributes and the visibility.
impl<'t, 'a> ToTree<'a> for ForeignItem<'t, 'a> {
    ghost tree = { foreign_item };

    fn to_tree(&self, arena: &'a Arena) -> Result<Tree<'a>, AllocError> {
        let item = Called(Part::Item, self.tree);
        match self.form {
            ForeignForm::Fn => nth(arena, 0, &item),
            ForeignForm::Static => nth(arena, 1, &self.tree),
            ForeignForm::Type => nth(arena, 2, &item),
            ForeignForm::Macro => nth(arena, 3, &item),
            ForeignForm::Verbatim => made::verbatim(arena, self.tree.copy()),
        }
    }
}
