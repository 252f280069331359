//! Attributes as trees.

ghost use Rattle.syn_ast.specs.Attributes.{attribute, inner_attributes, meta, meta_path_tree, outer_attributes};

use crate::forms::{Called, First, Grouped, Second};
use crate::put::{behind, node, nth};
use crate::to_tree::ToTree;
use reader_table::kind::Kind;
use reader_table::part::Part;
use reader_tree::arena::Arena;
use reader_tree::tree::Tree;
use std::alloc::AllocError;
use syn_ast::attributes::{AttrStyle, Attribute, InnerAttributes, Meta, MetaPath, OuterAttributes};

impl<'t, 'a> ToTree<'a> for OuterAttributes<'t, 'a> {
    ghost tree = { outer_attributes };

    fn to_tree(&self, arena: &'a Arena) -> Result<Tree<'a>, AllocError> {
        node(arena, Kind::OuterAttributes, &self.attrs)
    }
}

impl<'t, 'a> ToTree<'a> for InnerAttributes<'t, 'a> {
    ghost tree = { inner_attributes };

    fn to_tree(&self, arena: &'a Arena) -> Result<Tree<'a>, AllocError> {
        node(arena, Kind::InnerAttributes, &self.attrs)
    }
}

impl<'t, 'a> ToTree<'a> for Attribute<'t, 'a> {
    ghost tree = { attribute };

    fn to_tree(&self, arena: &'a Arena) -> Result<Tree<'a>, AllocError> {
        let bracketed = Grouped(self.bracket_token, self.meta);
        match self.style {
            AttrStyle::Outer => {
                node(arena, Kind::OuterAttribute, &(self.pound_token, bracketed))
            }
            AttrStyle::Inner(not_token) => {
                let inside = (self.pound_token, not_token, bracketed);
                node(arena, Kind::InnerAttribute, &inside)
            }
        }
    }
}

impl<'t, 'a> ToTree<'a> for MetaPath<'t, 'a> {
    ghost tree = { meta_path_tree };

    fn to_tree(&self, arena: &'a Arena) -> Result<Tree<'a>, AllocError> {
        match *self {
            MetaPath::Unsafe(word) => nth(arena, 0, &word),
            MetaPath::Path(path) => behind(arena, 1, &path),
        }
    }
}

impl<'t, 'a> ToTree<'a> for Meta<'t, 'a> {
    ghost tree = { meta };

    fn to_tree(&self, arena: &'a Arena) -> Result<Tree<'a>, AllocError> {
        match *self {
            Meta::Path(path) => {
                let inside = (path, Second(Second(())));
                node(arena, Kind::Meta, &inside)
            }
            Meta::List(list) => {
                let inside = (list.path, First(list.delimited));
                node(arena, Kind::Meta, &inside)
            }
            Meta::NameValue(pair) => {
                let value = (pair.eq_token, Second(Called(Part::Value, pair.value)));
                let inside = (pair.path, Second(First(value)));
                node(arena, Kind::Meta, &inside)
            }
        }
    }
}
