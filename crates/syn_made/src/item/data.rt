//! Fields and variants.

ghost use Rattle.syn_data.specs.Data.{IsField, fields_named, fields_unnamed, named_field, unnamed_field, variant};
ghost use Rattle.syn_data.specs.Data.{variant_fields};

use crate::forms::{Grouped, Second};
use crate::put::{behind, node, nth};
use crate::to_tree::ToTree;
use crate::try_to_tree::TryToTree;
use reader_table::kind::Kind;
use reader_tree::arena::Arena;
use reader_tree::made;
use reader_tree::tree::Tree;
use std::alloc::AllocError;
use syn_data::data::{
    Field, Fields, FieldsNamed, FieldsUnnamed, NamedField, UnnamedField, Variant,
};

impl<'t, 'a> ToTree<'a> for NamedField<'t, 'a> {
    ghost tree = { named_field };

    fn to_tree(&self, arena: &'a Arena) -> Result<Tree<'a>, AllocError> {
        let named = (self.ident, self.colon_token, self.ty, self.default);
        node(arena, Kind::NamedField, &(self.attrs, self.vis, named))
    }
}

impl<'t, 'a> ToTree<'a> for UnnamedField<'t, 'a> {
    ghost tree = { unnamed_field };

    fn to_tree(&self, arena: &'a Arena) -> Result<Tree<'a>, AllocError> {
        let inside = (self.attrs, self.vis, self.ty, Second(()));
        node(arena, Kind::UnnamedField, &inside)
    }
}

impl<'t, 'a> TryToTree<'a> for Field<'t, 'a> {
    ghost says = { IsField };

    fn try_to_tree(&self, arena: &'a Arena) -> Result<Option<Tree<'a>>, AllocError> {
        match (self.ident, self.colon_token, self.default) {
            (Some(ident), Some(colon_token), default) => {
                let field = NamedField {
                    attrs: self.attrs,
                    vis: self.vis,
                    ident,
                    colon_token,
                    ty: self.ty,
                    default,
                };
                field.to_some_tree(arena)
            }
            (None, None, None) => {
                let field = UnnamedField {
                    attrs: self.attrs,
                    vis: self.vis,
                    ty: self.ty,
                };
                field.to_some_tree(arena)
            }
            _ => Ok(None),
        }
    }
}

impl<'t, 'a> ToTree<'a> for FieldsNamed<'t, 'a> {
    ghost tree = { fields_named };

    fn to_tree(&self, arena: &'a Arena) -> Result<Tree<'a>, AllocError> {
        node(
            arena,
            Kind::NamedFields,
            &Grouped(self.brace_token, self.named),
        )
    }
}

impl<'t, 'a> ToTree<'a> for FieldsUnnamed<'t, 'a> {
    ghost tree = { fields_unnamed };

    fn to_tree(&self, arena: &'a Arena) -> Result<Tree<'a>, AllocError> {
        node(
            arena,
            Kind::UnnamedFields,
            &Grouped(self.paren_token, self.unnamed),
        )
    }
}

// The fields of a variant. Those of a struct stand in its own tree, before its where clause or behind it.
impl<'t, 'a> ToTree<'a> for Fields<'t, 'a> {
    ghost tree = { variant_fields };

    fn to_tree(&self, arena: &'a Arena) -> Result<Tree<'a>, AllocError> {
        match *self {
            Fields::Named(fields) => nth(arena, 0, &fields),
            Fields::Unnamed(fields) => nth(arena, 1, &fields),
            Fields::Unit => behind(arena, 2, &()),
        }
    }
}

impl<'t, 'a> ToTree<'a> for Variant<'t, 'a> {
    ghost tree = { variant };

    fn to_tree(&self, arena: &'a Arena) -> Result<Tree<'a>, AllocError> {
        let vis = made::dropped(arena, self.vis.copy())?;
        let named = (self.ident, self.fields, self.discriminant);
        node(arena, Kind::Variant, &(self.attrs, &vis, named))
    }
}
