//! Changes of attributes, visibilities and parameters of generics.

use crate::change::{By, Change, mark};
use syn::{AttrStyle, Attribute, GenericParam, OuterAttributes, Sign, Tree, TypeParam, Visibility};

// The first attribute of some, if there is one.
fn first<'t, 'a>(tree: &'t Tree<'a>) -> Option<Attribute<'t, 'a>> {
    Attribute::of(OuterAttributes::of(tree)?.attrs.each.first()?)
}

// The first attribute of some, as one that stands inside a form.
impl<'a> Change<'a> for Attribute<'a, 'a> {
    fn changed(_by: By<'_, 'a>, tree: &'a Tree<'a>) -> Option<Attribute<'a, 'a>> {
        let found = first(tree)?;
        let style = AttrStyle::Inner(mark(Sign::Not));
        Some(Attribute { style, ..found })
    }
}

// `pub`, of what is restricted to a place.
impl<'a> Change<'a> for Visibility<'a, 'a> {
    fn changed(_by: By<'_, 'a>, tree: &'a Tree<'a>) -> Option<Visibility<'a, 'a>> {
        match Visibility::of(tree) {
            Some(Visibility::Restricted(found)) => Some(Visibility::Public(found.pub_token)),
            _ => None,
        }
    }
}

// A type's parameter without what stands for it by default.
impl<'a> Change<'a> for GenericParam<'a, 'a> {
    fn changed(_by: By<'_, 'a>, tree: &'a Tree<'a>) -> Option<GenericParam<'a, 'a>> {
        match GenericParam::of(tree) {
            Some(GenericParam::Type(found)) => Some(GenericParam::Type(TypeParam {
                default: None,
                ..found
            })),
            _ => None,
        }
    }
}
