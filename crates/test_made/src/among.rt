//! Items without their attributes and their visibility: by themselves, or put where they stand, behind `pub` or
//! `default`.

use crate::asked::Whole;
use crate::change::{By, Unmade, tried};
use syn::{
    Arena, AssociatedItemTree, ForeignItemTree, Ident, Item, OuterAttributes, Tree, Turns,
    Visibility,
};
use syn_made::to_tree::ToTree;
use syn_wrapped::among::{foreign_item, impl_item, item, plain_item, trait_item};

// An item of a trait or an impl, behind such words.
fn put_member<'a>(
    arena: &'a Arena,
    tree: &'a Tree<'a>,
    before: (&Tree<'a>, &Tree<'a>),
    defaultness: Option<&'a Ident>,
) -> Result<Option<Tree<'a>>, Unmade> {
    let (attrs, vis) = before;
    match AssociatedItemTree::in_trait(tree) {
        Some(found) => tried(trait_item(arena, attrs, vis, defaultness, &found)),
        None => match AssociatedItemTree::in_impl(tree) {
            Some(found) => tried(impl_item(arena, attrs, vis, defaultness, &found)),
            None => Err(Unmade::NoRow),
        },
    }
}

// An item behind such words, where it stands.
fn put<'a>(
    arena: &'a Arena,
    tree: &'a Tree<'a>,
    before: (&Tree<'a>, &Tree<'a>),
    defaultness: Option<&'a Ident>,
) -> Result<Option<Tree<'a>>, Unmade> {
    let (attrs, vis) = before;
    match (Item::of(tree), ForeignItemTree::of(tree)) {
        (Some(found), _) => tried(item(arena, attrs, vis, &found)),
        (None, Some(found)) => tried(foreign_item(arena, attrs, vis, &found)),
        (None, None) => put_member(arena, tree, before, defaultness),
    }
}

// The same, by its visibility.
fn put_behind<'a>(
    arena: &'a Arena,
    tree: &'a Tree<'a>,
    vis: Visibility<'_, 'a>,
    defaultness: Option<&'a Ident>,
) -> Result<Option<Tree<'a>>, Unmade> {
    let attrs = OuterAttributes {
        attrs: Turns { each: &[] },
    };
    let attrs = attrs.to_tree(arena)?;
    let vis = vis.to_tree(arena)?;
    put(arena, tree, (&attrs, &vis), defaultness)
}

// An item without its attributes and its visibility.
fn plain<'a>(arena: &'a Arena, tree: &Tree<'a>) -> Result<Option<Tree<'a>>, Unmade> {
    match Item::of(tree) {
        Some(found) => tried(plain_item(arena, &found)),
        None => Err(Unmade::NoRow),
    }
}

/// All of an item, put so.
pub(crate) fn changed<'a>(
    place: Whole,
    arena: &'a Arena,
    by: By<'_, 'a>,
    tree: &'a Tree<'a>,
) -> Result<Option<Tree<'a>>, Unmade> {
    match place {
        Whole::Plain => plain(arena, tree),
        Whole::InItsPlace => put_behind(arena, tree, Visibility::Inherited, None),
        Whole::Public => put_behind(arena, tree, Visibility::Public(by.word), None),
        Whole::Default => put_behind(arena, tree, Visibility::Inherited, Some(by.word)),
    }
}
