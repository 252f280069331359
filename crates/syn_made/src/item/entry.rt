//! Items with their attributes and their visibility.

ghost use Rattle.reader_table.specs.Kinds.{kind_of, place_of};
ghost use Rattle.std.specs.Prelude.{◌≡◌, IfOk, MatchOption};
ghost use Rattle.syn_grammar.specs.Kind as k;
ghost use Rattle.syn_grammar.specs.Tree as t;
ghost use Rattle.syn_item.specs.ItemEntries.{IsDefaultIn, defaultness_tree, foreign_item_static, foreign_parts};
ghost use Rattle.syn_item.specs.ItemEntries.{item_parts, one_macro, one_trait, placed_parts};

use crate::forms::{Called, First};
use crate::item::part::MaybeCalled;
use crate::put::{node, some_node};
use crate::to_tree::ToTree;
use reader_table::kind::{Kind, Place};
use reader_table::part::Part;
use reader_tree::arena::Arena;
use reader_tree::made;
use reader_tree::tree::Tree;
use rust_leaf::ident::Ident;
use std::alloc::AllocError;
use syn_item::entry::{
    ForeignItemStatic, ForeignParts, ItemParts, OneMacro, OneTrait, PlacedParts,
};

impl<'t, 'a> ToTree<'a> for ItemParts<'t, 'a> {
    ghost tree = { item_parts };

    fn to_tree(&self, arena: &'a Arena) -> Result<Tree<'a>, AllocError> {
        let vis = Called(Part::Visibility, self.vis);
        let inside = First((self.attrs, vis, Called(Part::Item, self.item)));
        node(arena, self.kind, &inside)
    }
}

// `default`, or that it is missing, as the place has it, if it may stand there.
fn defaultness<'a>(
    arena: &'a Arena,
    place: Place,
    word: Option<&'a Ident>,
) -> Result<Option<Tree<'a>>, AllocError>
    ensures { IfOk result (λ o. MatchOption o (IsDefaultIn place word.entry → ⊥)
        (λ x. IsDefaultIn place word.entry × (x ≡ defaultness_tree place word.entry))) }
{
    match (place, word) {
        (Place::InTrait, word) => MaybeCalled(Part::Default, word).to_some_tree(arena),
        (Place::InImpl, word) => MaybeCalled(Part::Default, word).to_some_tree(arena),
        (_, None) => Ok(Some(made::nil())),
        (_, Some(_)) => Ok(None),
    }
}

// An item that could stand in its place, as a node of the kind, if `default` may stand there.
fn placed<'a>(
    arena: &'a Arena,
    kind: Kind,
    parts: &PlacedParts<'_, 'a>,
) -> Result<Option<Tree<'a>>, AllocError>
    ensures { IfOk result (λ o. MatchOption o (IsDefaultIn parts.now.place parts.now.defaultness → ⊥)
        (λ x. IsDefaultIn parts.now.place parts.now.defaultness
        × (x ≡ t.Node (kind_of kind) (placed_parts parts.now)))) }
{
    let Some(default) = defaultness(arena, parts.place, parts.defaultness)? else {
        return Ok(None);
    };
    let vis = Called(Part::Visibility, parts.vis);
    let inside = First((parts.attrs, vis, &default, Called(Part::Item, parts.item)));
    some_node(arena, kind, &inside)
}

/// A function by itself; `None` exactly where `default` stands in a place that has none.
///
/// # Errors
///
/// Where there is no memory for it.
pub fn one_function<'a>(
    arena: &'a Arena,
    parts: &PlacedParts<'_, 'a>,
) -> Result<Option<Tree<'a>>, AllocError>
    ensures { IfOk result (λ o. MatchOption o (IsDefaultIn parts.now.place parts.now.defaultness → ⊥)
        (λ x. IsDefaultIn parts.now.place parts.now.defaultness
        × (x ≡ t.Node (k.OneFunction (place_of parts.now.place)) (placed_parts parts.now)))) }
{
    placed(arena, Kind::OneFunction(parts.place), parts)
}

/// A type by itself; `None` exactly where `default` stands in a place that has none.
///
/// # Errors
///
/// Where there is no memory for it.
pub fn one_type_alias<'a>(
    arena: &'a Arena,
    parts: &PlacedParts<'_, 'a>,
) -> Result<Option<Tree<'a>>, AllocError>
    ensures { IfOk result (λ o. MatchOption o (IsDefaultIn parts.now.place parts.now.defaultness → ⊥)
        (λ x. IsDefaultIn parts.now.place parts.now.defaultness
        × (x ≡ t.Node (k.OneTypeAlias (place_of parts.now.place)) (placed_parts parts.now)))) }
{
    placed(arena, Kind::OneTypeAlias(parts.place), parts)
}

/// A constant by itself; `None` exactly where `default` stands in a place that has none.
///
/// # Errors
///
/// Where there is no memory for it.
pub fn one_const<'a>(
    arena: &'a Arena,
    parts: &PlacedParts<'_, 'a>,
) -> Result<Option<Tree<'a>>, AllocError>
    ensures { IfOk result (λ o. MatchOption o (IsDefaultIn parts.now.place parts.now.defaultness → ⊥)
        (λ x. IsDefaultIn parts.now.place parts.now.defaultness
        × (x ≡ t.Node (k.OneConst (place_of parts.now.place)) (placed_parts parts.now)))) }
{
    placed(arena, Kind::OneConst(parts.place), parts)
}

// A trait or an alias of traits by itself, as a node of the kind.
fn one<'a>(arena: &'a Arena, kind: Kind, parts: &OneTrait<'_, 'a>) -> Result<Tree<'a>, AllocError>
    ensures { IfOk result (λ x. x ≡ t.Node (kind_of kind) (one_trait parts.now)) }
{
    let inside = First((parts.attrs, parts.vis, Called(Part::Item, parts.item)));
    node(arena, kind, &inside)
}

/// A trait by itself.
///
/// # Errors
///
/// Where there is no memory for it.
pub fn one_trait<'a>(arena: &'a Arena, parts: &OneTrait<'_, 'a>) -> Result<Tree<'a>, AllocError>
    ensures { IfOk result (λ x. x ≡ t.Node k.ItemTrait (one_trait parts.now)) }
{
    one(arena, Kind::ItemTrait, parts)
}

/// An alias of traits by itself.
///
/// # Errors
///
/// Where there is no memory for it.
pub fn one_trait_alias<'a>(
    arena: &'a Arena,
    parts: &OneTrait<'_, 'a>,
) -> Result<Tree<'a>, AllocError>
    ensures { IfOk result (λ x. x ≡ t.Node k.ItemTraitAlias (one_trait parts.now)) }
{
    one(arena, Kind::ItemTraitAlias, parts)
}

impl<'t, 'a> ToTree<'a> for OneMacro<'t, 'a> {
    ghost tree = { one_macro };

    fn to_tree(&self, arena: &'a Arena) -> Result<Tree<'a>, AllocError> {
        node(
            arena,
            Kind::OneMacro(self.place),
            &(self.attrs, First(self.mac)),
        )
    }
}

impl<'t, 'a> ToTree<'a> for ForeignItemStatic<'t, 'a> {
    ghost tree = { foreign_item_static };

    fn to_tree(&self, arena: &'a Arena) -> Result<Tree<'a>, AllocError> {
        let vis = Called(Part::Visibility, self.vis);
        let item = Called(Part::Item, self.item);
        let inside = First((self.attrs, vis, self.safety, item));
        node(arena, Kind::ForeignItemStatic, &inside)
    }
}

impl<'t, 'a> ToTree<'a> for ForeignParts<'t, 'a> {
    ghost tree = { foreign_parts };

    fn to_tree(&self, arena: &'a Arena) -> Result<Tree<'a>, AllocError> {
        let inside = First((self.attrs, Called(Part::Visibility, self.vis), self.item));
        node(arena, Kind::AForeignItem, &inside)
    }
}
