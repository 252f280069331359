//! Items among others, by their form: in a file or a module, in a trait, an impl or an extern block.

ghost use Rattle.reader_table.specs.Kinds.{kind_of, place_of};
ghost use Rattle.reader_table.specs.Parts.{part_of};
ghost use Rattle.reader_tree.specs.Forms.{turns as in_turn};
ghost use Rattle.std.specs.Prelude.{◌≡◌, ◌↔◌, IfOk, IfSome, IsTrue, MatchOption, cond};
ghost use Rattle.syn_data.specs.Derive.{attributes_of, visibility_of};
ghost use Rattle.syn_grammar.specs.Gram as g;
ghost use Rattle.syn_grammar.specs.Kind as k;
ghost use Rattle.syn_grammar.specs.Name as n;
ghost use Rattle.syn_grammar.specs.Tree as t;
ghost use Rattle.syn_item.specs.ItemForms.{HasForm, Is};
ghost use Rattle.syn_item.specs.ItemMembers.{associated_item, foreign_item, form_of_foreign_item, form_of_impl_item};
ghost use Rattle.syn_item.specs.ItemMembers.{form_of_trait_item};
ghost use Rattle.syn_part.specs.Shape.{IsShaped};
ghost use Rattle.syn_wrapped.specs.Among.{IsKeptIn, IsOfForm, MayStand, among_item, before, form_entry, holds};
ghost use Rattle.syn_wrapped.specs.Among.{item_parts, kept_item};
ghost use Rattle.syn_wrapped.specs.Members.{IsForeign, IsMember, foreign_inside, member_inside, member_parts};

use reader_table::kind::{Kind, Place};
use reader_table::part::Part;
use reader_tree::arena::Arena;
use reader_tree::made;
use reader_tree::tree::Tree;
use reader_verdicts::items::item_verdict;
use reader_verdicts::verdict::Verdict;
use rust_leaf::ident::Ident;
use std::alloc::AllocError;
use syn_item::item::{Item, ItemForm};
use syn_item::members::{
    AssociatedForm, AssociatedItem, ForeignForm, ForeignItem, ImplItem, TraitItem,
};
use syn_made::forms::{Called, First, Second};
use syn_made::item::part::MaybeCalled;
use syn_made::put::node;
use syn_made::to_tree::ToTree;
use syn_part::list::Turns;

// Whether a node has a part of that name.
fn holds(tree: &Tree<'_>, part: Part) -> bool
    ensures { result ≡ holds (part_of part) tree.now }
{
    match tree.node() {
        Some((_, inner)) => inner.has(part),
        None => false,
    }
}

// Of two numbers the one for a form with `unsafe`, or for one without.
fn unsafe_or(tree: &Tree<'_>, with: usize, without: usize) -> usize
    ensures { result ≡ cond (holds n.the_safety tree.now) with without }
{
    if holds(tree, Part::Safety) {
        with
    } else {
        without
    }
}

// How many alternatives stand before the one that reads an impl.
fn before_impl(tree: &Tree<'_>) -> usize
    ensures { result ≡ before ItemForm.Impl tree.now }
{
    if holds(tree, Part::Default) {
        19
    } else if holds(tree, Part::Const) {
        6
    } else {
        unsafe_or(tree, 10, 19)
    }
}

// How many alternatives stand before the one that reads a form.
fn before(form: ItemForm, tree: &Tree<'_>) -> usize
    ensures { result ≡ before form tree.now }
{
    match form {
        ItemForm::Fn => 0,
        ItemForm::ExternCrate => 1,
        ItemForm::ForeignMod => unsafe_or(tree, 8, 2),
        ItemForm::Use => 3,
        ItemForm::Static => 4,
        ItemForm::Const => 7,
        ItemForm::Mod => unsafe_or(tree, 9, 12),
        ItemForm::Type => 13,
        ItemForm::Struct => 14,
        ItemForm::Enum => 15,
        ItemForm::Union => 16,
        ItemForm::Trait => unsafe_or(tree, 11, 18),
        ItemForm::TraitAlias => unsafe_or(tree, 11, 18),
        ItemForm::Impl => before_impl(tree),
        ItemForm::Macro => 21,
        ItemForm::Verbatim => 22,
    }
}

// The attributes of an item, its visibility and its form, as it is chosen in a file.
fn parts<'a>(
    arena: &'a Arena,
    attrs: &Tree<'a>,
    vis: &Tree<'a>,
    item: &Item<'_, 'a>,
) -> Result<Tree<'a>, AllocError>
    ensures { IfOk result (λ x. x ≡ item_parts attrs.now vis.now item.now.form item.now.tree.now) }
{
    let count = before(item.form, item.tree);
    let chosen = made::first_behind(arena, count, item.tree.copy())?;
    let vis = Called(Part::Visibility, vis);
    (attrs, vis, Called(Part::Item, &chosen)).to_tree(arena)
}

// An item that is kept, of its attributes, its visibility and its form.
pub(crate) fn kept<'a>(
    arena: &'a Arena,
    attrs: &Tree<'a>,
    vis: &Tree<'a>,
    item: &Item<'_, 'a>,
) -> Result<Tree<'a>, AllocError>
    ensures { IfOk result (λ x. x ≡ kept_item attrs.now vis.now item.now.form item.now.tree.now) }
{
    let parts = parts(arena, attrs, vis, item)?;
    node(arena, Kind::AnItem, &First(&parts))
}

// Whether the grammar keeps what stands in such a place.
fn is_kept_in(place: Place, parts: &Tree<'_>) -> bool
    ensures { IsTrue result ↔ IsKeptIn (place_of place) parts.now }
{
    match item_verdict(place, parts) {
        Verdict::Keep => true,
        Verdict::AsRaw => false,
        Verdict::Refuse => false,
    }
}

// What stands in such a place, as a node of the kind, if the grammar keeps it there.
fn kept_in<'a>(
    arena: &'a Arena,
    place: Place,
    kind: Kind,
    parts: &Tree<'a>,
) -> Result<Option<Tree<'a>>, AllocError>
    ensures { IfOk result (λ o. MatchOption o (IsKeptIn (place_of place) parts.now → ⊥)
        (λ x. IsKeptIn (place_of place) parts.now × (x ≡ t.Node (kind_of kind) (t.First parts.now)))) }
{
    if !is_kept_in(place, parts) {
        return Ok(None);
    }
    Ok(Some(node(arena, kind, &First(parts))?))
}

// An item that is kept, if the grammar keeps it in a file.
#[tactic(auto, using(crate::proofs::AmongForms::in_file))]
fn kept_in_file<'a>(
    arena: &'a Arena,
    attrs: &Tree<'a>,
    vis: &Tree<'a>,
    item: &Item<'_, 'a>,
) -> Result<Option<Tree<'a>>, AllocError>
    ensures { IfOk result (λ o. MatchOption o (IsKeptIn k.InFile (item_parts attrs.now vis.now item.now.form
        item.now.tree.now) → ⊥) (λ x. IsKeptIn k.InFile (item_parts attrs.now vis.now item.now.form
        item.now.tree.now) × (x ≡ kept_item attrs.now vis.now item.now.form item.now.tree.now))) }
{
    let parts = parts(arena, attrs, vis, item)?;
    match kept_in(arena, Place::InFile, Kind::AnItem, &parts)? {
        Some(tree) => Ok(Some(tree)),
        None => Ok(None),
    }
}

/// An item among others, as a node of the kind `AnItem`, if its tree has the form that it says; `None`, exactly where
/// the grammar does not keep such an item behind such a visibility, as an impl behind `pub`. One that is kept as its
/// tokens has its own attributes and its own visibility among them: of it these two are not asked.
///
/// # Errors
///
/// Where there is no memory for it.
#[tactic(auto, using(crate::proofs::AmongForms::kept_items))]
pub fn item<'a>(
    arena: &'a Arena,
    attrs: &Tree<'a>,
    vis: &Tree<'a>,
    item: &Item<'_, 'a>,
) -> Result<Option<Tree<'a>>, AllocError>
    ensures same { IfOk result (λ o. MatchOption o (MayStand attrs.now vis.now item.now.form item.now.tree.now → ⊥)
        (λ x. MayStand attrs.now vis.now item.now.form item.now.tree.now
        × (x ≡ among_item attrs.now vis.now item.now))) }
    ensures says { IfOk result (λ o. IfSome o (λ x. IsOfForm item.now → Is x item.now)) }
    ensures parts { IfOk result (λ o. IfSome o (λ x. HasForm item.now.form item.now.tree.now
        → (attributes_of x ≡ attrs.now) × (visibility_of x ≡ vis.now))) }
    ensures shaped { IfOk result (λ o. IfSome o (λ x. IsShaped attrs.now (g.ref k.OuterAttributes)
        → IsShaped vis.now (g.ref k.Visibility) → IsShaped item.now.tree.now (form_entry item.now.form)
        → IsShaped x (g.ref k.AnItem))) }
{
    if let ItemForm::Verbatim = item.form {
        let raw = made::verbatim(arena, item.tree.copy())?;
        return Ok(Some(made::node(arena, Kind::AnItem, raw)?));
    }
    match kept_in_file(arena, attrs, vis, item)? {
        Some(tree) => Ok(Some(tree)),
        None => Ok(None),
    }
}

/// An item without attributes and without a visibility, as a node of the kind `AnItem`, if its tree has the form that
/// it says: what a derive helper makes, say; `None`, exactly where the grammar does not keep such an item. One that is
/// kept as its tokens has its own among them.
///
/// # Errors
///
/// Where there is no memory for it.
#[tactic(auto, using(crate::proofs::AmongForms::plain_shaped))]
pub fn plain_item<'a>(arena: &'a Arena, item: &Item<'_, 'a>) -> Result<Option<Tree<'a>>, AllocError>
    ensures same { IfOk result (λ o. MatchOption o (MayStand (t.Node k.OuterAttributes t.End) (t.Node k.Visibility
        (t.Second t.Nil)) item.now.form item.now.tree.now → ⊥) (λ x. MayStand (t.Node k.OuterAttributes t.End)
        (t.Node k.Visibility (t.Second t.Nil)) item.now.form item.now.tree.now
        × (x ≡ among_item (t.Node k.OuterAttributes t.End) (t.Node k.Visibility (t.Second t.Nil)) item.now))) }
    ensures says { IfOk result (λ o. IfSome o (λ x. IsOfForm item.now → Is x item.now)) }
    ensures parts { IfOk result (λ o. IfSome o (λ x. HasForm item.now.form item.now.tree.now → (attributes_of x
        ≡ t.Node k.OuterAttributes t.End) × (visibility_of x ≡ t.Node k.Visibility (t.Second t.Nil)))) }
    ensures shaped { IfOk result (λ o. IfSome o (λ x. IsShaped item.now.tree.now (form_entry item.now.form)
        → IsShaped x (g.ref k.AnItem))) }
{
    let attrs = node(arena, Kind::OuterAttributes, &Turns { each: &[] })?;
    let vis = node(arena, Kind::Visibility, &Second(()))?;
    match self::item(arena, &attrs, &vis, item)? {
        Some(tree) => Ok(Some(tree)),
        None => Ok(None),
    }
}

// What is judged of an item of a trait or an impl: its attributes, its visibility, `default` and the item.
fn member_parts<'a>(
    arena: &'a Arena,
    attrs: &Tree<'a>,
    vis: &Tree<'a>,
    defaultness: Option<&'a Ident>,
    item: &AssociatedItem<'_, 'a>,
) -> Result<Tree<'a>, AllocError>
    ensures { IfOk result (λ x. x ≡ member_parts attrs.now vis.now defaultness.entry (associated_item item.now)) }
{
    let vis = Called(Part::Visibility, vis);
    let default = MaybeCalled(Part::Default, defaultness);
    (attrs, vis, default, Called(Part::Item, *item)).to_tree(arena)
}

// An item of a trait or an impl, as a node of the kind: all of it, if the grammar keeps it there, or that its tokens
// are kept.
#[tactic(auto, using(crate::proofs::MemberForms::members))]
fn member<'a>(
    arena: &'a Arena,
    place: Place,
    kind: Kind,
    attrs: &Tree<'a>,
    vis: &Tree<'a>,
    defaultness: Option<&'a Ident>,
    item: &AssociatedItem<'_, 'a>,
) -> Result<Option<Tree<'a>>, AllocError>
    ensures { IfOk result (λ o. MatchOption o (IsMember (place_of place) attrs.now vis.now defaultness.entry item.now
        → ⊥) (λ x. IsMember (place_of place) attrs.now vis.now defaultness.entry item.now
        × (x ≡ t.Node (kind_of kind) (member_inside attrs.now vis.now defaultness.entry item.now)))) }
{
    if let AssociatedForm::Verbatim = item.form {
        let raw = item.to_tree(arena)?;
        return Ok(Some(made::node(arena, kind, raw)?));
    }
    let parts = member_parts(arena, attrs, vis, defaultness, item)?;
    match kept_in(arena, place, kind, &parts)? {
        Some(tree) => Ok(Some(tree)),
        None => Ok(None),
    }
}

/// An item of a trait, as a node of the kind `ATraitItem`, with its attributes, its visibility and `default`; `None`,
/// exactly where the grammar does not keep such an item there: none behind `pub` or `default`. One that is kept as its
/// tokens has its own among them: of it these three are not asked.
///
/// # Errors
///
/// Where there is no memory for it.
#[tactic(auto, using(crate::proofs::MemberForms::member_found))]
pub fn trait_item<'a>(
    arena: &'a Arena,
    attrs: &Tree<'a>,
    vis: &Tree<'a>,
    defaultness: Option<&'a Ident>,
    item: &TraitItem<'_, 'a>,
) -> Result<Option<Tree<'a>>, AllocError>
    ensures same { IfOk result (λ o. MatchOption o (IsMember k.InTrait attrs.now vis.now defaultness.entry item.now
        → ⊥) (λ x. IsMember k.InTrait attrs.now vis.now defaultness.entry item.now
        × (x ≡ t.Node k.ATraitItem (member_inside attrs.now vis.now defaultness.entry item.now)))) }
    ensures says { IfOk result (λ o. IfSome o (λ x. form_of_trait_item x ≡ associated_item item.now)) }
{
    let kind = Kind::ATraitItem;
    match member(arena, Place::InTrait, kind, attrs, vis, defaultness, item)? {
        Some(tree) => Ok(Some(tree)),
        None => Ok(None),
    }
}

/// An item of an impl, as a node of the kind `AnImplItem`, with its attributes, its visibility and `default`; `None`,
/// exactly where the grammar does not keep such an item there, as a macro behind one of these two. One that is kept as
/// its tokens has its own among them: of it these three are not asked.
///
/// # Errors
///
/// Where there is no memory for it.
#[tactic(auto, using(crate::proofs::MemberForms::member_found))]
pub fn impl_item<'a>(
    arena: &'a Arena,
    attrs: &Tree<'a>,
    vis: &Tree<'a>,
    defaultness: Option<&'a Ident>,
    item: &ImplItem<'_, 'a>,
) -> Result<Option<Tree<'a>>, AllocError>
    ensures same { IfOk result (λ o. MatchOption o (IsMember k.InImpl attrs.now vis.now defaultness.entry item.now
        → ⊥) (λ x. IsMember k.InImpl attrs.now vis.now defaultness.entry item.now
        × (x ≡ t.Node k.AnImplItem (member_inside attrs.now vis.now defaultness.entry item.now)))) }
    ensures says { IfOk result (λ o. IfSome o (λ x. form_of_impl_item x ≡ associated_item item.now)) }
{
    let kind = Kind::AnImplItem;
    match member(arena, Place::InImpl, kind, attrs, vis, defaultness, item)? {
        Some(tree) => Ok(Some(tree)),
        None => Ok(None),
    }
}

/// An item of an extern block, as a node of the kind `AForeignItem`, with its attributes and its visibility; `None`,
/// exactly where the grammar does not keep such an item there, as a macro behind `pub`. One that is kept as its tokens
/// has its own among them: of it these two are not asked.
///
/// # Errors
///
/// Where there is no memory for it.
#[tactic(auto, using(crate::proofs::MemberForms::foreign_items))]
pub fn foreign_item<'a>(
    arena: &'a Arena,
    attrs: &Tree<'a>,
    vis: &Tree<'a>,
    item: &ForeignItem<'_, 'a>,
) -> Result<Option<Tree<'a>>, AllocError>
    ensures same { IfOk result (λ o. MatchOption o (IsForeign attrs.now vis.now item.now → ⊥)
        (λ x. IsForeign attrs.now vis.now item.now
        × (x ≡ t.Node k.AForeignItem (foreign_inside attrs.now vis.now item.now)))) }
    ensures says { IfOk result (λ o. IfSome o (λ x. form_of_foreign_item x ≡ foreign_item item.now)) }
{
    let chosen = item.to_tree(arena)?;
    if let ForeignForm::Verbatim = item.form {
        return Ok(Some(made::node(arena, Kind::AForeignItem, chosen)?));
    }
    let vis = Called(Part::Visibility, vis);
    let parts = (attrs, vis, &chosen).to_tree(arena)?;
    match kept_in(arena, Place::InForeign, Kind::AForeignItem, &parts)? {
        Some(tree) => Ok(Some(tree)),
        None => Ok(None),
    }
}

// Trees one behind the other, as a node of the kind.
fn several<'a>(arena: &'a Arena, kind: Kind, each: Vec<Tree<'a>>) -> Result<Tree<'a>, AllocError>
    ensures { IfOk result (λ x. x ≡ t.Node (kind_of kind) (in_turn each.entry.items)) }
{
    let inside = made::turns(arena, each)?;
    made::node(arena, kind, inside)
}

/// Items one behind the other, as what stands in a file or a module.
///
/// # Errors
///
/// Where there is no memory for them.
pub fn items<'a>(arena: &'a Arena, each: Vec<Tree<'a>>) -> Result<Tree<'a>, AllocError>
    ensures { IfOk result (λ x. x ≡ t.Node k.Items (in_turn each.entry.items)) }
{
    several(arena, Kind::Items, each)
}

/// Items of a trait, one behind the other, as what stands in it.
///
/// # Errors
///
/// Where there is no memory for them.
pub fn trait_items<'a>(arena: &'a Arena, each: Vec<Tree<'a>>) -> Result<Tree<'a>, AllocError>
    ensures { IfOk result (λ x. x ≡ t.Node k.TraitItems (in_turn each.entry.items)) }
{
    several(arena, Kind::TraitItems, each)
}

/// Items of an impl, one behind the other, as what stands in it.
///
/// # Errors
///
/// Where there is no memory for them.
pub fn impl_items<'a>(arena: &'a Arena, each: Vec<Tree<'a>>) -> Result<Tree<'a>, AllocError>
    ensures { IfOk result (λ x. x ≡ t.Node k.ImplItems (in_turn each.entry.items)) }
{
    several(arena, Kind::ImplItems, each)
}

/// Items of an extern block, one behind the other, as what stands in it.
///
/// # Errors
///
/// Where there is no memory for them.
pub fn foreign_items<'a>(arena: &'a Arena, each: Vec<Tree<'a>>) -> Result<Tree<'a>, AllocError>
    ensures { IfOk result (λ x. x ≡ t.Node k.ForeignItems (in_turn each.entry.items)) }
{
    several(arena, Kind::ForeignItems, each)
}
