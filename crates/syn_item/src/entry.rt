//! Items with their attributes and their visibility.

ghost use Rattle.reader_table.specs.Kinds.{kind_of, place_of};
ghost use Rattle.reader_table.specs.declared.kind.Place.TheVariants as places;
ghost use Rattle.std.specs.Prelude.{◌≡◌, IfSome, MatchOption, None};
ghost use Rattle.syn_grammar.specs.Gram as g;
ghost use Rattle.syn_grammar.specs.Gram.{Verdict as GivenVerdict};
ghost use Rattle.syn_grammar.specs.Kind as k;
ghost use Rattle.syn_grammar.specs.Lists.{default_there};
ghost use Rattle.syn_grammar.specs.Name as n;
ghost use Rattle.syn_grammar.specs.Table.{table};
ghost use Rattle.syn_grammar.specs.Tree as t;
ghost use Rattle.syn_grammar.specs.Tree.{Tree as GivenTree};
ghost use Rattle.syn_item.specs.ItemEntries.{IsDefaultIn, defaultness_tree, entry_of, foreign_item_static};
ghost use Rattle.syn_item.specs.ItemEntries.{foreign_parts, item_parts, one_macro, one_trait, placed_parts};
ghost use Rattle.syn_item.specs.ItemFunctions.{IsSafety};
ghost use Rattle.syn_part.specs.Kept.{IsFirst, IsKept};
ghost use Rattle.syn_part.specs.Shape.{IsShaped};

use crate::function::{Safety, as_foreign_safety};
use reader_table::kind::{Kind, Place};
use reader_table::part::Part;
use reader_tree::tree::Tree;
use rust_leaf::ident::Ident;
use syn_part::take::{self, Choice};
use syn_part::{inside, joined};

/// An item of any kind, with its attributes and its visibility.
#[derive(Clone, Copy)]
pub struct ItemParts<'t, 'a> {
    /// The kind.
    pub kind: Kind,
    /// Its attributes.
    pub attrs: &'t Tree<'a>,
    /// Its visibility.
    pub vis: &'t Tree<'a>,
    /// What stands behind them.
    pub item: &'t Tree<'a>,
}

// What a tree is, if it is that, and is of a kind.
fn as_parts<'t, 'a>(kind: Kind, tree: &'t Tree<'a>) -> Option<ItemParts<'t, 'a>>
    ensures { MatchOption result ((v : GivenTree → GivenVerdict) (a : g.Gram) → IsFirst tree.now → IsShaped tree.now
        (entry_of v a) → ⊥)
        (λ x. t.Node (kind_of kind) tree.now ≡ item_parts x) }
{
    let Some(parts) = take::kept(tree) else {
        return None;
    };
    let Some((attrs, vis, item)) = take::three(parts) else {
        return None;
    };
    let Some((vis, item)) = joined::two(
        inside::part(Part::Visibility, vis),
        inside::part(Part::Item, item),
    ) else {
        return None;
    };
    Some(ItemParts {
        kind,
        attrs,
        vis,
        item,
    })
}

impl<'t, 'a> ItemParts<'t, 'a> {
    /// What a tree is, if it is an item that is kept as it was read: of the kind `AnItem`, or of one of those that read
    /// one form alone.
    #[tactic(auto, using(crate::proofs::ItemEntries::no_entry))]
    pub fn of(tree: &'t Tree<'a>) -> Option<ItemParts<'t, 'a>>
        ensures { MatchOption result ((i : k.Kind) (v : GivenTree → GivenVerdict) (a : g.Gram) → table i ≡ entry_of v a
            → IsKept tree.now → IsShaped tree.now (g.ref i) → ⊥) (λ x. tree.now ≡ item_parts x) }
    {
        let (kind, inner) = take::node(tree)?;
        as_parts(kind, inner)
    }
}

// That no `default` stands there.
fn no_defaultness<'a>(tree: &Tree<'a>) -> Option<Option<&'a Ident>>
    ensures tree_is { MatchOption result (IsShaped tree.now g.nothing → ⊥) (λ o. tree.now ≡ t.Nil) }
    ensures none { IfSome result (λ o. o ≡ None) }
{
    if take::is_nothing(tree) {
        Some(None)
    } else {
        None
    }
}

// `default`, as the place has it.
fn as_defaultness<'a>(place: Place, tree: &Tree<'a>) -> Option<Option<&'a Ident>>
    ensures tree_is { MatchOption result (IsShaped tree.now (default_there (place_of place)) → ⊥)
        (λ o. tree.now ≡ defaultness_tree place o) }
    ensures which { IfSome result (λ o. IsDefaultIn place o) }
{
    match place {
        Place::InTrait => inside::optional_word(Part::Default, tree),
        Place::InImpl => inside::optional_word(Part::Default, tree),
        Place::InFile => no_defaultness(tree),
        Place::InForeign => no_defaultness(tree),
    }
}

/// An item of a trait or an impl, or a function, a constant or a type by itself, in whatever place that could stand.
#[derive(Clone, Copy)]
pub struct PlacedParts<'t, 'a> {
    /// Where it stands.
    pub place: Place,
    /// Its attributes.
    pub attrs: &'t Tree<'a>,
    /// Its visibility.
    pub vis: &'t Tree<'a>,
    /// `default`
    pub defaultness: Option<&'a Ident>,
    /// What stands behind them.
    pub item: &'t Tree<'a>,
}

// What a tree is, if it is that.
fn as_placed<'t, 'a>(place: Place, tree: &'t Tree<'a>) -> Option<PlacedParts<'t, 'a>>
    ensures tree_is { MatchOption result ((v : GivenTree → GivenVerdict) (a b c : g.Gram) → IsFirst tree.now
        → IsShaped tree.now (g.judged v (g.seq a (g.seq (g.called n.the_visibility b) (g.seq
        (default_there (place_of place)) (g.called n.the_item c))))) → ⊥)
        (λ x. (x.place ≡ place) × (tree.now ≡ placed_parts x)) }
    ensures which { IfSome result (λ x. IsDefaultIn x.place x.defaultness) }
{
    let Some(parts) = take::kept(tree) else {
        return None;
    };
    let Some((attrs, vis, defaultness, item)) = take::four(parts) else {
        return None;
    };
    let Some((vis, defaultness, item)) = joined::three(
        inside::part(Part::Visibility, vis),
        as_defaultness(place, defaultness),
        inside::part(Part::Item, item),
    ) else {
        return None;
    };
    Some(PlacedParts {
        place,
        attrs,
        vis,
        defaultness,
        item,
    })
}

impl<'t, 'a> PlacedParts<'t, 'a> {
    /// What a tree is, if it is an item of a trait that is kept as it was read.
    #[tactic(auto, unfolding(syn_grammar::specs::Table::table))]
    pub fn in_trait(tree: &'t Tree<'a>) -> Option<PlacedParts<'t, 'a>>
        ensures { MatchOption result (IsKept tree.now → IsShaped tree.now (g.ref k.ATraitItem) → ⊥)
            (λ x. (x.place ≡ places.InTrait) × (tree.now ≡ t.Node k.ATraitItem (placed_parts x))) }
    {
        let Some(inner) = inside::node(Kind::ATraitItem, tree) else {
            return None;
        };
        match as_placed(Place::InTrait, inner) {
            Some(found) => Some(found),
            None => None,
        }
    }

    /// What a tree is, if it is an item of an impl that is kept as it was read.
    #[tactic(auto, unfolding(syn_grammar::specs::Table::table))]
    pub fn in_impl(tree: &'t Tree<'a>) -> Option<PlacedParts<'t, 'a>>
        ensures { MatchOption result (IsKept tree.now → IsShaped tree.now (g.ref k.AnImplItem) → ⊥)
            (λ x. (x.place ≡ places.InImpl) × (tree.now ≡ t.Node k.AnImplItem (placed_parts x))) }
    {
        let Some(inner) = inside::node(Kind::AnImplItem, tree) else {
            return None;
        };
        match as_placed(Place::InImpl, inner) {
            Some(found) => Some(found),
            None => None,
        }
    }

    /// What a tree is, if it is a function by itself. One that was read is kept as it was read.
    #[tactic(auto, unfolding(syn_grammar::specs::Table::table))]
    pub fn one_function(tree: &'t Tree<'a>) -> Option<PlacedParts<'t, 'a>>
        ensures tree_is { MatchOption result ((p : k.Place) → IsKept tree.now
            → IsShaped tree.now (g.ref (k.OneFunction p)) → ⊥)
            (λ x. tree.now ≡ t.Node (k.OneFunction (place_of x.place)) (placed_parts x)) }
        ensures which { IfSome result (λ x. IsDefaultIn x.place x.defaultness) }
    {
        let Some((Kind::OneFunction(place), inner)) = take::node(tree) else {
            return None;
        };
        as_placed(place, inner)
    }

    /// What a tree is, if it is a type by itself. One that was read is kept as it was read.
    #[tactic(auto, unfolding(syn_grammar::specs::Table::table))]
    pub fn one_type_alias(tree: &'t Tree<'a>) -> Option<PlacedParts<'t, 'a>>
        ensures tree_is { MatchOption result ((p : k.Place) → IsKept tree.now
            → IsShaped tree.now (g.ref (k.OneTypeAlias p)) → ⊥)
            (λ x. tree.now ≡ t.Node (k.OneTypeAlias (place_of x.place)) (placed_parts x)) }
        ensures which { IfSome result (λ x. IsDefaultIn x.place x.defaultness) }
    {
        let Some((Kind::OneTypeAlias(place), inner)) = take::node(tree) else {
            return None;
        };
        as_placed(place, inner)
    }

    /// What a tree is, if it is a constant by itself. One that was read is kept as it was read.
    #[tactic(auto, unfolding(syn_grammar::specs::Table::table))]
    pub fn one_const(tree: &'t Tree<'a>) -> Option<PlacedParts<'t, 'a>>
        ensures tree_is { MatchOption result ((p : k.Place) → IsKept tree.now
            → IsShaped tree.now (g.ref (k.OneConst p)) → ⊥)
            (λ x. tree.now ≡ t.Node (k.OneConst (place_of x.place)) (placed_parts x)) }
        ensures which { IfSome result (λ x. IsDefaultIn x.place x.defaultness) }
    {
        let Some((Kind::OneConst(place), inner)) = take::node(tree) else {
            return None;
        };
        as_placed(place, inner)
    }
}

/// A trait or an alias of traits by itself.
#[derive(Clone, Copy)]
pub struct OneTrait<'t, 'a> {
    /// Its attributes.
    pub attrs: &'t Tree<'a>,
    /// Its visibility.
    pub vis: &'t Tree<'a>,
    /// What stands behind them, as a form of the kind `ATrait`.
    pub item: &'t Tree<'a>,
}

// What a tree is, if it is that.
fn as_one_trait<'t, 'a>(tree: &'t Tree<'a>) -> Option<OneTrait<'t, 'a>>
    ensures { MatchOption result ((v : GivenTree → GivenVerdict) (a b c : g.Gram) → IsFirst tree.now
        → IsShaped tree.now (g.judged v (g.seq a (g.seq b (g.called n.the_item c)))) → ⊥)
        (λ x. tree.now ≡ one_trait x) }
{
    let parts = take::kept(tree)?;
    let (attrs, vis, item) = take::three(parts)?;
    let item = inside::part(Part::Item, item)?;
    Some(OneTrait { attrs, vis, item })
}

impl<'t, 'a> OneTrait<'t, 'a> {
    /// What a tree is, if it is a trait by itself. One that was read is kept as it was read.
    #[tactic(auto, unfolding(syn_grammar::specs::Table::table))]
    pub fn of(tree: &'t Tree<'a>) -> Option<OneTrait<'t, 'a>>
        ensures { MatchOption result (IsKept tree.now → IsShaped tree.now (g.ref k.ItemTrait) → ⊥)
            (λ x. tree.now ≡ t.Node k.ItemTrait (one_trait x)) }
    {
        let Some(inner) = inside::node(Kind::ItemTrait, tree) else {
            return None;
        };
        as_one_trait(inner)
    }

    /// What a tree is, if it is an alias of traits by itself. One that was read is kept as it was read.
    #[tactic(auto, unfolding(syn_grammar::specs::Table::table))]
    pub fn of_alias(tree: &'t Tree<'a>) -> Option<OneTrait<'t, 'a>>
        ensures { MatchOption result (IsKept tree.now → IsShaped tree.now (g.ref k.ItemTraitAlias) → ⊥)
            (λ x. tree.now ≡ t.Node k.ItemTraitAlias (one_trait x)) }
    {
        let Some(inner) = inside::node(Kind::ItemTraitAlias, tree) else {
            return None;
        };
        as_one_trait(inner)
    }
}

/// A macro by itself.
#[derive(Clone, Copy)]
pub struct OneMacro<'t, 'a> {
    /// Where it could stand.
    pub place: Place,
    /// Its attributes.
    pub attrs: &'t Tree<'a>,
    /// The macro, as a form of the kind `ItemMacro`.
    pub mac: &'t Tree<'a>,
}

impl<'t, 'a> OneMacro<'t, 'a> {
    /// What a tree is, if it is that.
    #[tactic(auto, using(syn_part::proofs::Absent::shaped_never), unfolding(syn_grammar::specs::Table::table))]
    pub fn of(tree: &'t Tree<'a>) -> Option<OneMacro<'t, 'a>>
        ensures { MatchOption result ((p : k.Place) → IsShaped tree.now (g.ref (k.OneMacro p)) → ⊥)
            (λ x. tree.now ≡ one_macro x) }
    {
        let Some((Kind::OneMacro(place), inner)) = take::node(tree) else {
            return None;
        };
        let Some((attrs, which)) = take::pair(inner) else {
            return None;
        };
        match take::chosen(which) {
            Some(Choice::First(mac)) => Some(OneMacro { place, attrs, mac }),
            _ => None,
        }
    }
}

/// A static of an extern block by itself.
#[derive(Clone, Copy)]
pub struct ForeignItemStatic<'t, 'a> {
    /// Its attributes.
    pub attrs: &'t Tree<'a>,
    /// Its visibility.
    pub vis: &'t Tree<'a>,
    /// Whether it is safe to use.
    pub safety: Safety<'a>,
    /// The static, as a form of the kind `AStatic`.
    pub item: &'t Tree<'a>,
}

impl<'t, 'a> ForeignItemStatic<'t, 'a> {
    /// What a tree is, if it is that. One that was read is kept as it was read.
    #[tactic(auto, unfolding(syn_grammar::specs::Table::table))]
    pub fn of(tree: &'t Tree<'a>) -> Option<ForeignItemStatic<'t, 'a>>
        ensures tree_is { MatchOption result (IsKept tree.now → IsShaped tree.now (g.ref k.ForeignItemStatic) → ⊥)
            (λ x. tree.now ≡ foreign_item_static x) }
        ensures which { IfSome result (λ x. IsSafety x.safety) }
    {
        let Some(inner) = inside::kept(Kind::ForeignItemStatic, tree) else {
            return None;
        };
        let Some((attrs, vis, safety, item)) = take::four(inner) else {
            return None;
        };
        let Some((vis, safety, item)) = joined::three(
            inside::part(Part::Visibility, vis),
            as_foreign_safety(safety),
            inside::part(Part::Item, item),
        ) else {
            return None;
        };
        Some(ForeignItemStatic {
            attrs,
            vis,
            safety,
            item,
        })
    }
}

/// An item in an extern block, with its attributes and its visibility.
#[derive(Clone, Copy)]
pub struct ForeignParts<'t, 'a> {
    /// Its attributes.
    pub attrs: &'t Tree<'a>,
    /// Its visibility.
    pub vis: &'t Tree<'a>,
    /// What stands behind them.
    pub item: &'t Tree<'a>,
}

impl<'t, 'a> ForeignParts<'t, 'a> {
    /// What a tree is, if it is that, and is kept as it was read.
    #[tactic(auto, unfolding(syn_grammar::specs::Table::table))]
    pub fn of(tree: &'t Tree<'a>) -> Option<ForeignParts<'t, 'a>>
        ensures { MatchOption result (IsKept tree.now → IsShaped tree.now (g.ref k.AForeignItem) → ⊥)
            (λ x. tree.now ≡ foreign_parts x) }
    {
        let Some(inner) = inside::kept(Kind::AForeignItem, tree) else {
            return None;
        };
        let Some((attrs, vis, item)) = take::three(inner) else {
            return None;
        };
        let Some(vis) = inside::part(Part::Visibility, vis) else {
            return None;
        };
        Some(ForeignParts { attrs, vis, item })
    }
}
