//! The items of traits, impls and extern blocks, by their form.

ghost use Rattle.proc_macro2.specs.Token.{Token};
ghost use Rattle.std.specs.Prelude.{◌≡◌, Bool, IfSome, List, MatchOption};
ghost use Rattle.syn_grammar.specs.Gram as g;
ghost use Rattle.syn_grammar.specs.Gram.{Verdict as GivenVerdict};
ghost use Rattle.syn_grammar.specs.Items.{safety};
ghost use Rattle.syn_grammar.specs.Kind as k;
ghost use Rattle.syn_grammar.specs.Name as n;
ghost use Rattle.syn_grammar.specs.Tree as t;
ghost use Rattle.syn_grammar.specs.Tree.{Tree as GivenTree};
ghost use Rattle.syn_item.specs.ItemFunctions.{IsSafety};
ghost use Rattle.syn_item.specs.ItemMembers.{associated_inside, associated_item, foreign_item, foreign_static};
ghost use Rattle.syn_item.specs.ItemMembers.{form_of_foreign_item, form_of_impl_item, form_of_trait_item};
ghost use Rattle.syn_part.specs.Shape.{IsShaped};

use crate::alias::ItemType;
use crate::constant::ItemConst;
use crate::function::{ItemFn, Safety, as_foreign_safety};
use crate::judged::{Judged, verdict_on};
use crate::macros::ItemMacro;
use reader_table::kind::Kind;
use reader_table::part::Part;
use reader_tree::tree::Tree;
use syn_part::take::{self, Choice5};
use syn_part::{inside, joined};

/// A function of a trait.
pub type TraitItemFn<'t, 'a> = ItemFn<'t, 'a>;

/// A constant of a trait.
pub type TraitItemConst<'t, 'a> = ItemConst<'t, 'a>;

/// A type of a trait.
pub type TraitItemType<'t, 'a> = ItemType<'t, 'a>;

/// A macro in a trait.
pub type TraitItemMacro<'t, 'a> = ItemMacro<'t, 'a>;

/// A function of an impl.
pub type ImplItemFn<'t, 'a> = ItemFn<'t, 'a>;

/// A constant of an impl.
pub type ImplItemConst<'t, 'a> = ItemConst<'t, 'a>;

/// A type of an impl.
pub type ImplItemType<'t, 'a> = ItemType<'t, 'a>;

/// A macro in an impl.
pub type ImplItemMacro<'t, 'a> = ItemMacro<'t, 'a>;

/// A function of an extern block.
pub type ForeignItemFn<'t, 'a> = ItemFn<'t, 'a>;

/// A type of an extern block.
pub type ForeignItemType<'t, 'a> = ItemType<'t, 'a>;

/// A macro in an extern block.
pub type ForeignItemMacro<'t, 'a> = ItemMacro<'t, 'a>;

/// Which form an item of a trait or an impl has.
#[derive(Clone, Copy)]
pub enum AssociatedForm {
    /// A constant.
    Const,
    /// A function.
    Fn,
    /// A type.
    Type,
    /// A macro.
    Macro,
    /// One that is kept as its tokens.
    Verbatim,
}

/// An item of a trait or an impl, by its form.
#[derive(Clone, Copy)]
pub struct AssociatedItem<'t, 'a> {
    /// Which form it has.
    pub form: AssociatedForm,
    /// That form, as `ItemConst`, `ItemFn`, `ItemType` or `ItemMacro` has it; of one that is kept as its tokens, all
    /// that was read, whose leaves they are, attributes and visibility among them.
    pub tree: &'t Tree<'a>,
}

/// An item of a trait, by its form.
pub type TraitItem<'t, 'a> = AssociatedItem<'t, 'a>;

/// An item of an impl, by its form.
pub type ImplItem<'t, 'a> = AssociatedItem<'t, 'a>;

impl<'t, 'a> AssociatedItem<'t, 'a> {
    // One that is kept as it was read, as it was chosen.
    #[tactic(auto, using(syn_part::proofs::Absent::shaped_never))]
    fn chosen(tree: &'t Tree<'a>) -> Option<AssociatedItem<'t, 'a>>
        ensures { MatchOption result ((s u v w : List Token → Bool) (a b c d : g.Gram) → IsShaped tree.now (g.alt s a
            (g.alt u b (g.alt v c (g.alt w d g.never)))) → ⊥)
            (λ x. tree.now ≡ associated_item x) }
    {
        match take::chosen5(tree) {
            Some(Choice5::First(tree)) => {
                let form = AssociatedForm::Fn;
                Some(AssociatedItem { form, tree })
            }
            Some(Choice5::Second(tree)) => {
                let form = AssociatedForm::Const;
                Some(AssociatedItem { form, tree })
            }
            Some(Choice5::Third(tree)) => {
                let form = AssociatedForm::Type;
                Some(AssociatedItem { form, tree })
            }
            Some(Choice5::Fourth(tree)) => {
                let form = AssociatedForm::Macro;
                Some(AssociatedItem { form, tree })
            }
            Some(Choice5::Fifth(_)) => None,
            None => None,
        }
    }

    // One, by what is judged of it.
    fn of_judged(tree: &'t Tree<'a>) -> Option<AssociatedItem<'t, 'a>>
        ensures { MatchOption result ((i : GivenTree → GivenVerdict) (s u v w : List Token → Bool)
            (a b c d e f h : g.Gram) → IsShaped tree.now (g.judged i (g.seq e (g.seq f (g.seq h (g.called n.the_item
            (g.alt s a (g.alt u b (g.alt v c (g.alt w d g.never)))))))))
            → ⊥)
            (λ x. associated_inside tree.now ≡ associated_item x) }
    {
        match verdict_on(tree)? {
            Judged::Kept(parts) => {
                let (_, _, _, item) = take::four(parts)?;
                let item = inside::part(Part::Item, item)?;
                AssociatedItem::chosen(item)
            }
            Judged::Raw(tree) => Some(AssociatedItem {
                form: AssociatedForm::Verbatim,
                tree,
            }),
        }
    }

    /// The item that a tree is, by its form, if the tree is an item of a trait.
    #[tactic(auto, unfolding(syn_grammar::specs::Table::table))]
    pub fn in_trait(tree: &'t Tree<'a>) -> Option<TraitItem<'t, 'a>>
        ensures { MatchOption result (IsShaped tree.now (g.ref k.ATraitItem) → ⊥)
            (λ x. form_of_trait_item tree.now ≡ associated_item x) }
    {
        let Some(inner) = inside::node(Kind::ATraitItem, tree) else {
            return None;
        };
        AssociatedItem::of_judged(inner)
    }

    /// The item that a tree is, by its form, if the tree is an item of an impl.
    #[tactic(auto, unfolding(syn_grammar::specs::Table::table))]
    pub fn in_impl(tree: &'t Tree<'a>) -> Option<ImplItem<'t, 'a>>
        ensures { MatchOption result (IsShaped tree.now (g.ref k.AnImplItem) → ⊥)
            (λ x. form_of_impl_item tree.now ≡ associated_item x) }
    {
        let Some(inner) = inside::node(Kind::AnImplItem, tree) else {
            return None;
        };
        AssociatedItem::of_judged(inner)
    }
}

/// A static of an extern block: `unsafe static A: T;`, behind its attributes and its visibility.
#[derive(Clone, Copy)]
pub struct ForeignStatic<'t, 'a> {
    /// Whether it is safe to use.
    pub safety: Safety<'a>,
    /// The static, as a form of the kind `AStatic`.
    pub item: &'t Tree<'a>,
}

impl<'t, 'a> ForeignStatic<'t, 'a> {
    /// What a tree is, if it is that: what `ForeignItem` has of a static.
    pub fn of(tree: &'t Tree<'a>) -> Option<ForeignStatic<'t, 'a>>
        ensures tree_is { MatchOption result (IsShaped tree.now (g.seq (safety k.InForeign) (g.called n.the_item
            (g.ref k.AStatic))) → ⊥)
            (λ x. tree.now ≡ foreign_static x) }
        ensures which { IfSome result (λ x. IsSafety x.safety) }
    {
        let Some((safety, item)) = take::pair(tree) else {
            return None;
        };
        let Some((safety, item)) = joined::two(
            as_foreign_safety(safety),
            inside::part(Part::Item, item),
        ) else {
            return None;
        };
        Some(ForeignStatic { safety, item })
    }
}

/// Which form an item of an extern block has.
#[derive(Clone, Copy)]
pub enum ForeignForm {
    /// A function.
    Fn,
    /// A static.
    Static,
    /// A type.
    Type,
    /// A macro.
    Macro,
    /// One that is kept as its tokens.
    Verbatim,
}

/// An item of an extern block, by its form.
#[derive(Clone, Copy)]
pub struct ForeignItem<'t, 'a> {
    /// Which form it has.
    pub form: ForeignForm,
    /// That form, as `ItemFn`, `ForeignStatic`, `ItemType` or `ItemMacro` has it; of one that is kept as its tokens,
    /// all that was read, whose leaves they are, attributes and visibility among them.
    pub tree: &'t Tree<'a>,
}

impl<'t, 'a> ForeignItem<'t, 'a> {
    // One of a form, by its name.
    fn named(form: ForeignForm, tree: &'t Tree<'a>) -> Option<ForeignItem<'t, 'a>>
        ensures { MatchOption result ((a : g.Gram) → IsShaped tree.now (g.called n.the_item a) → ⊥)
            (λ x. (x.form ≡ form) × (tree.now ≡ t.Called n.the_item x.tree.now)) }
    {
        match inside::part(Part::Item, tree) {
            Some(tree) => Some(ForeignItem { form, tree }),
            None => None,
        }
    }

    // One that is kept as it was read, as it was chosen.
    #[tactic(auto, using(syn_part::proofs::Absent::shaped_never))]
    fn chosen(tree: &'t Tree<'a>) -> Option<ForeignItem<'t, 'a>>
        ensures { MatchOption result ((s u v w : List Token → Bool) (a b c d : g.Gram) → IsShaped tree.now (g.alt s
            (g.called n.the_item a) (g.alt u b (g.alt v (g.called n.the_item c) (g.alt w (g.called n.the_item d)
            g.never)))) → ⊥)
            (λ x. tree.now ≡ foreign_item x) }
    {
        match take::chosen5(tree) {
            Some(Choice5::First(inner)) => ForeignItem::named(ForeignForm::Fn, inner),
            Some(Choice5::Second(tree)) => {
                let form = ForeignForm::Static;
                Some(ForeignItem { form, tree })
            }
            Some(Choice5::Third(inner)) => ForeignItem::named(ForeignForm::Type, inner),
            Some(Choice5::Fourth(inner)) => ForeignItem::named(ForeignForm::Macro, inner),
            Some(Choice5::Fifth(_)) => None,
            None => None,
        }
    }

    /// The item that a tree is, by its form, if the tree is an item of an extern block.
    #[tactic(auto, unfolding(syn_grammar::specs::Table::table))]
    pub fn of(tree: &'t Tree<'a>) -> Option<ForeignItem<'t, 'a>>
        ensures { MatchOption result (IsShaped tree.now (g.ref k.AForeignItem) → ⊥)
            (λ x. form_of_foreign_item tree.now ≡ foreign_item x) }
    {
        let Some(inner) = inside::node(Kind::AForeignItem, tree) else {
            return None;
        };
        let Some(found) = verdict_on(inner) else {
            return None;
        };
        match found {
            Judged::Kept(parts) => {
                let Some((_, _, item)) = take::three(parts) else {
                    return None;
                };
                ForeignItem::chosen(item)
            }
            Judged::Raw(tree) => Some(ForeignItem {
                form: ForeignForm::Verbatim,
                tree,
            }),
        }
    }
}
