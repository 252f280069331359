//! The items of traits and impls, by their form.

ghost use Rattle.proc_macro2.specs.Token.{Token};
ghost use Rattle.std.specs.Prelude.{◌≡◌, Bool, List, MatchOption};
ghost use Rattle.syn_grammar.specs.Gram as g;
ghost use Rattle.syn_grammar.specs.Gram.{Verdict as GivenVerdict};
ghost use Rattle.syn_grammar.specs.Kind as k;
ghost use Rattle.syn_grammar.specs.Name as n;
ghost use Rattle.syn_grammar.specs.Tree.{Tree as GivenTree};
ghost use Rattle.syn_item.specs.ItemMembers.{associated_inside, form_of_impl_item, form_of_trait_item};
ghost use Rattle.syn_members.specs.Associated.{IsAssociated};
ghost use Rattle.syn_part.specs.Shape.{IsShaped};

use reader_table::kind::Kind;
use reader_table::part::Part;
use reader_tree::tree::Tree;
use syn_item::alias::ItemType;
use syn_item::constant::ItemConst;
use syn_item::function::ItemFn;
use syn_item::judged::{Judged, verdict_on};
use syn_item::macros::ItemMacro;
use syn_part::inside;
use syn_part::take::{self, Choice5};

/// An item of a trait or an impl, by its form, behind its attributes, its visibility and `default`.
#[derive(Clone, Copy)]
pub enum AssociatedItem<'t, 'a> {
    /// `const A: T = b;`
    Const(ItemConst<'t, 'a>),
    /// `fn a(&self) { .. }`
    Fn(ItemFn<'t, 'a>),
    /// `type A: B;`
    Type(ItemType<'t, 'a>),
    /// `a! { .. }`
    Macro(ItemMacro<'t, 'a>),
    /// One that is kept as its tokens: all that was read, attributes and visibility among it, whose leaves they are.
    Verbatim(&'t Tree<'a>),
}

/// An item of a trait, by its form.
pub type TraitItem<'t, 'a> = AssociatedItem<'t, 'a>;

/// An item of an impl, by its form.
pub type ImplItem<'t, 'a> = AssociatedItem<'t, 'a>;

impl<'t, 'a> AssociatedItem<'t, 'a> {
    // One that is kept as it was read, as it was chosen.
    #[tactic(auto, using(syn_part::proofs::Absent::shaped_never))]
    fn chosen(tree: &'t Tree<'a>) -> Option<AssociatedItem<'t, 'a>>
        ensures { MatchOption result ((p : k.Place) (s u v w : List Token → Bool) → IsShaped tree.now (g.alt s
            (g.ref (k.AFunction p)) (g.alt u (g.ref k.AConst) (g.alt v (g.ref (k.ATypeAlias p)) (g.alt w
            (g.ref (k.ItemMacro p)) g.never)))) → ⊥)
            (λ x. IsAssociated tree.now x) }
    {
        match take::chosen5(tree) {
            Some(Choice5::First(form)) => match ItemFn::of(form) {
                Some(found) => Some(AssociatedItem::Fn(found)),
                None => None,
            },
            Some(Choice5::Second(form)) => match ItemConst::of(form) {
                Some(found) => Some(AssociatedItem::Const(found)),
                None => None,
            },
            Some(Choice5::Third(form)) => match ItemType::of(form) {
                Some(found) => Some(AssociatedItem::Type(found)),
                None => None,
            },
            Some(Choice5::Fourth(form)) => match ItemMacro::of(form) {
                Some(found) => Some(AssociatedItem::Macro(found)),
                None => None,
            },
            Some(Choice5::Fifth(_)) => None,
            None => None,
        }
    }

    // One, by what is judged of it.
    fn of_judged(tree: &'t Tree<'a>) -> Option<AssociatedItem<'t, 'a>>
        ensures { MatchOption result ((i : GivenTree → GivenVerdict) (p : k.Place) (s u v w : List Token → Bool)
            (a b c : g.Gram) → IsShaped tree.now (g.judged i (g.seq a (g.seq b (g.seq c (g.called n.the_item (g.alt s
            (g.ref (k.AFunction p)) (g.alt u (g.ref k.AConst) (g.alt v (g.ref (k.ATypeAlias p)) (g.alt w
            (g.ref (k.ItemMacro p)) g.never))))))))) → ⊥)
            (λ x. IsAssociated (associated_inside tree.now) x) }
    {
        match verdict_on(tree)? {
            Judged::Kept(parts) => {
                let (_, _, _, item) = take::four(parts)?;
                let item = inside::part(Part::Item, item)?;
                AssociatedItem::chosen(item)
            }
            Judged::Raw(tree) => Some(AssociatedItem::Verbatim(tree)),
        }
    }

    /// The item that a tree is, by its form, if the tree is an item of a trait.
    #[tactic(auto, unfolding(syn_grammar::specs::Table::table))]
    pub fn in_trait(tree: &'t Tree<'a>) -> Option<TraitItem<'t, 'a>>
        ensures { MatchOption result (IsShaped tree.now (g.ref k.ATraitItem) → ⊥)
            (λ x. IsAssociated (form_of_trait_item tree.now) x) }
    {
        let Some(inner) = inside::node(Kind::ATraitItem, tree) else {
            return None;
        };
        AssociatedItem::of_judged(inner)
    }

    /// The item that a tree is, by its form, if the tree is an item of an impl.
    #[tactic(auto, unfolding(syn_grammar::specs::Table::table))]
    pub fn in_impl(tree: &'t Tree<'a>) -> Option<ImplItem<'t, 'a>>
        ensures { MatchOption result (IsShaped tree.now (g.ref k.AnImplItem) → ⊥)
            (λ x. IsAssociated (form_of_impl_item tree.now) x) }
    {
        let Some(inner) = inside::node(Kind::AnImplItem, tree) else {
            return None;
        };
        AssociatedItem::of_judged(inner)
    }
}
