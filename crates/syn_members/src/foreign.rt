//! The items of extern blocks, by their form.

ghost use Rattle.proc_macro2.specs.Token.{Token};
ghost use Rattle.std.specs.Prelude.{◌≡◌, Bool, List, MatchOption};
ghost use Rattle.syn_grammar.specs.Gram as g;
ghost use Rattle.syn_grammar.specs.Items.{safety};
ghost use Rattle.syn_grammar.specs.Kind as k;
ghost use Rattle.syn_grammar.specs.Name as n;
ghost use Rattle.syn_grammar.specs.Tree as t;
ghost use Rattle.syn_item.specs.ItemMembers.{form_of_foreign_item};
ghost use Rattle.syn_members.specs.Foreign.{IsForeign};
ghost use Rattle.syn_part.specs.Shape.{IsShaped};

use reader_table::kind::Kind;
use reader_table::part::Part;
use reader_tree::tree::Tree;
use syn_item::alias::ItemType;
use syn_item::function::ItemFn;
use syn_item::judged::{Judged, verdict_on};
use syn_item::macros::ItemMacro;
use syn_item::members::ForeignStatic;
use syn_part::inside;
use syn_part::take::{self, Choice5};

/// An item of an extern block, by its form, behind its attributes and its visibility.
#[derive(Clone, Copy)]
pub enum ForeignItem<'t, 'a> {
    /// `fn a();`
    Fn(ItemFn<'t, 'a>),
    /// `static A: T;`
    Static(ForeignStatic<'t, 'a>),
    /// `type A;`
    Type(ItemType<'t, 'a>),
    /// `a! { .. }`
    Macro(ItemMacro<'t, 'a>),
    /// One that is kept as its tokens: all that was read, attributes and visibility among it, whose leaves they are.
    Verbatim(&'t Tree<'a>),
}

impl<'t, 'a> ForeignItem<'t, 'a> {
    // A function, as a part.
    fn function(tree: &'t Tree<'a>) -> Option<ForeignItem<'t, 'a>>
        ensures { MatchOption result ((p : k.Place) → IsShaped tree.now (g.called n.the_item (g.ref (k.AFunction p)))
            → ⊥) (λ x. IsForeign (t.First tree.now) x) }
    {
        let form = inside::part(Part::Item, tree)?;
        match ItemFn::of(form) {
            Some(found) => Some(ForeignItem::Fn(found)),
            None => None,
        }
    }

    // A type, as a part.
    fn alias(tree: &'t Tree<'a>) -> Option<ForeignItem<'t, 'a>>
        ensures { MatchOption result ((p : k.Place) → IsShaped tree.now (g.called n.the_item (g.ref (k.ATypeAlias p)))
            → ⊥) (λ x. IsForeign (t.Second (t.Second (t.First tree.now))) x) }
    {
        let form = inside::part(Part::Item, tree)?;
        match ItemType::of(form) {
            Some(found) => Some(ForeignItem::Type(found)),
            None => None,
        }
    }

    // A macro, as a part.
    fn call(tree: &'t Tree<'a>) -> Option<ForeignItem<'t, 'a>>
        ensures { MatchOption result ((p : k.Place) → IsShaped tree.now (g.called n.the_item (g.ref (k.ItemMacro p)))
            → ⊥) (λ x. IsForeign (t.Second (t.Second (t.Second (t.First tree.now)))) x) }
    {
        let form = inside::part(Part::Item, tree)?;
        match ItemMacro::of(form) {
            Some(found) => Some(ForeignItem::Macro(found)),
            None => None,
        }
    }

    // One that is kept as it was read, as it was chosen.
    #[tactic(auto, using(syn_part::proofs::Absent::shaped_never))]
    fn chosen(tree: &'t Tree<'a>) -> Option<ForeignItem<'t, 'a>>
        ensures { MatchOption result ((p : k.Place) (s u v w : List Token → Bool) → IsShaped tree.now (g.alt s
            (g.called n.the_item (g.ref (k.AFunction p))) (g.alt u (g.seq (safety k.InForeign) (g.called n.the_item
            (g.ref k.AStatic))) (g.alt v (g.called n.the_item (g.ref (k.ATypeAlias p))) (g.alt w (g.called n.the_item
            (g.ref (k.ItemMacro p))) g.never)))) → ⊥)
            (λ x. IsForeign tree.now x) }
    {
        match take::chosen5(tree) {
            Some(Choice5::First(inner)) => ForeignItem::function(inner),
            Some(Choice5::Second(inner)) => match ForeignStatic::of(inner) {
                Some(found) => Some(ForeignItem::Static(found)),
                None => None,
            },
            Some(Choice5::Third(inner)) => ForeignItem::alias(inner),
            Some(Choice5::Fourth(inner)) => ForeignItem::call(inner),
            Some(Choice5::Fifth(_)) => None,
            None => None,
        }
    }

    /// The item that a tree is, by its form, if the tree is an item of an extern block.
    #[tactic(auto, unfolding(syn_grammar::specs::Table::table))]
    pub fn of(tree: &'t Tree<'a>) -> Option<ForeignItem<'t, 'a>>
        ensures { MatchOption result (IsShaped tree.now (g.ref k.AForeignItem) → ⊥)
            (λ x. IsForeign (form_of_foreign_item tree.now) x) }
    {
        let Some(inner) = inside::node(Kind::AForeignItem, tree) else {
            return None;
        };
        let Some(found) = verdict_on(inner) else {
            return None;
        };
        match found {
            Judged::Kept(parts) => {
                let Some((_, _, item)) = take::three(parts) else {
                    return None;
                };
                ForeignItem::chosen(item)
            }
            Judged::Raw(tree) => Some(ForeignItem::Verbatim(tree)),
        }
    }
}
