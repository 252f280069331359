//! Traits and aliases of traits.

ghost use Rattle.proc_macro2.specs.declared.delimiter.Delimiter.{Delimiter as GivenDelimiter};
ghost use Rattle.std.specs.Prelude.{◌≡◌, List, MatchOption, ℕ};
ghost use Rattle.syn_grammar.specs.Gram as g;
ghost use Rattle.syn_grammar.specs.Items.{trait_form};
ghost use Rattle.syn_grammar.specs.Kind as k;
ghost use Rattle.syn_grammar.specs.Name as n;
ghost use Rattle.syn_grammar.specs.Tree as t;
ghost use Rattle.syn_item.specs.ItemTraits.{IsAlias, IsTrait, item_trait, item_trait_alias, trait_form_inside};
ghost use Rattle.syn_item.specs.ItemTraits.{trait_form_tree, trait_head, trait_items};
ghost use Rattle.syn_part.specs.Kept.{IsKept};
ghost use Rattle.syn_part.specs.Shape.{IsShaped};

use crate::modifiers::TraitModifiers;
use crate::part::as_braced;
use reader_table::kind::Kind;
use reader_table::part::Part;
use reader_tree::tree::Tree;
use rust_leaf::ident::Ident;
use syn_part::leaf::{Delimiters, Mark};
use syn_part::list::Turns;
use syn_part::take::{self, Choice};
use syn_part::{inside, joined};

/// A trait: `unsafe auto trait A<T>: B where .. { .. }`, behind its attributes and its visibility.
#[derive(Clone, Copy)]
pub struct ItemTrait<'t, 'a> {
    /// `auto`
    pub modifiers: TraitModifiers<'a>,
    /// `unsafe`
    pub unsafety: Option<&'a Ident>,
    /// `trait`
    pub trait_token: &'a Ident,
    /// Its name.
    pub ident: &'a Ident,
    /// Its generic parameters.
    pub generics: &'t Tree<'a>,
    /// `:` and its supertraits, as a form of the kind `BoundsColon`.
    pub supertraits: &'t Tree<'a>,
    /// Its where clause.
    pub where_clause: &'t Tree<'a>,
    /// The braces.
    pub brace_token: Delimiters,
    /// The attributes in them.
    pub attrs: &'t Tree<'a>,
    /// The items in them, as a form of the kind `TraitItems`.
    pub items: &'t Tree<'a>,
}

/// An alias of traits: `trait A<T> = B where ..;`, behind its attributes and its visibility.
#[derive(Clone, Copy)]
pub struct ItemTraitAlias<'t, 'a> {
    /// `unsafe`, which none that was read has.
    pub unsafety: Option<&'a Ident>,
    /// `auto`, which none that was read has.
    pub auto_token: Option<&'a Ident>,
    /// `trait`
    pub trait_token: &'a Ident,
    /// Its name.
    pub ident: &'a Ident,
    /// Its generic parameters.
    pub generics: &'t Tree<'a>,
    /// `=`
    pub eq_token: Mark,
    /// The bounds.
    pub bounds: &'t Tree<'a>,
    /// Its where clause.
    pub where_clause: &'t Tree<'a>,
    /// `;`
    pub semi_token: Mark,
}

/// A trait, or an alias of traits.
#[derive(Clone, Copy)]
pub enum TraitForm<'t, 'a> {
    /// A trait.
    Trait(ItemTrait<'t, 'a>),
    /// An alias.
    Alias(ItemTraitAlias<'t, 'a>),
}

// What a trait and an alias begin with.
#[derive(Clone, Copy)]
pub(crate) struct TraitHead<'t, 'a> {
    // `unsafe`
    pub(crate) unsafety: Option<&'a Ident>,
    // `auto`
    pub(crate) auto_token: Option<&'a Ident>,
    // `trait`
    pub(crate) trait_token: &'a Ident,
    // The name.
    pub(crate) ident: &'a Ident,
    // The generic parameters.
    pub(crate) generics: &'t Tree<'a>,
}

// An alias, by what stands behind its head.
fn with_alias_end<'t, 'a>(head: TraitHead<'t, 'a>, tree: &'t Tree<'a>) -> Option<TraitForm<'t, 'a>>
    ensures { MatchOption result ((c d : ℕ) (cs ds : List ℕ) (a b : g.Gram) → IsShaped tree.now (g.seq
        (g.called n.the_equals (g.mark c cs)) (g.seq a (g.seq (g.called n.the_where b) (g.mark d ds)))) → ⊥)
        (λ x. trait_head head.entry (t.First tree.now) ≡ trait_form_inside x) }
{
    let Some((eq_token, bounds, where_clause, semi_token)) = take::four(tree) else {
        return None;
    };
    let Some((eq_token, where_clause, semi_token)) = joined::three(
        inside::mark(Part::Equals, eq_token),
        inside::part(Part::Where, where_clause),
        take::mark(semi_token),
    ) else {
        return None;
    };
    Some(TraitForm::Alias(ItemTraitAlias {
        unsafety: head.unsafety,
        auto_token: head.auto_token,
        trait_token: head.trait_token,
        ident: head.ident,
        generics: head.generics,
        eq_token,
        bounds,
        where_clause,
        semi_token,
    }))
}

// A trait, by what stands behind its head.
fn with_trait_end<'t, 'a>(head: TraitHead<'t, 'a>, tree: &'t Tree<'a>) -> Option<TraitForm<'t, 'a>>
    ensures { MatchOption result ((d : GivenDelimiter) (a b i j : g.Gram) → IsShaped tree.now (g.seq a (g.seq
        (g.called n.the_where b) (g.group d (g.seq i j)))) → ⊥)
        (λ x. trait_head head.entry (t.Second tree.now) ≡ trait_form_inside x) }
{
    let Some((supertraits, where_clause, body)) = take::three(tree) else {
        return None;
    };
    let Some((where_clause, body)) = joined::two(
        inside::part(Part::Where, where_clause),
        as_braced(body),
    ) else {
        return None;
    };
    Some(TraitForm::Trait(ItemTrait {
        modifiers: TraitModifiers {
            auto_token: head.auto_token,
        },
        unsafety: head.unsafety,
        trait_token: head.trait_token,
        ident: head.ident,
        generics: head.generics,
        supertraits,
        where_clause,
        brace_token: body.brace_token,
        attrs: body.attrs,
        items: body.items,
    }))
}

// A trait, or an alias.
fn as_trait_form<'t, 'a>(tree: &'t Tree<'a>) -> Option<TraitForm<'t, 'a>>
    ensures { MatchOption result (IsShaped tree.now trait_form → ⊥) (λ x. tree.now ≡ trait_form_inside x) }
{
    let Some((unsafety, auto_token, trait_token, ident, generics, end)) = take::six(tree) else {
        return None;
    };
    let Some((unsafety, auto_token, trait_token, ident, generics, end)) = joined::six(
        inside::optional_word(Part::Safety, unsafety),
        inside::optional_word(Part::Auto, auto_token),
        take::word(trait_token),
        inside::word(Part::Name, ident),
        inside::part(Part::Generics, generics),
        take::chosen(end),
    ) else {
        return None;
    };
    let head = TraitHead {
        unsafety,
        auto_token,
        trait_token,
        ident,
        generics,
    };
    match end {
        Choice::First(alias) => with_alias_end(head, alias),
        Choice::Second(body) => with_trait_end(head, body),
    }
}

impl<'t, 'a> TraitForm<'t, 'a> {
    /// What a tree is, if it is that. What was read as a trait or an alias is kept as it was read.
    #[tactic(auto, unfolding(syn_grammar::specs::Table::table))]
    pub fn of(tree: &'t Tree<'a>) -> Option<TraitForm<'t, 'a>>
        ensures { MatchOption result (IsKept tree.now → IsShaped tree.now (g.ref k.ATrait) → ⊥)
            (λ x. tree.now ≡ trait_form_tree x) }
    {
        let Some(inner) = inside::kept(Kind::ATrait, tree) else {
            return None;
        };
        as_trait_form(inner)
    }
}

impl<'t, 'a> ItemTrait<'t, 'a> {
    /// What a tree is, if it is that: a trait, and no alias. What was read as one is kept as it was read.
    pub fn of(tree: &'t Tree<'a>) -> Option<ItemTrait<'t, 'a>>
        ensures { MatchOption result (IsKept tree.now → IsShaped tree.now (g.ref k.ATrait) → IsTrait tree.now → ⊥)
            (λ x. tree.now ≡ item_trait x) }
    {
        match TraitForm::of(tree) {
            Some(TraitForm::Trait(found)) => Some(found),
            Some(TraitForm::Alias(_)) => None,
            None => None,
        }
    }
}

impl<'t, 'a> ItemTraitAlias<'t, 'a> {
    /// What a tree is, if it is that: an alias of traits. What was read as one is kept as it was read.
    pub fn of(tree: &'t Tree<'a>) -> Option<ItemTraitAlias<'t, 'a>>
        ensures { MatchOption result (IsKept tree.now → IsShaped tree.now (g.ref k.ATrait) → IsAlias tree.now → ⊥)
            (λ x. tree.now ≡ item_trait_alias x) }
    {
        match TraitForm::of(tree) {
            Some(TraitForm::Alias(found)) => Some(found),
            Some(TraitForm::Trait(_)) => None,
            None => None,
        }
    }
}

/// The items of a trait.
#[derive(Clone, Copy)]
pub struct TraitItems<'t, 'a> {
    /// Each, as a form of the kind `ATraitItem`.
    pub items: Turns<'t, 'a>,
}

impl<'t, 'a> TraitItems<'t, 'a> {
    /// What a tree is, if it is that.
    #[tactic(auto, unfolding(syn_grammar::specs::Table::table))]
    pub fn of(tree: &'t Tree<'a>) -> Option<TraitItems<'t, 'a>>
        ensures { MatchOption result (IsShaped tree.now (g.ref k.TraitItems) → ⊥) (λ x. tree.now ≡ trait_items x) }
    {
        let Some(inner) = inside::node(Kind::TraitItems, tree) else {
            return None;
        };
        let Some(items) = take::each_turn(inner) else {
            return None;
        };
        Some(TraitItems { items })
    }
}
