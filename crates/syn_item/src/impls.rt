//! Impls.

ghost use Rattle.proc_macro2.specs.Token.{Token};
ghost use Rattle.proc_macro2.specs.declared.delimiter.Delimiter.{Delimiter as GivenDelimiter};
ghost use Rattle.std.specs.Prelude.{◌≡◌, Bool, List, MatchOption, ℕ};
ghost use Rattle.syn_grammar.specs.Gram as g;
ghost use Rattle.syn_grammar.specs.Items.{impl_form};
ghost use Rattle.syn_grammar.specs.Kind as k;
ghost use Rattle.syn_grammar.specs.Name as n;
ghost use Rattle.syn_item.specs.ItemImpls.{for_tree, impl_body_tree, impl_head, impl_inside, impl_items, item_impl};
ghost use Rattle.syn_item.specs.ItemParts.{braced_tree};
ghost use Rattle.syn_part.specs.Kept.{IsKept};
ghost use Rattle.syn_part.specs.Leaves.{optional_tree};
ghost use Rattle.syn_part.specs.Shape.{IsShaped};

use crate::modifiers::ImplModifiers;
use crate::part::{Braced, as_braced};
use reader_table::kind::Kind;
use reader_table::part::Part;
use reader_tree::tree::Tree;
use rust_leaf::ident::Ident;
use syn_part::leaf::{Delimiters, Mark};
use syn_part::list::Turns;
use syn_part::{inside, joined, take};

/// The trait that an impl is of, and `for`.
#[derive(Clone, Copy)]
pub struct ImplTrait<'t, 'a> {
    /// The trait, as a type that is a path.
    pub path: &'t Tree<'a>,
    /// `for`
    pub for_token: &'a Ident,
}

/// An impl: `default unsafe impl<T> !A for B where .. { .. }`, behind its attributes.
#[derive(Clone, Copy)]
pub struct ItemImpl<'t, 'a> {
    /// `default`, and the `!` of its trait.
    pub modifiers: ImplModifiers<'a>,
    /// `const`: the tokens of an item with one are kept.
    pub constness: Option<&'a Ident>,
    /// `unsafe`
    pub unsafety: Option<&'a Ident>,
    /// `impl`
    pub impl_token: &'a Ident,
    /// Its generic parameters, as a form of the kind `ImplGenerics`.
    pub generics: &'t Tree<'a>,
    /// The trait that it is of.
    pub trait_: Option<ImplTrait<'t, 'a>>,
    /// The type that it is for.
    pub self_ty: &'t Tree<'a>,
    /// Its where clause.
    pub where_clause: &'t Tree<'a>,
    /// The braces.
    pub brace_token: Delimiters,
    /// The attributes in them.
    pub attrs: &'t Tree<'a>,
    /// The items in them, as a form of the kind `ImplItems`.
    pub items: &'t Tree<'a>,
}

// `for` and a type.
#[derive(Clone, Copy)]
pub(crate) struct ForType<'t, 'a> {
    // `for`
    pub(crate) for_token: &'a Ident,
    // The type.
    pub(crate) self_ty: &'t Tree<'a>,
}

// `for` and a type, if they stand there.
fn optional_for<'t, 'a>(tree: &'t Tree<'a>) -> Option<Option<ForType<'t, 'a>>>
    ensures { MatchOption result ((s : List Token → Bool) (p : List ℕ → Bool) (a : g.Gram) → IsShaped tree.now (g.alt s
        (g.seq (g.word p) (g.called n.the_self a)) g.nothing) → ⊥) (λ o. tree.now ≡ optional_tree for_tree o) }
{
    match take::optional(tree) {
        None => None,
        Some(None) => Some(None),
        Some(Some(inner)) => {
            let Some((for_token, self_ty)) = take::pair(inner) else {
                return None;
            };
            match joined::two(take::word(for_token), inside::part(Part::SelfType, self_ty)) {
                Some((for_token, self_ty)) => Some(Some(ForType { for_token, self_ty })),
                None => None,
            }
        }
    }
}

// What an impl begins with.
#[derive(Clone, Copy)]
pub(crate) struct ImplHead<'t, 'a> {
    // `default`
    pub(crate) defaultness: Option<&'a Ident>,
    // `const`
    pub(crate) constness: Option<&'a Ident>,
    // `unsafe`
    pub(crate) unsafety: Option<&'a Ident>,
    // `impl`
    pub(crate) impl_token: &'a Ident,
    // The generic parameters.
    pub(crate) generics: &'t Tree<'a>,
    // `!`
    pub(crate) polarity: Option<Mark>,
}

// What an impl begins with, and what follows.
fn impl_front<'t, 'a>(tree: &'t Tree<'a>) -> Option<(ImplHead<'t, 'a>, &'t Tree<'a>)>
    ensures { MatchOption result ((s u v w : List Token → Bool) (i j l o : List ℕ → Bool) (c : ℕ) (cs : List ℕ)
        (a b : g.Gram) → IsShaped tree.now (g.seq (g.alt s (g.called n.the_default (g.word i)) g.nothing) (g.seq
        (g.alt u (g.called n.the_const (g.word j)) g.nothing) (g.seq (g.alt v (g.called n.the_safety
        (g.word l)) g.nothing) (g.seq (g.word o) (g.seq (g.called n.the_generics a) (g.seq (g.alt w
        (g.called n.the_polarity (g.mark c cs)) g.nothing) b)))))) → ⊥) (λ p. tree.now ≡ impl_head p.0 p.1.now) }
{
    let Some((defaultness, constness, unsafety, impl_token, generics, polarity, behind)) =
        take::seven(tree) else {
        return None;
    };
    let Some((defaultness, constness, unsafety, impl_token, generics, polarity)) = joined::six(
        inside::optional_word(Part::Default, defaultness),
        inside::optional_word(Part::Const, constness),
        inside::optional_word(Part::Safety, unsafety),
        take::word(impl_token),
        inside::part(Part::Generics, generics),
        inside::optional_mark(Part::Polarity, polarity),
    ) else {
        return None;
    };
    Some((
        ImplHead {
            defaultness,
            constness,
            unsafety,
            impl_token,
            generics,
            polarity,
        },
        behind,
    ))
}

// What an impl is for, and what stands in it.
#[derive(Clone, Copy)]
pub(crate) struct ImplBody<'t, 'a> {
    // The trait.
    pub(crate) trait_: Option<ImplTrait<'t, 'a>>,
    // The type.
    pub(crate) self_ty: &'t Tree<'a>,
    // The where clause.
    pub(crate) where_clause: &'t Tree<'a>,
    // The braces, and what stands in them.
    pub(crate) braced: Braced<'t, 'a>,
}

// Of two types, or of one, which is the trait's and which the impl's.
fn impl_body<'t, 'a>(tree: &'t Tree<'a>) -> Option<ImplBody<'t, 'a>>
    ensures { MatchOption result ((s : List Token → Bool) (p : List ℕ → Bool) (d : GivenDelimiter) (a b e i j : g.Gram)
        → IsShaped tree.now (g.seq (g.called n.the_first a) (g.seq (g.alt s (g.seq (g.word p)
        (g.called n.the_self b)) g.nothing) (g.seq (g.called n.the_where e) (g.group d (g.seq i j))))) → ⊥)
        (λ x. tree.now ≡ impl_body_tree x.trait_ x.self_ty x.where_clause (braced_tree x.braced)) }
{
    let Some((first, second, where_clause, body)) = take::four(tree) else {
        return None;
    };
    let Some((first, second, where_clause, braced)) = joined::four(
        inside::part(Part::First, first),
        optional_for(second),
        inside::part(Part::Where, where_clause),
        as_braced(body),
    ) else {
        return None;
    };
    match second {
        None => Some(ImplBody {
            trait_: None,
            self_ty: first,
            where_clause,
            braced,
        }),
        Some(ForType { for_token, self_ty }) => Some(ImplBody {
            trait_: Some(ImplTrait {
                path: first,
                for_token,
            }),
            self_ty,
            where_clause,
            braced,
        }),
    }
}

// An impl, by its form.
fn as_impl<'t, 'a>(tree: &'t Tree<'a>) -> Option<ItemImpl<'t, 'a>>
    ensures { MatchOption result (IsShaped tree.now impl_form → ⊥) (λ x. tree.now ≡ impl_inside x) }
{
    let Some((head, behind)) = impl_front(tree) else {
        return None;
    };
    let Some(body) = impl_body(behind) else {
        return None;
    };
    Some(ItemImpl {
        modifiers: ImplModifiers {
            defaultness: head.defaultness,
            polarity: head.polarity,
        },
        constness: head.constness,
        unsafety: head.unsafety,
        impl_token: head.impl_token,
        generics: head.generics,
        trait_: body.trait_,
        self_ty: body.self_ty,
        where_clause: body.where_clause,
        brace_token: body.braced.brace_token,
        attrs: body.braced.attrs,
        items: body.braced.items,
    })
}

impl<'t, 'a> ItemImpl<'t, 'a> {
    /// What a tree is, if it is that. What was read as one is kept as it was read.
    #[tactic(auto, unfolding(syn_grammar::specs::Table::table))]
    pub fn of(tree: &'t Tree<'a>) -> Option<ItemImpl<'t, 'a>>
        ensures { MatchOption result (IsKept tree.now → IsShaped tree.now (g.ref k.AnImpl) → ⊥)
            (λ x. tree.now ≡ item_impl x) }
    {
        let Some(inner) = inside::kept(Kind::AnImpl, tree) else {
            return None;
        };
        as_impl(inner)
    }
}

/// The items of an impl.
#[derive(Clone, Copy)]
pub struct ImplItems<'t, 'a> {
    /// Each, as a form of the kind `AnImplItem`.
    pub items: Turns<'t, 'a>,
}

impl<'t, 'a> ImplItems<'t, 'a> {
    /// What a tree is, if it is that.
    #[tactic(auto, unfolding(syn_grammar::specs::Table::table))]
    pub fn of(tree: &'t Tree<'a>) -> Option<ImplItems<'t, 'a>>
        ensures { MatchOption result (IsShaped tree.now (g.ref k.ImplItems) → ⊥) (λ x. tree.now ≡ impl_items x) }
    {
        let Some(inner) = inside::node(Kind::ImplItems, tree) else {
            return None;
        };
        let Some(items) = take::each_turn(inner) else {
            return None;
        };
        Some(ImplItems { items })
    }
}
