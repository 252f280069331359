//! Attributes.

ghost use Rattle.proc_macro2.specs.Token.{Token};
ghost use Rattle.std.specs.Prelude.{◌≡◌, ◌⊎◌, MatchOption, Bool, List, ℕ, false};
ghost use Rattle.syn_ast.specs.Attributes.{attribute, inner_attributes, meta, meta_path_tree, meta_value_tree};
ghost use Rattle.syn_ast.specs.Attributes.{outer_attributes};
ghost use Rattle.syn_grammar.specs.Gram as g;
ghost use Rattle.syn_grammar.specs.Kind as k;
ghost use Rattle.syn_grammar.specs.Name as n;
ghost use Rattle.syn_part.specs.Shape.{IsShaped, may_choose};

use reader_table::kind::Kind;
use reader_table::part::Part;
use reader_tree::tree::Tree;
use rust_leaf::ident::Ident;
use syn_part::leaf::{Delimiters, Mark};
use syn_part::list::Turns;
use syn_part::take::{self, Choice, Choice3};
use syn_part::{inside, joined};

/// Outer attributes.
#[derive(Clone, Copy)]
pub struct OuterAttributes<'t, 'a> {
    /// Each, as a form of the kind `OuterAttribute`.
    pub attrs: Turns<'t, 'a>,
}

impl<'t, 'a> OuterAttributes<'t, 'a> {
    /// A tree of the kind `OuterAttributes`, as its parts. `None` only of trees that have another shape.
    #[tactic(auto, unfolding(syn_grammar::specs::Table::table))]
    pub fn of(tree: &'t Tree<'a>) -> Option<OuterAttributes<'t, 'a>>
        ensures { MatchOption result (IsShaped tree.now (g.ref k.OuterAttributes) → ⊥)
            (λ x. tree.now ≡ outer_attributes x) }
    {
        let Some(inner) = inside::node(Kind::OuterAttributes, tree) else {
            return None;
        };
        let Some(attrs) = take::each_turn(inner) else {
            return None;
        };
        Some(OuterAttributes { attrs })
    }
}

/// Inner attributes.
#[derive(Clone, Copy)]
pub struct InnerAttributes<'t, 'a> {
    /// Each, as a form of the kind `InnerAttribute`.
    pub attrs: Turns<'t, 'a>,
}

impl<'t, 'a> InnerAttributes<'t, 'a> {
    /// A tree of the kind `InnerAttributes`, as its parts. `None` only of trees that have another shape.
    #[tactic(auto, unfolding(syn_grammar::specs::Table::table))]
    pub fn of(tree: &'t Tree<'a>) -> Option<InnerAttributes<'t, 'a>>
        ensures { MatchOption result (IsShaped tree.now (g.ref k.InnerAttributes) → ⊥)
            (λ x. tree.now ≡ inner_attributes x) }
    {
        let Some(inner) = inside::node(Kind::InnerAttributes, tree) else {
            return None;
        };
        let Some(attrs) = take::each_turn(inner) else {
            return None;
        };
        Some(InnerAttributes { attrs })
    }
}

/// Whether an attribute stands before what it is of, or within that.
#[derive(Clone, Copy)]
pub enum AttrStyle {
    /// Before it: `#[a]`.
    Outer,
    /// Within it, with its `!`: `#![a]`.
    Inner(Mark),
}

/// An attribute: `#[a]`, `#![a]`.
#[derive(Clone, Copy)]
pub struct Attribute<'t, 'a> {
    /// `#`
    pub pound_token: Mark,
    /// Whether it stands before what it is of.
    pub style: AttrStyle,
    /// The brackets.
    pub bracket_token: Delimiters,
    /// What stands in them, as a form of the kind `Meta`.
    pub meta: &'t Tree<'a>,
}

impl<'t, 'a> Attribute<'t, 'a> {
    // One before what it is of.
    #[tactic(auto, unfolding(syn_grammar::specs::Table::table))]
    fn outer(tree: &'t Tree<'a>) -> Option<Attribute<'t, 'a>>
        ensures { MatchOption result (IsShaped tree.now (g.ref k.OuterAttribute) → ⊥) (λ x. tree.now ≡ attribute x) }
    {
        let Some((pound_token, bracketed)) = inside::pair(Kind::OuterAttribute, tree) else {
            return None;
        };
        let Some(pound_token) = take::mark(pound_token) else {
            return None;
        };
        let Some((bracket_token, meta)) = take::group(bracketed) else {
            return None;
        };
        Some(Attribute {
            pound_token,
            style: AttrStyle::Outer,
            bracket_token,
            meta,
        })
    }

    // One within it.
    #[tactic(auto, unfolding(syn_grammar::specs::Table::table))]
    fn inner(tree: &'t Tree<'a>) -> Option<Attribute<'t, 'a>>
        ensures { MatchOption result (IsShaped tree.now (g.ref k.InnerAttribute) → ⊥) (λ x. tree.now ≡ attribute x) }
    {
        let Some((pound_token, not_token, bracketed)) = inside::three(Kind::InnerAttribute, tree)
        else {
            return None;
        };
        let Some((bracket_token, meta)) = take::group(bracketed) else {
            return None;
        };
        let Some((pound_token, not_token)) = joined::two(
            take::mark(pound_token),
            take::mark(not_token),
        ) else {
            return None;
        };
        Some(Attribute {
            pound_token,
            style: AttrStyle::Inner(not_token),
            bracket_token,
            meta,
        })
    }

    /// A tree of the kind `OuterAttribute` or `InnerAttribute`, as its parts. `None` only of trees that have another
    /// shape.
    pub fn of(tree: &'t Tree<'a>) -> Option<Attribute<'t, 'a>>
        ensures { MatchOption result (IsShaped tree.now (g.ref k.OuterAttribute)
            ⊎ IsShaped tree.now (g.ref k.InnerAttribute) → ⊥) (λ x. tree.now ≡ attribute x) }
    {
        match Attribute::outer(tree) {
            Some(found) => Some(found),
            None => Attribute::inner(tree),
        }
    }
}

/// The path of an attribute.
#[derive(Clone, Copy)]
pub enum MetaPath<'t, 'a> {
    /// `unsafe`
    Unsafe(&'a Ident),
    /// A path, as a form of the kind `Path`.
    Path(&'t Tree<'a>),
}

/// What stands in an attribute, with tokens in a group: `a(b)`.
#[derive(Clone, Copy)]
pub struct MetaList<'t, 'a> {
    /// Its path.
    pub path: MetaPath<'t, 'a>,
    /// Its delimiters and the tokens in them, as a form of the kind `Delimited`.
    pub delimited: &'t Tree<'a>,
}

/// What stands in an attribute, with a value: `a = b`.
#[derive(Clone, Copy)]
pub struct MetaNameValue<'t, 'a> {
    /// Its path.
    pub path: MetaPath<'t, 'a>,
    /// `=`
    pub eq_token: Mark,
    /// Its value, as an expression.
    pub value: &'t Tree<'a>,
}

/// What stands in an attribute.
#[derive(Clone, Copy)]
pub enum Meta<'t, 'a> {
    /// A path: `a`.
    Path(MetaPath<'t, 'a>),
    /// A path and tokens in a group: `a(b)`.
    List(MetaList<'t, 'a>),
    /// A path and a value: `a = b`.
    NameValue(MetaNameValue<'t, 'a>),
}

// The path of an attribute: `unsafe`, or another.
fn as_meta_path<'t, 'a>(tree: &'t Tree<'a>) -> Option<MetaPath<'t, 'a>>
    ensures { MatchOption result ((test : List Token → Bool) (p : List ℕ → Bool) (a : g.Gram) → may_choose a ≡ false
        → IsShaped tree.now (g.alt test (g.word p) a) → ⊥)
        (λ x. tree.now ≡ meta_path_tree x) }
{
    let Some(which) = take::chosen(tree) else {
        return None;
    };
    match which {
        Choice::First(inner) => match take::word(inner) {
            Some(word) => Some(MetaPath::Unsafe(word)),
            None => None,
        },
        Choice::Second(inner) => Some(MetaPath::Path(inner)),
    }
}

// = and a value, which does not begin with #.
fn as_meta_value<'t, 'a>(tree: &'t Tree<'a>) -> Option<(Mark, &'t Tree<'a>)>
    ensures { MatchOption result ((c : ℕ) (cs : List ℕ) (test : List Token → Bool) (a : g.Gram) → IsShaped tree.now
        (g.seq (g.mark c cs) (g.alt test g.never (g.called n.the_value a))) → ⊥)
        (λ p. tree.now ≡ meta_value_tree p.0 p.1.now) }
{
    let Some((eq_token, value)) = take::pair(tree) else {
        return None;
    };
    let Some((eq_token, Choice::Second(value))) = joined::two(
        take::mark(eq_token),
        take::chosen(value),
    ) else {
        return None;
    };
    let Some(value) = inside::part(Part::Value, value) else {
        return None;
    };
    Some((eq_token, value))
}

impl<'t, 'a> Meta<'t, 'a> {
    /// A tree of the kind `Meta`, as its parts. `None` only of trees that have another shape.
    #[tactic(auto, unfolding(syn_grammar::specs::Table::table))]
    pub fn of(tree: &'t Tree<'a>) -> Option<Meta<'t, 'a>>
        ensures { MatchOption result (IsShaped tree.now (g.ref k.Meta) → ⊥) (λ x. tree.now ≡ meta x) }
    {
        let Some((path, behind)) = inside::pair(Kind::Meta, tree) else {
            return None;
        };
        let Some((path, which)) = joined::two(as_meta_path(path), take::chosen3(behind)) else {
            return None;
        };
        match which {
            Choice3::First(delimited) => Some(Meta::List(MetaList { path, delimited })),
            Choice3::Second(inner) => match as_meta_value(inner) {
                Some((eq_token, value)) => Some(Meta::NameValue(MetaNameValue {
                    path,
                    eq_token,
                    value,
                })),
                None => None,
            },
            Choice3::Third(inner) => if take::is_nothing(inner) {
                Some(Meta::Path(path))
            } else {
                None
            },
        }
    }
}
