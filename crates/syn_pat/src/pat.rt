//! Patterns by their form, whichever entry they were read by.

ghost use Rattle.std.specs.Prelude.{◌≡◌, IfSome, MatchOption, cond, false, true};
ghost use Rattle.syn_grammar.specs.Gram as g;
ghost use Rattle.syn_grammar.specs.Kind as k;
ghost use Rattle.syn_grammar.specs.Patterns.{one_pattern};
ghost use Rattle.syn_part.specs.Shape.{IsAmong, IsShaped};
ghost use Rattle.syn_pat.specs.Pat.{IsAPattern, IsApart, IsRead, alternatives_tree, form_of_pat, is_rest_pattern};
ghost use Rattle.syn_pat.specs.Pat.{one_form};
ghost use Rattle.syn_pat.specs.Pat.{pat_tree, range_form, read_tree, started};
ghost use Rattle.syn_pat.specs.Patterns.{literal_pattern, pat_parenthesized, path_pattern};

use crate::patterns::{
    LiteralPattern, PatIdent, PatOr, PatParenthesized, PatRangeTo, PatReference, PatRest,
    PatSeveral, PatSlice, PatWild, PathBehind, PathPattern, RangeBound, RangeEnd, RangeLimits,
    SignedLit,
};
use reader_table::kind::Kind;
use reader_tree::tree::Tree;
use syn_part::leaf::Delimiters;
use syn_part::list::Elements;
use syn_part::{inside, take};

/// A literal: `1`, `-1`.
#[derive(Clone, Copy)]
pub struct PatLit<'a> {
    /// The literal.
    pub lit: SignedLit<'a>,
}

/// A pattern in parentheses: `(a)`.
#[derive(Clone, Copy)]
pub struct PatParen<'t, 'a> {
    /// The parentheses.
    pub paren_token: Delimiters,
    /// The pattern in them.
    pub pat: &'t Tree<'a>,
}

/// A tuple: `(a, b)`.
#[derive(Clone, Copy)]
pub struct PatTuple<'t, 'a> {
    /// The parentheses.
    pub paren_token: Delimiters,
    /// The patterns in them.
    pub elems: Elements<'t, 'a>,
}

/// A path alone: `a::B`.
#[derive(Clone, Copy)]
pub struct PatPath<'t, 'a> {
    /// The path, as a form of the kind `AnyPath`.
    pub path: &'t Tree<'a>,
}

/// A tuple struct: `A(b, c)`.
#[derive(Clone, Copy)]
pub struct PatTupleStruct<'t, 'a> {
    /// The path, as a form of the kind `AnyPath`.
    pub path: &'t Tree<'a>,
    /// The parentheses.
    pub paren_token: Delimiters,
    /// The patterns in them.
    pub elems: Elements<'t, 'a>,
}

/// A struct: `A { b, c: d, .. }`.
#[derive(Clone, Copy)]
pub struct PatStruct<'t, 'a> {
    /// The path, as a form of the kind `AnyPath`.
    pub path: &'t Tree<'a>,
    /// The fields in their braces, as a form of the kind `FieldPatterns`.
    pub fields: &'t Tree<'a>,
}

/// A range: `1..=2`, `..a`, `1..`.
#[derive(Clone, Copy)]
pub struct PatRange<'t, 'a> {
    /// Where it starts.
    pub start: Option<RangeBound<'t, 'a>>,
    /// `..=` or `..`
    pub limits: RangeLimits,
    /// Where it ends, as a form of the kind `RangeBound`.
    pub end: Option<&'t Tree<'a>>,
}

/// A pattern, by its form.
#[derive(Clone, Copy)]
pub enum Pat<'t, 'a> {
    /// `ref mut a @ b`
    Ident(PatIdent<'t, 'a>),
    /// `-1`
    Lit(PatLit<'a>),
    /// `a | b`
    Or(PatOr<'t, 'a>),
    /// `(a)`
    Paren(PatParen<'t, 'a>),
    /// `a::B`
    Path(PatPath<'t, 'a>),
    /// `1..=2`
    Range(PatRange<'t, 'a>),
    /// `&mut a`
    Reference(PatReference<'t, 'a>),
    /// `..`
    Rest(PatRest),
    /// `[a, b]`
    Slice(PatSlice<'t, 'a>),
    /// `A { b, c: d, .. }`
    Struct(PatStruct<'t, 'a>),
    /// `(a, b)`
    Tuple(PatTuple<'t, 'a>),
    /// `A(b, c)`
    TupleStruct(PatTupleStruct<'t, 'a>),
    /// `_`
    Wild(PatWild<'a>),
}

/// What a pattern was read as.
#[derive(Clone, Copy)]
pub(crate) enum Read<'t, 'a> {
    // One alternative: its form.
    One(&'t Tree<'a>),
    // Several, or one behind a mark.
    Several(PatOr<'t, 'a>),
}

// The form of one alternative.
#[tactic(auto, unfolding(syn_grammar::specs::Table::table), using(crate::proofs::PatForms::one_inside))]
fn one_form<'t, 'a>(tree: &'t Tree<'a>) -> Option<&'t Tree<'a>>
    ensures of { MatchOption result (IsShaped tree.now (g.ref k.OnePattern) → ⊥)
        (λ x. one_form tree.now ≡ x.now) }
    ensures form { IfSome result (λ x. form_of_pat tree.now ≡ x.now) }
    ensures among { IfSome result (λ x. IsShaped tree.now (g.ref k.OnePattern) → IsAmong x.now one_pattern) }
{
    let Some(inner) = inside::node(Kind::OnePattern, tree) else {
        return None;
    };
    Some(inner.choice())
}

// Several alternatives, or one.
#[tactic(auto, using(crate::proofs::PatForms::several))]
fn as_read<'t, 'a>(found: PatOr<'t, 'a>) -> Option<Read<'t, 'a>>
    ensures of { MatchOption result (IsShaped found.entry.first.now (g.ref k.OnePattern) → ⊥)
        (λ r. alternatives_tree found.entry ≡ read_tree r) }
    ensures among { IfSome result (λ r. IsShaped found.entry.first.now (g.ref k.OnePattern) → IsRead r) }
{
    match found.leading_vert {
        Some(_) => Some(Read::Several(found)),
        None => if found.others.each.is_empty() {
            match one_form(found.first) {
                Some(form) => Some(Read::One(form)),
                None => None,
            }
        } else {
            Some(Read::Several(found))
        },
    }
}

// What a pattern was read as.
#[tactic(auto, unfolding(syn_grammar::specs::Table::table))]
fn read_as<'t, 'a>(tree: &'t Tree<'a>) -> Option<Read<'t, 'a>>
    ensures of { MatchOption result (IsAPattern tree.now → ⊥) (λ r. form_of_pat tree.now ≡ read_tree r) }
    ensures among { IfSome result (λ r. IsAPattern tree.now → IsRead r) }
{
    if let Some(found) = PatOr::of(tree) {
        return as_read(found);
    }
    if let Some(found) = PatSeveral::of(tree) {
        return as_read(PatOr {
            leading_vert: None,
            first: found.first,
            others: found.others,
        });
    }
    match one_form(tree) {
        Some(form) => Some(Read::One(form)),
        None => None,
    }
}

// Whether it is `..` alone.
#[tactic(auto, using(crate::proofs::PatForms::not_rest))]
fn is_rest(tree: &Tree<'_>) -> bool
    ensures { cond result (is_rest_pattern tree.now ≡ true) (IsAPattern tree.now → is_rest_pattern tree.now ≡ false) }
{
    match read_as(tree) {
        Some(Read::One(form)) => match PatRest::of(form) {
            Some(_) => true,
            None => false,
        },
        Some(Read::Several(_)) => false,
        None => false,
    }
}

// A tuple, or a pattern in parentheses.
#[tactic(auto, unfolding(syn_grammar::specs::Table::table), using(crate::proofs::PatForms::tuples))]
fn tuple_or_paren<'t, 'a>(found: PatParenthesized<'t, 'a>) -> Pat<'t, 'a>
    ensures of { pat_tree result ≡ pat_parenthesized found.entry }
    ensures apart { IsShaped (pat_parenthesized found.entry) (g.ref k.TuplePattern) → IsApart result }
{
    let paren_token = found.paren_token;
    let elems = found.elems;
    match elems.only() {
        Some(pat) => if is_rest(pat) {
            Pat::Tuple(PatTuple { paren_token, elems })
        } else {
            Pat::Paren(PatParen { paren_token, pat })
        },
        None => Pat::Tuple(PatTuple { paren_token, elems }),
    }
}

// A range with a start.
fn range_from<'t, 'a>(start: RangeBound<'t, 'a>, end: &'t Tree<'a>) -> Option<PatRange<'t, 'a>>
    ensures { MatchOption result (IsShaped end.now (g.ref k.RangeEnd) → ⊥)
        (λ x. started start.entry end.now ≡ range_form x) }
{
    match RangeEnd::of(end) {
        Some(found) => Some(PatRange {
            start: Some(start),
            limits: found.limits,
            end: found.end,
        }),
        None => None,
    }
}

// A literal, or a range that begins with one.
#[tactic(auto, unfolding(syn_grammar::specs::Table::table))]
fn literal_or_range<'t, 'a>(found: LiteralPattern<'t, 'a>) -> Option<Pat<'t, 'a>>
    ensures of { MatchOption result (IsShaped (literal_pattern found.entry) (g.ref k.LiteralPattern) → ⊥)
        (λ x. literal_pattern found.entry ≡ pat_tree x) }
    ensures apart { IfSome result IsApart }
{
    match found.end {
        Some(end) => match range_from(RangeBound::Lit(found.lit), end) {
            Some(range) => Some(Pat::Range(range)),
            None => None,
        },
        None => Some(Pat::Lit(PatLit { lit: found.lit })),
    }
}

// A path, alone or with what stands behind it.
#[tactic(auto, unfolding(syn_grammar::specs::Table::table))]
fn by_path<'t, 'a>(found: PathPattern<'t, 'a>) -> Option<Pat<'t, 'a>>
    ensures of { MatchOption result (IsShaped (path_pattern found.entry) (g.ref k.PathPattern) → ⊥)
        (λ x. path_pattern found.entry ≡ pat_tree x) }
    ensures apart { IfSome result IsApart }
{
    let path = found.path;
    match found.behind {
        PathBehind::Tuple(paren_token, elems) => Some(Pat::TupleStruct(PatTupleStruct {
            path,
            paren_token,
            elems,
        })),
        PathBehind::Struct(fields) => Some(Pat::Struct(PatStruct { path, fields })),
        PathBehind::Range(end) => match range_from(RangeBound::Path(path), end) {
            Some(range) => Some(Pat::Range(range)),
            None => None,
        },
        PathBehind::None => Some(Pat::Path(PatPath { path })),
    }
}

impl<'t, 'a> Pat<'t, 'a> {
    // The pattern that a form of one alternative is.
    fn of_form(tree: &'t Tree<'a>) -> Option<Pat<'t, 'a>>
        ensures of { MatchOption result (IsAmong tree.now one_pattern → ⊥) (λ x. tree.now ≡ pat_tree x) }
        ensures apart { IfSome result (λ x. IsAmong tree.now one_pattern → IsApart x) }
    {
        if let Some(found) = PatIdent::of(tree) {
            return Some(Pat::Ident(found));
        }
        if let Some(found) = PatWild::of(tree) {
            return Some(Pat::Wild(found));
        }
        if let Some(found) = PatRangeTo::of(tree) {
            return Some(Pat::Range(PatRange {
                start: None,
                limits: found.limits,
                end: Some(found.end),
            }));
        }
        if let Some(found) = PatRest::of(tree) {
            return Some(Pat::Rest(found));
        }
        if let Some(found) = PatParenthesized::of(tree) {
            return Some(tuple_or_paren(found));
        }
        if let Some(found) = PatSlice::of(tree) {
            return Some(Pat::Slice(found));
        }
        if let Some(found) = PatReference::of(tree) {
            return Some(Pat::Reference(found));
        }
        if let Some(found) = LiteralPattern::of(tree) {
            return literal_or_range(found);
        }
        if let Some(found) = PathPattern::of(tree) {
            return by_path(found);
        }
        None
    }

    /// The pattern that a tree is, by its form, if the tree is a pattern, read as alternatives or as one of them.
    pub fn of(tree: &'t Tree<'a>) -> Option<Pat<'t, 'a>>
        ensures of { MatchOption result (IsAPattern tree.now → ⊥) (λ x. form_of_pat tree.now ≡ pat_tree x) }

        // One pattern in parentheses, without a comma, is no tuple, unless it is `..`.
        ensures apart { IfSome result (λ x. IsAPattern tree.now → IsApart x) }
    {
        match read_as(tree) {
            Some(Read::One(form)) => match Pat::of_form(form) {
                Some(pat) => Some(pat),
                None => None,
            },
            Some(Read::Several(found)) => Some(Pat::Or(found)),
            None => None,
        }
    }
}
