//! Patterns.

ghost use Rattle.proc_macro2.specs.Token.{Token};
ghost use Rattle.proc_macro2.specs.declared.delimiter.Delimiter.{Delimiter as GivenDelimiter};
ghost use Rattle.std.specs.Prelude.{◌≡◌, MatchOption, Bool, List, ℕ};
ghost use Rattle.syn_grammar.specs.Gram as g;
ghost use Rattle.syn_grammar.specs.Kind as k;
ghost use Rattle.syn_grammar.specs.Name as n;
ghost use Rattle.syn_grammar.specs.Tree as t;
ghost use Rattle.syn_part.specs.Kept.{IsKept};
ghost use Rattle.syn_part.specs.Shape.{IsShaped};
ghost use Rattle.syn_pat.specs.Patterns.{field_pat, field_pattern_tree, field_patterns, member_pattern_tree, pat_ident};
ghost use Rattle.syn_pat.specs.Patterns.{literal_pattern, pat_or, pat_parenthesized, path_pattern, pat_range_to};
ghost use Rattle.syn_pat.specs.Patterns.{pat_reference};
ghost use Rattle.syn_pat.specs.Patterns.{pat_rest, pat_several, pat_slice, pat_wild, path_behind, range_bound};
ghost use Rattle.syn_pat.specs.Patterns.{range_end};
ghost use Rattle.syn_pat.specs.Patterns.{range_limits, shorthand_tree, signed_lit_tree, subpattern};

use reader_table::kind::Kind;
use reader_table::part::Part;
use reader_tree::tree::Tree;
use rust_leaf::ident::Ident;
use rust_leaf::literal::Literal;
use syn_part::leaf::{Delimiters, Mark};
use syn_part::list::{Elements, Turns};
use syn_part::sub::{Lit, Marked, as_lit, as_marked};
use syn_part::take::{self, Choice, Choice3, Choice4};
use syn_part::{inside, joined};

/// Any value: `_`.
#[derive(Clone, Copy)]
pub struct PatWild<'a> {
    /// `_`
    pub underscore_token: &'a Ident,
}

impl<'a> PatWild<'a> {
    /// A tree of the kind `WildPattern`, as its parts. `None` only of trees that have another shape.
    #[tactic(auto, unfolding(syn_grammar::specs::Table::table))]
    pub fn of(tree: &Tree<'a>) -> Option<PatWild<'a>>
        ensures { MatchOption result (IsShaped tree.now (g.ref k.WildPattern) → ⊥) (λ x. tree.now ≡ pat_wild x) }
    {
        let Some(inner) = inside::node(Kind::WildPattern, tree) else {
            return None;
        };
        let Some(underscore_token) = take::word(inner) else {
            return None;
        };
        Some(PatWild { underscore_token })
    }
}

/// The values that are left: `..`.
#[derive(Clone, Copy)]
pub struct PatRest {
    /// `..`
    pub dot2_token: Mark,
}

impl PatRest {
    /// A tree of the kind `RestPattern`, as its parts. `None` only of trees that have another shape.
    #[tactic(auto, unfolding(syn_grammar::specs::Table::table))]
    pub fn of(tree: &Tree<'_>) -> Option<PatRest>
        ensures { MatchOption result (IsShaped tree.now (g.ref k.RestPattern) → ⊥) (λ x. tree.now ≡ pat_rest x) }
    {
        let Some(inner) = inside::node(Kind::RestPattern, tree) else {
            return None;
        };
        let Some(dot2_token) = take::mark(inner) else {
            return None;
        };
        Some(PatRest { dot2_token })
    }
}

/// A reference: `&mut a`.
#[derive(Clone, Copy)]
pub struct PatReference<'t, 'a> {
    /// `&`
    pub and_token: Mark,
    /// `mut`
    pub mutability: Option<&'a Ident>,
    /// The pattern behind it.
    pub pat: &'t Tree<'a>,
}

impl<'t, 'a> PatReference<'t, 'a> {
    /// A tree of the kind `ReferencePattern`, as its parts. `None` only of trees that have another shape.
    #[tactic(auto, unfolding(syn_grammar::specs::Table::table))]
    pub fn of(tree: &'t Tree<'a>) -> Option<PatReference<'t, 'a>>
        ensures { MatchOption result (IsShaped tree.now (g.ref k.ReferencePattern) → ⊥)
            (λ x. tree.now ≡ pat_reference x) }
    {
        let Some((and_token, mutability, pat)) = inside::three(Kind::ReferencePattern, tree) else {
            return None;
        };
        let Some((and_token, mutability)) = joined::two(
            take::mark(and_token),
            take::optional_word(mutability),
        ) else {
            return None;
        };
        Some(PatReference {
            and_token,
            mutability,
            pat,
        })
    }
}

/// A slice or an array: `[a, b]`.
#[derive(Clone, Copy)]
pub struct PatSlice<'t, 'a> {
    /// The brackets.
    pub bracket_token: Delimiters,
    /// The patterns in them.
    pub elems: Elements<'t, 'a>,
}

impl<'t, 'a> PatSlice<'t, 'a> {
    /// A tree of the kind `SlicePattern`, as its parts. `None` only of trees that have another shape.
    #[tactic(auto, unfolding(syn_grammar::specs::Table::table))]
    pub fn of(tree: &'t Tree<'a>) -> Option<PatSlice<'t, 'a>>
        ensures { MatchOption result (IsShaped tree.now (g.ref k.SlicePattern) → ⊥) (λ x. tree.now ≡ pat_slice x) }
    {
        let Some((bracket_token, inside)) = inside::group(Kind::SlicePattern, tree) else {
            return None;
        };
        let Some(elems) = take::list(inside) else {
            return None;
        };
        Some(PatSlice {
            bracket_token,
            elems,
        })
    }
}

/// A tuple, or a pattern in parentheses.
#[derive(Clone, Copy)]
pub struct PatParenthesized<'t, 'a> {
    /// The parentheses.
    pub paren_token: Delimiters,
    /// The patterns in them.
    pub elems: Elements<'t, 'a>,
}

impl<'t, 'a> PatParenthesized<'t, 'a> {
    /// A tree of the kind `TuplePattern`, as its parts. `None` only of trees that have another shape.
    #[tactic(auto, unfolding(syn_grammar::specs::Table::table))]
    pub fn of(tree: &'t Tree<'a>) -> Option<PatParenthesized<'t, 'a>>
        ensures { MatchOption result (IsShaped tree.now (g.ref k.TuplePattern) → ⊥)
            (λ x. tree.now ≡ pat_parenthesized x) }
    {
        let Some((paren_token, inside)) = inside::group(Kind::TuplePattern, tree) else {
            return None;
        };
        let Some(elems) = take::list(inside) else {
            return None;
        };
        Some(PatParenthesized { paren_token, elems })
    }
}

/// Alternatives: `| a | b`.
#[derive(Clone, Copy)]
pub struct PatOr<'t, 'a> {
    /// `|`, if one stands in front.
    pub leading_vert: Option<Mark>,
    /// The first.
    pub first: &'t Tree<'a>,
    /// The others, each behind a `|`.
    pub others: Turns<'t, 'a>,
}

impl<'t, 'a> PatOr<'t, 'a> {
    /// A tree of the kind `Pattern`, as its parts. `None` only of trees that have another shape.
    #[tactic(auto, unfolding(syn_grammar::specs::Table::table))]
    pub fn of(tree: &'t Tree<'a>) -> Option<PatOr<'t, 'a>>
        ensures { MatchOption result (IsShaped tree.now (g.ref k.Pattern) → ⊥) (λ x. tree.now ≡ pat_or x) }
    {
        let Some((leading_vert, first, others)) = inside::three(Kind::Pattern, tree) else {
            return None;
        };
        let Some((leading_vert, others)) = joined::two(
            take::optional_mark(leading_vert),
            take::each_turn(others),
        ) else {
            return None;
        };
        Some(PatOr {
            leading_vert,
            first,
            others,
        })
    }
}

/// Alternatives with no `|` in front: `a | b`.
#[derive(Clone, Copy)]
pub struct PatSeveral<'t, 'a> {
    /// The first.
    pub first: &'t Tree<'a>,
    /// The others, each behind a `|`.
    pub others: Turns<'t, 'a>,
}

impl<'t, 'a> PatSeveral<'t, 'a> {
    /// A tree of the kind `SeveralPatterns`, as its parts. `None` only of trees that have another shape.
    #[tactic(auto, unfolding(syn_grammar::specs::Table::table))]
    pub fn of(tree: &'t Tree<'a>) -> Option<PatSeveral<'t, 'a>>
        ensures { MatchOption result (IsShaped tree.now (g.ref k.SeveralPatterns) → ⊥) (λ x. tree.now ≡ pat_several x) }
    {
        let Some((first, others)) = inside::pair(Kind::SeveralPatterns, tree) else {
            return None;
        };
        let Some(others) = take::each_turn(others) else {
            return None;
        };
        Some(PatSeveral { first, others })
    }
}

// What an identifier's pattern is matched against besides, if that is said; a macro is none.
fn as_subpattern<'t, 'a>(tree: &'t Tree<'a>) -> Option<Option<Marked<'t, 'a>>>
    ensures { MatchOption result ((r s : List Token → Bool) (c : ℕ) (cs : List ℕ) (a : g.Gram) → IsShaped tree.now
        (g.alt r g.never (g.alt s (g.seq (g.mark c cs) a) g.nothing)) → ⊥)
        (λ o. tree.now ≡ subpattern o) }
{
    let Some(which) = take::chosen3(tree) else {
        return None;
    };
    match which {
        Choice3::First(_) => None,
        Choice3::Second(inner) => match as_marked(inner) {
            Some(found) => Some(Some(found)),
            None => None,
        },
        Choice3::Third(inner) => if take::is_nothing(inner) {
            Some(None)
        } else {
            None
        },
    }
}

/// A name for what is matched: `ref mut a @ b`.
#[derive(Clone, Copy)]
pub struct PatIdent<'t, 'a> {
    /// `ref`
    pub by_ref: Option<&'a Ident>,
    /// `mut`
    pub mutability: Option<&'a Ident>,
    /// The name.
    pub ident: &'a Ident,
    /// `@` and a pattern.
    pub subpat: Option<Marked<'t, 'a>>,
}

impl<'t, 'a> PatIdent<'t, 'a> {
    /// A tree of the kind `IdentPattern`, as its parts. `None` only of trees that have another shape.
    #[tactic(auto, unfolding(syn_grammar::specs::Table::table))]
    pub fn of(tree: &'t Tree<'a>) -> Option<PatIdent<'t, 'a>>
        ensures { MatchOption result (IsShaped tree.now (g.ref k.IdentPattern) → ⊥) (λ x. tree.now ≡ pat_ident x) }
    {
        let Some((by_ref, mutability, ident, subpat)) = inside::four(Kind::IdentPattern, tree)
        else {
            return None;
        };
        let Some((by_ref, mutability, ident, subpat)) = joined::four(
            take::optional_word(by_ref),
            take::optional_word(mutability),
            take::word(ident),
            as_subpattern(subpat),
        ) else {
            return None;
        };
        Some(PatIdent {
            by_ref,
            mutability,
            ident,
            subpat,
        })
    }
}

/// Whether the end of a range is in it.
#[derive(Clone, Copy)]
pub enum RangeLimits {
    /// `..`: it is not.
    HalfOpen(Mark),
    /// `..=`: it is.
    Closed(Mark),
}

// Which of both marks stands there.
fn as_range_limits(tree: &Tree<'_>) -> Option<RangeLimits>
    ensures { MatchOption result ((test : List Token → Bool) (c d : ℕ) (cs ds : List ℕ) → IsShaped tree.now
        (g.alt test (g.mark c cs) (g.mark d ds)) → ⊥)
        (λ x. tree.now ≡ range_limits x) }
{
    let Some(which) = take::chosen(tree) else {
        return None;
    };
    match which {
        Choice::First(inner) => match take::mark(inner) {
            Some(mark) => Some(RangeLimits::Closed(mark)),
            None => None,
        },
        Choice::Second(inner) => match take::mark(inner) {
            Some(mark) => Some(RangeLimits::HalfOpen(mark)),
            None => None,
        },
    }
}

/// A range without a start: `..=a`.
#[derive(Clone, Copy)]
pub struct PatRangeTo<'t, 'a> {
    /// `..=` or `..`
    pub limits: RangeLimits,
    /// Its end, as a form of the kind `RangeBound`.
    pub end: &'t Tree<'a>,
}

impl<'t, 'a> PatRangeTo<'t, 'a> {
    /// A tree of the kind `RangeToPattern`, as its parts. `None` only of trees that have another shape.
    #[tactic(auto, unfolding(syn_grammar::specs::Table::table))]
    pub fn of(tree: &'t Tree<'a>) -> Option<PatRangeTo<'t, 'a>>
        ensures { MatchOption result (IsShaped tree.now (g.ref k.RangeToPattern) → ⊥)
            (λ x. tree.now ≡ pat_range_to x) }
    {
        let Some((limits, end)) = inside::pair(Kind::RangeToPattern, tree) else {
            return None;
        };
        let Some(limits) = as_range_limits(limits) else {
            return None;
        };
        Some(PatRangeTo { limits, end })
    }
}

/// The end of a range behind its start: `..=a`, `..a`, `..`.
#[derive(Clone, Copy)]
pub struct RangeEnd<'t, 'a> {
    /// `..=` or `..`
    pub limits: RangeLimits,
    /// The end, as a form of the kind `RangeBound`.
    pub end: Option<&'t Tree<'a>>,
}

// ..= and an end.
fn as_closed_end<'t, 'a>(tree: &'t Tree<'a>) -> Option<RangeEnd<'t, 'a>>
    ensures { MatchOption result ((c : ℕ) (cs : List ℕ) (a : g.Gram) → IsShaped tree.now (g.seq (g.mark c cs) a) → ⊥)
        (λ x. t.First tree.now ≡ range_end x.limits x.end) }
{
    let Some(found) = as_marked(tree) else {
        return None;
    };
    Some(RangeEnd {
        limits: RangeLimits::Closed(found.mark),
        end: Some(found.node),
    })
}

// .. and perhaps an end.
fn as_open_end<'t, 'a>(tree: &'t Tree<'a>) -> Option<RangeEnd<'t, 'a>>
    ensures { MatchOption result ((c : ℕ) (cs : List ℕ) (test : List Token → Bool) (a : g.Gram) → IsShaped tree.now
        (g.seq (g.mark c cs) (g.alt test a g.nothing)) → ⊥)
        (λ x. t.Second tree.now ≡ range_end x.limits x.end) }
{
    let Some(found) = as_marked(tree) else {
        return None;
    };
    let Some(end) = take::optional(found.node) else {
        return None;
    };
    Some(RangeEnd {
        limits: RangeLimits::HalfOpen(found.mark),
        end,
    })
}

impl<'t, 'a> RangeEnd<'t, 'a> {
    /// A tree of the kind `RangeEnd`, as its parts. `None` only of trees that have another shape.
    #[tactic(auto, unfolding(syn_grammar::specs::Table::table))]
    pub fn of(tree: &'t Tree<'a>) -> Option<RangeEnd<'t, 'a>>
        ensures { MatchOption result (IsShaped tree.now (g.ref k.RangeEnd) → ⊥)
            (λ x. tree.now ≡ t.Node k.RangeEnd (range_end x.limits x.end)) }
    {
        let Some(inner) = inside::node(Kind::RangeEnd, tree) else {
            return None;
        };
        let Some(which) = take::chosen(inner) else {
            return None;
        };
        match which {
            Choice::First(inner) => as_closed_end(inner),
            Choice::Second(inner) => as_open_end(inner),
        }
    }
}

/// A literal, or a number behind `-`.
#[derive(Clone, Copy)]
pub enum SignedLit<'a> {
    /// A number behind `-`.
    Negative(Mark, &'a Literal),
    /// A literal.
    Plain(Lit<'a>),
}

// A number behind a mark.
fn as_negative<'a>(tree: &Tree<'a>) -> Option<SignedLit<'a>>
    ensures { MatchOption result ((c : ℕ) (cs : List ℕ) (p : List ℕ → Bool) → IsShaped tree.now (g.seq (g.mark c cs)
        (g.literal p)) → ⊥)
        (λ x. t.First tree.now ≡ signed_lit_tree x) }
{
    let Some((mark, literal)) = take::pair(tree) else {
        return None;
    };
    let Some((mark, literal)) = joined::two(take::mark(mark), take::literal(literal)) else {
        return None;
    };
    Some(SignedLit::Negative(mark, literal))
}

// A literal, or a number behind `-`.
fn as_signed_lit<'a>(tree: &Tree<'a>) -> Option<SignedLit<'a>>
    ensures { MatchOption result ((r s : List Token → Bool) (c : ℕ) (cs : List ℕ) (o p q : List ℕ → Bool)
        → IsShaped tree.now (g.alt r (g.seq (g.mark c cs) (g.literal o)) (g.alt s (g.literal p) (g.word q))) → ⊥)
        (λ x. tree.now ≡ signed_lit_tree x) }
{
    let Some(which) = take::chosen3(tree) else {
        return None;
    };
    match which {
        Choice3::First(inner) => as_negative(inner),
        Choice3::Second(inner) => match take::literal(inner) {
            Some(literal) => Some(SignedLit::Plain(Lit::Token(literal))),
            None => None,
        },
        Choice3::Third(inner) => match take::word(inner) {
            Some(word) => Some(SignedLit::Plain(Lit::Bool(word))),
            None => None,
        },
    }
}

/// A literal, or a range that begins with one: `1`, `-1..=2`.
#[derive(Clone, Copy)]
pub struct LiteralPattern<'t, 'a> {
    /// The literal.
    pub lit: SignedLit<'a>,
    /// What makes a range of it, as a form of the kind `RangeEnd`.
    pub end: Option<&'t Tree<'a>>,
}

impl<'t, 'a> LiteralPattern<'t, 'a> {
    /// A tree of the kind `LiteralPattern`, as its parts. `None` only of trees that have another shape.
    #[tactic(auto, unfolding(syn_grammar::specs::Table::table))]
    pub fn of(tree: &'t Tree<'a>) -> Option<LiteralPattern<'t, 'a>>
        ensures { MatchOption result (IsShaped tree.now (g.ref k.LiteralPattern) → ⊥)
            (λ x. tree.now ≡ literal_pattern x) }
    {
        let Some((lit, end)) = inside::pair(Kind::LiteralPattern, tree) else {
            return None;
        };
        let Some((lit, end)) = joined::two(as_signed_lit(lit), take::optional(end)) else {
            return None;
        };
        Some(LiteralPattern { lit, end })
    }
}

/// A bound of a range: a literal, a number behind `-`, or a path.
#[derive(Clone, Copy)]
pub enum RangeBound<'t, 'a> {
    /// A literal, or a number behind `-`.
    Lit(SignedLit<'a>),
    /// A path, as a form of the kind `AnyPath`.
    Path(&'t Tree<'a>),
}

impl<'t, 'a> RangeBound<'t, 'a> {
    /// A tree of the kind `RangeBound`, as its parts. `None` only of trees that have another shape.
    #[tactic(auto, unfolding(syn_grammar::specs::Table::table))]
    pub fn of(tree: &'t Tree<'a>) -> Option<RangeBound<'t, 'a>>
        ensures { MatchOption result (IsShaped tree.now (g.ref k.RangeBound) → ⊥) (λ x. tree.now ≡ range_bound x) }
    {
        let Some(inner) = inside::node(Kind::RangeBound, tree) else {
            return None;
        };
        let Some(which) = take::chosen(inner) else {
            return None;
        };
        match which {
            Choice::First(inner) => match as_signed_lit(inner) {
                Some(lit) => Some(RangeBound::Lit(lit)),
                None => None,
            },
            Choice::Second(inner) => Some(RangeBound::Path(inner)),
        }
    }
}

/// What stands behind the path of a pattern.
#[derive(Clone, Copy)]
pub enum PathBehind<'t, 'a> {
    /// The patterns of a tuple struct: `(a, b)`.
    Tuple(Delimiters, Elements<'t, 'a>),
    /// The fields of a struct, as a form of the kind `FieldPatterns`.
    Struct(&'t Tree<'a>),
    /// What makes a range of it, as a form of the kind `RangeEnd`.
    Range(&'t Tree<'a>),
    /// Nothing.
    None,
}

// The patterns of a tuple struct.
fn as_tuple_patterns<'t, 'a>(tree: &'t Tree<'a>) -> Option<PathBehind<'t, 'a>>
    ensures { MatchOption result ((d : GivenDelimiter) (e : List Token → Bool) (c : ℕ) (a : g.Gram) → IsShaped tree.now
        (g.group d (g.many e c a)) → ⊥)
        (λ x. t.First tree.now ≡ path_behind x) }
{
    let Some((paren_token, inside)) = take::group(tree) else {
        return None;
    };
    let Some(elems) = take::list(inside) else {
        return None;
    };
    Some(PathBehind::Tuple(paren_token, elems))
}

// What stands behind the path of a pattern, by what it is.
fn as_path_behind<'t, 'a>(tree: &'t Tree<'a>) -> Option<PathBehind<'t, 'a>>
    ensures { MatchOption result ((r s u : List Token → Bool) (d : GivenDelimiter) (e : List Token → Bool) (c : ℕ)
        (a b f : g.Gram) → IsShaped tree.now (g.alt r (g.group d (g.many e c a)) (g.alt s b (g.alt u f g.nothing)))
        → ⊥)
        (λ x. tree.now ≡ path_behind x) }
{
    let Some(which) = take::chosen4(tree) else {
        return None;
    };
    match which {
        Choice4::First(inner) => as_tuple_patterns(inner),
        Choice4::Second(inner) => Some(PathBehind::Struct(inner)),
        Choice4::Third(inner) => Some(PathBehind::Range(inner)),
        Choice4::Fourth(inner) => if take::is_nothing(inner) {
            Some(PathBehind::None)
        } else {
            None
        },
    }
}

/// A path, alone or as a tuple struct, a struct or the start of a range: `a::B(c)`.
#[derive(Clone, Copy)]
pub struct PathPattern<'t, 'a> {
    /// The path, as a form of the kind `AnyPath`.
    pub path: &'t Tree<'a>,
    /// What stands behind it.
    pub behind: PathBehind<'t, 'a>,
}

impl<'t, 'a> PathPattern<'t, 'a> {
    /// A tree of the kind `PathPattern`, as its parts. `None` only of trees that have another shape.
    #[tactic(auto, unfolding(syn_grammar::specs::Table::table))]
    pub fn of(tree: &'t Tree<'a>) -> Option<PathPattern<'t, 'a>>
        ensures { MatchOption result (IsShaped tree.now (g.ref k.PathPattern) → ⊥) (λ x. tree.now ≡ path_pattern x) }
    {
        let Some((path, behind)) = inside::pair(Kind::PathPattern, tree) else {
            return None;
        };
        let Some(behind) = as_path_behind(behind) else {
            return None;
        };
        Some(PathPattern { path, behind })
    }
}

/// The fields of a struct's pattern: `{ a, b: c, .. }`.
#[derive(Clone, Copy)]
pub struct FieldPatterns<'t, 'a> {
    /// The braces.
    pub brace_token: Delimiters,
    /// The fields, and perhaps `..`, each as a form of the kind `FieldPattern`.
    pub fields: Elements<'t, 'a>,
}

impl<'t, 'a> FieldPatterns<'t, 'a> {
    /// A tree of the kind `FieldPatterns`, as its parts. `None` only of trees that have another shape, or are
    /// kept as tokens alone. Fields that were read are never that.
    #[tactic(auto, unfolding(syn_grammar::specs::Table::table))]
    pub fn of(tree: &'t Tree<'a>) -> Option<FieldPatterns<'t, 'a>>
        ensures { MatchOption result (IsKept tree.now → IsShaped tree.now (g.ref k.FieldPatterns) → ⊥)
            (λ x. tree.now ≡ field_patterns x) }
    {
        let Some(inner) = inside::kept(Kind::FieldPatterns, tree) else {
            return None;
        };
        let Some((brace_token, inside)) = take::group(inner) else {
            return None;
        };
        let Some(fields) = take::list(inside) else {
            return None;
        };
        Some(FieldPatterns {
            brace_token,
            fields,
        })
    }
}

/// A field with a pattern: `a: b`.
#[derive(Clone, Copy)]
pub struct MemberPattern<'t, 'a> {
    /// The field, as a form of the kind `Member`.
    pub member: &'t Tree<'a>,
    /// `:`
    pub colon_token: Mark,
    /// The pattern.
    pub pat: &'t Tree<'a>,
}

// A field with a pattern, as its parts.
fn as_member_pattern<'t, 'a>(tree: &'t Tree<'a>) -> Option<MemberPattern<'t, 'a>>
    ensures { MatchOption result ((a b : g.Gram) (c : ℕ) (cs : List ℕ) → IsShaped tree.now (g.seq a
        (g.seq (g.mark c cs) b)) → ⊥)
        (λ x. tree.now ≡ member_pattern_tree x) }
{
    let Some((member, colon_token, pat)) = take::three(tree) else {
        return None;
    };
    let Some(colon_token) = take::mark(colon_token) else {
        return None;
    };
    Some(MemberPattern {
        member,
        colon_token,
        pat,
    })
}

/// A field by its name alone: `ref mut a`.
#[derive(Clone, Copy)]
pub struct Shorthand<'a> {
    /// `ref`
    pub by_ref: Option<&'a Ident>,
    /// `mut`
    pub mutability: Option<&'a Ident>,
    /// The name.
    pub ident: &'a Ident,
}

// A field by its name alone, as its parts.
fn as_shorthand<'a>(tree: &Tree<'a>) -> Option<Shorthand<'a>>
    ensures { MatchOption result ((r s : List Token → Bool) (o p q : List ℕ → Bool) → IsShaped tree.now (g.seq
        (g.alt r (g.word o) g.nothing) (g.seq (g.alt s (g.word p) g.nothing) (g.word q))) → ⊥)
        (λ x. tree.now ≡ shorthand_tree x) }
{
    let Some((by_ref, mutability, ident)) = take::three(tree) else {
        return None;
    };
    let Some((by_ref, mutability, ident)) = joined::three(
        take::optional_word(by_ref),
        take::optional_word(mutability),
        take::word(ident),
    ) else {
        return None;
    };
    Some(Shorthand {
        by_ref,
        mutability,
        ident,
    })
}

/// What stands for a field, behind its attributes.
#[derive(Clone, Copy)]
pub enum FieldPattern<'t, 'a> {
    /// `..`, as a form of the kind `RestPattern`.
    Rest(&'t Tree<'a>),
    /// A field with a pattern: `a: b`.
    Member(MemberPattern<'t, 'a>),
    /// A field by its name alone: `ref mut a`.
    Shorthand(Shorthand<'a>),
}

// What stands for a field, by what it is.
fn as_field_pattern<'t, 'a>(tree: &'t Tree<'a>) -> Option<FieldPattern<'t, 'a>>
    ensures { MatchOption result ((u v r s : List Token → Bool) (e a b : g.Gram) (c : ℕ) (cs : List ℕ)
        (o p q : List ℕ → Bool) → IsShaped tree.now (g.alt u (g.called n.the_rest e) (g.alt v (g.seq a
        (g.seq (g.mark c cs) b)) (g.seq (g.alt r (g.word o) g.nothing) (g.seq (g.alt s (g.word p) g.nothing)
        (g.word q))))) → ⊥)
        (λ x. tree.now ≡ field_pattern_tree x) }
{
    let Some(which) = take::chosen3(tree) else {
        return None;
    };
    match which {
        Choice3::First(inner) => match inside::part(Part::Rest, inner) {
            Some(rest) => Some(FieldPattern::Rest(rest)),
            None => None,
        },
        Choice3::Second(inner) => match as_member_pattern(inner) {
            Some(found) => Some(FieldPattern::Member(found)),
            None => None,
        },
        Choice3::Third(inner) => match as_shorthand(inner) {
            Some(found) => Some(FieldPattern::Shorthand(found)),
            None => None,
        },
    }
}

/// A field of a struct's pattern, or `..`.
#[derive(Clone, Copy)]
pub struct FieldPat<'t, 'a> {
    /// Its attributes.
    pub attrs: &'t Tree<'a>,
    /// What stands behind them.
    pub pattern: FieldPattern<'t, 'a>,
}

impl<'t, 'a> FieldPat<'t, 'a> {
    /// A tree of the kind `FieldPattern`, as its parts. `None` only of trees that have another shape.
    #[tactic(auto, unfolding(syn_grammar::specs::Table::table))]
    pub fn of(tree: &'t Tree<'a>) -> Option<FieldPat<'t, 'a>>
        ensures { MatchOption result (IsShaped tree.now (g.ref k.FieldPattern) → ⊥) (λ x. tree.now ≡ field_pat x) }
    {
        let Some((attrs, pattern)) = inside::pair(Kind::FieldPattern, tree) else {
            return None;
        };
        let Some(pattern) = as_field_pattern(pattern) else {
            return None;
        };
        Some(FieldPat { attrs, pattern })
    }
}
