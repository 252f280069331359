//! Parts of expressions: fields and arms.

ghost use Rattle.proc_macro2.specs.Token.{Token};
ghost use Rattle.std.specs.Prelude.{Bool, List, MatchOption, false, ℕ, ◌≡◌};
ghost use Rattle.syn_expr.specs.ExprParts.{a_field_value, arm, arm_comma_tree, field_init_tree};
ghost use Rattle.syn_expr.specs.ExprParts.{field_member_tree, field_value, field_values};
ghost use Rattle.syn_expr.specs.ExprParts.{member_value_tree, rest_tree, struct_rest_tree};
ghost use Rattle.syn_grammar.specs.Gram as g;
ghost use Rattle.syn_grammar.specs.Kind as k;
ghost use Rattle.syn_grammar.specs.Name as n;
ghost use Rattle.syn_grammar.specs.Tree as t;
ghost use Rattle.syn_part.specs.Kept.{IsKept};
ghost use Rattle.syn_part.specs.Shape.{IsShaped, may_choose};

use crate::part;
use reader_table::kind::Kind;
use reader_table::part::Part;
use reader_tree::tree::Tree;
use syn_ast::paths::{Index, Member};
use syn_part::leaf::{Delimiters, Mark};
use syn_part::list::Elements;
use syn_part::sub::{Worded, optional_as_worded};
use syn_part::take::{self, Choice, Choice3};
use syn_part::{inside, joined};

/// A name or an index behind a dot, each by its name as a part. `None` only of trees that have another shape.
pub fn as_field_member<'a>(tree: &Tree<'a>) -> Option<Member<'a>>
    ensures { MatchOption result ((test : List Token → Bool) (p q : List ℕ → Bool) → IsShaped tree.now
        (g.alt test (g.called n.the_name (g.word p)) (g.called n.the_value (g.literal q))) → ⊥)
        (λ m. tree.now ≡ field_member_tree m) }
{
    let Some(which) = take::chosen(tree) else {
        return None;
    };
    match which {
        Choice::First(inner) => match inside::word(Part::Name, inner) {
            Some(word) => Some(Member::Named(word)),
            None => None,
        },
        Choice::Second(inner) => match part::number(inner) {
            Some(index) => Some(Member::Unnamed(Index { index })),
            None => None,
        },
    }
}

/// The fields of a struct, in their braces: `{ a: b, ..c }`.
#[derive(Clone, Copy)]
pub struct FieldValues<'t, 'a> {
    /// The braces.
    pub brace_token: Delimiters,
    /// Each as a form of the kind `AFieldValue`.
    pub fields: Elements<'t, 'a>,
}

impl<'t, 'a> FieldValues<'t, 'a> {
    /// A tree of the kind `FieldValues`, as its parts. `None` only of trees that have another shape, or are
    /// kept as tokens alone. Fields that were read are never that.
    #[tactic(auto, unfolding(syn_grammar::specs::Table::table))]
    pub fn of(tree: &'t Tree<'a>) -> Option<FieldValues<'t, 'a>>
        ensures { MatchOption result (IsKept tree.now → IsShaped tree.now (g.ref k.FieldValues) → ⊥)
            (λ x. tree.now ≡ field_values x) }
    {
        let Some(kept) = inside::kept(Kind::FieldValues, tree) else {
            return None;
        };
        let Some((brace_token, fields)) = part::list_in(kept) else {
            return None;
        };
        Some(FieldValues {
            brace_token,
            fields,
        })
    }
}

// Whether nothing stands behind an arm's body, and else the comma, if one does.
fn as_arm_comma(tree: &Tree<'_>) -> Option<(bool, Option<Mark>)>
    ensures { MatchOption result ((t1 t2 : List Token → Bool) (c3 : ℕ) (cs4 : List ℕ) → IsShaped tree.now
        (g.alt t1 g.nothing (g.alt t2 (g.mark c3 cs4) g.nothing)) → ⊥)
        (λ p. tree.now ≡ arm_comma_tree p.0 p.1) }
{
    let Some(which) = take::chosen3(tree) else {
        return None;
    };
    match which {
        Choice3::First(inner) => if take::is_nothing(inner) {
            Some((true, None))
        } else {
            None
        },
        Choice3::Second(inner) => match take::mark(inner) {
            Some(mark) => Some((false, Some(mark))),
            None => None,
        },
        Choice3::Third(inner) => if take::is_nothing(inner) {
            Some((false, None))
        } else {
            None
        },
    }
}

// The same, by its name.
fn named_arm_comma(tree: &Tree<'_>) -> Option<(bool, Option<Mark>)>
    ensures { MatchOption result ((t1 t2 : List Token → Bool) (c3 : ℕ) (cs4 : List ℕ) → IsShaped tree.now
        (g.called n.the_comma (g.alt t1 g.nothing (g.alt t2 (g.mark c3 cs4) g.nothing))) → ⊥)
        (λ p. tree.now ≡ t.Called n.the_comma (arm_comma_tree p.0 p.1)) }
{
    match inside::part(Part::Comma, tree) {
        Some(inner) => as_arm_comma(inner),
        None => None,
    }
}

/// An arm of a `match`: `a if b => c,`.
#[derive(Clone, Copy)]
pub struct Arm<'t, 'a> {
    /// Its attributes.
    pub attrs: &'t Tree<'a>,
    /// Its pattern.
    pub pat: &'t Tree<'a>,
    /// `if` and a condition.
    pub guard: Option<Worded<'t, 'a>>,
    /// `=>`
    pub fat_arrow_token: Mark,
    /// What is done.
    pub body: &'t Tree<'a>,
    /// `,`
    pub comma: Option<Mark>,
    /// Whether the braces end with its body, so that no comma stands there.
    pub at_end: bool,
}

impl<'t, 'a> Arm<'t, 'a> {
    /// A tree of the kind `Arm`, as its parts. `None` only of trees that have another shape, or are kept as
    /// tokens alone. One that was read is never that.
    #[tactic(auto, unfolding(syn_grammar::specs::Table::table))]
    pub fn of(tree: &'t Tree<'a>) -> Option<Arm<'t, 'a>>
        ensures { MatchOption result (IsKept tree.now → IsShaped tree.now (g.ref k.Arm) → ⊥)
            (λ x. tree.now ≡ arm x) }
    {
        let Some(kept) = inside::kept(Kind::Arm, tree) else {
            return None;
        };
        let Some((attrs, pat, guard, fat_arrow_token, body, comma)) = take::six(kept) else {
            return None;
        };
        let Some((guard, fat_arrow_token, body, comma)) = joined::four(
            optional_as_worded(guard),
            take::mark(fat_arrow_token),
            inside::part(Part::Body, body),
            named_arm_comma(comma),
        ) else {
            return None;
        };
        let (at_end, comma) = comma;
        Some(Arm {
            attrs,
            pat,
            guard,
            fat_arrow_token,
            body,
            comma,
            at_end,
        })
    }
}

// The rest of a struct's fields, or nothing at the end.
fn as_rest<'t, 'a>(tree: &'t Tree<'a>) -> Option<Option<&'t Tree<'a>>>
    ensures { MatchOption result ((test : List Token → Bool) (a : g.Gram) → may_choose a ≡ false
        → IsShaped tree.now (g.alt test g.nothing a) → ⊥)
        (λ o. tree.now ≡ rest_tree o) }
{
    let Some(which) = take::chosen(tree) else {
        return None;
    };
    match which {
        Choice::First(inner) => if take::is_nothing(inner) {
            Some(None)
        } else {
            None
        },
        Choice::Second(inner) => Some(Some(inner)),
    }
}

/// The fields that another struct has: `..a`.
#[derive(Clone, Copy)]
pub struct StructRest<'t, 'a> {
    /// `..`
    pub dot2_token: Mark,
    /// The other struct.
    pub rest: Option<&'t Tree<'a>>,
}

// The rest of a struct, as its parts.
fn as_struct_rest<'t, 'a>(tree: &'t Tree<'a>) -> Option<StructRest<'t, 'a>>
    ensures { MatchOption result ((c1 : ℕ) (cs2 : List ℕ) (t3 : List Token → Bool) (a4 : g.Gram)
        → may_choose a4 ≡ false → IsShaped tree.now (g.called n.the_base (g.seq (g.mark c1 cs2)
        (g.alt t3 g.nothing a4))) → ⊥)
        (λ r. tree.now ≡ struct_rest_tree r) }
{
    let Some(inner) = inside::part(Part::Base, tree) else {
        return None;
    };
    let Some((dot2_token, rest)) = take::pair(inner) else {
        return None;
    };
    let Some(dot2_token) = take::mark(dot2_token) else {
        return None;
    };
    let Some(rest) = as_rest(rest) else {
        return None;
    };
    Some(StructRest { dot2_token, rest })
}

/// What stands among the fields of a struct.
#[derive(Clone, Copy)]
pub enum AFieldValue<'t, 'a> {
    /// The fields that another struct has.
    Rest(StructRest<'t, 'a>),
    /// A field, as a form of the kind `FieldValue`.
    Field(&'t Tree<'a>),
}

impl<'t, 'a> AFieldValue<'t, 'a> {
    /// A tree of the kind `AFieldValue`, as its parts. `None` only of trees that have another shape.
    #[tactic(auto, unfolding(syn_grammar::specs::Table::table))]
    pub fn of(tree: &'t Tree<'a>) -> Option<AFieldValue<'t, 'a>>
        ensures { MatchOption result (IsShaped tree.now (g.ref k.AFieldValue) → ⊥) (λ x. tree.now ≡ a_field_value x) }
    {
        let Some(inner) = inside::node(Kind::AFieldValue, tree) else {
            return None;
        };
        let Some(which) = take::chosen(inner) else {
            return None;
        };
        match which {
            Choice::First(rest) => match as_struct_rest(rest) {
                Some(rest) => Some(AFieldValue::Rest(rest)),
                None => None,
            },
            Choice::Second(field) => Some(AFieldValue::Field(field)),
        }
    }
}

// A member, `:` and a value.
fn as_member_value<'t, 'a>(tree: &'t Tree<'a>) -> Option<(Member<'a>, Mark, &'t Tree<'a>)>
    ensures { MatchOption result ((c1 : ℕ) (cs2 : List ℕ) (a3 : g.Gram) → IsShaped tree.now (g.seq (g.ref k.Member)
        (g.seq (g.mark c1 cs2) (g.called n.the_value a3))) → ⊥)
        (λ p. tree.now ≡ member_value_tree p.0 p.1 p.2.now) }
{
    let Some((member, colon_token, expr)) = take::three(tree) else {
        return None;
    };
    let Some((member, colon_token, expr)) = joined::three(
        Member::of(member),
        take::mark(colon_token),
        inside::part(Part::Value, expr),
    ) else {
        return None;
    };
    Some((member, colon_token, expr))
}

// That, or a name by itself.
fn as_field_init<'t, 'a>(
    tree: &'t Tree<'a>,
) -> Option<(Member<'a>, Option<Mark>, Option<&'t Tree<'a>>)>
    ensures { MatchOption result ((t1 : List Token → Bool) (p2 : List ℕ → Bool) (c3 : ℕ) (cs4 : List ℕ) (a5 : g.Gram)
        → IsShaped tree.now (g.alt t1 (g.word p2) (g.seq (g.ref k.Member) (g.seq (g.mark c3 cs4)
        (g.called n.the_value a5)))) → ⊥)
        (λ p. tree.now ≡ field_init_tree p.0 p.1 p.2) }
{
    let Some(which) = take::chosen(tree) else {
        return None;
    };
    match which {
        Choice::First(inner) => match take::word(inner) {
            Some(word) => Some((Member::Named(word), None, None)),
            None => None,
        },
        Choice::Second(inner) => match as_member_value(inner) {
            Some((member, colon_token, expr)) => Some((member, Some(colon_token), Some(expr))),
            None => None,
        },
    }
}

/// A field of a struct's value: `a: b`, `a`.
#[derive(Clone, Copy)]
pub struct FieldValue<'t, 'a> {
    /// Its attributes.
    pub attrs: &'t Tree<'a>,
    /// Its name or its index.
    pub member: Member<'a>,
    /// `:`, where a value stands.
    pub colon_token: Option<Mark>,
    /// Its value; where none stands, the name is that too.
    pub expr: Option<&'t Tree<'a>>,
}

impl<'t, 'a> FieldValue<'t, 'a> {
    /// A tree of the kind `FieldValue`, as its parts. `None` only of trees that have another shape.
    #[tactic(auto, unfolding(syn_grammar::specs::Table::table))]
    pub fn of(tree: &'t Tree<'a>) -> Option<FieldValue<'t, 'a>>
        ensures { MatchOption result (IsShaped tree.now (g.ref k.FieldValue) → ⊥) (λ x. tree.now ≡ field_value x) }
    {
        let Some((attrs, init)) = inside::pair(Kind::FieldValue, tree) else {
            return None;
        };
        let Some((member, colon_token, expr)) = as_field_init(init) else {
            return None;
        };
        Some(FieldValue {
            attrs,
            member,
            colon_token,
            expr,
        })
    }
}
