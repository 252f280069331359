//! Generic parameters and where clauses.

ghost use Rattle.proc_macro2.specs.Token.{Token};
ghost use Rattle.std.specs.Prelude.{◌≡◌, MatchOption, Bool, List, ℕ};
ghost use Rattle.syn_ast.specs.Generics.{angled_params_tree, bounds, bounds_colon, clause_tree, const_default_tree};
ghost use Rattle.syn_ast.specs.Generics.{const_param, const_value, generic_param, generic_params, generics};
ghost use Rattle.syn_ast.specs.Generics.{impl_generics};
ghost use Rattle.syn_ast.specs.Generics.{lifetime_colon, lifetime_param, lifetimes, optional_where, predicate_lifetime};
ghost use Rattle.syn_ast.specs.Generics.{predicate_type, type_param, where_clause, where_predicate};
ghost use Rattle.syn_grammar.specs.Gram as g;
ghost use Rattle.syn_grammar.specs.Kind as k;
ghost use Rattle.syn_grammar.specs.Name as n;
ghost use Rattle.syn_grammar.specs.Tree as t;
ghost use Rattle.syn_part.specs.Leaves.{optional_tree};
ghost use Rattle.syn_part.specs.Shape.{IsShaped};

use reader_table::kind::Kind;
use reader_table::part::Part;
use reader_tree::tree::Tree;
use rust_leaf::ident::Ident;
use syn_part::leaf::{Lifetime, Mark};
use syn_part::list::Elements;
use syn_part::sub::{
    Lit, Marked, MarkedBounds, as_lit, optional_as_marked, optional_as_marked_bounds,
};
use syn_part::take::{self, Choice, Choice3};
use syn_part::{inside, joined};

/// Parameters in angle brackets: `<A, B>`.
#[derive(Clone, Copy)]
pub struct AngledParams<'t, 'a> {
    /// `<`
    pub lt_token: Mark,
    /// The parameters, as a form of the kind `GenericParams`.
    pub params: &'t Tree<'a>,
    /// `>`
    pub gt_token: Mark,
}

/// Parameters in their angle brackets, as their parts. `None` only of trees that have another shape.
#[tactic(auto, unfolding(syn_grammar::specs::Table::table))]
pub fn as_angled_params<'t, 'a>(tree: &'t Tree<'a>) -> Option<AngledParams<'t, 'a>>
    ensures { MatchOption result ((c1 : ℕ) (cs2 : List ℕ) (a3 : g.Gram) (c4 : ℕ) (cs5 : List ℕ) → IsShaped tree.now
        (g.seq (g.mark c1 cs2) (g.seq (g.called n.the_parameters a3) (g.mark c4 cs5))) → ⊥)
        (λ x. tree.now ≡ angled_params_tree x) }
{
    let Some((lt_token, params, gt_token)) = take::three(tree) else {
        return None;
    };
    let Some(params) = inside::part(Part::Parameters, params) else {
        return None;
    };
    let Some((lt_token, gt_token)) = joined::two(take::mark(lt_token), take::mark(gt_token)) else {
        return None;
    };
    Some(AngledParams {
        lt_token,
        params,
        gt_token,
    })
}

/// Parameters in angle brackets, where they stand; `Some(None)` where nothing does. `None` only of trees that
/// have another shape.
#[tactic(auto, unfolding(syn_grammar::specs::Table::table))]
pub fn optional_as_angled_params<'t, 'a>(tree: &'t Tree<'a>) -> Option<Option<AngledParams<'t, 'a>>>
    ensures { MatchOption result ((test : List Token → Bool) (c1 : ℕ) (cs2 : List ℕ) (a3 : g.Gram) (c4 : ℕ)
        (cs5 : List ℕ) → IsShaped tree.now (g.alt test (g.seq (g.mark c1 cs2) (g.seq (g.called n.the_parameters a3)
        (g.mark c4 cs5))) g.nothing) → ⊥)
        (λ x. tree.now ≡ optional_tree angled_params_tree x) }
{
    match take::optional(tree) {
        None => None,
        Some(None) => Some(None),
        Some(Some(inner)) => match as_angled_params(inner) {
            Some(found) => Some(Some(found)),
            None => None,
        },
    }
}

/// Generic parameters: `<A, B>`, or none.
#[derive(Clone, Copy)]
pub struct Generics<'t, 'a> {
    /// The parameters.
    pub params: Option<AngledParams<'t, 'a>>,
}

impl<'t, 'a> Generics<'t, 'a> {
    /// A tree of the kind `Generics`, as its parts. `None` only of trees that have another shape.
    #[tactic(auto, unfolding(syn_grammar::specs::Table::table))]
    pub fn of(tree: &'t Tree<'a>) -> Option<Generics<'t, 'a>>
        ensures { MatchOption result (IsShaped tree.now (g.ref k.Generics) → ⊥) (λ x. tree.now ≡ generics x) }
    {
        let Some(inner) = inside::node(Kind::Generics, tree) else {
            return None;
        };
        let Some(params) = optional_as_angled_params(inner) else {
            return None;
        };
        Some(Generics { params })
    }
}

/// The generic parameters of an impl: `<A, B>`, or none.
#[derive(Clone, Copy)]
pub struct ImplGenerics<'t, 'a> {
    /// The parameters.
    pub params: Option<AngledParams<'t, 'a>>,
}

impl<'t, 'a> ImplGenerics<'t, 'a> {
    /// A tree of the kind `ImplGenerics`, as its parts. `None` only of trees that have another shape.
    #[tactic(auto, unfolding(syn_grammar::specs::Table::table))]
    pub fn of(tree: &'t Tree<'a>) -> Option<ImplGenerics<'t, 'a>>
        ensures { MatchOption result (IsShaped tree.now (g.ref k.ImplGenerics) → ⊥) (λ x. tree.now ≡ impl_generics x) }
    {
        let Some(inner) = inside::node(Kind::ImplGenerics, tree) else {
            return None;
        };
        let Some(params) = optional_as_angled_params(inner) else {
            return None;
        };
        Some(ImplGenerics { params })
    }
}

/// Generic parameters.
#[derive(Clone, Copy)]
pub struct GenericParams<'t, 'a> {
    /// Each, as a form of the kind `GenericParam`.
    pub params: Elements<'t, 'a>,
}

impl<'t, 'a> GenericParams<'t, 'a> {
    /// A tree of the kind `GenericParams`, as its parts. `None` only of trees that have another shape.
    #[tactic(auto, unfolding(syn_grammar::specs::Table::table))]
    pub fn of(tree: &'t Tree<'a>) -> Option<GenericParams<'t, 'a>>
        ensures { MatchOption result (IsShaped tree.now (g.ref k.GenericParams) → ⊥)
            (λ x. tree.now ≡ generic_params x) }
    {
        let Some(inner) = inside::node(Kind::GenericParams, tree) else {
            return None;
        };
        let Some(params) = take::list(inner) else {
            return None;
        };
        Some(GenericParams { params })
    }
}

/// A lifetime as a parameter: `'a: 'b`.
#[derive(Clone, Copy)]
pub struct LifetimeParam<'t, 'a> {
    /// Its attributes.
    pub attrs: &'t Tree<'a>,
    /// The lifetime.
    pub lifetime: Lifetime<'a>,
    /// What it outlives, as a form of the kind `LifetimeColon`.
    pub colon: &'t Tree<'a>,
}

impl<'t, 'a> LifetimeParam<'t, 'a> {
    /// A tree of the kind `LifetimeParam`, as its parts. `None` only of trees that have another shape.
    #[tactic(auto, unfolding(syn_grammar::specs::Table::table))]
    pub fn of(tree: &'t Tree<'a>) -> Option<LifetimeParam<'t, 'a>>
        ensures { MatchOption result (IsShaped tree.now (g.ref k.LifetimeParam) → ⊥)
            (λ x. tree.now ≡ lifetime_param x) }
    {
        let Some((attrs, lifetime, colon)) = inside::three(Kind::LifetimeParam, tree) else {
            return None;
        };
        let Some(lifetime) = take::lifetime(lifetime) else {
            return None;
        };
        Some(LifetimeParam {
            attrs,
            lifetime,
            colon,
        })
    }
}

/// What a lifetime outlives: `: 'a + 'b`, or nothing.
#[derive(Clone, Copy)]
pub struct LifetimeColon<'t, 'a> {
    /// `:` and lifetimes.
    pub bounds: Option<MarkedBounds<'t, 'a>>,
}

impl<'t, 'a> LifetimeColon<'t, 'a> {
    /// A tree of the kind `LifetimeColon`, as its parts. `None` only of trees that have another shape.
    #[tactic(auto, unfolding(syn_grammar::specs::Table::table))]
    pub fn of(tree: &'t Tree<'a>) -> Option<LifetimeColon<'t, 'a>>
        ensures { MatchOption result (IsShaped tree.now (g.ref k.LifetimeColon) → ⊥)
            (λ x. tree.now ≡ lifetime_colon x) }
    {
        let Some(inner) = inside::node(Kind::LifetimeColon, tree) else {
            return None;
        };
        let Some(bounds) = optional_as_marked_bounds(inner) else {
            return None;
        };
        Some(LifetimeColon { bounds })
    }
}

/// Bounds behind a colon: `: A + B`, or none.
#[derive(Clone, Copy)]
pub struct BoundsColon<'t, 'a> {
    /// `:` and bounds.
    pub bounds: Option<MarkedBounds<'t, 'a>>,
}

impl<'t, 'a> BoundsColon<'t, 'a> {
    /// A tree of the kind `BoundsColon`, as its parts. `None` only of trees that have another shape.
    #[tactic(auto, unfolding(syn_grammar::specs::Table::table))]
    pub fn of(tree: &'t Tree<'a>) -> Option<BoundsColon<'t, 'a>>
        ensures { MatchOption result (IsShaped tree.now (g.ref k.BoundsColon) → ⊥) (λ x. tree.now ≡ bounds_colon x) }
    {
        let Some(inner) = inside::node(Kind::BoundsColon, tree) else {
            return None;
        };
        let Some(bounds) = optional_as_marked_bounds(inner) else {
            return None;
        };
        Some(BoundsColon { bounds })
    }
}

/// A type as a parameter: `T: A = B`.
#[derive(Clone, Copy)]
pub struct TypeParam<'t, 'a> {
    /// Its attributes.
    pub attrs: &'t Tree<'a>,
    /// Its name.
    pub ident: &'a Ident,
    /// Its bounds, as a form of the kind `BoundsColon`.
    pub colon: &'t Tree<'a>,
    /// `=` and the type that stands for it where none is given.
    pub default: Option<Marked<'t, 'a>>,
}

impl<'t, 'a> TypeParam<'t, 'a> {
    /// A tree of the kind `TypeParam`, as its parts. `None` only of trees that have another shape.
    #[tactic(auto, unfolding(syn_grammar::specs::Table::table))]
    pub fn of(tree: &'t Tree<'a>) -> Option<TypeParam<'t, 'a>>
        ensures { MatchOption result (IsShaped tree.now (g.ref k.TypeParam) → ⊥) (λ x. tree.now ≡ type_param x) }
    {
        let Some((attrs, ident, colon, default)) = inside::four(Kind::TypeParam, tree) else {
            return None;
        };
        let Some((ident, default)) = joined::two(take::word(ident), optional_as_marked(default))
        else {
            return None;
        };
        Some(TypeParam {
            attrs,
            ident,
            colon,
            default,
        })
    }
}

/// Bounds with `+` between them.
#[derive(Clone, Copy)]
pub struct Bounds<'t, 'a> {
    /// Each.
    pub bounds: Elements<'t, 'a>,
}

impl<'t, 'a> Bounds<'t, 'a> {
    /// A tree of the kind `Bounds`, as its parts. `None` only of trees that have another shape.
    #[tactic(auto, unfolding(syn_grammar::specs::Table::table))]
    pub fn of(tree: &'t Tree<'a>) -> Option<Bounds<'t, 'a>>
        ensures { MatchOption result (IsShaped tree.now (g.ref k.Bounds) → ⊥) (λ x. tree.now ≡ bounds x) }
    {
        let Some(inner) = inside::node(Kind::Bounds, tree) else {
            return None;
        };
        let Some(bounds) = take::list(inner) else {
            return None;
        };
        Some(Bounds { bounds })
    }
}

/// Lifetimes with `+` between them.
#[derive(Clone, Copy)]
pub struct Lifetimes<'t, 'a> {
    /// Each.
    pub lifetimes: Elements<'t, 'a>,
}

impl<'t, 'a> Lifetimes<'t, 'a> {
    /// A tree of the kind `Lifetimes`, as its parts. `None` only of trees that have another shape.
    #[tactic(auto, unfolding(syn_grammar::specs::Table::table))]
    pub fn of(tree: &'t Tree<'a>) -> Option<Lifetimes<'t, 'a>>
        ensures { MatchOption result (IsShaped tree.now (g.ref k.Lifetimes) → ⊥) (λ x. tree.now ≡ lifetimes x) }
    {
        let Some(inner) = inside::node(Kind::Lifetimes, tree) else {
            return None;
        };
        let Some(lifetimes) = take::list(inner) else {
            return None;
        };
        Some(Lifetimes { lifetimes })
    }
}

/// The value of a constant that is a parameter, where none is given.
#[derive(Clone, Copy)]
pub enum ConstValue<'t, 'a> {
    /// A literal.
    Lit(Lit<'a>),
    /// A block, as a form of the kind `Body`.
    Block(&'t Tree<'a>),
    /// A name.
    Ident(&'a Ident),
}

// The value of a constant, by what it is.
fn as_const_value<'t, 'a>(tree: &'t Tree<'a>) -> Option<ConstValue<'t, 'a>>
    ensures { MatchOption result ((r s u : List Token → Bool) (o p q : List ℕ → Bool) (a : g.Gram) → IsShaped tree.now
        (g.alt r (g.alt s (g.literal o) (g.word p)) (g.alt u a (g.word q))) → ⊥)
        (λ x. tree.now ≡ const_value x) }
{
    let Some(which) = take::chosen3(tree) else {
        return None;
    };
    match which {
        Choice3::First(inner) => match as_lit(inner) {
            Some(lit) => Some(ConstValue::Lit(lit)),
            None => None,
        },
        Choice3::Second(inner) => Some(ConstValue::Block(inner)),
        Choice3::Third(inner) => match take::word(inner) {
            Some(ident) => Some(ConstValue::Ident(ident)),
            None => None,
        },
    }
}

/// What stands for a constant where none is given: `= 1`.
#[derive(Clone, Copy)]
pub struct ConstDefault<'t, 'a> {
    /// `=`
    pub eq_token: Mark,
    /// The value.
    pub value: ConstValue<'t, 'a>,
}

// `=` and the value of a constant.
fn as_const_default<'t, 'a>(tree: &'t Tree<'a>) -> Option<ConstDefault<'t, 'a>>
    ensures { MatchOption result ((c : ℕ) (cs : List ℕ) (r s u : List Token → Bool) (o p q : List ℕ → Bool)
        (a : g.Gram) → IsShaped tree.now (g.seq (g.mark c cs) (g.called n.the_value (g.alt r (g.alt s (g.literal o)
        (g.word p)) (g.alt u a (g.word q))))) → ⊥)
        (λ x. tree.now ≡ const_default_tree x) }
{
    let Some((eq_token, value)) = take::pair(tree) else {
        return None;
    };
    let Some(value) = inside::part(Part::Value, value) else {
        return None;
    };
    let Some((eq_token, value)) = joined::two(take::mark(eq_token), as_const_value(value)) else {
        return None;
    };
    Some(ConstDefault { eq_token, value })
}

// `=` and a value, where one stands.
fn optional_as_const_default<'t, 'a>(tree: &'t Tree<'a>) -> Option<Option<ConstDefault<'t, 'a>>>
    ensures { MatchOption result ((there : List Token → Bool) (c : ℕ) (cs : List ℕ) (r s u : List Token → Bool)
        (o p q : List ℕ → Bool) (a : g.Gram) → IsShaped tree.now (g.alt there (g.seq (g.mark c cs)
        (g.called n.the_value (g.alt r (g.alt s (g.literal o) (g.word p)) (g.alt u a (g.word q))))) g.nothing) → ⊥)
        (λ x. tree.now ≡ optional_tree const_default_tree x) }
{
    match take::optional(tree) {
        None => None,
        Some(None) => Some(None),
        Some(Some(inner)) => match as_const_default(inner) {
            Some(found) => Some(Some(found)),
            None => None,
        },
    }
}

/// A constant as a parameter: `const N: T = 1`.
#[derive(Clone, Copy)]
pub struct ConstParam<'t, 'a> {
    /// Its attributes.
    pub attrs: &'t Tree<'a>,
    /// `const`
    pub const_token: &'a Ident,
    /// Its name.
    pub ident: &'a Ident,
    /// `:`
    pub colon_token: Mark,
    /// Its type.
    pub ty: &'t Tree<'a>,
    /// `=` and the value that stands for it where none is given.
    pub default: Option<ConstDefault<'t, 'a>>,
}

impl<'t, 'a> ConstParam<'t, 'a> {
    /// A tree of the kind `ConstParam`, as its parts. `None` only of trees that have another shape.
    #[tactic(auto, unfolding(syn_grammar::specs::Table::table))]
    pub fn of(tree: &'t Tree<'a>) -> Option<ConstParam<'t, 'a>>
        ensures { MatchOption result (IsShaped tree.now (g.ref k.ConstParam) → ⊥) (λ x. tree.now ≡ const_param x) }
    {
        let Some((attrs, const_token, ident, colon_token, ty, default)) = inside::six(
            Kind::ConstParam,
            tree,
        ) else {
            return None;
        };
        let Some((const_token, ident, colon_token, default)) = joined::four(
            take::word(const_token),
            take::word(ident),
            take::mark(colon_token),
            optional_as_const_default(default),
        ) else {
            return None;
        };
        Some(ConstParam {
            attrs,
            const_token,
            ident,
            colon_token,
            ty,
            default,
        })
    }
}

/// A generic parameter.
#[derive(Clone, Copy)]
pub enum GenericParam<'t, 'a> {
    /// A lifetime: `'a: 'b`.
    Lifetime(LifetimeParam<'t, 'a>),
    /// A type: `T: A = B`.
    Type(TypeParam<'t, 'a>),
    /// A constant: `const N: T = 1`.
    Const(ConstParam<'t, 'a>),
}

impl<'t, 'a> GenericParam<'t, 'a> {
    // A lifetime, by its name as a part.
    fn of_lifetime(tree: &'t Tree<'a>) -> Option<LifetimeParam<'t, 'a>>
        ensures { MatchOption result (IsShaped tree.now (g.called n.the_lifetime (g.ref k.LifetimeParam)) → ⊥)
            (λ x. tree.now ≡ t.Called n.the_lifetime (lifetime_param x)) }
    {
        let Some(inner) = inside::part(Part::Lifetime, tree) else {
            return None;
        };
        LifetimeParam::of(inner)
    }

    /// A tree of the kind `GenericParam`, as its parts. `None` only of trees that have another shape.
    #[tactic(auto, unfolding(syn_grammar::specs::Table::table))]
    pub fn of(tree: &'t Tree<'a>) -> Option<GenericParam<'t, 'a>>
        ensures { MatchOption result (IsShaped tree.now (g.ref k.GenericParam) → ⊥) (λ x. tree.now ≡ generic_param x) }
    {
        let Some(inner) = inside::node(Kind::GenericParam, tree) else {
            return None;
        };
        let Some(which) = take::chosen3(inner) else {
            return None;
        };
        match which {
            Choice3::First(inner) => match GenericParam::of_lifetime(inner) {
                Some(found) => Some(GenericParam::Lifetime(found)),
                None => None,
            },
            Choice3::Second(inner) => match ConstParam::of(inner) {
                Some(found) => Some(GenericParam::Const(found)),
                None => None,
            },
            Choice3::Third(inner) => match TypeParam::of(inner) {
                Some(found) => Some(GenericParam::Type(found)),
                None => None,
            },
        }
    }
}

/// A where clause: `where A: B, C: D`.
#[derive(Clone, Copy)]
pub struct WhereClause<'t, 'a> {
    /// `where`
    pub where_token: &'a Ident,
    /// What it asks, each as a form of the kind `WherePredicate`.
    pub predicates: Elements<'t, 'a>,
}

impl<'t, 'a> WhereClause<'t, 'a> {
    /// A tree of the kind `WhereClause`, as its parts. `None` only of trees that have another shape.
    #[tactic(auto, unfolding(syn_grammar::specs::Table::table))]
    pub fn of(tree: &'t Tree<'a>) -> Option<WhereClause<'t, 'a>>
        ensures { MatchOption result (IsShaped tree.now (g.ref k.WhereClause) → ⊥) (λ x. tree.now ≡ where_clause x) }
    {
        let Some((where_token, predicates, end)) = inside::three(Kind::WhereClause, tree) else {
            return None;
        };
        let Some(predicates) = inside::part(Part::Parameters, predicates) else {
            return None;
        };
        let Some((where_token, predicates)) = joined::two(
            take::word(where_token),
            take::list(predicates),
        ) else {
            return None;
        };
        if !take::is_ended(end) {
            return None;
        }
        Some(WhereClause {
            where_token,
            predicates,
        })
    }
}

/// A where clause, where one stands.
#[derive(Clone, Copy)]
pub struct OptionalWhere<'t, 'a> {
    /// It, as a form of the kind `WhereClause`.
    pub clause: Option<&'t Tree<'a>>,
}

// What stands there, if anything does.
fn optional_clause<'t, 'a>(tree: &'t Tree<'a>) -> Option<Option<&'t Tree<'a>>>
    ensures { MatchOption result ((there : List Token → Bool) (a : g.Gram) → IsShaped tree.now (g.alt there
        (g.called n.the_clause a) g.nothing) → ⊥)
        (λ x. tree.now ≡ optional_tree clause_tree x) }
{
    match take::optional(tree) {
        None => None,
        Some(None) => Some(None),
        Some(Some(inner)) => match inside::part(Part::Clause, inner) {
            Some(clause) => Some(Some(clause)),
            None => None,
        },
    }
}

impl<'t, 'a> OptionalWhere<'t, 'a> {
    /// A tree of the kind `Where`, as its parts. `None` only of trees that have another shape.
    #[tactic(auto, unfolding(syn_grammar::specs::Table::table))]
    pub fn of(tree: &'t Tree<'a>) -> Option<OptionalWhere<'t, 'a>>
        ensures { MatchOption result (IsShaped tree.now (g.ref k.Where) → ⊥) (λ x. tree.now ≡ optional_where x) }
    {
        let Some(inner) = inside::node(Kind::Where, tree) else {
            return None;
        };
        let Some(clause) = optional_clause(inner) else {
            return None;
        };
        Some(OptionalWhere { clause })
    }
}

/// What is asked of a lifetime: `'a: 'b + 'c`.
#[derive(Clone, Copy)]
pub struct PredicateLifetime<'t, 'a> {
    /// The lifetime.
    pub lifetime: Lifetime<'a>,
    /// `:`
    pub colon_token: Mark,
    /// What it outlives, as a form of the kind `Lifetimes`.
    pub bounds: &'t Tree<'a>,
}

// What is asked of a lifetime, as its parts.
fn as_predicate_lifetime<'t, 'a>(tree: &'t Tree<'a>) -> Option<PredicateLifetime<'t, 'a>>
    ensures { MatchOption result ((c : ℕ) (cs : List ℕ) (a : g.Gram) → IsShaped tree.now (g.seq g.lifetime
        (g.seq (g.mark c cs) a)) → ⊥)
        (λ x. tree.now ≡ predicate_lifetime x) }
{
    let Some((lifetime, colon_token, bounds)) = take::three(tree) else {
        return None;
    };
    let Some((lifetime, colon_token)) = joined::two(
        take::lifetime(lifetime),
        take::mark(colon_token),
    ) else {
        return None;
    };
    Some(PredicateLifetime {
        lifetime,
        colon_token,
        bounds,
    })
}

/// What is asked of a type: `for<'a> A: B + C`.
#[derive(Clone, Copy)]
pub struct PredicateType<'t, 'a> {
    /// `for<'a>`, as a form of the kind `BoundLifetimes`.
    pub lifetimes: Option<&'t Tree<'a>>,
    /// The type.
    pub bounded_ty: &'t Tree<'a>,
    /// `:`
    pub colon_token: Mark,
    /// Its bounds, as a form of the kind `Bounds`.
    pub bounds: &'t Tree<'a>,
}

// What is asked of a type, as its parts.
fn as_predicate_type<'t, 'a>(tree: &'t Tree<'a>) -> Option<PredicateType<'t, 'a>>
    ensures { MatchOption result ((there : List Token → Bool) (a b d : g.Gram) (c : ℕ) (cs : List ℕ)
        → IsShaped tree.now (g.seq (g.alt there a g.nothing) (g.seq b (g.seq (g.mark c cs) d))) → ⊥)
        (λ x. tree.now ≡ predicate_type x) }
{
    let Some((lifetimes, bounded_ty, colon_token, bounds)) = take::four(tree) else {
        return None;
    };
    let Some((lifetimes, colon_token)) = joined::two(
        take::optional(lifetimes),
        take::mark(colon_token),
    ) else {
        return None;
    };
    Some(PredicateType {
        lifetimes,
        bounded_ty,
        colon_token,
        bounds,
    })
}

/// What a where clause asks.
#[derive(Clone, Copy)]
pub enum WherePredicate<'t, 'a> {
    /// Of a lifetime: `'a: 'b + 'c`.
    Lifetime(PredicateLifetime<'t, 'a>),
    /// Of a type: `for<'a> A: B + C`.
    Type(PredicateType<'t, 'a>),
}

impl<'t, 'a> WherePredicate<'t, 'a> {
    /// A tree of the kind `WherePredicate`, as its parts. `None` only of trees that have another shape.
    #[tactic(auto, unfolding(syn_grammar::specs::Table::table))]
    pub fn of(tree: &'t Tree<'a>) -> Option<WherePredicate<'t, 'a>>
        ensures { MatchOption result (IsShaped tree.now (g.ref k.WherePredicate) → ⊥)
            (λ x. tree.now ≡ where_predicate x) }
    {
        let Some(inner) = inside::node(Kind::WherePredicate, tree) else {
            return None;
        };
        let Some(which) = take::chosen(inner) else {
            return None;
        };
        match which {
            Choice::First(inner) => match as_predicate_lifetime(inner) {
                Some(found) => Some(WherePredicate::Lifetime(found)),
                None => None,
            },
            Choice::Second(inner) => match as_predicate_type(inner) {
                Some(found) => Some(WherePredicate::Type(found)),
                None => None,
            },
        }
    }
}
