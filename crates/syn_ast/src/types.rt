//! Types.

ghost use Rattle.proc_macro2.specs.Token.{Token};
ghost use Rattle.std.specs.Prelude.{◌≡◌, MatchOption, Bool, List, false, ℕ};
ghost use Rattle.syn_ast.specs.Types.{abi, argument_name_tree, bound_lifetimes, fn_ptr_arg, form_of_type};
ghost use Rattle.syn_ast.specs.Types.{pointer_mutability, return_type, type_bounds};
ghost use Rattle.syn_ast.specs.Types.{type_bracketed, type_fn_ptr, type_impl_trait, type_infer, type_never};
ghost use Rattle.syn_ast.specs.Types.{type_parenthesized, type_path, type_ptr, type_reference, type_trait_object};
ghost use Rattle.syn_ast.specs.Types.{type_tree};
ghost use Rattle.syn_grammar.specs.Gram as g;
ghost use Rattle.syn_grammar.specs.Kind as k;
ghost use Rattle.syn_grammar.specs.Name as n;
ghost use Rattle.syn_grammar.specs.Types.{type_entry};
ghost use Rattle.syn_part.specs.Leaves.{optional_tree};
ghost use Rattle.syn_part.specs.Shape.{IsAmong, IsShaped, may_choose};

use reader_table::kind::{Kind, Plus, Style};
use reader_table::part::Part;
use reader_tree::tree::Tree;
use rust_leaf::ident::Ident;
use rust_leaf::literal::Literal;
use syn_part::leaf::{Delimiters, Lifetime, Mark};
use syn_part::list::Elements;
use syn_part::name::{Name, as_name};
use syn_part::sub::{MarkedType, MarkedValue, optional_as_marked_type, optional_as_marked_value};
use syn_part::take::{self, Choice};
use syn_part::{inside, joined};

/// Whether what a pointer points to can be written.
#[derive(Clone, Copy)]
pub enum PointerMutability<'a> {
    /// `const`
    Const(&'a Ident),
    /// `mut`
    Mut(&'a Ident),
}

// Which of both words stands there.
fn as_pointer_mutability<'a>(tree: &Tree<'a>) -> Option<PointerMutability<'a>>
    ensures { MatchOption result ((test : List Token → Bool) (p q : List ℕ → Bool)
        → IsShaped tree.now (g.alt test (g.word p) (g.word q)) → ⊥)
        (λ m. tree.now ≡ pointer_mutability m) }
{
    let Some(which) = take::chosen(tree) else {
        return None;
    };
    match which {
        Choice::First(inner) => match take::word(inner) {
            Some(word) => Some(PointerMutability::Const(word)),
            None => None,
        },
        Choice::Second(inner) => match take::word(inner) {
            Some(word) => Some(PointerMutability::Mut(word)),
            None => None,
        },
    }
}

/// The bounds of a trait object, or of an `impl` type.
#[derive(Clone, Copy)]
pub enum TypeBounds<'t, 'a> {
    /// Those with `+` between them, as a form of the kind `SomeBounds`.
    Several(&'t Tree<'a>),
    /// One, where no `+` may stand, as a form of the kind `Bound`.
    One(&'t Tree<'a>),
}

// Those with + between them.
fn several_bounds<'t, 'a>(tree: &'t Tree<'a>) -> Option<TypeBounds<'t, 'a>>
    ensures { MatchOption result ((a : g.Gram) → IsShaped tree.now (g.called n.the_bounds a) → ⊥)
        (λ b. tree.now ≡ type_bounds b) }
{
    let Some(bounds) = inside::part(Part::Bounds, tree) else {
        return None;
    };
    Some(TypeBounds::Several(bounds))
}

// One.
fn one_bound<'t, 'a>(tree: &'t Tree<'a>) -> Option<TypeBounds<'t, 'a>>
    ensures { MatchOption result ((test : List Token → Bool) (a : g.Gram) → may_choose a ≡ false
        → IsShaped tree.now (g.alt test g.never a) → ⊥)
        (λ b. tree.now ≡ type_bounds b) }
{
    let Some(Choice::Second(bound)) = take::chosen(tree) else {
        return None;
    };
    Some(TypeBounds::One(bound))
}

/// A pointer: `*const T`.
#[derive(Clone, Copy)]
pub struct TypePtr<'t, 'a> {
    /// `*`
    pub star_token: Mark,
    /// `const` or `mut`
    pub mutability: PointerMutability<'a>,
    /// The type that it points to.
    pub elem: &'t Tree<'a>,
}

impl<'t, 'a> TypePtr<'t, 'a> {
    /// A tree of the kind `PointerType`, as its parts. `None` only of trees that have another shape.
    #[tactic(auto, unfolding(syn_grammar::specs::Table::table))]
    pub fn of(tree: &'t Tree<'a>) -> Option<TypePtr<'t, 'a>>
        ensures { MatchOption result (IsShaped tree.now (g.ref k.PointerType) → ⊥) (λ x. tree.now ≡ type_ptr x) }
    {
        let Some((star_token, mutability, elem)) = inside::three(Kind::PointerType, tree) else {
            return None;
        };
        let Some((star_token, mutability)) = joined::two(
            take::mark(star_token),
            as_pointer_mutability(mutability),
        ) else {
            return None;
        };
        Some(TypePtr {
            star_token,
            mutability,
            elem,
        })
    }
}

/// A reference: `&'a mut T`.
#[derive(Clone, Copy)]
pub struct TypeReference<'t, 'a> {
    /// `&`
    pub and_token: Mark,
    /// `'a`
    pub lifetime: Option<Lifetime<'a>>,
    /// `mut`
    pub mutability: Option<&'a Ident>,
    /// The type that it refers to.
    pub elem: &'t Tree<'a>,
}

impl<'t, 'a> TypeReference<'t, 'a> {
    /// A tree of the kind `ReferenceType`, as its parts. `None` only of trees that have another shape.
    #[tactic(auto, unfolding(syn_grammar::specs::Table::table))]
    pub fn of(tree: &'t Tree<'a>) -> Option<TypeReference<'t, 'a>>
        ensures { MatchOption result (IsShaped tree.now (g.ref k.ReferenceType) → ⊥)
            (λ x. tree.now ≡ type_reference x) }
    {
        let Some((and_token, lifetime, mutability, elem)) = inside::four(Kind::ReferenceType, tree)
        else {
            return None;
        };
        let Some((and_token, lifetime, mutability)) = joined::three(
            take::mark(and_token),
            take::optional_lifetime(lifetime),
            take::optional_word(mutability),
        ) else {
            return None;
        };
        Some(TypeReference {
            and_token,
            lifetime,
            mutability,
            elem,
        })
    }
}

/// The type of what never returns: `!`.
#[derive(Clone, Copy)]
pub struct TypeNever {
    /// `!`
    pub bang_token: Mark,
}

impl TypeNever {
    /// A tree of the kind `NeverType`, as its parts. `None` only of trees that have another shape.
    #[tactic(auto, unfolding(syn_grammar::specs::Table::table))]
    pub fn of(tree: &Tree<'_>) -> Option<TypeNever>
        ensures { MatchOption result (IsShaped tree.now (g.ref k.NeverType) → ⊥) (λ x. tree.now ≡ type_never x) }
    {
        let Some(inner) = inside::node(Kind::NeverType, tree) else {
            return None;
        };
        let Some(bang_token) = take::mark(inner) else {
            return None;
        };
        Some(TypeNever { bang_token })
    }
}

/// A type that is to be inferred: `_`.
#[derive(Clone, Copy)]
pub struct TypeInfer<'a> {
    /// `_`
    pub underscore_token: &'a Ident,
}

impl<'a> TypeInfer<'a> {
    /// A tree of the kind `InferType`, as its parts. `None` only of trees that have another shape.
    #[tactic(auto, unfolding(syn_grammar::specs::Table::table))]
    pub fn of(tree: &Tree<'a>) -> Option<TypeInfer<'a>>
        ensures { MatchOption result (IsShaped tree.now (g.ref k.InferType) → ⊥) (λ x. tree.now ≡ type_infer x) }
    {
        let Some(inner) = inside::node(Kind::InferType, tree) else {
            return None;
        };
        let Some(underscore_token) = take::word(inner) else {
            return None;
        };
        Some(TypeInfer { underscore_token })
    }
}

/// A function pointer: `for<'a> unsafe extern "C" fn(A, B) -> C`.
#[derive(Clone, Copy)]
pub struct TypeFnPtr<'t, 'a> {
    /// `for<'a>`
    pub lifetimes: Option<&'t Tree<'a>>,
    /// `unsafe`
    pub unsafety: Option<&'a Ident>,
    /// `extern "C"`
    pub abi: Option<&'t Tree<'a>>,
    /// `fn`
    pub fn_token: &'a Ident,
    /// The parentheses.
    pub paren_token: Delimiters,
    /// What it takes.
    pub inputs: Elements<'t, 'a>,
    /// What it returns.
    pub output: &'t Tree<'a>,
}

impl<'t, 'a> TypeFnPtr<'t, 'a> {
    /// A tree of the kind `FnPtrType`, as its parts. `None` only of trees that have another shape.
    #[tactic(auto, unfolding(syn_grammar::specs::Table::table))]
    pub fn of(tree: &'t Tree<'a>) -> Option<TypeFnPtr<'t, 'a>>
        ensures { MatchOption result (IsShaped tree.now (g.ref k.FnPtrType) → ⊥) (λ x. tree.now ≡ type_fn_ptr x) }
    {
        let Some((lifetimes, unsafety, abi, fn_token, paren_token, output)) = inside::six(
            Kind::FnPtrType,
            tree,
        ) else {
            return None;
        };
        let Some((paren_token, inside)) = take::group(paren_token) else {
            return None;
        };
        let Some((lifetimes, unsafety, abi, fn_token, inputs)) = joined::five(
            take::optional(lifetimes),
            take::optional_word(unsafety),
            take::optional(abi),
            take::word(fn_token),
            take::list(inside),
        ) else {
            return None;
        };
        Some(TypeFnPtr {
            lifetimes,
            unsafety,
            abi,
            fn_token,
            paren_token,
            inputs,
            output,
        })
    }
}

/// The name of a function pointer's argument: `a:`, `_:`.
#[derive(Clone, Copy)]
pub struct ArgumentName<'a> {
    /// The name, or `_`.
    pub ident: Name<'a>,
    /// `:`
    pub colon_token: Mark,
}

// The name of an argument, as its parts.
fn as_argument_name<'a>(tree: &Tree<'a>) -> Option<ArgumentName<'a>>
    ensures { MatchOption result ((test : List Token → Bool) (p q : List ℕ → Bool) (c : ℕ) (cs : List ℕ)
        → IsShaped tree.now (g.seq (g.alt test (g.word p) (g.word q)) (g.mark c cs)) → ⊥)
        (λ x. tree.now ≡ argument_name_tree x) }
{
    let Some((ident, colon_token)) = take::pair(tree) else {
        return None;
    };
    let Some((ident, colon_token)) = joined::two(as_name(ident), take::mark(colon_token)) else {
        return None;
    };
    Some(ArgumentName { ident, colon_token })
}

// The name of an argument, where one stands.
fn optional_as_argument_name<'a>(tree: &Tree<'a>) -> Option<Option<ArgumentName<'a>>>
    ensures { MatchOption result ((there test : List Token → Bool) (p q : List ℕ → Bool) (c : ℕ) (cs : List ℕ)
        → IsShaped tree.now (g.alt there (g.seq (g.alt test (g.word p) (g.word q)) (g.mark c cs)) g.nothing) → ⊥)
        (λ x. tree.now ≡ optional_tree argument_name_tree x) }
{
    match take::optional(tree) {
        None => None,
        Some(None) => Some(None),
        Some(Some(inner)) => match as_argument_name(inner) {
            Some(found) => Some(Some(found)),
            None => None,
        },
    }
}

/// An argument of a function pointer: `a: T`.
#[derive(Clone, Copy)]
pub struct FnPtrArg<'t, 'a> {
    /// Its attributes.
    pub attrs: &'t Tree<'a>,
    /// Its name and `:`.
    pub name: Option<ArgumentName<'a>>,
    /// Its type.
    pub ty: &'t Tree<'a>,
}

impl<'t, 'a> FnPtrArg<'t, 'a> {
    /// A tree of the kind `FnPtrArg`, as its parts. `None` only of trees that have another shape.
    #[tactic(auto, unfolding(syn_grammar::specs::Table::table))]
    pub fn of(tree: &'t Tree<'a>) -> Option<FnPtrArg<'t, 'a>>
        ensures { MatchOption result (IsShaped tree.now (g.ref k.FnPtrArg) → ⊥) (λ x. tree.now ≡ fn_ptr_arg x) }
    {
        let Some((attrs, name, ty)) = inside::three(Kind::FnPtrArg, tree) else {
            return None;
        };
        let Some(name) = optional_as_argument_name(name) else {
            return None;
        };
        Some(FnPtrArg { attrs, name, ty })
    }
}

/// The binary interface of a function: `extern "C"`.
#[derive(Clone, Copy)]
pub struct Abi<'a> {
    /// `extern`
    pub extern_token: &'a Ident,
    /// `"C"`
    pub name: Option<&'a Literal>,
}

impl<'a> Abi<'a> {
    /// A tree of the kind `Abi`, as its parts. `None` only of trees that have another shape.
    #[tactic(auto, unfolding(syn_grammar::specs::Table::table))]
    pub fn of(tree: &Tree<'a>) -> Option<Abi<'a>>
        ensures { MatchOption result (IsShaped tree.now (g.ref k.Abi) → ⊥) (λ x. tree.now ≡ abi x) }
    {
        let Some((extern_token, name)) = inside::pair(Kind::Abi, tree) else {
            return None;
        };
        let Some((extern_token, name)) = joined::two(
            take::word(extern_token),
            take::optional_literal(name),
        ) else {
            return None;
        };
        Some(Abi { extern_token, name })
    }
}

/// Lifetimes that are bound: `for<'a>`.
#[derive(Clone, Copy)]
pub struct BoundLifetimes<'t, 'a> {
    /// `for`
    pub for_token: &'a Ident,
    /// `<`
    pub lt_token: Mark,
    /// The lifetimes, each as a parameter.
    pub lifetimes: Elements<'t, 'a>,
    /// `>`
    pub gt_token: Mark,
}

impl<'t, 'a> BoundLifetimes<'t, 'a> {
    /// A tree of the kind `BoundLifetimes`, as its parts. `None` only of trees that have another shape.
    #[tactic(auto, unfolding(syn_grammar::specs::Table::table))]
    pub fn of(tree: &'t Tree<'a>) -> Option<BoundLifetimes<'t, 'a>>
        ensures { MatchOption result (IsShaped tree.now (g.ref k.BoundLifetimes) → ⊥)
            (λ x. tree.now ≡ bound_lifetimes x) }
    {
        let Some((for_token, lt_token, lifetimes, gt_token)) = inside::four(
            Kind::BoundLifetimes,
            tree,
        ) else {
            return None;
        };
        let Some((for_token, lt_token, lifetimes, gt_token)) = joined::four(
            take::word(for_token),
            take::mark(lt_token),
            take::list(lifetimes),
            take::mark(gt_token),
        ) else {
            return None;
        };
        Some(BoundLifetimes {
            for_token,
            lt_token,
            lifetimes,
            gt_token,
        })
    }
}

/// What a function returns: `-> T`, or nothing.
#[derive(Clone, Copy)]
pub struct ReturnType<'t, 'a> {
    /// Whether it may hold bounds with a `+` between them.
    pub plus: Plus,
    /// `->` and the type.
    pub ty: Option<MarkedType<'t, 'a>>,
}

impl<'t, 'a> ReturnType<'t, 'a> {
    /// A tree of the kind `ReturnType`, as its parts. `None` only of trees that have another shape.
    #[tactic(auto, unfolding(syn_grammar::specs::Table::table))]
    pub fn of(tree: &'t Tree<'a>) -> Option<ReturnType<'t, 'a>>
        ensures { MatchOption result ((p : k.Plus) → IsShaped tree.now (g.ref (k.ReturnType p)) → ⊥)
            (λ x. tree.now ≡ return_type x) }
    {
        let Some((Kind::ReturnType(plus), inner)) = take::node(tree) else {
            return None;
        };
        let Some(ty) = optional_as_marked_type(inner) else {
            return None;
        };
        Some(ReturnType { plus, ty })
    }
}

/// A slice or an array.
#[derive(Clone, Copy)]
pub struct TypeBracketed<'t, 'a> {
    /// The brackets.
    pub bracket_token: Delimiters,
    /// The type of its elements.
    pub elem: &'t Tree<'a>,
    /// `;` and how many elements there are.
    pub len: Option<MarkedValue<'t, 'a>>,
}

impl<'t, 'a> TypeBracketed<'t, 'a> {
    /// A tree of the kind `BracketType`, as its parts. `None` only of trees that have another shape.
    #[tactic(auto, unfolding(syn_grammar::specs::Table::table))]
    pub fn of(tree: &'t Tree<'a>) -> Option<TypeBracketed<'t, 'a>>
        ensures { MatchOption result (IsShaped tree.now (g.ref k.BracketType) → ⊥) (λ x. tree.now ≡ type_bracketed x) }
    {
        let Some((bracket_token, inside)) = inside::group(Kind::BracketType, tree) else {
            return None;
        };
        let Some((elem, len)) = take::pair(inside) else {
            return None;
        };
        let Some(len) = optional_as_marked_value(len) else {
            return None;
        };
        Some(TypeBracketed {
            bracket_token,
            elem,
            len,
        })
    }
}

/// A tuple, or a type in parentheses.
#[derive(Clone, Copy)]
pub struct TypeParenthesized<'t, 'a> {
    /// The parentheses.
    pub paren_token: Delimiters,
    /// The types in them.
    pub elems: Elements<'t, 'a>,
}

impl<'t, 'a> TypeParenthesized<'t, 'a> {
    /// A tree of the kind `TupleType`, as its parts. `None` only of trees that have another shape.
    #[tactic(auto, unfolding(syn_grammar::specs::Table::table))]
    pub fn of(tree: &'t Tree<'a>) -> Option<TypeParenthesized<'t, 'a>>
        ensures { MatchOption result (IsShaped tree.now (g.ref k.TupleType) → ⊥)
            (λ x. tree.now ≡ type_parenthesized x) }
    {
        let Some((paren_token, inside)) = inside::group(Kind::TupleType, tree) else {
            return None;
        };
        let Some(elems) = take::list(inside) else {
            return None;
        };
        Some(TypeParenthesized { paren_token, elems })
    }
}

/// A trait object: `dyn A + B`.
#[derive(Clone, Copy)]
pub struct TypeTraitObject<'t, 'a> {
    /// Whether it may hold bounds with a `+` between them.
    pub plus: Plus,
    /// `dyn`
    pub dyn_token: &'a Ident,
    /// Its bounds.
    pub bounds: TypeBounds<'t, 'a>,
}

impl<'t, 'a> TypeTraitObject<'t, 'a> {
    // With + between them.
    #[tactic(auto, unfolding(syn_grammar::specs::Table::table))]
    fn with_plus(tree: &'t Tree<'a>) -> Option<TypeTraitObject<'t, 'a>>
        ensures { MatchOption result (IsShaped tree.now (g.ref (k.DynType k.WithPlus)) → ⊥)
            (λ x. tree.now ≡ type_trait_object x) }
    {
        let Some((dyn_token, bounds)) = inside::pair(Kind::DynType(Plus::WithPlus), tree) else {
            return None;
        };
        let Some((dyn_token, bounds)) = joined::two(take::word(dyn_token), several_bounds(bounds))
        else {
            return None;
        };
        Some(TypeTraitObject {
            plus: Plus::WithPlus,
            dyn_token,
            bounds,
        })
    }

    // Without.
    #[tactic(auto, unfolding(syn_grammar::specs::Table::table))]
    fn without_plus(tree: &'t Tree<'a>) -> Option<TypeTraitObject<'t, 'a>>
        ensures { MatchOption result (IsShaped tree.now (g.ref (k.DynType k.WithoutPlus)) → ⊥)
            (λ x. tree.now ≡ type_trait_object x) }
    {
        let Some((dyn_token, bounds)) = inside::pair(Kind::DynType(Plus::WithoutPlus), tree) else {
            return None;
        };
        let Some((dyn_token, bounds)) = joined::two(take::word(dyn_token), one_bound(bounds)) else {
            return None;
        };
        Some(TypeTraitObject {
            plus: Plus::WithoutPlus,
            dyn_token,
            bounds,
        })
    }

    /// A tree of the kind `DynType`, as its parts. `None` only of trees that have another shape.
    #[tactic(auto, using(crate::proofs::TypeForms::either_plus_DynType))]
    pub fn of(tree: &'t Tree<'a>) -> Option<TypeTraitObject<'t, 'a>>
        ensures { MatchOption result ((p : k.Plus) → IsShaped tree.now (g.ref (k.DynType p)) → ⊥)
            (λ x. tree.now ≡ type_trait_object x) }
    {
        match TypeTraitObject::with_plus(tree) {
            Some(found) => Some(found),
            None => TypeTraitObject::without_plus(tree),
        }
    }
}

/// An opaque type: `impl A + B`.
#[derive(Clone, Copy)]
pub struct TypeImplTrait<'t, 'a> {
    /// Whether it may hold bounds with a `+` between them.
    pub plus: Plus,
    /// `impl`
    pub impl_token: &'a Ident,
    /// Its bounds.
    pub bounds: TypeBounds<'t, 'a>,
}

impl<'t, 'a> TypeImplTrait<'t, 'a> {
    // With + between them.
    #[tactic(auto, unfolding(syn_grammar::specs::Table::table))]
    fn with_plus(tree: &'t Tree<'a>) -> Option<TypeImplTrait<'t, 'a>>
        ensures { MatchOption result (IsShaped tree.now (g.ref (k.ImplType k.WithPlus)) → ⊥)
            (λ x. tree.now ≡ type_impl_trait x) }
    {
        let Some((impl_token, bounds)) = inside::pair(Kind::ImplType(Plus::WithPlus), tree) else {
            return None;
        };
        let Some((impl_token, bounds)) = joined::two(take::word(impl_token), several_bounds(bounds))
        else {
            return None;
        };
        Some(TypeImplTrait {
            plus: Plus::WithPlus,
            impl_token,
            bounds,
        })
    }

    // Without.
    #[tactic(auto, unfolding(syn_grammar::specs::Table::table))]
    fn without_plus(tree: &'t Tree<'a>) -> Option<TypeImplTrait<'t, 'a>>
        ensures { MatchOption result (IsShaped tree.now (g.ref (k.ImplType k.WithoutPlus)) → ⊥)
            (λ x. tree.now ≡ type_impl_trait x) }
    {
        let Some((impl_token, bounds)) = inside::pair(Kind::ImplType(Plus::WithoutPlus), tree)
        else {
            return None;
        };
        let Some((impl_token, bounds)) = joined::two(take::word(impl_token), one_bound(bounds))
        else {
            return None;
        };
        Some(TypeImplTrait {
            plus: Plus::WithoutPlus,
            impl_token,
            bounds,
        })
    }

    /// A tree of the kind `ImplType`, as its parts. `None` only of trees that have another shape.
    #[tactic(auto, using(crate::proofs::TypeForms::either_plus_ImplType))]
    pub fn of(tree: &'t Tree<'a>) -> Option<TypeImplTrait<'t, 'a>>
        ensures { MatchOption result ((p : k.Plus) → IsShaped tree.now (g.ref (k.ImplType p)) → ⊥)
            (λ x. tree.now ≡ type_impl_trait x) }
    {
        match TypeImplTrait::with_plus(tree) {
            Some(found) => Some(found),
            None => TypeImplTrait::without_plus(tree),
        }
    }
}

/// A type that is a path, perhaps a qualified one.
#[derive(Clone, Copy)]
pub struct TypePath<'t, 'a> {
    /// How it is written.
    pub style: Style,
    /// The path, as a form of the kind `QualifiedPath` or `Path`.
    pub path: AnyPath<'t, 'a>,
}

/// A path, perhaps a qualified one.
#[derive(Clone, Copy)]
pub enum AnyPath<'t, 'a> {
    /// A qualified one, as a form of the kind `QualifiedPath`.
    Qualified(&'t Tree<'a>),
    /// Another, as a form of the kind `Path`.
    Plain(&'t Tree<'a>),
}

impl<'t, 'a> TypePath<'t, 'a> {
    /// A tree of the kind `AnyPath`, as its parts. `None` only of trees that have another shape.
    #[tactic(auto, unfolding(syn_grammar::specs::Table::table))]
    pub fn of(tree: &'t Tree<'a>) -> Option<TypePath<'t, 'a>>
        ensures { MatchOption result ((s : k.Style) → IsShaped tree.now (g.ref (k.AnyPath s)) → ⊥)
            (λ x. tree.now ≡ type_path x) }
    {
        let Some((Kind::AnyPath(style), inner)) = take::node(tree) else {
            return None;
        };
        let Some(which) = take::chosen(inner) else {
            return None;
        };
        match which {
            Choice::First(path) => Some(TypePath {
                style,
                path: AnyPath::Qualified(path),
            }),
            Choice::Second(path) => Some(TypePath {
                style,
                path: AnyPath::Plain(path),
            }),
        }
    }
}

/// A slice: `[T]`.
#[derive(Clone, Copy)]
pub struct TypeSlice<'t, 'a> {
    /// The brackets.
    pub bracket_token: Delimiters,
    /// The type of its elements.
    pub elem: &'t Tree<'a>,
}

/// An array: `[T; N]`.
#[derive(Clone, Copy)]
pub struct TypeArray<'t, 'a> {
    /// The brackets.
    pub bracket_token: Delimiters,
    /// The type of its elements.
    pub elem: &'t Tree<'a>,
    /// `;`
    pub semi_token: Mark,
    /// How many there are, as an expression.
    pub len: &'t Tree<'a>,
}

/// A type in parentheses: `(T)`.
#[derive(Clone, Copy)]
pub struct TypeParen<'t, 'a> {
    /// The parentheses.
    pub paren_token: Delimiters,
    /// The type in them.
    pub elem: &'t Tree<'a>,
}

/// A tuple: `(A, B)`.
#[derive(Clone, Copy)]
pub struct TypeTuple<'t, 'a> {
    /// The parentheses.
    pub paren_token: Delimiters,
    /// The types in them.
    pub elems: Elements<'t, 'a>,
}

/// A type, by its form.
#[derive(Clone, Copy)]
pub enum Type<'t, 'a> {
    /// `[T; N]`
    Array(TypeArray<'t, 'a>),
    /// `fn(A) -> B`
    FnPtr(TypeFnPtr<'t, 'a>),
    /// `impl A + B`
    ImplTrait(TypeImplTrait<'t, 'a>),
    /// `_`
    Infer(TypeInfer<'a>),
    /// `!`
    Never(TypeNever),
    /// `(T)`
    Paren(TypeParen<'t, 'a>),
    /// `a::B<C>`, `<T as A>::B`
    Path(TypePath<'t, 'a>),
    /// `*const T`
    Ptr(TypePtr<'t, 'a>),
    /// `&'a mut T`
    Reference(TypeReference<'t, 'a>),
    /// `[T]`
    Slice(TypeSlice<'t, 'a>),
    /// `dyn A + B`
    TraitObject(TypeTraitObject<'t, 'a>),
    /// `(A, B)`
    Tuple(TypeTuple<'t, 'a>),
}

// A slice, or an array.
fn slice_or_array<'t, 'a>(found: TypeBracketed<'t, 'a>) -> Type<'t, 'a>
    ensures { type_tree result ≡ type_bracketed found.entry }
{
    let bracket_token = found.bracket_token;
    let elem = found.elem;
    match found.len {
        None => Type::Slice(TypeSlice {
            bracket_token,
            elem,
        }),
        Some(len) => Type::Array(TypeArray {
            bracket_token,
            elem,
            semi_token: len.mark,
            len: len.node,
        }),
    }
}

// A tuple, or a type in parentheses.
#[tactic(auto, using(crate::proofs::TypeForms::several_types))]
fn tuple_or_paren<'t, 'a>(found: TypeParenthesized<'t, 'a>) -> Type<'t, 'a>
    ensures { type_tree result ≡ type_parenthesized found.entry }
{
    let paren_token = found.paren_token;
    let elems = found.elems;
    if let Some(elem) = elems.only() {
        return Type::Paren(TypeParen { paren_token, elem });
    }
    Type::Tuple(TypeTuple { paren_token, elems })
}

impl<'t, 'a> Type<'t, 'a> {
    /// The type that a tree is, by its form, if the tree is a type.
    #[tactic(auto, using(crate::proofs::TypeForms::type_inside))]
    pub fn of(tree: &'t Tree<'a>) -> Option<Type<'t, 'a>>
        ensures { MatchOption result ((p : k.Plus) → IsShaped tree.now (g.ref (k.AType p)) → ⊥)
            (λ x. form_of_type tree.now ≡ type_tree x) }
    {
        let Some((Kind::AType(_), inner)) = take::node(tree) else {
            return None;
        };
        let form = inner.choice();
        match Type::of_form(form) {
            Some(found) => Some(found),
            None => None,
        }
    }

    // The type that a form of one is.
    fn of_form(tree: &'t Tree<'a>) -> Option<Type<'t, 'a>>
        ensures { MatchOption result ((p : k.Plus) → IsAmong tree.now (type_entry p) → ⊥)
            (λ x. tree.now ≡ type_tree x) }
    {
        if let Some(found) = TypeParenthesized::of(tree) {
            return Some(tuple_or_paren(found));
        }
        if let Some(found) = TypeNever::of(tree) {
            return Some(Type::Never(found));
        }
        if let Some(found) = TypeReference::of(tree) {
            return Some(Type::Reference(found));
        }
        if let Some(found) = TypePtr::of(tree) {
            return Some(Type::Ptr(found));
        }
        if let Some(found) = TypeBracketed::of(tree) {
            return Some(slice_or_array(found));
        }
        if let Some(found) = TypeInfer::of(tree) {
            return Some(Type::Infer(found));
        }
        if let Some(found) = TypeTraitObject::of(tree) {
            return Some(Type::TraitObject(found));
        }
        if let Some(found) = TypeImplTrait::of(tree) {
            return Some(Type::ImplTrait(found));
        }
        if let Some(found) = TypeFnPtr::of(tree) {
            return Some(Type::FnPtr(found));
        }
        if let Some(found) = TypePath::of(tree) {
            return Some(Type::Path(found));
        }
        None
    }
}
