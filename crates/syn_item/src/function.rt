//! Functions: their signatures, parameters and receivers.

ghost use Rattle.proc_macro2.specs.Token.{Token};
ghost use Rattle.std.specs.Prelude.{◌≡◌, Bool, IfSome, List, MatchOption, ℕ};
ghost use Rattle.syn_grammar.specs.Gram as g;
ghost use Rattle.syn_grammar.specs.Items.{safety};
ghost use Rattle.syn_grammar.specs.Kind as k;
ghost use Rattle.syn_grammar.specs.Name as n;
ghost use Rattle.syn_grammar.specs.Tree as t;
ghost use Rattle.syn_item.specs.ItemFunctions.{IsBehind, IsItemFn, IsReceiver, IsSafety, fn_arg_tree, one_parameter};
ghost use Rattle.syn_item.specs.ItemFunctions.{parameter, parameters, safety_is, signature, typed_pattern};
ghost use Rattle.syn_item.specs.ItemParts.{named_tree, safety_tree};
ghost use Rattle.syn_item.specs.declared.function.Safety.TheVariants as safeties;
ghost use Rattle.syn_part.specs.Kept.{IsKept};
ghost use Rattle.syn_part.specs.Leaves.{word_tree};
ghost use Rattle.syn_part.specs.Shape.{IsShaped};

use reader_table::kind::{Kind, Place};
use reader_table::part::Part;
use reader_tree::tree::Tree;
use rust_leaf::ident::Ident;
use syn_part::leaf::{Delimiters, Lifetime, Mark};
use syn_part::list::Elements;
use syn_part::sub::optional_as_marked;
use syn_part::take::{self, Choice, Choice4};
use syn_part::{inside, joined};
use syn_pat::pat_type::PatType;

/// The parameters of a function: `(a: A, b: B)`.
#[derive(Clone, Copy)]
pub struct Parameters<'t, 'a> {
    /// The parentheses.
    pub paren_token: Delimiters,
    /// Each, as a form of the kind `Parameter`.
    pub inputs: Elements<'t, 'a>,
}

impl<'t, 'a> Parameters<'t, 'a> {
    /// What a tree is, if it is that. Parameters that were read are kept as they were read.
    #[tactic(auto, unfolding(syn_grammar::specs::Table::table))]
    pub fn of(tree: &'t Tree<'a>) -> Option<Parameters<'t, 'a>>
        ensures { MatchOption result (IsKept tree.now → IsShaped tree.now (g.ref k.Parameters) → ⊥)
            (λ x. tree.now ≡ parameters x) }
    {
        let Some(inner) = inside::kept(Kind::Parameters, tree) else {
            return None;
        };
        let Some((paren_token, inside)) = take::group(inner) else {
            return None;
        };
        let Some(inputs) = take::list(inside) else {
            return None;
        };
        Some(Parameters {
            paren_token,
            inputs,
        })
    }
}

/// A pattern before `...`: `a:`.
#[derive(Clone, Copy)]
pub struct VariadicPat<'t, 'a> {
    /// The pattern.
    pub pat: &'t Tree<'a>,
    /// `:`
    pub colon_token: Mark,
}

/// Any number of further arguments: `a: ...`.
#[derive(Clone, Copy)]
pub struct Variadic<'t, 'a> {
    /// The pattern, and `:`.
    pub pat: Option<VariadicPat<'t, 'a>>,
    /// `...`
    pub dots: Mark,
}

/// What a parameter is.
#[derive(Clone, Copy)]
pub enum FnArg<'t, 'a> {
    /// A receiver, as a form of the kind `Receiver`.
    Receiver(&'t Tree<'a>),
    /// A pattern and its type, with the attributes of the parameter.
    Typed(PatType<'t, 'a>),
    /// A type alone.
    Unnamed(&'t Tree<'a>),
    /// Any number of further arguments.
    Variadic(Variadic<'t, 'a>),
}

// A pattern with its type, or with dots, behind these attributes.
fn as_typed<'t, 'a>(attrs: &'t Tree<'a>, tree: &'t Tree<'a>) -> Option<FnArg<'t, 'a>>
    ensures tree_is { MatchOption result ((a b : g.Gram) (c d : ℕ) (cs ds : List ℕ) (test : List Token → Bool)
        → IsShaped tree.now (g.seq (g.called n.the_pattern a) (g.seq (g.mark c cs) (g.alt test (g.called n.the_dots
        (g.mark d ds)) (g.called n.the_type b)))) → ⊥) (λ x. t.Second (t.Second (t.Second tree.now)) ≡ fn_arg_tree x) }
    ensures attributes { IfSome result (λ x. IsBehind attrs.entry x) }
{
    let Some((pat, colon_token, behind)) = take::three(tree) else {
        return None;
    };
    let Some((pat, colon_token, behind)) = joined::three(
        inside::part(Part::Pattern, pat),
        take::mark(colon_token),
        take::chosen(behind),
    ) else {
        return None;
    };
    match behind {
        Choice::First(inner) => match inside::mark(Part::Dots, inner) {
            Some(dots) => Some(FnArg::Variadic(Variadic {
                pat: Some(VariadicPat { pat, colon_token }),
                dots,
            })),
            None => None,
        },
        Choice::Second(inner) => match inside::part(Part::Type, inner) {
            Some(ty) => Some(FnArg::Typed(PatType {
                attrs: Some(attrs),
                pat,
                colon_token,
                ty,
            })),
            None => None,
        },
    }
}

// What a parameter is behind its attributes.
fn as_fn_arg<'t, 'a>(attrs: &'t Tree<'a>, tree: &'t Tree<'a>) -> Option<FnArg<'t, 'a>>
    ensures tree_is { MatchOption result ((s u v w : List Token → Bool) (a b i j : g.Gram) (c d e : ℕ)
        (cs ds es : List ℕ)
        → IsShaped tree.now (g.alt s (g.called n.the_receiver i) (g.alt u (g.called n.the_dots (g.mark e es)) (g.alt v
        (g.called n.the_unnamed j) (g.seq (g.called n.the_pattern a) (g.seq (g.mark c cs) (g.alt w (g.called n.the_dots
        (g.mark d ds)) (g.called n.the_type b))))))) → ⊥) (λ x. tree.now ≡ fn_arg_tree x) }
    ensures attributes { IfSome result (λ x. IsBehind attrs.entry x) }
{
    match take::chosen4(tree) {
        Some(Choice4::First(inner)) => match inside::part(Part::Receiver, inner) {
            Some(receiver) => Some(FnArg::Receiver(receiver)),
            None => None,
        },
        Some(Choice4::Second(inner)) => match inside::mark(Part::Dots, inner) {
            Some(dots) => Some(FnArg::Variadic(Variadic { pat: None, dots })),
            None => None,
        },
        Some(Choice4::Third(inner)) => match inside::part(Part::Unnamed, inner) {
            Some(ty) => Some(FnArg::Unnamed(ty)),
            None => None,
        },
        Some(Choice4::Fourth(inner)) => as_typed(attrs, inner),
        None => None,
    }
}

/// A parameter of a function.
#[derive(Clone, Copy)]
pub struct Parameter<'t, 'a> {
    /// Its attributes.
    pub attrs: &'t Tree<'a>,
    /// What it is.
    pub arg: FnArg<'t, 'a>,
}

impl<'t, 'a> Parameter<'t, 'a> {
    /// What a tree is, if it is that.
    #[tactic(auto, unfolding(syn_grammar::specs::Table::table))]
    pub fn of(tree: &'t Tree<'a>) -> Option<Parameter<'t, 'a>>
        ensures tree_is { MatchOption result (IsShaped tree.now (g.ref k.Parameter) → ⊥) (λ x. tree.now ≡ parameter x) }
        ensures attributes { IfSome result (λ x. IsBehind x.attrs x.arg) }
    {
        let Some((attrs, arg)) = inside::pair(Kind::Parameter, tree) else {
            return None;
        };
        let Some(arg) = as_fn_arg(attrs, arg) else {
            return None;
        };
        Some(Parameter { attrs, arg })
    }

    /// Its pattern with its type, if it is that, behind its attributes.
    pub fn pat_type(&self) -> Option<PatType<'t, 'a>>
        ensures { result ≡ typed_pattern self.now.arg }
    {
        match self.arg {
            FnArg::Typed(found) => Some(found),
            FnArg::Receiver(_) => None,
            FnArg::Unnamed(_) => None,
            FnArg::Variadic(_) => None,
        }
    }
}

/// One parameter by itself.
#[derive(Clone, Copy)]
pub struct OneParameter<'t, 'a> {
    /// The parameter, as a form of the kind `Parameter`.
    pub parameter: &'t Tree<'a>,
}

impl<'t, 'a> OneParameter<'t, 'a> {
    /// What a tree is, if it is that. One that was read is kept as it was read.
    #[tactic(auto, unfolding(syn_grammar::specs::Table::table))]
    pub fn of(tree: &'t Tree<'a>) -> Option<OneParameter<'t, 'a>>
        ensures { MatchOption result (IsKept tree.now → IsShaped tree.now (g.ref k.FnArg) → ⊥)
            (λ x. tree.now ≡ one_parameter x) }
    {
        let Some(inner) = inside::node(Kind::FnArg, tree) else {
            return None;
        };
        let parameter = take::kept(inner)?;
        Some(OneParameter { parameter })
    }
}

/// How a receiver is taken.
#[derive(Clone, Copy)]
pub enum ReceiverKind<'t, 'a> {
    /// `self`
    Value,
    /// `&`, a lifetime, and `mut`: `&'a mut self`.
    Reference(Mark, Option<Lifetime<'a>>, Option<&'a Ident>),
    /// `:` and a type: `self: T`.
    Typed(Mark, &'t Tree<'a>),
}

/// A receiver: `&'a mut self`, `mut self: T`.
#[derive(Clone, Copy)]
pub struct Receiver<'t, 'a> {
    /// `mut`, where it is not taken by reference.
    pub mutability: Option<&'a Ident>,
    /// `self`
    pub self_token: &'a Ident,
    /// How it is taken.
    pub kind: ReceiverKind<'t, 'a>,
}

// One that is taken by reference.
fn as_reference<'t, 'a>(tree: &'t Tree<'a>) -> Option<Receiver<'t, 'a>>
    ensures { MatchOption result ((c : ℕ) (cs : List ℕ) (t u : List Token → Bool) (p q : List ℕ → Bool)
        → IsShaped tree.now (g.seq (g.mark c cs) (g.seq (g.alt t g.lifetime g.nothing) (g.seq (g.alt u
        (g.word p) g.nothing) (g.word q)))) → ⊥) (λ x. IsReceiver x (t.Node k.Receiver (t.First tree.now))) }
{
    let Some((and_token, lifetime, mutability, self_token)) = take::four(tree) else {
        return None;
    };
    let Some((and_token, lifetime, mutability, self_token)) = joined::four(
        take::mark(and_token),
        take::optional_lifetime(lifetime),
        take::optional_word(mutability),
        take::word(self_token),
    ) else {
        return None;
    };
    Some(Receiver {
        mutability: None,
        self_token,
        kind: ReceiverKind::Reference(and_token, lifetime, mutability),
    })
}

// Another.
fn as_value<'t, 'a>(tree: &'t Tree<'a>) -> Option<Receiver<'t, 'a>>
    ensures { MatchOption result ((t u : List Token → Bool) (p q : List ℕ → Bool) (c : ℕ) (cs : List ℕ) (a : g.Gram)
        → IsShaped tree.now (g.seq (g.alt t (g.word p) g.nothing) (g.seq (g.word q) (g.alt u (g.seq
        (g.mark c cs) a) g.nothing))) → ⊥) (λ x. IsReceiver x (t.Node k.Receiver (t.Second tree.now))) }
{
    let Some((mutability, self_token, typed)) = take::three(tree) else {
        return None;
    };
    match joined::three(
        take::optional_word(mutability),
        take::word(self_token),
        optional_as_marked(typed),
    ) {
        Some((mutability, self_token, Some(found))) => Some(Receiver {
            mutability,
            self_token,
            kind: ReceiverKind::Typed(found.mark, found.node),
        }),
        Some((mutability, self_token, None)) => Some(Receiver {
            mutability,
            self_token,
            kind: ReceiverKind::Value,
        }),
        None => None,
    }
}

impl<'t, 'a> Receiver<'t, 'a> {
    /// What a tree is, if it is that.
    #[tactic(auto, unfolding(syn_grammar::specs::Table::table))]
    pub fn of(tree: &'t Tree<'a>) -> Option<Receiver<'t, 'a>>
        ensures { MatchOption result (IsShaped tree.now (g.ref k.Receiver) → ⊥) (λ x. IsReceiver x tree.now) }
    {
        let Some(inner) = inside::node(Kind::Receiver, tree) else {
            return None;
        };
        match take::chosen(inner) {
            Some(Choice::First(reference)) => as_reference(reference),
            Some(Choice::Second(value)) => as_value(value),
            None => None,
        }
    }
}

/// Whether it is safe to call a function.
#[derive(Clone, Copy)]
pub enum Safety<'a> {
    /// `unsafe`
    Unsafe(&'a Ident),
    /// `safe`, in an extern block.
    Safe(&'a Ident),
    /// Neither is written.
    Default,
}

impl<'a> Default for Safety<'a> {
    ghost is_default = { λ x. x ≡ safeties.Default };

    /// Neither word.
    fn default() -> Safety<'a> {
        Safety::Default
    }
}

// Which of both words it is.
fn as_unsafe_or_safe<'a>(word: &'a Ident) -> Safety<'a>
    ensures tree_is { safety_is result ≡ t.First (safety_tree word.entry) }
    ensures which { IsSafety result }
{
    if word.is_text("unsafe") {
        Safety::Unsafe(word)
    } else {
        Safety::Safe(word)
    }
}

// Whether it is safe, as an extern block has it, where the word may be `safe` too.
pub(crate) fn as_foreign_safety<'a>(tree: &Tree<'a>) -> Option<Safety<'a>>
    ensures tree_is { MatchOption result ((test : List Token → Bool) (p : List ℕ → Bool) → IsShaped tree.now (g.alt test
        (g.called n.the_safety (g.word p)) g.nothing) → ⊥) (λ s. tree.now ≡ safety_is s) }
    ensures which { IfSome result (λ s. IsSafety s) }
{
    match inside::optional_word(Part::Safety, tree) {
        Some(Some(word)) => Some(as_unsafe_or_safe(word)),
        Some(None) => Some(Safety::Default),
        None => None,
    }
}

// Whether it is safe, as the place has it.
#[tactic(auto, using(crate::proofs::ItemPlaces::no_safety))]
pub(crate) fn as_safety<'a>(tree: &Tree<'a>) -> Option<Safety<'a>>
    ensures tree_is { MatchOption result ((p : k.Place) → IsShaped tree.now (safety p) → ⊥)
        (λ s. tree.now ≡ safety_is s) }
    ensures which { IfSome result (λ s. IsSafety s) }
{
    match as_foreign_safety(tree) {
        Some(found) => Some(found),
        None => None,
    }
}

/// A signature: `const async unsafe extern "C" fn a<T>(b: B) -> C where ..`.
#[derive(Clone, Copy)]
pub struct Signature<'t, 'a> {
    /// Where it stands.
    pub place: Place,
    /// `const`
    pub constness: Option<&'a Ident>,
    /// `async`
    pub asyncness: Option<&'a Ident>,
    /// Whether it is safe to call.
    pub safety: Safety<'a>,
    /// `extern "C"`
    pub abi: Option<&'t Tree<'a>>,
    /// `fn`
    pub fn_token: &'a Ident,
    /// Its name.
    pub ident: &'a Ident,
    /// Its generic parameters.
    pub generics: &'t Tree<'a>,
    /// What it takes, as a form of the kind `Parameters`.
    pub inputs: &'t Tree<'a>,
    /// What it returns.
    pub output: &'t Tree<'a>,
    /// Its where clause.
    pub where_clause: &'t Tree<'a>,
}

// What stands in a signature behind the words in front of `fn`.
fn behind_words<'t, 'a>(
    tree: &'t Tree<'a>,
) -> Option<
    (
        &'a Ident,
        &'a Ident,
        &'t Tree<'a>,
        &'t Tree<'a>,
        &'t Tree<'a>,
        &'t Tree<'a>,
    ),
>
    ensures { MatchOption result ((p q : List ℕ → Bool) (a b c d : g.Gram) → IsShaped tree.now (g.seq (g.word p) (g.seq
        (g.called n.the_name (g.word q)) (g.seq (g.called n.the_generics a) (g.seq b (g.seq c
        (g.called n.the_where d)))))) → ⊥)
        (λ w. tree.now ≡ t.Pair (word_tree w.0) (t.Pair (named_tree w.1) (t.Pair (t.Called n.the_generics w.2.now)
        (t.Pair w.3.now (t.Pair w.4.now (t.Called n.the_where w.5.now)))))) }
{
    let Some((fn_token, ident, generics, inputs, output, where_clause)) = take::six(tree) else {
        return None;
    };
    let Some((fn_token, ident, generics, where_clause)) = joined::four(
        take::word(fn_token),
        inside::word(Part::Name, ident),
        inside::part(Part::Generics, generics),
        inside::part(Part::Where, where_clause),
    ) else {
        return None;
    };
    Some((fn_token, ident, generics, inputs, output, where_clause))
}

impl<'t, 'a> Signature<'t, 'a> {
    /// What a tree is, if it is that.
    #[tactic(auto, unfolding(syn_grammar::specs::Table::table))]
    pub fn of(tree: &'t Tree<'a>) -> Option<Signature<'t, 'a>>
        ensures tree_is { MatchOption result ((p : k.Place) → IsShaped tree.now (g.ref (k.Signature p)) → ⊥)
            (λ x. tree.now ≡ signature x) }
        ensures which { IfSome result (λ x. IsSafety x.safety) }
    {
        let Some((Kind::Signature(place), inner)) = take::node(tree) else {
            return None;
        };
        let Some((constness, asyncness, safety, abi, rest)) = take::five(inner) else {
            return None;
        };
        let Some((constness, asyncness, safety, abi, rest)) = joined::five(
            take::optional_word(constness),
            take::optional_word(asyncness),
            as_safety(safety),
            take::optional(abi),
            behind_words(rest),
        ) else {
            return None;
        };
        let (fn_token, ident, generics, inputs, output, where_clause) = rest;
        Some(Signature {
            place,
            constness,
            asyncness,
            safety,
            abi,
            fn_token,
            ident,
            generics,
            inputs,
            output,
            where_clause,
        })
    }
}

/// A function: a signature, and a block or `;`.
#[derive(Clone, Copy)]
pub struct ItemFn<'t, 'a> {
    /// Where it stands.
    pub place: Place,
    /// Its signature.
    pub sig: &'t Tree<'a>,
    /// Its block, as a form of the kind `Body`.
    pub block: Option<&'t Tree<'a>>,
    /// `;`, where it has no block.
    pub semi_token: Option<Mark>,
}

impl<'t, 'a> ItemFn<'t, 'a> {
    /// What a tree is, if it is that.
    #[tactic(auto, unfolding(syn_grammar::specs::Table::table))]
    pub fn of(tree: &'t Tree<'a>) -> Option<ItemFn<'t, 'a>>
        ensures { MatchOption result ((p : k.Place) → IsShaped tree.now (g.ref (k.AFunction p)) → ⊥)
            (λ x. IsItemFn x tree.now) }
    {
        let Some((Kind::AFunction(place), inner)) = take::node(tree) else {
            return None;
        };
        let (sig, end) = take::pair(inner)?;
        match take::chosen(end) {
            Some(Choice::First(body)) => {
                let body = inside::part(Part::Body, body)?;
                Some(ItemFn {
                    place,
                    sig,
                    block: Some(body),
                    semi_token: None,
                })
            }
            Some(Choice::Second(semi)) => {
                let semi = take::mark(semi)?;
                Some(ItemFn {
                    place,
                    sig,
                    block: None,
                    semi_token: Some(semi),
                })
            }
            None => None,
        }
    }
}
