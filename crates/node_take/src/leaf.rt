//! Punctuations, words, literals and lifetimes.

ghost use Rattle.node_shapes.specs.Shape.{IsShaped};
ghost use Rattle.node_words.specs.Words as words;
ghost use Rattle.proc_macro2.specs.Token.{Token};
ghost use Rattle.rust_leaf.specs.Leaf.{literal_text};
ghost use Rattle.rust_leaf.specs.Minus.{starts_with_minus};
ghost use Rattle.std.specs.Prelude.{◌≡◌, Bool, IfOk, List, codes, false, ℕ};
ghost use Rattle.syn_grammar.specs.Gram as g;
ghost use Rattle.syn_grammar.specs.Kept.{kept};
ghost use Rattle.syn_grammar.specs.Tree as t;
ghost use Rattle.rust_leaf.specs.Keywords.{same_text};
ghost use Rattle.syn_kinds.specs.Table.{marks, word};

use crate::choice::optional;
use reader_tree::tree::{Form, Tree};
use rust_leaf::ident::Ident;
use rust_leaf::literal::Literal;
use std::alloc::AllocError;
use syn_kinds::keyword::Keyword;
use syn_kinds::lifetime::Lifetime;
use syn_kinds::punctuation::Punctuation;
use syn_kinds::underscore::Underscore;
use try_clone::TryClone;

/// A punctuation.
#[tactic(auto, using(crate::proofs::Takes::takes))]
pub fn sign<const K: usize, const N: usize>(tree: &Tree<'_>) -> Punctuation<K, N>
    requires { IsShaped tree.now (g.punct (marks K N)) }
    ensures { words.mark result ≡ kept tree.now }
{
    match &tree.form {
        Form::Mark(_, _, span) => Punctuation {
            spans: [span.span(); N],
        },
        _ => unreachable!(),
    }
}

/// The punctuation that stands there, if one does.
pub fn optional_sign<const K: usize, const N: usize>(tree: &Tree<'_>) -> Option<Punctuation<K, N>>
    requires { ((test : List Token → Bool) × IsShaped tree.now (g.alt test (g.punct (marks K N)) g.nothing)) }
    ensures { words.optional words.mark result ≡ kept tree.now }
{
    match optional(tree) {
        Some(inner) => Some(sign(inner)),
        None => None,
    }
}

/// A keyword.
#[tactic(auto, using(crate::proofs::Takes::takes, crate::proofs::Seqs::the_word))]
pub fn keyword<const K: usize>(tree: &Tree<'_>) -> Keyword<K>
    requires { IsShaped tree.now (g.word (λ cs. same_text (word K) cs)) }
    ensures { words.keyword result ≡ kept tree.now }
{
    match &tree.form {
        Form::Word(ident) => Keyword { span: ident.span() },
        _ => unreachable!(),
    }
}

/// The keyword that stands there, if one does.
pub fn optional_keyword<const K: usize>(tree: &Tree<'_>) -> Option<Keyword<K>>
    requires { ((test : List Token
        → Bool) × IsShaped tree.now (g.alt test (g.word (λ cs. same_text (word K) cs)) g.nothing)) }
    ensures { words.optional words.keyword result ≡ kept tree.now }
{
    match optional(tree) {
        Some(inner) => Some(keyword(inner)),
        None => None,
    }
}

/// The word `_`.
#[tactic(auto, using(crate::proofs::Takes::takes, crate::proofs::Seqs::the_word))]
pub fn underscore(tree: &Tree<'_>) -> Underscore
    requires { IsShaped tree.now (g.word (λ cs. same_text (codes "_") cs)) }
    ensures { words.underscore result ≡ kept tree.now }
{
    match &tree.form {
        Form::Word(ident) => Underscore { span: ident.span() },
        _ => unreachable!(),
    }
}

/// A word.
///
/// # Errors
///
/// Where there is no memory for it.
#[tactic(auto, using(crate::proofs::Takes::takes))]
pub fn ident(tree: &Tree<'_>) -> Result<Ident, AllocError>
    requires { ((p : List ℕ → Bool) × IsShaped tree.now (g.word p)) }
    ensures { IfOk result (λ i. words.name i ≡ kept tree.now) }
{
    match &tree.form {
        Form::Word(held) => held.try_clone(),
        _ => unreachable!(),
    }
}

/// A literal's token. It has no minus of its own.
///
/// # Errors
///
/// Where there is no memory for it.
#[tactic(auto, using(crate::proofs::Takes::takes))]
pub fn literal(tree: &Tree<'_>) -> Result<Literal, AllocError>
    requires { ((p : List ℕ → Bool) × IsShaped tree.now (g.literal p)) }
    ensures text { IfOk result (λ l. t.ALiteral (literal_text l) ≡ kept tree.now) }
    ensures unsigned { IfOk result (λ l. starts_with_minus (literal_text l) ≡ false) }
{
    match &tree.form {
        Form::Literal(held) => held.try_clone(),
        _ => unreachable!(),
    }
}

/// A lifetime.
///
/// # Errors
///
/// Where there is no memory for it.
#[tactic(auto, using(crate::proofs::Takes::takes))]
pub fn lifetime(tree: &Tree<'_>) -> Result<Lifetime, AllocError>
    requires { IsShaped tree.now g.lifetime }
    ensures { IfOk result (λ l. words.lifetime l ≡ kept tree.now) }
{
    match &tree.form {
        Form::Lifetime(held) => Ok(Lifetime {
            apostrophe: held.span,
            ident: held.ident.try_clone()?,
        }),
        _ => unreachable!(),
    }
}

/// The lifetime that stands there, if one does.
///
/// # Errors
///
/// Where there is no memory for it.
pub fn optional_lifetime(tree: &Tree<'_>) -> Result<Option<Lifetime>, AllocError>
    requires { ((test : List Token → Bool) × IsShaped tree.now (g.alt test g.lifetime g.nothing)) }
    ensures { IfOk result (λ o. words.optional words.lifetime o ≡ kept tree.now) }
{
    match optional(tree) {
        Some(inner) => Ok(Some(lifetime(inner)?)),
        None => Ok(None),
    }
}
