// Prints one token.
#![tactic(auto, using(syn_error::proofs::Fronts::keeps_same, syn_error::proofs::Fronts::push_keeps))]

ghost use Rattle.proc_macro2.specs.Flat.{spanned};
ghost use Rattle.proc_macro2.specs.Token as token;
ghost use Rattle.rust_leaf.specs.Identifier.{is_ident_text};
ghost use Rattle.rust_leaf.specs.Mark.{is_mark};
ghost use Rattle.std.specs.Prelude.{[], ◌++◌, ◌∷◌, ◌≡◌, IsTrue, OnOk};
ghost use Rattle.std.specs.Str.{chars};
ghost use Rattle.syn_error.specs.Front.{Keeps};
ghost use Rattle.syn_kinds.specs.Values.{word_tokens};

use proc_macro2::tree::{TokenStream, TokenTree};
use rust_leaf::ident::Ident;
use rust_leaf::punct::{Punct, Spacing};
use rust_map::span::Span;
use std::alloc::AllocError;

// Adds an identifier. If memory is refused, the tokens are as before.
pub(crate) fn put_word(tokens: &mut TokenStream, word: &str, span: Span) -> Result<(), AllocError>
    requires { IsTrue (is_ident_text (chars word.now)) }
    ensures put { OnOk result (tokens.new ≡ tokens.old ++ word_tokens (chars word.now) span) }
    ensures keeps { Keeps tokens.old tokens.new }
{
    let word = Ident::from_text(tokens.allocator(), word, span)?;
    tokens.push_tree(TokenTree::Ident(word))
}

// Adds a mark. If memory is refused, the tokens are as before.
pub(crate) fn put_mark(
    tokens: &mut TokenStream,
    mark: char,
    spacing: Spacing,
    span: Span,
) -> Result<(), AllocError>
    requires { IsTrue (is_mark mark) }
    ensures put { OnOk result (tokens.new ≡ tokens.old ++ spanned (token.Punct mark spacing) span ∷ []) }
    ensures keeps { Keeps tokens.old tokens.new }
{
    let mut punct = Punct::new(mark, spacing);
    punct.set_span(span);
    tokens.push_tree(TokenTree::Punct(punct))
}
