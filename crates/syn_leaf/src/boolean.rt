//! `true` and `false`.

ghost use Rattle.rust_leaf.specs.Leaf.{ident_span, ident_text};
ghost use Rattle.std.specs.Prelude.{◌++◌, ◌≡◌, IfOk, [], if◌then◌else◌};
ghost use Rattle.std.specs.Str.{chars};
ghost use Rattle.syn_kinds.specs.Values.{word_tokens};
ghost use Rattle.syn_leaf.specs.Booleans.{bool_text};

use proc_macro2::tree::TokenStream;
use rust_leaf::ident::Ident;
use rust_map::span::Span;
use std::alloc::{AllocError, Global};
use syn_error::to_tokens::ToTokens;
use syn_kinds::keyword::Keyword;
use try_clone::TryClone;

/// `true` or `false`. Two are equal by their values, wherever they stand.
#[derive(Clone, Copy, Debug)]
#[derive_where(PartialEq, Eq, Hash)]
pub struct LitBool {
    /// The value.
    pub value: bool,
    /// Where it stands.
    #[derive_where(skip(EqHashOrd))]
    pub span: Span,
}

impl LitBool {
    /// The literal of that value, which stands there.
    pub fn new(value: bool, span: Span) -> LitBool
        ensures { result ≡ record { value = value; span = span } }
    {
        LitBool { value, span }
    }

    /// How the value is written.
    #[tactic(auto, using(crate::proofs::Texts::true_chars, crate::proofs::Texts::false_chars))]
    pub fn text(&self) -> &'static str
        ensures { chars result.now ≡ bool_text self.now.value }
    {
        if self.value { "true" } else { "false" }
    }

    /// Its suffix: nothing.
    #[tactic(auto, using(crate::proofs::Spellings::no_word))]
    pub fn suffix(&self) -> &'static str
        ensures { chars result.now ≡ [] }
    {
        ""
    }

    /// Its token: the word, where the literal stands.
    ///
    /// # Errors
    ///
    /// Where there is no memory for it.
    #[tactic(auto, unfolding(syn_kinds::specs::Table::word))]
    pub fn token(&self, alloc: Global) -> Result<Ident, AllocError>
        ensures text { IfOk result (λ word. ident_text word ≡ bool_text self.now.value) }
        ensures span { IfOk result (λ word. ident_span word ≡ self.now.span) }
    {
        if self.value {
            Keyword::<TRUE>::new(self.span).to_ident(alloc)
        } else {
            Keyword::<FALSE>::new(self.span).to_ident(alloc)
        }
    }
}

#[tactic(auto, unfolding(syn_kinds::specs::Table::word))]
impl ToTokens for LitBool {
    ghost puts = { λ literal old new. new ≡ old ++ word_tokens (bool_text literal.value) literal.span };

    fn to_tokens(&self, tokens: &mut TokenStream) -> Result<(), AllocError> {
        if self.value {
            Keyword::<TRUE>::new(self.span).to_tokens(tokens)
        } else {
            Keyword::<FALSE>::new(self.span).to_tokens(tokens)
        }
    }
}

// The rows of the two words in the table of keywords.
pub(crate) const TRUE: usize = 40;

pub(crate) const FALSE: usize = 15;

impl TryClone for LitBool {
    ghost use Rattle.syn_leaf.specs.declared.boolean.LitBool.{LitBool as Literal};

    ghost Shown = { Literal };

    ghost shown = { λ literal. literal };

    /// A copy, which takes no memory.
    fn try_clone(&self) -> Result<LitBool, AllocError> {
        Ok(*self)
    }
}
