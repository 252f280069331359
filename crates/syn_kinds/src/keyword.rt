//! Keywords.

ghost use Rattle.rust_leaf.specs.Leaf.{ident_span, ident_text};
ghost use Rattle.rust_map.specs.Spans.{call_site};
ghost use Rattle.std.specs.Prelude.{◌++◌, ◌≡◌, IfOk, Some};
ghost use Rattle.std.specs.Str.{chars};
ghost use Rattle.syn_kinds.specs.Table.{quoted, word};
ghost use Rattle.syn_kinds.specs.Values.{word_tokens};

use crate::put::put_word;
use crate::table;
use proc_macro2::tree::TokenStream;
use rust_leaf::ident::Ident;
use rust_map::span::Span;
use std::alloc::{AllocError, Global};
use std::fmt;
use syn_error::to_tokens::ToTokens;
use try_clone::TryClone;

/// A keyword: an identifier of the kind's word, without a raw mark. All keywords of one kind are equal.
#[derive(Clone, Copy, Debug)]
#[derive_where(PartialEq, Eq, Hash)]
pub struct Keyword<const K: usize> {
    /// Where it stands.
    #[derive_where(skip(EqHashOrd))]
    pub span: Span,
}

impl<const K: usize> Keyword<K> {
    /// The keyword that stands there.
    pub fn new(span: Span) -> Keyword<K>
        ensures { result.span ≡ span }
    {
        Keyword { span }
    }

    /// The word of the kind.
    #[tactic(auto, using(crate::proofs::Rows::word_chars))]
    pub fn word() -> &'static str
        ensures bytes { result.now ≡ word K }
        ensures chars { chars result.now ≡ word K }
    {
        table::word(K)
    }

    /// How a message shows the kind: its word in backquotes.
    pub fn display() -> &'static str
        ensures { result.now ≡ quoted (word K) }
    {
        table::displayed_word(K)
    }

    /// The identifier that the keyword is, where it stands.
    ///
    /// The error is that memory for its text was refused.
    #[tactic(auto, using(crate::proofs::Rows::word_is_identifier))]
    pub fn to_ident(&self, alloc: Global) -> Result<Ident, AllocError>
        ensures text { IfOk result (λ ident. ident_text ident ≡ word K) }
        ensures span { IfOk result (λ ident. ident_span ident ≡ self.now.span) }
    {
        Ident::from_text(alloc, Keyword::<K>::word(), self.span)
    }

    /// Where it stands.
    pub fn span(&self) -> Span
        ensures { result ≡ self.now.span }
    {
        self.span
    }

    /// Sets where it stands.
    pub fn set_span(&mut self, span: Span)
        ensures { self.new.span ≡ span }
    {
        self.span = span;
    }
}

impl<const K: usize> fmt::Display for Keyword<K> {
    ghost output = { λ _. Some (quoted (word K)) };

    /// Shows the kind as a message does: its word in backquotes.
    fn fmt<W: fmt::Write>(&self, f: &mut fmt::Formatter<W>) -> fmt::Result {
        f.write_str(Keyword::<K>::display())
    }
}

impl<const K: usize> Default for Keyword<K> {
    ghost is_default = { λ keyword. keyword.span ≡ call_site };

    /// The keyword that stands at the call site.
    fn default() -> Keyword<K> {
        Keyword::new(Span::call_site())
    }
}

#[tactic(auto, using(crate::proofs::Rows::word_is_identifier))]
impl<const K: usize> ToTokens for Keyword<K> {
    ghost puts = { λ keyword old new. new ≡ old ++ word_tokens (word K) keyword.span };

    fn to_tokens(&self, tokens: &mut TokenStream) -> Result<(), AllocError> {
        put_word(tokens, Keyword::<K>::word(), self.span)
    }
}

impl<const K: usize> TryClone for Keyword<K> {
    ghost use Rattle.rust_map.specs.declared.span.Span.{Span};

    ghost Shown = { Span };

    ghost shown = { λ keyword. keyword.span };

    /// A copy, which takes no memory.
    fn try_clone(&self) -> Result<Keyword<K>, AllocError> {
        Ok(*self)
    }
}
