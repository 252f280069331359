//! The underscore.

ghost use Rattle.rust_leaf.specs.Leaf.{ident_span, ident_text};
ghost use Rattle.rust_map.specs.Spans.{call_site};
ghost use Rattle.std.specs.Prelude.{◌++◌, ◌≡◌, IfOk, Some, codes};
ghost use Rattle.syn_kinds.specs.Table.{quoted};
ghost use Rattle.syn_kinds.specs.Values.{word_tokens};

use crate::put::put_word;
use proc_macro2::tree::TokenStream;
use rust_leaf::ident::Ident;
use rust_map::span::Span;
use std::alloc::{AllocError, Global};
use std::fmt;
use syn_error::to_tokens::ToTokens;
use try_clone::TryClone;

/// `_`, which is an identifier of that text. All are equal.
#[derive(Clone, Copy, Debug)]
#[derive_where(PartialEq, Eq, Hash)]
pub struct Underscore {
    /// Where it stands.
    #[derive_where(skip(EqHashOrd))]
    pub span: Span,
}

impl Underscore {
    /// The underscore that stands there.
    pub fn new(span: Span) -> Underscore
        ensures { result.span ≡ span }
    {
        Underscore { span }
    }

    /// How a message shows the kind.
    pub fn display() -> &'static str
        ensures { result.now ≡ quoted (codes "_") }
    {
        "`_`"
    }

    /// The identifier that it is, where it stands.
    ///
    /// The error is that memory for its text was refused.
    #[tactic(auto, using(crate::proofs::Rows::underscore_chars, crate::proofs::Rows::underscore_is_identifier))]
    pub fn to_ident(&self, alloc: Global) -> Result<Ident, AllocError>
        ensures text { IfOk result (λ ident. ident_text ident ≡ codes "_") }
        ensures span { IfOk result (λ ident. ident_span ident ≡ self.now.span) }
    {
        Ident::from_text(alloc, "_", self.span)
    }

    /// Where it stands.
    pub fn span(&self) -> Span
        ensures { result ≡ self.now.span }
    {
        self.span
    }

    /// Sets where it stands.
    pub fn set_span(&mut self, span: Span)
        ensures { self.new.span ≡ span }
    {
        self.span = span;
    }
}

impl fmt::Display for Underscore {
    ghost output = { λ _. Some (quoted (codes "_")) };

    /// Shows the kind as a message does: in backquotes.
    fn fmt<W: fmt::Write>(&self, f: &mut fmt::Formatter<W>) -> fmt::Result {
        f.write_str(Underscore::display())
    }
}

impl Default for Underscore {
    ghost is_default = { λ underscore. underscore.span ≡ call_site };

    /// The underscore that stands at the call site.
    fn default() -> Underscore {
        Underscore::new(Span::call_site())
    }
}

#[tactic(auto, using(crate::proofs::Rows::underscore_chars, crate::proofs::Rows::underscore_is_identifier))]
impl ToTokens for Underscore {
    ghost puts = { λ underscore old new. new ≡ old ++ word_tokens (codes "_") underscore.span };

    fn to_tokens(&self, tokens: &mut TokenStream) -> Result<(), AllocError> {
        put_word(tokens, "_", self.span)
    }
}

impl TryClone for Underscore {
    ghost use Rattle.rust_map.specs.declared.span.Span.{Span};

    ghost Shown = { Span };

    ghost shown = { λ underscore. underscore.span };

    /// A copy, which takes no memory.
    fn try_clone(&self) -> Result<Underscore, AllocError> {
        Ok(*self)
    }
}
