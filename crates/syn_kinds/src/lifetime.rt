//! Lifetimes.

ghost use Rattle.proc_macro2.specs.Flat.{spanned};
ghost use Rattle.proc_macro2.specs.Token as token;
ghost use Rattle.rust_leaf.specs.Leaf.{ident_span, ident_text};
ghost use Rattle.std.specs.Prelude.{[], ◌++◌, ◌∷◌, ◌≡◌};

use crate::put::put_mark;
use proc_macro2::tree::TokenStream;
use rust_leaf::ident::Ident;
use rust_leaf::punct::Spacing;
use rust_map::span::Span;
use std::alloc::AllocError;
use std::fmt;
use syn_error::to_tokens::ToTokens;
use try_clone::TryClone;

/// A lifetime: an apostrophe and the identifier that follows it at once. Lifetimes are compared by their identifiers
/// alone, wherever they stand.
#[derive(Debug, Drop)]
#[derive_where(PartialEq, Eq, PartialOrd, Ord, Hash)]
pub struct Lifetime {
    /// Where the apostrophe stands.
    #[derive_where(skip(EqHashOrd))]
    pub apostrophe: Span,
    /// The identifier.
    pub ident: Ident,
}

impl Lifetime {
    /// Where the apostrophe stands.
    pub fn span(&self) -> Span
        ensures { result ≡ self.now.apostrophe }
    {
        self.apostrophe
    }

    /// Sets where the lifetime stands, its apostrophe and its identifier.
    pub fn set_span(&mut self, span: Span)
        ensures apostrophe { self.new.apostrophe ≡ span }
        ensures ident { ident_span self.new.ident ≡ span }
        ensures text_stays { ident_text self.new.ident ≡ ident_text self.old.ident }
    {
        self.apostrophe = span;
        self.ident.set_span(span);
    }
}

impl fmt::Display for Lifetime {
    ghost use Rattle.rust_leaf.specs.Leaf.{ident_text};
    ghost use Rattle.std.specs.Prelude.{◌∷◌, Some, encode_utf8_all};

    ghost output = { λ lifetime. Some (encode_utf8_all (39 ∷ ident_text lifetime.ident)) };

    fn fmt<W: fmt::Write>(&self, f: &mut fmt::Formatter<W>) -> fmt::Result {
        write!(f, "'{}", self.ident)
    }
}

impl TryClone for Lifetime {
    ghost use Rattle.rust_leaf.specs.Leaf.{ident_span, ident_text};
    ghost use Rattle.rust_map.specs.declared.span.Span.{Span};
    ghost use Rattle.std.specs.Prelude.{List, ℕ};

    ghost Shown = { Span × List ℕ × Span };

    ghost shown = { λ lifetime. (lifetime.apostrophe, ident_text lifetime.ident, ident_span lifetime.ident) };

    fn try_clone(&self) -> Result<Lifetime, AllocError> {
        Ok(Lifetime {
            apostrophe: self.apostrophe,
            ident: self.ident.try_clone()?,
        })
    }
}

#[tactic(auto, using(syn_error::proofs::Fronts::keeps_both), unfolding(rust_leaf::specs::Mark::is_mark))]
impl ToTokens for Lifetime {
    ghost puts = { λ lifetime old new. new ≡ old ++ spanned (token.Punct 39 token.Joint) lifetime.apostrophe
        ∷ spanned (token.Ident (ident_text lifetime.ident)) (ident_span lifetime.ident) ∷ [] };

    fn to_tokens(&self, tokens: &mut TokenStream) -> Result<(), AllocError> {
        put_mark(tokens, '\'', Spacing::Joint, self.apostrophe)?;
        self.ident.to_tokens(tokens)
    }
}
