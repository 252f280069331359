//! Punctuations.

ghost use Rattle.rust_map.specs.Spans.{call_site};
ghost use Rattle.std.specs.Prelude.{[], ◌++◌, ◌∷◌, ◌≡◌, List, OnOk, Some, drop, get_or, replicate};
ghost use Rattle.syn_error.specs.Front.{Keeps};
ghost use Rattle.syn_kinds.specs.Table.{marks, quoted, sign};
ghost use Rattle.syn_kinds.specs.Values.{marks_tokens};

use crate::put::put_mark;
use crate::table;
use proc_macro2::tree::TokenStream;
use rust_leaf::punct::Spacing;
use rust_map::span::Span;
use std::alloc::AllocError;
use std::fmt;
use syn_error::to_tokens::ToTokens;
use try_clone::TryClone;

/// A punctuation: `N` marks, those of the kind's row in the table. All punctuations of one kind are equal.
#[derive(Clone, Copy, Debug)]
#[derive_where(PartialEq, Eq, Hash)]
pub struct Punctuation<const K: usize, const N: usize> {
    /// Where each of its marks stands.
    #[derive_where(skip(EqHashOrd))]
    pub spans: [Span; N],
}

impl<const K: usize, const N: usize> Punctuation<K, N> {
    /// The punctuation whose marks stand there.
    pub fn new(spans: [Span; N]) -> Punctuation<K, N>
        ensures { result.spans ≡ spans.entry }
    {
        Punctuation { spans }
    }

    /// How a message shows the kind: its text in backquotes.
    pub fn display() -> &'static str
        ensures { result.now ≡ quoted (sign K) }
    {
        table::displayed_sign(K)
    }

    /// The mark at that index of the kind's row; past its end it is `~`.
    pub fn mark(index: usize) -> char
        ensures { result ≡ get_or (sign K) index 126 }
    {
        table::mark(K, index)
    }
}

impl<const K: usize> Punctuation<K, 1> {
    /// Where the mark stands.
    pub fn span(&self) -> Span
        ensures { self.now.spans ≡ result ∷ [] }
    {
        self.spans[0]
    }

    /// Sets where the mark stands.
    pub fn set_span(&mut self, span: Span)
        ensures { self.new.spans ≡ span ∷ [] }
    {
        self.spans = [span];
    }
}

impl<const K: usize, const N: usize> fmt::Display for Punctuation<K, N> {
    ghost output = { λ _. Some (quoted (sign K)) };

    /// Shows the kind as a message does: its text in backquotes.
    fn fmt<W: fmt::Write>(&self, f: &mut fmt::Formatter<W>) -> fmt::Result {
        f.write_str(Punctuation::<K, N>::display())
    }
}

impl<const K: usize, const N: usize> Default for Punctuation<K, N> {
    ghost is_default = { λ punctuation. punctuation.spans ≡ replicate N call_site };

    /// The punctuation whose marks all stand at the call site.
    fn default() -> Punctuation<K, N> {
        Punctuation::new([Span::call_site(); N])
    }
}

#[tactic(auto, using(syn_error::proofs::Fronts::keeps_same, syn_error::proofs::Fronts::keeps_both))]
impl<const K: usize, const N: usize> ToTokens for Punctuation<K, N> {
    ghost puts = { λ punctuation old new. new ≡ old ++ marks_tokens (marks K N) punctuation.spans };

    fn to_tokens(&self, tokens: &mut TokenStream) -> Result<(), AllocError> {
        for index in 0..N {
            let spacing = if index + 1 < N {
                Spacing::Joint
            } else {
                Spacing::Alone
            };
            let span = self.spans[index];
            put_mark(tokens, table::mark(K, index), spacing, span)?;
        }
        Ok(())
    }
}

impl<const K: usize, const N: usize> TryClone for Punctuation<K, N> {
    ghost use Rattle.rust_map.specs.declared.span.Span.{Span};

    ghost Shown = { List Span };

    ghost shown = { λ punctuation. punctuation.spans };

    /// A copy, which takes no memory.
    fn try_clone(&self) -> Result<Punctuation<K, N>, AllocError> {
        Ok(*self)
    }
}
