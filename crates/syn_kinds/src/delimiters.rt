//! Delimiters: parentheses, braces and brackets.

ghost use Rattle.proc_macro2.specs.Trees.{delim_span_of};
ghost use Rattle.rust_map.specs.Spans.{call_site};
ghost use Rattle.std.specs.Fn.{FnOnceReturnsAtMut};
ghost use Rattle.std.specs.Prelude.{[], ◌++◌, ◌≡◌, List, Ok, OnOk, Some};
ghost use Rattle.proc_macro2.specs.Token.{Spanned};
ghost use Rattle.syn_error.specs.Front.{Keeps};
ghost use Rattle.syn_kinds.specs.Values.{delimiter_of, enclosed, shown_delimiters};

use proc_macro2::delimiter::Delimiter;
use proc_macro2::group::DelimSpan;
use proc_macro2::tree::{Group, TokenStream, TokenTree};
use rust_map::span::Span;
use std::alloc::AllocError;
use std::fmt;
use try_clone::TryClone;

/// The delimiters of a group: parentheses (0), braces (1) or brackets (2 and any other number). All of one kind are
/// equal.
#[derive(Clone, Copy, Debug)]
#[derive_where(PartialEq, Eq, Hash)]
pub struct Delimiters<const D: usize> {
    /// Where the group and its delimiters stand.
    #[derive_where(skip(EqHashOrd))]
    pub span: DelimSpan,
}

/// `( )`
pub type Paren = Delimiters<0>;

/// `{ }`
pub type Brace = Delimiters<1>;

/// `[ ]`
pub type Bracket = Delimiters<2>;

impl<const D: usize> Delimiters<D> {
    /// The delimiters of a group that stands there.
    pub fn new(span: Span) -> Delimiters<D>
        ensures { result.span ≡ delim_span_of span }
    {
        Delimiters {
            span: DelimSpan::of(span),
        }
    }

    /// Which delimiters they are.
    pub fn delimiter() -> Delimiter
        ensures { result ≡ delimiter_of D }
    {
        match D {
            0 => Delimiter::Parenthesis,
            1 => Delimiter::Brace,
            _ => Delimiter::Bracket,
        }
    }

    /// How a message shows the kind.
    pub fn display() -> &'static str
        ensures { result.now ≡ shown_delimiters D }
    {
        match D {
            0 => "parentheses",
            1 => "curly braces",
            _ => "square brackets",
        }
    }

    /// Adds the group of what stands inside. If memory is refused, the tokens are as before.
    pub fn enclose(&self, tokens: &mut TokenStream, inside: TokenStream) -> Result<(), AllocError>
        ensures put { OnOk result (tokens.new ≡ tokens.old ++ enclosed (delimiter_of D) self.now.span.join inside) }
        ensures keeps { Keeps tokens.old tokens.new }
    {
        put_group(
            tokens,
            Delimiters::<D>::delimiter(),
            self.span.join(),
            inside,
        )
    }

    /// Adds the group of what the function prints, which must be one that may be called on any tokens.
    ///
    /// The error is that memory was refused, to this call or to the function. The tokens are as before then.
    pub fn surround<F>(&self, tokens: &mut TokenStream, f: F) -> Result<(), AllocError>
    where
        F: FnOnce(&mut TokenStream) -> Result<(), AllocError>,
        requires { F.IsAlwaysCallable f }
        ensures put { OnOk result ((inside : List Spanned) × FnOnceReturnsAtMut F.FnOnce f [] (Ok tt) inside
            × (tokens.new ≡ tokens.old ++ enclosed (delimiter_of D) self.now.span.join inside)) }
        ensures keeps { Keeps tokens.old tokens.new }
    {
        let mut inside = TokenStream::new(tokens.allocator());
        f(&mut inside)?;
        self.enclose(tokens, inside)
    }
}

// Adds a group. If memory is refused, the tokens are as before.
#[tactic(auto, using(syn_error::proofs::Fronts::push_keeps))]
pub(crate) fn put_group(
    tokens: &mut TokenStream,
    delimiter: Delimiter,
    span: Span,
    inside: TokenStream,
) -> Result<(), AllocError>
    ensures put { OnOk result (tokens.new ≡ tokens.old ++ enclosed delimiter span inside) }
    ensures keeps { Keeps tokens.old tokens.new }
{
    let mut group = Group::new(delimiter, inside);
    group.set_span(span);
    tokens.push_tree(TokenTree::Group(group))
}

impl<const D: usize> fmt::Display for Delimiters<D> {
    ghost output = { λ _. Some (shown_delimiters D) };

    /// Shows the kind as a message does.
    fn fmt<W: fmt::Write>(&self, f: &mut fmt::Formatter<W>) -> fmt::Result {
        f.write_str(Delimiters::<D>::display())
    }
}

impl<const D: usize> Default for Delimiters<D> {
    ghost is_default = { λ delimiters. delimiters.span ≡ delim_span_of call_site };

    /// The delimiters of a group that stands at the call site.
    fn default() -> Delimiters<D> {
        Delimiters::new(Span::call_site())
    }
}

impl<const D: usize> TryClone for Delimiters<D> {
    ghost use Rattle.proc_macro2.specs.declared.group.DelimSpan.{DelimSpan};

    ghost Shown = { DelimSpan };

    ghost shown = { λ delimiters. delimiters.span };

    /// A copy, which takes no memory.
    fn try_clone(&self) -> Result<Delimiters<D>, AllocError> {
        Ok(*self)
    }
}
