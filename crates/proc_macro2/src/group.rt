//! Groups, and the spans of their delimiters.

ghost use Rattle.proc_macro2.specs.Flat.{group_tokens};
ghost use Rattle.proc_macro2.specs.Held.{are_held};
ghost use Rattle.proc_macro2.specs.Trees.{delim_span_of};
ghost use Rattle.rust_map.specs.Sources.{Sources};
ghost use Rattle.rust_map.specs.Spans.{call_site, first_of, last_of};
ghost use Rattle.std.specs.Prelude.{◌≡◌, IfOk, IsTrue};

use crate::copies::copied_stream;
use crate::delimiter::Delimiter;
use crate::tree::{Group, TokenStream};
use rust_map::span::Span;
use std::alloc::AllocError;

impl Group {
    /// The stream between the delimiters. It stands in no text.
    pub fn new(delimiter: Delimiter, stream: TokenStream) -> Group
        ensures delimiter { result.delimiter ≡ delimiter }
        ensures stream { result.stream ≡ stream }
        ensures span { result.span ≡ call_site }
    {
        Group {
            delimiter,
            stream,
            span: Span::call_site(),
        }
    }

    /// What encloses the group.
    pub fn delimiter(&self) -> Delimiter
        ensures { result ≡ self.now.delimiter }
    {
        self.delimiter
    }

    /// A copy of the stream between the delimiters, which shares its list and takes no memory. `AllocError` if more
    /// copies share the list than can be counted. A map that holds the group's spans holds the stream's.
    #[tactic(auto, using(crate::proofs::Held::inside_held))]
    pub fn stream(&self) -> Result<TokenStream, AllocError>
        ensures copy { IfOk result (λ s. s ≡ self.now.stream) }
        ensures held { IfOk result
            (λ s. (map : Sources) → IsTrue (are_held map (group_tokens self.now)) → IsTrue (are_held map s)) }
    {
        copied_stream(self.stream_ref())
    }

    /// The stream between the delimiters, lent: no memory is taken. A map that holds the group's spans holds the
    /// stream's.
    #[tactic(auto, using(crate::proofs::Held::inside_held))]
    pub fn stream_ref(&self) -> &TokenStream
        ensures stream { result.now ≡ self.now.stream }
        ensures held { (map : Sources) → IsTrue (are_held map (group_tokens self.now))
            → IsTrue (are_held map result.now) }
    {
        &self.stream
    }

    /// Where the group stands, from its opening to its closing delimiter.
    pub fn span(&self) -> Span
        ensures { result ≡ self.now.span }
    {
        self.span
    }

    /// The first character of the group's span, or that span itself where it is empty.
    pub fn span_open(&self) -> Span
        ensures { result ≡ first_of self.now.span }
    {
        self.span.first_character()
    }

    /// The last character of the group's span, or that span itself where it is empty.
    pub fn span_close(&self) -> Span
        ensures { result ≡ last_of self.now.span }
    {
        self.span.last_character()
    }

    /// The spans of the group and of its delimiters.
    pub fn delim_span(&self) -> DelimSpan
        ensures { result ≡ delim_span_of self.now.span }
    {
        DelimSpan::of(self.span)
    }

    /// Places the group elsewhere. The trees inside it stay where they are.
    pub fn set_span(&mut self, span: Span)
        ensures { self.new ≡ record self.old { span = span } }
    {
        self.span = span;
    }
}

/// The spans of a group and of its delimiters.
#[derive(Clone, Copy, Debug)]
pub struct DelimSpan {
    pub(crate) join: Span,
    pub(crate) opening: Span,
    pub(crate) closing: Span,
}

impl DelimSpan {
    /// The spans of a group that stands there. The opening delimiter is the first character of
    /// the span and the closing one the last, each the span itself where it is empty.
    pub fn of(span: Span) -> DelimSpan
        ensures { result ≡ delim_span_of span }
    {
        DelimSpan {
            join: span,
            opening: span.first_character(),
            closing: span.last_character(),
        }
    }

    /// The whole group.
    pub fn join(&self) -> Span
        ensures { result ≡ self.now.join }
    {
        self.join
    }

    /// The opening delimiter.
    pub fn open(&self) -> Span
        ensures { result ≡ self.now.opening }
    {
        self.opening
    }

    /// The closing delimiter.
    pub fn close(&self) -> Span
        ensures { result ≡ self.now.closing }
    {
        self.closing
    }
}
