//! Whole parses.

ghost use Rattle.proc_macro2.specs.Forest.{IsForest};
ghost use Rattle.proc_macro2.specs.Token.{Spanned};
ghost use Rattle.rust_map.specs.Sources.{next_position, with_text};
ghost use Rattle.std.specs.Fn.{FnOnceReturnsAtMut};
ghost use Rattle.std.specs.Prelude.{[], ◌+◌, ◌^◌, ◌↔◌, ◌≡◌, ◌≤◌, ◌⊎◌, length, Err, IfErr, IfOk, None, Ok};
ghost use Rattle.std.specs.Prelude.{OnErr, OnOk, Result};
ghost use Rattle.std.specs.Str.{chars};
ghost use Rattle.syn_buffer.specs.Entries.{spanned_entries};
ghost use Rattle.syn_error.specs.Faults.{IsSyntax};
ghost use Rattle.syn_error.specs.declared.fault.ParseFault.{ParseFault};
ghost use Rattle.syn_error.specs.declared.fault.TextFault.TheVariants.{MapFull};
ghost use Rattle.syn_input.specs.Input.{leftover, rest};
ghost use Rattle.syn_input.specs.Whole.{IsRead, IsReadWithin, IsRefused, IsRefusedWithin, LeavesMap, ReadsShort};
ghost use Rattle.syn_input.specs.Whole.{ReadsText, RefusesText};
ghost use Rattle.syn_input.specs.Whole.{reads_whole, refuses_whole};
ghost use Rattle.syn_input.specs.declared.input.ParseBuffer.{ParseBuffer};

use crate::input::ParseBuffer;
use crate::parse::Parse;
use proc_macro2::tree::TokenStream;
use rust_map::fault::LexFault;
use rust_map::source_map::SourceMap;
use rust_map::span::Span;
use std::alloc::Global;
use syn_buffer::buffer::TokenBuffer;
use syn_error::fault::{ParseFault, TextFault};

/// What reads a value from a stream: each function that does.
pub trait Parser {
    /// What is read.
    type Output: Drop;

    /// It may be called on any stream.
    ghost may: { Self → Type 0 };

    /// From the first stream it answers so, and leaves the second.
    ghost runs: { Self → ParseBuffer → Result Self.Output ParseFault → ParseBuffer → Type 0 };

    /// Reads a value from the stream. The parser must be one that may be called on any stream (`may`).
    ///
    /// The fault is the parser's own.
    fn run(self, input: &mut ParseBuffer<'_>) -> Result<Self::Output, ParseFault>
        requires { may self }
        ensures { runs self input.old result input.new };

    /// Reads a whole stream, as `parse_stream` does. The parser must be one that may be called on any stream (`may`).
    ///
    /// The fault is that of `parse_stream`.
    final fn parse2(self, alloc: Global, tokens: TokenStream) -> Result<Self::Output, ParseFault>
    where
        Self: Sized,
        Self: Drop,
        requires { Self.may self }
        ensures read { IfOk result (λ x. IsRead (Self.runs self) tokens x) }
        ensures refused { IfErr result (λ e. IsSyntax e → IsRefused (Self.runs self) tokens) }
    {
        parse_stream(alloc, self, &tokens)
    }

    /// Reads a whole stream that stands within that span, as what an attribute has in its parentheses does: a fault at
    /// the stream's end is said there. Else it is as `parse2`, its condition too.
    final fn parse_scoped(
        self,
        alloc: Global,
        scope: Span,
        tokens: TokenStream,
    ) -> Result<Self::Output, ParseFault>
    where
        Self: Sized,
        Self: Drop,
        requires { Self.may self }
        ensures read { IfOk result (λ x. IsReadWithin scope (Self.runs self) tokens x) }
        ensures refused { IfErr result (λ e. IsSyntax e → IsRefusedWithin scope (Self.runs self) tokens) }
    {
        parse_within(alloc, self, scope, &tokens)
    }

    /// Reads a whole text, and puts the text behind the others of the map. The parser must be one that may be called on
    /// any stream (`may`).
    ///
    /// The fault is `MapFull` exactly if the map has no positions left for the text, else that the text has a lexical
    /// fault, or as that of `parse_stream`. The first two leave the map as it was.
    final fn parse_str(
        self,
        alloc: Global,
        text: &str,
        map: &mut SourceMap,
    ) -> Result<Self::Output, TextFault>
    where
        Self: Sized,
        Self: Drop,
        requires { Self.may self }
        ensures read { IfOk result (λ x.
            ReadsText (IsRead (Self.runs self)) (next_position map.old) (chars text.now) x) }
        ensures refused { IfErr result
            (RefusesText (IsRefused (Self.runs self)) (next_position map.old) (chars text.now)) }
        ensures full { (result ≡ Err MapFull) ↔ (2 ^ 32 ≤ next_position map.old + length (chars text.now)) }
        ensures map { OnOk result (map.new ≡ with_text map.old (chars text.now)) }
        ensures map_err { IfErr result (LeavesMap map.old (chars text.now) map.new) }
    {
        let stream = lexed(alloc, text, map)?;
        match parse_stream(alloc, self, &stream) {
            Ok(value) => Ok(value),
            Err(ParseFault::Syntax(error)) => Err(TextFault::Syntax(error)),
            Err(ParseFault::Memory) => Err(TextFault::Memory),
        }
    }
}

impl<T: Drop, F: FnOnce(&mut ParseBuffer<'_>) -> Result<T, ParseFault>> Parser for F {
    type Output = T;

    ghost may = { λ f. F.IsAlwaysCallable f };

    ghost runs = { λ f old answer new. FnOnceReturnsAtMut F.FnOnce f old answer new };

    fn run(self, input: &mut ParseBuffer<'_>) -> Result<T, ParseFault> {
        self(input)
    }
}

impl<'a> ParseBuffer<'a> {
    // Nothing may be left, neither of the list nor in a group that has been closed.
    fn require_all(&self) -> Result<(), ParseFault>
        ensures ok { IfOk result (λ _. leftover self.now ≡ None) }
        ensures err { IfErr result (λ _. ((t : _) × (leftover self.now ≡ Some t))) }
    {
        match self.leftover() {
            None => Ok(()),
            Some(token) => Err(self.left_over(token)),
        }
    }
}

/// Reads a whole stream by the parser: from its beginning to its end, with nothing left over in a group. The parser
/// must be one that may be called on any stream (`may`).
///
/// The fault is the parser's own, or that a token is left over: the first in a group that has been closed
/// before it was read to its end, else the first behind what the parser has read.
pub fn parse_stream<P: Parser + Drop>(
    alloc: Global,
    parser: P,
    tokens: &TokenStream,
) -> Result<P::Output, ParseFault>
    requires { P.may parser }
    ensures read { IfOk result (λ x. IsRead (P.runs parser) tokens.now x) }
    ensures refused { IfErr result (λ e. IsSyntax e → IsRefused (P.runs parser) tokens.now) }
{
    parse_within(alloc, parser, Span::call_site(), tokens)
}

// As `parse_stream`, of a stream that stands within that span: it is what is said at the stream's end.
fn parse_within<P: Parser + Drop>(
    alloc: Global,
    parser: P,
    closing: Span,
    tokens: &TokenStream,
) -> Result<P::Output, ParseFault>
    requires { P.may parser }
    ensures read { IfOk result (λ x. IsReadWithin closing (P.runs parser) tokens.now x) }
    ensures refused { IfErr result (λ e. IsSyntax e → IsRefusedWithin closing (P.runs parser) tokens.now) }
{
    let buffer = TokenBuffer::new2(alloc, tokens, 1)?;
    let mut input = ParseBuffer::new(alloc, buffer.begin_within(closing));
    match parser.run(&mut input) {
        Err(fault) => Err(fault),
        Ok(value) => match input.require_all() {
            Ok(()) => Ok(value),
            Err(fault) => Err(fault),
        },
    }
}

/// Reads all tokens of the buffer by the function, as `parse_stream` does those of a stream, and under the same
/// condition. What is read may lend them, as forms of the syntax tree do.
///
/// The fault is as that of `parse_stream`.
pub fn parse_buffer<'a, T: Drop, F: FnOnce(&mut ParseBuffer<'a>) -> Result<T, ParseFault>>(
    alloc: Global,
    reader: F,
    buffer: &'a TokenBuffer<'a>,
) -> Result<T, ParseFault>
    requires { F.IsAlwaysCallable reader }
    ensures read { IfOk result (λ x.
        IsRead (λ i r e. FnOnceReturnsAtMut F.FnOnce reader i r e) (spanned_entries buffer.now.entries.items) x) }
    ensures refused { IfErr result (λ e. IsSyntax e
        → IsRefused (λ i r e. FnOnceReturnsAtMut F.FnOnce reader i r e) (spanned_entries buffer.now.entries.items)) }
{
    let mut input = ParseBuffer::new(alloc, buffer.begin());
    match input.call(reader) {
        Err(fault) => Err(fault),
        Ok(value) => match input.require_all() {
            Ok(()) => Ok(value),
            Err(fault) => Err(fault),
        },
    }
}

/// Reads a whole stream as a value of that type.
///
/// The fault is that none is read from the stream, or that tokens are left behind it.
pub fn parse2<T: Parse>(alloc: Global, tokens: TokenStream) -> Result<T, ParseFault>
    ensures read { IfOk result (λ x. reads_whole T.reads tokens x) }
    ensures refused { IfErr result (λ e. IsSyntax e → refuses_whole T.reads T.refuses tokens) }
{
    let buffer = TokenBuffer::new2(alloc, &tokens, 1)?;
    let mut input = ParseBuffer::new(alloc, buffer.begin());
    read_to_end(&mut input)
}

// Reads a value, behind which nothing is left.
fn read_to_end<T: Parse>(input: &mut ParseBuffer<'_>) -> Result<T, ParseFault>
    ensures read { IfOk result (λ x. T.reads (rest input.old) x []) }
    ensures refused { IfErr result (λ e. IsSyntax e
        → T.refuses (rest input.old) ⊎ ReadsShort T.reads (rest input.old)) }
{
    match T::parse(input) {
        Err(fault) => Err(fault),
        Ok(value) => match input.require_end() {
            Ok(()) => Ok(value),
            Err(fault) => Err(fault),
        },
    }
}

// The stream of a text, which is put behind the others of the map.
fn lexed(alloc: Global, text: &str, map: &mut SourceMap) -> Result<TokenStream, TextFault>
    ensures forest { IfOk result (λ s. IsForest (next_position map.old) (chars text.now) s) }
    ensures refused { IfErr result (RefusesText (λ _. ⊥) (next_position map.old) (chars text.now)) }
    ensures full { (result ≡ Err MapFull) ↔ (2 ^ 32 ≤ next_position map.old + length (chars text.now)) }
    ensures map { OnOk result (map.new ≡ with_text map.old (chars text.now)) }
    ensures map_err { OnErr result (map.new ≡ map.old) }
{
    match TokenStream::from_str(alloc, text, map) {
        Ok(stream) => Ok(stream),
        Err(LexFault::Lex(error)) => Err(TextFault::Lexical(error)),
        Err(LexFault::MapFull) => Err(TextFault::MapFull),
        Err(LexFault::Memory) => Err(TextFault::Memory),
    }
}

/// Reads a whole text as a value of that type, and puts the text behind the others of the map.
///
/// The fault is `MapFull` exactly if the map has no positions left for the text, else that the text has a lexical
/// fault, or that its stream is not such a value from its beginning to its end. The first two leave the map as it was.
pub fn parse_str<T: Parse>(alloc: Global, text: &str, map: &mut SourceMap) -> Result<T, TextFault>
    ensures read { IfOk result (λ x. ReadsText (reads_whole T.reads) (next_position map.old) (chars text.now) x) }
    ensures refused { IfErr result
        (RefusesText (refuses_whole T.reads T.refuses) (next_position map.old) (chars text.now)) }
    ensures full { (result ≡ Err MapFull) ↔ (2 ^ 32 ≤ next_position map.old + length (chars text.now)) }
    ensures map { OnOk result (map.new ≡ with_text map.old (chars text.now)) }
    ensures map_err { IfErr result (LeavesMap map.old (chars text.now) map.new) }
{
    let stream = lexed(alloc, text, map)?;
    match parse2(alloc, stream) {
        Ok(value) => Ok(value),
        Err(ParseFault::Syntax(error)) => Err(TextFault::Syntax(error)),
        Err(ParseFault::Memory) => Err(TextFault::Memory),
    }
}
