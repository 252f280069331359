//! Literals of texts.

ghost use Rattle.rust_leaf.specs.Leaf.{literal_span, literal_text};
ghost use Rattle.rust_leaf.specs.Parse.{IsLiteralText, IsNegative, IsRefusal, is_number_kind, literal_of};
ghost use Rattle.rust_lex.specs.Piece.{IsLiteral};
ghost use Rattle.rust_lex.specs.declared.piece.LiteralKind.{LiteralKind};
ghost use Rattle.rust_map.specs.Sources.{next_position, next_span, next_spot, spot, with_text};
ghost use Rattle.rust_map.specs.Spans.{call_site};
ghost use Rattle.rust_map.specs.declared.fault.LexFault.TheVariants.{MapFull};
ghost use Rattle.std.specs.Prelude.{◌≡◌, ◌+◌, ◌^◌, ◌≤◌, ◌↔◌, [], Err, IfErr, IfOk, IsTrue, OnErr, OnOk, Some, length};
ghost use Rattle.std.specs.Str.{chars};

use crate::literal::Literal;
use crate::minus::behind_minus;
use rust_lex::piece::{LiteralKind, PieceKind};
use rust_lex::scan::next_piece;
use rust_map::fault::{LexError, LexFault};
use rust_map::source_map::SourceMap;
use rust_map::span::Span;
use rust_map::{LineColumn, characters};
use std::alloc::{AllocError, Global};

// Which literal a piece is, if it is one.
fn literal_of(piece: PieceKind) -> Option<LiteralKind>
    ensures { result ≡ literal_of piece }
{
    match piece {
        PieceKind::Literal(kind) => Some(kind),
        _ => None,
    }
}

// Which literal all of the text is, if it is one.
fn kind_of(text: &str) -> Option<LiteralKind>
    ensures { (kind : LiteralKind) → (result ≡ Some kind) ↔ IsLiteral kind (chars text.now) [] }
{
    let (piece, end) = next_piece(text, 0)?;
    if end == text.len() {
        literal_of(piece)
    } else {
        None
    }
}

// Whether a literal is a number.
fn is_number_kind(kind: LiteralKind) -> bool
    ensures { result ≡ is_number_kind kind }
{
    matches!(kind, LiteralKind::Int | LiteralKind::Float)
}

// Whether the text is a minus and a number.
fn is_negative(text: &str) -> bool
    ensures { IsTrue result ↔ IsNegative (chars text.now) }
{
    let Some(number) = behind_minus(text) else {
        return false;
    };
    match kind_of(number) {
        Some(kind) => is_number_kind(kind),
        None => false,
    }
}

impl Literal {
    /// Whether the text is that of a literal: one literal token with its suffix and nothing else, or a `-`
    /// directly before such a number.
    pub fn is_text(text: &str) -> bool
        ensures { IsTrue result ↔ IsLiteralText (chars text.now) }
    {
        kind_of(text).is_some() || is_negative(text)
    }

    /// The literal of a text, which is put behind the others of the map; the literal's span is that of
    /// all of it. The text is that of a literal as `is_text` has it, without white space or comments: `-1`
    /// is one, `- 1` and `-"a"` are none.
    ///
    /// `LexFault::MapFull` is answered, before the text is looked at, exactly if the map has no positions
    /// left for so many characters; `LexFault::Lex`, at the front of the text, if this is no literal's;
    /// `LexFault::Memory` if it is, and memory was refused. Each of them leaves the map as it was.
    pub fn from_str(alloc: Global, src: &str, map: &mut SourceMap) -> Result<Literal, LexFault>
        ensures parsed { OnOk result (IsLiteralText (chars src.now)) }
        ensures text_is { IfOk result (λ literal. literal_text literal ≡ chars src.now) }
        ensures span_is { IfOk result (λ literal. literal_span literal ≡ next_span map.old (chars src.now)) }
        ensures fault { IfErr result (IsRefusal (next_position map.old) (chars src.now)) }
        ensures full { (result ≡ Err MapFull) ↔ (2 ^ 32 ≤ next_position map.old + length (chars src.now)) }
        ensures map_ok { OnOk result (map.new ≡ with_text map.old (chars src.now)) }
        ensures spot { OnOk result
            (spot map.new (next_span map.old (chars src.now)) ≡ Some (next_spot map.old (chars src.now))) }
        ensures map_err { OnErr result (map.new ≡ map.old) }
    {
        let Ok(whole) = map.span_ahead(characters(src)) else {
            return Err(LexFault::MapFull);
        };
        if !Literal::is_text(src) {
            return Err(LexFault::Lex(LexError::new(whole.part(0, 0), FRONT)));
        }
        let mut literal = Literal::from_str_unchecked(alloc, src)?;
        literal.set_span(map.insert(src)?);
        Ok(literal)
    }

    /// The literal that is printed as `repr`, at no place of a text. `is_text` is the test of its
    /// condition.
    ///
    /// `AllocError`: memory for the text was refused. None is taken for a text of at most 16 bytes.
    pub fn from_str_unchecked(alloc: Global, repr: &str) -> Result<Literal, AllocError>
        requires { IsLiteralText (chars repr.now) }
        ensures text_is { IfOk result (λ literal. literal_text literal ≡ chars repr.now) }
        ensures span_is { IfOk result (λ literal. literal_span literal ≡ call_site) }
    {
        Literal::from_text(alloc, repr, Span::call_site())
    }
}

// The place at a text's front.
const FRONT: LineColumn = LineColumn { line: 1, column: 0 };
