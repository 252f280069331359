//! Token streams of texts.

ghost use Rattle.proc_macro2.specs.Forest.{IsFault, IsFaultWithin, IsForest};
ghost use Rattle.proc_macro2.specs.Held.{are_held};
ghost use Rattle.proc_macro2.specs.declared.parse.Fault.TheVariants.{Memory};
ghost use Rattle.rust_map.specs.declared.fault.LexFault.TheVariants.{Lex, MapFull};
ghost use Rattle.rust_lex.specs.Piece.{IsJoint};
ghost use Rattle.rust_lex.specs.Places.{IsPieceAt, IsPlace, between_places, rest_at};
ghost use Rattle.rust_lex.specs.declared.piece.PieceKind.TheVariants.{Mark};
ghost use Rattle.rust_map.specs.Places.{place_of};
ghost use Rattle.rust_map.specs.Sources.{next_position, next_span, next_spot, spot, with_text};
ghost use Rattle.rust_map.specs.Spans.{span_part};
ghost use Rattle.std.specs.Prelude.{◌≡◌, ◌≢◌, ◌+◌, ◌^◌, ◌<◌, ◌≤◌, ◌↔◌, Err, IfErr, IfOk, IfSome, IsTrue, None};
ghost use Rattle.std.specs.Prelude.{OnErr, OnOk, Some, length, option_map};
ghost use Rattle.std.specs.Str.{chars};

use crate::builder::{Builder, Stretch};
use crate::place::place_behind;
use crate::put::put;
use crate::tree::TokenStream;
use rust_leaf::text_table::TextTable;
use rust_lex::piece::PieceKind;
use rust_lex::scan::{is_joint, narrow_piece, next_piece, white_end};
use rust_map::characters;
use rust_map::fault::{LexError, LexFault};
use rust_map::source_map::SourceMap;
use rust_map::span::Span;
use std::alloc::{AllocError, Global};

// Why a text has no trees.
#[derive(Drop)]
pub(crate) enum Fault {
    // A lexical fault, behind so many characters of the text.
    Behind(u32),
    // Memory was refused.
    Memory,
}

impl From<AllocError> for Fault {
    ghost from_gives = { λ _ fault. fault ≡ Memory };

    fn from(_: AllocError) -> Fault {
        Fault::Memory
    }
}

// The lexical fault of a text behind so many of its characters. A span is given that begins where the text will, and
// ends no earlier than it.
pub(crate) fn fault_behind(text: &str, whole: Span, count: u32) -> LexFault
    requires there { count ≤ length (chars text.now) }
    requires whole { whole.start + length (chars text.now) ≤ whole.end }
    ensures { result ≡ Lex (record { span = span_part whole count count; place = place_of (chars text.now) count }) }
{
    LexFault::Lex(LexError::new(whole.part(count, count), place_behind(text, count)))
}

// Whether the piece at a place is joint, if it is a mark.
fn joint_at(text: &str, at: usize, kind: PieceKind) -> bool
    requires { IsPlace text.now at }
    ensures { kind ≡ Mark → (IsTrue result ↔ IsJoint (rest_at text.now at)) }
{
    match kind {
        PieceKind::Mark => is_joint(text, at),
        _ => false,
    }
}

// A piece of a text: its class, the place behind it, how many characters it has, and of a mark whether it is joint.
#[derive(Clone, Copy)]
struct Found {
    kind: PieceKind,
    end: usize,
    characters: usize,
    joint: bool,
}

// The piece at a place of a text, the commonest ones by a short way. None: no piece begins there.
#[inline(always)]
fn found_at(text: &str, at: usize) -> Option<Found>
    requires { IsPlace text.now at }
    ensures piece { IsPieceAt text.now at (option_map (λ found. (found.kind, found.end)) result) }
    ensures count { IfSome result (λ found. found.characters ≡ length (between_places text.now at found.end)) }
    ensures joint { IfSome result (λ found. found.kind ≡ Mark
        → (IsTrue found.joint ↔ IsJoint (rest_at text.now at))) }
{
    if let Some(piece) = narrow_piece(text, at) {
        return Some(Found {
            kind: piece.kind,
            end: piece.end,
            characters: piece.end - at,
            joint: piece.is_joint,
        });
    }
    let (kind, end) = next_piece(text, at)?;
    Some(Found {
        kind,
        end,
        characters: characters(&text[at..end]),
        joint: joint_at(text, at, kind),
    })
}

// The trees of a text. A span is given that begins where the text will, and ends no earlier than it.
pub(crate) fn lex(alloc: Global, text: &str, whole: Span) -> Result<TokenStream, Fault>
    requires whole { whole.start + length (chars text.now) ≤ whole.end }
    ensures parsed { IfOk result (λ stream. IsForest whole.start (chars text.now) stream) }
    ensures fault { IfErr result (IsFaultWithin (chars text.now)) }
{
    let mut table = TextTable::new(alloc);
    lex_with(&mut table, text, whole)
}

// The same, where leaves share their texts by a table.
fn lex_with(table: &mut TextTable, text: &str, whole: Span) -> Result<TokenStream, Fault>
    requires whole { whole.start + length (chars text.now) ≤ whole.end }
    ensures parsed { IfOk result (λ stream. IsForest whole.start (chars text.now) stream) }
    ensures fault { IfErr result (IsFaultWithin (chars text.now)) }
{
    let mut builder = Builder::new(table.allocator());
    let mut at = 0usize;
    let mut count = 0u32;
    while at < text.len() {
        if let Some(end) = white_end(text, at) {
            at = end;
            count += 1;
            continue;
        }
        let Some(found) = found_at(text, at) else {
            return Err(Fault::Behind(count));
        };
        let piece = &text[at..found.end];
        let there = Stretch {
            whole,
            from: count,
            to: count + found.characters as u32,
        };
        if !put(&mut builder, table, found.kind, piece, found.joint, there)? {
            return Err(Fault::Behind(count));
        }
        at = found.end;
        count = there.to;
    }
    match builder.finish()? {
        Ok(stream) => Ok(stream),
        Err(frame) => Err(Fault::Behind(frame.count)),
    }
}

// The trees of a text, or what is said of its fault.
pub(crate) fn parsed(alloc: Global, text: &str, whole: Span) -> Result<TokenStream, LexFault>
    requires whole { whole.start + length (chars text.now) ≤ whole.end }
    ensures parsed { IfOk result (λ stream. IsForest whole.start (chars text.now) stream) }
    ensures fault { IfErr result (IsFault whole.start (chars text.now)) }
    ensures room { result ≢ Err MapFull }
{
    match lex(alloc, text, whole) {
        Ok(stream) => Ok(stream),
        Err(Fault::Behind(count)) => Err(fault_behind(text, whole, count)),
        Err(Fault::Memory) => Err(LexFault::Memory),
    }
}

// A span that begins where a text will, if it is the next that is put into a map, and ends no earlier than it.
// None: the map has no positions left for it. The characters are counted only where the bytes are too many.
pub(crate) fn span_ahead(map: &SourceMap, text: &str) -> Option<Span>
    ensures full { (result ≡ None) ↔ (2 ^ 32 ≤ next_position map.now + length (chars text.now)) }
    ensures start { IfSome result (λ whole. whole.start ≡ next_position map.now) }
    ensures end { IfSome result (λ whole. whole.start + length (chars text.now) ≤ whole.end) }
{
    match map.span_ahead(text.len()) {
        Ok(whole) => Some(whole),
        Err(_) => map.span_ahead(characters(text)).ok(),
    }
}

impl TokenStream {
    /// The tokens of a text as trees, and the text itself behind the others of the map.
    ///
    /// Each token carries its span, and a group the span from its opening to its closing delimiter. A
    /// doc comment gives the tokens of the attribute that it stands for. The map holds each of these spans.
    ///
    /// `LexFault::MapFull` is answered, before the text is looked at, exactly if the map has no
    /// positions left for so many characters; `LexFault::Lex` if the text has a lexical fault: where no
    /// piece begins, where a closing delimiter closes nothing, or where the innermost group was opened
    /// that is open at the text's end; `LexFault::Memory` if memory was refused. Each of them leaves the
    /// map as it was.
    pub fn from_str(alloc: Global, src: &str, map: &mut SourceMap) -> Result<TokenStream, LexFault>
        ensures parsed { IfOk result (λ stream. IsForest (next_position map.old) (chars src.now) stream) }
        ensures fault { IfErr result (IsFault (next_position map.old) (chars src.now)) }
        ensures full { (result ≡ Err MapFull) ↔ (2 ^ 32 ≤ next_position map.old + length (chars src.now)) }
        ensures held { IfOk result (λ stream. IsTrue (are_held map.new stream)) }
        ensures map_ok { OnOk result (map.new ≡ with_text map.old (chars src.now)) }
        ensures spot { OnOk result
            (spot map.new (next_span map.old (chars src.now)) ≡ Some (next_spot map.old (chars src.now))) }
        ensures map_err { OnErr result (map.new ≡ map.old) }
    {
        let Some(whole) = span_ahead(map, src) else {
            return Err(LexFault::MapFull);
        };
        let stream = parsed(alloc, src, whole)?;
        map.insert(src)?;
        Ok(stream)
    }
}
