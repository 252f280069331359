//! Texts that are read in one call.

ghost use Rattle.rust_map.specs.Sources.{next_position, with_text};
ghost use Rattle.std.specs.Prelude.{◌+◌, ◌^◌, ◌↔◌, ◌≡◌, ◌≤◌, Err, IfErr, IfOk, Ok, OnOk, length};
ghost use Rattle.std.specs.Str.{chars};
ghost use Rattle.syn_read.specs.Texts.{MayAnswer, MayRefuse};
ghost use Rattle.syn_error.specs.Faults.{IsSyntax};
ghost use Rattle.syn_error.specs.declared.fault.TextFault.TheVariants.{MapFull};
ghost use Rattle.syn_input.specs.Whole.{LeavesMap, ReadsText, RefusesText};

use proc_macro2::tree::TokenStream;
use reader_tree::arena::Arena;
use rust_map::source_map::SourceMap;
use std::alloc::Global;
use syn_buffer::TokenBuffer;
use syn_error::{ParseFault, TextFault};

// What the function answers of the stream, lent an arena and a buffer of its tokens.
fn read_stream<T, F: FnOnce(&Arena, &TokenBuffer<'_>) -> Result<T, ParseFault>>(
    alloc: Global,
    reader: F,
    stream: &TokenStream,
) -> Result<T, ParseFault>
    requires { F.IsAlwaysCallable reader }
    ensures read { IfOk result (λ x. MayAnswer (F.post reader) stream.now (Ok x)) }
    ensures refused { IfErr result (λ e. IsSyntax e → MayAnswer (F.post reader) stream.now (Err e)) }
{
    let buffer = TokenBuffer::new2(alloc, stream, 1)?;
    let arena = Arena::new(alloc);
    match reader(&arena, &buffer) {
        Ok(value) => Ok(value),
        Err(fault) => Err(fault),
    }
}

/// Reads a text by the function, and puts the text behind the others of the map. The function is lent an arena and a
/// buffer of the text's tokens, of which the forms that it reads are made: so it answers what it makes of them, as
/// `parse_str_with(alloc, "Vec<u8>", &mut map, |arena, buffer| Ok(count(parse2::<Type>(arena, buffer)?)))`.
///
/// # Errors
///
/// `MapFull` exactly if the map has no positions left for the text, else `Lexical` where the text has a lexical fault,
/// `Syntax` where the function answers that, and `Memory` only where it does or a growth was refused. The first two
/// leave the map as it was.
pub fn parse_str_with<T, F: FnOnce(&Arena, &TokenBuffer<'_>) -> Result<T, ParseFault>>(
    alloc: Global,
    text: &str,
    map: &mut SourceMap,
    reader: F,
) -> Result<T, TextFault>
    requires { F.IsAlwaysCallable reader }
    ensures read { IfOk result (λ x. ReadsText (λ tokens value. MayAnswer (F.post reader) tokens (Ok value))
        (next_position map.old) (chars text.now) x) }
    ensures refused { IfErr result (λ e. RefusesText (MayRefuse (F.post reader) e) (next_position map.old)
        (chars text.now) e) }
    ensures full { (result ≡ Err MapFull) ↔ (2 ^ 32 ≤ next_position map.old + length (chars text.now)) }
    ensures map { OnOk result (map.new ≡ with_text map.old (chars text.now)) }
    ensures map_err { IfErr result (LeavesMap map.old (chars text.now) map.new) }
{
    let stream = TokenStream::from_str(alloc, text, map)?;
    match read_stream(alloc, reader, &stream) {
        Ok(value) => Ok(value),
        Err(ParseFault::Syntax(error)) => Err(TextFault::Syntax(error)),
        Err(ParseFault::Memory) => Err(TextFault::Memory),
    }
}
