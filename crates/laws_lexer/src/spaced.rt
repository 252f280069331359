//! Streams and their printed texts.

ghost use Rattle.proc_macro2.specs.Forest.{IsForest};
ghost use Rattle.proc_macro2.specs.Printed.{printed, text};
ghost use Rattle.proc_macro2.specs.Spacing.{IsWellSpaced};
ghost use Rattle.proc_macro2.specs.Token.{Spanned, plain};
ghost use Rattle.rust_map.specs.declared.fault.LexError.{LexError};
ghost use Rattle.rust_map.specs.declared.fault.LexFault.TheVariants.{Lex, MapFull};
ghost use Rattle.rust_map.specs.Sources.{next_position};
ghost use Rattle.std.specs.Prelude.{◌≡◌, ◌+◌, ◌^◌, ◌≤◌, ◌↔◌, Err, IfOk, IsTrue, List, length, ℕ};

use crate::parsed::parsed;
use proc_macro2::LexFault;
use proc_macro2::laws::each_stream;
use proc_macro2::tree::TokenStream;
use rust_map::SourceMap;
use std::alloc::Global;

/// What `TokenStream::is_well_spaced` answers: true exactly if the stream's printed text has a forest of
/// the same tokens, wherever its characters stand.
pub fn is_well_spaced(stream: &TokenStream) -> bool
    ensures { (base : ℕ) → IsTrue result ↔ ((read : List Spanned) × IsForest base (text (plain stream.now)) read ×
        (plain read ≡ plain stream.now)) }
{
    each_stream(stream);
    stream.is_well_spaced()
}

/// What `TokenStream::from_str` answers to what `Display` prints of a stream: the same tokens exactly if the
/// stream is well spaced, and then no lexical fault. `MapFull` is answered exactly where the map has no
/// positions left for the text.
#[tactic(auto, using(crate::proofs::Streams::printed_text))]
pub fn read_again(
    stream: &TokenStream,
    alloc: Global,
    src: &str,
    map: &mut SourceMap,
) -> Result<TokenStream, LexFault>
    requires { src.now ≡ printed stream.now }
    ensures same { IfOk result (λ read. IsWellSpaced (plain stream.now) ↔ (plain read ≡ plain stream.now)) }
    ensures without_fault { IsWellSpaced (plain stream.now) → (error : LexError) → result ≡ Err (Lex error) → ⊥ }
    ensures full { (result ≡ Err MapFull) ↔ (2 ^ 32 ≤ next_position map.old + length (text (plain stream.now))) }
{
    each_stream(stream);
    parsed(alloc, src, map)
}

/// Prints the stream and reads the print: the same tokens exactly if the stream is well spaced.
///
/// # Errors
///
/// `LexFault::Lex` only where the stream isn't well spaced, `LexFault::MapFull` only where the map has no
/// positions left for the print, and `LexFault::Memory` only where a growth was refused.
pub fn reread(
    stream: &TokenStream,
    alloc: Global,
    map: &mut SourceMap,
) -> Result<TokenStream, LexFault>
    ensures same { IfOk result (λ read. IsWellSpaced (plain stream.now) ↔ (plain read ≡ plain stream.now)) }
    ensures without_fault { IsWellSpaced (plain stream.now) → (error : LexError) → result ≡ Err (Lex error) → ⊥ }
    ensures full { result ≡ Err MapFull → 2 ^ 32 ≤ next_position map.old + length (text (plain stream.now)) }
{
    let print = format!(in alloc; "{stream}")?;
    read_again(stream, alloc, print.as_str(), map)
}
