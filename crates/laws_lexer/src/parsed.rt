//! What a text gives as a stream.

ghost use Rattle.proc_macro2.specs.Leaf.{AreLeaves};
ghost use Rattle.proc_macro2.specs.Groups.{IsMatched};
ghost use Rattle.proc_macro2.specs.Printed.{text};
ghost use Rattle.proc_macro2.specs.Spacing.{IsWellSpaced};
ghost use Rattle.proc_macro2.specs.Token.{Spanned, plain};
ghost use Rattle.rust_map.specs.declared.fault.LexError.{LexError};
ghost use Rattle.rust_map.specs.declared.fault.LexFault.TheVariants.{Lex, MapFull};
ghost use Rattle.rust_map.specs.Sources.{next_position};
ghost use Rattle.std.specs.Prelude.{◌≡◌, ◌+◌, ◌^◌, ◌≤◌, ◌↔◌, Err, IfOk, List, length};
ghost use Rattle.std.specs.Str.{chars};

use proc_macro2::LexFault;
use proc_macro2::tree::TokenStream;
use rust_map::SourceMap;
use std::alloc::Global;

/// What `TokenStream::from_str` answers. Each stream that it gives is well spaced, of leaves. For the printed
/// text of some leaves it gives the same tokens exactly if these are well spaced; and where they are, their
/// groups being matched, it says of no lexical fault. `MapFull` is answered exactly where the map has no
/// positions left for the text.
pub fn parsed(alloc: Global, src: &str, map: &mut SourceMap) -> Result<TokenStream, LexFault>
    ensures spaced { IfOk result (λ read. AreLeaves (plain read) × IsWellSpaced (plain read)) }
    ensures same { (stream : List Spanned) → chars src.now ≡ text (plain stream) → AreLeaves (plain stream) →
        IfOk result (λ read. IsWellSpaced (plain stream) ↔ (plain read ≡ plain stream)) }
    ensures without_fault { (stream : List Spanned) (error : LexError) → chars src.now ≡ text (plain stream) →
        AreLeaves (plain stream) → IsMatched stream → IsWellSpaced (plain stream) → result ≡ Err (Lex error) → ⊥ }
    ensures full { (result ≡ Err MapFull) ↔ (2 ^ 32 ≤ next_position map.old + length (chars src.now)) }
{
    TokenStream::from_str(alloc, src, map)
}
