//! What a map says of the tokens of a text that was put into it.

ghost use Rattle.laws_lexer.specs.Place.{IsBehind, IsFound};
ghost use Rattle.proc_macro2.specs.Forest.{IsForest};
ghost use Rattle.rust_map.specs.Sources.{KeepsSpots, is_held, next_position};
ghost use Rattle.rust_map.specs.declared.fault.LexFault.TheVariants.{MapFull};
ghost use Rattle.std.specs.List.{All, AllPairs};
ghost use Rattle.std.specs.Prelude.{◌≡◌, ◌+◌, ◌^◌, ◌≤◌, ◌↔◌, Err, IfOk, IsTrue, length};
ghost use Rattle.std.specs.Str.{chars};

use proc_macro2::LexFault;
use proc_macro2::tree::TokenStream;
use rust_map::SourceMap;
use std::alloc::Global;

/// What `TokenStream::from_str` answers and does to the map. The source text of each token of the stream is
/// the token as it is printed; that of a group goes from the opening delimiter to the closing one, and that
/// of a token that comes of a doc comment is the comment. The tokens stand in the order of the stream. Spans
/// of earlier texts lie where they lay, whatever is answered. `MapFull` is answered exactly where the map has
/// no positions left for the text.
pub fn placed(alloc: Global, src: &str, map: &mut SourceMap) -> Result<TokenStream, LexFault>
    ensures forest { IfOk result (IsForest (next_position map.old) (chars src.now)) }
    ensures printed { IfOk result (λ stream. All (IsFound map.new) stream) }
    ensures ordered { IfOk result (λ stream. AllPairs (IsBehind map.new) stream) }
    ensures kept { KeepsSpots map.old map.new }
    ensures full { (result ≡ Err MapFull) ↔ (2 ^ 32 ≤ next_position map.old + length (chars src.now)) }
{
    // That it is positive tells the prover that no text's span is the call site's.
    let _first = map.starting_position();
    TokenStream::from_str(alloc, src, map)
}
