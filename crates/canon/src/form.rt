//! The canonical form of a text.

ghost use Rattle.canon.specs.Faults.{IsFaultOf};
ghost use Rattle.canon.specs.Maps.{IsLeft};
ghost use Rattle.canon.specs.Places.{IsPlaced};
ghost use Rattle.canon.specs.Unread.{IsForm, IsUnread};
ghost use Rattle.laws_programs.specs.Program.{IsOutput, shebang_text};
ghost use Rattle.proc_macro2.specs.Token.{plain};
ghost use Rattle.rust_leaf.specs.Leaf.{text_of};
ghost use Rattle.rust_map.specs.Sources.{next_position, with_text};
ghost use Rattle.std.specs.Option.{option_map};
ghost use Rattle.std.specs.Prelude.{◌≡◌, ◌+◌, ◌^◌, ◌≤◌, ◌↔◌, ◌++◌, ◌∷◌, [], Err};
ghost use Rattle.std.specs.Prelude.{IfErr, IfOk, OnOk, length};
ghost use Rattle.std.specs.Str.{chars};

use crate::fault::Fault;
use crate::file::Unread;
use crate::parts::text_of_file;
use crate::stands::placed_error;
use proc_macro2::TokenStream;
use rust_map::SourceMap;
use std::alloc::{AllocError, Global};
use syn_buffer::TokenBuffer;

/// The canonical form of a text: its shebang and a line feed, if it has a shebang, and the printed text of its
/// program's normal form. The text is put behind the others of the map.
///
/// # Errors
///
/// `MapFull` exactly where the map has no positions left for so many characters. Else `Lexical` exactly where the text
/// has no forest, with the place of the fault, and `Syntax` exactly where it has a forest and the written grammar
/// derives no program from it, with the place of the token of which its error speaks. Places count in the whole text,
/// the shebang's line included. `Memory` only where a growth was refused.
///
/// `Syntax` leaves the text in the map, and `MapFull` and `Lexical` leave the map as it was. `Memory` does the one or
/// the other.
pub fn canonical(alloc: Global, text: &str, map: &mut SourceMap) -> Result<String, Fault>
    ensures output { IfOk result (λ s. IsOutput (chars text.now) (text_of s)) }
    ensures fault { IfErr result (IsFaultOf (chars text.now)) }
    ensures place { IfErr result (IsPlaced (next_position map.old) (chars text.now) map.new) }
    ensures full { (result ≡ Err Fault.MapFull) ↔ (2 ^ 32 ≤ next_position map.old + length (chars text.now)) }
    ensures map_ok { OnOk result (map.new ≡ with_text map.old (chars text.now)) }
    ensures map_err { IfErr result (IsLeft (chars text.now) map.old map.new) }
{
    let (shebang, stream) = match TokenStream::from_file(alloc, text, map) {
        Ok(file) => file,
        Err(fault) => return Err(Fault::from(fault)),
    };
    match formed(alloc, &stream) {
        Ok(form) => Ok(with_shebang(alloc, shebang, form)?),
        Err(Unread::Memory) => Err(Fault::Memory),
        Err(Unread::Syntax(wrong)) => {
            let (error, place) = placed_error(alloc, map, &stream, wrong)?;
            Err(Fault::Syntax { error, place })
        }
    }
}

// The text of the normal form of the file that a stream is.
fn formed(alloc: Global, stream: &TokenStream) -> Result<String, Unread>
    ensures output { IfOk result (λ s. IsForm (plain stream.now) (text_of s)) }
    ensures refused { IfErr result (IsUnread (plain stream.now)) }
{
    let buffer = TokenBuffer::new2(alloc, stream, 1)?;
    text_of_file(alloc, buffer.entries())
}

// The text, behind the shebang and a line feed if there is a shebang.
fn with_shebang(alloc: Global, shebang: Option<&str>, text: String) -> Result<String, AllocError>
    ensures { IfOk result (λ s. text_of s
        ≡ shebang_text (option_map (λ line. chars line.now) shebang.entry) ++ text_of text) }
{
    match shebang {
        None => Ok(text),
        Some(line) => behind_line(alloc, line, text.as_str()),
    }
}

// The text, behind a line and a line feed.
fn behind_line(alloc: Global, line: &str, text: &str) -> Result<String, AllocError>
    ensures { IfOk result (λ s. text_of s ≡ (chars line.now ++ 10 ∷ []) ++ chars text.now) }
{
    let mut whole = String::new(alloc);
    whole.push_str(line)?;
    whole.push('\n')?;
    whole.push_str(text)?;
    Ok(whole)
}
