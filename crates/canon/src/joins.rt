//! The canonical form of texts that are joined.

ghost use Rattle.canon.specs.Joined.{ArePut, HasNoRoom, IsDecidedBy, IsFaultAmong, IsFaultOfLater, LacksRoom, put_in};
ghost use Rattle.canon.specs.Joined.{AreBehind, may_follow, texts_of};
ghost use Rattle.canon.specs.JoinedRun.{AreUtf8, bytes_of};
ghost use Rattle.canon.specs.Maps.{IsLeft};
ghost use Rattle.canon.specs.Places.{IsPlaced};
ghost use Rattle.canon.specs.Unread.{IsUnread};
ghost use Rattle.laws_programs.specs.Joined.{IsJoinedOutput, IsLater, attributes_of};
ghost use Rattle.laws_programs.specs.Program.{IsFile, IsProgram, Program};
ghost use Rattle.proc_macro2.specs.Token.{plain};
ghost use Rattle.rust_leaf.specs.Leaf.{text_of};
ghost use Rattle.rust_lex.specs.Chars.{begins};
ghost use Rattle.rust_lex.specs.FileCover.{is_front_mark};
ghost use Rattle.rust_map.specs.Sources.{next_position, with_text};
ghost use Rattle.std.specs.Prelude.{◌≡◌, ◌<◌, ◌⊎◌, ◌↔◌, [], Err, IfErr, IfOk, OnOk, false};
ghost use Rattle.std.specs.Str.{IsUtf8, chars};
ghost use Rattle.syn_grammar.specs.Tree.{Tree};

use crate::fault::Fault;
use crate::file::{Unread, read_file};
use crate::form::canonical;
use crate::stands::placed_error;
use proc_macro2::TokenStream;
use reader_tree::arena::Arena;
use reader_tree::tree::Tree;
use rust_map::SourceMap;
use std::alloc::Global;
use syn_buffer::TokenBuffer;
use text_chars::next_char;

/// The canonical form of texts that are joined, with a line feed between two. It is their canonical forms one behind
/// the other, with a space between two that have tokens, and their items are the items in order. No text gives the
/// empty output.
///
/// The texts are put into the map in order, each once the one before it is decided, and behind them what they are
/// joined to.
///
/// # Errors
///
/// The first text that is at fault decides. `MapFull` where the map has no room for it. Else `Lexical` or `Syntax`
/// where `canonical` answers that of it, with its place in that text; else `NotFirst` where it isn't the first text,
/// and begins with a byte order mark, or has a shebang or an inner attribute or inner doc comment of the file itself.
/// `MapFull` is also answered where all may be joined, and the map has no room for what they are joined to. `Memory`
/// only where a growth was refused.
///
/// The texts before the one that decides stay in the map. That one is left in it as `canonical` leaves it, and by
/// `NotFirst` as by `Syntax`.
pub fn canonical_joined(alloc: Global, texts: &[&str], map: &mut SourceMap) -> Result<String, Fault>
    // What is answered of the texts.
    ensures output { IfOk result (λ s. IsJoinedOutput (texts_of texts.now) (text_of s)) }
    ensures fault { IfErr result (IsFaultAmong (texts_of texts.now)) }

    // The text that decides, its place, and what it leaves of the map; and the map where all are joined.
    ensures decided { IfErr result (IsDecidedBy (put_in (texts_of texts.now)) map.old map.new) }
    ensures put { OnOk result (AreBehind (put_in (texts_of texts.now)) map.old map.new) }

    // The map is full exactly where it has no room for one of them: unless memory is refused before.
    ensures full { result ≡ Err Fault.MapFull → LacksRoom false map.old (put_in (texts_of texts.now)) }
    ensures no_room { LacksRoom false map.old (put_in (texts_of texts.now))
        → (result ≡ Err Fault.MapFull) ⊎ (result ≡ Err Fault.Memory) }
{
    put_texts(alloc, texts, map)?;
    let joined = texts.join(alloc, "\n")?;
    canonical(alloc, joined.as_str(), map)
}

// Puts texts into the map, one behind the other, and decides each before the next.
fn put_texts(alloc: Global, texts: &[&str], map: &mut SourceMap) -> Result<(), Fault>
    ensures text { OnOk result (AreUtf8 (bytes_of texts.now)) }
    ensures put { OnOk result (ArePut (texts_of texts.now) map.old map.new) }
    ensures fault { IfErr result (IsFaultAmong (texts_of texts.now)) }
    ensures decided { IfErr result (IsDecidedBy (put_in (texts_of texts.now)) map.old map.new) }
{
    for (index, text) in texts.iter().enumerate() {
        put_text(alloc, text, index, map)?;
    }
    Ok(())
}

// Puts a text into the map that so many others precede, and decides whether it may stand there.
fn put_text(alloc: Global, text: &str, before: usize, map: &mut SourceMap) -> Result<(), Fault>
    ensures text { OnOk result (IsUtf8 text.now) }
    ensures program { OnOk result ((program : Program) × IsProgram (chars text.now) program
        × (0 < before → IsLater (chars text.now) program)) }
    ensures fault { IfErr result (IsFaultOfLater before (chars text.now)) }
    ensures place { IfErr result (IsPlaced (next_position map.old) (chars text.now) map.new) }
    ensures full { (result ≡ Err Fault.MapFull) ↔ HasNoRoom map.old (chars text.now) }
    ensures map_ok { OnOk result (map.new ≡ with_text map.old (chars text.now)) }
    ensures map_err { IfErr result (IsLeft (chars text.now) map.old map.new) }
{
    let (shebang, stream) = match TokenStream::from_file(alloc, text, map) {
        Ok(file) => file,
        Err(fault) => return Err(Fault::from(fault)),
    };
    match has_own_attributes(alloc, &stream) {
        Ok(own) if before == 0 || may_follow(text, shebang, own) => Ok(()),
        Ok(_) => Err(Fault::NotFirst(before)),
        Err(Unread::Memory) => Err(Fault::Memory),
        Err(Unread::Syntax(wrong)) => {
            let (error, place) = placed_error(alloc, map, &stream, wrong)?;
            Err(Fault::Syntax { error, place })
        }
    }
}

// Whether a text may stand behind another: it has no byte order mark, no shebang, and no attributes of its own. Whether
// it has these is told.
fn may_follow(text: &str, shebang: Option<&str>, own: bool) -> bool
    ensures { result ≡ may_follow (chars text.now) shebang.entry own }
{
    !own && shebang.is_none() && !is_marked(text)
}

// Whether a text begins with a byte order mark.
fn is_marked(text: &str) -> bool
    ensures { result ≡ begins is_front_mark (chars text.now) }
{
    matches!(next_char(text, 0), Some(('\u{feff}', _)))
}

// Whether the file that a stream is has attributes of its own.
fn has_own_attributes(alloc: Global, stream: &TokenStream) -> Result<bool, Unread>
    ensures file { IfOk result (λ has. (tree : Tree) × IsFile (plain stream.now) tree
        × ((has ≡ false) ↔ (attributes_of tree ≡ []))) }
    ensures refused { IfErr result (IsUnread (plain stream.now)) }
{
    let buffer = TokenBuffer::new2(alloc, stream, 1)?;
    let arena = Arena::new(alloc);
    let file = read_file(&arena, buffer.entries())?;
    Ok(has_attributes(&file))
}

// Whether a file has attributes of its own.
fn has_attributes(file: &Tree) -> bool
    ensures { (result ≡ false) ↔ (attributes_of file.now ≡ []) }
{
    let Some((_, parts)) = file.node() else {
        return false;
    };
    let Some((front, _)) = parts.pair() else {
        return false;
    };
    let Some((_, attributes)) = front.node() else {
        return false;
    };
    let Some(each) = attributes.turns() else {
        return false;
    };
    !each.is_empty()
}
