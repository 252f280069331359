//! Token streams of files: of texts whose first line may be a shebang.

ghost use Rattle.proc_macro2.specs.FileForest.{HasShebang, IsFileFault, IsFileForest, NoShebang, behind_mark};
ghost use Rattle.proc_macro2.specs.Held.{are_held};
ghost use Rattle.rust_map.specs.declared.fault.LexFault.TheVariants.{MapFull};
ghost use Rattle.rust_lex.specs.Places.{IsPlace, rest_at};
ghost use Rattle.rust_map.specs.Sources.{next_position, next_span, next_spot, spot, with_text};
ghost use Rattle.std.specs.Prelude.{◌≡◌, ◌≢◌, ◌+◌, ◌^◌, ◌≤◌, ◌↔◌, Err, IfErr, IfOk, IsTrue, MatchOption, OnErr, OnOk};
ghost use Rattle.std.specs.Prelude.{Some, length, option_map};
ghost use Rattle.std.specs.Str.{chars};

use crate::parse::{Fault, fault_behind, lex, parsed, span_ahead};
use crate::tree::TokenStream;
use rust_escape::place::next_char;
use rust_lex::shebang::shebang_end;
use rust_map::characters;
use rust_map::fault::LexFault;
use rust_map::source_map::SourceMap;
use rust_map::span::Span;
use std::alloc::Global;

// A text with a shebang: the shebang, what stands behind it, and how many characters of the text stand before that.
#[derive(Clone, Copy)]
struct Script<'t> {
    shebang: &'t str,
    rest: &'t str,
    count: usize,
}

// The place behind the byte order mark that a text may begin with, in bytes.
fn mark_end(text: &str) -> usize
    ensures place { IsPlace text.now result }
    ensures behind { rest_at text.now result ≡ behind_mark (chars text.now) }
{
    match next_char(text, 0) {
        Some(('\u{feff}', end)) => end,
        _ => 0,
    }
}

// A text as its shebang and what stands behind it. None: it has no shebang.
fn script_of(text: &str) -> Option<Script>
    ensures { MatchOption result (NoShebang (chars text.now))
        (λ s. HasShebang (chars text.now) (chars s.shebang.now) (chars s.rest.now) s.count) }
{
    let start = mark_end(text);
    let end = shebang_end(text, start)?;
    Some(Script {
        shebang: &text[start..end],
        rest: &text[end..],
        count: characters(&text[..end]),
    })
}

// The shebang of a file and its trees, or what is said of its fault. A span is given that begins where the text will,
// and ends no earlier than it.
fn file_parsed(
    alloc: Global,
    text: &str,
    whole: Span,
) -> Result<(Option<&str>, TokenStream), LexFault>
    requires whole { whole.start + length (chars text.now) ≤ whole.end }
    ensures parsed { IfOk result (λ file. IsFileForest whole.start (chars text.now)
        (option_map (λ line. chars line.now) file.0) file.1) }
    ensures fault { IfErr result (IsFileFault whole.start (chars text.now)) }
    ensures room { result ≢ Err MapFull }
{
    let Some(script) = script_of(text) else {
        return match parsed(alloc, text, whole) {
            Ok(stream) => Ok((None, stream)),
            Err(fault) => Err(fault),
        };
    };
    let count = script.count as u32;
    let behind = whole.part(count, whole.characters());
    match lex(alloc, script.rest, behind) {
        Ok(stream) => Ok((Some(script.shebang), stream)),
        Err(Fault::Behind(more)) => Err(fault_behind(text, whole, count + more)),
        Err(Fault::Memory) => Err(LexFault::Memory),
    }
}

impl TokenStream {
    /// The tokens of a file as trees, and its shebang if it has one; the text of the file is put behind the others of
    /// the map, its front and all.
    ///
    /// A shebang is the first line of a file, behind a byte order mark if there is one: `#!`, then any white characters
    /// of that line, and then a character of it that is no `[` and begins neither `//` nor `/*`. It ends before the
    /// first line feed or at the end of the text, and is no token. Spans, lines and columns count in the whole text.
    ///
    /// The errors are those of `from_str`, of which each leaves the map as it was: `LexFault::MapFull` is answered
    /// exactly if the map has no positions left for so many characters, `LexFault::Lex` if what stands behind the
    /// shebang has a lexical fault, `LexFault::Memory` if memory was refused.
    pub fn from_file<'s>(
        alloc: Global,
        src: &'s str,
        map: &mut SourceMap,
    ) -> Result<(Option<&'s str>, TokenStream), LexFault>
        ensures parsed { IfOk result (λ file. IsFileForest (next_position map.old) (chars src.now)
            (option_map (λ line. chars line.now) file.0) file.1) }
        ensures fault { IfErr result (IsFileFault (next_position map.old) (chars src.now)) }
        ensures full { (result ≡ Err MapFull) ↔ (2 ^ 32 ≤ next_position map.old + length (chars src.now)) }
        ensures held { IfOk result (λ file. IsTrue (are_held map.new file.1)) }
        ensures map_ok { OnOk result (map.new ≡ with_text map.old (chars src.now)) }
        ensures spot { OnOk result
            (spot map.new (next_span map.old (chars src.now)) ≡ Some (next_spot map.old (chars src.now))) }
        ensures map_err { OnErr result (map.new ≡ map.old) }
    {
        let Some(whole) = span_ahead(map, src) else {
            return Err(LexFault::MapFull);
        };
        match file_parsed(alloc, src, whole) {
            Ok(file) => {
                map.insert(src)?;
                Ok(file)
            }
            Err(fault) => Err(fault),
        }
    }
}
