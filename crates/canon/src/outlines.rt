//! The outline of a text: its items' names, and where they stand.

ghost use Rattle.canon.specs.Faults.{IsFaultOf};
ghost use Rattle.canon.specs.Maps.{IsLeft};
ghost use Rattle.canon.specs.Outline.{AreThere, IsOutline, kind_word, line_for, line_of, lines_for, lines_of};
ghost use Rattle.canon.specs.Outline.{RowsStand, names_of, span_begins};
ghost use Rattle.canon.specs.Places.{IsPlaced};
ghost use Rattle.canon.specs.Unread.{IsUnread};
ghost use Rattle.laws_programs.specs.Program.{IsFile};
ghost use Rattle.reader_rust.specs.Names.{name_of, named_of};
ghost use Rattle.proc_macro2.specs.Held.{are_held};
ghost use Rattle.proc_macro2.specs.Token.{plain};
ghost use Rattle.rust_leaf.specs.Leaf.{ident_text, text_of};
ghost use Rattle.rust_map.specs.Sources.{next_position, with_text};
ghost use Rattle.std.specs.Prelude.{◌≡◌, ◌+◌, ◌^◌, ◌≤◌, ◌↔◌, ◌∷◌, [], Err, IfErr, IfOk};
ghost use Rattle.std.specs.Prelude.{IsTrue, OnOk, length};
ghost use Rattle.std.specs.Str.{chars};
ghost use Rattle.syn_buffer.specs.Entries.{spanned_entries};
ghost use Rattle.syn_grammar.specs.Names.{names};
ghost use Rattle.syn_grammar.specs.Tree.{Tree};

use crate::fault::Fault;
use crate::file::{Unread, read_file};
use crate::stands::placed_error;
use proc_macro2::TokenStream;
use reader_rust::names::{Name, Named, names};
use reader_tree::arena::Arena;
use rust_leaf::ident::Ident;
use rust_map::{LineColumn, SourceMap};
use std::alloc::{AllocError, Global};
use syn_buffer::TokenBuffer;
use syn_buffer::entry::Entry;

/// An item of a file.
#[derive(Debug, Drop)]
pub struct Row {
    /// What it is: `const`, `enum`, `extern-crate`, `fn`, `macro`, `mod`, `static`, `struct`, `trait`, `trait-alias`,
    /// `type` or `union`.
    pub kind: &'static str,
    /// Its name, with `r#` where that stands in the text.
    pub name: String,
    /// Where the name begins: line from 1, column in characters from 0.
    pub place: LineColumn,
}

// The word of a kind.
fn word(kind: Named) -> &'static str
    ensures { result.now ≡ kind_word (named_of kind) }
{
    match kind {
        Named::Const => "const",
        Named::Enum => "enum",
        Named::ExternCrate => "extern-crate",
        Named::Fn => "fn",
        Named::Macro => "macro",
        Named::Mod => "mod",
        Named::Static => "static",
        Named::Struct => "struct",
        Named::Trait => "trait",
        Named::TraitAlias => "trait-alias",
        Named::Type => "type",
        Named::Union => "union",
    }
}

// The text of an identifier.
fn text(alloc: Global, ident: &Ident) -> Result<String, AllocError>
    ensures { IfOk result (λ s. text_of s ≡ ident_text ident.now) }
{
    let mut text = String::new(alloc);
    ident.push_to(&mut text)?;
    Ok(text)
}

// The row of a name.
#[tactic(auto, using(crate::proofs::Outlined::is_there))]
fn row_of(alloc: Global, map: &SourceMap, entries: &[Entry], name: Name) -> Result<Row, AllocError>
    requires held { IsTrue (are_held map.now (spanned_entries entries.now)) }
    requires there { AreThere (plain (spanned_entries entries.now)) (name_of name ∷ []) }
    ensures { IfOk result (λ row. line_of row
        ≡ line_for (span_begins map.now (spanned_entries entries.now)) (name_of name.entry)) }
{
    let Some(entry) = entries.get(name.index) else {
        unreachable!()
    };
    let place = entry.span().start(map);
    Ok(Row {
        kind: word(name.kind),
        name: text(alloc, name.ident)?,
        place,
    })
}

// The rows of names.
fn rows_of(
    alloc: Global,
    map: &SourceMap,
    entries: &[Entry],
    names: &[Name],
) -> Result<Vec<Row>, AllocError>
    requires held { IsTrue (are_held map.now (spanned_entries entries.now)) }
    requires there { AreThere (plain (spanned_entries entries.now)) (names_of names.now) }
    ensures { IfOk result (λ rows. lines_of rows.items
        ≡ lines_for (span_begins map.now (spanned_entries entries.now)) (names_of names.now)) }
{
    let mut rows = Vec::new(alloc);
    for name in names {
        rows.push(row_of(alloc, map, entries, *name)?)?;
    }
    Ok(rows)
}

// The rows of the file that a stream is.
fn listed(alloc: Global, map: &SourceMap, stream: &TokenStream) -> Result<Vec<Row>, Unread>
    requires { IsTrue (are_held map.now stream.now) }
    ensures file { IfOk result (λ rows. (tree : Tree) × IsFile (plain stream.now) tree
        × (lines_of rows.items ≡ lines_for (span_begins map.now stream.now) (names tree))) }
    ensures refused { IfErr result (IsUnread (plain stream.now)) }
{
    let buffer = TokenBuffer::new2(alloc, stream, 1)?;
    let arena = Arena::new(alloc);
    let file = read_file(&arena, buffer.entries())?;
    let mut found = Vec::new(alloc);
    names(&file, &mut found)?;
    Ok(rows_of(alloc, map, buffer.entries(), found.as_slice())?)
}

/// The items of a text that have a name, in their order, those of an inline module behind it: of files and inline
/// modules, at no other depth. Places count in the whole text, a shebang's line included. The text is put behind the
/// others of the map.
///
/// # Errors
///
/// Those of `canonical`, and the map is left as it leaves it.
pub fn outline(alloc: Global, text: &str, map: &mut SourceMap) -> Result<Vec<Row>, Fault>
    ensures rows { IfOk result (λ rows. IsOutline (chars text.now) rows.items) }
    ensures stand { IfOk result (λ rows. RowsStand (chars text.now) rows.items) }
    ensures fault { IfErr result (IsFaultOf (chars text.now)) }
    ensures place { IfErr result (IsPlaced (next_position map.old) (chars text.now) map.new) }
    ensures full { (result ≡ Err Fault.MapFull) ↔ (2 ^ 32 ≤ next_position map.old + length (chars text.now)) }
    ensures map_ok { OnOk result (map.new ≡ with_text map.old (chars text.now)) }
    ensures map_err { IfErr result (IsLeft (chars text.now) map.old map.new) }
{
    let (_, stream) = match TokenStream::from_file(alloc, text, map) {
        Ok(file) => file,
        Err(fault) => return Err(Fault::from(fault)),
    };
    match listed(alloc, map, &stream) {
        Ok(rows) => Ok(rows),
        Err(Unread::Memory) => Err(Fault::Memory),
        Err(Unread::Syntax(wrong)) => {
            let (error, place) = placed_error(alloc, map, &stream, wrong)?;
            Err(Fault::Syntax { error, place })
        }
    }
}
