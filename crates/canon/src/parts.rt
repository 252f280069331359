//! The text of a file's normal form, part by part: its inner attributes, and then its items, batch by batch: those of a
//! batch are read, written and printed, and their trees are let go of.

ghost use Rattle.canon.specs.Parts.{PrintsAttributes, PrintsItems};
ghost use Rattle.canon.specs.Unread.{IsForm, IsUnread, IsUnreadAs};
ghost use Rattle.reader_steps.specs.Answers.{tokens};
ghost use Rattle.proc_macro2.specs.Token.{plain};
ghost use Rattle.rust_leaf.specs.Leaf.{text_of};
ghost use Rattle.std.specs.Prelude.{◌<◌, length, IfErr, IfOk, IsTrue};
ghost use Rattle.syn_buffer.specs.Entries.{is_whole, spanned_entries};
ghost use Rattle.syn_grammar.specs.Kind.{InnerAttributes, Items};

use crate::file::{Unread, read_form, read_form_with};
use reader_steps::pending::Work;
use reader_table::kind::Kind;
use reader_tree::arena::Arena;
use std::alloc::Global;
use syn_buffer::entry::Entry;
use writer_print::sheet::Sheet;
use writer_read::write::write;

// A batch ends behind the first item with which so many tokens are passed: an arena for each item would cost more, and
// one for all would hold all trees.
const TOKENS: usize = 512;

// Prints what is written of the inner attributes, if any, with which entries begin. The answer is how many entries are
// left behind them.
fn put_front(alloc: Global, entries: &[Entry], sheet: &mut Sheet) -> Result<usize, Unread>
    requires { IsTrue (is_whole entries.now) }
    ensures put { IfOk result (λ left. PrintsAttributes entries.now left sheet.old sheet.new) }
    ensures refused { IfErr result (IsUnreadAs InnerAttributes (tokens entries.now)) }
{
    let arena = Arena::new(alloc);
    let (tree, rest) = read_form(&arena, Kind::InnerAttributes, &entries[..])?;
    let mut pieces = Vec::new(alloc);
    write(&tree, &mut pieces)?;
    sheet.put(pieces.as_slice())?;
    Ok(rest.len())
}

// The entries that are left.
#[derive(Clone, Copy)]
struct Rest<'a> {
    entries: &'a [Entry<'a>],
}

// Prints what is written of a batch of the items with which entries begin, one at least. The answer is how many
// entries are left behind them. `Syntax` only where the entries are not items to their end.
fn put_items_in<'a>(
    arena: &'a Arena,
    entries: &'a [Entry<'a>],
    sheet: &mut Sheet,
) -> Result<usize, Unread>
    requires some { 0 < length entries.now }
    requires whole { IsTrue (is_whole entries.now) }
    ensures put { IfOk result (λ left. PrintsItems entries.now left sheet.old sheet.new) }
    ensures refused { IfErr result (IsUnreadAs Items (tokens entries.now)) }
{
    let mut pieces = Vec::new(arena.alloc());
    let mut work = Work::new(arena)?;
    let mut rest = Rest { entries };
    while !rest.entries.is_empty() && entries.len() - rest.entries.len() < TOKENS {
        let (item, behind) = read_form_with(&mut work, Kind::AnItem, rest.entries)?;
        write(&item, &mut pieces)?;
        rest = Rest { entries: behind };
    }
    sheet.put(pieces.as_slice())?;
    Ok(rest.entries.len())
}

// Prints a batch as `put_items_in` does, in an arena that is let go of then.
fn put_items(alloc: Global, entries: &[Entry], sheet: &mut Sheet) -> Result<usize, Unread>
    requires some { 0 < length entries.now }
    requires whole { IsTrue (is_whole entries.now) }
    ensures put { IfOk result (λ left. PrintsItems entries.now left sheet.old sheet.new) }
    ensures refused { IfErr result (IsUnreadAs Items (tokens entries.now)) }
{
    let arena = Arena::new(alloc);
    put_items_in(&arena, &entries[..], sheet)
}

/// The text of the normal form of the file that whole entries are.
///
/// # Errors
///
/// `Syntax` exactly where they are none. `Memory` only where a growth was refused.
pub(crate) fn text_of_file(alloc: Global, entries: &[Entry]) -> Result<String, Unread>
    requires { IsTrue (is_whole entries.now) }
    ensures output { IfOk result (λ s. IsForm (plain (spanned_entries entries.now)) (text_of s)) }
    ensures refused { IfErr result (IsUnread (plain (spanned_entries entries.now))) }
{
    let mut sheet = Sheet::new(alloc);
    let mut left = put_front(alloc, entries, &mut sheet)?;
    while left > 0 {
        let rest = &entries[entries.len() - left..];
        left = put_items(alloc, rest, &mut sheet)?;
    }
    Ok(sheet.into_text())
}
