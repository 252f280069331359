//! A group, of what was read of its inside, where that is all of it.

ghost use Rattle.reader_group.specs.Grouped.{BeginsThere, Groups, HandsBack, tokens};
ghost use Rattle.proc_macro2.specs.Token.{Token};
ghost use Rattle.std.specs.Prelude.{IfErr, List};
ghost use Rattle.syn_grammar.specs.Run.{Got, whole};

use proc_macro2::delimiter::Delimiter;
use reader_tree::arena::Arena;
use reader_tree::made;
use reader_tree::tree::Tree;
use rust_map::span::Span;
use syn_buffer::entry::Entry;

/// Why no group was made.
#[derive(Drop)]
pub enum Unmade<'a> {
    /// Memory ran out.
    Memory,
    /// Tokens are left of its inside, the first of them there; and what was read of it.
    Unread(Span, Tree<'a>),
}

/// A group, of what was read of its inside, where nothing is left of that.
///
/// # Errors
///
/// Where tokens are left, and where there is no memory for the group.
#[inline(always)]
pub fn grouped<'a>(
    arena: &'a Arena,
    delimiter: Delimiter,
    span: Span,
    inside: Tree<'a>,
    left: &[Entry<'_>],
) -> Result<Tree<'a>, Unmade<'a>>
    ensures answer { (behind : List Token) → Groups behind result (whole delimiter behind
        (Got inside.entry (tokens left.now))) }
    ensures place { IfErr result (λ e. BeginsThere e left.now) }
    ensures read { IfErr result (λ e. HandsBack e inside.entry) }
{
    if let Some(entry) = left.first() {
        return Err(Unmade::Unread(entry.span(), inside));
    }
    match made::group(arena, delimiter, span, inside) {
        Ok(group) => Ok(group),
        Err(_) => Err(Unmade::Memory),
    }
}
