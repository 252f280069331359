//! Plain forms of all kinds.

ghost use Rattle.reader_tokens.specs.Tokens.{tokens};
ghost use Rattle.reader_fast.specs.Read.{IsReadIn};
ghost use Rattle.reader_table.specs.Kinds.{kind_of};
ghost use Rattle.std.specs.Prelude.{IfOk, IfSome, IsTrue};
ghost use Rattle.syn_buffer.specs.Entries.{is_whole};

use crate::absent::{inner_attributes, no_where, outer_attributes, unmarked, visibility};
use crate::attributes::outer_attribute;
use crate::bindings::{ident_pattern, one_pattern, pattern, several_patterns};
use crate::lone::expression;
use crate::names::{NAMES, any_path, path, path_type, segments};
use reader_table::kind::Kind;
use reader_tree::arena::Arena;
use reader_tree::tree::Tree;
use std::alloc::AllocError;
use syn_buffer::entry::Entry;

/// How many calls deep a run of the grammar goes at most where a plain form is read.
pub const CALLS: usize = 10;

/// Whether a form of the kind may be a plain one. Of others `read` answers none, so a caller may ask this first.
#[inline(always)]
pub fn may_be_plain(kind: Kind) -> bool {
    matches!(
        kind,
        Kind::Segments(_)
            | Kind::Path(_)
            | Kind::AnyPath(_)
            | Kind::AType(_)
            | Kind::OuterAttributes
            | Kind::OuterAttribute
            | Kind::InnerAttributes
            | Kind::Visibility
            | Kind::Generics
            | Kind::ImplGenerics
            | Kind::LifetimeColon
            | Kind::BoundsColon
            | Kind::ReturnType(_)
            | Kind::Where
            | Kind::Pattern
            | Kind::SeveralPatterns
            | Kind::OnePattern
            | Kind::IdentPattern
            | Kind::Expression(_)
    )
}

/// The tree of the kind with which the entries begin, and what is left behind it, where they begin with a plain form.
/// None says nothing of them. The entries are whole.
///
/// # Errors
///
/// Where there is no memory for the tree.
pub fn read<'a>(
    arena: &'a Arena,
    kind: Kind,
    at: &'a [Entry<'a>],
) -> Result<Option<(Tree<'a>, &'a [Entry<'a>])>, AllocError>
    requires { IsTrue (is_whole at.now) }
    ensures read { IfOk result (λ o. IfSome o (λ x.
        IsReadIn CALLS (kind_of kind) (tokens at.now) x.0 (tokens x.1.now))) }
    ensures whole { IfOk result (λ o. IfSome o (λ x. IsTrue (is_whole x.1.now))) }
{
    match kind {
        Kind::Segments(style) => segments(arena, style, NAMES, at),
        Kind::Path(style) => path(arena, style, at),
        Kind::AnyPath(style) => any_path(arena, style, at),
        Kind::AType(plus) => path_type(arena, plus, at),
        Kind::OuterAttributes => outer_attributes(arena, at),
        Kind::OuterAttribute => outer_attribute(arena, at),
        Kind::InnerAttributes => inner_attributes(arena, at),
        Kind::Visibility => visibility(arena, at),
        Kind::Where => no_where(arena, at),
        Kind::Pattern => pattern(arena, at),
        Kind::SeveralPatterns => several_patterns(arena, at),
        Kind::OnePattern => one_pattern(arena, at),
        Kind::IdentPattern => ident_pattern(arena, at),
        Kind::Expression(position) => expression(arena, position, at),
        _ => unmarked(arena, kind, at),
    }
}
