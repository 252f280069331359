//! Operands that are written, and what decides whether they stay as they are.

ghost use Rattle.laws_binding.specs.Written.{front_of, infix_of, paren_unless, wrote};
ghost use Rattle.writer_built.specs.Behind.{put_behind};
ghost use Rattle.writer_built.specs.Facts.{last_of};
ghost use Rattle.writer_built.specs.Kept.{HasHead, HasOwnHead, kept_of, own_tokens};
ghost use Rattle.reader_table.specs.Kinds.{kind_of};
ghost use Rattle.writer_rules.specs.Said.{said};
ghost use Rattle.writer_read.specs.Formed.{IsFormed};
ghost use Rattle.std.specs.Prelude.{◌≡◌, IfOk};
ghost use Rattle.syn_grammar.specs.Forms.{is_block_like, is_brace_macro};
ghost use Rattle.syn_grammar.specs.Kind.{Plain};
ghost use Rattle.syn_grammar.specs.Tree.{Alone, Tree as GivenTree, flat};

use crate::facts::{self, Facts, Last};
use crate::head::{self, Head, head_of};
use crate::rope::{self, Rope};
use reader_table::kind::Kind;
use reader_tree::tree::Tree;
use std::alloc::{AllocError, Global};
use writer_print::piece::Piece;
use writer_read::write::write;

/// A form's own part: its tokens, and the first of them.
#[derive(Drop)]
pub(crate) struct Own<'a> {
    /// Its tokens.
    pub(crate) pieces: Vec<Piece<'a>>,
    /// The first of them.
    pub(crate) head: Head<'a>,
}

/// An operand that is written: its tokens, the first of them, and what is kept of it.
#[derive(Drop)]
pub(crate) struct Operand<'a> {
    /// Its tokens.
    pub(crate) rope: Rope<'a>,
    /// The first of them.
    pub(crate) head: Head<'a>,
    /// What is kept of it.
    pub(crate) facts: Facts,
}

/// The tokens of an own part.
///
/// # Errors
///
/// Where there is no memory for them.
pub(crate) fn own_of<'a>(alloc: Global, own: &Tree<'a>) -> Result<Own<'a>, AllocError>
    ensures head { IfOk result (λ o. HasOwnHead o) }
    ensures same { IfOk result (λ o. IsFormed Plain own.now → own_tokens o ≡ said Plain own.now) }
{
    let mut pieces = Vec::new(alloc);
    write(own, &mut pieces)?;
    let head = head_of(pieces.as_slice());
    Ok(Own { pieces, head })
}

/// An operand as it is, or in parentheses.
///
/// # Errors
///
/// Where there is no memory for it.
pub(crate) fn in_parens_unless<'a>(
    alloc: Global,
    stays: bool,
    operand: Operand<'a>,
) -> Result<Operand<'a>, AllocError>
    ensures head { HasHead operand.entry → IfOk result (λ o. HasHead o) }
    ensures same { IfOk result (λ o. kept_of o ≡ paren_unless stays (kept_of operand.entry)) }
{
    if stays {
        return Ok(operand);
    }
    let head = head::enclosed(operand.head);
    let facts = facts::enclosed(operand.facts);
    let rope = rope::enclosed(alloc, operand.rope)?;
    Ok(Operand { rope, head, facts })
}

/// A form without operands.
pub(crate) fn alone<'a>(kind: Kind, own: Own<'a>, block: bool, called: bool) -> Operand<'a>
    ensures head { HasOwnHead own.entry → HasHead result }
    ensures same { (y : GivenTree) → own_tokens own.entry ≡ flat y → block ≡ is_block_like (Alone (kind_of kind) y)
        → called ≡ is_brace_macro (Alone (kind_of kind) y) → kept_of result ≡ wrote (Alone (kind_of kind) y) }
{
    Operand {
        head: own.head,
        facts: facts::alone(kind, block, called),
        rope: Rope::Own(own.pieces),
    }
}

/// A form with an operand behind it.
///
/// # Errors
///
/// Where there is no memory for it.
pub(crate) fn front<'a>(
    alloc: Global,
    kind: Kind,
    own: Own<'a>,
    right: Operand<'a>,
) -> Result<Operand<'a>, AllocError>
    ensures head { HasOwnHead own.entry → HasHead right.entry → IfOk result (λ o. HasHead o) }
    ensures same { IfOk result (λ o. (y : GivenTree) → own_tokens own.entry ≡ flat y
        → kept_of o ≡ front_of (kind_of kind) y (kept_of right.entry)) }
{
    let head = head::joined(own.head, right.head);
    let facts = facts::front(kind, right.facts);
    let rope = rope::joined(alloc, Rope::Own(own.pieces), right.rope)?;
    Ok(Operand { rope, head, facts })
}

/// A form with an operand before it.
///
/// # Errors
///
/// Where there is no memory for it.
pub(crate) fn back<'a>(
    alloc: Global,
    left: Operand<'a>,
    kind: Kind,
    own: Own<'a>,
    last: Last,
) -> Result<Operand<'a>, AllocError>
    ensures head { HasHead left.entry → HasOwnHead own.entry → IfOk result (λ o. HasHead o) }
    ensures same { IfOk result (λ o. kept_of o
        ≡ put_behind (kept_of left.entry) (kind_of kind) (own_tokens own.entry) (last_of last)) }
{
    let head = head::joined(left.head, own.head);
    let facts = facts::back(left.facts, kind, last);
    let rope = rope::joined(alloc, left.rope, Rope::Own(own.pieces))?;
    Ok(Operand { rope, head, facts })
}

/// A form with both.
///
/// # Errors
///
/// Where there is no memory for it.
pub(crate) fn infix<'a>(
    alloc: Global,
    left: Operand<'a>,
    kind: Kind,
    own: Own<'a>,
    right: Operand<'a>,
) -> Result<Operand<'a>, AllocError>
    ensures head { HasHead left.entry → HasOwnHead own.entry → HasHead right.entry → IfOk result (λ o. HasHead o) }
    ensures same { IfOk result (λ o. (y : GivenTree) → own_tokens own.entry ≡ flat y
        → kept_of o ≡ infix_of (kept_of left.entry) (kind_of kind) y (kept_of right.entry)) }
{
    let next = head::joined(own.head, right.head);
    let head = head::joined(left.head, next);
    let facts = facts::infix(left.facts, kind, right.facts);
    let behind = rope::joined(alloc, Rope::Own(own.pieces), right.rope)?;
    let rope = rope::joined(alloc, left.rope, behind)?;
    Ok(Operand { rope, head, facts })
}
