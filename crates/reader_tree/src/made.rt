//! Trees, made of their parts.
//!
//! Each takes one place at most in the arena, and fails where there is no memory for that.

ghost use Rattle.reader_table.specs.Kinds.{kind_of};
ghost use Rattle.reader_table.specs.Ops.{separator_of};
ghost use Rattle.reader_table.specs.Parts.{part_of};
ghost use Rattle.reader_table.specs.Words.{sign_text};
ghost use Rattle.reader_tree.specs.Forms.{elements as listed, ending, mark_of, seconds, turns as in_turn};
ghost use Rattle.rust_leaf.specs.Leaf.{ident_text, literal_text};
ghost use Rattle.std.specs.Prelude.{◌≡◌, IfOk, map};
ghost use Rattle.syn_buffer.specs.Entries.{entry_token};
ghost use Rattle.syn_grammar.specs.Tree as t;

use crate::arena::Arena;
use crate::tree::{Apostrophe, Element, Enclosed, Form, InTurn, Kept, Separated, Three, Tree, Two};
use proc_macro2::delimiter::Delimiter;
use reader_table::kind::Kind;
use reader_table::op::Separator;
use reader_table::part::Part;
use reader_table::word::Sign;
use rust_leaf::ident::Ident;
use rust_leaf::literal::Literal;
use rust_leaf::punct::Spacing;
use rust_map::packed::PackedSpan;
use rust_map::span::Span;
use std::alloc::AllocError;
use syn_buffer::entry::Entry;

/// An identifier or a keyword.
pub fn word<'a>(ident: &'a Ident) -> Tree<'a>
    ensures { result ≡ t.AWord (ident_text ident.now) }
{
    Tree {
        form: Form::Word(ident),
    }
}

/// A literal.
pub fn literal<'a>(literal: &'a Literal) -> Tree<'a>
    ensures { result ≡ t.ALiteral (literal_text literal.now) }
{
    Tree {
        form: Form::Literal(literal),
    }
}

/// A punctuation, how its last mark is spaced, and where its first mark stands.
pub fn mark<'a>(sign: Sign, spacing: Spacing, span: Span) -> Tree<'a>
    ensures { result ≡ mark_of (sign_text sign) spacing }
{
    Tree {
        form: Form::Mark(sign, spacing, PackedSpan::of(span)),
    }
}

/// `'`, where it stands, and a word.
///
/// # Errors
///
/// Where there is no memory for it.
pub fn lifetime<'a>(arena: &'a Arena, span: Span, ident: &'a Ident) -> Result<Tree<'a>, AllocError>
    ensures { IfOk result (λ x. x ≡ t.ALifetime (ident_text ident.now)) }
{
    Ok(Tree {
        form: Form::Lifetime(arena.put(Apostrophe { span, ident })?),
    })
}

/// Tokens that are kept as they are.
///
/// # Errors
///
/// Where there is no memory for it.
pub fn raw<'a>(arena: &'a Arena, entries: &'a [Entry<'a>]) -> Result<Tree<'a>, AllocError>
    ensures { IfOk result (λ x. x ≡ t.Raw (map entry_token entries.now)) }
{
    Ok(Tree {
        form: Form::Raw(arena.put(Kept { entries })?),
    })
}

/// No token.
pub fn nil<'a>() -> Tree<'a>
    ensures { result ≡ t.Nil }
{
    Tree { form: Form::Nil }
}

/// One, and then the other.
///
/// # Errors
///
/// Where there is no memory for it.
pub fn pair<'a>(arena: &'a Arena, front: Tree<'a>, back: Tree<'a>) -> Result<Tree<'a>, AllocError>
    ensures { IfOk result (λ x. x ≡ t.Pair front.entry back.entry) }
{
    Ok(Tree {
        form: Form::Pair(arena.put(Two { front, back })?),
    })
}

/// Of a choice the first.
///
/// # Errors
///
/// Where there is no memory for it.
pub fn first<'a>(arena: &'a Arena, inner: Tree<'a>) -> Result<Tree<'a>, AllocError>
    ensures { IfOk result (λ x. x ≡ t.First inner.entry) }
{
    Ok(Tree {
        form: Form::First(0, arena.put(inner)?),
    })
}

/// Of a choice the second. Of choices, each the second of the one before it, none takes a place but the last.
///
/// # Errors
///
/// Where there is no memory for it.
pub fn second<'a>(arena: &'a Arena, inner: Tree<'a>) -> Result<Tree<'a>, AllocError>
    ensures { IfOk result (λ x. x ≡ t.Second inner.entry) }
{
    seconds(arena, 1, inner)
}

// The same of so many choices as 32 bits count.
#[tactic(auto, using(crate::proofs::Seconds::seconds_again))]
fn few_seconds<'a>(arena: &'a Arena, count: u32, inner: Tree<'a>) -> Result<Tree<'a>, AllocError>
    ensures { IfOk result (λ x. x ≡ seconds count inner.entry) }
{
    if count == 0 {
        return Ok(inner);
    }
    match inner.form {
        Form::First(depth, x) if depth <= u32::MAX - count => Ok(Tree {
            form: Form::First(depth + count, x),
        }),
        Form::Second(depth, x) if depth <= u32::MAX - count => Ok(Tree {
            form: Form::Second(depth + count, x),
        }),
        form => Ok(Tree {
            form: Form::Second(count - 1, arena.put(Tree { form })?),
        }),
    }
}

/// Of so many choices, each the second of the one before it, the second of the last one. Where 32 bits don't count
/// them, the tree has some of them behind others.
///
/// # Errors
///
/// Where there is no memory for it.
#[tactic(auto, using(crate::proofs::Seconds::seconds_halved))]
pub fn seconds<'a>(arena: &'a Arena, count: usize, inner: Tree<'a>) -> Result<Tree<'a>, AllocError>
    ensures { IfOk result (λ x. x ≡ seconds count inner.entry) }
{
    if count <= u32::MAX as usize {
        return few_seconds(arena, count as u32, inner);
    }
    let half = count / 2;
    let behind = seconds(arena, half, inner)?;
    seconds(arena, count - half, behind)
}

/// Of so many choices, each the second of the one before it, and one more, the first of the last one.
///
/// # Errors
///
/// Where there is no memory for it.
pub fn first_behind<'a>(
    arena: &'a Arena,
    count: usize,
    inner: Tree<'a>,
) -> Result<Tree<'a>, AllocError>
    ensures { IfOk result (λ x. x ≡ seconds count (t.First inner.entry)) }
{
    if count <= u32::MAX as usize {
        return Ok(Tree {
            form: Form::First(count as u32, arena.put(inner)?),
        });
    }
    seconds(arena, count, first(arena, inner)?)
}

/// No turns.
pub fn no_turns<'a>() -> Tree<'a>
    ensures { result ≡ t.End }
{
    Tree { form: Form::End }
}

/// Turns, one behind the other.
///
/// # Errors
///
/// Where there is no memory for them.
pub fn turns<'a>(arena: &'a Arena, turns: Vec<Tree<'a>>) -> Result<Tree<'a>, AllocError>
    ensures { IfOk result (λ x. x ≡ in_turn turns.entry.items) }
{
    if turns.is_empty() {
        return Ok(no_turns());
    }
    Ok(Tree {
        form: Form::Turns(arena.put(InTurn {
            each: arena.put_all(turns)?,
        })?),
    })
}

/// Elements, each with the separator's mark behind it, and a last one that none follows.
///
/// # Errors
///
/// Where there is no memory for them.
pub fn elements<'a>(
    arena: &'a Arena,
    separator: Separator,
    before: Vec<Element<'a>>,
    last: Option<Tree<'a>>,
) -> Result<Tree<'a>, AllocError>
    ensures { IfOk result (λ x. x ≡ listed (separator_of separator) before.entry.items (ending (λ y. y) last.entry)) }
{
    let before = arena.put_all(before)?;
    let last = match last {
        Some(tree) => Some(arena.put(tree)?),
        None => None,
    };
    Ok(Tree {
        form: Form::Elements(arena.put(Separated {
            separator,
            before,
            last,
        })?),
    })
}

/// A group, its span, and its inside.
///
/// # Errors
///
/// Where there is no memory for it.
pub fn group<'a>(
    arena: &'a Arena,
    delimiter: Delimiter,
    span: Span,
    inside: Tree<'a>,
) -> Result<Tree<'a>, AllocError>
    ensures { IfOk result (λ x. x ≡ t.Group delimiter inside.entry) }
{
    Ok(Tree {
        form: Form::Group(delimiter, arena.put(Enclosed { span, inside })?),
    })
}

/// What was read, and is no part of the program.
///
/// # Errors
///
/// Where there is no memory for it.
pub fn dropped<'a>(arena: &'a Arena, inner: Tree<'a>) -> Result<Tree<'a>, AllocError>
    ensures { IfOk result (λ x. x ≡ t.Dropped inner.entry) }
{
    Ok(Tree {
        form: Form::Dropped(arena.put(inner)?),
    })
}

/// A part, by its name.
///
/// # Errors
///
/// Where there is no memory for it.
pub fn called<'a>(arena: &'a Arena, part: Part, inner: Tree<'a>) -> Result<Tree<'a>, AllocError>
    ensures { IfOk result (λ x. x ≡ t.Called (part_of part) inner.entry) }
{
    Ok(Tree {
        form: Form::Called(part, arena.put(inner)?),
    })
}

/// What was read so, and is kept as tokens.
///
/// # Errors
///
/// Where there is no memory for it.
pub fn verbatim<'a>(arena: &'a Arena, inner: Tree<'a>) -> Result<Tree<'a>, AllocError>
    ensures { IfOk result (λ x. x ≡ t.Verbatim inner.entry) }
{
    Ok(Tree {
        form: Form::Verbatim(arena.put(inner)?),
    })
}

/// A node of a kind.
///
/// # Errors
///
/// Where there is no memory for it.
pub fn node<'a>(arena: &'a Arena, kind: Kind, inner: Tree<'a>) -> Result<Tree<'a>, AllocError>
    ensures { IfOk result (λ x. x ≡ t.Node (kind_of kind) inner.entry) }
{
    Ok(Tree {
        form: Form::Node(kind, arena.put(inner)?),
    })
}

/// An expression.
///
/// # Errors
///
/// Where there is no memory for it.
pub fn whole<'a>(arena: &'a Arena, form: Tree<'a>) -> Result<Tree<'a>, AllocError>
    ensures { IfOk result (λ x. x ≡ t.Whole form.entry) }
{
    Ok(Tree {
        form: Form::Whole(arena.put(form)?),
    })
}

/// A form without operands: its own part.
///
/// # Errors
///
/// Where there is no memory for it.
pub fn alone<'a>(arena: &'a Arena, kind: Kind, own: Tree<'a>) -> Result<Tree<'a>, AllocError>
    ensures { IfOk result (λ x. x ≡ t.Alone (kind_of kind) own.entry) }
{
    Ok(Tree {
        form: Form::Alone(kind, arena.put(own)?),
    })
}

/// A form with an operand behind it: its own part, and that.
///
/// # Errors
///
/// Where there is no memory for it.
pub fn front<'a>(
    arena: &'a Arena,
    kind: Kind,
    own: Tree<'a>,
    right: Tree<'a>,
) -> Result<Tree<'a>, AllocError>
    ensures { IfOk result (λ x. x ≡ t.Front (kind_of kind) own.entry right.entry) }
{
    Ok(Tree {
        form: Form::Front(
            kind,
            arena.put(Two {
                front: own,
                back: right,
            })?,
        ),
    })
}

/// A form with an operand before it: that, and its own part.
///
/// # Errors
///
/// Where there is no memory for it.
pub fn back<'a>(
    arena: &'a Arena,
    left: Tree<'a>,
    kind: Kind,
    own: Tree<'a>,
) -> Result<Tree<'a>, AllocError>
    ensures { IfOk result (λ x. x ≡ t.Back left.entry (kind_of kind) own.entry) }
{
    Ok(Tree {
        form: Form::Back(
            kind,
            arena.put(Two {
                front: left,
                back: own,
            })?,
        ),
    })
}

/// A form with an operand on either side.
///
/// # Errors
///
/// Where there is no memory for it.
pub fn infix<'a>(
    arena: &'a Arena,
    left: Tree<'a>,
    kind: Kind,
    own: Tree<'a>,
    right: Tree<'a>,
) -> Result<Tree<'a>, AllocError>
    ensures { IfOk result (λ x. x ≡ t.Infix left.entry (kind_of kind) own.entry right.entry) }
{
    Ok(Tree {
        form: Form::Infix(kind, arena.put(Three { left, own, right })?),
    })
}
