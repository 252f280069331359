//! Expressions that are a literal or a path of names alone.

ghost use Rattle.reader_tokens.specs.Tokens.{tokens};
ghost use Rattle.reader_fast.specs.Lone.{IsOver, lone, lone_literal, lone_path};
ghost use Rattle.reader_fast.specs.Read.{IsReadIn};
ghost use Rattle.reader_table.specs.Kinds.{kind_of, position_of};
ghost use Rattle.proc_macro2.specs.Token as token;
ghost use Rattle.rust_leaf.specs.Leaf.{literal_text};
ghost use Rattle.std.specs.Prelude.{◌∷◌, ◌≡◌, IfOk, IfSome, IsTrue, List};
ghost use Rattle.syn_buffer.specs.Entries.{is_whole};
ghost use Rattle.syn_grammar.specs.Kind as kind;

use crate::names::any_path;
use crate::parts::found;
use proc_macro2::delimiter::Delimiter;
use reader_table::kind::{Kind, Position, Style};
use reader_tokens::sign::first_ident;
use reader_tree::arena::Arena;
use reader_tree::made;
use reader_tree::tree::Tree;
use rust_leaf::literal::Literal;
use std::alloc::AllocError;
use syn_buffer::entry::Entry;

// Whether an expression is over where such a group opens: a condition is before its braces.
fn is_over_before(position: Position, delimiter: Delimiter) -> bool
    ensures { (ts : List token.Token) → IsTrue result → IsOver (position_of position) (token.Opens delimiter ∷ ts) }
{
    match position {
        Position::InCondition => match delimiter {
            Delimiter::Brace => true,
            Delimiter::Parenthesis => false,
            Delimiter::Bracket => false,
            Delimiter::None => false,
        },
        Position::Plain => false,
        Position::InArm => false,
        Position::InStatement => false,
    }
}

// Whether an expression is over there: at the end, a comma or a semicolon, and a condition before its braces.
fn is_over(position: Position, at: &[Entry<'_>]) -> bool
    ensures { IsTrue result → IsOver (position_of position) (tokens at.now) }
{
    let Some((first, _)) = at.split_first() else {
        return true;
    };
    match *first {
        Entry::Punct(mark) => mark.as_char() == ',' || mark.as_char() == ';',
        Entry::Open(delimiter, _, _) => is_over_before(position, delimiter),
        Entry::Close(..) => false,
        Entry::Ident(_) => false,
        Entry::Literal(_) => false,
    }
}

// The literal that stands first and alone, and what is left behind it.
#[tactic(auto, using(crate::proofs::LoneForms::behind_literal))]
fn first_literal<'a>(
    position: Position,
    at: &'a [Entry<'a>],
) -> Option<(&'a Literal, &'a [Entry<'a>])>
    requires { IsTrue (is_whole at.now) }
    ensures first { IfSome result (λ r. tokens at.now ≡ token.Literal (literal_text r.0.now) ∷ tokens r.1.now) }
    ensures over { IfSome result (λ r. IsOver (position_of position) (tokens r.1.now)) }
    ensures whole { IfSome result (λ r. IsTrue (is_whole r.1.now)) }
{
    let (first, rest) = at.split_first()?;
    let Entry::Literal(literal) = *first else {
        return None;
    };
    if is_over(position, rest) {
        Some((literal, rest))
    } else {
        None
    }
}

// An expression that is one form alone, of the kind and with that part of its own.
fn lone<'a>(
    arena: &'a Arena,
    position: Position,
    kind: Kind,
    own: Tree<'a>,
) -> Result<Tree<'a>, AllocError>
    ensures { IfOk result (λ x. x ≡ lone (position_of position) (kind_of kind) own.entry) }
{
    let form = made::whole(arena, made::alone(arena, kind, own)?)?;
    made::node(arena, Kind::Expression(position), form)
}

/// The literal, as an expression.
///
/// # Errors
///
/// Where there is no memory for it.
pub(crate) fn lone_literal<'a>(
    arena: &'a Arena,
    position: Position,
    literal: &'a Literal,
) -> Result<Tree<'a>, AllocError>
    ensures { IfOk result (λ x. x ≡ lone_literal (position_of position) (literal_text literal.now)) }
{
    let own = made::first(arena, made::literal(literal))?;
    lone(arena, position, Kind::ExprLit, own)
}

// Whether a name stands first, and behind it the expression is over or the path may go on. By this alone nothing is
// read; most names are followed by something else, and no path is made of these.
fn may_be_alone(position: Position, at: &[Entry<'_>]) -> bool {
    let Some((_, rest)) = first_ident(at) else {
        return false;
    };
    let Some((next, _)) = rest.split_first() else {
        return true;
    };
    match *next {
        Entry::Punct(mark) => {
            mark.as_char() == ',' || mark.as_char() == ';' || mark.as_char() == ':'
        }
        Entry::Open(delimiter, _, _) => is_over_before(position, delimiter),
        Entry::Close(..) => false,
        Entry::Ident(_) => false,
        Entry::Literal(_) => false,
    }
}

// The path, as an expression.
fn lone_path<'a>(
    arena: &'a Arena,
    position: Position,
    path: Tree<'a>,
) -> Result<Tree<'a>, AllocError>
    ensures { IfOk result (λ x. x ≡ lone_path (position_of position) path.entry) }
{
    lone(arena, position, Kind::ExprPath, path)
}

// An expression that is a path of names, where it is over behind that.
fn path<'a>(
    arena: &'a Arena,
    position: Position,
    at: &'a [Entry<'a>],
) -> Result<Option<(Tree<'a>, &'a [Entry<'a>])>, AllocError>
    requires { IsTrue (is_whole at.now) }
    ensures read { IfOk result (λ o. IfSome o (λ x.
        IsReadIn 8 (kind.Expression (position_of position)) (tokens at.now) x.0 (tokens x.1.now))) }
    ensures whole { IfOk result (λ o. IfSome o (λ x. IsTrue (is_whole x.1.now))) }
{
    let Some((path, rest)) = any_path(arena, Style::InExpression, at)? else {
        return Ok(None);
    };
    if !is_over(position, rest) {
        return Ok(None);
    }
    found(lone_path(arena, position, path), rest)
}

/// An expression that is a literal or a path of names, where it is over behind that.
///
/// # Errors
///
/// Where there is no memory for it.
pub(crate) fn expression<'a>(
    arena: &'a Arena,
    position: Position,
    at: &'a [Entry<'a>],
) -> Result<Option<(Tree<'a>, &'a [Entry<'a>])>, AllocError>
    requires { IsTrue (is_whole at.now) }
    ensures read { IfOk result (λ o. IfSome o (λ x.
        IsReadIn 8 (kind.Expression (position_of position)) (tokens at.now) x.0 (tokens x.1.now))) }
    ensures whole { IfOk result (λ o. IfSome o (λ x. IsTrue (is_whole x.1.now))) }
{
    match first_literal(position, at) {
        Some((literal, rest)) => found(lone_literal(arena, position, literal), rest),
        None => {
            if may_be_alone(position, at) {
                path(arena, position, at)
            } else {
                Ok(None)
            }
        }
    }
}
