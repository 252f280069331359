//! Expressions that are built by hand and written, what stands for one, and the members of fields.

use crate::asked::Question;
use crate::pieces::{older, put_behind};
use reader_table::kind::{Kind, Position};
use reader_tree::arena::Arena;
use reader_tree::made;
use reader_tree::tree::{Form, Three, Tree};
use std::alloc::AllocError;
use syn::{Expr, NormalFault, parse_as, parse2, put_normal};
use syn_buffer::TokenBuffer;
use syn_data::data::Fields;
use syn_data::derive::{Data, DeriveInput};
use syn_data::members::Member;
use syn_error::ParseFault;
use test_support::{Page, Stop, looked_at};
use writer_built::build::write_in;

/// Why a form that stands there was not read.
pub(crate) fn unread(fault: ParseFault) -> Stop {
    match fault {
        ParseFault::Memory => Stop::Refused,
        ParseFault::Syntax(_) => Stop::Changed,
    }
}

/// All of the tokens as a form of the kind.
pub(crate) fn parsed<'a>(
    arena: &'a Arena,
    kind: Kind,
    buffer: &'a TokenBuffer<'a>,
) -> Result<Tree<'a>, Stop> {
    parse_as(arena, kind, buffer).map_err(unread)
}

// A form, with another one in the place of its left operand.
fn with_left<'a>(
    arena: &'a Arena,
    left: &Tree<'a>,
    kind: Kind,
    form: &Three<'a>,
) -> Result<Tree<'a>, AllocError> {
    made::infix(arena, left.copy(), kind, form.own.copy(), form.right.copy())
}

/// Puts the text of what is written of an expression behind older tokens.
pub(crate) fn put_form(position: Position, form: &Tree<'_>, page: &mut Page) -> Result<(), Stop> {
    let mut out = older(page.alloc())?;
    let is_written = write_in(position, form, &mut out).is_ok();
    put_behind(is_written, out.as_slice(), page)
}

/// The same of the normal form of a tree, which is made as a tree.
pub(crate) fn put_normal_form<'a>(
    arena: &'a Arena,
    tree: &Tree<'a>,
    page: &mut Page,
) -> Result<(), Stop> {
    let mut out = older(page.alloc())?;
    let is_written = match put_normal(arena, tree, &mut out) {
        Ok(()) => true,
        Err(NormalFault::Memory) => false,
        Err(_) => return Err(Stop::Changed),
    };
    put_behind(is_written, out.as_slice(), page)
}

/// The form of an expression that was read.
pub(crate) fn form_of<'t, 'a>(tree: &'t Tree<'a>) -> Option<&'t Tree<'a>> {
    let (_, expression) = tree.node()?;
    expression.whole()
}

/// Puts what is written in a position of an assignment's left form, with the right one in the place of its left
/// operand; and its normal form by itself.
pub(crate) fn put_replaced<'a>(
    position: Position,
    arena: &'a Arena,
    buffer: &'a TokenBuffer<'a>,
    page: &mut Page,
) -> Result<(), Stop> {
    let tree = parsed(arena, Kind::Expression(Position::Plain), buffer)?;
    match form_of(&tree) {
        Some(form) => put_assigned(position, arena, form, page),
        None => Err(Stop::Changed),
    }
}

// The same of the form of the assignment.
fn put_assigned<'a>(
    position: Position,
    arena: &'a Arena,
    assignment: &Tree<'a>,
    page: &mut Page,
) -> Result<(), Stop> {
    match &assignment.form {
        Form::Infix(_, assigned) => {
            let built = replaced(arena, assigned)?;
            put_built(position, arena, &built, page)
        }
        _ => Err(Stop::Changed),
    }
}

// The left form, with the right one in the place of its left operand.
fn replaced<'a>(arena: &'a Arena, assigned: &Three<'a>) -> Result<Tree<'a>, Stop> {
    match &assigned.left.form {
        Form::Infix(kind, outer) => looked_at(with_left(arena, &assigned.right, *kind, outer)),
        _ => Err(Stop::Changed),
    }
}

// Puts what is written of a form, and its normal form as an expression.
fn put_built<'a>(
    position: Position,
    arena: &'a Arena,
    built: &Tree<'a>,
    page: &mut Page,
) -> Result<(), Stop> {
    put_form(position, built, page)?;
    page.put("\n");
    let whole = looked_at(made::whole(arena, built.copy()))?;
    put_normal_form(arena, &whole, page)
}

/// Puts what is written of what stands for an expression where none is known yet.
pub(crate) fn put_unknown<'a>(arena: &'a Arena, page: &mut Page) -> Result<(), Stop> {
    let unknown = looked_at(Expr::placeholder(arena))?;
    put_form(Position::Plain, &unknown, page)
}

// Puts the members of a struct's fields, with a space behind each.
fn put_members(fields: &Fields, page: &mut Page) -> Result<(), Stop> {
    let members = looked_at(fields.members(page.alloc()))?;
    for member in members.as_slice() {
        match member {
            Member::Named(name) => write!(page, "{} ", name.word()),
            Member::Unnamed(index) => write!(page, "{index} "),
        }
    }
    Ok(())
}

/// Puts the members of the fields of the struct that a buffer holds.
pub(crate) fn put_struct<'a>(
    arena: &'a Arena,
    buffer: &'a TokenBuffer<'a>,
    page: &mut Page,
) -> Result<(), Stop> {
    match parse2::<DeriveInput>(arena, buffer) {
        Ok(input) => match input.data {
            Data::Struct(found) => put_members(&found.fields, page),
            _ => Err(Stop::Changed),
        },
        Err(fault) => Err(unread(fault)),
    }
}

/// An assignment in a position: of what stands behind `=` the left operand of what stands before it is made. What
/// stands for an expression where none is known. Structs.
pub(crate) const BUILT: [(Question, &str); 9] = [
    (Question::Built(Position::Plain), "a * b = c + d"),
    (Question::Built(Position::Plain), "a + b = c * d"),
    (Question::Built(Position::InCondition), "a == b = S { }"),
    (Question::Built(Position::InStatement), "a - b = if c { }"),
    (Question::Built(Position::InArm), "a + b = return c"),
    (Question::Unknown, ""),
    (Question::Members, "struct S { x : u8 , r#y : u8 }"),
    (Question::Members, "struct S (u8 , u8) ;"),
    (Question::Members, "struct S ;"),
];
