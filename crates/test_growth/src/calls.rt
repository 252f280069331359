//! Calls that read one text each: as a type of the syntax tree, or as a form that may be missing; and what is made of a
//! form that was read.

use crate::asked::Question;
use crate::built::parsed;
use crate::{optional, typed, values};
use syn::{
    Abi, Arena, BoundLifetimes, Kind, Label, Position, TokenBuffer, Tree, WhereClause, to_stream,
};
use test_support::{Page, Stop, looked_at};

/// What is called.
#[derive(Clone, Copy)]
pub(crate) enum Call {
    // `parse2` of these types
    Stmt,
    // the same of a block, of which the last statement is asked
    LastStmt,
    Parameter,
    OneTrait,
    OneTraitItem,
    // `parse_optional` of these types
    WhereClause,
    Label,
    BoundLifetimes,
    Abi,
    // what is made of an expression
    Stream,
    Value,
}

/// The texts, with what is called.
pub(crate) const CALLS: [(Question, &str); 35] = [
    (Question::Called(Call::Stmt), "x ;"),
    (Question::Called(Call::Stmt), "x"),
    (Question::Called(Call::Stmt), "m ! () ;"),
    (Question::Called(Call::Stmt), "m ! [a] ;"),
    (Question::Called(Call::Stmt), "# [a] m ! () ;"),
    (Question::Called(Call::Stmt), "m ! { } ;"),
    (Question::Called(Call::Stmt), "m ! { }"),
    (Question::Called(Call::Stmt), "m ! () . a ;"),
    (Question::Called(Call::Stmt), "m ! () + 1 ;"),
    (Question::Called(Call::Stmt), "(m ! ()) ;"),
    (Question::Called(Call::LastStmt), "{ x ; m ! () }"),
    (Question::Called(Call::LastStmt), "{ x ; m ! () ; }"),
    (Question::Called(Call::Parameter), "# [a] mut b : B"),
    (Question::Called(Call::Parameter), "b : B , c : C"),
    (
        Question::Called(Call::OneTrait),
        "# [a] pub trait A : B { fn f () ; }",
    ),
    (Question::Called(Call::OneTrait), "struct A ;"),
    (
        Question::Called(Call::OneTraitItem),
        "# [a] fn f (& self) -> A ;",
    ),
    (Question::Called(Call::OneTraitItem), "struct A ;"),
    (
        Question::Called(Call::WhereClause),
        "where A : B , 'a : 'b { }",
    ),
    (Question::Called(Call::WhereClause), "{ }"),
    (Question::Called(Call::WhereClause), "where A B"),
    (Question::Called(Call::Label), "'a : loop { }"),
    (Question::Called(Call::Label), "loop { }"),
    (Question::Called(Call::Label), "'a loop { }"),
    (
        Question::Called(Call::BoundLifetimes),
        "for < 'a , 'b > fn ()",
    ),
    (Question::Called(Call::BoundLifetimes), "fn ()"),
    (Question::Called(Call::BoundLifetimes), "for a in b { }"),
    (Question::Called(Call::Abi), "extern \"C\" fn f ()"),
    (Question::Called(Call::Abi), "fn f ()"),
    (
        Question::Called(Call::Stream),
        "a + b [c ..] * (- d) . e :: < F > (g)",
    ),
    (Question::Called(Call::Value), "\"a longer text\\n\""),
    (Question::Called(Call::Value), "b\"\\xFFbytes\""),
    (Question::Called(Call::Value), "0x1F_u8"),
    (Question::Called(Call::Value), "true"),
    (Question::Called(Call::Value), "false"),
];

// Puts the text of a form as a stream.
fn put_stream(tree: &Tree<'_>, page: &mut Page) -> Result<(), Stop> {
    match looked_at(to_stream(page.alloc(), tree))? {
        Some(stream) => {
            page.put_made(stream.to_string(page.alloc()));
            Ok(())
        }
        None => Err(Stop::Changed),
    }
}

// Puts what is made of the expression that a buffer holds: its value if it is a literal, or its text as a stream.
fn put_expression<'a>(
    has_value: bool,
    arena: &'a Arena,
    buffer: &'a TokenBuffer<'a>,
    page: &mut Page,
) -> Result<(), Stop> {
    let tree = parsed(arena, Kind::Expression(Position::Plain), buffer)?;
    if has_value {
        values::put_value(&tree, page)
    } else {
        put_stream(&tree, page)
    }
}

/// Puts what a call answers of a buffer.
pub(crate) fn put_call<'a>(
    call: Call,
    arena: &'a Arena,
    buffer: &'a TokenBuffer<'a>,
    page: &mut Page,
) -> Result<(), Stop> {
    match call {
        Call::Stmt => typed::put_stmt(arena, buffer, page),
        Call::LastStmt => typed::put_last_stmt(arena, buffer, page),
        Call::Parameter => typed::put_parameter(arena, buffer, page),
        Call::OneTrait => typed::put_trait(arena, buffer, page),
        Call::OneTraitItem => typed::put_trait_item(arena, buffer, page),
        Call::WhereClause => optional::put_found::<WhereClause>(arena, buffer, page),
        Call::Label => optional::put_found::<Label>(arena, buffer, page),
        Call::BoundLifetimes => optional::put_found::<BoundLifetimes>(arena, buffer, page),
        Call::Abi => optional::put_found::<Abi>(arena, buffer, page),
        Call::Stream => put_expression(false, arena, buffer, page),
        Call::Value => put_expression(true, arena, buffer, page),
    }
}
