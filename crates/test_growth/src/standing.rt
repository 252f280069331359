//! Forms that are read from a stream: one that may be missing, and one of several of a kind.

use crate::asked::Question;
use syn::{
    Arena, BoundLifetimes, ExprCall, ParseFault, ParseOptional, ParseOptionalForm, ParseSingle,
    ParseSingleForm, TokenBuffer, TypeTuple, WhereClause,
};
use syn_parse::ParseBuffer;
use test_support::{Page, Stop, refused};

/// What is read.
#[derive(Clone, Copy)]
pub(crate) enum Form {
    // forms that may be missing
    Clause,
    Lifetimes,
    // forms of several of a kind
    Call,
    Tuple,
}

/// The texts, with what is read.
pub(crate) const FORMS: [(Question, &str); 9] = [
    (Question::Standing(Form::Clause), "where A : B { }"),
    (Question::Standing(Form::Clause), "{ }"),
    (Question::Standing(Form::Clause), "where A B"),
    (Question::Standing(Form::Lifetimes), "for < 'a > fn ()"),
    (Question::Standing(Form::Lifetimes), "for a in b { }"),
    (Question::Standing(Form::Call), "f (x) , y"),
    (Question::Standing(Form::Call), "f (x) + 1"),
    (Question::Standing(Form::Tuple), "(T ,) = b"),
    (Question::Standing(Form::Tuple), "(T)"),
];

// What comes of it.
#[derive(Clone, Copy)]
enum Said {
    Read,
    Missing,
    Refused,
}

impl Said {
    fn words(self) -> &'static str {
        match self {
            Said::Read => "read: ",
            Said::Missing => "missing: ",
            Said::Refused => "refused: ",
        }
    }
}

// What is said of a form, where the stream has to stand at another place, or where it stood.
fn where_it_stands(said: Said, stands_so: bool) -> Result<Said, Stop> {
    if stands_so {
        Ok(said)
    } else {
        Err(Stop::Changed)
    }
}

// What is said of a form that is not there. The stream has to stand where it stood.
fn told(fault: ParseFault, stays: bool) -> Result<Said, Stop> {
    match fault {
        ParseFault::Memory => refused(stays),
        ParseFault::Syntax(_) => where_it_stands(Said::Refused, stays),
    }
}

// What is said of a form that may be missing.
fn optional<'a, T: ParseOptional<'a> + Copy>(
    input: &mut ParseBuffer<'a>,
    arena: &'a Arena,
) -> Result<Said, Stop> {
    let from = input.cursor();
    let found: Result<Option<T>, ParseFault> = input.parse_optional(arena);
    let stays = input.cursor().eq(&from);
    match found {
        Ok(Some(_)) => where_it_stands(Said::Read, !stays),
        Ok(None) => where_it_stands(Said::Missing, stays),
        Err(fault) => told(fault, stays),
    }
}

// What is said of a form that is one of several of a kind.
fn single<'a, T: ParseSingle<'a> + Copy>(
    input: &mut ParseBuffer<'a>,
    arena: &'a Arena,
) -> Result<Said, Stop> {
    let from = input.cursor();
    let found: Result<T, ParseFault> = input.single(arena);
    let stays = input.cursor().eq(&from);
    match found {
        Ok(_) => where_it_stands(Said::Read, !stays),
        Err(fault) => told(fault, stays),
    }
}

fn told_of<'a>(form: Form, arena: &'a Arena, buffer: &'a TokenBuffer<'a>) -> Result<Said, Stop> {
    let mut input = ParseBuffer::new(arena.alloc(), buffer.begin());
    match form {
        Form::Clause => optional::<WhereClause>(&mut input, arena),
        Form::Lifetimes => optional::<BoundLifetimes>(&mut input, arena),
        Form::Call => single::<ExprCall>(&mut input, arena),
        Form::Tuple => single::<TypeTuple>(&mut input, arena),
    }
}

/// Puts whether the form stands first in a buffer and is read, is missing or is refused.
pub(crate) fn put_told<'a>(
    form: Form,
    arena: &'a Arena,
    buffer: &'a TokenBuffer<'a>,
    page: &mut Page,
) -> Result<(), Stop> {
    page.put(told_of(form, arena, buffer)?.words());
    Ok(())
}
