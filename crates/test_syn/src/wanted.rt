//! What is said where one form of several of a kind is wanted, or a group, and another one stands.

use crate::faults::{put_answers, put_fault};
use crate::reading::lexed_in;
use syn::{
    Abi, Arena, BoundLifetimes, Delimiter, ExprArray, ExprAssign, ExprAsync, ExprAttributed,
    ExprAwait, ExprBinary, ExprBlock, ExprBreak, ExprCall, ExprCast, ExprClosure, ExprConst,
    ExprContinue, ExprField, ExprForLoop, ExprIf, ExprIndex, ExprInfer, ExprLet, ExprLit, ExprLoop,
    ExprMacro, ExprMatch, ExprMethodCall, ExprParen, ExprPath, ExprRange, ExprRawAddr,
    ExprReference, ExprRepeat, ExprReturn, ExprStruct, ExprTry, ExprTryBlock, ExprTuple, ExprUnary,
    ExprUnsafe, ExprWhile, ExprYield, Label, MetaList, MetaNameValue, ParseFault, ParseOptional,
    ParseOptionalForm, ParseSingle, ParseSingleForm, Reader, SourceMap, TokenBuffer, TypeArray,
    TypeParen, TypeSlice, TypeTuple, WhereClause, parse2_single,
};
use syn_input::ParseBuffer;
use test_support::{Page, Unanswered};

/// The names that rows have for forms of which several are one kind.
pub(crate) const FORMS: [&str; 45] = [
    "ExprArray",
    "ExprAsync",
    "ExprBlock",
    "ExprConst",
    "ExprContinue",
    "ExprForLoop",
    "ExprIf",
    "ExprInfer",
    "ExprLit",
    "ExprLoop",
    "ExprMacro",
    "ExprMatch",
    "ExprParen",
    "ExprPath",
    "ExprRepeat",
    "ExprTryBlock",
    "ExprTuple",
    "ExprUnsafe",
    "ExprWhile",
    "ExprAssign",
    "ExprAttributed",
    "ExprAwait",
    "ExprBinary",
    "ExprBreak",
    "ExprCall",
    "ExprCast",
    "ExprClosure",
    "ExprField",
    "ExprIndex",
    "ExprLet",
    "ExprMethodCall",
    "ExprRange",
    "ExprRawAddr",
    "ExprReference",
    "ExprReturn",
    "ExprStruct",
    "ExprTry",
    "ExprUnary",
    "ExprYield",
    "TypeArray",
    "TypeSlice",
    "TypeParen",
    "TypeTuple",
    "MetaList",
    "MetaNameValue",
];

// Puts that a form was read, or why it wasn't.
fn put_read<T: Copy>(read: Result<T, ParseFault>, map: &SourceMap, page: &mut Page) {
    match read {
        Ok(_) => page.put("read"),
        Err(fault) => put_fault(&fault, map, page),
    }
}

// Puts that a form is read from a stream, or why it isn't.
fn put_streamed<'a, T: ParseSingle<'a> + Copy>(
    arena: &'a Arena,
    buffer: &'a TokenBuffer<'a>,
    map: &SourceMap,
    page: &mut Page,
) {
    let mut input = ParseBuffer::new(arena.alloc(), buffer.begin());
    let form: Result<T, ParseFault> = input.single(arena);
    put_read(form, map, page);
}

// Puts whether a form is read in each way, and why it isn't, with trees in an arena.
fn put_in<'a, T: ParseSingle<'a> + Copy>(
    arena: &'a Arena,
    buffer: &'a TokenBuffer<'a>,
    map: &SourceMap,
    page: &mut Page,
) -> Result<(), Unanswered> {
    let alloc = arena.alloc();
    let mut answers = [Page::new(alloc), Page::new(alloc), Page::new(alloc)];
    put_read(parse2_single::<T>(arena, buffer), map, &mut answers[0]);
    put_read(
        Reader::new(arena, buffer).single::<T>(),
        map,
        &mut answers[1],
    );
    put_streamed::<T>(arena, buffer, map, &mut answers[2]);
    put_answers(&answers[0], &answers[1], &answers[2], page)
}

// Puts what is answered for a form of a type or of what stands in an attribute.
fn put_type<'a>(
    name: &str,
    arena: &'a Arena,
    buffer: &'a TokenBuffer<'a>,
    map: &SourceMap,
    page: &mut Page,
) -> Result<(), Unanswered> {
    match name {
        "TypeArray" => put_in::<TypeArray>(arena, buffer, map, page),
        "TypeSlice" => put_in::<TypeSlice>(arena, buffer, map, page),
        "TypeParen" => put_in::<TypeParen>(arena, buffer, map, page),
        "TypeTuple" => put_in::<TypeTuple>(arena, buffer, map, page),
        "MetaList" => put_in::<MetaList>(arena, buffer, map, page),
        "MetaNameValue" => put_in::<MetaNameValue>(arena, buffer, map, page),
        _ => Err(Unanswered::NoRow),
    }
}

// The same of an expression with an operand, or of those.
fn put_operation<'a>(
    name: &str,
    arena: &'a Arena,
    buffer: &'a TokenBuffer<'a>,
    map: &SourceMap,
    page: &mut Page,
) -> Result<(), Unanswered> {
    match name {
        "ExprAssign" => put_in::<ExprAssign>(arena, buffer, map, page),
        "ExprAttributed" => put_in::<ExprAttributed>(arena, buffer, map, page),
        "ExprAwait" => put_in::<ExprAwait>(arena, buffer, map, page),
        "ExprBinary" => put_in::<ExprBinary>(arena, buffer, map, page),
        "ExprBreak" => put_in::<ExprBreak>(arena, buffer, map, page),
        "ExprCall" => put_in::<ExprCall>(arena, buffer, map, page),
        "ExprCast" => put_in::<ExprCast>(arena, buffer, map, page),
        "ExprClosure" => put_in::<ExprClosure>(arena, buffer, map, page),
        "ExprField" => put_in::<ExprField>(arena, buffer, map, page),
        "ExprIndex" => put_in::<ExprIndex>(arena, buffer, map, page),
        "ExprLet" => put_in::<ExprLet>(arena, buffer, map, page),
        "ExprMethodCall" => put_in::<ExprMethodCall>(arena, buffer, map, page),
        "ExprRange" => put_in::<ExprRange>(arena, buffer, map, page),
        "ExprRawAddr" => put_in::<ExprRawAddr>(arena, buffer, map, page),
        "ExprReference" => put_in::<ExprReference>(arena, buffer, map, page),
        "ExprReturn" => put_in::<ExprReturn>(arena, buffer, map, page),
        "ExprStruct" => put_in::<ExprStruct>(arena, buffer, map, page),
        "ExprTry" => put_in::<ExprTry>(arena, buffer, map, page),
        "ExprUnary" => put_in::<ExprUnary>(arena, buffer, map, page),
        "ExprYield" => put_in::<ExprYield>(arena, buffer, map, page),
        _ => put_type(name, arena, buffer, map, page),
    }
}

// The same of an expression without operands, or of those.
fn put_expression<'a>(
    name: &str,
    arena: &'a Arena,
    buffer: &'a TokenBuffer<'a>,
    map: &SourceMap,
    page: &mut Page,
) -> Result<(), Unanswered> {
    match name {
        "ExprArray" => put_in::<ExprArray>(arena, buffer, map, page),
        "ExprAsync" => put_in::<ExprAsync>(arena, buffer, map, page),
        "ExprBlock" => put_in::<ExprBlock>(arena, buffer, map, page),
        "ExprConst" => put_in::<ExprConst>(arena, buffer, map, page),
        "ExprContinue" => put_in::<ExprContinue>(arena, buffer, map, page),
        "ExprForLoop" => put_in::<ExprForLoop>(arena, buffer, map, page),
        "ExprIf" => put_in::<ExprIf>(arena, buffer, map, page),
        "ExprInfer" => put_in::<ExprInfer>(arena, buffer, map, page),
        "ExprLit" => put_in::<ExprLit>(arena, buffer, map, page),
        "ExprLoop" => put_in::<ExprLoop>(arena, buffer, map, page),
        "ExprMacro" => put_in::<ExprMacro>(arena, buffer, map, page),
        "ExprMatch" => put_in::<ExprMatch>(arena, buffer, map, page),
        "ExprParen" => put_in::<ExprParen>(arena, buffer, map, page),
        "ExprPath" => put_in::<ExprPath>(arena, buffer, map, page),
        "ExprRepeat" => put_in::<ExprRepeat>(arena, buffer, map, page),
        "ExprTryBlock" => put_in::<ExprTryBlock>(arena, buffer, map, page),
        "ExprTuple" => put_in::<ExprTuple>(arena, buffer, map, page),
        "ExprUnsafe" => put_in::<ExprUnsafe>(arena, buffer, map, page),
        "ExprWhile" => put_in::<ExprWhile>(arena, buffer, map, page),
        _ => put_operation(name, arena, buffer, map, page),
    }
}

/// Puts whether a form of that name is read of a buffer in each way, and why it isn't.
pub(crate) fn put_form(
    name: &str,
    buffer: &TokenBuffer<'_>,
    map: &SourceMap,
    page: &mut Page,
) -> Result<(), Unanswered> {
    let arena = Arena::new(page.alloc());
    put_expression(name, &arena, buffer, map, page)
}

/// The same of a text.
pub(crate) fn put_row(name: &str, text: &str, page: &mut Page) -> Result<(), Unanswered> {
    let mut map = SourceMap::new(page.alloc());
    match lexed_in(page.alloc(), text, &mut map) {
        Some(stream) => {
            let buffer = TokenBuffer::new2(page.alloc(), &stream, 1)?;
            put_form(name, &buffer, &map, page)
        }
        None => Err(Unanswered::NoRow),
    }
}

// The delimiter that a row names.
fn delimiter_of(name: &str) -> Option<Delimiter> {
    match name {
        "parentheses" => Some(Delimiter::Parenthesis),
        "braces" => Some(Delimiter::Brace),
        "brackets" => Some(Delimiter::Bracket),
        _ => None,
    }
}

// Puts that a group is entered, or why it isn't.
fn put_entered<T: Drop>(entered: Result<T, ParseFault>, map: &SourceMap, page: &mut Page) {
    match entered {
        Ok(_) => page.put("entered"),
        Err(fault) => put_fault(&fault, map, page),
    }
}

// Puts whether a group with that delimiter is entered by a reader, with trees in an arena.
fn put_group_before<'a>(
    arena: &'a Arena,
    delimiter: Delimiter,
    buffer: &'a TokenBuffer<'a>,
    map: &SourceMap,
    page: &mut Page,
) {
    let mut reader = Reader::new(arena, buffer);
    put_entered(reader.group(delimiter), map, page);
}

// The same with an arena of its own.
fn put_group_read(
    delimiter: Delimiter,
    buffer: &TokenBuffer<'_>,
    map: &SourceMap,
    page: &mut Page,
) {
    let arena = Arena::new(page.alloc());
    put_group_before(&arena, delimiter, buffer, map, page);
}

// Puts whether a group with that delimiter is entered by a stream.
fn put_group_streamed(
    delimiter: Delimiter,
    buffer: &TokenBuffer<'_>,
    map: &SourceMap,
    page: &mut Page,
) {
    let mut input = ParseBuffer::new(page.alloc(), buffer.begin());
    put_entered(input.parse_group(delimiter), map, page);
}

// Puts whether a group with that delimiter is entered by a reader, and by a stream.
fn put_group(
    delimiter: Delimiter,
    buffer: &TokenBuffer<'_>,
    map: &SourceMap,
    page: &mut Page,
) -> Result<(), Unanswered> {
    let mut read = Page::new(page.alloc());
    put_group_read(delimiter, buffer, map, &mut read);
    let mut streamed = Page::new(page.alloc());
    put_group_streamed(delimiter, buffer, map, &mut streamed);
    put_answers(&read, &read, &streamed, page)
}

/// Puts whether a group with the delimiter that is named stands first in a text, and is entered.
pub(crate) fn put_enter(name: &str, text: &str, page: &mut Page) -> Result<(), Unanswered> {
    let mut map = SourceMap::new(page.alloc());
    let (Some(delimiter), Some(stream)) = (
        delimiter_of(name),
        lexed_in(page.alloc(), text, &mut map),
    ) else {
        return Err(Unanswered::NoRow);
    };
    let buffer = TokenBuffer::new2(page.alloc(), &stream, 1)?;
    put_group(delimiter, &buffer, &map, page)
}

// An error where memory was refused.
fn returned<T: Copy>(read: Result<Option<T>, ParseFault>) -> Result<(), Unanswered> {
    match read {
        Ok(_) | Err(ParseFault::Syntax(_)) => Ok(()),
        Err(ParseFault::Memory) => Err(Unanswered::Cut),
    }
}

// Asks a reader and a stream for a form that may be missing.
fn ask_optional<'a, T: ParseOptional<'a> + Copy>(
    arena: &'a Arena,
    buffer: &'a TokenBuffer<'a>,
) -> Result<(), Unanswered> {
    returned(Reader::new(arena, buffer).parse_optional::<T>())?;
    let mut input = ParseBuffer::new(arena.alloc(), buffer.begin());
    let form: Result<Option<T>, ParseFault> = input.parse_optional(arena);
    returned(form)
}

/// Asks for each form that may be missing, and sees that each call returns.
pub(crate) fn ask_all_optional<'a>(
    arena: &'a Arena,
    buffer: &'a TokenBuffer<'a>,
) -> Result<(), Unanswered> {
    ask_optional::<Abi>(arena, buffer)?;
    ask_optional::<BoundLifetimes>(arena, buffer)?;
    ask_optional::<Label>(arena, buffer)?;
    ask_optional::<WhereClause>(arena, buffer)
}
