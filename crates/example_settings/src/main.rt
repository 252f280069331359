//! Reads a language of its own in which Rust's types and expressions stand. Each line of standard input is `settings
//! NAME { name : Type = expression , .. }`, where the last comma may be missing; behind it stands what was read, a
//! line for each setting, with the column in which its name begins (from 0), or the fault.
#![tactic(auto)]

ghost use Rattle.syn_input.specs.Input.{IsOnward};

use anyhow::Result;
use std::alloc::AllocError;
use std::io::{Read, Write};
use syn::{
    Arena, Ident, Kind, ParseFault, ParseForms, Plus, Position, SourceMap, Span, TokenBuffer,
    TokenStream, Tree, print, write,
};
use syn_kinds::token;
use syn_parse::{ParseBuffer, Punctuated, parse_buffer};

// A setting: its name, its type, and its value.
#[derive(Drop)]
struct Setting<'a> {
    name: Ident,
    ty: Tree<'a>,
    value: Tree<'a>,
}

// What is set by a name.
#[derive(Drop)]
struct Settings<'a> {
    name: Ident,
    list: Punctuated<Setting<'a>, token::Comma>,
}

// `: Type`
fn parse_type<'a>(input: &mut ParseBuffer<'a>, arena: &'a Arena) -> Result<Tree<'a>, ParseFault>
    ensures { IsOnward input.old input.new }
{
    input.parse::<token::Colon>()?;
    input.parse_as(arena, Kind::AType(Plus::WithPlus))
}

// `= expression`
fn parse_value<'a>(input: &mut ParseBuffer<'a>, arena: &'a Arena) -> Result<Tree<'a>, ParseFault>
    ensures { IsOnward input.old input.new }
{
    input.parse::<token::Eq>()?;
    input.parse_as(arena, Kind::Expression(Position::Plain))
}

// The setting that stands there.
fn parse_setting<'a>(
    input: &mut ParseBuffer<'a>,
    arena: &'a Arena,
) -> Result<Setting<'a>, ParseFault>
    ensures { IsOnward input.old input.new }
{
    let name = input.parse::<Ident>()?;
    let ty = parse_type(input, arena)?;
    let value = parse_value(input, arena)?;
    Ok(Setting { name, ty, value })
}

// The settings of a list, which a comma follows each, but perhaps the last.
fn parse_list<'a>(
    input: &mut ParseBuffer<'a>,
    arena: &'a Arena,
) -> Result<Punctuated<Setting<'a>, token::Comma>, ParseFault>
    ensures { IsOnward input.old input.new }
{
    Punctuated::parse_terminated_with(
        input,
        |input| -> Result<Setting, ParseFault>
            ensures { IsOnward input.old input.new }
        { parse_setting(input, arena) },
    )
}

// The word `settings`.
fn parse_word(input: &mut ParseBuffer) -> Result<(), ParseFault>
    ensures { IsOnward input.old input.new }
{
    let start = input.fork();
    if input.parse::<Ident>()?.is_text("settings") {
        Ok(())
    } else {
        Err(start.expected("`settings`"))
    }
}

// The settings that stand there in braces.
fn parse_braced<'a>(
    input: &mut ParseBuffer<'a>,
    arena: &'a Arena,
) -> Result<Punctuated<Setting<'a>, token::Comma>, ParseFault>
    ensures { IsOnward input.old input.new }
{
    let mut braces = input.parse_braces()?;
    let list = parse_list(&mut braces.content, arena)?;
    input.close(braces.content);
    Ok(list)
}

// The settings that stand there, with their name.
fn parse_settings<'a>(
    input: &mut ParseBuffer<'a>,
    arena: &'a Arena,
) -> Result<Settings<'a>, ParseFault>
    ensures { IsOnward input.old input.new }
{
    parse_word(input)?;
    let name = input.parse::<Ident>()?;
    let list = parse_braced(input, arena)?;
    Ok(Settings { name, list })
}

// The settings of a whole buffer.
fn parsed<'a>(arena: &'a Arena, buffer: &'a TokenBuffer<'a>) -> Result<Settings<'a>, ParseFault> {
    parse_buffer(
        arena.alloc(),
        |input| -> Result<Settings, ParseFault>
            ensures { IsOnward input.old input.new }
        { parse_settings(input, arena) },
        buffer,
    )
}

// Puts the printed normal form of a part, behind these words.
fn put_part(words: &str, part: &Tree, out: &mut String) -> Result<(), AllocError> {
    let alloc = *out.allocator();
    let mut pieces = Vec::new(alloc);
    write(part, &mut pieces)?;
    let text = print(alloc, pieces.as_slice())?;
    write!(out, "{words}{text}")
}

// The column in which a token begins, if it stands in the text.
fn column_of(map: &SourceMap, span: Span) -> Option<usize> {
    if map.holds(span) && !span.eq(&Span::call_site()) {
        Some(span.start(map).column)
    } else {
        None
    }
}

// Where a token stands, behind what is said of it.
fn put_column(map: &SourceMap, span: Span, out: &mut String) -> Result<(), AllocError> {
    match column_of(map, span) {
        Some(column) => writeln!(out, " at {column}"),
        None => writeln!(out, " at the end"),
    }
}

// A line for a setting.
fn put_setting(map: &SourceMap, setting: &Setting, out: &mut String) -> Result<(), AllocError> {
    write!(out, "  {} is ", setting.name)?;
    put_part("", &setting.value, out)?;
    put_part(", of type ", &setting.ty, out)?;
    write!(out, ",")?;
    put_column(map, setting.name.span(), out)
}

// What is said of settings.
fn put_settings(map: &SourceMap, settings: &Settings, out: &mut String) -> Result<(), AllocError> {
    writeln!(out, "  {} has {}", settings.name, settings.list.len())?;
    for setting in &settings.list {
        put_setting(map, setting, out)?;
    }
    Ok(())
}

// What is said of a text that has none.
fn put_fault(map: &SourceMap, fault: &ParseFault, out: &mut String) -> Result<(), AllocError> {
    match fault {
        ParseFault::Syntax(error) => {
            write!(out, "  no settings: {error}")?;
            put_column(map, error.span(), out)
        }
        ParseFault::Memory => Err(AllocError),
    }
}

// What is said of the settings that a buffer holds.
fn put_buffer(map: &SourceMap, buffer: &TokenBuffer, out: &mut String) -> Result<(), AllocError> {
    let arena = Arena::new(*out.allocator());
    match parsed(&arena, buffer) {
        Ok(settings) => put_settings(map, &settings, out),
        Err(fault) => put_fault(map, &fault, out),
    }
}

// A text, and what is said of it.
fn report(text: &str, out: &mut String) -> Result<()> {
    let alloc = *out.allocator();
    writeln!(out, "{text}")?;
    let mut map = SourceMap::new(alloc);
    let stream = TokenStream::from_str(alloc, text, &mut map)?;
    let buffer = TokenBuffer::new2(alloc, &stream, 1)?;
    Ok(put_buffer(&map, &buffer, out)?)
}

// Each line of a text, and what is said of it.
fn report_lines(lines: &str, out: &mut String) -> Result<()> {
    for text in lines.lines() {
        report(text, out)?;
    }
    Ok(())
}

fn main(rt: HostRuntime) -> Result<()> {
    let mut lines = String::new(rt.alloc());
    rt.reader().read_to_string(&mut lines)?;
    let mut out = String::new(rt.alloc());
    report_lines(lines.as_str(), &mut out)?;
    rt.stdout().write_all(out.as_bytes())?;
    Ok(())
}
