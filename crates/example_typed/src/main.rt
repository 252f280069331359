//! Says by the syntax tree's types what source is made of, and makes new source by them. Standard input has sections:
//! each begins with a line `== WORD`, which names one of the parts below, and goes to the next such line. What the
//! part answers is written behind the same line. Each part shows a program of its own; what they have in common is
//! that they are given the tokens of a text in a buffer, and put their answer behind a text.
//!
//! - `types`: each line is a type; behind it stands what it is, and below that what the type in it is, at most eight
//!   deep.
//! - `items`: of the functions of a file it says how each takes its receiver, and whether it takes any number of
//!   further arguments; of each pattern of a parameter or a `let` its type, if one stands there; of its statics
//!   whether they may be written; and of its impls, its traits and the functions of its impls what is refused where no
//!   modifiers may stand, with the place.
//! - `placed`: where the names of a file's functions and its string literals stand, those in modules, impls, traits and
//!   blocks too.
//! - `public`: a source rewriter, which writes a struct with each of its named fields public.
//! - `part`: how a part of a tree is put, in its normal form.
//! - `place`: where a token stands: its line (from 1), and its column (in characters, from 0).
#![tactic(auto)]

mod items;
mod part;
mod place;
mod placed;
mod public;
mod types;

use anyhow::{Result, anyhow};
use std::io::{Read, Write};
use syn::{SourceMap, TokenBuffer, TokenStream};

// What is asked of a text.
#[derive(Clone, Copy)]
enum Asked {
    Type,
    Items,
    Placed,
    Public,
}

// Puts what is said of the tokens of a text.
fn put_answer(asked: Asked, map: &SourceMap, buffer: &TokenBuffer, out: &mut String) -> Result<()> {
    match asked {
        Asked::Type => types::put_type(buffer, out),
        Asked::Items => items::put_file(map, buffer, out),
        Asked::Placed => placed::put_file(map, buffer, out),
        Asked::Public => public::put_struct(buffer, out),
    }
}

// Puts what is said of a text.
fn put_text(asked: Asked, text: &str, out: &mut String) -> Result<()> {
    let alloc = *out.allocator();
    let mut map = SourceMap::new(alloc);
    let stream = TokenStream::from_str(alloc, text, &mut map)?;
    let buffer = TokenBuffer::new2(alloc, &stream, 1)?;
    put_answer(asked, &map, &buffer, out)
}

// Puts each line, and behind it what is said of the type that it is.
fn put_types(text: &str, out: &mut String) -> Result<()> {
    for line in text.lines() {
        writeln!(out, "{line}")?;
        put_text(Asked::Type, line, out)?;
    }
    Ok(())
}

// Puts what is said of the text of a section by the part of that name.
fn put_asked(word: &str, text: &str, out: &mut String) -> Result<()> {
    match word {
        "types" => put_types(text, out),
        "items" => put_text(Asked::Items, text, out),
        "placed" => put_text(Asked::Placed, text, out),
        "public" => put_text(Asked::Public, text, out),
        _ => Err(anyhow!("no part has the name of a section")),
    }
}

// Puts the first line of a section, and behind it what is said of its text.
fn put_section(section: &str, out: &mut String) -> Result<()> {
    let (word, text) = section.split_once('\n').unwrap_or((section, ""));
    writeln!(out, "== {word}")?;
    put_asked(word, text, out)
}

// Puts each section of a text, and behind its first line what is said of it.
fn put_sections(text: &str, out: &mut String) -> Result<()> {
    let Some(sections) = text.strip_prefix("== ") else {
        return Err(anyhow!("no section begins the text"));
    };
    for section in sections.split("\n== ") {
        put_section(section, out)?;
    }
    Ok(())
}

fn main(rt: HostRuntime) -> Result<()> {
    let mut text = String::new(rt.alloc());
    rt.reader().read_to_string(&mut text)?;
    let mut out = String::new(rt.alloc());
    put_sections(text.as_str(), &mut out)?;
    rt.stdout().write_all(out.as_bytes())?;
    Ok(())
}
