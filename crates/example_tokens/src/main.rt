//! Builds a stream by hand: a struct with a doc comment and a derive attribute. Prints it and lexes the print,
//! says where each tree stands in it, and whether both are the same stream: they are where both are well spaced
//! and print the same.
//!
//! What is built is put behind what its stream has, so each function says only what it adds.
#![tactic(auto)]

ghost use Rattle.proc_macro2.specs.Held.{are_held};
ghost use Rattle.proc_macro2.specs.Mark.{is_mark};
ghost use Rattle.std.specs.Prelude.{◌≡◌, IsTrue, true};

use anyhow::Result;
use proc_macro2::{
    Delimiter, Group, Ident, LineColumn, Literal, Punct, SourceMap, Spacing, Span, TokenStream,
    TokenTree,
};
use std::alloc::Global;

fn put_name(stream: &mut TokenStream, text: &str) -> Result<()> {
    let name = Ident::new(stream.allocator(), text, Span::call_site())?;
    Ok(stream.push_tree(TokenTree::from(name))?)
}

fn put_mark(stream: &mut TokenStream, ch: char) -> Result<()>
    requires { is_mark ch ≡ true }
{
    let mark = Punct::new(ch, Spacing::Alone);
    Ok(stream.push_tree(TokenTree::from(mark))?)
}

fn put_text(stream: &mut TokenStream, text: &str) -> Result<()> {
    let literal = Literal::string(stream.allocator(), text)?;
    Ok(stream.push_tree(TokenTree::from(literal))?)
}

fn put_group(stream: &mut TokenStream, delimiter: Delimiter, inside: TokenStream) -> Result<()> {
    let group = Group::new(delimiter, inside);
    Ok(stream.push_tree(TokenTree::from(group))?)
}

// #[inside]
#[tactic(auto, using(proc_macro2::proofs::Marks::known_mark))]
fn put_attribute(stream: &mut TokenStream, inside: TokenStream) -> Result<()> {
    put_mark(stream, '#')?;
    put_group(stream, Delimiter::Bracket, inside)
}

// doc = "text"
#[tactic(auto, using(proc_macro2::proofs::Marks::known_mark))]
fn put_doc(stream: &mut TokenStream, text: &str) -> Result<()> {
    put_name(stream, "doc")?;
    put_mark(stream, '=')?;
    put_text(stream, text)
}

// Clone, Copy
#[tactic(auto, using(proc_macro2::proofs::Marks::known_mark))]
fn put_traits(stream: &mut TokenStream) -> Result<()> {
    put_name(stream, "Clone")?;
    put_mark(stream, ',')?;
    put_name(stream, "Copy")
}

// derive(Clone, Copy)
fn put_derive(stream: &mut TokenStream) -> Result<()> {
    put_name(stream, "derive")?;
    let mut traits = TokenStream::new(stream.allocator());
    put_traits(&mut traits)?;
    put_group(stream, Delimiter::Parenthesis, traits)
}

// name: i32,
#[tactic(auto, using(proc_macro2::proofs::Marks::known_mark))]
fn put_field(stream: &mut TokenStream, name: &str) -> Result<()> {
    put_name(stream, name)?;
    put_mark(stream, ':')?;
    put_name(stream, "i32")?;
    put_mark(stream, ',')
}

// x: i32, y: i32,
fn put_fields(stream: &mut TokenStream) -> Result<()> {
    put_field(stream, "x")?;
    put_field(stream, "y")
}

// struct Point { x: i32, y: i32, }
fn put_point(stream: &mut TokenStream) -> Result<()> {
    put_name(stream, "struct")?;
    put_name(stream, "Point")?;
    let mut fields = TokenStream::new(stream.allocator());
    put_fields(&mut fields)?;
    put_group(stream, Delimiter::Brace, fields)
}

// #[doc = " A point of a plane."] #[derive(Clone, Copy)]
fn put_attributes(stream: &mut TokenStream) -> Result<()> {
    let mut doc = TokenStream::new(stream.allocator());
    put_doc(&mut doc, " A point of a plane.")?;
    put_attribute(stream, doc)?;
    let mut derive = TokenStream::new(stream.allocator());
    put_derive(&mut derive)?;
    put_attribute(stream, derive)
}

fn built(alloc: Global) -> Result<TokenStream> {
    let mut stream = TokenStream::new(alloc);
    put_attributes(&mut stream)?;
    put_point(&mut stream)?;
    Ok(stream)
}

// Says where a tree stands.
fn print_place(
    rt: &HostRuntime,
    tree: &TokenTree,
    start: LineColumn,
    end: LineColumn,
) -> Result<()> {
    let (from, to) = (start.column, end.column);
    Ok(println!(rt; "{}:{from} to {}:{to}: {tree}", start.line, end.line)?)
}

// Says where each tree of the stream stands.
fn print_places(rt: &HostRuntime, stream: &TokenStream, map: &SourceMap) -> Result<()>
    requires { IsTrue (are_held map.now stream.now) }
{
    for tree in stream.trees() {
        let span = tree.span();
        print_place(rt, tree, span.start(map), span.end(map))?;
    }
    Ok(())
}

// Lexes a text, says where each tree stands in it, and prints the trees again.
fn printed_again(rt: &HostRuntime, text: &str) -> Result<String> {
    let mut map = SourceMap::new(rt.alloc());
    let stream = TokenStream::from_str(rt.alloc(), text, &mut map)?;
    print_places(rt, &stream, &map)?;
    Ok(stream.to_string(rt.alloc())?)
}

// Whether a stream is the same that its print is lexed to.
fn is_same(rt: &HostRuntime, stream: &TokenStream, print: &str) -> Result<bool> {
    let again = printed_again(rt, print)?;
    Ok(stream.is_well_spaced() && again.as_str() == print)
}

// Prints a stream's print, and says whether that is the same stream.
fn compare(rt: &HostRuntime, stream: &TokenStream, print: &str) -> Result<()> {
    println!(rt; "{print}")?;
    let same = is_same(rt, stream, print)?;
    Ok(println!(rt; "the same stream again: {same}")?)
}

fn main(rt: HostRuntime) -> Result<()> {
    let stream = built(rt.alloc())?;
    let print = stream.to_string(rt.alloc())?;
    compare(&rt, &stream, print.as_str())
}
