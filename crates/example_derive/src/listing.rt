//! The impl that lists the names of an item's fields or variants, as tokens.

use crate::members::{list_name, put_members};
use crate::parameters::{Way, put_parameters};
use crate::tokens::{put_group, put_ident, put_lifetime, put_mark, put_tree, put_word};
use anyhow::Result;
use proc_macro2::{Delimiter, Spacing, TokenStream};
use std::alloc::Global;
use syn::{Data, DeriveInput};

// & 'static
#[tactic(auto, using(proc_macro2::proofs::Marks::known_mark))]
fn put_static(out: &mut TokenStream) -> Result<()> {
    put_mark('&', Spacing::Alone, out)?;
    put_lifetime("static", out)
}

// & 'static str
fn put_text_type(out: &mut TokenStream) -> Result<()> {
    put_static(out)?;
    put_word("str", out)
}

// & 'static [& 'static str]
fn put_type(out: &mut TokenStream) -> Result<()> {
    put_static(out)?;
    let mut inside = TokenStream::new(out.allocator());
    put_text_type(&mut inside)?;
    put_group(Delimiter::Bracket, inside, out)
}

// & ["a" , "b"]
#[tactic(auto, using(proc_macro2::proofs::Marks::known_mark))]
fn put_texts(data: &Data, out: &mut TokenStream) -> Result<()> {
    put_mark('&', Spacing::Alone, out)?;
    let mut inside = TokenStream::new(out.allocator());
    put_members(data, &mut inside)?;
    put_group(Delimiter::Bracket, inside, out)
}

// FIELDS : & 'static [& 'static str]
#[tactic(auto, using(proc_macro2::proofs::Marks::known_mark))]
fn put_list_head(data: &Data, out: &mut TokenStream) -> Result<()> {
    put_word(list_name(data), out)?;
    put_mark(':', Spacing::Alone, out)?;
    put_type(out)
}

// = & ["a" , "b"] ;
#[tactic(auto, using(proc_macro2::proofs::Marks::known_mark))]
fn put_list(data: &Data, out: &mut TokenStream) -> Result<()> {
    put_mark('=', Spacing::Alone, out)?;
    put_texts(data, out)?;
    put_mark(';', Spacing::Alone, out)
}

// pub const FIELDS : & 'static [& 'static str] = & ["a" , "b"] ;
fn put_constant(data: &Data, out: &mut TokenStream) -> Result<()> {
    put_word("pub", out)?;
    put_word("const", out)?;
    put_list_head(data, out)?;
    put_list(data, out)
}

// impl < parameters > Name < their names > where clause
fn put_head(input: &DeriveInput, out: &mut TokenStream) -> Result<()> {
    put_word("impl", out)?;
    put_parameters(input.generics, Way::Declared, out)?;
    put_ident(input.ident, out)?;
    put_parameters(input.generics, Way::Named, out)?;
    put_tree(input.where_clause, out)
}

// { constant }
fn put_body(data: &Data, out: &mut TokenStream) -> Result<()> {
    let mut inside = TokenStream::new(out.allocator());
    put_constant(data, &mut inside)?;
    put_group(Delimiter::Brace, inside, out)
}

/// impl < parameters > Name < their names > where clause { constant }
pub fn impl_of(alloc: Global, input: &DeriveInput) -> Result<TokenStream> {
    let mut out = TokenStream::new(alloc);
    put_head(input, &mut out)?;
    put_body(&input.data, &mut out)?;
    Ok(out)
}
