//! The names of an item's fields or variants, as string literals.

use crate::tokens::{put_comma, put_text};
use anyhow::{Result, anyhow};
use proc_macro2::{Ident, TokenStream};
use syn::members::Member;
use syn::{Data, Elements, Fields, Tree, Variant};

// Puts a name, without `r#`.
fn put_name(name: &Ident, out: &mut TokenStream) -> Result<()> {
    let printed = format!(in out.allocator(); "{name}")?;
    let printed = printed.as_str();
    put_text(printed.strip_prefix("r#").unwrap_or(printed), out)
}

// Puts a number.
fn put_number(number: usize, out: &mut TokenStream) -> Result<()> {
    let printed = format!(in out.allocator(); "{number}")?;
    put_text(printed.as_str(), out)
}

// Puts the name of a field, or the number of one without a name.
fn put_member(member: &Member, out: &mut TokenStream) -> Result<()> {
    match member {
        Member::Named(name) => put_name(name.word(), out),
        Member::Unnamed(number) => put_number(*number, out),
    }
}

// Puts the names of fields, with commas between them.
fn put_fields(fields: &Fields, out: &mut TokenStream) -> Result<()> {
    let members = fields.members(out.allocator())?;
    for (index, member) in members.iter().enumerate() {
        put_comma(index, out)?;
        put_member(member, out)?;
    }
    Ok(())
}

// Puts the name of a variant.
fn put_variant(variant: &Tree, out: &mut TokenStream) -> Result<()> {
    match Variant::of(variant) {
        Some(variant) => put_name(variant.ident, out),
        None => Err(anyhow!("no variant")),
    }
}

// Puts the names of variants, with commas between them.
fn put_variants(variants: &Elements, out: &mut TokenStream) -> Result<()> {
    for (index, variant) in variants.iter().enumerate() {
        put_comma(index, out)?;
        put_variant(variant, out)?;
    }
    Ok(())
}

/// Puts the names of an item's fields, of unnamed ones their numbers, or of an enum those of its variants.
pub fn put_members(data: &Data, out: &mut TokenStream) -> Result<()> {
    match data {
        Data::Struct(data) => put_fields(&data.fields, out),
        Data::Union(data) => put_fields(&Fields::Named(data.fields), out),
        Data::Enum(data) => put_variants(&data.variants, out),
    }
}

/// The name of the list of these names.
pub fn list_name(data: &Data) -> &'static str {
    match data {
        Data::Struct(_) | Data::Union(_) => "FIELDS",
        Data::Enum(_) => "VARIANTS",
    }
}
