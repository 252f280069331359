//! A struct, written with each of its named fields public. What is read is taken apart by `of`, and what is changed is
//! put together by `to_tree`, with the other fields as they were.

use anyhow::{Result, anyhow};
use syn::{
    Arena, Data, DataStruct, DeriveInput, Element, Elements, Fields, FieldsNamed, Ident,
    NamedField, Span, TokenBuffer, Tree, Visibility, parse2, print, put_normal,
};
use syn_made::to_tree::ToTree;
use syn_made::try_to_tree::TryToTree;

// A field once more, public.
fn public_field<'a>(arena: &'a Arena, vis: &Tree<'a>, field: &Tree<'a>) -> Result<Tree<'a>> {
    match NamedField::of(field) {
        Some(named) => Ok(NamedField { vis, ..named }.to_tree(arena)?),
        None => Err(anyhow!("a field has no name")),
    }
}

// What a mark follows of some fields, each of them public.
fn public_elements<'a>(
    arena: &'a Arena,
    vis: &Tree<'a>,
    elements: &[Element<'a>],
) -> Result<Vec<Element<'a>>> {
    let mut made = Vec::new(arena.alloc());
    for element in elements {
        let tree = public_field(arena, vis, &element.tree)?;
        made.push(Element {
            tree,
            spacing: element.spacing.copy(),
        })?;
    }
    Ok(made)
}

// The last of some fields, public, if a mark follows none.
fn public_last<'a>(
    arena: &'a Arena,
    vis: &Tree<'a>,
    last: Option<&Tree<'a>>,
) -> Result<Option<Tree<'a>>> {
    match last {
        Some(field) => Ok(Some(public_field(arena, vis, field)?)),
        None => Ok(None),
    }
}

// A struct once more, with these fields.
fn with_fields<'a>(
    arena: &'a Arena,
    input: &DeriveInput<'_, 'a>,
    item: &DataStruct<'_, 'a>,
    fields: Fields<'_, 'a>,
) -> Result<Tree<'a>> {
    let data = Data::Struct(DataStruct { fields, ..*item });
    match (DeriveInput { data, ..*input }).try_to_tree(arena)? {
        Some(tree) => Ok(tree),
        None => Err(anyhow!("its semicolon is not as its fields need it")),
    }
}

// A struct once more, with these fields in braces, each of them public.
fn public_struct<'a>(
    arena: &'a Arena,
    vis: &Tree<'a>,
    input: &DeriveInput<'_, 'a>,
    item: &DataStruct<'_, 'a>,
    fields: &FieldsNamed<'_, 'a>,
) -> Result<Tree<'a>> {
    let before = public_elements(arena, vis, fields.named.before)?;
    let last = public_last(arena, vis, fields.named.last)?;
    let named = Elements {
        separator: fields.named.separator,
        before: before.as_slice(),
        last: last.as_ref(),
    };
    let fields = Fields::Named(FieldsNamed { named, ..*fields });
    with_fields(arena, input, item, fields)
}

// The visibility `pub`.
fn public_visibility<'a>(arena: &'a Arena) -> Result<Tree<'a>> {
    let word = arena.put(Ident::new(arena.alloc(), "pub", Span::call_site())?)?;
    Ok(Visibility::Public(word).to_tree(arena)?)
}

// A struct that was read, with its fields public.
fn rewritten<'a>(arena: &'a Arena, input: &DeriveInput<'_, 'a>) -> Result<Tree<'a>> {
    let Data::Struct(item) = &input.data else {
        return Err(anyhow!("it is no struct"));
    };
    let Fields::Named(fields) = &item.fields else {
        return Err(anyhow!("its fields have no names"));
    };
    let vis = public_visibility(arena)?;
    public_struct(arena, &vis, input, item, fields)
}

// The line of a tree that was put together, in its normal form.
fn put_made<'a>(arena: &'a Arena, tree: &Tree<'a>, out: &mut String) -> Result<()> {
    let mut pieces = Vec::new(arena.alloc());
    if put_normal(arena, tree, &mut pieces).is_err() {
        return Err(anyhow!("out of memory"));
    }
    let text = print(arena.alloc(), &pieces)?;
    Ok(writeln!(out, "{text}")?)
}

/// Puts the struct that a buffer holds, with its fields public.
pub(crate) fn put_struct(buffer: &TokenBuffer, out: &mut String) -> Result<()> {
    let arena = Arena::new(*out.allocator());
    let input = parse2::<DeriveInput>(&arena, buffer)?;
    let tree = rewritten(&arena, &input)?;
    put_made(&arena, &tree, out)
}
