//! What is said of the items of a file.

use crate::part::{put_last, put_part};
use crate::place::place_of;
use anyhow::Result;
use std::alloc::AllocError;
use syn::{
    Arena, ClosureParam, Error, ItemFn, ItemImpl, ItemStatic, ItemTrait, LineColumn, Local,
    Parameter, ParseFault, PatType, PlacedParts, Receiver, ReceiverKind, Signature, SourceMap,
    StaticMutability, TokenBuffer, Tree, parse_file, put_nodes,
};

// How a function takes its receiver.
fn put_receiver(receiver: &Receiver, out: &mut String) -> Result<(), AllocError> {
    let word = receiver.self_token;
    if let Some(mutability) = receiver.mutability {
        write!(out, "{mutability} ")?;
    }
    match receiver.kind {
        ReceiverKind::Value => write!(out, "{word}"),
        ReceiverKind::Typed(_, _) => write!(out, "{word} of a type"),
        ReceiverKind::Reference(_, _, None) => write!(out, "&{word}"),
        ReceiverKind::Reference(_, _, Some(mutability)) => write!(out, "&{mutability} {word}"),
    }
}

// A line for the function that has a signature.
fn put_function(signature: &Signature, out: &mut String) -> Result<(), AllocError> {
    let name = signature.ident;
    write!(out, "fn {name}: ")?;
    match signature.receiver() {
        Some(receiver) => put_receiver(&receiver, out)?,
        None => write!(out, "no receiver")?,
    }
    match signature.variadic() {
        Some(found) if found.pat.is_some() => writeln!(out, ", and more by a pattern"),
        Some(_) => writeln!(out, ", and more"),
        None => writeln!(out, ""),
    }
}

// The pattern with its type that stands in a node.
fn pat_type_in<'t, 'a>(tree: &'t Tree<'a>) -> Option<PatType<'t, 'a>> {
    if let Some(parameter) = Parameter::of(tree) {
        return parameter.pat_type();
    }
    if let Some(parameter) = ClosureParam::of(tree) {
        return parameter.pat_type();
    }
    match Local::of(tree) {
        Some(local) => local.pat_type(),
        None => None,
    }
}

// Attributes with a space behind them, if there are any.
fn put_attributes(attrs: &Tree, out: &mut String) -> Result<(), AllocError> {
    let before = out.len();
    put_part("", attrs, out)?;
    if out.len() == before {
        return Ok(());
    }
    write!(out, " ")
}

// A line for a pattern with its type.
fn put_pat_type(found: &PatType, out: &mut String) -> Result<(), AllocError> {
    write!(out, "  ")?;
    if let Some(attrs) = found.attrs {
        put_attributes(attrs, out)?;
    }
    put_part("", found.pat, out)?;
    put_last(": ", found.ty, out)
}

// A line for a static.
fn put_static(item: &ItemStatic, out: &mut String) -> Result<(), AllocError> {
    let name = item.ident;
    match item.mutability {
        StaticMutability::Mut(word) => writeln!(out, "static {name}: {word}"),
        StaticMutability::None => writeln!(out, "static {name}"),
    }
}

// A line for a message, with its place.
fn put_message(map: &SourceMap, message: &Error, out: &mut String) -> Result<(), AllocError> {
    match place_of(map, message.span()) {
        Some(LineColumn { line, column }) => writeln!(out, "  {message} at {line}:{column}"),
        None => writeln!(out, "  {message}"),
    }
}

// A line for each message of what is refused, if anything is.
fn put_refused(
    map: &SourceMap,
    required: Result<(), ParseFault>,
    out: &mut String,
) -> Result<(), AllocError> {
    let error = match required {
        Ok(()) => return Ok(()),
        Err(ParseFault::Memory) => return Err(AllocError),
        Err(ParseFault::Syntax(error)) => error,
    };
    for message in error {
        put_message(map, &message, out)?;
    }
    Ok(())
}

// An impl, and what is refused of its modifiers.
fn put_impl(map: &SourceMap, item: &ItemImpl, out: &mut String) -> Result<(), AllocError> {
    writeln!(out, "impl")?;
    let required = item.modifiers.require_empty(*out.allocator());
    put_refused(map, required, out)
}

// A trait, and what is refused of its modifiers.
fn put_trait(map: &SourceMap, item: &ItemTrait, out: &mut String) -> Result<(), AllocError> {
    let name = item.ident;
    writeln!(out, "trait {name}")?;
    let required = item.modifiers.require_empty(*out.allocator());
    put_refused(map, required, out)
}

// What is refused of the modifiers of an item of an impl, if it is a function.
fn put_method(map: &SourceMap, parts: &PlacedParts, out: &mut String) -> Result<(), AllocError> {
    if ItemFn::of(parts.item.choice()).is_none() {
        return Ok(());
    }
    let required = parts.fn_modifiers().require_empty(*out.allocator());
    put_refused(map, required, out)
}

// What is said of a node, which is one of these at most.
fn put_node(map: &SourceMap, tree: &Tree, out: &mut String) -> Result<(), AllocError> {
    if let Some(signature) = Signature::of(tree) {
        put_function(&signature, out)
    } else if let Some(found) = pat_type_in(tree) {
        put_pat_type(&found, out)
    } else if let Some(item) = ItemStatic::of(tree) {
        put_static(&item, out)
    } else if let Some(item) = ItemImpl::of(tree) {
        put_impl(map, &item, out)
    } else if let Some(item) = ItemTrait::of(tree) {
        put_trait(map, &item, out)
    } else if let Some(parts) = PlacedParts::in_impl(tree) {
        put_method(map, &parts, out)
    } else {
        Ok(())
    }
}

// What is said of each node of a file.
fn put_nodes_of(map: &SourceMap, file: &Tree, out: &mut String) -> Result<(), AllocError> {
    let mut nodes = Vec::new(*out.allocator());
    put_nodes(file, &mut nodes)?;
    for tree in &nodes {
        put_node(map, tree, out)?;
    }
    Ok(())
}

/// Puts what is said of each function, pattern with its type, static, impl and trait of the file that a buffer holds.
pub(crate) fn put_file(map: &SourceMap, buffer: &TokenBuffer, out: &mut String) -> Result<()> {
    let arena = Arena::new(*out.allocator());
    let file = parse_file(&arena, buffer)?;
    Ok(put_nodes_of(map, &file, out)?)
}
