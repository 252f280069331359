//! What types are.

use crate::part::{put_last, put_part};
use anyhow::{Result, anyhow};
use std::alloc::AllocError;
use syn::{
    AnyPath, Arena, Kind, ParseFault, Plus, PointerMutability, QualifiedPath, TokenBuffer, Tree,
    Type, TypeArray, TypeFnPtr, TypePath, TypePtr, TypeReference, parse_as,
};

// What a reference is.
fn put_reference(found: &TypeReference, out: &mut String) -> Result<(), AllocError> {
    write!(out, "  a reference")?;
    if let Some(lifetime) = found.lifetime {
        write!(out, " '{}", lifetime.ident)?;
    }
    if let Some(mutability) = found.mutability {
        write!(out, " {mutability}")?;
    }
    put_last(" to ", found.elem, out)
}

// What an array is.
fn put_array(found: &TypeArray, out: &mut String) -> Result<(), AllocError> {
    put_part("  an array of ", found.elem, out)?;
    put_last(", with length ", found.len, out)
}

// What a pointer is.
fn put_pointer(found: &TypePtr, out: &mut String) -> Result<(), AllocError> {
    match found.mutability {
        PointerMutability::Const(word) => write!(out, "  a pointer, {word},")?,
        PointerMutability::Mut(word) => write!(out, "  a pointer, {word},")?,
    }
    put_last(" to ", found.elem, out)
}

// What a qualified path is, and how many of its segments stand in front of its `>`.
fn put_qualified(path: &Tree, out: &mut String) -> Result<(), AllocError> {
    put_part("  a qualified path ", path, out)?;
    if let Some(found) = QualifiedPath::of(path) {
        let position = found.qself.position();
        write!(out, ", with position {position}")?;
    }
    writeln!(out, "")
}

// What a path is.
fn put_path(found: &TypePath, out: &mut String) -> Result<(), AllocError> {
    match found.path {
        AnyPath::Qualified(path) => put_qualified(path, out),
        AnyPath::Plain(path) => put_last("  a path ", path, out),
    }
}

// What a function pointer is.
fn put_fn_ptr(found: &TypeFnPtr, out: &mut String) -> Result<(), AllocError> {
    let count = found.inputs.len();
    match found.unsafety {
        Some(word) => writeln!(out, "  a function pointer that takes {count}, {word}"),
        None => writeln!(out, "  a function pointer that takes {count}"),
    }
}

// What a type is.
fn put_form(form: &Type, out: &mut String) -> Result<(), AllocError> {
    match form {
        Type::Reference(found) => put_reference(found, out),
        Type::Ptr(found) => put_pointer(found, out),
        Type::Array(found) => put_array(found, out),
        Type::Path(found) => put_path(found, out),
        Type::FnPtr(found) => put_fn_ptr(found, out),
        Type::Tuple(found) => writeln!(out, "  a tuple of {}", found.elems.len()),
        Type::Slice(_) => writeln!(out, "  a slice"),
        Type::Paren(_) => writeln!(out, "  a type in parentheses"),
        Type::Never(_) => writeln!(out, "  never"),
        Type::Infer(_) => writeln!(out, "  inferred"),
        Type::TraitObject(_) => writeln!(out, "  a trait object"),
        Type::ImplTrait(_) => writeln!(out, "  an opaque type"),
    }
}

// The type in a type, if there is one: of a tuple that which no comma follows.
fn inner<'t, 'a>(form: &Type<'t, 'a>) -> Option<&'t Tree<'a>> {
    match form {
        Type::Reference(found) => Some(found.elem),
        Type::Ptr(found) => Some(found.elem),
        Type::Array(found) => Some(found.elem),
        Type::Slice(found) => Some(found.elem),
        Type::Paren(found) => Some(found.elem),
        Type::Tuple(found) => found.elems.last,
        _ => None,
    }
}

// What a type is, and below it what the type in it is, as deep as is asked.
fn put_forms(depth: usize, tree: &Tree, out: &mut String) -> Result<()> {
    if depth == 0 {
        return Ok(());
    }
    let Some(form) = Type::of(tree) else {
        return Err(anyhow!("what was read as a type is none"));
    };
    put_form(&form, out)?;
    match inner(&form) {
        Some(inner) => put_forms(depth - 1, inner, out),
        None => Ok(()),
    }
}

// What is said of what is no type.
fn put_fault(fault: &ParseFault, out: &mut String) -> Result<()> {
    match fault {
        ParseFault::Syntax(_) => Ok(writeln!(out, "  no type")?),
        ParseFault::Memory => Err(anyhow!("out of memory")),
    }
}

/// Puts what the type is that a buffer holds, and below it what the type in it is, at most eight deep.
pub(crate) fn put_type(buffer: &TokenBuffer, out: &mut String) -> Result<()> {
    let arena = Arena::new(*out.allocator());
    match parse_as(&arena, Kind::AType(Plus::WithPlus), buffer) {
        Ok(tree) => put_forms(8, &tree, out),
        Err(fault) => put_fault(&fault, out),
    }
}
