//! The values of literals that were read as expressions.

use syn::values::{Lit as Value, LitBool, LitByteStr, LitInt, LitStr, TryClone};
use syn::{Expr, ExprLit, Ident, Lit, Literal, Tree};
use test_support::{Page, Stop, looked_at};

// The literal that an expression is, if it is one.
fn literal<'a>(tree: &Tree<'a>) -> Option<Lit<'a>> {
    Some(ExprLit::of(Expr::of(tree)?.tree)?.lit)
}

// Puts what a string writes.
fn put_text(literal: &LitStr, page: &mut Page) -> Result<(), Stop> {
    page.quote(looked_at(literal.value(page.alloc()))?.as_str());
    Ok(())
}

// Puts the bytes that a byte string writes.
fn put_bytes(literal: &LitByteStr, page: &mut Page) -> Result<(), Stop> {
    page.put_bytes(looked_at(literal.value(page.alloc()))?.as_slice());
    Ok(())
}

// Puts the number that an integer writes, and its suffix.
fn put_number(literal: &LitInt, page: &mut Page) -> Result<(), Stop> {
    let Some(number) = literal.value() else {
        return Err(Stop::Changed);
    };
    let suffix = literal.suffix();
    write!(page, "{number} {suffix}");
    Ok(())
}

// Puts the value of a literal.
fn put_typed(value: &Value, page: &mut Page) -> Result<(), Stop> {
    match value {
        Value::Str(literal) => put_text(literal, page),
        Value::ByteStr(literal) => put_bytes(literal, page),
        Value::Int(literal) => put_number(literal, page),
        _ => Err(Stop::Changed),
    }
}

// Puts the value of a literal token that is handed over.
fn put_value_in(token: Literal, page: &mut Page) -> Result<(), Stop> {
    put_typed(&Value::new(token), page)
}

// Puts the value of a literal token, of a copy of it.
fn put_value_of(token: &Literal, page: &mut Page) -> Result<(), Stop> {
    put_value_in(looked_at(token.try_clone())?, page)
}

// Puts a truth value, by its token, and its suffix, which is nothing.
fn put_truth(word: &Ident, page: &mut Page) -> Result<(), Stop> {
    let literal = LitBool::new(word.is_text("true"), word.span());
    page.show(&looked_at(literal.token(page.alloc()))?);
    page.put(literal.suffix());
    Ok(())
}

/// Puts the value of the literal that an expression is.
pub(crate) fn put_value(tree: &Tree<'_>, page: &mut Page) -> Result<(), Stop> {
    match literal(tree) {
        Some(Lit::Token(token)) => put_value_of(token, page),
        Some(Lit::Bool(word)) => put_truth(word, page),
        None => Err(Stop::Changed),
    }
}
