//! Lifetimes of texts.

ghost use Rattle.rust_leaf.specs.Identifier.{is_identifier};
ghost use Rattle.rust_leaf.specs.Leaf.{ident_span, ident_text};
ghost use Rattle.std.specs.List.{list_all};
ghost use Rattle.std.specs.Prelude.{◌∷◌, ◌≡◌, IfNone, IfOk, IfSome, IsTrue, false, true};
ghost use Rattle.std.specs.Str.{chars};
ghost use Rattle.syn_kinds.specs.Symbols.{is_symbol};
ghost use Rattle.unicode_ident.specs.Ident.{is_xid_continue};

use crate::lifetime::Lifetime;
use rust_leaf::ident::Ident;
use rust_map::span::Span;
use std::alloc::{AllocError, Global};
use unicode_ident::{is_xid_continue, is_xid_start};

// Whether a text can stand behind an identifier's first character.
fn goes_on(text: &str) -> bool
    ensures { result ≡ list_all is_xid_continue (chars text.now) }
{
    text.chars().all(is_xid_continue)
}

// Whether a text is an identifier.
#[tactic(auto, using(rust_leaf::proofs::Identifiers::identifier_past_first, std::proofs::lemmas::Grind::common_steps))]
fn is_identifier(text: &str) -> bool
    ensures { result ≡ is_identifier (chars text.now) }
{
    let mut rest = text.chars();
    match rest.next() {
        None => false,
        Some(first) => (is_xid_start(first) | (first == '_')) & goes_on(rest.as_str()),
    }
}

// The identifier behind the apostrophe, if the text is that of a lifetime.
#[tactic(auto, using(crate::proofs::Firsts::firsts, std::proofs::lemmas::Grind::common_steps))]
fn name_of(symbol: &str) -> Option<&str>
    ensures text { IfSome result (λ name. 39 ∷ chars name.now ≡ chars symbol.now) }
    ensures name { IfSome result (λ name. is_identifier (chars name.now) ≡ true) }
    ensures symbol { IfSome result (λ _. is_symbol (chars symbol.now) ≡ true) }
    ensures none { IfNone result (is_symbol (chars symbol.now) ≡ false) }
{
    let mut rest = symbol.chars();
    match rest.next() {
        None => None,
        Some(first) => {
            if first == '\'' && is_identifier(rest.as_str()) {
                Some(rest.as_str())
            } else {
                None
            }
        }
    }
}

impl Lifetime {
    /// Whether the text is that of a lifetime: an apostrophe and an identifier, which has no `r#`.
    pub fn is_symbol(text: &str) -> bool
        ensures { result ≡ is_symbol (chars text.now) }
    {
        name_of(text).is_some()
    }

    /// The lifetime of that text, which stands there. `is_symbol` is the test of its condition.
    ///
    /// The error is that memory was refused.
    pub fn new(alloc: Global, symbol: &str, span: Span) -> Result<Lifetime, AllocError>
        requires { IsTrue (is_symbol (chars symbol.now)) }
        ensures text { IfOk result (λ l. 39 ∷ ident_text l.ident ≡ chars symbol.now) }
        ensures apostrophe { IfOk result (λ l. l.apostrophe ≡ span) }
        ensures ident { IfOk result (λ l. ident_span l.ident ≡ span) }
    {
        match name_of(symbol) {
            Some(name) => Ok(Lifetime {
                apostrophe: span,
                ident: Ident::from_text(alloc, name, span)?,
            }),
            None => unreachable!(),
        }
    }
}
