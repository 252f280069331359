//! Identifiers: keywords read as identifiers, and names without `r#`.

ghost use Rattle.proc_macro2.specs.Flat.{spanned};
ghost use Rattle.proc_macro2.specs.Token as token;
ghost use Rattle.rust_map.specs.declared.span.Span.{Span};
ghost use Rattle.std.specs.Prelude.{◌∷◌, ◌≡◌, IfErr, IfOk, List, OnErr, false, ℕ};
ghost use Rattle.syn_error.specs.Faults.{IsSyntax};
ghost use Rattle.syn_input.specs.Input.{IsOnward, left, rest};
ghost use Rattle.syn_input.specs.Raw.{unraw_text};
ghost use Rattle.syn_kinds.specs.Stands.{any_ident_stands};

use crate::input::ParseBuffer;
use crate::raw::behind_raw;
use rust_leaf::ident::Ident;
use std::alloc::{AllocError, Global};
use syn_error::fault::ParseFault;
use try_clone::TryClone;

/// What an identifier has besides: it is read where a keyword stands too, and made without `r#`.
pub trait IdentExt: Drop {
    /// The text of an identifier as it is printed, a raw one with its `r#`.
    ghost text: { Self → List ℕ };

    /// Where an identifier stands.
    ghost place: { Self → Span };

    /// Reads any identifier: a keyword and `_` too, which `parse` refuses.
    ///
    /// The fault is that none stands there, or that memory for the copy or for the message was refused. The stream
    /// then stands where it did.
    fn parse_any(input: &mut ParseBuffer<'_>) -> Result<Self, ParseFault>
        ensures found { IfOk result (λ x. rest input.old ≡ spanned (token.Ident (text x)) (place x) ∷ rest input.new) }
        ensures none { IfErr result (λ e. IsSyntax e → any_ident_stands (left input.old) ≡ false) }
        ensures stays { OnErr result (input.new ≡ input.old) }
        ensures noted { input.new.noted ≡ input.old.noted }
        ensures onward { IsOnward input.old input.new };

    /// The same identifier without `r#`; it may be a keyword. One that has no `r#` is copied.
    ///
    /// The error is that memory was refused.
    fn unraw(&self, alloc: Global) -> Result<Self, AllocError>
        ensures text { IfOk result (λ bare. text bare ≡ unraw_text (text self.now)) }
        ensures span { IfOk result (λ bare. place bare ≡ place self.now) };
}

impl IdentExt for Ident {
    ghost use Rattle.rust_leaf.specs.Leaf.{ident_span, ident_text};

    ghost text = { ident_text };

    ghost place = { ident_span };

    fn parse_any(input: &mut ParseBuffer<'_>) -> Result<Ident, ParseFault> {
        match input.cursor().ident() {
            Some((ident, behind)) => {
                let copy = ident.try_clone()?;
                let next = ParseBuffer::new(input.allocator(), behind);
                input.advance_to(next);
                Ok(copy)
            }
            None => Err(input.expected("identifier")),
        }
    }

    fn unraw(&self, alloc: Global) -> Result<Ident, AllocError> {
        let printed = self.to_string(alloc)?;
        match behind_raw(printed.as_str()) {
            Some(name) => Ident::from_text(alloc, name, self.span()),
            None => self.try_clone(),
        }
    }
}
