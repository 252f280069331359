//! What may stand in front of an item beside its own parts, and that none of it does.

ghost use Rattle.std.specs.Prelude.{[], ◌∷◌, ◌≡◌, IfErr, IfOk, None, OnOk, codes};
ghost use Rattle.syn_item.specs.ItemModifiers.{IsRefusal, impl_notes, note_at, word_notes};

use crate::entry::PlacedParts;
use rust_leaf::ident::Ident;
use rust_map::span::Span;
use std::alloc::{AllocError, Global};
use syn_error::error::Error;
use syn_error::fault::ParseFault;
use syn_part::leaf::Mark;

/// What may stand in front of a constant.
#[derive(Clone, Copy)]
pub struct ConstModifiers<'a> {
    /// `default`
    pub defaultness: Option<&'a Ident>,
}

/// What may stand in front of a function.
#[derive(Clone, Copy)]
pub struct FnModifiers<'a> {
    /// `default`
    pub defaultness: Option<&'a Ident>,
}

/// What may stand in front of a type alias.
#[derive(Clone, Copy)]
pub struct TypeModifiers<'a> {
    /// `default`
    pub defaultness: Option<&'a Ident>,
}

/// What may stand in an impl in front of `impl`, and in front of the trait.
#[derive(Clone, Copy)]
pub struct ImplModifiers<'a> {
    /// `default`
    pub defaultness: Option<&'a Ident>,
    /// `!`
    pub polarity: Option<Mark>,
}

/// What may stand in front of a trait.
#[derive(Clone, Copy)]
pub struct TraitModifiers<'a> {
    /// `auto`
    pub auto_token: Option<&'a Ident>,
}

// The fault that a token was not to stand there, of which the words say it.
fn unexpected(alloc: Global, span: Span, words: &'static str) -> ParseFault
    ensures { IsRefusal (note_at words.now span ∷ []) result }
{
    match Error::new(alloc, span, words) {
        Ok(error) => ParseFault::Syntax(error),
        Err(_) => ParseFault::Memory,
    }
}

// That a word does not stand there.
fn no_word(alloc: Global, word: Option<&Ident>, words: &'static str) -> Result<(), ParseFault>
    ensures empty { OnOk result (word.entry ≡ None) }
    ensures refused { IfErr result (λ f. IsRefusal (word_notes words.now word.entry) f) }
{
    match word {
        Some(word) => Err(unexpected(alloc, word.span(), words)),
        None => Ok(()),
    }
}

// An error of two messages, each of which says the same of another token.
fn said_of_both(
    alloc: Global,
    first: Span,
    second: Span,
    words: &'static str,
) -> Result<Error, AllocError>
    ensures { IfOk result (λ e. e ≡ note_at words.now first ∷ (note_at words.now second ∷ [])) }
{
    let mut error = Error::new(alloc, first, words)?;
    error.combine(Error::new(alloc, second, words)?)?;
    Ok(error)
}

// The fault that neither of two tokens was to stand there.
fn unexpected_both(alloc: Global, first: Span, second: Span, words: &'static str) -> ParseFault
    ensures { IsRefusal (note_at words.now first ∷ (note_at words.now second ∷ [])) result }
{
    match said_of_both(alloc, first, second, words) {
        Ok(error) => ParseFault::Syntax(error),
        Err(_) => ParseFault::Memory,
    }
}

impl<'a> ConstModifiers<'a> {
    /// That none stands there.
    ///
    /// # Errors
    ///
    /// `unexpected const item modifier`, of the one that does; or that memory for that was refused.
    pub fn require_empty(&self, alloc: Global) -> Result<(), ParseFault>
        ensures empty { OnOk result (self.now.defaultness ≡ None) }
        ensures refused { IfErr result (λ f. IsRefusal (word_notes (codes "unexpected const item modifier")
            self.now.defaultness) f) }
    {
        no_word(alloc, self.defaultness, "unexpected const item modifier")
    }
}

impl<'a> FnModifiers<'a> {
    /// That none stands there.
    ///
    /// # Errors
    ///
    /// `unexpected function modifier`, of the one that does; or that memory for that was refused.
    pub fn require_empty(&self, alloc: Global) -> Result<(), ParseFault>
        ensures empty { OnOk result (self.now.defaultness ≡ None) }
        ensures refused { IfErr result (λ f. IsRefusal (word_notes (codes "unexpected function modifier")
            self.now.defaultness) f) }
    {
        no_word(alloc, self.defaultness, "unexpected function modifier")
    }
}

impl<'a> TypeModifiers<'a> {
    /// That none stands there.
    ///
    /// # Errors
    ///
    /// `unexpected type alias modifier`, of the one that does; or that memory for that was refused.
    pub fn require_empty(&self, alloc: Global) -> Result<(), ParseFault>
        ensures empty { OnOk result (self.now.defaultness ≡ None) }
        ensures refused { IfErr result (λ f. IsRefusal (word_notes (codes "unexpected type alias modifier")
            self.now.defaultness) f) }
    {
        no_word(alloc, self.defaultness, "unexpected type alias modifier")
    }
}

impl<'a> TraitModifiers<'a> {
    /// That none stands there.
    ///
    /// # Errors
    ///
    /// `unexpected trait modifier`, of the one that does; or that memory for that was refused.
    pub fn require_empty(&self, alloc: Global) -> Result<(), ParseFault>
        ensures empty { OnOk result (self.now.auto_token ≡ None) }
        ensures refused { IfErr result (λ f. IsRefusal (word_notes (codes "unexpected trait modifier")
            self.now.auto_token) f) }
    {
        no_word(alloc, self.auto_token, "unexpected trait modifier")
    }
}

impl<'a> ImplModifiers<'a> {
    /// That none stands there.
    ///
    /// # Errors
    ///
    /// `unexpected impl modifier`, of each that does, in their order; or that memory for that was refused.
    pub fn require_empty(&self, alloc: Global) -> Result<(), ParseFault>
        ensures empty { OnOk result ((self.now.defaultness ≡ None) × (self.now.polarity ≡ None)) }
        ensures refused { IfErr result (λ f. IsRefusal (impl_notes self.now) f) }
    {
        let words = "unexpected impl modifier";
        match self.polarity {
            None => no_word(alloc, self.defaultness, words),
            Some(mark) => match self.defaultness {
                None => Err(unexpected(alloc, mark.span, words)),
                Some(word) => Err(unexpected_both(alloc, word.span(), mark.span, words)),
            },
        }
    }
}

impl<'a> Default for ConstModifiers<'a> {
    ghost is_default = { λ x. x.defaultness ≡ None };

    /// None.
    fn default() -> ConstModifiers<'a> {
        ConstModifiers { defaultness: None }
    }
}

impl<'a> Default for FnModifiers<'a> {
    ghost is_default = { λ x. x.defaultness ≡ None };

    /// None.
    fn default() -> FnModifiers<'a> {
        FnModifiers { defaultness: None }
    }
}

impl<'a> Default for TypeModifiers<'a> {
    ghost is_default = { λ x. x.defaultness ≡ None };

    /// None.
    fn default() -> TypeModifiers<'a> {
        TypeModifiers { defaultness: None }
    }
}

impl<'a> Default for TraitModifiers<'a> {
    ghost is_default = { λ x. x.auto_token ≡ None };

    /// None.
    fn default() -> TraitModifiers<'a> {
        TraitModifiers { auto_token: None }
    }
}

impl<'a> Default for ImplModifiers<'a> {
    ghost is_default = { λ x. (x.defaultness ≡ None) × (x.polarity ≡ None) };

    /// None.
    fn default() -> ImplModifiers<'a> {
        ImplModifiers {
            defaultness: None,
            polarity: None,
        }
    }
}

impl<'t, 'a> PlacedParts<'t, 'a> {
    /// What stands in front of it, of a constant.
    pub fn const_modifiers(&self) -> ConstModifiers<'a>
        ensures { result.defaultness ≡ self.now.defaultness }
    {
        ConstModifiers {
            defaultness: self.defaultness,
        }
    }

    /// What stands in front of it, of a function.
    pub fn fn_modifiers(&self) -> FnModifiers<'a>
        ensures { result.defaultness ≡ self.now.defaultness }
    {
        FnModifiers {
            defaultness: self.defaultness,
        }
    }

    /// What stands in front of it, of a type alias.
    pub fn type_modifiers(&self) -> TypeModifiers<'a>
        ensures { result.defaultness ≡ self.now.defaultness }
    {
        TypeModifiers {
            defaultness: self.defaultness,
        }
    }
}
