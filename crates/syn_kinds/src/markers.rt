//! Kinds that are no tokens.

ghost use Rattle.std.specs.Prelude.{◌≡◌};
ghost use Rattle.syn_error.specs.Front.{Keeps};

use proc_macro2::tree::TokenStream;
use std::alloc::AllocError;
use syn_error::to_tokens::ToTokens;
use try_clone::TryClone;

/// The end of the tokens, for peeks.
#[derive(Clone, Copy, Debug)]
pub struct End;

/// An identifier, keywords and `_` among them, for peeks.
#[derive(Clone, Copy, Debug)]
pub struct IdentAny;

/// No token: reading it reads nothing, and printing it prints nothing. All are equal.
#[derive(Clone, Copy, Debug, PartialEq, Eq, Hash)]
pub struct Nothing;

#[tactic(auto, using(syn_error::proofs::Fronts::keeps_same))]
impl ToTokens for Nothing {
    ghost puts = { λ _ old new. new ≡ old };

    fn to_tokens(&self, _tokens: &mut TokenStream) -> Result<(), AllocError> {
        Ok(())
    }
}

impl TryClone for Nothing {
    ghost Shown = { Unit {0} };

    ghost shown = { λ _. tt };

    /// A copy, which takes no memory.
    fn try_clone(&self) -> Result<Nothing, AllocError> {
        Ok(*self)
    }
}
