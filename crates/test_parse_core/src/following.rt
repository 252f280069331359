//! What stands first in a text, and what is left behind it.

use proc_macro2::TokenStream;
use syn_error::ParseFault;
use syn_parse::{Parse, ParseBuffer};

/// What stands first, and the tokens behind it. It promises nothing of either.
#[derive(Drop)]
pub struct Front<T: Parse> {
    /// What stands first.
    pub first: T,
    /// The tokens behind it.
    pub rest: TokenStream,
}

impl<T: Parse> Parse for Front<T> {
    ghost reads = { λ _ _ _. Unit {0} };

    ghost refuses = { λ _. Unit {0} };

    fn parse(input: &mut ParseBuffer<'_>) -> Result<Front<T>, ParseFault> {
        let first = input.parse::<T>()?;
        let rest = input.parse::<TokenStream>()?;
        Ok(Front { first, rest })
    }
}
