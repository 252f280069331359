//! Lists printed as tokens, and copies of lists.

ghost use Rattle.std.specs.Prelude.{◌≡◌, IfOk, List, length, map};
ghost use Rattle.syn_lists.specs.Lists.{separators, values};
ghost use Rattle.syn_lists.specs.Put.{PutsList};

use crate::punctuated::Punctuated;
use proc_macro2::tree::TokenStream;
use std::alloc::AllocError;
use syn_error::to_tokens::ToTokens;
use try_clone::TryClone;

#[tactic(auto, using(syn_error::proofs::Fronts::keeps_same, syn_error::proofs::Fronts::keeps_both))]
impl<T: ToTokens, P: ToTokens> ToTokens for Punctuated<T, P> {
    ghost puts = { λ list. PutsList T.puts P.puts (values list) (separators list) };

    fn to_tokens(&self, tokens: &mut TokenStream) -> Result<(), AllocError> {
        for index in 0..self.values.len() {
            self.values[index].to_tokens(tokens)?;
            if index == self.separators.len() {
                return Ok(());
            }
            self.separators[index].to_tokens(tokens)?;
        }
        Ok(())
    }
}

impl<T, P: TryClone> Punctuated<T, P> {
    /// The list of those values, which must be as many as this one's, with copies of its separators.
    ///
    /// The error is that memory was refused.
    pub fn with_values<U: Drop>(&self, others: Vec<U>) -> Result<Punctuated<U, P>, AllocError>
        requires { length others.items ≡ length (values self.now) }
        ensures values { IfOk result (λ list. values list ≡ others.items) }
        ensures separators { IfOk result (λ list.
            map P.shown (separators list) ≡ map P.shown (separators self.now)) }
    {
        Ok(Punctuated {
            values: others,
            separators: self.separators.try_clone()?,
        })
    }
}

impl<T: TryClone, P: TryClone> TryClone for Punctuated<T, P> {
    ghost Shown = { List T.Shown × List P.Shown };

    ghost shown = { λ list. (map T.shown (values list), map P.shown (separators list)) };

    fn try_clone(&self) -> Result<Punctuated<T, P>, AllocError> {
        let values = self.values.try_clone()?;
        Ok(Punctuated {
            values,
            separators: self.separators.try_clone()?,
        })
    }
}
