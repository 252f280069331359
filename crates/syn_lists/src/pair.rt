//! A value and the separator behind it.

ghost use Rattle.std.specs.Prelude.{◌≡◌, IfOk, Option};
ghost use Rattle.std.specs.Borrow.{sem};
ghost use Rattle.syn_lists.specs.LentPair.{lends_separator, lends_value};
ghost use Rattle.syn_lists.specs.Pairs.{lent, option_now, option_now_mut, parts, shown_parts};
ghost use Rattle.syn_lists.specs.Put.{PutsPair};

use proc_macro2::tree::TokenStream;
use std::alloc::AllocError;
use syn_error::to_tokens::ToTokens;
use try_clone::TryClone;

/// A value with the separator behind it, or the last value, that none follows.
#[derive(Clone, Copy, Debug, Drop)]
pub enum Pair<T, P> {
    /// A value, and the separator behind it.
    Punctuated(T, P),
    /// A value that no separator follows.
    End(T),
}

impl<T, P> Pair<T, P> {
    /// The value, and the separator behind it, if there is one.
    pub fn new(value: T, separator: Option<P>) -> Pair<T, P>
        ensures { parts result ≡ (value, separator) }
    {
        match separator {
            Some(separator) => Pair::Punctuated(value, separator),
            None => Pair::End(value),
        }
    }

    /// The value, and the separator behind it, if there is one.
    pub fn into_tuple(self) -> (T, Option<P>)
        ensures { result ≡ parts self }
    {
        match self {
            Pair::Punctuated(value, separator) => (value, Some(separator)),
            Pair::End(value) => (value, None),
        }
    }

    /// The value.
    pub fn into_value(self) -> T
    where
        P: Drop,
        ensures { result ≡ (parts self).0 }
    {
        match self {
            Pair::Punctuated(value, _) => value,
            Pair::End(value) => value,
        }
    }

    /// The value, lent.
    pub fn value(&self) -> &T
        ensures { result.now ≡ (parts self.now).0 }
    {
        match self {
            Pair::Punctuated(value, _) => value,
            Pair::End(value) => value,
        }
    }

    /// The value, to be changed: the pair then holds what was written last.
    pub fn value_mut(&mut self) -> &mut T
        ensures* writes_back { sem 𝓛 (lends_value T.row P.row self.entry result) }
        ensures value { result.now ≡ (parts self.old).0 }
    {
        match self {
            Pair::Punctuated(value, _) => value,
            Pair::End(value) => value,
        }
    }

    /// The separator behind the value, if there is one, lent.
    pub fn punct(&self) -> Option<&P>
        ensures { option_now result ≡ (parts self.now).1 }
    {
        match self {
            Pair::Punctuated(_, separator) => Some(separator),
            Pair::End(_) => None,
        }
    }

    /// The separator behind the value, if there is one, to be changed: the pair then holds what was written last.
    pub fn punct_mut(&mut self) -> Option<&mut P>
        ensures* writes_back { sem 𝓛 (lends_separator T.row P.row self.entry result) }
        ensures separator { option_now_mut result ≡ (parts self.old).1 }
    {
        match self {
            Pair::Punctuated(_, separator) => Some(separator),
            Pair::End(_) => None,
        }
    }
}

impl<T: TryClone, P: TryClone> Pair<&T, &P> {
    /// A copy of what is lent. The error is that memory was refused.
    pub fn cloned(self) -> Result<Pair<T, P>, AllocError>
        ensures { let shown = shown_parts T.shown P.shown in
            IfOk result (λ pair. shown (parts pair) ≡ shown (lent self.entry)) }
    {
        match self {
            Pair::Punctuated(value, separator) => {
                let value = value.try_clone()?;
                Ok(Pair::Punctuated(value, separator.try_clone()?))
            }
            Pair::End(value) => Ok(Pair::End(value.try_clone()?)),
        }
    }
}

#[tactic(auto, using(syn_error::proofs::Fronts::keeps_both))]
impl<T: ToTokens, P: ToTokens> ToTokens for Pair<T, P> {
    ghost puts = { λ pair. PutsPair T.puts P.puts (parts pair) };

    fn to_tokens(&self, tokens: &mut TokenStream) -> Result<(), AllocError> {
        match self {
            Pair::Punctuated(value, separator) => {
                value.to_tokens(tokens)?;
                separator.to_tokens(tokens)
            }
            Pair::End(value) => value.to_tokens(tokens),
        }
    }
}

impl<T: TryClone, P: TryClone> TryClone for Pair<T, P> {
    ghost Shown = { T.Shown × Option P.Shown };

    ghost shown = { λ pair. shown_parts T.shown P.shown (parts pair) };

    fn try_clone(&self) -> Result<Pair<T, P>, AllocError> {
        match self {
            Pair::Punctuated(value, separator) => {
                let value = value.try_clone()?;
                Ok(Pair::Punctuated(value, separator.try_clone()?))
            }
            Pair::End(value) => Ok(Pair::End(value.try_clone()?)),
        }
    }
}
