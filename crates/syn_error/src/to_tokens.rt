//! What is printed as tokens.
#![tactic(auto, using(crate::proofs::Fronts::keeps_same, crate::proofs::Fronts::push_keeps))]

ghost use Rattle.proc_macro2.specs.Entered.{entered};
ghost use Rattle.proc_macro2.specs.Flat.{group_tokens, tree_tokens};
ghost use Rattle.proc_macro2.specs.Token.{Spanned};
ghost use Rattle.proc_macro2.specs.declared.tree.TokenTree.TheVariants as tree;
ghost use Rattle.std.specs.Prelude.{[], ◌++◌, ◌≡◌, IfOk, List, OnOk};
ghost use Rattle.syn_error.specs.Front.{Keeps};
ghost use Rattle.syn_error.specs.Tokens.{PutsAll, PutsSome};

use proc_macro2::tree::{Group, TokenStream, TokenTree};
use rust_leaf::ident::Ident;
use rust_leaf::literal::Literal;
use rust_leaf::punct::Punct;
use std::alloc::{AllocError, Global};
use try_clone::TryClone;

/// What is printed as tokens.
///
/// `puts` says which tokens may stand there behind a print of the value, in terms of those that stood there before it.
pub trait ToTokens {
    /// A print of the value makes of the first tokens the second ones.
    ghost puts: { Self → List Spanned → List Spanned → Type 0 };

    /// Adds the tokens of the value at the end.
    ///
    /// The error is that memory was refused. The old tokens stand in front then too, perhaps with some
    /// tokens of the value behind them.
    fn to_tokens(&self, tokens: &mut TokenStream) -> Result<(), AllocError>
        ensures put { OnOk result (puts self.now tokens.old tokens.new) }
        ensures keeps { Keeps tokens.old tokens.new };

    /// The tokens of the value. The error is that memory was refused.
    fn to_token_stream(&self, alloc: Global) -> Result<TokenStream, AllocError>
        ensures { IfOk result (λ stream. puts self.now [] stream) }
    {
        let mut tokens = TokenStream::new(alloc);
        self.to_tokens(&mut tokens)?;
        Ok(tokens)
    }
}

impl ToTokens for TokenStream {
    ghost puts = { λ stream old new. new ≡ old ++ stream };

    fn to_tokens(&self, tokens: &mut TokenStream) -> Result<(), AllocError> {
        tokens.push_stream(self.try_clone()?)
    }
}

impl ToTokens for TokenTree {
    ghost puts = { λ tree old new. new ≡ old ++ entered tree };

    fn to_tokens(&self, tokens: &mut TokenStream) -> Result<(), AllocError> {
        tokens.push_tree(self.try_clone()?)
    }
}

impl ToTokens for Group {
    ghost puts = { λ group old new. new ≡ old ++ group_tokens group };

    fn to_tokens(&self, tokens: &mut TokenStream) -> Result<(), AllocError> {
        tokens.push_tree(TokenTree::Group(self.try_clone()?))
    }
}

impl ToTokens for Ident {
    ghost puts = { λ ident old new. new ≡ old ++ tree_tokens (tree.Ident ident) };

    fn to_tokens(&self, tokens: &mut TokenStream) -> Result<(), AllocError> {
        tokens.push_tree(TokenTree::Ident(self.try_clone()?))
    }
}

impl ToTokens for Punct {
    ghost puts = { λ punct old new. new ≡ old ++ tree_tokens (tree.Punct punct) };

    fn to_tokens(&self, tokens: &mut TokenStream) -> Result<(), AllocError> {
        tokens.push_tree(TokenTree::Punct(*self))
    }
}

impl ToTokens for Literal {
    ghost puts = { λ literal old new. new ≡ old ++ entered (tree.Literal literal) };

    fn to_tokens(&self, tokens: &mut TokenStream) -> Result<(), AllocError> {
        tokens.push_tree(TokenTree::Literal(self.try_clone()?))
    }
}

impl<T: ToTokens> ToTokens for &T {
    ghost puts = { λ value. T.puts value.now };

    fn to_tokens(&self, tokens: &mut TokenStream) -> Result<(), AllocError> {
        (**self).to_tokens(tokens)
    }
}

impl<T: ToTokens> ToTokens for Box<T> {
    ghost puts = { λ value. T.puts value.value };

    fn to_tokens(&self, tokens: &mut TokenStream) -> Result<(), AllocError> {
        (**self).to_tokens(tokens)
    }
}

impl<T: ToTokens> ToTokens for Option<T> {
    ghost puts = { PutsSome T.puts };

    fn to_tokens(&self, tokens: &mut TokenStream) -> Result<(), AllocError> {
        match self {
            None => Ok(()),
            Some(value) => value.to_tokens(tokens),
        }
    }
}

#[tactic(auto, using(crate::proofs::Fronts::keeps_same, crate::proofs::Fronts::keeps_both))]
impl<T: ToTokens> ToTokens for Vec<T> {
    ghost puts = { λ values. PutsAll T.puts values.items };

    fn to_tokens(&self, tokens: &mut TokenStream) -> Result<(), AllocError> {
        for value in self {
            value.to_tokens(tokens)?;
        }
        Ok(())
    }
}
