//! Members of structs: by name, or by number.

ghost use Rattle.proc_macro2.specs.Flat.{spanned, tree_tokens};
ghost use Rattle.proc_macro2.specs.Token as token;
ghost use Rattle.proc_macro2.specs.declared.tree.TokenTree.TheVariants as tree;
ghost use Rattle.rust_map.specs.Spans.{call_site};
ghost use Rattle.std.specs.Fmt.{decimal};
ghost use Rattle.std.specs.Prelude.{[], ◌++◌, ◌∷◌, ◌≡◌};
ghost use Rattle.syn_leaf.specs.Members.{Shown, member_tokens, number_tokens, shown};

use proc_macro2::tree::{TokenStream, TokenTree};
use rust_leaf::ident::Ident;
use rust_leaf::literal::Literal;
use rust_map::span::Span;
use std::alloc::AllocError;
use syn_error::to_tokens::ToTokens;
use try_clone::TryClone;

/// The number of a member without a name, from 0. Two of them are equal by their numbers, wherever they stand.
#[derive(Clone, Copy, Debug)]
#[derive_where(PartialEq, Eq, Hash)]
pub struct Index {
    /// The number.
    pub index: u32,
    /// Where it stands.
    #[derive_where(skip(EqHashOrd))]
    pub span: Span,
}

impl From<u32> for Index {
    ghost from_gives = { λ number index. index ≡ record { index = number; span = call_site } };

    /// The number, which stands at the call site.
    fn from(index: u32) -> Index {
        Index {
            index,
            span: Span::call_site(),
        }
    }
}

#[tactic(auto, using(crate::proofs::Indices::entered))]
impl ToTokens for Index {
    ghost puts = { λ index old new. new ≡ old ++ number_tokens index };

    /// Adds the number in plain decimal, without a suffix.
    fn to_tokens(&self, tokens: &mut TokenStream) -> Result<(), AllocError> {
        let mut literal = Literal::u32_unsuffixed(tokens.allocator(), self.index)?;
        literal.set_span(self.span);
        tokens.push_tree(TokenTree::Literal(literal))
    }
}

impl TryClone for Index {
    ghost use Rattle.syn_leaf.specs.declared.member.Index.{Index as Number};

    ghost Shown = { Number };

    ghost shown = { λ index. index };

    /// A copy, which takes no memory.
    fn try_clone(&self) -> Result<Index, AllocError> {
        Ok(*self)
    }
}

/// A member of a struct. Two are equal by their names or numbers, wherever they stand.
#[derive(Debug, Drop, PartialEq, Eq, Hash)]
pub enum Member {
    /// By its name, as in `point.x`.
    Named(Ident),
    /// By its number, as in `pair.0`.
    Unnamed(Index),
}

impl From<Ident> for Member {
    ghost use Rattle.syn_leaf.specs.declared.member.Member.TheVariants.{Named};

    ghost from_gives = { λ name member. member ≡ Named name };

    fn from(name: Ident) -> Member {
        Member::Named(name)
    }
}

impl From<Index> for Member {
    ghost use Rattle.syn_leaf.specs.declared.member.Member.TheVariants.{Unnamed};

    ghost from_gives = { λ index member. member ≡ Unnamed index };

    fn from(index: Index) -> Member {
        Member::Unnamed(index)
    }
}

impl From<u32> for Member {
    ghost use Rattle.syn_leaf.specs.declared.member.Member.TheVariants.{Unnamed};

    ghost from_gives = { λ number member. member ≡ Unnamed (record { index = number; span = call_site }) };

    /// The member of that number, which stands at the call site.
    fn from(index: u32) -> Member {
        Member::Unnamed(Index::from(index))
    }
}

impl ToTokens for Member {
    ghost puts = { λ member old new. new ≡ old ++ member_tokens member };

    fn to_tokens(&self, tokens: &mut TokenStream) -> Result<(), AllocError> {
        match self {
            Member::Named(name) => name.to_tokens(tokens),
            Member::Unnamed(index) => index.to_tokens(tokens),
        }
    }
}

impl TryClone for Member {
    ghost Shown = { Shown };

    ghost shown = { shown };

    fn try_clone(&self) -> Result<Member, AllocError> {
        match self {
            Member::Named(name) => Ok(Member::Named(name.try_clone()?)),
            Member::Unnamed(index) => Ok(Member::Unnamed(*index)),
        }
    }
}
