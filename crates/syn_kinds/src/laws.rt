//! Laws of kinds and of lifetimes that are compared: where they stand is not looked at. So all of one kind are equal,
//! and lifetimes are compared by their identifiers.
//!
//! Each function does nothing; its contract is the law.

ghost use Rattle.rust_leaf.specs.Leaf.{ident_text};
ghost use Rattle.std.specs.Cmp.{Agrees, IsEquivalence, IsTotalOrder};
ghost use Rattle.std.specs.Hash.{Alike};
ghost use Rattle.std.specs.Prelude.{◌≡◌, ◌↔◌, IsTrue};
ghost use Rattle.std.specs.declared.cmp.Ordering.TheVariants.{Equal};

use crate::delimiters::Delimiters;
use crate::group::Group;
use crate::keyword::Keyword;
use crate::lifetime::Lifetime;
use crate::markers::Nothing;
use crate::punctuation::Punctuation;
use crate::underscore::Underscore;
use rust_leaf::ident::Ident;
use rust_leaf::laws::{equality_is_by_text, order_agrees};
use std::hash::Hash;

/// All keywords of one kind are equal, and are hashed alike.
pub fn equal_keywords<const K: usize>(a: &Keyword<K>, b: &Keyword<K>)
    ensures equal { IsTrue (⟦<Keyword<K> as PartialEq>⟧.eq a.now b.now) }
    ensures hash { ⟦<Keyword<K> as Hash>⟧.hash_input a.now ≡ ⟦<Keyword<K> as Hash>⟧.hash_input b.now }
{}

/// And so are all punctuations of one kind,
pub fn equal_punctuations<const K: usize, const N: usize>(
    a: &Punctuation<K, N>,
    b: &Punctuation<K, N>,
)
    ensures equal { IsTrue (⟦<Punctuation<K, N> as PartialEq>⟧.eq a.now b.now) }
    ensures hash { ⟦<Punctuation<K, N> as Hash>⟧.hash_input a.now ≡ ⟦<Punctuation<K, N> as Hash>⟧.hash_input b.now }
{}

/// all delimiters of one kind,
pub fn equal_delimiters<const D: usize>(a: &Delimiters<D>, b: &Delimiters<D>)
    ensures equal { IsTrue (⟦<Delimiters<D> as PartialEq>⟧.eq a.now b.now) }
    ensures hash { ⟦<Delimiters<D> as Hash>⟧.hash_input a.now ≡ ⟦<Delimiters<D> as Hash>⟧.hash_input b.now }
{}

/// what encloses invisible groups,
pub fn equal_groups(a: &Group, b: &Group)
    ensures equal { IsTrue (⟦<Group as PartialEq>⟧.eq a.now b.now) }
    ensures hash { ⟦<Group as Hash>⟧.hash_input a.now ≡ ⟦<Group as Hash>⟧.hash_input b.now }
{}

/// underscores,
pub fn equal_underscores(a: &Underscore, b: &Underscore)
    ensures equal { IsTrue (⟦<Underscore as PartialEq>⟧.eq a.now b.now) }
    ensures hash { ⟦<Underscore as Hash>⟧.hash_input a.now ≡ ⟦<Underscore as Hash>⟧.hash_input b.now }
{}

/// and what is no token.
pub fn equal_nothings(a: &Nothing, b: &Nothing)
    ensures equal { IsTrue (⟦<Nothing as PartialEq>⟧.eq a.now b.now) }
    ensures hash { ⟦<Nothing as Hash>⟧.hash_input a.now ≡ ⟦<Nothing as Hash>⟧.hash_input b.now }
{}

/// Two lifetimes are equal exactly if their identifiers have one text, wherever they stand. That is an equivalence.
pub fn equal_lifetimes(a: &Lifetime, b: &Lifetime)
    ensures by_text { IsTrue (⟦<Lifetime as PartialEq>⟧.eq a.now b.now)
        ↔ (ident_text a.now.ident ≡ ident_text b.now.ident) }
    ensures equivalence { IsEquivalence ⟦<Lifetime as PartialEq>⟧.eq }
{
    equality_is_by_text(&a.ident, &b.ident);
}

/// Lifetimes are ordered as their identifiers are. That is a total order, which answers `Equal` exactly for equal ones.
pub fn ordered_lifetimes(a: &Lifetime, b: &Lifetime)
    ensures by_ident { ⟦<Lifetime as Ord>⟧.cmp a.now b.now ≡ ⟦<Ident as Ord>⟧.cmp a.now.ident b.now.ident }
    ensures total { IsTotalOrder ⟦<Lifetime as Ord>⟧.cmp }
    ensures partial { Agrees ⟦<Lifetime as PartialOrd>⟧.partial_cmp ⟦<Lifetime as Ord>⟧.cmp }
    ensures agrees { (⟦<Lifetime as Ord>⟧.cmp a.now b.now ≡ Equal)
        ↔ IsTrue (⟦<Lifetime as PartialEq>⟧.eq a.now b.now) }
{
    order_agrees(&a.ident, &b.ident);
}

/// A lifetime is hashed as its identifier is, so equal ones are hashed alike.
pub fn hashed_lifetimes(lifetime: &Lifetime)
    ensures by_ident { ⟦<Lifetime as Hash>⟧.hash_input lifetime.now ≡ ⟦<Ident as Hash>⟧.hash_input lifetime.now.ident }
    ensures alike { Alike ⟦<Lifetime as PartialEq>⟧.eq ⟦<Lifetime as Hash>⟧.hash_input }
{}
