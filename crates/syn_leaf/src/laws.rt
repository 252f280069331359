//! Laws of leaves of syntax: each literal has one value and one suffix, two leaves are equal exactly if they are the
//! same but for their spans, and what was read is printed as the tokens that it was read from, each where it stood.
//!
//! Each function does nothing; its contract is the law.

ghost use Rattle.proc_macro2.specs.Token.{Spanned, plain};
ghost use Rattle.rust_leaf.specs.Leaf.{ident_text, literal_text};
ghost use Rattle.rust_leaf.specs.Minus.{starts_with_minus};
ghost use Rattle.rust_leaf.specs.declared.ident.Ident.{Ident as Name};
ghost use Rattle.rust_escape.specs.declared.value.Value.{Value};
ghost use Rattle.rust_lex.specs.declared.piece.LiteralKind.{LiteralKind};
ghost use Rattle.std.specs.Cmp.{IsEquivalence};
ghost use Rattle.std.specs.Hash as fed;
ghost use Rattle.std.specs.Hash.{Alike};
ghost use Rattle.std.specs.Prelude.{[], ◌++◌, ◌≡◌, ◌↔◌, IsFalse, IsTrue, List, false, true, ℕ};
ghost use Rattle.syn_leaf.specs.Alike.{unspaced};
ghost use Rattle.syn_leaf.specs.Kinds.{IsKind, is_kind, kind_stands};
ghost use Rattle.syn_leaf.specs.Lits.{lit_text};
ghost use Rattle.syn_leaf.specs.Quoted.{HasSuffix, Spells};
ghost use Rattle.syn_leaf.specs.Reading.{LacksClass};
ghost use Rattle.syn_leaf.specs.Operators.{bin_op_text, range_limits_text, un_op_text};
ghost use Rattle.syn_leaf.specs.declared.member.Index.{Index as Number};
ghost use Rattle.syn_leaf.specs.declared.member.Member.TheVariants.{Named, Unnamed};
ghost use Rattle.syn_leaf.specs.declared.operators.BinOp.{BinOp as Binary};
ghost use Rattle.syn_leaf.specs.declared.operators.RangeLimits.{RangeLimits as Limits};
ghost use Rattle.syn_leaf.specs.declared.operators.UnOp.{UnOp as Unary};

use crate::boolean::LitBool;
use crate::lit::Lit;
use crate::literal::{LitClass, LitToken};
use crate::member::{Index, Member};
use crate::operators::{BinOp, RangeLimits, UnOp};
use std::hash::Hash;
use syn_error::to_tokens::ToTokens;
use syn_parse::Parse;

/// A literal in quotes spells one list of values, and a literal has one suffix.
pub fn one_value()
    ensures value { (kind : LiteralKind) (text : List ℕ) (xs ys : List Value) → Spells kind text xs
        → Spells kind text ys → xs ≡ ys }
    ensures suffix { (kind : LiteralKind) (text xs ys : List ℕ) → HasSuffix kind text xs → HasSuffix kind text ys
        → xs ≡ ys }
{}

/// The test of which literal a text is says what the lexical rules do, and a literal of a class stands first exactly
/// where one is read.
pub fn tested_kinds()
    ensures test { (kind : LiteralKind) (text : List ℕ) → (is_kind kind text ≡ true) ↔ IsKind kind text }
    ensures stands { (kind : LiteralKind) (ts : List Spanned) → (kind_stands kind (plain ts) ≡ false)
        ↔ LacksClass kind ts }
{}

/// Operators are equal exactly if they are written the same.
#[tactic(auto, using(crate::proofs::Texts::by_text))]
pub fn equal_operators()
    ensures binary { (a b : Binary) → IsTrue (⟦<BinOp as PartialEq>⟧.eq a b) ↔ (bin_op_text a ≡ bin_op_text b) }
    ensures unary { (a b : Unary) → IsTrue (⟦<UnOp as PartialEq>⟧.eq a b) ↔ (un_op_text a ≡ un_op_text b) }
    ensures limits { (a b : Limits) → IsTrue (⟦<RangeLimits as PartialEq>⟧.eq a b)
        ↔ (range_limits_text a ≡ range_limits_text b) }
{}

/// Literals of one class are equal exactly if they have one text, suffix included.
#[tactic(auto, using(crate::proofs::Texts::by_text))]
pub fn equal_of_class<C: LitClass>(a: &LitToken<C>, b: &LitToken<C>)
    ensures { IsTrue (⟦<LitToken<C> as PartialEq>⟧.eq a.now b.now)
        ↔ (literal_text a.now.token ≡ literal_text b.now.token) }
{}

/// And so are literals of any class.
#[tactic(auto, using(crate::proofs::Texts::by_text))]
pub fn equal_literals(a: &Lit, b: &Lit)
    ensures { IsTrue (⟦<Lit as PartialEq>⟧.eq a.now b.now) ↔ (lit_text a.now ≡ lit_text b.now) }
{}

/// Two of `true` and `false` are equal exactly if their values are.
pub fn equal_booleans(a: &LitBool, b: &LitBool)
    ensures { IsTrue (⟦<LitBool as PartialEq>⟧.eq a.now b.now) ↔ (a.now.value ≡ b.now.value) }
{}

/// Indices are equal exactly if their numbers are.
pub fn equal_indices(a: &Index, b: &Index)
    ensures { IsTrue (⟦<Index as PartialEq>⟧.eq a.now b.now) ↔ (a.now.index ≡ b.now.index) }
{}

/// Members are equal exactly if they are names of one text, or one number.
#[tactic(auto, using(crate::proofs::Texts::same_names))]
pub fn equal_members()
    ensures names { (i j : Name) → IsTrue (⟦<Member as PartialEq>⟧.eq (Named i) (Named j))
        ↔ (ident_text i ≡ ident_text j) }
    ensures numbers { (i j : Number) → IsTrue (⟦<Member as PartialEq>⟧.eq (Unnamed i) (Unnamed j))
        ↔ (i.index ≡ j.index) }
    ensures apart { (i : Name) (j : Number) → IsFalse (⟦<Member as PartialEq>⟧.eq (Named i) (Unnamed j)) }
    ensures and_back { (i : Number) (j : Name) → IsFalse (⟦<Member as PartialEq>⟧.eq (Unnamed i) (Named j)) }
{}

/// Equality of leaves is an equivalence.
pub fn equivalences<C: LitClass>()
    ensures of_class { IsEquivalence ⟦<LitToken<C> as PartialEq>⟧.eq }
    ensures literals { IsEquivalence ⟦<Lit as PartialEq>⟧.eq }
    ensures booleans { IsEquivalence ⟦<LitBool as PartialEq>⟧.eq }
    ensures indices { IsEquivalence ⟦<Index as PartialEq>⟧.eq }
    ensures members { IsEquivalence ⟦<Member as PartialEq>⟧.eq }
    ensures binary { IsEquivalence ⟦<BinOp as PartialEq>⟧.eq }
    ensures unary { IsEquivalence ⟦<UnOp as PartialEq>⟧.eq }
    ensures limits { IsEquivalence ⟦<RangeLimits as PartialEq>⟧.eq }
{}

/// Equal leaves are hashed alike, and an index is hashed as its number is, and a truth value as itself.
pub fn hashed_alike(index: &Index, literal: &LitBool)
    ensures by_number { ⟦<Index as Hash>⟧.hash_input index.now ≡ fed.u32 index.now.index }
    ensures by_value { ⟦<LitBool as Hash>⟧.hash_input literal.now ≡ fed.bool literal.now.value }
    ensures indices { Alike ⟦<Index as PartialEq>⟧.eq ⟦<Index as Hash>⟧.hash_input }
    ensures booleans { Alike ⟦<LitBool as PartialEq>⟧.eq ⟦<LitBool as Hash>⟧.hash_input }
    ensures members { Alike ⟦<Member as PartialEq>⟧.eq ⟦<Member as Hash>⟧.hash_input }
    ensures binary { Alike ⟦<BinOp as PartialEq>⟧.eq ⟦<BinOp as Hash>⟧.hash_input }
    ensures unary { Alike ⟦<UnOp as PartialEq>⟧.eq ⟦<UnOp as Hash>⟧.hash_input }
    ensures limits { Alike ⟦<RangeLimits as PartialEq>⟧.eq ⟦<RangeLimits as Hash>⟧.hash_input }
{}

/// A literal of a class that was read is printed as the token that it was read from, its span included.
pub fn kept_of_class<C: LitClass>(literal: &LitToken<C>)
    ensures { (ts us printed : List Spanned) → ⟦<LitToken<C> as Parse>⟧.reads ts literal.now us
        → ⟦<LitToken<C> as ToTokens>⟧.puts literal.now [] printed → ts ≡ printed ++ us }
{}

/// And so is a literal of any class, with `true` and `false`; one that begins with a minus is read of no text.
pub fn kept_literal(literal: &Lit)
    ensures { (ts us printed : List Spanned) → starts_with_minus (lit_text literal.now) ≡ false
        → ⟦<Lit as Parse>⟧.reads ts literal.now us → ⟦<Lit as ToTokens>⟧.puts literal.now [] printed
        → ts ≡ printed ++ us }
{}

/// An operator that was read is printed as its tokens, their spans included. How its last mark was spaced is not kept.
pub fn kept_operators()
    ensures binary { (ts us printed : List Spanned) (op : Binary) → ⟦<BinOp as Parse>⟧.reads ts op us
        → ⟦<BinOp as ToTokens>⟧.puts op [] printed → unspaced ts ≡ unspaced (printed ++ us) }
    ensures unary { (ts us printed : List Spanned) (op : Unary) → ⟦<UnOp as Parse>⟧.reads ts op us
        → ⟦<UnOp as ToTokens>⟧.puts op [] printed → unspaced ts ≡ unspaced (printed ++ us) }
    ensures limits { (ts us printed : List Spanned) (op : Limits) → ⟦<RangeLimits as Parse>⟧.reads ts op us
        → ⟦<RangeLimits as ToTokens>⟧.puts op [] printed → unspaced ts ≡ unspaced (printed ++ us) }
{}
