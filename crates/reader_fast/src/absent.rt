//! Parts that may be absent, where none stands; and `pub` alone.

ghost use Rattle.reader_tokens.specs.Tokens.{tokens};
ghost use Rattle.reader_fast.specs.Absent.{IsToldBy, LacksMark, nothing, public};
ghost use Rattle.reader_fast.specs.Read.{IsReadIn};
ghost use Rattle.reader_table.specs.Kinds.{kind_of};
ghost use Rattle.proc_macro2.specs.Token as token;
ghost use Rattle.rust_leaf.specs.Leaf.{ident_text};
ghost use Rattle.std.specs.Prelude.{◌∷◌, ◌≡◌, IfNone, IfOk, IfSome, IsTrue, None, codes, true};
ghost use Rattle.syn_buffer.specs.Entries.{is_whole};
ghost use Rattle.syn_grammar.specs.Kind as kind;
ghost use Rattle.syn_grammar.specs.Name.{the_pub};
ghost use Rattle.syn_grammar.specs.Say.{at as word_stands, parenthesis as opens_parenthesis};
ghost use Rattle.syn_grammar.specs.Tree as t;
ghost use Rattle.rust_leaf.specs.Keywords.{same_text};

use crate::parts::found;
use reader_table::kind::Kind;
use reader_table::part::Part;
use reader_table::word::{Keyword, Sign, Words};
use reader_tokens::leaf::{first_word, word as passes};
use reader_tokens::sign::sign;
use reader_tree::arena::Arena;
use reader_tree::made;
use reader_tree::tree::Tree;
use rust_leaf::ident::Ident;
use std::alloc::AllocError;
use syn_buffer::entry::Entry;

// A node of the kind, without turns.
fn without_turns<'a>(arena: &'a Arena, kind: Kind) -> Result<Tree<'a>, AllocError>
    ensures { IfOk result (λ x. x ≡ t.Node (kind_of kind) t.End) }
{
    made::node(arena, kind, made::no_turns())
}

// The node of the kind, of a part that is absent.
fn nothing<'a>(arena: &'a Arena, kind: Kind) -> Result<Tree<'a>, AllocError>
    ensures { IfOk result (λ x. x ≡ nothing (kind_of kind)) }
{
    made::node(arena, kind, made::second(arena, made::nil())?)
}

// The mark with which a part of the kind begins, where it may be absent.
fn first_mark(kind: Kind) -> Option<char>
    ensures { IfSome result (λ c. IsToldBy (kind_of kind) c) }
{
    match kind {
        Kind::Generics => Some('<'),
        Kind::ImplGenerics => Some('<'),
        Kind::LifetimeColon => Some(':'),
        Kind::BoundsColon => Some(':'),
        Kind::ReturnType(_) => Some('-'),
        _ => None,
    }
}

// Whether no such mark stands first.
#[tactic(auto, using(crate::proofs::NoneStand::lacks_other, crate::proofs::NoneStand::lacks_any))]
fn lacks(character: char, at: &[Entry<'_>]) -> bool
    ensures { IsTrue result → LacksMark character (tokens at.now) }
{
    match reader_tokens::sign::first_mark(at) {
        Some((mark, _)) => mark.as_char() != character,
        None => true,
    }
}

/// A part that begins with a mark by which it is known, where none stands.
///
/// # Errors
///
/// Where there is no memory for it.
pub(crate) fn unmarked<'a>(
    arena: &'a Arena,
    kind: Kind,
    at: &'a [Entry<'a>],
) -> Result<Option<(Tree<'a>, &'a [Entry<'a>])>, AllocError>
    requires { IsTrue (is_whole at.now) }
    ensures read { IfOk result (λ o. IfSome o (λ x.
        IsReadIn 1 (kind_of kind) (tokens at.now) x.0 (tokens x.1.now))) }
    ensures whole { IfOk result (λ o. IfSome o (λ x. IsTrue (is_whole x.1.now))) }
{
    let Some(character) = first_mark(kind) else {
        return Ok(None);
    };
    if lacks(character, at) {
        found(nothing(arena, kind), at)
    } else {
        Ok(None)
    }
}

/// A where clause, where none stands.
///
/// # Errors
///
/// Where there is no memory for it.
pub(crate) fn no_where<'a>(
    arena: &'a Arena,
    at: &'a [Entry<'a>],
) -> Result<Option<(Tree<'a>, &'a [Entry<'a>])>, AllocError>
    requires { IsTrue (is_whole at.now) }
    ensures read { IfOk result (λ o. IfSome o (λ x.
        IsReadIn 1 kind.Where (tokens at.now) x.0 (tokens x.1.now))) }
    ensures whole { IfOk result (λ o. IfSome o (λ x. IsTrue (is_whole x.1.now))) }
{
    match first_word(Words::Keyword(Keyword::Where), at) {
        Some(_) => Ok(None),
        None => found(nothing(arena, Kind::Where), at),
    }
}

// `pub`, and no restriction behind it.
fn pub_alone<'a>(arena: &'a Arena, word: &'a Ident) -> Result<Tree<'a>, AllocError>
    ensures { IfOk result (λ x. x ≡ t.Pair (t.Called the_pub (t.AWord (ident_text word.now))) (t.Second t.Nil)) }
{
    let named = made::called(arena, Part::Pub, made::word(word))?;
    made::pair(arena, named, made::second(arena, made::nil())?)
}

// The node of `pub` alone.
fn public<'a>(arena: &'a Arena, word: &'a Ident) -> Result<Tree<'a>, AllocError>
    ensures { IfOk result (λ x. x ≡ public (ident_text word.now)) }
{
    let alone = made::first(arena, pub_alone(arena, word)?)?;
    made::node(arena, Kind::Visibility, alone)
}

// The `pub` that stands first, and what is left behind it.
fn first_pub<'a>(at: &'a [Entry<'a>]) -> Option<(&'a Ident, &'a [Entry<'a>])>
    requires { IsTrue (is_whole at.now) }
    ensures none { IfNone result (word_stands "pub" (tokens at.now) ≡ None) }
    ensures first { IfSome result (λ r. tokens at.now ≡ token.Ident (ident_text r.0.now) ∷ tokens r.1.now) }
    ensures text { IfSome result (λ r. same_text (codes "pub") (ident_text r.0.now) ≡ true) }
    ensures whole { IfSome result (λ r. IsTrue (is_whole r.1.now)) }
{
    let (first, rest) = at.split_first()?;
    match *first {
        Entry::Ident(word) => {
            if passes(Words::Keyword(Keyword::Pub), word) {
                Some((word, rest))
            } else {
                None
            }
        }
        Entry::Open(..) => None,
        Entry::Close(..) => None,
        Entry::Punct(_) => None,
        Entry::Literal(_) => None,
    }
}

// Whether no group opens first.
fn opens_none(at: &[Entry<'_>]) -> bool
    ensures { IsTrue result → opens_parenthesis (tokens at.now) ≡ None }
{
    let Some((first, _)) = at.split_first() else {
        return true;
    };
    match *first {
        Entry::Open(..) => false,
        Entry::Close(..) => true,
        Entry::Ident(_) => true,
        Entry::Punct(_) => true,
        Entry::Literal(_) => true,
    }
}

/// Outer attributes, where none stands.
///
/// # Errors
///
/// Where there is no memory for them.
pub(crate) fn outer_attributes<'a>(
    arena: &'a Arena,
    at: &'a [Entry<'a>],
) -> Result<Option<(Tree<'a>, &'a [Entry<'a>])>, AllocError>
    requires { IsTrue (is_whole at.now) }
    ensures read { IfOk result (λ o. IfSome o (λ x.
        IsReadIn 2 kind.OuterAttributes (tokens at.now) x.0 (tokens x.1.now))) }
    ensures whole { IfOk result (λ o. IfSome o (λ x. IsTrue (is_whole x.1.now))) }
{
    match sign(Sign::Pound, at) {
        Some(_) => Ok(None),
        None => found(without_turns(arena, Kind::OuterAttributes), at),
    }
}

/// Inner attributes, where none stands.
///
/// # Errors
///
/// Where there is no memory for them.
pub(crate) fn inner_attributes<'a>(
    arena: &'a Arena,
    at: &'a [Entry<'a>],
) -> Result<Option<(Tree<'a>, &'a [Entry<'a>])>, AllocError>
    requires { IsTrue (is_whole at.now) }
    ensures read { IfOk result (λ o. IfSome o (λ x.
        IsReadIn 2 kind.InnerAttributes (tokens at.now) x.0 (tokens x.1.now))) }
    ensures whole { IfOk result (λ o. IfSome o (λ x. IsTrue (is_whole x.1.now))) }
{
    match sign(Sign::Pound, at) {
        Some(_) => Ok(None),
        None => found(without_turns(arena, Kind::InnerAttributes), at),
    }
}

/// Visibility, where none stands, or `pub` alone.
///
/// # Errors
///
/// Where there is no memory for it.
pub(crate) fn visibility<'a>(
    arena: &'a Arena,
    at: &'a [Entry<'a>],
) -> Result<Option<(Tree<'a>, &'a [Entry<'a>])>, AllocError>
    requires { IsTrue (is_whole at.now) }
    ensures read { IfOk result (λ o. IfSome o (λ x.
        IsReadIn 1 kind.Visibility (tokens at.now) x.0 (tokens x.1.now))) }
    ensures whole { IfOk result (λ o. IfSome o (λ x. IsTrue (is_whole x.1.now))) }
{
    let Some((word, rest)) = first_pub(at) else {
        return found(nothing(arena, Kind::Visibility), at);
    };
    if !opens_none(rest) {
        return Ok(None);
    }
    found(public(arena, word), rest)
}
