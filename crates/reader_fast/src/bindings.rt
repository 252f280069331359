//! Names that patterns bind.

ghost use Rattle.reader_tokens.specs.Tokens.{tokens};
ghost use Rattle.reader_fast.specs.Bindings.{IsBindingEnd, alternative, bound, only_alternative, only_pattern};
ghost use Rattle.reader_fast.specs.Read.{IsReadIn};
ghost use Rattle.proc_macro2.specs.Token as token;
ghost use Rattle.rust_leaf.specs.Leaf.{ident_text, punct_char, punct_spacing};
ghost use Rattle.std.specs.Prelude.{◌∷◌, ◌≡◌, IfOk, IfSome, IsTrue, None, true};
ghost use Rattle.syn_buffer.specs.Entries.{is_whole};
ghost use Rattle.syn_grammar.specs.Kind as kind;
ghost use Rattle.syn_grammar.specs.Words.{is_ident};
ghost use Rattle.syn_grammar.specs.Say.{marks};
ghost use Rattle.syn_grammar.specs.Tree as t;

use crate::names::colon;
use crate::parts::{found, none_before};
use reader_table::kind::Kind;
use reader_table::word::{Sign, Words};
use reader_tokens::leaf::word as passes;
use reader_tokens::sign::sign;
use reader_tree::arena::Arena;
use reader_tree::made;
use reader_tree::tree::Tree;
use rust_leaf::ident::Ident;
use rust_leaf::punct::{Punct, Spacing};
use std::alloc::AllocError;
use syn_buffer::entry::Entry;

// Whether nothing goes on with a name of a pattern, where a colon stands behind it.
fn ends_at_colon(mark: &Punct, rest: &[Entry<'_>]) -> bool
    requires colon { punct_char mark.now ≡ 58 }
    requires whole { IsTrue (is_whole rest.now) }
    ensures { IsTrue result
        → IsBindingEnd (token.Punct (punct_char mark.now) (punct_spacing mark.now) ∷ tokens rest.now) }
{
    match mark.spacing() {
        Spacing::Joint => match colon(rest) {
            Some(_) => false,
            None => true,
        },
        Spacing::Alone => true,
    }
}

// Whether nothing goes on with a name of a pattern, where a mark stands behind it.
fn ends_at_mark(mark: &Punct, rest: &[Entry<'_>]) -> bool
    requires { IsTrue (is_whole rest.now) }
    ensures { IsTrue result
        → IsBindingEnd (token.Punct (punct_char mark.now) (punct_spacing mark.now) ∷ tokens rest.now) }
{
    let character = mark.as_char();
    if character == ':' {
        return ends_at_colon(mark, rest);
    }
    character != '.' && character != '!' && character != '@'
}

// Whether nothing goes on with a name of a pattern.
fn ends(at: &[Entry<'_>]) -> bool
    requires { IsTrue (is_whole at.now) }
    ensures { IsTrue result → IsBindingEnd (tokens at.now) }
{
    let Some((first, rest)) = at.split_first() else {
        return true;
    };
    match *first {
        Entry::Punct(mark) => ends_at_mark(mark, rest),
        Entry::Open(..) => false,
        Entry::Close(..) => true,
        Entry::Ident(_) => true,
        Entry::Literal(_) => true,
    }
}

// The name that stands first, where it is one that a pattern binds, and what is left behind it.
fn first_bound<'a>(at: &'a [Entry<'a>]) -> Option<(&'a Ident, &'a [Entry<'a>])>
    requires { IsTrue (is_whole at.now) }
    ensures first { IfSome result (λ r. tokens at.now ≡ token.Ident (ident_text r.0.now) ∷ tokens r.1.now) }
    ensures ident { IfSome result (λ r. is_ident (ident_text r.0.now) ≡ true) }
    ensures end { IfSome result (λ r. IsBindingEnd (tokens r.1.now)) }
    ensures whole { IfSome result (λ r. IsTrue (is_whole r.1.now)) }
{
    let (first, rest) = at.split_first()?;
    let Entry::Ident(name) = *first else {
        return None;
    };
    if !ends(rest) {
        return None;
    }
    if passes(Words::Ident, name) {
        Some((name, rest))
    } else {
        None
    }
}

// The name, and no pattern behind it.
fn name_alone<'a>(arena: &'a Arena, name: &'a Ident) -> Result<Tree<'a>, AllocError>
    ensures { IfOk result (λ x. x ≡ t.Pair (t.AWord (ident_text name.now)) (t.Second (t.Second t.Nil))) }
{
    made::pair(
        arena,
        made::word(name),
        made::seconds(arena, 2, made::nil())?,
    )
}

// The name, with no `mut` before it.
fn unchanging<'a>(arena: &'a Arena, name: &'a Ident) -> Result<Tree<'a>, AllocError>
    ensures { IfOk result (λ x. x ≡ t.Pair (t.Second t.Nil)
        (t.Pair (t.AWord (ident_text name.now)) (t.Second (t.Second t.Nil)))) }
{
    none_before(arena, name_alone(arena, name)?)
}

// The name, as it is bound.
fn bound<'a>(arena: &'a Arena, name: &'a Ident) -> Result<Tree<'a>, AllocError>
    ensures { IfOk result (λ x. x ≡ bound (ident_text name.now)) }
{
    let by_value = none_before(arena, unchanging(arena, name)?)?;
    made::node(arena, Kind::IdentPattern, by_value)
}

// The name, as one alternative.
fn alternative<'a>(arena: &'a Arena, name: &'a Ident) -> Result<Tree<'a>, AllocError>
    ensures { IfOk result (λ x. x ≡ alternative (ident_text name.now)) }
{
    let choice = made::first(arena, bound(arena, name)?)?;
    made::node(arena, Kind::OnePattern, choice)
}

// The name, as one alternative, and no others behind it.
fn one_turn<'a>(arena: &'a Arena, name: &'a Ident) -> Result<Tree<'a>, AllocError>
    ensures { IfOk result (λ x. x ≡ t.Pair (alternative (ident_text name.now)) t.End) }
{
    made::pair(arena, alternative(arena, name)?, made::no_turns())
}

// The name, as the only alternative.
fn only_alternative<'a>(arena: &'a Arena, name: &'a Ident) -> Result<Tree<'a>, AllocError>
    ensures { IfOk result (λ x. x ≡ only_alternative (ident_text name.now)) }
{
    made::node(arena, Kind::SeveralPatterns, one_turn(arena, name)?)
}

// The name, as a pattern.
fn only_pattern<'a>(arena: &'a Arena, name: &'a Ident) -> Result<Tree<'a>, AllocError>
    ensures { IfOk result (λ x. x ≡ only_pattern (ident_text name.now)) }
{
    let from_front = none_before(arena, one_turn(arena, name)?)?;
    made::node(arena, Kind::Pattern, from_front)
}

/// A name that is bound.
///
/// # Errors
///
/// Where there is no memory for it.
pub(crate) fn ident_pattern<'a>(
    arena: &'a Arena,
    at: &'a [Entry<'a>],
) -> Result<Option<(Tree<'a>, &'a [Entry<'a>])>, AllocError>
    requires { IsTrue (is_whole at.now) }
    ensures read { IfOk result (λ o. IfSome o (λ x.
        IsReadIn 1 kind.IdentPattern (tokens at.now) x.0 (tokens x.1.now))) }
    ensures whole { IfOk result (λ o. IfSome o (λ x. IsTrue (is_whole x.1.now))) }
{
    match first_bound(at) {
        Some((name, rest)) => found(bound(arena, name), rest),
        None => Ok(None),
    }
}

/// One alternative that is a name.
///
/// # Errors
///
/// Where there is no memory for it.
pub(crate) fn one_pattern<'a>(
    arena: &'a Arena,
    at: &'a [Entry<'a>],
) -> Result<Option<(Tree<'a>, &'a [Entry<'a>])>, AllocError>
    requires { IsTrue (is_whole at.now) }
    ensures read { IfOk result (λ o. IfSome o (λ x.
        IsReadIn 2 kind.OnePattern (tokens at.now) x.0 (tokens x.1.now))) }
    ensures whole { IfOk result (λ o. IfSome o (λ x. IsTrue (is_whole x.1.now))) }
{
    match first_bound(at) {
        Some((name, rest)) => found(alternative(arena, name), rest),
        None => Ok(None),
    }
}

// The name that stands first, where a pattern binds it and no `|` stands behind it.
fn only_bound<'a>(at: &'a [Entry<'a>]) -> Option<(&'a Ident, &'a [Entry<'a>])>
    requires { IsTrue (is_whole at.now) }
    ensures first { IfSome result (λ r. tokens at.now ≡ token.Ident (ident_text r.0.now) ∷ tokens r.1.now) }
    ensures ident { IfSome result (λ r. is_ident (ident_text r.0.now) ≡ true) }
    ensures end { IfSome result (λ r. IsBindingEnd (tokens r.1.now)) }
    ensures only { IfSome result (λ r. marks "|" (tokens r.1.now) ≡ None) }
    ensures whole { IfSome result (λ r. IsTrue (is_whole r.1.now)) }
{
    let (name, rest) = first_bound(at)?;
    match sign(Sign::Or, rest) {
        Some(_) => None,
        None => Some((name, rest)),
    }
}

/// Alternatives without a `|` in front, of which there is one, which is a name.
///
/// # Errors
///
/// Where there is no memory for it.
pub(crate) fn several_patterns<'a>(
    arena: &'a Arena,
    at: &'a [Entry<'a>],
) -> Result<Option<(Tree<'a>, &'a [Entry<'a>])>, AllocError>
    requires { IsTrue (is_whole at.now) }
    ensures read { IfOk result (λ o. IfSome o (λ x.
        IsReadIn 3 kind.SeveralPatterns (tokens at.now) x.0 (tokens x.1.now))) }
    ensures whole { IfOk result (λ o. IfSome o (λ x. IsTrue (is_whole x.1.now))) }
{
    match only_bound(at) {
        Some((name, rest)) => found(only_alternative(arena, name), rest),
        None => Ok(None),
    }
}

/// A pattern that is a name.
///
/// # Errors
///
/// Where there is no memory for it.
pub(crate) fn pattern<'a>(
    arena: &'a Arena,
    at: &'a [Entry<'a>],
) -> Result<Option<(Tree<'a>, &'a [Entry<'a>])>, AllocError>
    requires { IsTrue (is_whole at.now) }
    ensures read { IfOk result (λ o. IfSome o (λ x.
        IsReadIn 3 kind.Pattern (tokens at.now) x.0 (tokens x.1.now))) }
    ensures whole { IfOk result (λ o. IfSome o (λ x. IsTrue (is_whole x.1.now))) }
{
    match only_bound(at) {
        Some((name, rest)) => found(only_pattern(arena, name), rest),
        None => Ok(None),
    }
}
