//! Paths of names alone, and types that are such paths.

ghost use Rattle.reader_tokens.specs.Tokens.{tokens};
ghost use Rattle.reader_fast.specs.Names.{IsBegin, IsBehind, IsName, IsNamed, IsPassed, IsPathEnd, IsWholeBegin};
ghost use Rattle.reader_fast.specs.Names.{IsWholeBehind};
ghost use Rattle.reader_fast.specs.Names.{by_name, nothing_behind, others_behind, segments_of};
ghost use Rattle.reader_fast.specs.Names.{further_segments as further, last_segment as alone, path_of, type_of};
ghost use Rattle.reader_fast.specs.Names.{unqualified};
ghost use Rattle.reader_fast.specs.Read.{IsReadIn};
ghost use Rattle.reader_table.specs.Kinds.{plus_of, style_of};
ghost use Rattle.proc_macro2.specs.Token as token;
ghost use Rattle.rust_leaf.specs.Leaf.{ident_text, punct_char, punct_spacing};
ghost use Rattle.std.specs.Prelude.{◌∷◌, ◌≡◌, IfNone, IfOk, IfSome, IsTrue, List, None};
ghost use Rattle.syn_buffer.specs.Entries.{is_whole};
ghost use Rattle.syn_grammar.specs.Kind as kind;
ghost use Rattle.syn_grammar.specs.Say.{marks};

use crate::parts::{found, none_before};
use proc_macro2::delimiter::Delimiter;
use reader_table::kind::{Kind, Plus, Style};
use reader_table::word::{Sign, Words};
use reader_tokens::leaf::word as passes;
use reader_tree::arena::Arena;
use reader_tree::made;
use reader_tree::tree::Tree;
use rust_leaf::ident::Ident;
use rust_leaf::punct::{Punct, Spacing};
use rust_map::span::Span;
use std::alloc::AllocError;
use syn_buffer::entry::Entry;

/// How many names a path has at most that is read here. A longer one is followed through the table, name by name, to
/// where so many are left: so what is tried for nothing stays within a bound.
pub(crate) const NAMES: usize = 4;

// What a name of a path is.
#[derive(Clone, Copy)]
pub(crate) enum Name {
    // One that may take arguments.
    Plain,
    // `self`, `super` or `crate`.
    Keyword,
}

// What the word is as a name of a path.
fn name_of(word: &Ident) -> Option<Name>
    ensures { IfSome result (λ n. IsName n (ident_text word.now)) }
{
    if passes(Words::PlainName, word) {
        return Some(Name::Plain);
    }
    if passes(Words::PathKeyword, word) {
        return Some(Name::Keyword);
    }
    None
}

// What stands behind a name of a path.
pub(crate) enum Behind<'a> {
    // Nothing that goes on with the path.
    Nothing,
    // `::`: how its second mark is spaced, where its first one stands, and what is left behind it.
    Name(Spacing, Span, &'a [Entry<'a>]),
    // Something else: arguments, perhaps.
    Other,
}

/// How a colon that stands first is spaced, and what is left behind it.
pub(crate) fn colon<'a>(at: &'a [Entry<'a>]) -> Option<(Spacing, &'a [Entry<'a>])>
    requires { IsTrue (is_whole at.now) }
    ensures colon { IfSome result (λ r. tokens at.now ≡ token.Punct 58 r.0 ∷ tokens r.1.now) }
    ensures none { IfNone result (marks ":" (tokens at.now) ≡ None) }
    ensures whole { IfSome result (λ r. IsTrue (is_whole r.1.now)) }
{
    let Some((first, rest)) = at.split_first() else {
        return None;
    };
    match *first {
        Entry::Punct(mark) => {
            if mark.as_char() == ':' {
                Some((mark.spacing(), rest))
            } else {
                None
            }
        }
        Entry::Open(..) => None,
        Entry::Close(..) => None,
        Entry::Ident(_) => None,
        Entry::Literal(_) => None,
    }
}

// What stands behind a name of a path, where a colon stands there.
fn colon_behind<'a>(mark: &'a Punct, rest: &'a [Entry<'a>]) -> Behind<'a>
    requires colon { punct_char mark.now ≡ 58 }
    requires whole { IsTrue (is_whole rest.now) }
    ensures behind { (s : kind.Style) → IsBehind s
        (token.Punct (punct_char mark.now) (punct_spacing mark.now) ∷ tokens rest.now) result }
    ensures whole { IsWholeBehind result }
{
    match mark.spacing() {
        Spacing::Joint => match colon(rest) {
            Some((spacing, others)) => Behind::Name(spacing, mark.span(), others),
            None => Behind::Other,
        },
        Spacing::Alone => Behind::Other,
    }
}

// Whether nothing goes on with a path where `<` stands behind a name.
fn ends_at_less(style: Style) -> bool
    ensures { (spacing : Spacing) (ts : List token.Token) → IsTrue result
        → IsPathEnd (style_of style) (token.Punct 60 spacing ∷ ts) }
{
    match style {
        Style::InModule => true,
        Style::InExpression => true,
        Style::InType => false,
        Style::AtType => false,
    }
}

// What stands behind a name of a path, where a mark stands there.
fn mark_behind<'a>(style: Style, mark: &'a Punct, rest: &'a [Entry<'a>]) -> Behind<'a>
    requires { IsTrue (is_whole rest.now) }
    ensures behind { IsBehind (style_of style)
        (token.Punct (punct_char mark.now) (punct_spacing mark.now) ∷ tokens rest.now) result }
    ensures whole { IsWholeBehind result }
{
    let character = mark.as_char();
    if character == ':' {
        return colon_behind(mark, rest);
    }
    if character == '<' && !ends_at_less(style) {
        return Behind::Other;
    }
    Behind::Nothing
}

// What stands behind a name of a path, where a group opens there.
fn group_behind<'a>(style: Style, delimiter: Delimiter) -> Behind<'a>
    ensures behind { (ts : List token.Token) → IsBehind (style_of style) (token.Opens delimiter ∷ ts) result }
    ensures whole { IsWholeBehind result }
{
    match delimiter {
        Delimiter::Parenthesis => match style {
            Style::AtType => Behind::Other,
            Style::InModule => Behind::Nothing,
            Style::InExpression => Behind::Nothing,
            Style::InType => Behind::Nothing,
        },
        Delimiter::Brace => Behind::Nothing,
        Delimiter::Bracket => Behind::Nothing,
        Delimiter::None => Behind::Nothing,
    }
}

// What stands behind a name of a path.
fn look_behind<'a>(style: Style, at: &'a [Entry<'a>]) -> Behind<'a>
    requires { IsTrue (is_whole at.now) }
    ensures behind { IsBehind (style_of style) (tokens at.now) result }
    ensures whole { IsWholeBehind result }
{
    let Some((first, rest)) = at.split_first() else {
        return Behind::Nothing;
    };
    match *first {
        Entry::Punct(mark) => mark_behind(style, mark, rest),
        Entry::Open(delimiter, _, _) => group_behind(style, delimiter),
        Entry::Close(..) => Behind::Nothing,
        Entry::Ident(_) => Behind::Nothing,
        Entry::Literal(_) => Behind::Nothing,
    }
}

// How a path begins.
pub(crate) enum Beginning<'a> {
    // With its last name; what is left behind that.
    Last(Name, &'a Ident, &'a [Entry<'a>]),
    // With a name and `::`: how its second mark is spaced, where its first one stands, and what is left behind it.
    Further(Name, &'a Ident, Spacing, Span, &'a [Entry<'a>]),
    // With something else, or none stands there.
    Other,
}

// How a path begins that begins with the word.
fn begin_with<'a>(style: Style, word: &'a Ident, rest: &'a [Entry<'a>]) -> Beginning<'a>
    requires { IsTrue (is_whole rest.now) }
    ensures begin { IsBegin (style_of style) (token.Ident (ident_text word.now) ∷ tokens rest.now) result }
    ensures whole { IsWholeBegin result }
{
    match look_behind(style, rest) {
        Behind::Nothing => match name_of(word) {
            Some(name) => Beginning::Last(name, word, rest),
            None => Beginning::Other,
        },
        Behind::Name(spacing, span, others) => match name_of(word) {
            Some(name) => Beginning::Further(name, word, spacing, span, others),
            None => Beginning::Other,
        },
        Behind::Other => Beginning::Other,
    }
}

// How a path begins.
fn begin<'a>(style: Style, at: &'a [Entry<'a>]) -> Beginning<'a>
    requires { IsTrue (is_whole at.now) }
    ensures begin { IsBegin (style_of style) (tokens at.now) result }
    ensures whole { IsWholeBegin result }
{
    let Some((first, rest)) = at.split_first() else {
        return Beginning::Other;
    };
    match *first {
        Entry::Ident(word) => begin_with(style, word, rest),
        Entry::Open(..) => Beginning::Other,
        Entry::Close(..) => Beginning::Other,
        Entry::Punct(_) => Beginning::Other,
        Entry::Literal(_) => Beginning::Other,
    }
}

// The segment that such a name begins.
fn segment_of<'a>(arena: &'a Arena, name: Name, segment: Tree<'a>) -> Result<Tree<'a>, AllocError>
    ensures { IfOk result (λ x. x ≡ by_name name segment.entry) }
{
    match name {
        Name::Plain => made::second(arena, segment),
        Name::Keyword => made::first(arena, segment),
    }
}

// The segments that a name begins, with that behind it.
fn segments_of<'a>(
    arena: &'a Arena,
    style: Style,
    name: Name,
    word: &'a Ident,
    behind: Tree<'a>,
) -> Result<Tree<'a>, AllocError>
    ensures { IfOk result (λ x. x ≡ segments_of (style_of style) name (ident_text word.now) behind.entry) }
{
    let segment = made::pair(arena, made::word(word), behind)?;
    made::node(
        arena,
        Kind::Segments(style),
        segment_of(arena, name, segment)?,
    )
}

// Nothing behind such a name.
fn nothing_behind<'a>(arena: &'a Arena, name: Name) -> Result<Tree<'a>, AllocError>
    ensures { IfOk result (λ x. x ≡ nothing_behind name) }
{
    match name {
        Name::Plain => made::seconds(arena, 3, made::nil()),
        Name::Keyword => made::second(arena, made::nil()),
    }
}

// The segments of a name alone.
fn last_segment<'a>(
    arena: &'a Arena,
    style: Style,
    name: Name,
    word: &'a Ident,
) -> Result<Tree<'a>, AllocError>
    ensures { IfOk result (λ x. x ≡ alone (style_of style) name (ident_text word.now)) }
{
    segments_of(arena, style, name, word, nothing_behind(arena, name)?)
}

// `::` behind such a name, of which it is said how it is spaced and where it stands, and other segments.
fn others_behind<'a>(
    arena: &'a Arena,
    name: Name,
    spacing: Spacing,
    span: Span,
    others: Tree<'a>,
) -> Result<Tree<'a>, AllocError>
    ensures { IfOk result (λ x. x ≡ others_behind name spacing others.entry) }
{
    let behind = made::pair(arena, made::mark(Sign::PathSep, spacing, span), others)?;
    match name {
        Name::Plain => made::first_behind(arena, 1, behind),
        Name::Keyword => made::first(arena, behind),
    }
}

// The segments of a name, `::`, of which it is said how it is spaced and where it stands, and other segments.
fn further_segments<'a>(
    arena: &'a Arena,
    style: Style,
    name: Name,
    word: &'a Ident,
    spacing: Spacing,
    span: Span,
    others: Tree<'a>,
) -> Result<Tree<'a>, AllocError>
    ensures { IfOk result (λ x. x ≡ further (style_of style) name (ident_text word.now) spacing others.entry) }
{
    let behind = others_behind(arena, name, spacing, span, others)?;
    segments_of(arena, style, name, word, behind)
}

/// The segments of a path, where they are so many names at most.
///
/// # Errors
///
/// Where there is no memory for them.
pub(crate) fn segments<'a>(
    arena: &'a Arena,
    style: Style,
    most: usize,
    at: &'a [Entry<'a>],
) -> Result<Option<(Tree<'a>, &'a [Entry<'a>])>, AllocError>
    requires { IsTrue (is_whole at.now) }
    ensures read { IfOk result (λ o. IfSome o (λ x.
        IsReadIn most (kind.Segments (style_of style)) (tokens at.now) x.0 (tokens x.1.now))) }
    ensures named { IfOk result (λ o. IfSome o (λ x. IsNamed (tokens at.now))) }
    ensures passed { IfOk result (λ o. IfSome o (λ x. IsPassed (tokens at.now) (tokens x.1.now))) }
    ensures whole { IfOk result (λ o. IfSome o (λ x. IsTrue (is_whole x.1.now))) }
{
    if most == 0 {
        return Ok(None);
    }
    match begin(style, at) {
        Beginning::Last(name, word, rest) => found(last_segment(arena, style, name, word), rest),
        Beginning::Further(name, word, spacing, span, others) => {
            let Some((tree, left)) = segments(arena, style, most - 1, others)? else {
                return Ok(None);
            };
            let tree = further_segments(arena, style, name, word, spacing, span, tree);
            found(tree, left)
        }
        Beginning::Other => Ok(None),
    }
}

// The path that has these segments.
fn path_of<'a>(arena: &'a Arena, style: Style, segments: Tree<'a>) -> Result<Tree<'a>, AllocError>
    ensures { IfOk result (λ x. x ≡ path_of (style_of style) segments.entry) }
{
    made::node(arena, Kind::Path(style), none_before(arena, segments)?)
}

/// A path without `::` in front, where it is a few names.
///
/// # Errors
///
/// Where there is no memory for it.
pub(crate) fn path<'a>(
    arena: &'a Arena,
    style: Style,
    at: &'a [Entry<'a>],
) -> Result<Option<(Tree<'a>, &'a [Entry<'a>])>, AllocError>
    requires { IsTrue (is_whole at.now) }
    ensures read { IfOk result (λ o. IfSome o (λ x.
        IsReadIn 5 (kind.Path (style_of style)) (tokens at.now) x.0 (tokens x.1.now))) }
    ensures named { IfOk result (λ o. IfSome o (λ x. IsNamed (tokens at.now))) }
    ensures passed { IfOk result (λ o. IfSome o (λ x. IsPassed (tokens at.now) (tokens x.1.now))) }
    ensures whole { IfOk result (λ o. IfSome o (λ x. IsTrue (is_whole x.1.now))) }
{
    let Some((segments, rest)) = segments(arena, style, NAMES, at)? else {
        return Ok(None);
    };
    found(path_of(arena, style, segments), rest)
}

// The path, as it stands where a qualified one could.
fn unqualified<'a>(arena: &'a Arena, style: Style, path: Tree<'a>) -> Result<Tree<'a>, AllocError>
    ensures { IfOk result (λ x. x ≡ unqualified (style_of style) path.entry) }
{
    made::node(arena, Kind::AnyPath(style), made::second(arena, path)?)
}

/// The same, where a qualified path may stand too.
///
/// # Errors
///
/// Where there is no memory for it.
pub(crate) fn any_path<'a>(
    arena: &'a Arena,
    style: Style,
    at: &'a [Entry<'a>],
) -> Result<Option<(Tree<'a>, &'a [Entry<'a>])>, AllocError>
    requires { IsTrue (is_whole at.now) }
    ensures read { IfOk result (λ o. IfSome o (λ x.
        IsReadIn 6 (kind.AnyPath (style_of style)) (tokens at.now) x.0 (tokens x.1.now))) }
    ensures named { IfOk result (λ o. IfSome o (λ x. IsNamed (tokens at.now))) }
    ensures passed { IfOk result (λ o. IfSome o (λ x. IsPassed (tokens at.now) (tokens x.1.now))) }
    ensures whole { IfOk result (λ o. IfSome o (λ x. IsTrue (is_whole x.1.now))) }
{
    let Some((path, rest)) = path(arena, style, at)? else {
        return Ok(None);
    };
    found(unqualified(arena, style, path), rest)
}

// The path, as a type.
fn type_of<'a>(arena: &'a Arena, plus: Plus, path: Tree<'a>) -> Result<Tree<'a>, AllocError>
    ensures { IfOk result (λ x. x ≡ type_of (plus_of plus) path.entry) }
{
    made::node(arena, Kind::AType(plus), made::seconds(arena, 9, path)?)
}

/// A type that is such a path.
///
/// # Errors
///
/// Where there is no memory for it.
pub(crate) fn path_type<'a>(
    arena: &'a Arena,
    plus: Plus,
    at: &'a [Entry<'a>],
) -> Result<Option<(Tree<'a>, &'a [Entry<'a>])>, AllocError>
    requires { IsTrue (is_whole at.now) }
    ensures read { IfOk result (λ o. IfSome o (λ x.
        IsReadIn 7 (kind.AType (plus_of plus)) (tokens at.now) x.0 (tokens x.1.now))) }
    ensures whole { IfOk result (λ o. IfSome o (λ x. IsTrue (is_whole x.1.now))) }
{
    let Some((path, rest)) = any_path(arena, Style::AtType, at)? else {
        return Ok(None);
    };
    found(type_of(arena, plus, path), rest)
}
