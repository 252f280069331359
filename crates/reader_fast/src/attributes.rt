//! Outer attributes that are a path alone, or behind it a group of tokens or a literal as its value.

ghost use Rattle.reader_tokens.specs.Tokens.{tokens};
ghost use Rattle.reader_fast.specs.Attributes.{IsBehindPath, IsEntered, IsKept, IsOpened};
ghost use Rattle.reader_fast.specs.Attributes.{attribute_of, chosen, delimited, meta_of, value_of};
ghost use Rattle.reader_fast.specs.Lone.{lone_literal};
ghost use Rattle.reader_fast.specs.Read.{IsReadIn};
ghost use Rattle.proc_macro2.specs.Token as token;
ghost use Rattle.proc_macro2.specs.declared.delimiter.Delimiter.TheVariants as delimiters;
ghost use Rattle.rust_leaf.specs.Leaf.{literal_text};
ghost use Rattle.std.specs.Prelude.{◌∷◌, ◌≡◌, [], IfOk, IfSome, IsTrue, List};
ghost use Rattle.syn_buffer.specs.Entries.{is_whole};
ghost use Rattle.syn_grammar.specs.Kind as kind;
ghost use Rattle.syn_grammar.specs.Kind.{Plain};
ghost use Rattle.syn_grammar.specs.Name.{the_value};
ghost use Rattle.syn_grammar.specs.Tree as t;

use crate::lone::lone_literal;
use crate::names::path;
use crate::parts::found;
use proc_macro2::delimiter::Delimiter;
use reader_table::kind::{Kind, Position, Style};
use reader_table::part::Part;
use reader_table::word::Sign;
use reader_tokens::sign::first_mark;
use reader_tree::arena::Arena;
use reader_tree::made;
use reader_tree::tree::Tree;
use rust_leaf::literal::Literal;
use rust_leaf::punct::Spacing;
use rust_map::span::Span;
use std::alloc::AllocError;
use syn_buffer::entry::Entry;

// A group that stands first: what stands inside, and what is left behind it.
#[derive(Clone, Copy)]
struct Group<'a> {
    delimiter: Delimiter,
    span: Span,
    inside: &'a [Entry<'a>],
    behind: &'a [Entry<'a>],
}

// The group that stands first.
#[tactic(auto, using(crate::proofs::GroupForms::entered_within))]
fn enter<'a>(at: &'a [Entry<'a>]) -> Option<Group<'a>>
    requires { IsTrue (is_whole at.now) }
    ensures opens { IfSome result (λ o. IsOpened o.delimiter (tokens at.now)) }
    ensures enters { IfSome result (λ o. IsEntered o.delimiter (tokens at.now) (tokens o.inside.now)
        (tokens o.behind.now)) }
    ensures inside { IfSome result (λ o. IsTrue (is_whole o.inside.now)) }
    ensures behind { IfSome result (λ o. IsTrue (is_whole o.behind.now)) }
{
    let (first, rest) = at.split_first()?;
    let Entry::Open(delimiter, span, count) = *first else {
        return None;
    };
    Some(Group {
        delimiter,
        span,
        inside: &rest[..count],
        behind: &rest[count + 1..],
    })
}

// Whether such a group is one that is seen.
fn is_seen(delimiter: Delimiter) -> bool
    ensures { IsTrue result → IsKept delimiter }
{
    match delimiter {
        Delimiter::Parenthesis => true,
        Delimiter::Brace => true,
        Delimiter::Bracket => true,
        Delimiter::None => false,
    }
}

// Whether no entry is left.
fn is_empty(at: &[Entry<'_>]) -> bool
    ensures { IsTrue result → tokens at.now ≡ [] }
{
    at.is_empty()
}

// The group that is all there is, if it is one that is seen.
fn only_group<'a>(at: &'a [Entry<'a>]) -> Option<Group<'a>>
    requires { IsTrue (is_whole at.now) }
    ensures { IfSome result (λ o. IsBehindPath (tokens at.now)
        (t.First (delimited o.delimiter (tokens o.inside.now)))) }
{
    let group = enter(at)?;
    if is_seen(group.delimiter) && is_empty(group.behind) {
        Some(group)
    } else {
        None
    }
}

// The group, chosen by its delimiter.
fn chosen<'a>(
    arena: &'a Arena,
    delimiter: Delimiter,
    group: Tree<'a>,
) -> Result<Tree<'a>, AllocError>
    ensures { IfOk result (λ x. x ≡ chosen delimiter group.entry) }
{
    match delimiter {
        Delimiter::Parenthesis => made::first(arena, group),
        Delimiter::Brace => made::first_behind(arena, 1, group),
        Delimiter::Bracket => made::seconds(arena, 2, group),
        Delimiter::None => Ok(group),
    }
}

// The group, with its tokens as they are.
fn enclosed<'a>(arena: &'a Arena, group: Group<'a>) -> Result<Tree<'a>, AllocError>
    ensures { IfOk result (λ x. x ≡ t.Group group.entry.delimiter (t.Raw (tokens group.entry.inside.now))) }
{
    let inside = made::raw(arena, group.inside)?;
    made::group(arena, group.delimiter, group.span, inside)
}

// The node of a group whose tokens are kept as they are.
fn delimited<'a>(arena: &'a Arena, group: Group<'a>) -> Result<Tree<'a>, AllocError>
    ensures { IfOk result (λ x. x ≡ delimited group.entry.delimiter (tokens group.entry.inside.now)) }
{
    let kept = chosen(arena, group.delimiter, enclosed(arena, group)?)?;
    made::node(arena, Kind::Delimited, kept)
}

// An attribute's arguments.
fn argument_of<'a>(arena: &'a Arena, group: Group<'a>) -> Result<Tree<'a>, AllocError>
    ensures { IfOk result (λ x. x ≡ t.First (delimited group.entry.delimiter (tokens group.entry.inside.now))) }
{
    made::first(arena, delimited(arena, group)?)
}

// What stands behind an attribute's path, if there was memory for it.
fn some_behind<'a>(made: Result<Tree<'a>, AllocError>) -> Result<Option<Tree<'a>>, AllocError>
    ensures { (ts : List token.Token) (x : t.Tree) → IsBehindPath ts x → IfOk made.entry (λ y. y ≡ x)
        → IfOk result (λ o. IfSome o (λ y. IsBehindPath ts y)) }
{
    Ok(Some(made?))
}

// A group behind an attribute's path, if nothing stands behind it.
fn arguments<'a>(arena: &'a Arena, at: &'a [Entry<'a>]) -> Result<Option<Tree<'a>>, AllocError>
    requires { IsTrue (is_whole at.now) }
    ensures { IfOk result (λ o. IfSome o (λ x. IsBehindPath (tokens at.now) x)) }
{
    match only_group(at) {
        Some(group) => some_behind(argument_of(arena, group)),
        None => Ok(None),
    }
}

// That mark, which stands first: how it is spaced, where it stands, and what is left behind it.
fn that_mark<'a>(character: char, at: &'a [Entry<'a>]) -> Option<(Spacing, Span, &'a [Entry<'a>])>
    requires { IsTrue (is_whole at.now) }
    ensures mark { IfSome result (λ r. tokens at.now ≡ token.Punct character r.0 ∷ tokens r.2.now) }
    ensures whole { IfSome result (λ r. IsTrue (is_whole r.2.now)) }
{
    let (mark, rest) = first_mark(at)?;
    if mark.as_char() == character {
        Some((mark.spacing(), mark.span(), rest))
    } else {
        None
    }
}

// The literal that is all there is.
fn only_literal<'a>(at: &'a [Entry<'a>]) -> Option<&'a Literal>
    ensures { IfSome result (λ l. tokens at.now ≡ token.Literal (literal_text l.now) ∷ []) }
{
    match at {
        [first] => match *first {
            Entry::Literal(literal) => Some(literal),
            Entry::Open(..) => None,
            Entry::Close(..) => None,
            Entry::Ident(_) => None,
            Entry::Punct(_) => None,
        },
        [..] => None,
    }
}

// The literal that is an attribute's value, all there is: how the `=` before it is spaced, where that stands, and
// itself.
fn only_value<'a>(at: &'a [Entry<'a>]) -> Option<(Spacing, Span, &'a Literal)>
    requires { IsTrue (is_whole at.now) }
    ensures { IfSome result (λ r. IsBehindPath (tokens at.now) (value_of r.0 (literal_text r.2.now))) }
{
    let (spacing, span, rest) = that_mark('=', at)?;
    let literal = only_literal(rest)?;
    Some((spacing, span, literal))
}

// The literal, as an attribute's value.
fn given<'a>(arena: &'a Arena, literal: &'a Literal) -> Result<Tree<'a>, AllocError>
    ensures { IfOk result (λ x. x ≡ t.Second (t.Called the_value (lone_literal Plain (literal_text literal.now)))) }
{
    let expression = lone_literal(arena, Position::Plain, literal)?;
    made::second(arena, made::called(arena, Part::Value, expression)?)
}

// An attribute's value that is a literal, behind the `=` of which it is said how it is spaced and where it stands.
fn value_of<'a>(
    arena: &'a Arena,
    spacing: Spacing,
    span: Span,
    literal: &'a Literal,
) -> Result<Tree<'a>, AllocError>
    ensures { IfOk result (λ x. x ≡ value_of spacing (literal_text literal.now)) }
{
    let value = given(arena, literal)?;
    let behind = made::pair(arena, made::mark(Sign::Eq, spacing, span), value)?;
    made::first_behind(arena, 1, behind)
}

// A value behind an attribute's path, if it is a literal.
fn value<'a>(arena: &'a Arena, at: &'a [Entry<'a>]) -> Result<Option<Tree<'a>>, AllocError>
    requires { IsTrue (is_whole at.now) }
    ensures { IfOk result (λ o. IfSome o (λ x. IsBehindPath (tokens at.now) x)) }
{
    match only_value(at) {
        Some((spacing, span, literal)) => some_behind(value_of(arena, spacing, span, literal)),
        None => Ok(None),
    }
}

// What stands behind an attribute's path, to the end.
#[tactic(auto, using(crate::proofs::AttributeForms::bare_at))]
fn behind_path<'a>(arena: &'a Arena, at: &'a [Entry<'a>]) -> Result<Option<Tree<'a>>, AllocError>
    requires { IsTrue (is_whole at.now) }
    ensures { IfOk result (λ o. IfSome o (λ x. IsBehindPath (tokens at.now) x)) }
{
    let Some((first, _)) = at.split_first() else {
        return Ok(Some(made::seconds(arena, 2, made::nil())?));
    };
    match *first {
        Entry::Open(..) => arguments(arena, at),
        Entry::Punct(_) => value(arena, at),
        Entry::Close(..) => Ok(None),
        Entry::Ident(_) => Ok(None),
        Entry::Literal(_) => Ok(None),
    }
}

// What stands in an attribute: a path, and what stands behind it.
fn meta_of<'a>(arena: &'a Arena, path: Tree<'a>, behind: Tree<'a>) -> Result<Tree<'a>, AllocError>
    ensures { IfOk result (λ x. x ≡ meta_of path.entry behind.entry) }
{
    let parts = made::pair(arena, made::second(arena, path)?, behind)?;
    made::node(arena, Kind::Meta, parts)
}

// What stands in an attribute, all of it.
fn meta<'a>(arena: &'a Arena, at: &'a [Entry<'a>]) -> Result<Option<Tree<'a>>, AllocError>
    requires { IsTrue (is_whole at.now) }
    ensures { IfOk result (λ o. IfSome o (λ x. IsReadIn 9 kind.Meta (tokens at.now) x [])) }
{
    let Some((path, rest)) = path(arena, Style::InModule, at)? else {
        return Ok(None);
    };
    let Some(behind) = behind_path(arena, rest)? else {
        return Ok(None);
    };
    Ok(Some(meta_of(arena, path, behind)?))
}

// The group in brackets that stands first.
fn brackets<'a>(at: &'a [Entry<'a>]) -> Option<Group<'a>>
    requires { IsTrue (is_whole at.now) }
    ensures enters { IfSome result (λ o.
        IsEntered delimiters.Bracket (tokens at.now) (tokens o.inside.now) (tokens o.behind.now)) }
    ensures inside { IfSome result (λ o. IsTrue (is_whole o.inside.now)) }
    ensures behind { IfSome result (λ o. IsTrue (is_whole o.behind.now)) }
{
    let group = enter(at)?;
    match group.delimiter {
        Delimiter::Bracket => Some(group),
        Delimiter::Parenthesis => None,
        Delimiter::Brace => None,
        Delimiter::None => None,
    }
}

// What an outer attribute begins with: how its `#` is spaced, where that stands, and the group in brackets behind it.
fn opened<'a>(at: &'a [Entry<'a>]) -> Option<(Spacing, Span, Group<'a>)>
    requires { IsTrue (is_whole at.now) }
    ensures attribute { IfSome result (λ r. (x : t.Tree) → IsReadIn 9 kind.Meta (tokens r.2.inside.now) x []
        → IsReadIn 10 kind.OuterAttribute (tokens at.now) (attribute_of r.0 x) (tokens r.2.behind.now)) }
    ensures inside { IfSome result (λ r. IsTrue (is_whole r.2.inside.now)) }
    ensures behind { IfSome result (λ r. IsTrue (is_whole r.2.behind.now)) }
{
    let (spacing, span, rest) = that_mark('#', at)?;
    let group = brackets(rest)?;
    Some((spacing, span, group))
}

// The attribute with that in its brackets; it is said how its `#` is spaced and where it stands, and where the brackets
// stand.
fn attribute_of<'a>(
    arena: &'a Arena,
    spacing: Spacing,
    span: Span,
    brackets: Span,
    meta: Tree<'a>,
) -> Result<Tree<'a>, AllocError>
    ensures { IfOk result (λ x. x ≡ attribute_of spacing meta.entry) }
{
    let group = made::group(arena, Delimiter::Bracket, brackets, meta)?;
    let parts = made::pair(arena, made::mark(Sign::Pound, spacing, span), group)?;
    made::node(arena, Kind::OuterAttribute, parts)
}

/// An outer attribute that is a path alone, or behind it a group of tokens or a literal as its value.
///
/// # Errors
///
/// Where there is no memory for it.
pub(crate) fn outer_attribute<'a>(
    arena: &'a Arena,
    at: &'a [Entry<'a>],
) -> Result<Option<(Tree<'a>, &'a [Entry<'a>])>, AllocError>
    requires { IsTrue (is_whole at.now) }
    ensures read { IfOk result (λ o. IfSome o (λ x.
        IsReadIn 10 kind.OuterAttribute (tokens at.now) x.0 (tokens x.1.now))) }
    ensures whole { IfOk result (λ o. IfSome o (λ x. IsTrue (is_whole x.1.now))) }
{
    let Some((spacing, span, group)) = opened(at) else {
        return Ok(None);
    };
    let Some(meta) = meta(arena, group.inside)? else {
        return Ok(None);
    };
    let attribute = attribute_of(arena, spacing, span, group.span, meta);
    found(attribute, group.behind)
}
