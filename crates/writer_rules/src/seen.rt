//! What decides how a part is written, seen in what was read.

ghost use Rattle.reader_table.specs.Parts.{part_of};
ghost use Rattle.writer_rules.specs.Laid.{is_lifetime_read};
ghost use Rattle.writer_rules.specs.Seen.{called_of, is_choice, is_constant, is_fourth, is_free_word, is_missing};
ghost use Rattle.writer_rules.specs.Seen.{middle_of, text_of_literal, third_of, type_alone, unnamed_of};
ghost use Rattle.rust_leaf.specs.Leaf.{literal_text};
ghost use Rattle.std.specs.Bool.{OnTrue};
ghost use Rattle.std.specs.Prelude.{◌≡◌, option_map, true};
ghost use Rattle.syn_grammar.specs.Kind.{AnyPath, AtType, Path, QualifiedPath, Segments};
ghost use Rattle.syn_grammar.specs.Part.{the};
ghost use Rattle.syn_grammar.specs.Tidy.{begins_bracketed, is_bare_bounds, is_bare_clause, is_bare_colon};
ghost use Rattle.syn_grammar.specs.Tidy.{is_bare_generics, is_bare_params, is_bare_where, is_bracketed, is_ident_type};
ghost use Rattle.syn_grammar.specs.Tidy.{is_lifetime_param, is_lone_path, is_lone_segment, is_none, keeps_generics};
ghost use Rattle.syn_grammar.specs.Tree as t;

use reader_table::kind::Kind;
use reader_table::part::Part;
use reader_table::word::Words;
use reader_tokens::leaf::word;
use reader_tree::tree::{Form, Tree};
use rust_leaf::literal::Literal;

// Whether it is no token.
fn is_nil(tree: &Tree<'_>) -> bool
    ensures { OnTrue result (tree.now ≡ t.Nil) }
{
    match &tree.form {
        Form::Nil => true,
        _ => false,
    }
}

/// Whether it is an option that isn't there.
#[tactic(auto, using(crate::proofs::SeenForms::missing))]
#[inline(always)]
pub fn is_missing(tree: &Tree<'_>) -> bool
    ensures { OnTrue result (is_missing tree.now ≡ true) }
{
    match &tree.form {
        Form::Second(_, inner) => is_nil(inner),
        _ => false,
    }
}

// Whether it has no element and no turn.
#[tactic(auto, using(crate::proofs::SeenForms::nones))]
fn is_none(tree: &Tree<'_>) -> bool
    ensures { result ≡ is_none tree.now }
{
    match &tree.form {
        Form::End => true,
        Form::Turns(turns) => turns.each.is_empty(),
        Form::Elements(list) => list.before.is_empty() && list.last.is_none(),
        _ => false,
    }
}

// Whether the part of that name is there, and has no element.
fn has_none(part: Part, inner: &Tree<'_>) -> bool
    ensures { result ≡ is_none (the (part_of part) inner.now) }
{
    match inner.the(part) {
        Some(list) => is_none(list),
        None => false,
    }
}

// Whether it is a where clause without predicates.
fn is_bare_clause(tree: &Tree<'_>) -> bool
    ensures { result ≡ is_bare_clause tree.now }
{
    match tree.node() {
        Some((kind, inner)) => match kind {
            Kind::WhereClause => has_none(Part::Parameters, inner),
            _ => false,
        },
        None => false,
    }
}

/// Whether of a where clause nothing is written: it has no predicate.
pub fn is_bare_where(inner: &Tree<'_>) -> bool
    ensures { result ≡ is_bare_where inner.now }
{
    match inner.the(Part::Clause) {
        Some(clause) => is_bare_clause(clause),
        None => false,
    }
}

// Whether these are generic parameters, and none.
#[tactic(auto, using(crate::proofs::SeenForms::bare_params))]
fn is_bare_params(tree: &Tree<'_>) -> bool
    ensures { result ≡ is_bare_params tree.now }
{
    match tree.node() {
        Some((kind, inner)) => match kind {
            Kind::GenericParams => is_none(inner),
            _ => false,
        },
        None => false,
    }
}

/// Whether of generics nothing is written: they have no parameter.
pub fn is_bare_generics(inner: &Tree<'_>) -> bool
    ensures { result ≡ is_bare_generics inner.now }
{
    match inner.the(Part::Parameters) {
        Some(parameters) => is_bare_params(parameters),
        None => false,
    }
}

// Whether these are bounds or lifetimes, and none.
#[tactic(auto, using(crate::proofs::SeenForms::bare_bounded))]
fn is_bare_bounds(tree: &Tree<'_>) -> bool
    ensures { result ≡ is_bare_bounds tree.now }
{
    match tree.node() {
        Some((kind, inner)) => match kind {
            Kind::Bounds => is_none(inner),
            Kind::Lifetimes => is_none(inner),
            _ => false,
        },
        None => false,
    }
}

/// Whether of a colon nothing is written: no bound stands behind it.
pub fn is_bare_colon(inner: &Tree<'_>) -> bool
    ensures { result ≡ is_bare_colon inner.now }
{
    match inner.the(Part::Bounds) {
        Some(bounds) => is_bare_bounds(bounds),
        None => false,
    }
}

/// Whether a generic parameter is a lifetime.
pub fn is_lifetime_param(tree: &Tree<'_>) -> bool
    ensures { result ≡ is_lifetime_param tree.now }
{
    match tree.node() {
        Some((kind, inner)) => match kind {
            Kind::GenericParam => inner.has(Part::Lifetime),
            _ => false,
        },
        None => false,
    }
}

/// Whether one of two was chosen.
#[tactic(auto, using(crate::proofs::SeenForms::choices))]
pub fn is_choice(tree: &Tree<'_>) -> bool
    ensures { result ≡ is_choice tree.now }
{
    match &tree.form {
        Form::First(_, _) => true,
        Form::Second(_, _) => true,
        _ => false,
    }
}

// The second of three, where that was chosen.
#[tactic(auto, using(crate::proofs::SeenForms::middles))]
fn middle<'t, 'a>(tree: &'t Tree<'a>) -> Option<&'t Tree<'a>>
    ensures { option_map (λ x. x.now) result ≡ middle_of tree.now }
{
    match &tree.form {
        Form::First(depth, inner) => { if *depth == 1 { Some(inner) } else { None } }
        Form::Second(depth, inner) => { if *depth == 0 { inner.first() } else { None } }
        _ => None,
    }
}

// The third of four, where that was chosen.
#[tactic(auto, using(crate::proofs::SeenForms::thirds))]
fn third<'t, 'a>(tree: &'t Tree<'a>) -> Option<&'t Tree<'a>>
    ensures { option_map (λ x. x.now) result ≡ third_of tree.now }
{
    match &tree.form {
        Form::First(depth, inner) => { if *depth == 2 { Some(inner) } else { None } }
        Form::Second(depth, inner) => match *depth {
            0 => middle(inner),
            1 => inner.first(),
            _ => None,
        },
        _ => None,
    }
}

// Whether the fourth of four was chosen.
#[tactic(auto, using(crate::proofs::SeenForms::fourths))]
fn is_fourth(tree: &Tree<'_>) -> bool
    ensures { result ≡ is_fourth tree.now }
{
    match &tree.form {
        Form::First(depth, _) => *depth > 2,
        Form::Second(depth, inner) => match *depth {
            0 => inner.is_third(),
            1 => inner.is_second(),
            _ => true,
        },
        _ => false,
    }
}

/// Of a part its name and its inside.
#[tactic(auto, using(crate::proofs::SeenForms::calleds))]
pub(crate) fn called<'t, 'a>(tree: &'t Tree<'a>) -> Option<(Part, &'t Tree<'a>)>
    ensures { option_map (λ p. (part_of p.0, p.1.now)) result ≡ called_of tree.now }
{
    match &tree.form {
        Form::Called(part, inner) => Some((*part, inner)),
        _ => None,
    }
}

/// The literal that it is.
#[tactic(auto, using(crate::proofs::SeenForms::lone_literals))]
pub fn literal<'a>(tree: &Tree<'a>) -> Option<&'a Literal>
    ensures { option_map (λ l. literal_text l.now) result ≡ text_of_literal tree.now }
{
    match &tree.form {
        Form::Literal(literal) => Some(literal),
        _ => None,
    }
}

/// Of a part that is a type alone the type.
pub fn unnamed<'t, 'a>(tree: &'t Tree<'a>) -> Option<&'t Tree<'a>>
    ensures { option_map (λ x. x.now) result ≡ unnamed_of tree.now }
{
    match called(tree) {
        Some((part, inner)) => match part {
            Part::Unnamed => Some(inner),
            _ => None,
        },
        None => None,
    }
}

/// Of a parameter that is a type alone: what stands in front of the type, and the type.
#[tactic(auto, using(crate::proofs::SeenForms::alones))]
pub fn type_alone<'t, 'a>(inner: &'t Tree<'a>) -> Option<(&'t Tree<'a>, &'t Tree<'a>)>
    ensures { option_map (λ p. (p.0.now, p.1.now)) result ≡ type_alone inner.now }
{
    let (front, back) = inner.pair()?;
    let named = third(back)?;
    let given = unnamed(named)?;
    Some((front, given))
}

// Whether it is a word that is no keyword.
#[tactic(auto, using(crate::proofs::SeenForms::words))]
fn is_free_word(tree: &Tree<'_>) -> bool
    ensures { result ≡ is_free_word tree.now }
{
    match &tree.form {
        Form::Word(ident) => word(Words::Ident, ident),
        _ => false,
    }
}

// Whether it is one segment, a word that is no keyword without arguments.
#[tactic(auto, using(crate::proofs::SeenForms::lone_names))]
fn is_lone_name(inner: &Tree<'_>) -> bool
    ensures { result ≡ is_lone_segment (t.Node (Segments AtType) inner.now) }
{
    let Some(segment) = inner.last() else {
        return false;
    };
    match segment.pair() {
        Some((name, behind)) => is_free_word(name) && is_fourth(behind),
        None => false,
    }
}

// Whether these are segments of one such name.
fn is_lone_segment(tree: &Tree<'_>) -> bool
    ensures { result ≡ is_lone_segment tree.now }
{
    match tree.node() {
        Some((kind, inner)) => match kind {
            Kind::Segments(_) => is_lone_name(inner),
            _ => false,
        },
        None => false,
    }
}

// Whether a path begins with no `::`, and is one name.
#[tactic(auto, using(crate::proofs::SeenForms::lone_parted))]
fn has_lone_segment(parts: &Tree<'_>) -> bool
    ensures { result ≡ is_lone_path (t.Node (AnyPath AtType) (t.Second (t.Node (Path AtType) parts.now))) }
{
    match parts.pair() {
        Some((root, segments)) => root.is_second() && is_lone_segment(segments),
        None => false,
    }
}

// Whether an unqualified path is one name.
fn is_lone_plain(path: &Tree<'_>) -> bool
    ensures { result ≡ is_lone_path (t.Node (AnyPath AtType) (t.Second path.now)) }
{
    match path.node() {
        Some((kind, parts)) => match kind {
            Kind::Path(_) => has_lone_segment(parts),
            _ => false,
        },
        None => false,
    }
}

// Whether it is a path of one name.
#[tactic(auto, using(crate::proofs::SeenForms::lone_paths))]
fn is_lone_path(tree: &Tree<'_>) -> bool
    ensures { result ≡ is_lone_path tree.now }
{
    match tree.node() {
        Some((kind, inner)) => match kind {
            Kind::AnyPath(_) => match inner.last() {
                Some(path) => is_lone_plain(path),
                None => false,
            },
            _ => false,
        },
        None => false,
    }
}

// Whether it is a type that is a path of one name.
fn is_ident_type(tree: &Tree<'_>) -> bool
    ensures { result ≡ is_ident_type tree.now }
{
    match tree.node() {
        Some((kind, inner)) => match kind {
            Kind::AType(_) => is_lone_path(inner.choice()),
            _ => false,
        },
        None => false,
    }
}

// Whether a qualified path begins with a type that is one name, and goes on with no trait.
#[tactic(auto, using(crate::proofs::SeenForms::bracketed_parts))]
fn has_ident_type(parts: &Tree<'_>) -> bool
    ensures { result ≡ is_bracketed (t.Node (AnyPath AtType) (t.First (t.Node (QualifiedPath AtType) parts.now))) }
{
    let Some((_, behind)) = parts.pair() else {
        return false;
    };
    let Some((given, rest)) = behind.pair() else {
        return false;
    };
    match rest.pair() {
        Some((alias, _)) => alias.is_second() && is_ident_type(given),
        None => false,
    }
}

// Whether a path with such a type in angles stands there.
fn is_bracketed_path(path: &Tree<'_>) -> bool
    ensures { result ≡ is_bracketed (t.Node (AnyPath AtType) (t.First path.now)) }
{
    match path.node() {
        Some((kind, parts)) => match kind {
            Kind::QualifiedPath(_) => has_ident_type(parts),
            _ => false,
        },
        None => false,
    }
}

// Whether it is a path that begins with a type in angles that is one name.
#[tactic(auto, using(crate::proofs::SeenForms::bracketed_paths))]
fn is_bracketed(tree: &Tree<'_>) -> bool
    ensures { result ≡ is_bracketed tree.now }
{
    match tree.node() {
        Some((kind, inner)) => match kind {
            Kind::AnyPath(_) => match inner.first() {
                Some(path) => is_bracketed_path(path),
                None => false,
            },
            _ => false,
        },
        None => false,
    }
}

// Whether it is a type that begins so.
fn begins_bracketed(tree: &Tree<'_>) -> bool
    ensures { result ≡ begins_bracketed tree.now }
{
    match tree.node() {
        Some((kind, inner)) => match kind {
            Kind::AType(_) => is_bracketed(inner.choice()),
            _ => false,
        },
        None => false,
    }
}

/// Whether an impl keeps its generics, also where they have no parameter: without them its type would begin with some.
pub fn keeps_generics(inner: &Tree<'_>) -> bool
    ensures { result ≡ keeps_generics inner.now }
{
    if inner.has(Part::Polarity) || inner.has(Part::SelfType) {
        return false;
    }
    match inner.the(Part::First) {
        Some(first) => begins_bracketed(first),
        None => false,
    }
}

// Whether an argument is a constant that is a literal.
#[tactic(auto, using(crate::proofs::SeenForms::literals))]
fn is_constant(inner: &Tree<'_>) -> bool
    ensures { result ≡ is_constant inner.now }
{
    match middle(inner) {
        Some(constant) => is_choice(constant),
        None => false,
    }
}

/// Whether an argument is a lifetime.
#[tactic(auto, using(crate::proofs::SeenForms::lifetimes))]
pub(crate) fn is_lifetime_read(tree: &Tree<'_>) -> bool
    ensures { result ≡ is_lifetime_read tree.now }
{
    match tree.node() {
        Some((kind, inner)) => match kind {
            Kind::AnArgument => !is_constant(inner) && inner.has(Part::Lifetime),
            _ => false,
        },
        None => false,
    }
}
