//! Which items are kept as raw tokens, and which are refused.

ghost use Rattle.reader_verdicts.specs.Verdict.{verdict_kind};
ghost use Rattle.reader_table.specs.Kinds.{kind_of, place_of};
ghost use Rattle.std.specs.Prelude.{◌≡◌, false};
ghost use Rattle.syn_grammar.specs.Kind.{AStatic};
ghost use Rattle.syn_grammar.specs.Name.{the_first, the_path};
ghost use Rattle.syn_grammar.specs.Part.{the};
ghost use Rattle.syn_grammar.specs.Tree.{Nil, Node};
ghost use Rattle.syn_grammar.specs.Verdicts.{const_is_raw, form_in, form_in_file, form_in_foreign, form_in_impl};
ghost use Rattle.syn_grammar.specs.Verdicts.{form_in_trait, has_bounds, impl_is_raw, is_defined, is_path, is_path_type};
ghost use Rattle.syn_grammar.specs.Verdicts.{item_verdict, marked, root_inside};

use crate::asked::{Asked, part_is};
use crate::roots::root_inside;
use crate::verdict::{Verdict, raw_if, refused_if};
use reader_table::kind::{Kind, Place};
use reader_table::part::Part;
use reader_tree::tree::Tree;

// Whether a constant is raw: without a value, where it needs one, and with generics or a where clause.
fn const_is_raw(needs_value: bool, inner: &Tree<'_>) -> bool
    ensures { result ≡ const_is_raw needs_value inner.now }
{
    (needs_value && !inner.has(Part::Value))
        || (part_is(Asked::Generic, Part::Generics, inner)
            || part_is(Asked::Where, Part::Where, inner))
}

// Whether a type alias is defined.
fn is_defined(inner: &Tree<'_>) -> bool
    ensures { result ≡ is_defined inner.now }
{
    match inner.the(Part::Value) {
        Some(value) => value.has(Part::Type),
        None => false,
    }
}

// Whether a type alias is bounded.
fn has_bounds(inner: &Tree<'_>) -> bool
    ensures { result ≡ has_bounds inner.now }
{
    part_is(Asked::Bounded, Part::Bounds, inner)
}

// Whether it is a path, and no qualified one.
fn is_path(tree: &Tree<'_>) -> bool
    ensures { result ≡ is_path tree.now }
{
    match tree.node() {
        Some((kind, inner)) => match kind {
            Kind::AnyPath(_) => inner.is_second(),
            _ => false,
        },
        None => false,
    }
}

// Whether it is a type that is such a path.
fn is_path_type(tree: &Tree<'_>) -> bool
    ensures { result ≡ is_path_type tree.now }
{
    match tree.node() {
        Some((kind, inner)) => match kind {
            Kind::AType(_) => is_path(inner.choice()),
            _ => false,
        },
        None => false,
    }
}

// Whether what is implemented is such a type.
fn first_is_path(inner: &Tree<'_>) -> bool
    ensures { result ≡ is_path_type (the the_first inner.now) }
{
    match inner.the(Part::First) {
        Some(first) => is_path_type(first),
        None => false,
    }
}

// Whether an impl is raw.
fn impl_is_raw(inner: &Tree<'_>) -> bool
    ensures { result ≡ impl_is_raw inner.now }
{
    inner.has(Part::Const) || (inner.has(Part::SelfType) && !first_is_path(inner))
}

// Whether a use has a root in its braces.
fn path_has_root(inner: &Tree<'_>) -> bool
    ensures { result ≡ root_inside (the the_path inner.now) }
{
    match inner.the(Part::Path) {
        Some(path) => root_inside(path),
        None => false,
    }
}

// What becomes of a static in a file.
fn static_in_file(inner: &Tree<'_>) -> Verdict
    ensures { verdict_kind result ≡ form_in_file false (Node AStatic inner.now) }
{
    let typed = inner.has(Part::Type);
    let valued = inner.has(Part::Value);
    refused_if(!typed && !valued, raw_if(!(typed && valued)))
}

// What becomes of a node of that kind in a file, behind pub or not.
fn in_file(marked: bool, kind: Kind, inner: &Tree<'_>) -> Verdict
    ensures { verdict_kind result ≡ form_in_file marked (Node (kind_of kind) inner.now) }
{
    match kind {
        Kind::AFunction(_) => raw_if(!inner.has(Part::Body)),
        Kind::AStatic => static_in_file(inner),
        Kind::AConst => raw_if(const_is_raw(true, inner)),
        Kind::ATypeAlias(_) => raw_if(has_bounds(inner) || !is_defined(inner)),
        Kind::AUse => raw_if(path_has_root(inner)),
        Kind::AConstTrait | Kind::ARestrictedTrait | Kind::AMacroDefinition => Verdict::AsRaw,
        Kind::AnImpl => refused_if(
            marked && !(inner.has(Part::Const) && !inner.has(Part::Default)),
            raw_if(impl_is_raw(inner)),
        ),
        Kind::AForeignModule | Kind::ItemMacro(_) => refused_if(marked, Verdict::Keep),
        _ => Verdict::Keep,
    }
}

// What becomes of a node of that kind in an extern block, behind pub or not.
fn in_foreign(marked: bool, kind: Kind, inner: &Tree<'_>) -> Verdict
    ensures { verdict_kind result ≡ form_in_foreign marked (Node (kind_of kind) inner.now) }
{
    match kind {
        Kind::AFunction(_) => raw_if(inner.has(Part::Body)),
        Kind::AStatic => refused_if(!inner.has(Part::Type), raw_if(inner.has(Part::Value))),
        Kind::ATypeAlias(_) => raw_if(has_bounds(inner) || is_defined(inner)),
        Kind::ItemMacro(_) => refused_if(marked, Verdict::Keep),
        _ => Verdict::Refuse,
    }
}

// What becomes of a node of that kind in a trait, behind pub or default or neither.
fn in_trait(marked: bool, kind: Kind, inner: &Tree<'_>) -> Verdict
    ensures { verdict_kind result ≡ form_in_trait marked (Node (kind_of kind) inner.now) }
{
    match kind {
        Kind::AConst => raw_if(marked || const_is_raw(false, inner)),
        Kind::ItemMacro(_) => refused_if(marked, Verdict::Keep),
        _ => raw_if(marked),
    }
}

// What becomes of a node of that kind in an impl, behind pub or default or neither.
fn in_impl(marked: bool, kind: Kind, inner: &Tree<'_>) -> Verdict
    ensures { verdict_kind result ≡ form_in_impl marked (Node (kind_of kind) inner.now) }
{
    match kind {
        Kind::AFunction(_) => raw_if(!inner.has(Part::Body)),
        Kind::AConst => raw_if(const_is_raw(true, inner)),
        Kind::ATypeAlias(_) => raw_if(has_bounds(inner) || !is_defined(inner)),
        Kind::ItemMacro(_) => refused_if(marked, Verdict::Keep),
        _ => Verdict::Refuse,
    }
}

// What becomes of a node of that kind in its place.
fn node_in(place: Place, marked: bool, kind: Kind, inner: &Tree<'_>) -> Verdict
    ensures { verdict_kind result ≡ form_in (place_of place) marked (Node (kind_of kind) inner.now) }
{
    match place {
        Place::InFile => in_file(marked, kind, inner),
        Place::InForeign => in_foreign(marked, kind, inner),
        Place::InTrait => in_trait(marked, kind, inner),
        Place::InImpl => in_impl(marked, kind, inner),
    }
}

// What becomes of what is no node.
fn none_in(place: Place, marked: bool) -> Verdict
    ensures { verdict_kind result ≡ form_in (place_of place) marked Nil }
{
    match place {
        Place::InFile => Verdict::Keep,
        Place::InForeign => Verdict::Refuse,
        Place::InTrait => raw_if(marked),
        Place::InImpl => Verdict::Refuse,
    }
}

// What becomes of what stands behind an item's attributes and marks.
fn form_in(place: Place, marked: bool, form: &Tree<'_>) -> Verdict
    ensures { verdict_kind result ≡ form_in (place_of place) marked form.now }
{
    match form.node() {
        Some((kind, inner)) => node_in(place, marked, kind, inner),
        None => none_in(place, marked),
    }
}

// Whether an item stands behind pub, or in a trait or an impl behind default.
fn is_marked(place: Place, tree: &Tree<'_>) -> bool
    ensures { result ≡ marked (place_of place) tree.now }
{
    let public = part_is(Asked::Public, Part::Visibility, tree);
    match place {
        Place::InFile => public,
        Place::InForeign => public,
        Place::InTrait => public || tree.has(Part::Default),
        Place::InImpl => public || tree.has(Part::Default),
    }
}

/// What becomes of an item in its place.
pub fn item_verdict(place: Place, tree: &Tree<'_>) -> Verdict
    ensures { verdict_kind result ≡ item_verdict (place_of place) tree.now }
{
    let marked = is_marked(place, tree);
    match tree.the(Part::Item) {
        Some(item) => form_in(place, marked, item.choice()),
        None => none_in(place, marked),
    }
}
