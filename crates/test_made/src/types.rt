//! Changes of types, paths and bounds.

use crate::change::{By, Change, Unmade, mark, some_of, tried};
use syn::{
    Arena, Marked, OneSegment, Path, Plus, Segments, Sign, SomeBounds, Style, TraitBound,
    TraitBoundModifier, Tree, Type, TypeBounds, TypeImplTrait, TypeParamBound, TypePath,
    TypeReference, TypeTraitObject, TypeTuple,
};
use syn_wrapped::types::{a_type, path_type};

// The style that a change names.
fn style_of(change: &str) -> Style {
    match change {
        "of expressions" | "of an expression as a type" | "in an expression" => Style::InExpression,
        "before a type" => Style::InType,
        "in a module" | "of a module" => Style::InModule,
        _ => Style::AtType,
    }
}

// The one bound of several, if they are one.
fn only<'t, 'a>(bounds: TypeBounds<'t, 'a>) -> Option<&'t Tree<'a>> {
    match bounds {
        TypeBounds::Several(bounds) => SomeBounds::of(bounds)?.bounds.only(),
        TypeBounds::One(bound) => Some(bound),
    }
}

// The bounds of `dyn` or `impl` as they are, or as one if that is asked for and they are one.
fn bounds<'t, 'a>(change: &str, bounds: TypeBounds<'t, 'a>) -> TypeBounds<'t, 'a> {
    match (change, only(bounds)) {
        ("single", Some(bound)) => TypeBounds::One(bound),
        _ => bounds,
    }
}

// A type by its form: a reference without its `mut`, a tuple of some of its elements, a path of another style, `dyn`
// and `impl` for where no `+` may stand.
fn changed_form<'t, 'a>(change: &str, form: Type<'t, 'a>) -> Option<Type<'t, 'a>> {
    match form {
        Type::Reference(found) => Some(Type::Reference(TypeReference {
            mutability: None,
            ..found
        })),
        Type::Tuple(found) => Some(Type::Tuple(TypeTuple {
            elems: some_of(change, found.elems),
            ..found
        })),
        Type::Path(found) => Some(Type::Path(TypePath {
            style: style_of(change),
            ..found
        })),
        Type::TraitObject(found) => Some(Type::TraitObject(TypeTraitObject {
            plus: Plus::WithoutPlus,
            bounds: bounds(change, found.bounds),
            ..found
        })),
        Type::ImplTrait(found) => Some(Type::ImplTrait(TypeImplTrait {
            plus: Plus::WithoutPlus,
            bounds: bounds(change, found.bounds),
            ..found
        })),
        _ => None,
    }
}

// A type by its form, or as it is.
impl<'a> Change<'a> for Type<'a, 'a> {
    fn changed(by: By<'_, 'a>, tree: &'a Tree<'a>) -> Option<Type<'a, 'a>> {
        let found = Type::of(tree)?;
        match by.change {
            "elsewhere" => Some(found),
            change => changed_form(change, found),
        }
    }
}

/// A type, changed so, where a `+` may stand or may not.
pub(crate) fn put_type<'a>(
    arena: &'a Arena,
    plus: Plus,
    by: By<'_, 'a>,
    tree: &'a Tree<'a>,
) -> Result<Option<Tree<'a>>, Unmade> {
    match Type::changed(by, tree) {
        Some(form) => tried(a_type(arena, plus, &form)),
        None => Err(Unmade::NoRow),
    }
}

// A path behind `::`, or of another style.
impl<'a> Change<'a> for Path<'a, 'a> {
    fn changed(by: By<'_, 'a>, tree: &'a Tree<'a>) -> Option<Path<'a, 'a>> {
        let found = Path::of(tree)?;
        Some(match by.change {
            "global" => Path {
                leading_colon: Some(mark(Sign::PathSep)),
                ..found
            },
            change => Path {
                style: style_of(change),
                ..found
            },
        })
    }
}

/// A path of another style, as a type.
pub(crate) fn put_path<'a>(
    arena: &'a Arena,
    by: By<'_, 'a>,
    tree: &'a Tree<'a>,
) -> Result<Option<Tree<'a>>, Unmade> {
    match Path::changed(by, tree) {
        Some(path) => tried(path_type(arena, Plus::WithPlus, &path)),
        None => Err(Unmade::NoRow),
    }
}

// The segments of a path: the first one with all of them behind it, or as a keyword; or as of a path of another style.
impl<'a> Change<'a> for Segments<'a, 'a> {
    fn changed(by: By<'_, 'a>, tree: &'a Tree<'a>) -> Option<Segments<'a, 'a>> {
        let path = Path::of(tree)?;
        let found = Segments::of(path.segments)?;
        Some(match by.change {
            "doubled" => Segments {
                others: Some(Marked {
                    mark: mark(Sign::PathSep),
                    node: path.segments,
                }),
                ..found
            },
            "led by a keyword" => Segments {
                is_keyword: true,
                ..found
            },
            change => Segments {
                style: style_of(change),
                ..found
            },
        })
    }
}

// A segment as a keyword, or as of a path of a module.
impl<'a> Change<'a> for OneSegment<'a, 'a> {
    fn changed(by: By<'_, 'a>, tree: &'a Tree<'a>) -> Option<OneSegment<'a, 'a>> {
        let found = OneSegment::of(tree)?;
        Some(match by.change {
            "as a keyword" => OneSegment {
                is_keyword: true,
                ..found
            },
            change => OneSegment {
                style: style_of(change),
                ..found
            },
        })
    }
}

// A bound whose trait stands behind `?`.
impl<'a> Change<'a> for TypeParamBound<'a, 'a> {
    fn changed(_by: By<'_, 'a>, tree: &'a Tree<'a>) -> Option<TypeParamBound<'a, 'a>> {
        let Some(TypeParamBound::Trait(found)) = TypeParamBound::of(tree) else {
            return None;
        };
        let modifier = TraitBoundModifier::Maybe(mark(Sign::Question));
        Some(TypeParamBound::from(TraitBound { modifier, ..found }))
    }
}
