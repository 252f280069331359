//! Forms that are changed as they stand in a tree, each as a value of its type.

use crate::asked::{Form, Part};
use crate::change::{By, Unmade, remade, remade_always};
use crate::{data, functions, patterns, types};
use syn::{
    Arena, Arm, Attribute, DeriveInput, Field, FieldValue, File, GenericParam, OneSegment, Path,
    Plus, RangeEnd, Receiver, Segments, Tree, TypeParamBound, Variant, Visibility,
};

/// A type or a pattern, or what these are made of, changed so.
pub(crate) fn changed_form<'a>(
    form: Form,
    arena: &'a Arena,
    by: By<'_, 'a>,
    tree: &'a Tree<'a>,
) -> Result<Option<Tree<'a>>, Unmade> {
    match form {
        Form::Type => types::put_type(arena, Plus::WithPlus, by, tree),
        Form::Elsewhere => types::put_type(arena, Plus::WithoutPlus, by, tree),
        Form::Path => remade_always::<Path>(arena, by, tree),
        Form::PathType => types::put_path(arena, by, tree),
        Form::Segments => remade::<Segments>(arena, by, tree),
        Form::Segment => remade::<OneSegment>(arena, by, tree),
        Form::Bound => remade::<TypeParamBound>(arena, by, tree),
        Form::Pattern => patterns::put_pattern(arena, by, tree),
        Form::RangeEnd => remade::<RangeEnd>(arena, by, tree),
    }
}

/// What stands in or beside types, expressions and items, changed so.
pub(crate) fn changed_part<'a>(
    part: Part,
    arena: &'a Arena,
    by: By<'_, 'a>,
    tree: &'a Tree<'a>,
) -> Result<Option<Tree<'a>>, Unmade> {
    match part {
        Part::Attribute => remade_always::<Attribute>(arena, by, tree),
        Part::Visibility => remade_always::<Visibility>(arena, by, tree),
        Part::Param => remade_always::<GenericParam>(arena, by, tree),
        Part::FieldValue => remade::<FieldValue>(arena, by, tree),
        Part::Arm => remade::<Arm>(arena, by, tree),
        Part::File => remade::<File>(arena, by, tree),
        Part::DeriveInput => remade::<DeriveInput>(arena, by, tree),
        Part::Struct => data::put_item(arena, by, tree),
        Part::Field => remade::<Field>(arena, by, tree),
        Part::Variant => remade_always::<Variant>(arena, by, tree),
        Part::FnArg => functions::bare(arena, tree),
        Part::Receiver => remade::<Receiver>(arena, by, tree),
    }
}
