//! How what a row asks for is made: the value of a tree's type is changed, and becomes a tree again.

use crate::asked::{Asked, To};
use crate::{among, expressions, forms, items, statements};
use std::alloc::AllocError;
use syn::{Arena, Elements, Ident, Mark, RangeLimits, Sign, Spacing, Span, Tree};
use syn_made::to_tree::ToTree;
use syn_made::try_to_tree::TryToTree;

/// Why nothing is made for a row.
#[derive(Clone, Copy)]
pub(crate) enum Unmade {
    /// Its text is no form in which that is changed, or there is no such change.
    NoRow,
    /// There was no memory for the tree.
    Memory,
}

impl From<AllocError> for Unmade {
    fn from(_: AllocError) -> Unmade {
        Unmade::Memory
    }
}

/// A punctuation that stands at no place of a text.
pub(crate) fn mark(sign: Sign) -> Mark {
    Mark {
        sign,
        spacing: Spacing::Alone,
        span: Span::call_site(),
    }
}

// The word that a change puts, if it puts one.
fn word_of(change: &str) -> &'static str {
    match change {
        "as safe" => "safe",
        "automatic" => "auto",
        "public" => "pub",
        "default" => "default",
        _ => "x",
    }
}

// A word that stands at no place of a text.
fn word<'a>(arena: &'a Arena, text: &str) -> Result<&'a Ident, Unmade> {
    match Ident::new(arena.alloc(), text, Span::call_site()) {
        Ok(word) => Ok(arena.put(word)?),
        Err(_) => Err(Unmade::Memory),
    }
}

/// Elements without the one that no comma follows (`front`), or with no other (`last`).
pub(crate) fn some_of<'t, 'a>(change: &str, elems: Elements<'t, 'a>) -> Elements<'t, 'a> {
    match change {
        "front" => Elements {
            last: None,
            ..elems
        },
        _ => Elements {
            before: &[],
            ..elems
        },
    }
}

/// The limits of a range with its end in it, with the punctuation that a change names.
pub(crate) fn limits(change: &str) -> RangeLimits {
    RangeLimits::Closed(mark(match change {
        "closed" | "inclusive" => Sign::DotDotEq,
        _ => Sign::DotDot,
    }))
}

/// What is made by a call that answers a tree, or that its value is none.
pub(crate) fn tried<'a>(
    answer: Result<Option<Tree<'a>>, AllocError>,
) -> Result<Option<Tree<'a>>, Unmade> {
    match answer {
        Ok(found) => Ok(found),
        Err(_) => Err(Unmade::Memory),
    }
}

/// The same of a call whose values all are trees.
pub(crate) fn held<'a>(answer: Result<Tree<'a>, AllocError>) -> Result<Option<Tree<'a>>, Unmade> {
    match answer {
        Ok(tree) => Ok(Some(tree)),
        Err(_) => Err(Unmade::Memory),
    }
}

/// What is changed, and a word for where one is put.
#[derive(Clone, Copy)]
pub(crate) struct By<'r, 'a> {
    /// What is changed.
    pub(crate) change: &'r str,
    /// The word.
    pub(crate) word: &'a Ident,
}

/// A type of the syntax tree whose values rows change.
pub(crate) trait Change<'a> {
    /// What a tree is, changed so. `None` where the tree is of another type, or there is no such change of it.
    fn changed(by: By<'_, 'a>, tree: &'a Tree<'a>) -> Option<Self>;
}

/// The tree that a value is when it is changed so, if it is one then.
pub(crate) fn remade<'a, T: Change<'a> + TryToTree<'a> + Copy>(
    arena: &'a Arena,
    by: By<'_, 'a>,
    tree: &'a Tree<'a>,
) -> Result<Option<Tree<'a>>, Unmade> {
    match T::changed(by, tree) {
        Some(value) => tried(value.try_to_tree(arena)),
        None => Err(Unmade::NoRow),
    }
}

/// The same of a type whose values all are trees.
pub(crate) fn remade_always<'a, T: Change<'a> + ToTree<'a> + Copy>(
    arena: &'a Arena,
    by: By<'_, 'a>,
    tree: &'a Tree<'a>,
) -> Result<Option<Tree<'a>>, Unmade> {
    match T::changed(by, tree) {
        Some(value) => held(value.to_tree(arena)),
        None => Err(Unmade::NoRow),
    }
}

/// The tree that the value of a tree's type is when it is changed so; `None` where it is none.
pub(crate) fn made<'a>(
    arena: &'a Arena,
    asked: Asked,
    tree: &'a Tree<'a>,
) -> Result<Option<Tree<'a>>, Unmade> {
    let change = asked.change;
    let word = word(arena, word_of(change))?;
    let by = By { change, word };
    match asked.to {
        To::Form(form) => forms::changed_form(form, arena, by, tree),
        To::Part(part) => forms::changed_part(part, arena, by, tree),
        To::Expr(form) => expressions::changed(form, arena, by, tree),
        To::Stmt(stmt) => statements::changed(stmt, arena, tree),
        To::Item(form) => items::changed(form, arena, by, tree),
        To::Whole(place) => among::changed(place, arena, by, tree),
    }
}
