//! Trees made anew, with others in the place of some.

use crate::written::{Writing, put_print};
use proc_macro2::Spacing;
use reader_tree::made;
use reader_tree::placed_spacing::PlacedSpacing;
use std::alloc::AllocError;
use syn::{Arena, Element, Form, Kind, Tree};
use test_support::{Page, Unanswered};

/// What is changed.
#[derive(Clone, Copy)]
pub(crate) enum Change<'o, 'a> {
    /// A hole becomes the operand of its number.
    Fill(&'o Vec<Tree<'a>>),
    /// An expression in parentheses becomes that expression, and each mark stands alone.
    Strip,
}

// What makes trees anew. Where memory is refused it notes that, and what it makes is not handed out. So a call that
// makes a tree has no error of its own.
#[derive(Clone, Copy)]
struct Maker<'o, 'a> {
    arena: &'a Arena,
    change: Change<'o, 'a>,
    is_cut: bool,
}

// The number of a hole, of which that is the path.
fn number_of(path: &str) -> Option<usize> {
    path.strip_prefix("hole")?.parse::<usize>().ok()
}

// The form of the expression in parentheses, of which that is the form's own part.
fn inside<'a>(own: &Tree<'a>) -> Option<Tree<'a>> {
    match &own.form {
        Form::Group(_, group) => inside(&group.inside),
        Form::Elements(list) => inside(list.last?),
        Form::Node(_, expression) => inside(expression),
        Form::Whole(form) => Some(form.copy()),
        _ => None,
    }
}

// The form with that tree in the place of the one that stands in it.
fn around<'a>(form: &Form<'a>, inner: &'a Tree<'a>) -> Form<'a> {
    match form {
        Form::First(depth, _) => Form::First(*depth, inner),
        Form::Second(depth, _) => Form::Second(*depth, inner),
        Form::Dropped(_) => Form::Dropped(inner),
        Form::Called(part, _) => Form::Called(*part, inner),
        Form::Verbatim(_) => Form::Verbatim(inner),
        Form::Node(kind, _) => Form::Node(*kind, inner),
        _ => Form::Whole(inner),
    }
}

impl<'o, 'a> Maker<'o, 'a> {
    // A tree that was made, or that it wasn't.
    fn held(&mut self, made: Result<Tree<'a>, AllocError>) -> Tree<'a> {
        match made {
            Ok(tree) => tree,
            Err(_) => {
                self.is_cut = true;
                made::nil()
            }
        }
    }

    // The number of a hole, of which that is the path's tree.
    fn number(&mut self, path: &Tree<'a>) -> Option<usize> {
        let mut page = Page::new(self.arena.alloc());
        put_print(Writing::Read, path, &mut page);
        match page.whole() {
            Ok(path) => number_of(path),
            Err(_) => {
                self.is_cut = true;
                None
            }
        }
    }

    // The operand that a tree becomes, if it is a hole that is filled.
    fn filled(&mut self, tree: &Tree<'a>) -> Option<&'o Tree<'a>> {
        match (self.change, &tree.form) {
            (Change::Fill(operands), Form::Alone(Kind::ExprPath, path)) => {
                operands.get(self.number(path)?)
            }
            _ => None,
        }
    }

    // How a mark is spaced.
    fn spacing(&self, spacing: Spacing) -> Spacing {
        match self.change {
            Change::Fill(_) => spacing,
            Change::Strip => Spacing::Alone,
        }
    }

    // A tree in which no other stands.
    fn leaf(&self, tree: &Tree<'a>) -> Tree<'a> {
        match &tree.form {
            Form::Mark(sign, spacing, span) => made::mark(
                *sign,
                self.spacing(*spacing),
                span.span(),
            ),
            _ => tree.copy(),
        }
    }

    // A tree in which one other stands, with that one in its place.
    fn around(&mut self, tree: &Tree<'a>, inner: Tree<'a>) -> Tree<'a> {
        match self.arena.put(inner) {
            Ok(inner) => Tree {
                form: around(&tree.form, inner),
            },
            Err(fault) => self.held(Err(fault)),
        }
    }

    // The form that a form of that own part becomes, if it is in parentheses that are taken off.
    fn bare(&self, kind: Kind, own: &Tree<'a>) -> Option<Tree<'a>> {
        match (self.change, kind) {
            (Change::Strip, Kind::ExprParen) => inside(own),
            _ => None,
        }
    }

    // A form without operands, of that own part.
    fn alone(&mut self, kind: Kind, own: Tree<'a>) -> Tree<'a> {
        match self.bare(kind, &own) {
            Some(form) => form,
            None => self.held(made::alone(self.arena, kind, own)),
        }
    }

    // A tree in which two others stand, with those in their places.
    fn around_two(&mut self, tree: &Tree<'a>, front: Tree<'a>, back: Tree<'a>) -> Tree<'a> {
        let made = match &tree.form {
            Form::Front(kind, _) => made::front(self.arena, *kind, front, back),
            Form::Back(kind, _) => made::back(self.arena, front, *kind, back),
            _ => made::pair(self.arena, front, back),
        };
        self.held(made)
    }
}

/// A tree made anew.
pub(crate) fn changed<'a>(
    arena: &'a Arena,
    tree: &Tree<'a>,
    change: Change<'_, 'a>,
) -> Result<Tree<'a>, Unanswered> {
    let mut by = Maker {
        arena,
        change,
        is_cut: false,
    };
    let made = anew(tree, &mut by);
    if by.is_cut {
        Err(Unanswered::Cut)
    } else {
        Ok(made)
    }
}

// A tree made anew: the operand, if it is a hole.
#[cycle(changed)]
fn anew<'a>(tree: &Tree<'a>, by: &mut Maker<'_, 'a>) -> Tree<'a> {
    match by.filled(tree) {
        Some(operand) => operand.copy(),
        None => made_anew(tree, by),
    }
}

// The same of a tree that is no hole.
#[cycle(changed)]
fn made_anew<'a>(tree: &Tree<'a>, by: &mut Maker<'_, 'a>) -> Tree<'a> {
    match &tree.form {
        Form::First(_, inner)
        | Form::Second(_, inner)
        | Form::Dropped(inner)
        | Form::Called(_, inner)
        | Form::Verbatim(inner)
        | Form::Node(_, inner)
        | Form::Whole(inner) => {
            let inner = anew(inner, by);
            by.around(tree, inner)
        }
        Form::Alone(kind, own) => {
            let own = anew(own, by);
            by.alone(*kind, own)
        }
        Form::Group(delimiter, group) => {
            let inside = anew(&group.inside, by);
            by.held(made::group(by.arena, *delimiter, group.span, inside))
        }
        _ => several_anew(tree, by),
    }
}

// The same of a tree in which no other stands, or several do.
#[cycle(changed)]
fn several_anew<'a>(tree: &Tree<'a>, by: &mut Maker<'_, 'a>) -> Tree<'a> {
    match &tree.form {
        Form::Turns(turns) => {
            let each = turns_anew(turns.each, by);
            by.held(made::turns(by.arena, each))
        }
        Form::Elements(list) => {
            let before = elements_anew(list.before, by);
            let last = match list.last {
                Some(last) => Some(anew(last, by)),
                None => None,
            };
            by.held(made::elements(by.arena, list.separator, before, last))
        }
        Form::Pair(two) | Form::Front(_, two) | Form::Back(_, two) => {
            let front = anew(&two.front, by);
            let back = anew(&two.back, by);
            by.around_two(tree, front, back)
        }
        Form::Infix(kind, three) => {
            let left = anew(&three.left, by);
            let own = anew(&three.own, by);
            let right = anew(&three.right, by);
            by.held(made::infix(by.arena, left, *kind, own, right))
        }
        _ => by.leaf(tree),
    }
}

// Turns made anew.
#[cycle(changed)]
fn turns_anew<'a>(turns: &[Tree<'a>], by: &mut Maker<'_, 'a>) -> Vec<Tree<'a>> {
    let mut all = Vec::new(by.arena.alloc());
    for tree in turns {
        let made = anew(tree, by);
        by.is_cut |= all.push(made).is_err();
    }
    all
}

// Elements made anew.
#[cycle(changed)]
fn elements_anew<'a>(elements: &[Element<'a>], by: &mut Maker<'_, 'a>) -> Vec<Element<'a>> {
    let mut all = Vec::new(by.arena.alloc());
    for element in elements {
        let tree = anew(&element.tree, by);
        let how = by.spacing(element.spacing.spacing());
        let spacing = PlacedSpacing::new(how, element.spacing.span());
        by.is_cut |= all.push(Element { tree, spacing }).is_err();
    }
    all
}
