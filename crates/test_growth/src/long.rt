//! A long expression, and what is written of it.

use crate::asked::Question;
use crate::built::{form_of, parsed, put_form, put_normal_form};
use crate::texts::put_tree;
use syn::{Arena, Kind, Position, TokenBuffer, Tree};
use test_support::{Page, Stop};

/// Puts what is written of the expression that a buffer holds: as it was read, as its normal form, which is made as a
/// tree, and as an expression that is built by hand.
pub(crate) fn put_written<'a>(
    arena: &'a Arena,
    buffer: &'a TokenBuffer<'a>,
    page: &mut Page,
) -> Result<(), Stop> {
    let tree = parsed(arena, Kind::Expression(Position::Plain), buffer)?;
    put_expression(arena, &tree, page)
}

fn put_expression<'a>(arena: &'a Arena, tree: &Tree<'a>, page: &mut Page) -> Result<(), Stop> {
    put_tree(tree, page)?;
    page.put("\n");
    put_normal_form(arena, tree, page)?;
    page.put("\n");
    match form_of(tree) {
        Some(form) => put_form(Position::Plain, form, page),
        None => Err(Stop::Changed),
    }
}

/// Forty operands, with operators of most levels between them.
pub(crate) const LONG: [(Question, &str); 1] = [(
    Question::Long,
    "a + b * c - d / e % f << g + h & i ^ j | k * l == m - n && o < p + q || r % s - t * u != v << w \
     && x | y ^ z & A + B * C > D - E / F || G % H >> I == J * K + L && M >= N",
)];
