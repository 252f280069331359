//! What is wrong with what is printed of a tree.

use crate::built::again::{Again, Asked, Question, read_again};
use crate::built::filled::built;
use crate::built::shape::put_shape;
use crate::built::text::{may_shelter, opened, streams};
use crate::reading::buffers;
use crate::written::{Writing, put_print};
use std::alloc::Global;
use syn::{Arena, Position, TokenBuffer, TokenStream, Tree, made, normal_in};
use test_support::{Page, Unanswered};

/// An expression that is built of a text, and where it stands.
#[derive(Clone, Copy)]
pub(crate) struct Case<'t> {
    /// The text.
    pub(crate) text: &'t str,
    /// The positions.
    pub(crate) positions: &'t [Position],
}

/// What is found of an expression that was built.
#[derive(Clone, Copy)]
pub(crate) struct Finding {
    /// In how many positions it gains parentheses.
    pub(crate) gaining: usize,
    /// Whether in each its print is right, and written too where own parts are taken for ones that were read.
    pub(crate) is_right: bool,
}

// An expression that was built, in one position.
#[derive(Clone, Copy)]
struct Placed<'t> {
    position: Position,
    // The text that it is built of.
    text: &'t str,
    // Its shape.
    shape: &'t str,
}

// Puts a text without some parentheses that stand in no others: those of which so many are opened before. Whether there
// are such.
fn put_without(text: &str, number: usize, page: &mut Page) -> bool {
    let (mut before, mut depth) = (0usize, 0usize);
    for c in text.chars() {
        if c == ')' {
            depth = depth.saturating_sub(1);
        }
        let is_outer = depth == 0 && (c == '(' || c == ')');
        if is_outer && c == '(' {
            before = before.saturating_add(1);
        }
        let shown = if is_outer && before == number { ' ' } else { c };
        write!(page, "{shown}");
        if c == '(' {
            depth = depth.saturating_add(1);
        }
    }
    before >= number
}

// Whether a text is read as the same expression.
fn is_same(alloc: Global, placed: Placed<'_>, text: &str) -> Result<bool, Unanswered> {
    let position = placed.position;
    let question = Question::IsShaped(placed.shape);
    let asked = Asked {
        position,
        text,
        question,
    };
    Ok(matches!(read_again(alloc, asked)?, Again::Right))
}

// Whether those parentheses of a print can be left out, with the same expression read.
fn is_spare(
    alloc: Global,
    placed: Placed<'_>,
    print: &str,
    number: usize,
) -> Result<bool, Unanswered> {
    let mut less = Page::new(alloc);
    if !put_without(print, number, &mut less) {
        return Ok(false);
    }
    is_same(alloc, placed, less.whole()?)
}

// How many parentheses of a print can be left out, each by itself, with the same expression read: of those that stand
// in no others, since those within are decided as if the others weren't there.
fn spare(alloc: Global, placed: Placed<'_>, print: &str) -> Result<usize, Unanswered> {
    let mut spare = 0usize;
    for number in 0..opened(print) {
        if is_spare(alloc, placed, print, number.saturating_add(1))? {
            spare = spare.saturating_add(1);
        }
    }
    Ok(spare)
}

// How many atoms of a text are expressions in parentheses.
fn own_parentheses(text: &str) -> usize {
    text.matches("(c)").count()
}

// What is wrong with a print that is read as it should be.
fn spare_fault(
    alloc: Global,
    placed: Placed<'_>,
    print: &str,
) -> Result<Option<&'static str>, Unanswered> {
    if may_shelter(print) {
        return Ok(None);
    }
    let is_needed = spare(alloc, placed, print)? <= own_parentheses(placed.text);
    Ok(if is_needed {
        None
    } else {
        Some("with parentheses that it doesn't need")
    })
}

// What is wrong with a print.
fn fault(
    alloc: Global,
    placed: Placed<'_>,
    print: &str,
) -> Result<Option<&'static str>, Unanswered> {
    let question = Question::IsItself(placed.shape);
    let asked = Asked {
        position: placed.position,
        text: print,
        question,
    };
    match read_again(alloc, asked)? {
        Again::Unread => Ok(Some("not read again")),
        Again::Another => Ok(Some("read as another")),
        Again::Otherwise => Ok(Some("written otherwise than it was read")),
        Again::Right => spare_fault(alloc, placed, print),
    }
}

// Puts a print, and what is written where own parts are taken for ones that were read, if that is another print.
// Whether it is none.
fn put_both(print: &str, written: &str, page: &mut Page) -> bool {
    page.quote(print);
    let is_one = print == written;
    if !is_one {
        page.put(", with own parts as they are ");
        page.quote(written);
    }
    is_one
}

// Puts the print of the normal form of a tree with what is written of it. Whether these are one.
fn put_right(
    placed: Placed<'_>,
    tree: &Tree<'_>,
    print: &str,
    page: &mut Page,
) -> Result<bool, Unanswered> {
    let mut written = Page::new(page.alloc());
    put_print(Writing::Built(placed.position), tree, &mut written);
    Ok(put_both(print, written.whole()?, page))
}

// Puts what is wrong with the print of the normal form of a tree, or the print. Whether it is right.
fn put_verdict(
    placed: Placed<'_>,
    tree: &Tree<'_>,
    print: &str,
    page: &mut Page,
) -> Result<bool, Unanswered> {
    match fault(page.alloc(), placed, print)? {
        Some(what) => {
            write!(page, "{what}: {print}");
            Ok(false)
        }
        None => put_right(placed, tree, print, page),
    }
}

// Puts what is found of the print of the normal form of a tree.
fn put_found(
    placed: Placed<'_>,
    tree: &Tree<'_>,
    print: &str,
    page: &mut Page,
) -> Result<Finding, Unanswered> {
    let is_right = put_verdict(placed, tree, print, page)?;
    let gains = opened(print) > opened(placed.text);
    let gaining = if gains { 1 } else { 0 };
    Ok(Finding { gaining, is_right })
}

// Puts the print of the normal form of an expression, which is made as a tree.
fn put_normal_of<'a>(arena: &'a Arena, position: Position, whole: &Tree<'a>, page: &mut Page) {
    match normal_in(arena, position, whole) {
        Ok(normal) => put_print(Writing::Plain, &normal, page),
        Err(_) => page.cut(),
    }
}

// The same of the expression of a form.
fn put_normal<'a>(arena: &'a Arena, position: Position, tree: &Tree<'a>, page: &mut Page) {
    match made::whole(arena, tree.copy()) {
        Ok(whole) => put_normal_of(arena, position, &whole, page),
        Err(_) => page.cut(),
    }
}

// Puts what is found of a tree in one position.
fn put_placed<'a>(
    arena: &'a Arena,
    placed: Placed<'_>,
    tree: &Tree<'a>,
    page: &mut Page,
) -> Result<Finding, Unanswered> {
    let mut print = Page::new(arena.alloc());
    put_normal(arena, placed.position, tree, &mut print);
    put_found(placed, tree, print.whole()?, page)
}

// Puts what is found of a tree with that shape in each position, with `; ` between them.
fn put_each<'a>(
    arena: &'a Arena,
    case: Case<'_>,
    shape: &str,
    tree: &Tree<'a>,
    page: &mut Page,
) -> Result<Finding, Unanswered> {
    let text = case.text;
    let (mut gaining, mut is_right, mut is_first) = (0usize, true, true);
    for position in case.positions {
        let placed = Placed {
            position: *position,
            text,
            shape,
        };
        page.put(if is_first { "" } else { "; " });
        let found = put_placed(arena, placed, tree, page)?;
        gaining = gaining.saturating_add(found.gaining);
        is_right &= found.is_right;
        is_first = false;
    }
    Ok(Finding { gaining, is_right })
}

// The same of a tree of any shape.
fn put_tree<'a>(
    arena: &'a Arena,
    case: Case<'_>,
    tree: &Tree<'a>,
    page: &mut Page,
) -> Result<Finding, Unanswered> {
    let mut shape = Page::new(arena.alloc());
    put_shape(arena, tree, &mut shape);
    put_each(arena, case, shape.whole()?, tree, page)
}

// The same of an expression that is built in an arena of these buffers, which are its text's.
fn put_built<'a>(
    arena: &'a Arena,
    case: Case<'_>,
    buffers: &'a [TokenBuffer<'_>],
    page: &mut Page,
) -> Result<Finding, Unanswered> {
    let tree = built(arena, buffers)?;
    put_tree(arena, case, &tree, page)
}

// The same with an arena of its own.
fn put_of_buffers(
    case: Case<'_>,
    buffers: &[TokenBuffer<'_>],
    page: &mut Page,
) -> Result<Finding, Unanswered> {
    let arena = Arena::new(page.alloc());
    put_built(&arena, case, buffers, page)
}

// The same of streams.
fn put_of_streams(
    case: Case<'_>,
    streams: &[TokenStream],
    page: &mut Page,
) -> Result<Finding, Unanswered> {
    let buffers = buffers(page.alloc(), streams)?;
    put_of_buffers(case, buffers.as_slice(), page)
}

/// Puts what is found of an expression that is built of a text, in each position, with `; ` between them: the print of
/// its normal form, with what is written where own parts are taken for ones that were read, if that is another print;
/// or what is wrong.
pub(crate) fn put_judged(case: Case<'_>, page: &mut Page) -> Result<Finding, Unanswered> {
    let streams = streams(page.alloc(), case.text)?;
    put_of_streams(case, streams.as_slice(), page)
}
