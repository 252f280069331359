//! Forms that are compared.

use crate::asked::Question;
use crate::built::unread;
use syn::{
    Arena, Kind, NormalFault, Plus, Reader, Sign, TokenBuffer, Tree, equal, same, same_program,
};
use test_support::{Page, Stop, refused};

// Puts whether two trees are the same. Where memory is refused, the same call must succeed when it is made once more.
fn put_same<'a>(
    arena: &'a Arena,
    one: &Tree<'a>,
    other: &Tree<'a>,
    page: &mut Page,
) -> Result<(), Stop> {
    match same(arena, one, other) {
        Ok(true) => page.put("same"),
        Ok(false) => page.put("unlike"),
        Err(_) => return refused(same(arena, one, other).is_ok()),
    }
    Ok(())
}

// Puts whether two trees are the same program. Where memory is refused, the same call must succeed when it is made once
// more.
fn put_program<'a>(
    arena: &'a Arena,
    one: &Tree<'a>,
    other: &Tree<'a>,
    page: &mut Page,
) -> Result<(), Stop> {
    match same_program(arena, one, other) {
        Ok(true) => page.put(", same program"),
        Ok(false) => page.put(", another program"),
        Err(NormalFault::Memory) => return refused(same_program(arena, one, other).is_ok()),
        Err(NormalFault::Separators) => return Err(Stop::Changed),
    }
    Ok(())
}

// Puts whether two trees are the same, and the same program, and whether they are equal.
fn put_compared<'a>(
    arena: &'a Arena,
    one: &Tree<'a>,
    other: &Tree<'a>,
    page: &mut Page,
) -> Result<(), Stop> {
    put_same(arena, one, other, page)?;
    put_program(arena, one, other, page)?;
    page.put(if equal(one, other) {
        ", equal"
    } else {
        ", not equal"
    });
    Ok(())
}

// The type that stands first.
fn read<'a>(input: &mut Reader<'a>) -> Result<Tree<'a>, Stop> {
    input.parse(Kind::AType(Plus::WithPlus)).map_err(unread)
}

/// Puts the same of the types that stand before and behind a semicolon, which are all of a buffer.
pub(crate) fn put_types<'a>(
    arena: &'a Arena,
    buffer: &'a TokenBuffer<'a>,
    page: &mut Page,
) -> Result<(), Stop> {
    let mut input = Reader::new(arena, buffer);
    let one = read(&mut input)?;
    input.sign(Sign::Semi).map_err(unread)?;
    let other = read(&mut input)?;
    input.finish().map_err(unread)?;
    put_compared(arena, &one, &other, page)
}

/// Puts the same of the two items that are all of a buffer.
pub(crate) fn put_items<'a>(
    arena: &'a Arena,
    buffer: &'a TokenBuffer<'a>,
    page: &mut Page,
) -> Result<(), Stop> {
    let mut input = Reader::new(arena, buffer);
    let one = input.parse(Kind::AnItem).map_err(unread)?;
    let other = input.parse(Kind::AnItem).map_err(unread)?;
    input.finish().map_err(unread)?;
    put_compared(arena, &one, &other, page)
}

/// Types and items. In the first row the `>` stands directly before another one or apart from it, which no syntax tree
/// holds. Lifetimes come first in normal form, and generics without parameters go, but those of an impl whose type
/// would be taken for them.
pub(crate) const PAIRS: [(Question, &str); 8] = [
    (Question::Compared, "Vec<Vec<u8>>; Vec<Vec<u8> >"),
    (Question::Compared, "(A, [B; 2]); ( A , [ B ; 2 ] )"),
    (Question::Compared, "Vec<Vec<u8>>; Vec<Vec<u16>>"),
    (Question::Compared, "(A); (A,)"),
    (Question::Compared, "Foo<T, 'a>; Foo<'a, T,>"),
    (Question::Programs, "struct S<>; struct S;"),
    (Question::Programs, "impl<> <T>::A {} impl<T> ::A {}"),
    (Question::Programs, "m!{a+-b} m!{a + -b}"),
];
