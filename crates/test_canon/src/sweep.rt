//! What holds of all short texts, and of one item many times over: with ample memory, none is refused for want of it,
//! and a map of its own has room.

use crate::outputs::answer;
use canon::Fault;
use std::alloc::{AllocError, Global};
use test_support::Unanswered;

// The characters of the short texts: of words, literals, marks, comments and groups.
const CHARACTERS: [char; 12] = ['a', 'r', '0', '\'', '"', '#', '!', '/', ';', '{', '}', '-'];

// So many characters at most.
const LONGEST: usize = 4;

// The texts of at most four of twelve characters: 1 + 12 + 144 + 1,728 + 20,736.
const SHORT_TEXTS: usize = 22_621;

/// Whether what has that name holds.
pub fn holds(alloc: Global, name: &str) -> Result<bool, Unanswered> {
    match name {
        "short texts find memory and room" => Ok(are_all_found(alloc)?),
        "10,000 functions are written one space apart" => Ok(are_all_written(alloc)?),
        _ => Err(Unanswered::NoRow),
    }
}

// Whether a text finds memory, and room in a map of its own.
fn is_found(alloc: Global, text: &str) -> bool {
    !matches!(answer(alloc, text), Err(Fault::MapFull | Fault::Memory))
}

// The text of a number: its digits, with the least first, are the characters' places from 1 on, so that each text has
// one number, and a number with a digit 0 before another one has none.
fn short_text(alloc: Global, number: usize) -> Result<Option<String>, AllocError> {
    let mut text = String::new(alloc);
    let (mut rest, mut has_ended) = (number, false);
    for _ in 0..LONGEST {
        match CHARACTERS.get((rest % 13).wrapping_sub(1)) {
            Some(_) if has_ended => return Ok(None),
            Some(character) => text.push(*character)?,
            None => has_ended = true,
        }
        rest /= 13;
    }
    Ok(Some(text))
}

// Whether all short texts are found, and are as many as they are.
fn are_all_found(alloc: Global) -> Result<bool, AllocError> {
    let (mut all, mut count) = (true, 0usize);
    for number in 0..13 * 13 * 13 * 13usize {
        if let Some(text) = short_text(alloc, number)? {
            all &= is_found(alloc, text.as_str());
            count = count.saturating_add(1);
        }
    }
    Ok(all && count == SHORT_TEXTS)
}

// A text 10,000 times over, with another between each two.
fn many(alloc: Global, text: &str, between: &str) -> Result<String, AllocError> {
    let mut all = String::from_str(alloc, text)?;
    for _ in 1..10_000 {
        all.push_str(between)?;
        all.push_str(text)?;
    }
    Ok(all)
}

fn are_all_written(alloc: Global) -> Result<bool, AllocError> {
    let text = many(alloc, "fn f(){}", "")?;
    let output = many(alloc, "fn f () { }", " ")?;
    Ok(match answer(alloc, text.as_str()) {
        Ok(written) => written.as_str() == output.as_str(),
        Err(_) => false,
    })
}
