//! Texts, and the tokens that they lend.

use crate::reading::lexed;
use std::alloc::Global;
use syn::TokenStream;
use test_support::{Page, Unanswered};

// How many operands an expression has that stand between `‹` and `›`. None where a `›` ends none.
fn operand_count(whole: &str) -> Option<usize> {
    let (mut count, mut depth) = (0usize, 0usize);
    for c in whole.chars() {
        match c {
            '‹' => {
                count = count.saturating_add(1);
                depth = depth.saturating_add(1);
            }
            '›' => depth = depth.checked_sub(1)?,
            _ => {}
        }
    }
    Some(count)
}

// Puts one of the texts of an expression, by its number: 0 is the outermost, and each operand that stands between `‹`
// and `›` is the next. In the place of an operand a text has the word `hole` with how many operands stand behind that
// one, of so many in all.
fn put_text(whole: &str, number: usize, operands: usize, page: &mut Page) {
    let mut count = 0usize;
    let mut depth = if number == 0 { 1usize } else { 0usize };
    for c in whole.chars() {
        match c {
            '‹' => {
                count = count.saturating_add(1);
                if depth == 1 {
                    let behind = operands.saturating_sub(count);
                    write!(page, " hole{behind} ");
                }
                if depth > 0 || count == number {
                    depth = depth.saturating_add(1);
                }
            }
            '›' => depth = depth.saturating_sub(1),
            _ if depth == 1 => write!(page, "{c}"),
            _ => {}
        }
    }
}

/// The tokens of a text.
pub(crate) fn stream(alloc: Global, text: &str) -> Result<TokenStream, Unanswered> {
    lexed(alloc, text).ok_or(Unanswered::NoRow)
}

// The tokens of one of the texts of an expression.
fn text_stream(
    alloc: Global,
    whole: &str,
    number: usize,
    operands: usize,
) -> Result<TokenStream, Unanswered> {
    let mut text = Page::new(alloc);
    put_text(whole, number, operands, &mut text);
    stream(alloc, text.whole()?)
}

/// The tokens of the texts of an expression, of which the first is the outermost.
pub(crate) fn streams(alloc: Global, whole: &str) -> Result<Vec<TokenStream>, Unanswered> {
    let count = operand_count(whole).ok_or(Unanswered::NoRow)?;
    let mut all = Vec::new(alloc);
    for number in 0..count.saturating_add(1) {
        all.push(text_stream(alloc, whole, number, count)?)?;
    }
    Ok(all)
}

/// How many parentheses a text opens.
pub(crate) fn opened(text: &str) -> usize {
    text.chars().filter(|c| *c == '(').count()
}

/// Whether a range may stand behind attributes, where it stands in parentheses that are not needed.
pub(crate) fn may_shelter(text: &str) -> bool {
    text.contains('#') && text.contains("..")
}
