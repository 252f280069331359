//! Where comments and docs end.

ghost use Rattle.rust_lex.specs.Chars.{is_not_feed, past};
ghost use Rattle.rust_lex.specs.Comment as comment;
ghost use Rattle.rust_lex.specs.Ended.{IsEnd, IsFrom, IsScanned};
ghost use Rattle.rust_lex.specs.Places.{IsBehind, IsPlace, rest_at};
ghost use Rattle.rust_lex.specs.Scan as scan;
ghost use Rattle.std.specs.Prelude.{◌≡◌, ℕ, Bool};

use crate::piece::{DocKind, PieceKind};
use crate::walk::{Feed, NotFeed, WithinLine, begins};
use text_chars::{Test, char_at, next_char, past_blocks, past_bytes};

// A character that does nothing within a comment.
struct Quiet;

impl Test for Quiet {
    ghost test = { scan.is_quiet };

    #[inline(always)]
    fn passes(c: char) -> bool {
        !((c == '*') | ((c == '/') | (c == '\r')))
    }
}

// A place behind characters that do nothing within a comment, as long as whole blocks of them stand there.
#[tactic(auto, using(crate::proofs::Quiet::quiet_behind, crate::proofs::Quiet::passed_from))]
fn past_quiet(text: &str, start: usize) -> usize
    requires { IsPlace text.now start }
    ensures from { IsFrom text.now start result }
    ensures same { (doc : Bool) (depth : ℕ) → comment.past_comment doc depth (rest_at text.now result)
        ≡ comment.past_comment doc depth (rest_at text.now start) }
{
    past_blocks::<Quiet>(text, start)
}

// The place behind the end of a comment, its opening having been read.
#[tactic(auto, using(crate::proofs::Steps::comments))]
fn comment_end(text: &str, start: usize, doc: bool) -> Option<usize>
    requires { IsPlace text.now start }
    ensures { IsEnd text.now start result (comment.past_comment doc 0 (rest_at text.now start)) }
{
    let mut at = past_quiet(text, start);
    let mut depth = 0usize;
    while at < text.len() {
        let (c, next) = char_at(text, at);
        if !((c == '*') | ((c == '/') | (c == '\r'))) {
            at = next;
            continue;
        }
        let Some((d, after)) = next_char(text, next) else {
            return None;
        };
        if (c == '*') & (d == '/') {
            if depth == 0 {
                return Some(after);
            }
            depth -= 1;
            at = past_quiet(text, after);
        } else if (c == '/') & (d == '*') {
            depth += 1;
            at = past_quiet(text, after);
        } else if doc & ((c == '\r') & (d != '\n')) {
            return None;
        } else {
            at = past_quiet(text, next);
        }
    }
    None
}

#[tactic(auto, using(crate::proofs::PlacesLemmas::rest_end))]
fn is_plain_line(text: &str, at: usize) -> bool
    requires { IsPlace text.now at }
    ensures { result ≡ comment.is_plain_line (rest_at text.now at) }
{
    let Some((c, next)) = next_char(text, at) else {
        return true;
    };
    let Some((d, _)) = next_char(text, next) else {
        return !((c == '/') | (c == '!'));
    };
    !(c == '!') & (!(c == '/') | (d == '/'))
}

#[tactic(auto, using(crate::proofs::PlacesLemmas::rest_end))]
fn is_plain_block(text: &str, at: usize) -> bool
    requires { IsPlace text.now at }
    ensures { result ≡ comment.is_plain_block (rest_at text.now at) }
{
    let Some((c, next)) = next_char(text, at) else {
        return true;
    };
    let Some((d, _)) = next_char(text, next) else {
        return !((c == '*') | (c == '!'));
    };
    !(c == '!') & (!(c == '*') | ((d == '/') | (d == '*')))
}

#[tactic(auto, using(crate::proofs::PlacesLemmas::rest_end))]
fn ends_line(text: &str, at: usize) -> bool
    requires { IsPlace text.now at }
    ensures { result ≡ comment.ends_line (rest_at text.now at) }
{
    let Some((c, next)) = next_char(text, at) else {
        return true;
    };
    (c == '\n') | ((c == '\r') & begins::<Feed>(text, next))
}

// The end of the line that is read.
#[tactic(auto, using(crate::proofs::WideLines::past_line))]
fn line_end(text: &str, at: usize) -> usize
    requires { IsPlace text.now at }
    ensures rest { rest_at text.now result ≡ past is_not_feed (rest_at text.now at) }
    ensures from { IsFrom text.now at result }
{
    past_bytes::<NotFeed>(text, at)
}

// The end of a doc comment's text in the line that is read.
#[tactic(auto, using(crate::proofs::WideLines::past_doc))]
fn doc_end(text: &str, at: usize) -> usize
    requires { IsPlace text.now at }
    ensures rest { rest_at text.now result ≡ past comment.is_within_line (rest_at text.now at) }
    ensures from { IsFrom text.now at result }
{
    past_bytes::<WithinLine>(text, at)
}

// What two slashes begin, which end at a place.
#[tactic(auto, using(crate::proofs::Steps::lines))]
fn line(text: &str, start: usize, at: usize) -> Option<(PieceKind, usize)>
    requires { IsBehind text.now start at }
    ensures { IsScanned text.now start result (scan.line (rest_at text.now at)) }
{
    if at >= text.len() {
        return Some((PieceKind::Comment, at));
    }
    if is_plain_line(text, at) {
        return Some((PieceKind::Comment, line_end(text, at)));
    }
    let (c, next) = char_at(text, at);
    let end = doc_end(text, next);
    if !ends_line(text, end) {
        return None;
    }
    let kind = if c == '!' {
        DocKind::InnerLine
    } else {
        DocKind::OuterLine
    };
    Some((PieceKind::Doc(kind), end))
}

// What `/*` begins, which ends at a place.
#[tactic(auto, using(crate::proofs::Steps::blocks))]
fn block(text: &str, start: usize, at: usize) -> Option<(PieceKind, usize)>
    requires { IsBehind text.now start at }
    ensures { IsScanned text.now start result (scan.block (rest_at text.now at)) }
{
    let Some((c, next)) = next_char(text, at) else {
        return None;
    };
    if is_plain_block(text, at) {
        let end = comment_end(text, at, false)?;
        return Some((PieceKind::Comment, end));
    }
    let end = comment_end(text, next, true)?;
    let kind = if c == '!' {
        DocKind::InnerBlock
    } else {
        DocKind::OuterBlock
    };
    Some((PieceKind::Doc(kind), end))
}

// What a slash begins, which ends at a place.
#[tactic(auto, using(crate::proofs::Steps::slashes))]
#[inline(never)]
pub(crate) fn slash(text: &str, start: usize, at: usize) -> Option<(PieceKind, usize)>
    requires { IsBehind text.now start at }
    ensures { IsScanned text.now start result (scan.slash (rest_at text.now at)) }
{
    let Some((c, next)) = next_char(text, at) else {
        return Some((PieceKind::Mark, at));
    };
    if c == '/' {
        return line(text, start, next);
    }
    if c == '*' {
        return block(text, start, next);
    }
    Some((PieceKind::Mark, at))
}
