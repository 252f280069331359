//! What a character begins.

ghost use Rattle.rust_lex.specs.Chars as chars;
ghost use Rattle.rust_lex.specs.Scan as scan;
ghost use Rattle.std.specs.Prelude.{◌≡◌, ◌≤◌};

use crate::group_marks::GroupMarks;
use unicode_ident::is_xid_start;

/// What a character may begin.
#[derive(Clone, Copy, Debug)]
pub enum Front {
    /// A white character.
    White,
    /// The opening mark of a group.
    Opens(GroupMarks),
    /// The closing mark of a group.
    Closes(GroupMarks),
    /// A string.
    Quote,
    /// A character, or the mark of a lifetime.
    Tick,
    /// A number.
    Digit,
    /// An identifier, or a literal with a prefix.
    First,
    /// A mark, a comment or a doc.
    Mark,
    /// Nothing.
    Other,
}

const WHITES: [char; 27] = [
    '\u{9}', '\u{a}', '\u{b}', '\u{c}', '\u{d}', '\u{20}', '\u{85}', '\u{a0}', '\u{1680}',
    '\u{2000}', '\u{2001}', '\u{2002}', '\u{2003}', '\u{2004}', '\u{2005}', '\u{2006}', '\u{2007}',
    '\u{2008}', '\u{2009}', '\u{200a}', '\u{200e}', '\u{200f}', '\u{2028}', '\u{2029}', '\u{202f}',
    '\u{205f}', '\u{3000}',
];

#[tactic(auto, using(crate::proofs::Fronts::fronts))]
fn wide_front(c: char) -> Front
    requires { 128 ≤ c }
    ensures { result ≡ scan.front_of c }
{
    if is_xid_start(c) {
        Front::First
    } else if is_white(c) {
        Front::White
    } else {
        Front::Other
    }
}

#[tactic(auto, unfolding(crate::specs::Chars::is_white))]
pub(crate) fn is_white(c: char) -> bool
    ensures { result ≡ chars.is_white c }
{
    WHITES.contains(&c)
}

// Whether a character is a white one of ASCII.
#[tactic(auto, using(crate::proofs::Fronts::narrow_white))]
#[inline(always)]
pub(crate) fn is_narrow_white(c: char) -> bool
    ensures { result ≡ chars.is_narrow_white c }
{
    (c == ' ') | (('\t' <= c) & (c <= '\r'))
}

// What each character of ASCII begins, as a character that does so: `a` an identifier, `+` a mark, `0` a number, `w`
// white, a quote or the mark of a group itself, and a dot nothing.
static FRONTS: [u8; 128] = *b"\
    .........wwwww..................\
    w+\"++++'()++++++0000000000++++++\
    +aaaaaaaaaaaaaaaaaaaaaaaaaa[.]+a\
    .aaaaaaaaaaaaaaaaaaaaaaaaaa{+}+.";

// What a letter of the table stands for.
#[inline(always)]
fn front_by(class: u8) -> Front
    ensures { result ≡ scan.front_by class }
{
    match class {
        b'a' => Front::First,
        b'+' => Front::Mark,
        b'0' => Front::Digit,
        b'w' => Front::White,
        b'"' => Front::Quote,
        b'\'' => Front::Tick,
        b'(' => Front::Opens(GroupMarks::Parenthesis),
        b')' => Front::Closes(GroupMarks::Parenthesis),
        b'[' => Front::Opens(GroupMarks::Bracket),
        b']' => Front::Closes(GroupMarks::Bracket),
        b'{' => Front::Opens(GroupMarks::Brace),
        b'}' => Front::Closes(GroupMarks::Brace),
        _ => Front::Other,
    }
}

#[tactic(auto, using(crate::proofs::Tables::table_front))]
#[inline(always)]
pub(crate) fn front_of(c: char) -> Front
    ensures { result ≡ scan.front_of c }
{
    if c >= '\u{80}' {
        return wide_front(c);
    }
    front_by(FRONTS[c as usize])
}
