//! Places of a text by numbers of characters.

ghost use Rattle.rust_map.specs.Places.{place_of};
ghost use Rattle.std.specs.Prelude.{◌≡◌, ◌≤◌, length};
ghost use Rattle.std.specs.Str.{chars};

use rust_escape::place::char_at;
use rust_map::LineColumn;

/// The place behind so many characters of a text: line from 1, column in characters from 0.
pub(crate) fn place_behind(text: &str, count: u32) -> LineColumn
    requires { count ≤ length (chars text.now) }
    ensures { result ≡ place_of (chars text.now) count }
{
    let mut at = 0usize;
    let mut line = 1usize;
    let mut column = 0usize;
    for passed in 0..count {
        let (c, next) = char_at(text, at);
        at = next;
        if c == '\n' {
            line += 1;
            column = 0;
        } else {
            column += 1;
        }
    }
    LineColumn { line, column }
}
