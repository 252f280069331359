//! On by so many characters in a text.

ghost use Rattle.rust_map.specs.Bytes.{IsPlace, rest_at};
ghost use Rattle.std.specs.Prelude.{◌≡◌, ◌+◌, ◌≤◌, length, take};
ghost use Rattle.rust_map.specs.Bytes.{byte_length};

use text_chars::char_at;

/// The byte behind so many characters, counted from a byte where a character begins.
pub(crate) fn byte_behind(text: &str, from: usize, count: usize) -> usize
    requires place { IsPlace text.now from }
    requires there { count ≤ length (rest_at text.now from) }
    ensures { result ≡ from + byte_length (take count (rest_at text.now from)) }
{
    let mut at = from;
    for passed in 0..count {
        let (_, next) = char_at(text, at);
        at = next;
    }
    at
}
