//! The shebang: the line that names what runs a file.

ghost use Rattle.rust_lex.specs.Shebang.{IsShebangAt, begins_command, is_gap};
ghost use Rattle.rust_lex.specs.Places.{IsPlace, rest_at};
ghost use Rattle.std.specs.Prelude.{◌≡◌};

use crate::front::is_white;
use crate::walk::{NotFeed, SlashOrStar, begins, past, past_many};
use text_chars::{Test, next_char};

// A white character other than a line feed.
struct Gap;

impl Test for Gap {
    ghost test = { is_gap };

    fn passes(c: char) -> bool {
        is_white(c) & (c != '\n')
    }
}

// Whether a character stands at a place that ends no line, is no `[` and begins no comment.
#[tactic(auto, using(crate::proofs::PlacesLemmas::rest_end))]
fn begins_command(text: &str, at: usize) -> bool
    requires { IsPlace text.now at }
    ensures { result ≡ begins_command (rest_at text.now at) }
{
    let Some((c, next)) = next_char(text, at) else {
        return false;
    };
    (c != '\n') & !((c == '[') | ((c == '/') & begins::<SlashOrStar>(text, next)))
}

/// The place behind the shebang that stands at a place of a text, both in bytes from 0. None: no shebang stands there.
/// The line ends before a line feed, or at the text's end. A character has to begin at the place, or the text to end.
#[tactic(auto, using(crate::proofs::PlacesLemmas::rest_end))]
pub fn shebang_end(text: &str, at: usize) -> Option<usize>
    requires { IsPlace text.now at }
    ensures { IsShebangAt text.now at result }
{
    let (hash, next) = next_char(text, at)?;
    let (bang, behind) = next_char(text, next)?;
    if (hash != '#') | (bang != '!') {
        return None;
    }
    if !begins_command(text, past::<Gap>(text, behind)) {
        return None;
    }
    Some(past_many::<NotFeed>(text, at))
}
