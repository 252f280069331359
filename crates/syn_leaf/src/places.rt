//! Texts from a place on.

ghost use Rattle.std.specs.Prelude.{◌≡◌};
ghost use Rattle.std.specs.Str.{chars};
ghost use Rattle.text_chars.specs.Places.{IsPlace, rest_at};

/// What stands from a place on.
pub(crate) fn from_place(text: &str, at: usize) -> &str
    requires { IsPlace text.now at }
    ensures { chars result.now ≡ rest_at text.now at }
{
    &text[at..]
}
