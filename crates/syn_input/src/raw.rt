//! Texts of raw identifiers.

ghost use Rattle.std.specs.Prelude.{◌<◌, ◌∷◌, ◌≡◌, IfNone, IfSome, List, ℕ};
ghost use Rattle.std.specs.Option.{MatchOption};
ghost use Rattle.std.specs.Str.{chars};
ghost use Rattle.syn_input.specs.Raw.{unraw_text};

// The text behind a character of ASCII at its front.
fn behind(text: &str, first: char) -> Option<&str>
    requires { first < 128 }
    ensures { MatchOption result ((rest : List ℕ) → chars text.now ≡ first ∷ rest → ⊥)
        (λ rest. chars text.now ≡ first ∷ chars rest.now) }
{
    text.strip_prefix(first)
}

/// What stands behind the `r#` that a text begins with; `None` where it begins with none.
pub fn behind_raw(text: &str) -> Option<&str>
    ensures some { IfSome result (λ rest. chars text.now ≡ 114 ∷ 35 ∷ chars rest.now) }
    ensures none { IfNone result (unraw_text (chars text.now) ≡ chars text.now) }
{
    let behind_r = behind(text, 'r')?;
    behind(behind_r, '#')
}
