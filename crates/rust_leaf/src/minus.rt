//! The minus that may stand before a number.

ghost use Rattle.rust_leaf.specs.Minus.{minus, starts_with_minus};
ghost use Rattle.std.specs.Prelude.{◌≡◌, ◌∷◌, IfNone, IfSome, false};
ghost use Rattle.std.specs.Str.{chars};

/// What stands behind the minus that a text begins with; `None` where it begins with none.
pub fn behind_minus(text: &str) -> Option<&str>
    ensures none { IfNone result (starts_with_minus (chars text.now) ≡ false) }
    ensures some { IfSome result (λ rest. chars text.now ≡ minus ∷ chars rest.now) }
{
    text.strip_prefix('-')
}
