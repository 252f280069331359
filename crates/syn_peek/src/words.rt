//! Words at a place.

ghost use Rattle.proc_macro2.specs.Flat.{spanned};
ghost use Rattle.proc_macro2.specs.Token as token;
ghost use Rattle.std.specs.Prelude.{◌≡◌, IfNone, IfSome, false, true};
ghost use Rattle.std.specs.Str.{chars};
ghost use Rattle.syn_buffer.specs.Position.{Takes, left};
ghost use Rattle.syn_kinds.specs.Stands.{word_stands};

use rust_map::span::Span;
use syn_buffer::position::Cursor;

/// Where the identifier of that text stands, if it stands there, and the place behind it.
pub fn word_at<'a>(cursor: Cursor<'a>, text: &str) -> Option<(Span, Cursor<'a>)>
    ensures some { IfSome result (λ r. Takes cursor.entry (spanned (token.Ident (chars text.now)) r.0) r.1) }
    ensures there { IfSome result (λ r. word_stands (chars text.now) (left cursor.entry) ≡ true) }
    ensures none { IfNone result (word_stands (chars text.now) (left cursor.entry) ≡ false) }
{
    match cursor.ident() {
        Some((ident, behind)) if ident.is_text(text) => Some((ident.span(), behind)),
        _ => None,
    }
}
