//! Which words are reserved.

ghost use Rattle.reader_tokens.specs.Such.{is_either, is_such, neither};
ghost use Rattle.rust_leaf.specs.Leaf.{ident_text};
ghost use Rattle.std.specs.List.{list_all};
ghost use Rattle.std.specs.Prelude.{◌≡◌, ◌&&◌, IfNone, IfSome, true};
ghost use Rattle.std.specs.Str.{chars};
ghost use Rattle.rust_leaf.specs.Keywords.{is_reserved, reserved};

use rust_leaf::ident::Ident;

// The reserved words that begin with the byte and have so many: none, one twice, or two.
#[inline(always)]
#[tactic(auto, unfolding(rust_leaf::specs::Keywords::is_reserved))]
fn such(first: u8, length: usize) -> Option<(&'static str, &'static str)>
    ensures none { IfNone result (list_all (is_such first length neither) reserved ≡ true) }
    ensures some { IfSome result
        (λ r. list_all (is_such first length (is_either r.0.now r.1.now)) reserved ≡ true) }
    ensures are { IfSome result (λ r. (is_reserved r.0.now && is_reserved r.1.now) ≡ true) }
{
    match first {
        b'_' => match length {
            1 => Some(("_", "_")),
            _ => None,
        },
        b'a' => match length {
            2 => Some(("as", "as")),
            5 => Some(("async", "await")),
            8 => Some(("abstract", "abstract")),
            _ => None,
        },
        b'b' => match length {
            3 => Some(("box", "box")),
            5 => Some(("break", "break")),
            6 => Some(("become", "become")),
            _ => None,
        },
        b'c' => match length {
            5 => Some(("const", "crate")),
            8 => Some(("continue", "continue")),
            _ => None,
        },
        b'd' => match length {
            2 => Some(("do", "do")),
            3 => Some(("dyn", "dyn")),
            _ => None,
        },
        b'e' => match length {
            4 => Some(("else", "enum")),
            6 => Some(("extern", "extern")),
            _ => None,
        },
        b'f' => match length {
            2 => Some(("fn", "fn")),
            3 => Some(("for", "for")),
            5 => Some(("false", "final")),
            _ => None,
        },
        b'i' => match length {
            2 => Some(("if", "in")),
            4 => Some(("impl", "impl")),
            _ => None,
        },
        b'l' => match length {
            3 => Some(("let", "let")),
            4 => Some(("loop", "loop")),
            _ => None,
        },
        b'm' => match length {
            3 => Some(("mod", "mut")),
            4 => Some(("move", "move")),
            5 => Some(("macro", "match")),
            _ => None,
        },
        b'o' => match length {
            8 => Some(("override", "override")),
            _ => None,
        },
        b'p' => match length {
            3 => Some(("pub", "pub")),
            4 => Some(("priv", "priv")),
            _ => None,
        },
        b'r' => match length {
            3 => Some(("ref", "ref")),
            6 => Some(("return", "return")),
            _ => None,
        },
        b'S' => match length {
            4 => Some(("Self", "Self")),
            _ => None,
        },
        b's' => match length {
            4 => Some(("self", "self")),
            5 => Some(("super", "super")),
            6 => Some(("static", "struct")),
            _ => None,
        },
        b't' => match length {
            3 => Some(("try", "try")),
            4 => Some(("true", "type")),
            5 => Some(("trait", "trait")),
            6 => Some(("typeof", "typeof")),
            _ => None,
        },
        b'u' => match length {
            3 => Some(("use", "use")),
            6 => Some(("unsafe", "unsafe")),
            7 => Some(("unsized", "unsized")),
            _ => None,
        },
        b'v' => match length {
            7 => Some(("virtual", "virtual")),
            _ => None,
        },
        b'w' => match length {
            5 => Some(("where", "while")),
            _ => None,
        },
        b'y' => match length {
            5 => Some(("yield", "yield")),
            _ => None,
        },
        _ => None,
    }
}

// Whether the word is the one text or the other.
#[inline(never)]
#[tactic(auto, using(crate::proofs::Texts::compared))]
fn is_one(ident: &Ident, one: &str, other: &str) -> bool
    ensures { result ≡ is_either (chars one.now) (chars other.now) (ident_text ident.now) }
{
    ident.is_text(one) || ident.is_text(other)
}

/// Whether the word is a reserved one. Only those are looked at that begin with its first byte and are as long as it.
#[inline(always)]
#[tactic(auto, using(crate::proofs::Such::no_such, crate::proofs::Such::such))]
pub(crate) fn is_reserved(ident: &Ident) -> bool
    ensures { result ≡ is_reserved (ident_text ident.now) }
{
    match such(ident.first_byte(), ident.len()) {
        Some((one, other)) => is_one(ident, one, other),
        None => false,
    }
}
