//! The text of a leaf.

ghost use Rattle.rust_leaf.specs.Kept.{kept_bytes};
ghost use Rattle.std.specs.Prelude.{◌≡◌, ◌↔◌, ◌≤◌, IfOk, IsTrue, length, string_bytes};
ghost use Rattle.std.specs.Str.{is_utf8};

use crate::text_table::TextTable;
use arrayvec::ArrayString;
use std::alloc::{AllocError, Global};
use std::rc::RcStr;

/// How many bytes a text may have that stays in the leaf. A leaf with so many is as large as a group.
const SHORT: usize = 16;

/// How a text is kept.
#[derive(Drop)]
pub(crate) enum Kept {
    /// In the leaf itself.
    Short(ArrayString<16>),
    /// In memory that copies of the leaf share, and the leaves of one table of texts.
    Shared(RcStr),
}

// Whether two texts have the same first byte, if both have one.
fn begin_alike(own: &[u8], other: &[u8]) -> bool
    ensures { own.now ≡ other.now → IsTrue result }
{
    match (own, other) {
        ([first, ..], [wanted, ..]) => first == wanted,
        _ => true,
    }
}

/// The text of an identifier or a literal as it is printed. How it is kept is known here alone.
#[derive(Drop)]
pub(crate) struct LeafText {
    kept: Kept,
    ghost is_text: { IsTrue (is_utf8 (kept_bytes kept)) },
}

impl LeafText {
    ghost use Rattle.rust_leaf.specs.LeafText.{leaf_bytes};

    /// A copy of a text, which shares no memory.
    pub(crate) fn new(alloc: Global, text: &str) -> Result<LeafText, AllocError>
        ensures { IfOk result (λ leaf. leaf_bytes leaf ≡ text.now) }
    {
        if text.len() > SHORT {
            return Ok(LeafText {
                kept: Kept::Shared(RcStr::from_str(alloc, text)?),
            });
        }
        Ok(LeafText::short(text))
    }

    /// The text that a string holds. A long one keeps the string's memory.
    pub(crate) fn of(text: String) -> Result<LeafText, AllocError>
        ensures { IfOk result (λ leaf. leaf_bytes leaf ≡ string_bytes text) }
    {
        if text.len() > SHORT {
            return Ok(LeafText {
                kept: Kept::Shared(RcStr::from_string(text)?),
            });
        }
        Ok(LeafText::short(text.as_str()))
    }

    /// A text, which shares its memory with the leaves of a table that have it too.
    #[inline(always)]
    pub(crate) fn new_in(table: &mut TextTable, text: &str) -> Result<LeafText, AllocError>
        ensures { IfOk result (λ leaf. leaf_bytes leaf ≡ text.now) }
    {
        if text.len() > SHORT {
            return Ok(LeafText {
                kept: Kept::Shared(table.shared(text)?),
            });
        }
        Ok(LeafText::short(text))
    }

    // A text that stays in the leaf.
    #[inline(always)]
    fn short(text: &str) -> LeafText
        requires { length text.now ≤ 16 }
        ensures { leaf_bytes result ≡ text.now }
    {
        let mut short = ArrayString::new();
        short.push_str(text);
        LeafText {
            kept: Kept::Short(short),
        }
    }

    /// The text.
    pub(crate) fn as_str(&self) -> &str
        ensures { result.now ≡ leaf_bytes self.now }
    {
        match &self.kept {
            Kept::Short(short) => short.as_str(),
            Kept::Shared(shared) => shared.as_str(),
        }
    }

    /// Whether it is that text. The lengths and then the first bytes are looked at first, since they tell most apart.
    pub(crate) fn is(&self, text: &str) -> bool
        ensures { IsTrue result ↔ (leaf_bytes self.now ≡ text.now) }
    {
        let own = self.as_str();
        own.len() == text.len() && begin_alike(own.as_bytes(), text.as_bytes()) && own == text
    }

    /// A copy of the text, which takes no memory.
    pub(crate) fn copy(&self) -> Result<LeafText, AllocError>
        ensures { IfOk result (λ leaf. leaf_bytes leaf ≡ leaf_bytes self.now) }
    {
        let kept = match &self.kept {
            Kept::Short(short) => Kept::Short(*short),
            Kept::Shared(shared) => Kept::Shared(shared.clone()?),
        };
        Ok(LeafText { kept })
    }
}
