//! Identifiers.

ghost use Rattle.rust_leaf.specs.Identifier.{fault_of, is_ident_text, is_identifier, is_number, is_never_raw};
ghost use Rattle.rust_leaf.specs.Identifier.{refusal, refusal_of_raw};
ghost use Rattle.rust_leaf.specs.LeafText.{leaf_bytes};
ghost use Rattle.rust_leaf.specs.declared.ident.IdentFault.TheVariants.{Memory};
ghost use Rattle.std.proofs.Common.{ap, refl};
ghost use Rattle.std.specs.Cmp.{on_equiv, on_per, on_po, on_total, partial_equiv_from_equiv};
ghost use Rattle.std.specs.Cmp.Lexicographic.{bytes_decides, nat_list_cmp_total, nat_list_eq_equiv, slice_cmp};
ghost use Rattle.std.specs.Cmp.Lexicographic.{texts_po, texts_ties};
ghost use Rattle.std.specs.Hash as fed;
ghost use Rattle.std.specs.Ordering.{nat_cmp};
ghost use Rattle.std.specs.Prelude.{◌≡◌, ◌++◌, ◌==◌, IfErr, IfOk, OnErr, OnOk, Option, None, Some, IsTrue, codes};
ghost use Rattle.std.specs.Prelude.{[], encode_utf8_all, length, take, ◌↔◌, ◌∷◌};
ghost use Rattle.std.specs.List.{list_all};
ghost use Rattle.std.specs.Str.{bytes_eq, chars};
ghost use Rattle.unicode_ident.specs.Ident.{is_xid_continue};

use crate::leaf_text::LeafText;
use crate::text_table::TextTable;
use rust_map::span::Span;
use std::alloc::{AllocError, Global};
use std::cmp::Ordering;
use std::fmt;
use std::hash::{Hash, Hasher};
use try_clone::TryClone;
use unicode_ident::{is_xid_continue, is_xid_start};

/// An identifier or a keyword, by its printed text, a raw one with its `r#`. The text is always that
/// of an identifier.
#[derive(Drop)]
pub struct Ident {
    text: LeafText,
    span: Span,
    ghost is_printed: { IsTrue (is_ident_text (chars (leaf_bytes text))) },
}

/// Why a text makes no identifier. The first fault that applies is answered.
#[derive(Clone, Copy, Debug, PartialEq, Eq)]
pub enum IdentFault {
    /// The text is empty.
    Empty,
    /// The text has ASCII digits alone.
    Number,
    /// Some character can't stand there in an identifier.
    Invalid,
    /// The text can't be a raw identifier: `_`, `super`, `self`, `Self` or `crate`.
    Reserved,
    /// The text is an identifier, and memory for it was refused.
    Memory,
}

impl From<AllocError> for IdentFault {
    ghost from_gives = { λ _ fault. fault ≡ Memory };

    fn from(_: AllocError) -> IdentFault {
        IdentFault::Memory
    }
}

// Whether a text has ASCII digits alone.
fn is_number(text: &str) -> bool
    ensures { result ≡ is_number (chars text.now) }
{
    text.chars().all(|c| c.is_ascii_digit())
}

// Whether a text can stand behind an identifier's first character.
fn goes_on(text: &str) -> bool
    ensures { result ≡ list_all is_xid_continue (chars text.now) }
{
    text.chars().all(is_xid_continue)
}

// Whether a text is an identifier.
#[tactic(auto, using(crate::proofs::Identifiers::identifier_past_first, std::proofs::lemmas::Grind::common_steps))]
fn is_identifier(text: &str) -> bool
    ensures { result ≡ is_identifier (chars text.now) }
{
    let mut rest = text.chars();
    match rest.next() {
        None => false,
        Some(first) => (is_xid_start(first) | (first == '_')) & goes_on(rest.as_str()),
    }
}

// What refuses a text as an identifier.
fn refusal(text: &str) -> Option<IdentFault>
    ensures { result ≡ refusal (chars text.now) }
{
    if text.is_empty() {
        Some(IdentFault::Empty)
    } else if is_number(text) {
        Some(IdentFault::Number)
    } else if is_identifier(text) {
        None
    } else {
        Some(IdentFault::Invalid)
    }
}

// Whether no `r#` may stand before a text.
fn is_never_raw(text: &str) -> bool
    ensures { result ≡ is_never_raw (chars text.now) }
{
    (text == "_") | (text == "super") | (text == "self") | (text == "Self") | (text == "crate")
}

impl Ident {
    ghost use Rattle.rust_leaf.specs.Leaf.{ident_span, ident_text, text_of};

    /// The identifier or keyword `text`, which has no `r#`.
    ///
    /// The faults are tested in this order: `Empty`; `Number`, ASCII digits alone; `Invalid`, a first
    /// character that is neither `_` nor of XID_Start, or a later one that isn't of XID_Continue.
    /// `Memory` is answered only for a text that is none of these, where memory for it was refused.
    pub fn new(alloc: Global, text: &str, span: Span) -> Result<Ident, IdentFault>
        ensures text_is { IfOk result (λ ident. ident_text ident ≡ chars text.now) }
        ensures span_is { IfOk result (λ ident. ident_span ident ≡ span) }
        ensures accepts { OnOk result (refusal (chars text.now) ≡ None) }
        ensures fault { IfErr result (λ fault. fault ≡ fault_of (refusal (chars text.now))) }
    {
        match refusal(text) {
            Some(fault) => Err(fault),
            None => Ok(Ident {
                text: LeafText::new(alloc, text)?,
                span,
            }),
        }
    }

    /// The identifier that is printed as `r#` and then `text`.
    ///
    /// The faults are those of `new`, and after them `Reserved`: `_`, `super`, `self`, `Self`, `crate`. `Memory` is
    /// answered only for a text that is none of all these, where memory for what is printed was refused.
    pub fn new_raw(alloc: Global, text: &str, span: Span) -> Result<Ident, IdentFault>
        ensures text_is { IfOk result (λ ident. ident_text ident ≡ codes "r#" ++ chars text.now) }
        ensures span_is { IfOk result (λ ident. ident_span ident ≡ span) }
        ensures accepts { OnOk result (refusal_of_raw (chars text.now) ≡ None) }
        ensures fault { IfErr result (λ fault. fault ≡ fault_of (refusal_of_raw (chars text.now))) }
    {
        match refusal(text) {
            Some(fault) => Err(fault),
            None if is_never_raw(text) => Err(IdentFault::Reserved),
            None => {
                let mut printed = String::from_str(alloc, "r#")?;
                printed.push_str(text)?;
                Ok(Ident {
                    text: LeafText::of(printed)?,
                    span,
                })
            }
        }
    }

    /// The identifier that is printed as `text`, a raw one with its `r#`: of a text that has been lexed.
    ///
    /// `AllocError`: memory for the text was refused. None is taken for a text of at most 16 bytes.
    pub fn from_text(alloc: Global, text: &str, span: Span) -> Result<Ident, AllocError>
        requires { IsTrue (is_ident_text (chars text.now)) }
        ensures text_is { IfOk result (λ ident. ident_text ident ≡ chars text.now) }
        ensures span_is { IfOk result (λ ident. ident_span ident ≡ span) }
    {
        Ok(Ident {
            text: LeafText::new(alloc, text)?,
            span,
        })
    }

    /// The same, which shares its text with the leaves of the table that are printed alike.
    ///
    /// `AllocError`: memory for the text or its place in the table was refused; what the table keeps stays. None is
    /// taken for a text of at most 16 bytes, or one that the table keeps.
    #[inline(always)]
    pub fn from_text_in(table: &mut TextTable, text: &str, span: Span) -> Result<Ident, AllocError>
        requires { IsTrue (is_ident_text (chars text.now)) }
        ensures text_is { IfOk result (λ ident. ident_text ident ≡ chars text.now) }
        ensures span_is { IfOk result (λ ident. ident_span ident ≡ span) }
    {
        Ok(Ident {
            text: LeafText::new_in(table, text)?,
            span,
        })
    }

    /// Where the identifier stands.
    pub fn span(&self) -> Span
        ensures { result ≡ ident_span self.now }
    {
        self.span
    }

    /// Sets where the identifier stands, and nothing else.
    pub fn set_span(&mut self, span: Span)
        ensures span_is { ident_span self.new ≡ span }
        ensures text_stays { ident_text self.new ≡ ident_text self.old }
    {
        self.span = span;
    }

    /// How many bytes the identifier is printed as, a raw one with its `r#`.
    #[tactic(auto, using(crate::proofs::Texts::printed_leaf))]
    pub fn len(&self) -> usize
        ensures { result ≡ length (encode_utf8_all (ident_text self.now)) }
    {
        self.text.as_str().len()
    }

    /// Whether the identifier is printed as `text`. A raw one is printed with its `r#`.
    pub fn is_text(&self, text: &str) -> bool
        ensures { IsTrue result ↔ (ident_text self.now ≡ chars text.now) }
    {
        self.text.is(text)
    }

    /// Appends what the identifier is printed as to a string.
    ///
    /// `AllocError`: memory was refused; the string is as before.
    #[tactic(auto, using(crate::proofs::Pushed::word_pushed))]
    #[inline(always)]
    pub fn push_to(&self, out: &mut String) -> Result<(), AllocError>
        ensures appended { OnOk result (text_of out.new ≡ text_of out.old ++ ident_text self.now) }
        ensures refused { OnErr result (text_of out.new ≡ text_of out.old) }
    {
        out.push_str(self.text.as_str())
    }

    /// The first byte of what the identifier is printed as.
    pub fn first_byte(&self) -> u8
        ensures { take 1 (encode_utf8_all (ident_text self.now)) ≡ result ∷ [] }
    {
        self.text.as_str().as_bytes()[0]
    }
}

impl fmt::Display for Ident {
    ghost use Rattle.rust_leaf.specs.Leaf.{ident_text};

    ghost output = { λ ident. Some (encode_utf8_all (ident_text ident)) };

    #[tactic(auto, using(crate::proofs::Texts::printed_leaf))]
    fn fmt<W: fmt::Write>(&self, f: &mut fmt::Formatter<W>) -> fmt::Result {
        f.write_str(self.text.as_str())
    }
}

impl PartialEq for Ident {
    ghost use Rattle.rust_leaf.specs.Leaf.{ident_bytes};

    ghost eq = { λ a b. bytes_eq (ident_bytes a) (ident_bytes b) };

    ghost laws = { on_per ident_bytes (partial_equiv_from_equiv nat_list_eq_equiv) };

    fn eq(&self, other: &Ident) -> bool {
        self.text.as_str() == other.text.as_str()
    }
}

impl Eq for Ident {
    ghost use Rattle.rust_leaf.specs.Leaf.{ident_bytes};

    ghost laws = { on_equiv ident_bytes nat_list_eq_equiv };
}

impl PartialOrd for Ident {
    ghost use Rattle.rust_leaf.specs.Leaf.{ident_bytes};

    ghost partial_cmp = { λ a b. Some (slice_cmp nat_cmp (ident_bytes a) (ident_bytes b)) };

    ghost laws = { on_po ident_bytes texts_po };

    fn partial_cmp(&self, other: &Ident) -> Option<Ordering> {
        Some(self.cmp(other))
    }
}

impl Ord for Ident {
    ghost use Rattle.rust_leaf.specs.Leaf.{ident_bytes};

    ghost cmp = { λ a b. slice_cmp nat_cmp (ident_bytes a) (ident_bytes b) };

    ghost total = { on_total ident_bytes nat_list_cmp_total };

    ghost matches_partial_cmp = { λ a b. refl };

    ghost matches_eq = { λ a b. texts_ties (ident_bytes a) (ident_bytes b) };

    fn cmp(&self, other: &Ident) -> Ordering {
        self.text.as_str().cmp(other.text.as_str())
    }
}

impl Hash for Ident {
    ghost use Rattle.rust_leaf.specs.Leaf.{ident_bytes};

    ghost hash_input = { λ ident. fed.str (ident_bytes ident) };

    ghost respects_eq = { λ a b h. ap fed.str ((bytes_decides (ident_bytes a) (ident_bytes b)).0 h) };

    fn hash<H: Hasher>(&self, state: &mut H) {
        self.text.as_str().hash(state);
    }
}

impl TryClone for Ident {
    ghost use Rattle.rust_leaf.specs.Leaf.{ident_span, ident_text};
    ghost use Rattle.std.specs.Prelude.{List, ℕ};
    ghost use Rattle.rust_map.specs.declared.span.Span.{Span};

    ghost Shown = { List ℕ × Span };

    ghost shown = { λ ident. (ident_text ident, ident_span ident) };

    /// A copy, which takes no memory and shares its text. Nothing but the count of those that share it can refuse it.
    fn try_clone(&self) -> Result<Ident, AllocError> {
        Ok(Ident {
            text: self.text.copy()?,
            span: self.span,
        })
    }
}
