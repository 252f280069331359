//! Laws of leaves: equality, order and hash of identifiers, and what identifiers, marks and literals
//! are written as.
//!
//! Each function does nothing; its contract is the law.

ghost use Rattle.rust_leaf.specs.CString.{AreParts, IsCString, Part, has_zero};
ghost use Rattle.rust_leaf.specs.Escaped.{byte_character_text, byte_string_text, character_text, string_text};
ghost use Rattle.rust_leaf.specs.Identifier.{is_ident_text, refusal, refusal_of_raw};
ghost use Rattle.rust_leaf.specs.Integer.{IsIntegerSuffix};
ghost use Rattle.rust_leaf.specs.Leaf.{AreCharacters, ident_text, literal_text, punct_char};
ghost use Rattle.rust_leaf.specs.Mark.{is_mark};
ghost use Rattle.rust_leaf.specs.Parse.{IsLiteralLeaf, IsLiteralText};
ghost use Rattle.rust_leaf.specs.Value.{AreBytes};
ghost use Rattle.rust_leaf.specs.declared.ident.IdentFault.{IdentFault};
ghost use Rattle.rust_leaf.specs.declared.punct.Spacing.{Spacing};
ghost use Rattle.rust_leaf.specs.declared.value.ConversionErrorKind.{ConversionErrorKind};
ghost use Rattle.rust_lex.specs.Piece.{IsIdent};
ghost use Rattle.std.specs.Char.{IsScalar};
ghost use Rattle.std.specs.Cmp.Lexicographic.{slice_cmp};
ghost use Rattle.std.specs.Fmt.{decimal};
ghost use Rattle.std.specs.Hash as fed;
ghost use Rattle.std.specs.Ordering.{nat_cmp};
ghost use Rattle.std.specs.Prelude.{◌<◌, ◌≡◌, encode_utf8_all, ◌↔◌, ◌++◌, [], ℕ, IsFalse, IsTrue, List, None, codes};
ghost use Rattle.std.specs.Prelude.{true};
ghost use Rattle.std.specs.Str.{chars};
ghost use Rattle.std.specs.declared.cmp.Ordering.TheVariants.{Equal};

use crate::ident::{Ident, IdentFault};
use crate::literal::Literal;
use crate::punct::{Punct, Spacing};
use crate::value::ConversionErrorKind;
use std::hash::Hash;

/// Two identifiers are equal exactly if they are printed alike, whatever their spans.
pub fn equality_is_by_text(a: &Ident, b: &Ident)
    ensures { IsTrue (⟦<Ident as PartialEq>⟧.eq a.now b.now) ↔ (ident_text a.now ≡ ident_text b.now) }
{}

/// Each identifier equals itself.
pub fn equality_is_reflexive(a: &Ident)
    ensures { IsTrue (⟦<Ident as PartialEq>⟧.eq a.now a.now) }
{}

/// Equality goes both ways.
pub fn equality_is_symmetric(a: &Ident, b: &Ident)
    ensures { IsTrue (⟦<Ident as PartialEq>⟧.eq a.now b.now) → IsTrue (⟦<Ident as PartialEq>⟧.eq b.now a.now) }
{}

/// What equals one and the same identifier is equal.
pub fn equality_is_transitive(a: &Ident, b: &Ident, c: &Ident)
    ensures { IsTrue (⟦<Ident as PartialEq>⟧.eq a.now b.now) → IsTrue (⟦<Ident as PartialEq>⟧.eq b.now c.now)
        → IsTrue (⟦<Ident as PartialEq>⟧.eq a.now c.now) }
{}

/// The order answers `Equal` exactly for equal identifiers.
pub fn order_agrees(a: &Ident, b: &Ident)
    ensures { (⟦<Ident as Ord>⟧.cmp a.now b.now ≡ Equal) ↔ IsTrue (⟦<Ident as PartialEq>⟧.eq a.now b.now) }
{}

/// Identifiers are ordered as the bytes of what is printed are, one by one from the front.
#[tactic(auto, using(crate::proofs::Texts::printed_leaf))]
pub fn order_is_by_text(a: &Ident, b: &Ident)
    ensures { ⟦<Ident as Ord>⟧.cmp a.now b.now
        ≡ slice_cmp nat_cmp (encode_utf8_all (ident_text a.now)) (encode_utf8_all (ident_text b.now)) }
{}

/// An identifier is hashed as what is printed is.
#[tactic(auto, using(crate::proofs::Texts::printed_leaf))]
pub fn hash_is_by_text(ident: &Ident)
    ensures { ⟦<Ident as Hash>⟧.hash_input ident.now ≡ fed.str (encode_utf8_all (ident_text ident.now)) }
{}

/// Equal identifiers are hashed alike.
pub fn hash_agrees(a: &Ident, b: &Ident)
    ensures { IsTrue (⟦<Ident as PartialEq>⟧.eq a.now b.now)
        → ⟦<Ident as Hash>⟧.hash_input a.now ≡ ⟦<Ident as Hash>⟧.hash_input b.now }
{}

/// Two faults of identifiers, two spacings and two faults of values are equal exactly if they are the same.
pub fn equality_is_sameness()
    ensures faults { (a b : IdentFault) → IsTrue (⟦<IdentFault as PartialEq>⟧.eq a b) ↔ (a ≡ b) }
    ensures spacings { (a b : Spacing) → IsTrue (⟦<Spacing as PartialEq>⟧.eq a b) ↔ (a ≡ b) }
    ensures value_faults { (a b : ConversionErrorKind)
        → IsTrue (⟦<ConversionErrorKind as PartialEq>⟧.eq a b) ↔ (a ≡ b) }
{}

/// Each identifier is printed as one.
pub fn printed_as_identifier(ident: &Ident)
    ensures { IsTrue (is_ident_text (ident_text ident.now)) }
{}

/// Each mark is one of the 22.
pub fn printed_as_mark(punct: &Punct)
    ensures { IsTrue (is_mark (punct_char punct.now)) }
{}

/// Each literal is printed as one, or as a minus directly before a number.
pub fn printed_as_literal(literal: &Literal)
    ensures { IsLiteralText (literal_text literal.now) }
{}

/// What `new` accepts is the text of an identifier.
pub fn accepted_is_identifier(text: &str)
    ensures { refusal (chars text.now) ≡ None → IsTrue (is_ident_text (chars text.now)) }
{}

/// And so is `r#` before what `new_raw` accepts.
pub fn accepted_raw_is_identifier(text: &str)
    ensures { refusal_of_raw (chars text.now) ≡ None → IsTrue (is_ident_text (codes "r#" ++ chars text.now)) }
{}

/// The bytes of a C string are read as characters and loose bytes in one way.
pub fn one_reading_of_c_string(bytes: &[u8])
    ensures { (ps qs : List Part) → AreParts ps bytes.now → AreParts qs bytes.now → ps ≡ qs }
{}

/// The texts of identifiers are the identifiers by themselves.
pub fn identifier_text()
    ensures { (cs : List ℕ) → is_ident_text cs ≡ true ↔ IsIdent cs [] }
{}

/// What is written for a text, a character, a byte, bytes, and bytes of a C string is a literal by itself.
pub fn written_in_quotes()
    ensures string { (cs : List ℕ) → AreCharacters cs → IsLiteralLeaf (string_text cs) }
    ensures character { (c : ℕ) → IsScalar c → IsLiteralLeaf (character_text c) }
    ensures byte { (b : ℕ) → b < 256 → IsLiteralLeaf (byte_character_text b) }
    ensures byte_string { (bs : List ℕ) → AreBytes bs → IsLiteralLeaf (byte_string_text bs) }
    ensures c_string { (bs cs : List ℕ) → AreBytes bs → IsFalse (has_zero bs) → IsCString bs cs → IsLiteralLeaf cs }
{}

/// What is written for an integer is a literal by itself, its suffix included.
pub fn written_integers()
    ensures { (n : ℕ) (suffix : List ℕ) → IsIntegerSuffix suffix → IsLiteralLeaf (decimal n ++ suffix) }
{}
