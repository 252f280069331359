//! Laws of the values of literals: each has at most one, what is written for a value has that value, and which
//! literals of the lexer have one.
//!
//! Each function does nothing; its contract is the law.

ghost use Rattle.rust_escape.specs.Mode.{in_double_quotes};
ghost use Rattle.rust_escape.specs.Unit.{IsInside, IsOnlyUnit, Lexical};
ghost use Rattle.rust_escape.specs.Value.{byte_value};
ghost use Rattle.rust_escape.specs.declared.mode.Mode.{Mode};
ghost use Rattle.rust_escape.specs.declared.mode.Mode.TheVariants.{Byte, Char};
ghost use Rattle.rust_escape.specs.declared.value.Value.{Value};
ghost use Rattle.rust_escape.specs.declared.value.Value.TheVariants.{Character};
ghost use Rattle.rust_leaf.specs.CString.{IsCString, has_zero};
ghost use Rattle.rust_leaf.specs.Escaped.{byte_character_text, byte_string_text, character_text, string_text};
ghost use Rattle.rust_leaf.specs.Value.{AreBytes, has_barred_return, IsByteStrValue, IsByteValue, IsCStrValue};
ghost use Rattle.rust_leaf.specs.Value.{IsCharValue, IsStrValue, IsTaken, value_rule};
ghost use Rattle.rust_lex.specs.declared.piece.LiteralKind.TheVariants.{ByteStr, CStr, Str};
ghost use Rattle.std.specs.Char.{IsScalar};
ghost use Rattle.std.specs.Prelude.{◌≡◌, ◌<◌, ◌++◌, ◌∷◌, ℕ, IsFalse, List, [], codes, true};
ghost use Rattle.std.specs.Str.{chars};

/// A literal has at most one value.
pub fn one_value()
    ensures text { (text xs ys : List ℕ) → IsStrValue text xs → IsStrValue text ys → xs ≡ ys }
    ensures bytes { (text xs ys : List ℕ) → IsByteStrValue text xs → IsByteStrValue text ys → xs ≡ ys }
    ensures c_bytes { (text xs ys : List ℕ) → IsCStrValue text xs → IsCStrValue text ys → xs ≡ ys }
    ensures character { (text : List ℕ) (c d : ℕ) → IsCharValue text c → IsCharValue text d → c ≡ d }
    ensures byte { (text : List ℕ) (b d : ℕ) → IsByteValue text b → IsByteValue text d → b ≡ d }
{}

/// What `Literal::string` writes for a text has the text as its value.
pub fn written_string(text: &str)
    ensures { IsStrValue (string_text (chars text.now)) (chars text.now) }
{}

/// What `Literal::byte_string` writes for bytes has these as its value.
pub fn written_byte_string()
    ensures { (bytes : List ℕ) → AreBytes bytes → IsByteStrValue (byte_string_text bytes) bytes }
{}

/// What `Literal::c_string` writes for bytes has these as its value, and a zero behind them.
pub fn written_c_string()
    ensures { (bytes text : List ℕ) → AreBytes bytes → IsFalse (has_zero bytes) → IsCString bytes text
        → IsCStrValue text (bytes ++ 0 ∷ []) }
{}

/// What `Literal::character` and `Literal::byte_character` write between their quotes is one unit, which
/// spells the character or the byte.
pub fn written_unit()
    ensures character { (c : ℕ) → IsScalar c
        → (inside : List ℕ) × (character_text c ≡ codes "'" ++ inside ++ codes "'")
        × IsOnlyUnit Char inside (Character c) }
    ensures byte { (b : ℕ) → b < 256
        → (inside : List ℕ) × (byte_character_text b ≡ codes "b'" ++ inside ++ codes "'")
        × IsOnlyUnit Byte inside (byte_value b) }
{}

/// An inside in double quotes that the lexer takes, up to the closing quote, has a value where it is raw or holds no
/// carriage return: the values that its units spell to the lexer.
pub fn taken_inside()
    ensures { (mode : Mode) (inside rest : List ℕ) (values : List Value) → in_double_quotes mode ≡ true
        → IsFalse (has_barred_return mode inside)
        → IsInside Lexical mode inside (codes "\"" ++ rest) values → IsInside (value_rule mode) mode inside [] values }
{}

/// A literal in double quotes that the lexer takes has a value of its kind where it is raw or holds no carriage
/// return.
pub fn taken_literal()
    ensures text { (cs : List ℕ) → IsTaken Str cs → (xs : List ℕ) × IsStrValue cs xs }
    ensures bytes { (cs : List ℕ) → IsTaken ByteStr cs → (xs : List ℕ) × IsByteStrValue cs xs }
    ensures c_text { (cs : List ℕ) → IsTaken CStr cs → (xs : List ℕ) × IsCStrValue cs xs }
{}
