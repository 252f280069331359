//! What is wrong with a unit of a literal's inside.

ghost use Rattle.std.specs.Prelude.{◌≡◌};

/// Why a unit is malformed, or what a warning is about.
#[derive(Clone, Copy, Debug, PartialEq, Eq)]
pub enum EscapeError {
    /// A character or byte literal holds nothing.
    ZeroChars,
    /// A character or byte literal holds more than one unit.
    MoreThanOneChar,
    /// The inside ends with a backslash.
    LoneSlash,
    /// No escape begins with the character behind the backslash.
    InvalidEscape,
    /// A carriage return stands by itself.
    BareCarriageReturn,
    /// A carriage return stands in a raw string.
    BareCarriageReturnInRawString,
    /// The character has to be written by an escape: the own quote, or a tab or a line feed in a
    /// character or byte literal.
    EscapeOnlyChar,
    /// `\x` has fewer than two digits.
    TooShortHexEscape,
    /// What follows `\x` is no hexadecimal digit.
    InvalidCharInHexEscape,
    /// `\x` gives more than 7F in a text.
    OutOfRangeHexEscape,
    /// No brace follows `\u`.
    NoBraceInUnicodeEscape,
    /// `\u{` holds a character that is neither a hexadecimal digit nor an underscore.
    InvalidCharInUnicodeEscape,
    /// `\u{}`.
    EmptyUnicodeEscape,
    /// `\u{` isn't closed.
    UnclosedUnicodeEscape,
    /// `\u{_`.
    LeadingUnderscoreUnicodeEscape,
    /// `\u{` holds more than six digits.
    OverlongUnicodeEscape,
    /// `\u{` gives a surrogate.
    LoneSurrogateUnicodeEscape,
    /// `\u{` gives more than 10FFFF.
    OutOfRangeUnicodeEscape,
    /// `\u{` stands in a byte literal.
    UnicodeEscapeInByte,
    /// A character that isn't ASCII stands in a byte literal.
    NonAsciiCharInByte,
    /// A zero stands in a C string, in any spelling.
    NulInCStr,
    /// White space that isn't skipped follows a skip: a warning.
    UnskippedWhitespaceWarning,
    /// A skip passes more than one line feed: a warning.
    MultipleSkippedLinesWarning,
}

impl EscapeError {
    ghost use Rattle.rust_escape.specs.Error.{is_fatal};

    /// Whether the literal is malformed: false for the two warnings alone.
    pub fn is_fatal(&self) -> bool
        ensures { result ≡ is_fatal self.now }
    {
        match self {
            EscapeError::UnskippedWhitespaceWarning | EscapeError::MultipleSkippedLinesWarning =>
                false,
            _ => true,
        }
    }
}
