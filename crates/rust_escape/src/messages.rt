//! What is said of a malformed unit. The words are no promise.

use crate::error::EscapeError;
use std::error::Error;
use std::fmt;

// The words for an error or a warning.
fn words(error: &EscapeError) -> &'static str {
    match error {
        EscapeError::ZeroChars => "no character between the quotes",
        EscapeError::MoreThanOneChar => "more than one character between the quotes",
        EscapeError::LoneSlash => "backslash at the end",
        EscapeError::InvalidEscape => "unknown escape",
        EscapeError::BareCarriageReturn => "carriage return by itself",
        EscapeError::BareCarriageReturnInRawString => "carriage return in a raw string",
        EscapeError::EscapeOnlyChar => "character that must be escaped",
        EscapeError::TooShortHexEscape => "too few digits behind \\x",
        EscapeError::InvalidCharInHexEscape => "no hexadecimal digit behind \\x",
        EscapeError::OutOfRangeHexEscape => "more than 7F behind \\x",
        EscapeError::NoBraceInUnicodeEscape => "no brace behind \\u",
        EscapeError::InvalidCharInUnicodeEscape => "no hexadecimal digit in \\u{..}",
        EscapeError::EmptyUnicodeEscape => "no digit in \\u{..}",
        EscapeError::UnclosedUnicodeEscape => "\\u{ without its closing brace",
        EscapeError::LeadingUnderscoreUnicodeEscape => "underscore at the front of \\u{..}",
        EscapeError::OverlongUnicodeEscape => "more than six digits in \\u{..}",
        EscapeError::LoneSurrogateUnicodeEscape => "surrogate in \\u{..}",
        EscapeError::OutOfRangeUnicodeEscape => "more than 10FFFF in \\u{..}",
        EscapeError::UnicodeEscapeInByte => "\\u{..} in a byte literal",
        EscapeError::NonAsciiCharInByte => "character past ASCII in a byte literal",
        EscapeError::NulInCStr => "zero in a C string",
        EscapeError::UnskippedWhitespaceWarning => "white space behind a skip that is not skipped",
        EscapeError::MultipleSkippedLinesWarning => "more than one line skipped",
    }
}

impl fmt::Display for EscapeError {
    fn fmt<W: fmt::Write>(&self, f: &mut fmt::Formatter<W>) -> fmt::Result {
        f.write_str(words(self))
    }
}

impl Error for EscapeError {}
