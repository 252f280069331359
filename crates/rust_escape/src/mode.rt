//! The kinds of literals that hold text or bytes.

ghost use Rattle.std.specs.Prelude.{◌≡◌};

/// The kind of a literal.
#[derive(Clone, Copy, Debug, PartialEq, Eq)]
pub enum Mode {
    /// `'a'`.
    Char,
    /// `b'a'`.
    Byte,
    /// `"a"`.
    Str,
    /// `r"a"`.
    RawStr,
    /// `b"a"`.
    ByteStr,
    /// `br"a"`.
    RawByteStr,
    /// `c"a"`.
    CStr,
    /// `cr"a"`.
    RawCStr,
}

impl Mode {
    ghost use Rattle.rust_escape.specs.Mode.{in_double_quotes, prefix_noraw};

    /// Whether the literal stands in double quotes: all do but characters and bytes.
    pub fn in_double_quotes(self) -> bool
        ensures { result ≡ in_double_quotes self }
    {
        match self {
            Mode::Char | Mode::Byte => false,
            _ => true,
        }
    }

    /// What stands before the quote, without the `r` of a raw string: `b`, `c` or nothing.
    pub fn prefix_noraw(self) -> &'static str
        ensures { result.now ≡ prefix_noraw self }
    {
        match self {
            Mode::Char | Mode::Str | Mode::RawStr => "",
            Mode::Byte | Mode::ByteStr | Mode::RawByteStr => "b",
            Mode::CStr | Mode::RawCStr => "c",
        }
    }
}
