//! The classes of pieces.

ghost use Rattle.std.specs.Prelude.{◌≡◌, false};

use crate::group_marks::GroupMarks;

/// The four forms of a doc comment.
#[derive(Clone, Copy, Debug, PartialEq, Eq)]
pub enum DocKind {
    /// `/// ..`
    OuterLine,
    /// `//! ..`
    InnerLine,
    /// `/** .. */`
    OuterBlock,
    /// `/*! .. */`
    InnerBlock,
}

/// What a literal is.
#[derive(Clone, Copy, Debug, PartialEq, Eq)]
pub enum LiteralKind {
    /// A string, `".."` or `r".."`.
    Str,
    /// A byte string, `b".."` or `br".."`.
    ByteStr,
    /// A C string, `c".."` or `cr".."`.
    CStr,
    /// A byte, `b'.'`.
    Byte,
    /// A character, `'.'`.
    Char,
    /// An integer.
    Int,
    /// A number with a dot or an exponent.
    Float,
}

/// The class of a piece of a text.
#[derive(Clone, Copy, Debug, PartialEq, Eq)]
pub enum PieceKind {
    /// The byte order mark, at the very front of a text.
    FrontMark,
    /// One white character.
    White,
    /// A comment that is no doc.
    Comment,
    /// A doc comment.
    Doc(DocKind),
    /// The opening mark of a group.
    Open(GroupMarks),
    /// The closing mark of a group.
    Close(GroupMarks),
    /// A punctuation mark.
    Mark,
    /// An identifier or a keyword, a raw one with its `r#`.
    Ident,
    /// A literal, with its suffix.
    Literal(LiteralKind),
}

/// A piece whose characters are of ASCII, so that each is one byte.
#[derive(Clone, Copy, Debug)]
pub struct NarrowPiece {
    /// Its class.
    pub kind: PieceKind,
    /// The place behind it.
    pub end: usize,
    /// Whether it is a joint mark.
    pub is_joint: bool,
}

impl NarrowPiece {
    // One that is no joint mark.
    #[inline(always)]
    pub(crate) fn of(kind: PieceKind, end: usize) -> NarrowPiece
        ensures kind { result.kind ≡ kind }
        ensures end { result.end ≡ end }
        ensures joint { result.is_joint ≡ false }
    {
        NarrowPiece {
            kind,
            end,
            is_joint: false,
        }
    }
}
