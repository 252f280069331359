//! What encloses a group.

/// A pair of marks that encloses a group.
#[derive(Clone, Copy, Debug, PartialEq, Eq)]
pub enum GroupMarks {
    /// `( .. )`
    Parenthesis,
    /// `{ .. }`
    Brace,
    /// `[ .. ]`
    Bracket,
}
