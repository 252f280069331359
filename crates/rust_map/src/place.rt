//! Places of a text.

ghost use Rattle.rust_map.specs.Places.{order_of};
ghost use Rattle.std.specs.Prelude.{◌≡◌};

use std::cmp::Ordering;

/// A place of a text, by its line and its column. Places are ordered by line, and in a line by column.
#[derive(Clone, Copy, Debug, PartialEq, Eq, PartialOrd, Ord, Hash)]
pub struct LineColumn {
    /// The line, from 1. A line feed ends one, and nothing else does.
    pub line: usize,
    /// The column, in characters from 0.
    pub column: usize,
}

impl LineColumn {
    /// How two places of a text lie to each other, which is what `<` and `cmp` say of them.
    pub fn order(&self, other: &LineColumn) -> Ordering
        ensures { result ≡ order_of self.now other.now }
    {
        self.cmp(other)
    }
}
