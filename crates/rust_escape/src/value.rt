//! The values of units.

/// What a unit of a literal's inside stands for.
#[derive(Clone, Copy, Debug, PartialEq, Eq)]
pub enum Value {
    /// A character, as each byte below 80 is too.
    Character(char),
    /// A byte from 80 to FF that is no text by itself.
    HighByte(u8),
}
