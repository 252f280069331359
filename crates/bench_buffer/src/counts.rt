//! What a walk met.

use std::fmt;

/// How many tokens of each sort were met, in all walks; past the largest number they are counted from 0 again.
#[derive(Drop)]
pub struct Counts {
    /// Identifiers and keywords, but those of lifetimes.
    pub idents: u64,
    /// Lifetimes.
    pub lifetimes: u64,
    /// Punctuation marks.
    pub marks: u64,
    /// Literals.
    pub literals: u64,
    /// Groups.
    pub groups: u64,
    /// Places where a kind was looked for and stood.
    pub kinds: u64,
}

impl Counts {
    /// Nothing was met.
    pub fn none() -> Counts {
        Counts {
            idents: 0,
            lifetimes: 0,
            marks: 0,
            literals: 0,
            groups: 0,
            kinds: 0,
        }
    }
}

impl fmt::Display for Counts {
    fn fmt<W: fmt::Write>(&self, f: &mut fmt::Formatter<W>) -> fmt::Result {
        write!(
            f,
            "{} identifiers, {} lifetimes, {} marks, ",
            self.idents, self.lifetimes, self.marks
        )?;
        write!(
            f,
            "{} literals, {} groups, {} kinds",
            self.literals, self.groups, self.kinds
        )
    }
}
