//! Where a tree stands in what is written.

/// Where a tree stands: what is written of some parts turns on it.
#[derive(Clone, Copy)]
pub enum Within {
    /// Anywhere else.
    Anywhere,
    /// In the arguments of a segment, whose list has its lifetimes first.
    InArguments,
    /// In an impl whose generics are removed where they are bare.
    InImpl,
}
