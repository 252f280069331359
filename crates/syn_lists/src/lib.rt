//! Lists of values with separators between them.
//!
//! - `punctuated`: the lists, and what is put in and taken out one by one.
//! - `pair`: a value and the separator behind it.
//! - `iter`: the values one by one, from both ends.
//! - `pairs`: the values with their separators, the same way.
//! - `laws`: laws of lists that are compared.
//! - `read`: lists that are read, to their end and of at least one value; `many`: until a kind stands.
//! - `nowhere`: a kind that stands nowhere.
//! - `retain` (private): what a function rejects is taken out.
//! - `collect` (private): lists of all values or pairs of an iterator.
//! - `printed` (private): lists printed as tokens, and copies.
#![tactic(auto)]

mod collect;
pub mod iter;
pub mod laws;
pub mod many;
pub mod nowhere;
pub mod pair;
pub mod pairs;
mod printed;
pub mod punctuated;
pub mod read;
mod retain;

pub use iter::{IntoIter, Iter, IterMut};
pub use many::read_many;
pub use nowhere::Nowhere;
pub use pair::Pair;
pub use pairs::{IntoPairs, Pairs, PairsMut};
pub use punctuated::Punctuated;
pub use read::ParseBufferExt;
