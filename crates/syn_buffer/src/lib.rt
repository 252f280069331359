//! The tokens of a stream as one flat list, and places in it.
//!
//! - `entry`: one token of a buffer.
//! - `buffer`: the tokens of a stream, lent.
//! - `position`: places in such a list.
//! - `next`: what stands at a place.
//! - `cursor`: looking at places, and moving on.
//! - `lifetime`: lifetimes at a place.
//! - `skip`: places behind the tree that stands there.
//! - `trees`: the trees at a place.
//! - `place`: places compared, and as what errors speak of.
//! - `visible`: buffers without invisible groups: the entries that are left, and places behind some of them.
//! - `laws`: laws of places.
#![tactic(auto)]

pub mod buffer;
pub mod cursor;
pub mod entry;
pub mod laws;
pub mod lifetime;
pub mod next;
pub mod place;
pub mod position;
pub mod skip;
pub mod trees;
pub mod visible;

pub use buffer::TokenBuffer;
pub use entry::Entry;
pub use next::Next;
pub use position::Cursor;
