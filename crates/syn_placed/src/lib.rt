//! Where what stands in a tree stands in the text: a tree is kept together with the entries of the buffer that it was
//! read from, and both are gone down at once.
//!
//! ```
//! let file = syn::parse_file(&arena, &buffer)?;
//! let placed = Placed::of_buffer(&file, &buffer);
//! ```
//!
//! Where the name of a function stands, of a `Placed` that may be a signature:
//!
//! ```
//! if let Some((Kind::Signature(_), signature)) = placed.node() {
//!     let name = signature.the(Part::Name).and_then(|part| part.word());
//!     // an `&Ident` of the buffer: its text, and by `span` its place
//! }
//! ```
//!
//! - `placed`: a tree, and its entries.
//! - `shape`: what stands in it.
//! - `part`: its parts, by their names.
//! - `turns`, `list`: turns and elements, one behind the other.
//! - `leaf`: words and literals.
//! - `laws`: what holds of where parts stand.
//! - `cut` (private): entries that are cut where the tokens of a tree end.
#![tactic(auto)]

mod cut;
pub mod laws;
pub mod leaf;
pub mod list;
pub mod part;
pub mod placed;
pub mod shape;
pub mod turns;
