//! Laws of how expressions bind, by their edges: definitions and no code.
//!
//! The written grammar says of each operand where it ends: where what follows can't go on with it. Here stands how it
//! is usually listed: what may stand on the left edge of a right operand, and on the right edge of a left one. The laws
//! say that both are the same.
//!
//! `specs/Classes` has what the forms are called, `specs/Edges` the two edges, `specs/Binds` the list, `specs/Parts`
//! what else is listed. In `proofs/`: `Classes` (the classes are those of the tables of forms), `Edges` (the first two
//! laws), `Parts` (the third), `Examples` (single expressions).
//!
//! - `laws`: these laws.
#![tactic(auto)]

pub mod laws;
