//! What is read and printed of syntax.
//!
//! - `reading`: a buffer, a lookahead, a stream that is shown, a text that is read.
//! - `printing`: a list that grows and is printed, errors that are put together.

pub(crate) mod printing;
pub(crate) mod reading;
