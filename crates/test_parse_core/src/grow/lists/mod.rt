//! Lists that grow, are copied and are read, and errors that are put together.
//!
//! - `built`: lists that are built, extended and copied.
//! - `reading`: lists that are read.
//! - `names`: identifiers that are read, and made without `r#`.
//! - `errors`: errors that are made, extended, copied and gone over.
//! - `groups`: groups that are printed round what stands inside.

pub(crate) mod built;
pub(crate) mod errors;
pub(crate) mod groups;
pub(crate) mod names;
pub(crate) mod reading;
