//! Characters by their places in a text, in bytes from 0: those of `text_chars`.

pub use text_chars::{char_at, next_char};
