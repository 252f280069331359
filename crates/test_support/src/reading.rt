//! What rows write.

use crate::unanswered::Unanswered;
use std::alloc::Global;

/// The text that is written in a row. An error where a number behind `⟨` is no character's.
pub fn read(alloc: Global, written: &str) -> Result<String, Unanswered> {
    let mut text = String::new(alloc);
    let mut number = None;
    for c in written.chars() {
        number = match number {
            None if c == '⟨' => Some(0),
            None => {
                text.push(c)?;
                None
            }
            Some(code) if c == '⟩' => {
                text.push(char::from_u32(code).ok_or(Unanswered::NoRow)?)?;
                None
            }
            Some(code) => Some(with_digit(code, c).ok_or(Unanswered::NoRow)?),
        };
    }
    Ok(text)
}

// A number with one more digit, of base 16.
fn with_digit(number: u32, c: char) -> Option<u32> {
    let digit = c.to_digit(16)?;
    number.checked_mul(16)?.checked_add(digit)
}

/// The bytes whose numbers of base 16 a text has, one space apart.
pub fn read_bytes(alloc: Global, text: &str) -> Result<Vec<u8>, Unanswered> {
    let mut bytes = Vec::new(alloc);
    for word in text.split_ascii_whitespace() {
        match u8::from_str_radix(word, 16) {
            Ok(byte) => bytes.push(byte)?,
            Err(_) => return Err(Unanswered::NoRow),
        }
    }
    Ok(bytes)
}
