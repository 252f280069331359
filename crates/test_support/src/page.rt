//! The text that answers are put onto.

use crate::unanswered::Unanswered;
use std::alloc::{AllocError, Global};
use std::fmt::{Debug, Display};

/// A text that answers are put onto. Where memory is refused to it, or to what is put onto it, it is cut, and is not
/// handed out any more. So a call that only puts something has no error of its own.
#[derive(Drop)]
pub struct Page {
    text: String,
    is_cut: bool,
}

impl Page {
    /// An empty page.
    pub fn new(alloc: Global) -> Page {
        Page {
            text: String::new(alloc),
            is_cut: false,
        }
    }

    /// Where its memory comes from.
    pub fn alloc(&self) -> Global {
        *self.text.allocator()
    }

    /// Its text, if it has all that was put onto it.
    pub fn whole(&self) -> Result<&str, Unanswered> {
        if self.is_cut {
            Err(Unanswered::Cut)
        } else {
            Ok(self.text.as_str())
        }
    }

    /// The same, without the page.
    pub fn into_text(self) -> Result<String, Unanswered> {
        if self.is_cut {
            Err(Unanswered::Cut)
        } else {
            Ok(self.text)
        }
    }

    /// Says that something which was to be put is not there.
    pub fn cut(&mut self) {
        self.is_cut = true;
    }

    /// Puts a text.
    pub fn put(&mut self, text: &str) {
        self.is_cut |= self.text.push_str(text).is_err();
    }

    /// Puts what is formatted. `write!` calls it.
    pub fn write_fmt<D: Display + Drop>(&mut self, value: D) {
        self.is_cut |= self.text.write_fmt(value).is_err();
    }

    /// Puts a value as users are shown it.
    pub fn show<D: Display>(&mut self, value: &D) {
        write!(self, "{value}");
    }

    /// Puts a value as programmers are shown it.
    pub fn debug<D: Debug>(&mut self, value: &D) {
        write!(self, "{value:?}");
    }

    /// Puts a text that was made for the page.
    pub fn put_made(&mut self, made: Result<String, AllocError>) {
        match made {
            Ok(text) => self.put(text.as_str()),
            Err(_) => self.cut(),
        }
    }

    /// Puts a text as it is written in rows, between its marks: characters other than ASCII's printable ones by number.
    pub fn quote(&mut self, text: &str) {
        self.put("«");
        for c in text.chars() {
            if (' '..='~').contains(&c) {
                self.is_cut |= self.text.push(c).is_err();
            } else {
                let code = c as u32;
                write!(self, "⟨{code:X}⟩");
            }
        }
        self.put("»");
    }

    /// Puts a text that was made for the page so.
    pub fn quote_made(&mut self, made: Result<String, AllocError>) {
        match made {
            Ok(text) => self.quote(text.as_str()),
            Err(_) => self.cut(),
        }
    }

    /// Puts bytes by their numbers of base 16 between brackets, one space apart.
    pub fn put_bytes(&mut self, bytes: &[u8]) {
        let mut front = "[";
        for byte in bytes {
            write!(self, "{front}{byte:02X}");
            front = " ";
        }
        self.put(if bytes.is_empty() { "[]" } else { "]" });
    }
}
