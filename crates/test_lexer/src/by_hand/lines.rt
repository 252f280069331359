//! Lines of a page.

use std::error::Error;
use std::fmt::{Debug, Display};
use test_support::Page;

/// Puts whether something is so.
pub fn tell(asked: &str, is_so: bool, page: &mut Page) {
    write!(page, "{asked}: {is_so}\n");
}

/// Puts how any value is shown.
pub fn show<T: Debug>(value: &T, page: &mut Page) {
    write!(page, "{value:?}\n");
}

/// Puts how a value that was made is shown.
pub fn show_made<T: Debug + Drop, E: Drop>(made: Result<T, E>, page: &mut Page) {
    match made {
        Ok(value) => show(&value, page),
        Err(_) => page.cut(),
    }
}

/// Puts what is said of any error.
pub fn say<E: Error>(error: &E, page: &mut Page) {
    write!(page, "{error}\n");
}

/// Puts the print of a value that was made.
pub fn print_made<T: Display + Drop, E: Drop>(made: Result<T, E>, page: &mut Page) {
    match made {
        Ok(value) => write!(page, "«{value}»\n"),
        Err(_) => page.cut(),
    }
}
