//! What the constructors of numbers write.

use rust_leaf::literal::Literal;
use std::alloc::AllocError;
use test_support::{Page, Unanswered};

/// An integer's constructor, by its name, of a number of base 10. Of a text that is none of the type it is asked of 0.
pub fn number(call: &str, text: &str, page: &mut Page) -> Result<(), Unanswered> {
    match call.split_once('_') {
        Some((name, "suffixed")) if name.starts_with('u') => unsigned_suffixed(name, text, page),
        Some((name, "unsuffixed")) if name.starts_with('u') => unsigned(name, text, page),
        Some((name, "suffixed")) => signed_suffixed(name, text, page),
        Some((name, "unsuffixed")) => signed(name, text, page),
        _ => Err(Unanswered::NoRow),
    }
}

fn unsigned_suffixed(name: &str, text: &str, page: &mut Page) -> Result<(), Unanswered> {
    let alloc = page.alloc();
    let made = match name {
        "u8" => Literal::u8_suffixed(alloc, u8::from_str_radix(text, 10).unwrap_or(0)),
        "u16" => Literal::u16_suffixed(alloc, u16::from_str_radix(text, 10).unwrap_or(0)),
        "u32" => Literal::u32_suffixed(alloc, u32::from_str_radix(text, 10).unwrap_or(0)),
        "u64" => Literal::u64_suffixed(alloc, u64::from_str_radix(text, 10).unwrap_or(0)),
        "u128" => Literal::u128_suffixed(alloc, u128::from_str_radix(text, 10).unwrap_or(0)),
        "usize" => Literal::usize_suffixed(alloc, usize::from_str_radix(text, 10).unwrap_or(0)),
        _ => return Err(Unanswered::NoRow),
    };
    put(made, page);
    Ok(())
}

fn unsigned(name: &str, text: &str, page: &mut Page) -> Result<(), Unanswered> {
    let alloc = page.alloc();
    match name {
        "u8" => put(
            Literal::u8_unsuffixed(alloc, u8::from_str_radix(text, 10).unwrap_or(0)),
            page,
        ),
        "u16" => put(
            Literal::u16_unsuffixed(alloc, u16::from_str_radix(text, 10).unwrap_or(0)),
            page,
        ),
        "u32" => put(
            Literal::u32_unsuffixed(alloc, u32::from_str_radix(text, 10).unwrap_or(0)),
            page,
        ),
        "u64" => put(
            Literal::u64_unsuffixed(alloc, u64::from_str_radix(text, 10).unwrap_or(0)),
            page,
        ),
        "u128" => put(
            Literal::u128_unsuffixed(alloc, u128::from_str_radix(text, 10).unwrap_or(0)),
            page,
        ),
        "usize" => put(
            Literal::usize_unsuffixed(alloc, usize::from_str_radix(text, 10).unwrap_or(0)),
            page,
        ),
        _ => return Err(Unanswered::NoRow),
    }
    Ok(())
}

// Puts the literal that was made.
fn put(made: Result<Literal, AllocError>, page: &mut Page) {
    match made {
        Ok(literal) => page.quote(literal.as_str()),
        Err(_) => page.cut(),
    }
}

fn signed_suffixed(name: &str, text: &str, page: &mut Page) -> Result<(), Unanswered> {
    let alloc = page.alloc();
    let made = match name {
        "i8" => Literal::i8_suffixed(alloc, i8::from_str_radix(text, 10).unwrap_or(0)),
        "i16" => Literal::i16_suffixed(alloc, i16::from_str_radix(text, 10).unwrap_or(0)),
        "i32" => Literal::i32_suffixed(alloc, i32::from_str_radix(text, 10).unwrap_or(0)),
        "i64" => Literal::i64_suffixed(alloc, i64::from_str_radix(text, 10).unwrap_or(0)),
        "i128" => Literal::i128_suffixed(alloc, i128::from_str_radix(text, 10).unwrap_or(0)),
        "isize" => Literal::isize_suffixed(alloc, isize::from_str_radix(text, 10).unwrap_or(0)),
        _ => return Err(Unanswered::NoRow),
    };
    put(made, page);
    Ok(())
}

fn signed(name: &str, text: &str, page: &mut Page) -> Result<(), Unanswered> {
    let alloc = page.alloc();
    let made = match name {
        "i8" => Literal::i8_unsuffixed(alloc, i8::from_str_radix(text, 10).unwrap_or(0)),
        "i16" => Literal::i16_unsuffixed(alloc, i16::from_str_radix(text, 10).unwrap_or(0)),
        "i32" => Literal::i32_unsuffixed(alloc, i32::from_str_radix(text, 10).unwrap_or(0)),
        "i64" => Literal::i64_unsuffixed(alloc, i64::from_str_radix(text, 10).unwrap_or(0)),
        "i128" => Literal::i128_unsuffixed(alloc, i128::from_str_radix(text, 10).unwrap_or(0)),
        "isize" => Literal::isize_unsuffixed(alloc, isize::from_str_radix(text, 10).unwrap_or(0)),
        _ => return Err(Unanswered::NoRow),
    };
    put(made, page);
    Ok(())
}
