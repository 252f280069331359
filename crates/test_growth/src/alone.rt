//! Whether a text is read as a type: all of a buffer, and what stands first before a reader.

use syn::{Arena, Parse, ParseFault, ParseSingle, Reader, TokenBuffer, parse2, parse2_single};
use test_support::{Stop, refused};

// Whether a form was read, if memory was not refused.
fn is_there<T: Copy>(found: Result<T, ParseFault>) -> Result<bool, Stop> {
    match found {
        Ok(_) => Ok(true),
        Err(ParseFault::Memory) => Err(Stop::Refused),
        Err(ParseFault::Syntax(_)) => Ok(false),
    }
}

// Both answers, where they agree.
fn agreed(one: Result<bool, Stop>, other: Result<bool, Stop>) -> Result<bool, Stop> {
    let one = one?;
    if one == other? {
        Ok(one)
    } else {
        Err(Stop::Changed)
    }
}

// Whether a form that was read before a reader is all that stood there. Where it was refused, the tokens are left.
fn is_all(is_there: Result<bool, Stop>, input: &Reader<'_>, left: usize) -> Result<bool, Stop> {
    match is_there {
        Ok(true) => Ok(input.is_empty()),
        Ok(false) => agreed(is_there, Ok(input.entries().len() != left)),
        Err(_) => refused(input.entries().len() == left),
    }
}

// Whether all tokens before the reader are the form.
fn is_form<'a, T: Parse<'a> + Copy>(mut input: Reader<'a>) -> Result<bool, Stop> {
    let left = input.entries().len();
    let is_there = is_there(input.form::<T>());
    is_all(is_there, &input, left)
}

// The same of a single form.
fn is_single<'a, T: ParseSingle<'a> + Copy>(mut input: Reader<'a>) -> Result<bool, Stop> {
    let left = input.entries().len();
    let is_there = is_there(input.single::<T>());
    is_all(is_there, &input, left)
}

/// Whether the buffer is read as a type that stands for all of a kind, by itself and before a reader.
pub(crate) fn is_read<'a, T: Parse<'a> + Copy>(
    arena: &'a Arena,
    buffer: &'a TokenBuffer<'a>,
) -> Result<bool, Stop> {
    let is_all = is_there(parse2::<T>(arena, buffer));
    agreed(is_all, is_form::<T>(Reader::new(arena, buffer)))
}

/// The same of a form that is one of several of a kind.
pub(crate) fn is_read_single<'a, T: ParseSingle<'a> + Copy>(
    arena: &'a Arena,
    buffer: &'a TokenBuffer<'a>,
) -> Result<bool, Stop> {
    let is_all = is_there(parse2_single::<T>(arena, buffer));
    agreed(is_all, is_single::<T>(Reader::new(arena, buffer)))
}
