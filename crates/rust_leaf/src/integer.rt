//! Integer literals: a number in plain decimal, behind a minus where it is below zero, and then its suffix.

ghost use Rattle.rust_leaf.specs.Integer.{IsIntegerSuffix};
ghost use Rattle.rust_leaf.specs.Leaf.{literal_span, literal_text, text_of};
ghost use Rattle.rust_map.specs.Spans.{call_site};
ghost use Rattle.std.specs.Fmt.{decimal, signed_decimal};
ghost use Rattle.std.specs.Prelude.{◌++◌, ◌≡◌, IfOk, OnOk, codes};
ghost use Rattle.std.specs.Str.{chars};

use crate::escape::push_word;
use crate::literal::Literal;
use std::alloc::{AllocError, Global};

// Appends a number in decimal.
#[tactic(auto, using(crate::proofs::Numbers::decimal_pushed))]
fn push_decimal(out: &mut String, n: u128) -> Result<(), AllocError>
    ensures { OnOk result (text_of out.new ≡ text_of out.old ++ decimal n) }
{
    write!(out, "{n}")
}

// Appends a number in decimal, behind a minus where it is below zero.
#[tactic(auto, using(crate::proofs::Numbers::signed_pushed))]
fn push_signed(out: &mut String, n: i128) -> Result<(), AllocError>
    ensures { OnOk result (text_of out.new ≡ text_of out.old ++ signed_decimal n) }
{
    write!(out, "{n}")
}

// The literal of a number and a suffix.
#[tactic(auto, using(crate::proofs::Numbers::number_literal))]
fn unsigned(alloc: Global, n: u128, suffix: &str) -> Result<Literal, AllocError>
    requires { IsIntegerSuffix (chars suffix.now) }
    ensures text_is { IfOk result (λ literal. literal_text literal ≡ decimal n ++ chars suffix.now) }
    ensures span_is { IfOk result (λ literal. literal_span literal ≡ call_site) }
{
    let mut out = String::new(alloc);
    push_decimal(&mut out, n)?;
    push_word(&mut out, suffix)?;
    Literal::of(out)
}

// The literal of a number that may be below zero, and a suffix.
#[tactic(auto, using(crate::proofs::Numbers::number_literal))]
fn signed(alloc: Global, n: i128, suffix: &str) -> Result<Literal, AllocError>
    requires { IsIntegerSuffix (chars suffix.now) }
    ensures text_is { IfOk result (λ literal. literal_text literal ≡ signed_decimal n ++ chars suffix.now) }
    ensures span_is { IfOk result (λ literal. literal_span literal ≡ call_site) }
{
    let mut out = String::new(alloc);
    push_signed(&mut out, n)?;
    push_word(&mut out, suffix)?;
    Literal::of(out)
}

#[tactic(auto, using(crate::proofs::Numbers::suffixes, std::proofs::lemmas::Grind::common_steps))]
impl Literal {
    /// A `u8` in decimal, and then `u8`.
    ///
    /// `AllocError`: memory for its text was refused.
    pub fn u8_suffixed(alloc: Global, n: u8) -> Result<Literal, AllocError>
        ensures text_is { IfOk result (λ literal. literal_text literal ≡ decimal n ++ codes "u8") }
        ensures span_is { IfOk result (λ literal. literal_span literal ≡ call_site) }
    {
        unsigned(alloc, n as u128, "u8")
    }

    /// A `u8` in decimal.
    ///
    /// `AllocError`: memory for its text was refused.
    pub fn u8_unsuffixed(alloc: Global, n: u8) -> Result<Literal, AllocError>
        ensures text_is { IfOk result (λ literal. literal_text literal ≡ decimal n) }
        ensures span_is { IfOk result (λ literal. literal_span literal ≡ call_site) }
    {
        unsigned(alloc, n as u128, "")
    }

    /// A `u16` in decimal, and then `u16`.
    ///
    /// `AllocError`: memory for its text was refused.
    pub fn u16_suffixed(alloc: Global, n: u16) -> Result<Literal, AllocError>
        ensures text_is { IfOk result (λ literal. literal_text literal ≡ decimal n ++ codes "u16") }
        ensures span_is { IfOk result (λ literal. literal_span literal ≡ call_site) }
    {
        unsigned(alloc, n as u128, "u16")
    }

    /// A `u16` in decimal.
    ///
    /// `AllocError`: memory for its text was refused.
    pub fn u16_unsuffixed(alloc: Global, n: u16) -> Result<Literal, AllocError>
        ensures text_is { IfOk result (λ literal. literal_text literal ≡ decimal n) }
        ensures span_is { IfOk result (λ literal. literal_span literal ≡ call_site) }
    {
        unsigned(alloc, n as u128, "")
    }

    /// A `u32` in decimal, and then `u32`.
    ///
    /// `AllocError`: memory for its text was refused.
    pub fn u32_suffixed(alloc: Global, n: u32) -> Result<Literal, AllocError>
        ensures text_is { IfOk result (λ literal. literal_text literal ≡ decimal n ++ codes "u32") }
        ensures span_is { IfOk result (λ literal. literal_span literal ≡ call_site) }
    {
        unsigned(alloc, n as u128, "u32")
    }

    /// A `u32` in decimal.
    ///
    /// `AllocError`: memory for its text was refused.
    pub fn u32_unsuffixed(alloc: Global, n: u32) -> Result<Literal, AllocError>
        ensures text_is { IfOk result (λ literal. literal_text literal ≡ decimal n) }
        ensures span_is { IfOk result (λ literal. literal_span literal ≡ call_site) }
    {
        unsigned(alloc, n as u128, "")
    }

    /// A `u64` in decimal, and then `u64`.
    ///
    /// `AllocError`: memory for its text was refused.
    pub fn u64_suffixed(alloc: Global, n: u64) -> Result<Literal, AllocError>
        ensures text_is { IfOk result (λ literal. literal_text literal ≡ decimal n ++ codes "u64") }
        ensures span_is { IfOk result (λ literal. literal_span literal ≡ call_site) }
    {
        unsigned(alloc, n as u128, "u64")
    }

    /// A `u64` in decimal.
    ///
    /// `AllocError`: memory for its text was refused.
    pub fn u64_unsuffixed(alloc: Global, n: u64) -> Result<Literal, AllocError>
        ensures text_is { IfOk result (λ literal. literal_text literal ≡ decimal n) }
        ensures span_is { IfOk result (λ literal. literal_span literal ≡ call_site) }
    {
        unsigned(alloc, n as u128, "")
    }

    /// A `u128` in decimal, and then `u128`.
    ///
    /// `AllocError`: memory for its text was refused.
    pub fn u128_suffixed(alloc: Global, n: u128) -> Result<Literal, AllocError>
        ensures text_is { IfOk result (λ literal. literal_text literal ≡ decimal n ++ codes "u128") }
        ensures span_is { IfOk result (λ literal. literal_span literal ≡ call_site) }
    {
        unsigned(alloc, n, "u128")
    }

    /// A `u128` in decimal.
    ///
    /// `AllocError`: memory for its text was refused.
    pub fn u128_unsuffixed(alloc: Global, n: u128) -> Result<Literal, AllocError>
        ensures text_is { IfOk result (λ literal. literal_text literal ≡ decimal n) }
        ensures span_is { IfOk result (λ literal. literal_span literal ≡ call_site) }
    {
        unsigned(alloc, n, "")
    }

    /// A `usize` in decimal, and then `usize`.
    ///
    /// `AllocError`: memory for its text was refused.
    pub fn usize_suffixed(alloc: Global, n: usize) -> Result<Literal, AllocError>
        ensures text_is { IfOk result (λ literal. literal_text literal ≡ decimal n ++ codes "usize") }
        ensures span_is { IfOk result (λ literal. literal_span literal ≡ call_site) }
    {
        unsigned(alloc, n as u128, "usize")
    }

    /// A `usize` in decimal.
    ///
    /// `AllocError`: memory for its text was refused.
    pub fn usize_unsuffixed(alloc: Global, n: usize) -> Result<Literal, AllocError>
        ensures text_is { IfOk result (λ literal. literal_text literal ≡ decimal n) }
        ensures span_is { IfOk result (λ literal. literal_span literal ≡ call_site) }
    {
        unsigned(alloc, n as u128, "")
    }

    /// A `i8` in decimal, behind a minus below zero, and then `i8`.
    ///
    /// `AllocError`: memory for its text was refused.
    pub fn i8_suffixed(alloc: Global, n: i8) -> Result<Literal, AllocError>
        ensures text_is { IfOk result (λ literal. literal_text literal ≡ signed_decimal n ++ codes "i8") }
        ensures span_is { IfOk result (λ literal. literal_span literal ≡ call_site) }
    {
        signed(alloc, n as i128, "i8")
    }

    /// A `i8` in decimal, behind a minus below zero.
    ///
    /// `AllocError`: memory for its text was refused.
    pub fn i8_unsuffixed(alloc: Global, n: i8) -> Result<Literal, AllocError>
        ensures text_is { IfOk result (λ literal. literal_text literal ≡ signed_decimal n) }
        ensures span_is { IfOk result (λ literal. literal_span literal ≡ call_site) }
    {
        signed(alloc, n as i128, "")
    }

    /// A `i16` in decimal, behind a minus below zero, and then `i16`.
    ///
    /// `AllocError`: memory for its text was refused.
    pub fn i16_suffixed(alloc: Global, n: i16) -> Result<Literal, AllocError>
        ensures text_is { IfOk result (λ literal. literal_text literal ≡ signed_decimal n ++ codes "i16") }
        ensures span_is { IfOk result (λ literal. literal_span literal ≡ call_site) }
    {
        signed(alloc, n as i128, "i16")
    }

    /// A `i16` in decimal, behind a minus below zero.
    ///
    /// `AllocError`: memory for its text was refused.
    pub fn i16_unsuffixed(alloc: Global, n: i16) -> Result<Literal, AllocError>
        ensures text_is { IfOk result (λ literal. literal_text literal ≡ signed_decimal n) }
        ensures span_is { IfOk result (λ literal. literal_span literal ≡ call_site) }
    {
        signed(alloc, n as i128, "")
    }

    /// A `i32` in decimal, behind a minus below zero, and then `i32`.
    ///
    /// `AllocError`: memory for its text was refused.
    pub fn i32_suffixed(alloc: Global, n: i32) -> Result<Literal, AllocError>
        ensures text_is { IfOk result (λ literal. literal_text literal ≡ signed_decimal n ++ codes "i32") }
        ensures span_is { IfOk result (λ literal. literal_span literal ≡ call_site) }
    {
        signed(alloc, n as i128, "i32")
    }

    /// A `i32` in decimal, behind a minus below zero.
    ///
    /// `AllocError`: memory for its text was refused.
    pub fn i32_unsuffixed(alloc: Global, n: i32) -> Result<Literal, AllocError>
        ensures text_is { IfOk result (λ literal. literal_text literal ≡ signed_decimal n) }
        ensures span_is { IfOk result (λ literal. literal_span literal ≡ call_site) }
    {
        signed(alloc, n as i128, "")
    }

    /// A `i64` in decimal, behind a minus below zero, and then `i64`.
    ///
    /// `AllocError`: memory for its text was refused.
    pub fn i64_suffixed(alloc: Global, n: i64) -> Result<Literal, AllocError>
        ensures text_is { IfOk result (λ literal. literal_text literal ≡ signed_decimal n ++ codes "i64") }
        ensures span_is { IfOk result (λ literal. literal_span literal ≡ call_site) }
    {
        signed(alloc, n as i128, "i64")
    }

    /// A `i64` in decimal, behind a minus below zero.
    ///
    /// `AllocError`: memory for its text was refused.
    pub fn i64_unsuffixed(alloc: Global, n: i64) -> Result<Literal, AllocError>
        ensures text_is { IfOk result (λ literal. literal_text literal ≡ signed_decimal n) }
        ensures span_is { IfOk result (λ literal. literal_span literal ≡ call_site) }
    {
        signed(alloc, n as i128, "")
    }

    /// A `i128` in decimal, behind a minus below zero, and then `i128`.
    ///
    /// `AllocError`: memory for its text was refused.
    pub fn i128_suffixed(alloc: Global, n: i128) -> Result<Literal, AllocError>
        ensures text_is { IfOk result (λ literal. literal_text literal ≡ signed_decimal n ++ codes "i128") }
        ensures span_is { IfOk result (λ literal. literal_span literal ≡ call_site) }
    {
        signed(alloc, n, "i128")
    }

    /// A `i128` in decimal, behind a minus below zero.
    ///
    /// `AllocError`: memory for its text was refused.
    pub fn i128_unsuffixed(alloc: Global, n: i128) -> Result<Literal, AllocError>
        ensures text_is { IfOk result (λ literal. literal_text literal ≡ signed_decimal n) }
        ensures span_is { IfOk result (λ literal. literal_span literal ≡ call_site) }
    {
        signed(alloc, n, "")
    }

    /// A `isize` in decimal, behind a minus below zero, and then `isize`.
    ///
    /// `AllocError`: memory for its text was refused.
    pub fn isize_suffixed(alloc: Global, n: isize) -> Result<Literal, AllocError>
        ensures text_is { IfOk result (λ literal. literal_text literal ≡ signed_decimal n ++ codes "isize") }
        ensures span_is { IfOk result (λ literal. literal_span literal ≡ call_site) }
    {
        signed(alloc, n as i128, "isize")
    }

    /// A `isize` in decimal, behind a minus below zero.
    ///
    /// `AllocError`: memory for its text was refused.
    pub fn isize_unsuffixed(alloc: Global, n: isize) -> Result<Literal, AllocError>
        ensures text_is { IfOk result (λ literal. literal_text literal ≡ signed_decimal n) }
        ensures span_is { IfOk result (λ literal. literal_span literal ≡ call_site) }
    {
        signed(alloc, n as i128, "")
    }
}
