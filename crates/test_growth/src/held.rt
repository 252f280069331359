//! The items of traits, impls and extern blocks, as the enums that hold their form.

use crate::asked::Question;
use syn::{
    Arena, ForeignItem, ImplItem, OneImplItem, OneTraitItem, ParseFault, TokenBuffer, TraitItem,
    parse2,
};
use test_support::{Page, Stop};

/// Where an item stands.
#[derive(Clone, Copy)]
pub(crate) enum Stands {
    InTrait,
    InImpl,
    InForeign,
}

/// Items, each with where it stands.
pub(crate) const HELD: [(Question, &str); 15] = [
    (Question::Held(Stands::InTrait), "const A : u8 ;"),
    (Question::Held(Stands::InTrait), "# [a] fn f (& self) { }"),
    (Question::Held(Stands::InTrait), "type A : B ;"),
    (Question::Held(Stands::InTrait), "a ! (b) ;"),
    (Question::Held(Stands::InTrait), "default fn f () ;"),
    (Question::Held(Stands::InImpl), "pub const A : u8 = 1 ;"),
    (Question::Held(Stands::InImpl), "default fn f (& self) { }"),
    (Question::Held(Stands::InImpl), "type A = B ;"),
    (Question::Held(Stands::InImpl), "a ! { b }"),
    (Question::Held(Stands::InImpl), "fn f () ;"),
    (Question::Held(Stands::InForeign), "pub fn f () ;"),
    (Question::Held(Stands::InForeign), "unsafe static A : u8 ;"),
    (Question::Held(Stands::InForeign), "type A ;"),
    (Question::Held(Stands::InForeign), "a ! (b) ;"),
    (Question::Held(Stands::InForeign), "fn f () { }"),
];

// The form of an item of a trait or an impl, if a tree is one.
fn associated(found: Option<TraitItem<'_, '_>>) -> &'static str {
    match found {
        Some(TraitItem::Const(_)) => "Const",
        Some(TraitItem::Fn(_)) => "Fn",
        Some(TraitItem::Type(_)) => "Type",
        Some(TraitItem::Macro(_)) => "Macro",
        Some(TraitItem::Verbatim(_)) => "Verbatim",
        None => "none",
    }
}

// The form of an item of an extern block.
fn foreign(found: ForeignItem<'_, '_>) -> &'static str {
    match found {
        ForeignItem::Fn(_) => "Fn",
        ForeignItem::Static(_) => "Static",
        ForeignItem::Type(_) => "Type",
        ForeignItem::Macro(_) => "Macro",
        ForeignItem::Verbatim(_) => "Verbatim",
    }
}

// The form of the item that a buffer is.
fn form<'a>(
    stands: Stands,
    arena: &'a Arena,
    buffer: &'a TokenBuffer<'a>,
) -> Result<&'static str, ParseFault> {
    match stands {
        Stands::InTrait => {
            let read = parse2::<OneTraitItem>(arena, buffer)?;
            Ok(associated(TraitItem::in_trait(read.tree)))
        }
        Stands::InImpl => {
            let read = parse2::<OneImplItem>(arena, buffer)?;
            Ok(associated(ImplItem::in_impl(read.tree)))
        }
        Stands::InForeign => Ok(foreign(parse2::<ForeignItem>(arena, buffer)?)),
    }
}

/// Puts the form of the item that a buffer is, or that it is refused.
pub(crate) fn put_form<'a>(
    stands: Stands,
    arena: &'a Arena,
    buffer: &'a TokenBuffer<'a>,
    page: &mut Page,
) -> Result<(), Stop> {
    match form(stands, arena, buffer) {
        Ok(form) => {
            page.put(form);
            page.put(": ");
            Ok(())
        }
        Err(ParseFault::Memory) => Err(Stop::Refused),
        Err(ParseFault::Syntax(_)) => {
            page.put("refused: ");
            Ok(())
        }
    }
}
