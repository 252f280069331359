//! The texts, and the type that each is read as.

use crate::alone::{is_read, is_read_single};
use crate::asked::Question;
use syn::{
    AnyItem, Arena, ExprAssign, ExprBinary, ExprCall, ExprField, ExprIf, ExprLit, ExprMethodCall,
    ExprParen, ExprPath, ExprRange, ExprRepeat, ExprTuple, ItemConst, ItemEnum, ItemExternCrate,
    ItemFn, ItemForeignMod, ItemImpl, ItemMod, ItemStatic, ItemStruct, ItemType, ItemUnion,
    ItemUse, MetaList, MetaNameValue, OneForeignItem, OneForeignItemFn, OneForeignItemMacro,
    OneImplItemFn, OneItem, OneTraitItemFn, TokenBuffer, TypeArray, TypeParen, TypeSlice,
    TypeTuple,
};
use test_support::{Page, Stop};

/// An item of one kind, or a member.
#[derive(Clone, Copy)]
pub(crate) enum Item {
    Fn,
    Struct,
    Enum,
    Union,
    Impl,
    Mod,
    ForeignMod,
    Use,
    ExternCrate,
    Const,
    Static,
    Type,
    TraitFn,
    ImplFn,
    ForeignFn,
    ForeignMacro,
    Any,
    AnyForeign,
}

/// The texts of items and members.
pub(crate) const ITEMS: [(Question, &str); 40] = [
    (Question::Item(Item::Fn), "pub fn f () { }"),
    (Question::Item(Item::Fn), "struct S ;"),
    // Of a function without a body the tokens alone are kept.
    (Question::Item(Item::Fn), "fn f () ;"),
    (Question::Item(Item::Struct), "# [a] struct S ;"),
    (Question::Item(Item::Struct), "struct S ; struct T ;"),
    (Question::Item(Item::Enum), "enum E { A , B }"),
    (Question::Item(Item::Enum), "union U { a : u8 }"),
    (Question::Item(Item::Union), "union U { a : u8 }"),
    (Question::Item(Item::Union), "enum E { A , B }"),
    (Question::Item(Item::Impl), "impl A for B { }"),
    (Question::Item(Item::Impl), "pub impl B { }"),
    (Question::Item(Item::Mod), "mod m ;"),
    (Question::Item(Item::Mod), "mod m { struct S ; }"),
    (Question::Item(Item::Mod), "mod m"),
    (Question::Item(Item::ForeignMod), "extern \"C\" { }"),
    (Question::Item(Item::ForeignMod), "extern crate a ;"),
    (Question::Item(Item::Use), "use a :: b ;"),
    (Question::Item(Item::Use), "use { :: a } ;"),
    (Question::Item(Item::ExternCrate), "extern crate a as b ;"),
    (Question::Item(Item::ExternCrate), "extern \"C\" { }"),
    (Question::Item(Item::Const), "const A : u8 = 1 ;"),
    (Question::Item(Item::Const), "const A : u8 ;"),
    (Question::Item(Item::Static), "static A : u8 = 1 ;"),
    (Question::Item(Item::Static), "static A : u8 ;"),
    (Question::Item(Item::Type), "type A = B ;"),
    (Question::Item(Item::Type), "type A : C = B ;"),
    (Question::Item(Item::TraitFn), "fn f (& self) ;"),
    (Question::Item(Item::TraitFn), "const A : u8 ;"),
    (Question::Item(Item::ImplFn), "pub fn f () { }"),
    (Question::Item(Item::ImplFn), "fn f () ;"),
    (Question::Item(Item::ForeignFn), "fn f () ;"),
    (Question::Item(Item::ForeignFn), "fn f () { }"),
    (Question::Item(Item::ForeignMacro), "a ! (b) ;"),
    (Question::Item(Item::ForeignMacro), "a ! (b)"),
    (Question::Item(Item::Any), "# [a] pub struct S ;"),
    (Question::Item(Item::Any), "fn f () ;"),
    (Question::Item(Item::Any), "struct S"),
    (Question::Item(Item::AnyForeign), "pub fn f () ;"),
    (Question::Item(Item::AnyForeign), "fn f () { }"),
    (Question::Item(Item::AnyForeign), "mod m ;"),
];

/// A form that is one of several of a kind.
#[derive(Clone, Copy)]
pub(crate) enum Single {
    Call,
    MethodCall,
    Field,
    Binary,
    Assign,
    If,
    Tuple,
    Paren,
    Repeat,
    Lit,
    Path,
    Range,
    TypeArray,
    TypeSlice,
    TypeTuple,
    TypeParen,
    MetaList,
    MetaNameValue,
}

/// The texts of single forms.
pub(crate) const SINGLES: [(Question, &str); 38] = [
    (Question::Single(Single::Call), "f (x)"),
    (Question::Single(Single::Call), "f (x) + 1"),
    (Question::Single(Single::Call), "x . f (y)"),
    (Question::Single(Single::Call), "# [a] f (x)"),
    (Question::Single(Single::MethodCall), "x . f (y)"),
    (Question::Single(Single::MethodCall), "x . f (y) . g"),
    (Question::Single(Single::Field), "x . f (y) . g"),
    (Question::Single(Single::Field), "a . await"),
    (Question::Single(Single::Binary), "a + b * c"),
    (
        Question::Single(Single::Binary),
        "if a { b } else { c } + 1",
    ),
    (Question::Single(Single::Binary), "a = b"),
    (Question::Single(Single::Assign), "a = b"),
    (Question::Single(Single::Assign), "a += b"),
    (Question::Single(Single::If), "if a { b } else { c }"),
    (Question::Single(Single::If), "if a { b } + 1"),
    (Question::Single(Single::Tuple), "(a ,)"),
    (Question::Single(Single::Tuple), "(a)"),
    (Question::Single(Single::Paren), "(a)"),
    (Question::Single(Single::Paren), "(a ,)"),
    (Question::Single(Single::Repeat), "[a ; 3]"),
    (Question::Single(Single::Repeat), "[a , b]"),
    (Question::Single(Single::Lit), "true"),
    (Question::Single(Single::Lit), "- 1"),
    (Question::Single(Single::Path), "a :: b"),
    (Question::Single(Single::Path), "true"),
    (Question::Single(Single::Range), ".."),
    (Question::Single(Single::Range), "a ..="),
    (Question::Single(Single::TypeArray), "[T ; 3]"),
    (Question::Single(Single::TypeArray), "[T]"),
    (Question::Single(Single::TypeSlice), "[T]"),
    (Question::Single(Single::TypeSlice), "(T)"),
    (Question::Single(Single::TypeTuple), "(T ,)"),
    (Question::Single(Single::TypeTuple), "(T)"),
    (Question::Single(Single::TypeParen), "(T)"),
    (Question::Single(Single::MetaList), "a (b)"),
    (Question::Single(Single::MetaList), "a = b"),
    (Question::Single(Single::MetaNameValue), "a = b"),
    (Question::Single(Single::MetaNameValue), "a (b)"),
];

fn is_item<'a>(item: Item, arena: &'a Arena, buffer: &'a TokenBuffer<'a>) -> Result<bool, Stop> {
    match item {
        Item::Fn => is_read::<OneItem<ItemFn>>(arena, buffer),
        Item::Struct => is_read::<OneItem<ItemStruct>>(arena, buffer),
        Item::Enum => is_read::<OneItem<ItemEnum>>(arena, buffer),
        Item::Union => is_read::<OneItem<ItemUnion>>(arena, buffer),
        Item::Impl => is_read::<OneItem<ItemImpl>>(arena, buffer),
        Item::Mod => is_read::<OneItem<ItemMod>>(arena, buffer),
        Item::ForeignMod => is_read::<OneItem<ItemForeignMod>>(arena, buffer),
        Item::Use => is_read::<OneItem<ItemUse>>(arena, buffer),
        Item::ExternCrate => is_read::<OneItem<ItemExternCrate>>(arena, buffer),
        Item::Const => is_read::<OneItem<ItemConst>>(arena, buffer),
        Item::Static => is_read::<OneItem<ItemStatic>>(arena, buffer),
        Item::Type => is_read::<OneItem<ItemType>>(arena, buffer),
        Item::TraitFn => is_read::<OneTraitItemFn>(arena, buffer),
        Item::ImplFn => is_read::<OneImplItemFn>(arena, buffer),
        Item::ForeignFn => is_read::<OneForeignItemFn>(arena, buffer),
        Item::ForeignMacro => is_read::<OneForeignItemMacro>(arena, buffer),
        Item::Any => is_read::<AnyItem>(arena, buffer),
        Item::AnyForeign => is_read::<OneForeignItem>(arena, buffer),
    }
}

fn is_single<'a>(
    single: Single,
    arena: &'a Arena,
    buffer: &'a TokenBuffer<'a>,
) -> Result<bool, Stop> {
    match single {
        Single::Call => is_read_single::<ExprCall>(arena, buffer),
        Single::MethodCall => is_read_single::<ExprMethodCall>(arena, buffer),
        Single::Field => is_read_single::<ExprField>(arena, buffer),
        Single::Binary => is_read_single::<ExprBinary>(arena, buffer),
        Single::Assign => is_read_single::<ExprAssign>(arena, buffer),
        Single::If => is_read_single::<ExprIf>(arena, buffer),
        Single::Tuple => is_read_single::<ExprTuple>(arena, buffer),
        Single::Paren => is_read_single::<ExprParen>(arena, buffer),
        Single::Repeat => is_read_single::<ExprRepeat>(arena, buffer),
        Single::Lit => is_read_single::<ExprLit>(arena, buffer),
        Single::Path => is_read_single::<ExprPath>(arena, buffer),
        Single::Range => is_read_single::<ExprRange>(arena, buffer),
        Single::TypeArray => is_read_single::<TypeArray>(arena, buffer),
        Single::TypeSlice => is_read_single::<TypeSlice>(arena, buffer),
        Single::TypeTuple => is_read_single::<TypeTuple>(arena, buffer),
        Single::TypeParen => is_read_single::<TypeParen>(arena, buffer),
        Single::MetaList => is_read_single::<MetaList>(arena, buffer),
        Single::MetaNameValue => is_read_single::<MetaNameValue>(arena, buffer),
    }
}

// Puts whether a text is read.
fn put_answer(is_read: bool, page: &mut Page) {
    page.put(if is_read { "read: " } else { "refused: " });
}

/// Puts whether a buffer is read as an item of one kind, or as a member.
pub(crate) fn put_item<'a>(
    item: Item,
    arena: &'a Arena,
    buffer: &'a TokenBuffer<'a>,
    page: &mut Page,
) -> Result<(), Stop> {
    put_answer(is_item(item, arena, buffer)?, page);
    Ok(())
}

/// Puts whether a buffer is read as one form of several of a kind.
pub(crate) fn put_single<'a>(
    single: Single,
    arena: &'a Arena,
    buffer: &'a TokenBuffer<'a>,
    page: &mut Page,
) -> Result<(), Stop> {
    put_answer(is_single(single, arena, buffer)?, page);
    Ok(())
}
