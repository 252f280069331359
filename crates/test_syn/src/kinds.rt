//! The kinds of the written grammar, by the names that rows have for them.

use syn::{Kind, Place, Plus, Position, Style};

/// Each name that rows have for a kind, and that kind.
pub(crate) const KINDS: [(&str, Kind); 71] = [
    // An expression, a statement, a pattern and what stands in them.
    ("Expr", Kind::Expression(Position::Plain)),
    ("Expr-condition", Kind::Expression(Position::InCondition)),
    ("Expr-arm", Kind::Expression(Position::InArm)),
    ("Expr-statement", Kind::Expression(Position::InStatement)),
    ("FieldValue", Kind::FieldValue),
    ("Arm", Kind::Arm),
    ("Block", Kind::Block),
    ("Label", Kind::Label),
    ("Stmt", Kind::OneStatement),
    ("Statements", Kind::Statements),
    ("Member", Kind::Member),
    ("Index", Kind::Index),
    ("Macro", Kind::AMacro),
    ("Pat", Kind::Pattern),
    ("Pat-several", Kind::SeveralPatterns),
    ("Pat-single", Kind::OnePattern),
    // A type, a path and what stands in them.
    ("Type", Kind::AType(Plus::WithPlus)),
    ("Type-no-plus", Kind::AType(Plus::WithoutPlus)),
    ("Bound", Kind::Bound),
    ("Abi", Kind::Abi),
    ("PathSegment", Kind::Segment(Style::InType)),
    ("Path-mod", Kind::Path(Style::InModule)),
    ("Path-expr", Kind::Path(Style::InExpression)),
    ("Path-type", Kind::Path(Style::InType)),
    ("Attributes", Kind::OuterAttributes),
    ("Inner", Kind::InnerAttributes),
    ("Meta", Kind::Meta),
    ("Generics", Kind::Generics),
    ("Param", Kind::GenericParam),
    ("Where", Kind::Where),
    ("WhereClause", Kind::WhereClause),
    ("Visibility", Kind::Visibility),
    // What stands in items.
    ("Variant", Kind::Variant),
    ("Field", Kind::NamedField),
    ("Field-unnamed", Kind::UnnamedField),
    ("Signature", Kind::Signature(Place::InFile)),
    ("FnArg", Kind::FnArg),
    ("Receiver", Kind::Receiver),
    ("UseTree", Kind::UseTree),
    ("DeriveInput", Kind::DeriveInput),
    // An item of a file by itself.
    ("Item", Kind::AnItem),
    ("Use", Kind::ItemUse),
    ("Struct", Kind::ItemStruct),
    ("Enum", Kind::ItemEnum),
    ("Union", Kind::ItemUnion),
    ("Fn", Kind::ItemFn),
    ("Static", Kind::ItemStatic),
    ("Const", Kind::ItemConst),
    ("Mod", Kind::ItemMod),
    ("TypeItem", Kind::ItemType),
    ("Trait", Kind::ItemTrait),
    ("TraitAlias", Kind::ItemTraitAlias),
    ("Impl", Kind::ItemImpl),
    ("ExternCrate", Kind::ItemExternCrate),
    ("ForeignMod", Kind::ItemForeignMod),
    ("ItemMacro", Kind::OneMacro(Place::InFile)),
    // An item that stands in another.
    ("ForeignItem", Kind::AForeignItem),
    ("TraitItem", Kind::ATraitItem),
    ("ImplItem", Kind::AnImplItem),
    ("ForeignItemMacro", Kind::OneMacro(Place::InForeign)),
    ("TraitItemMacro", Kind::OneMacro(Place::InTrait)),
    ("ImplItemMacro", Kind::OneMacro(Place::InImpl)),
    ("ForeignItemFn", Kind::OneFunction(Place::InForeign)),
    ("TraitItemFn", Kind::OneFunction(Place::InTrait)),
    ("ImplItemFn", Kind::OneFunction(Place::InImpl)),
    ("ForeignItemType", Kind::OneTypeAlias(Place::InForeign)),
    ("TraitItemType", Kind::OneTypeAlias(Place::InTrait)),
    ("ImplItemType", Kind::OneTypeAlias(Place::InImpl)),
    ("TraitItemConst", Kind::OneConst(Place::InTrait)),
    ("ImplItemConst", Kind::OneConst(Place::InImpl)),
    ("ForeignItemStatic", Kind::ForeignItemStatic),
];

/// The kind that a row names.
pub(crate) fn kind_of(name: &str) -> Option<Kind> {
    for (called, kind) in &KINDS {
        if *called == name {
            return Some(*kind);
        }
    }
    None
}
