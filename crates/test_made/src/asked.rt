//! What rows ask for.

use syn::{Kind, Plus, Position, Style};

/// A type or a pattern, or what these are made of.
#[derive(Clone, Copy)]
pub(crate) enum Form {
    Type,
    Elsewhere,
    Path,
    Segments,
    PathType,
    Segment,
    Bound,
    Pattern,
    RangeEnd,
}

/// What stands in or beside types, expressions and items.
#[derive(Clone, Copy)]
pub(crate) enum Part {
    Attribute,
    Visibility,
    Param,
    FieldValue,
    Arm,
    File,
    DeriveInput,
    Struct,
    Field,
    Variant,
    FnArg,
    Receiver,
}

/// A form of an expression.
#[derive(Clone, Copy)]
pub(crate) enum Expr {
    Binary,
    Unary,
    MethodCall,
    Tuple,
    Range,
    Cast,
}

/// A statement or a block, by what is made of it.
#[derive(Clone, Copy)]
pub(crate) enum Stmt {
    Open,
    Inferred,
    AsRead,
    Braced,
    BracedAlone,
    Again,
    AsExpression,
    Cut,
}

/// A form of an item, or of a member.
#[derive(Clone, Copy)]
pub(crate) enum Item {
    Fn,
    Signature,
    Mod,
    Type,
    Macro,
    Enum,
    Trait,
    Impl,
}

/// All of an item, by where it is put.
#[derive(Clone, Copy)]
pub(crate) enum Whole {
    Plain,
    InItsPlace,
    Public,
    Default,
}

/// What is changed.
#[derive(Clone, Copy)]
pub(crate) enum To {
    Form(Form),
    Part(Part),
    Expr(Expr),
    Stmt(Stmt),
    Item(Item),
    Whole(Whole),
}

/// What a row asks for.
#[derive(Clone, Copy)]
pub(crate) struct Asked<'r> {
    /// The kind that its text is read as.
    pub(crate) kind: Kind,
    /// What is changed.
    pub(crate) to: To,
    /// The name of the change.
    pub(crate) change: &'r str,
}

const TYPE: Kind = Kind::AType(Plus::WithPlus);

const PATH: Kind = Kind::Path(Style::AtType);

const SEGMENT: Kind = Kind::Segment(Style::InType);

const EXPRESSION: Kind = Kind::Expression(Position::Plain);

const PATTERN: Kind = Kind::Pattern;

const RANGE_END: Kind = Kind::RangeEnd;

const ATTRIBUTES: Kind = Kind::OuterAttributes;

const FIELD_VALUE: Kind = Kind::FieldValue;

const STATEMENT: Kind = Kind::OneStatement;

const DERIVE_INPUT: Kind = Kind::DeriveInput;

const TRAIT_ITEM: Kind = Kind::ATraitItem;

const IMPL_ITEM: Kind = Kind::AnImplItem;

const FOREIGN_ITEM: Kind = Kind::AForeignItem;

const ITEM: Kind = Kind::AnItem;

const VISIBILITY: Kind = Kind::Visibility;

const FIELD: Kind = Kind::NamedField;

const RECEIVER: Kind = Kind::Receiver;

const VARIANT: Kind = Kind::Variant;

// What the rows with each call ask for.
const CALLS: [(&str, Kind, To); 95] = [
    ("Type shared", TYPE, To::Form(Form::Type)),
    ("Type front", TYPE, To::Form(Form::Type)),
    ("Type last", TYPE, To::Form(Form::Type)),
    ("Type single", TYPE, To::Form(Form::Elsewhere)),
    ("Type without plus", TYPE, To::Form(Form::Elsewhere)),
    ("Type elsewhere", TYPE, To::Form(Form::Elsewhere)),
    ("Type of types", TYPE, To::Form(Form::Type)),
    ("Type of expressions", TYPE, To::Form(Form::Type)),
    ("Path global", PATH, To::Form(Form::Path)),
    ("Path doubled", PATH, To::Form(Form::Segments)),
    ("Path led by a keyword", PATH, To::Form(Form::Segments)),
    ("Path as a type", PATH, To::Form(Form::PathType)),
    (
        "Path of an expression as a type",
        PATH,
        To::Form(Form::PathType),
    ),
    ("Path where a type stands", PATH, To::Form(Form::Segments)),
    ("Path before a type", PATH, To::Form(Form::Segments)),
    ("Path in an expression", PATH, To::Form(Form::Segments)),
    ("Path in a module", PATH, To::Form(Form::Segments)),
    ("PathSegment as a keyword", SEGMENT, To::Form(Form::Segment)),
    ("PathSegment of a module", SEGMENT, To::Form(Form::Segment)),
    ("Bound maybe", Kind::Bound, To::Form(Form::Bound)),
    ("Pat shared", PATTERN, To::Form(Form::Pattern)),
    ("Pat front", PATTERN, To::Form(Form::Pattern)),
    ("Pat last", PATTERN, To::Form(Form::Pattern)),
    ("Pat open", PATTERN, To::Form(Form::Pattern)),
    ("Pat closed", PATTERN, To::Form(Form::Pattern)),
    ("Pat closed by dots alone", PATTERN, To::Form(Form::Pattern)),
    ("RangeEnd endless", RANGE_END, To::Form(Form::RangeEnd)),
    ("RangeEnd inclusive", RANGE_END, To::Form(Form::RangeEnd)),
    (
        "RangeEnd inclusive by dots alone",
        RANGE_END,
        To::Form(Form::RangeEnd),
    ),
    ("Attributes inner", ATTRIBUTES, To::Part(Part::Attribute)),
    ("Visibility public", VISIBILITY, To::Part(Part::Visibility)),
    ("Param plain", Kind::GenericParam, To::Part(Part::Param)),
    ("Expr swapped", EXPRESSION, To::Expr(Expr::Binary)),
    (
        "Expr multiplied by a star",
        EXPRESSION,
        To::Expr(Expr::Binary),
    ),
    (
        "Expr multiplied by a plus",
        EXPRESSION,
        To::Expr(Expr::Binary),
    ),
    ("Expr negated by a minus", EXPRESSION, To::Expr(Expr::Unary)),
    ("Expr negated by a star", EXPRESSION, To::Expr(Expr::Unary)),
    ("Expr inferred", EXPRESSION, To::Expr(Expr::MethodCall)),
    ("Expr front", EXPRESSION, To::Expr(Expr::Tuple)),
    ("Expr last", EXPRESSION, To::Expr(Expr::Tuple)),
    ("Expr endless", EXPRESSION, To::Expr(Expr::Range)),
    ("Expr closed", EXPRESSION, To::Expr(Expr::Range)),
    (
        "Expr closed by dots alone",
        EXPRESSION,
        To::Expr(Expr::Range),
    ),
    ("Expr as it is", EXPRESSION, To::Expr(Expr::Cast)),
    ("FieldValue short", FIELD_VALUE, To::Part(Part::FieldValue)),
    (
        "FieldValue without colon",
        FIELD_VALUE,
        To::Part(Part::FieldValue),
    ),
    ("Arm ended", Kind::Arm, To::Part(Part::Arm)),
    ("Arm at end", Kind::Arm, To::Part(Part::Arm)),
    ("Stmt open", STATEMENT, To::Stmt(Stmt::Open)),
    ("Stmt inferred", STATEMENT, To::Stmt(Stmt::Inferred)),
    ("Stmt as read", STATEMENT, To::Stmt(Stmt::AsRead)),
    ("Stmt braced", STATEMENT, To::Stmt(Stmt::Braced)),
    (
        "Stmt braced without else",
        STATEMENT,
        To::Stmt(Stmt::BracedAlone),
    ),
    ("Stmt again", STATEMENT, To::Stmt(Stmt::Again)),
    (
        "Stmt as an expression",
        STATEMENT,
        To::Stmt(Stmt::AsExpression),
    ),
    ("Block cut", Kind::Block, To::Stmt(Stmt::Cut)),
    ("File plain", Kind::AFile, To::Part(Part::File)),
    ("File headed", Kind::AFile, To::Part(Part::File)),
    ("File executable", Kind::AFile, To::Part(Part::File)),
    (
        "DeriveInput unit",
        DERIVE_INPUT,
        To::Part(Part::DeriveInput),
    ),
    ("DeriveInput open", DERIVE_INPUT, To::Part(Part::Struct)),
    ("Field unnamed", FIELD, To::Part(Part::Field)),
    ("Field without name", FIELD, To::Part(Part::Field)),
    ("Variant without number", VARIANT, To::Part(Part::Variant)),
    ("FnArg bare", Kind::FnArg, To::Part(Part::FnArg)),
    ("Receiver by value", RECEIVER, To::Part(Part::Receiver)),
    ("Receiver mutable", RECEIVER, To::Part(Part::Receiver)),
    ("Item declared", ITEM, To::Item(Item::Fn)),
    ("Item without block", ITEM, To::Item(Item::Fn)),
    ("Item closed", ITEM, To::Item(Item::Fn)),
    ("TraitItem closed", TRAIT_ITEM, To::Item(Item::Fn)),
    ("Item as safe", ITEM, To::Item(Item::Signature)),
    ("TraitItem as safe", TRAIT_ITEM, To::Item(Item::Signature)),
    (
        "ForeignItem as safe",
        FOREIGN_ITEM,
        To::Item(Item::Signature),
    ),
    ("Item outside", ITEM, To::Item(Item::Mod)),
    ("Item without content", ITEM, To::Item(Item::Mod)),
    ("Item early", ITEM, To::Item(Item::Type)),
    ("TraitItem early", TRAIT_ITEM, To::Item(Item::Type)),
    ("Item named", ITEM, To::Item(Item::Macro)),
    ("TraitItem named", TRAIT_ITEM, To::Item(Item::Macro)),
    ("Item in braces", ITEM, To::Item(Item::Macro)),
    ("Item without semicolon", ITEM, To::Item(Item::Macro)),
    ("Item front", ITEM, To::Item(Item::Enum)),
    ("Item safe", ITEM, To::Item(Item::Trait)),
    ("Item automatic", ITEM, To::Item(Item::Trait)),
    ("Item inherent", ITEM, To::Item(Item::Impl)),
    ("Item plain", ITEM, To::Whole(Whole::Plain)),
    ("Item in its place", ITEM, To::Whole(Whole::InItsPlace)),
    ("Item public", ITEM, To::Whole(Whole::Public)),
    (
        "TraitItem in its place",
        TRAIT_ITEM,
        To::Whole(Whole::InItsPlace),
    ),
    ("TraitItem public", TRAIT_ITEM, To::Whole(Whole::Public)),
    ("TraitItem default", TRAIT_ITEM, To::Whole(Whole::Default)),
    ("ImplItem public", IMPL_ITEM, To::Whole(Whole::Public)),
    ("ImplItem default", IMPL_ITEM, To::Whole(Whole::Default)),
    ("ForeignItem public", FOREIGN_ITEM, To::Whole(Whole::Public)),
];

// What the rows with a call ask for, if there is such a call.
fn row_of(call: &str) -> Option<(Kind, To)> {
    for (name, kind, to) in CALLS.as_slice() {
        if *name == call {
            return Some((*kind, *to));
        }
    }
    None
}

/// What a row with a call asks for, if there is such a call.
pub(crate) fn asked_by(call: &str) -> Option<Asked<'_>> {
    let (kind, to) = row_of(call)?;
    let (_, change) = call.split_once(' ')?;
    Some(Asked { kind, to, change })
}
