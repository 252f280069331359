//! Looks of several steps, by their names.

// Written by tools/rows.py.

/// A look of several steps.
#[derive(Clone, Copy)]
pub enum Composite {
    /// `::` and then `<`.
    Turbofish,
    /// Arguments of a path in a type.
    ArgumentsStand,
    /// A literal, `true` or `false`.
    ALiteral,
    /// An Ident before `=`.
    IdentThenEq,
    /// A function pointer.
    FnPtrStands,
    /// A name and a colon.
    NamedArgument,
    /// A bound.
    BoundStands,
    /// A `|` that begins no `||` and no `|=`.
    Vert,
    /// `ref`, `mut`, or an Ident that names what it matches.
    IdentPatternStands,
    /// A range without a start.
    RangeToPatternStands,
    /// `..` that begins no `...` and no `..=`.
    Dots,
    /// A literal or `-`.
    LiteralPatternStands,
    /// `..` that begins no `...`.
    RangeEndStands,
    /// The end of a range.
    RangeBoundStands,
    /// A member and a colon.
    MemberColon,
    /// `#` and `!`.
    InnerAttribute,
    /// A group of any visible kind.
    AnyDelimiter,
    /// Parameters behind `impl`.
    ImplGenericsStand,
    /// Attributes and a lifetime.
    LifetimeBehindAttributes,
    /// Attributes and `const`.
    ConstBehindAttributes,
    /// The end of a where clause.
    WhereEnds,
    /// A postfix form.
    PostfixStands,
    /// An Ident without a colon.
    IdentAlone,
    /// A restriction.
    AnyRestriction,
    /// `(in`.
    RestrictedIn,
    /// `!` before no brace.
    NotBeforeBrace,
    /// A receiver.
    ReceiverStands,
    /// An Ident before `<`.
    IdentThenLt,
    /// `unsafe` or `safe`.
    UnsafeOrSafe,
    /// An Ident or `try`.
    IdentOrTry,
    /// A function's signature.
    SignatureStands,
    /// `extern crate`.
    ExternCrate,
    /// `const` before a trait.
    ConstTrait,
    /// `const` before an impl.
    ConstImpl,
    /// `unsafe extern`.
    UnsafeExtern,
    /// `unsafe mod`.
    UnsafeMod,
    /// `unsafe impl`.
    UnsafeImpl,
    /// `union` and an Ident.
    UnionIdent,
    /// A restricted trait.
    RestrictedTraitStands,
    /// A trait.
    TraitStands,
    /// An impl.
    ImplStands,
    /// A macro's path.
    MacroStands,
    /// A function's signature in an extern block.
    ForeignSignatureStands,
    /// A static in an extern block.
    ForeignStaticStands,
    /// `default` before no `!`.
    DefaultStands,
    /// A name or `::`.
    NameOrPathSep,
    /// Attributes and a macro that is an item.
    MacroItemBehindAttributes,
    /// Attributes and a macro that is a statement.
    MacroStatementBehindAttributes,
    /// Attributes and `let`.
    LetBehindAttributes,
    /// Attributes and an item's first words.
    ItemBehindAttributes,
    /// A block, perhaps with a label.
    LabelledBlock,
    /// `loop`, perhaps with a label.
    LabelledLoop,
    /// `while`, perhaps with a label.
    LabelledWhile,
    /// `for`, perhaps with a label.
    LabelledFor,
    /// A closure with `->` behind its parameters.
    TypedClosureStands,
    /// A closure.
    ClosureStands,
    /// Brackets with a `;` in them.
    RepeatStands,
    /// `&raw const` or `&raw mut`.
    RawAddrStands,
    /// `*`, `!` or `-`.
    UnaryStands,
    /// A path and `!`.
    MacroCallStands,
    /// A path.
    PathStands,
    /// An operator that assigns.
    AssignOpStands,
    /// `==`, `<=`, `!=` or `>=`.
    EqualityStands,
    /// `=` that begins no `=>`.
    AssignStands,
    /// `<<` or `>>`.
    ShiftStands,
    /// `<` or `>`.
    LtOrGt,
    /// `+` or `-`.
    PlusOrMinus,
    /// `*`, `/` or `%`.
    ProductStands,
    /// `.await`.
    AwaitStands,
    /// A dot and a method.
    MethodStands,
    /// A dot that begins no `..`, and numbers that end in one.
    DotStands,
    /// An expression, where a jump has an operand.
    OperandStands,
    /// The operand of a `break` in a condition.
    BreakOperandStands,
    /// No end of a range.
    RangeIsOpen,
    /// No end of a range in a condition.
    RangeIsOpenInCondition,
}
