//! The kinds of node, and the names of parts, as the written grammar has them.

/// How a path is written.
#[derive(Clone, Copy)]
pub enum Style {
    /// `a::b`.
    InModule,
    /// `a::<T>::b`.
    InExpression,
    /// `a<T>::b`.
    InType,
    /// Where a type or a bound stands, also `F(A) -> B`.
    AtType,
}

/// Whether a type may hold bounds with a `+` between them.
#[derive(Clone, Copy)]
pub enum Plus {
    /// It may.
    WithPlus,
    /// It may not, as behind `&`.
    WithoutPlus,
}

/// Where an expression stands.
#[derive(Clone, Copy)]
pub enum Position {
    /// Anywhere else.
    Plain,
    /// Before the braces of `if`, `while`, `match` and `for`.
    InCondition,
    /// As the body of an arm.
    InArm,
    /// As a statement.
    InStatement,
}

/// Where an item stands.
#[derive(Clone, Copy)]
pub enum Place {
    /// In a file or a module, or among statements.
    InFile,
    /// In an extern block.
    InForeign,
    /// In a trait.
    InTrait,
    /// In an impl.
    InImpl,
}

/// A kind of node: an entry of the table.
#[derive(Clone, Copy)]
pub enum Kind {
    /// A path that isn't qualified: `::a::B`.
    Path(Style),
    /// The segments of a path: `a::B<T>`.
    Segments(Style),
    /// One segment of a path: `B<T>`.
    Segment(Style),
    /// A qualified path: `<T as A>::B`.
    QualifiedPath(Style),
    /// A path, qualified where it begins with `<`.
    AnyPath(Style),
    /// Arguments in angle brackets: `<'a, T, N = u8>`.
    Arguments,
    /// One of these: a lifetime, a literal, a block, a type, or `N = u8`.
    AnArgument,
    /// Arguments in parentheses: `(A, B) -> C`.
    ParenthesizedArguments,
    /// A macro with its tokens: `a::b!(..)`.
    AMacro,
    /// A group whose tokens are kept as they are: `(..)`, `[..]` or `{..}`.
    Delimited,
    /// A field by its name or its number: `a`, `0`.
    Member,
    /// A field by its number: `0`.
    Index,
    /// A type.
    AType(Plus),
    /// A trait object: `dyn A + B`.
    DynType(Plus),
    /// A type that has bounds alone: `impl A + B`.
    ImplType(Plus),
    /// What a function answers, perhaps nothing: `-> T`.
    ReturnType(Plus),
    /// A tuple, or a type in parentheses: `(A, B)`, `(A)`.
    TupleType,
    /// The type without values: `!`.
    NeverType,
    /// A reference: `&'a mut T`.
    ReferenceType,
    /// A pointer: `*const T`.
    PointerType,
    /// A slice or an array: `[T]`, `[T; 4]`.
    BracketType,
    /// A type that is to be inferred: `_`.
    InferType,
    /// A function pointer: `for<'a> unsafe extern "C" fn(A) -> B`.
    FnPtrType,
    /// An argument of a function pointer: `a: A`.
    FnPtrArg,
    /// Bounds, perhaps none: `A + ?B + 'a`.
    Bounds,
    /// Bounds, a trait among them.
    SomeBounds,
    /// One bound: `?A`, `for<'a> A`, `'a`.
    Bound,
    /// The path of a trait in a bound.
    TraitPath,
    /// Lifetimes that are bound: `for<'a, 'b>`.
    BoundLifetimes,
    /// Lifetimes with `+` between them, perhaps none: `'a + 'b`.
    Lifetimes,
    /// How a function is called: `extern "C"`.
    Abi,
    /// A pattern: alternatives, perhaps behind a `|`.
    Pattern,
    /// Alternatives, without a `|` in front: `a | b`.
    SeveralPatterns,
    /// One alternative.
    OnePattern,
    /// A name: `ref mut a @ b`.
    IdentPattern,
    /// Any value: `_`.
    WildPattern,
    /// A range without a start: `..=1`.
    RangeToPattern,
    /// The values that are left: `..`.
    RestPattern,
    /// A tuple, or a pattern in parentheses: `(a, b)`, `(a)`.
    TuplePattern,
    /// A slice or an array: `[a, b]`.
    SlicePattern,
    /// A reference: `&mut a`.
    ReferencePattern,
    /// A literal, or a range that begins with one: `-1`, `1..=2`.
    LiteralPattern,
    /// A path, a range that begins with one, a tuple struct or a struct: `a::B`, `A..`, `A(b)`, `A { b, .. }`.
    PathPattern,
    /// What stands behind the start of a range: `..=2`, `..`.
    RangeEnd,
    /// A bound of a range: a literal, perhaps behind `-`, or a path.
    RangeBound,
    /// The fields of a struct's pattern: `{ a, b: c, .. }`.
    FieldPatterns,
    /// One of these: `a`, `b: c`, `..`.
    FieldPattern,
    /// Attributes before a form, perhaps none: `#[a] #[b]`.
    OuterAttributes,
    /// One of these: `#[a]`.
    OuterAttribute,
    /// Attributes inside a form, perhaps none: `#![a] #![b]`.
    InnerAttributes,
    /// One of these: `#![a]`.
    InnerAttribute,
    /// What stands in an attribute: `a`, `a(..)`, `a = b`.
    Meta,
    /// Parameters in angle brackets, or none: `<'a, T, const N: usize>`.
    Generics,
    /// The same behind `impl`, where a `<` may begin a qualified path instead.
    ImplGenerics,
    /// The parameters, without their brackets.
    GenericParams,
    /// One of these.
    GenericParam,
    /// A lifetime: `'a: 'b`.
    LifetimeParam,
    /// What stands behind it: `: 'b + 'c`, or nothing.
    LifetimeColon,
    /// A constant: `const N: usize = 1`.
    ConstParam,
    /// A type: `T: A = B`.
    TypeParam,
    /// What stands behind its name: `: A + B`, or nothing.
    BoundsColon,
    /// A where clause, or none.
    Where,
    /// A where clause: `where T: A, 'a: 'b`.
    WhereClause,
    /// One of its predicates: `T: A`.
    WherePredicate,
    /// An expression, as a whole.
    Expression(Position),
    /// A literal: `1`, `"a"`, `true`.
    ExprLit,
    /// A path: `a::b::<T>`, `<T as A>::b`.
    ExprPath,
    /// A macro: `a!(..)`.
    ExprMacro,
    /// Expressions in parentheses: `(a)`, `(a, b)`, `()`.
    ExprParen,
    /// An array: `[a, b]`.
    ExprArray,
    /// An array of one value: `[a; n]`.
    ExprRepeat,
    /// An expression in an invisible group.
    ExprGroup,
    /// A value that is passed over: `_`.
    ExprInfer,
    /// A block: `'a: { .. }`.
    ExprBlock,
    /// An unsafe block: `unsafe { .. }`.
    ExprUnsafe,
    /// An async block: `async move { .. }`.
    ExprAsync,
    /// A constant block: `const { .. }`.
    ExprConst,
    /// A block that catches what `?` answers: `try { .. }`.
    ExprTryBlock,
    /// `if a { .. } else { .. }`
    ExprIf,
    /// `match a { .. }`
    ExprMatch,
    /// `'a: loop { .. }`
    ExprLoop,
    /// `'a: while b { .. }`
    ExprWhile,
    /// `'a: for b in c { .. }`
    ExprForLoop,
    /// `continue 'a`
    ExprContinue,
    /// A closure that says its type: `|a| -> T { .. }`.
    ExprTypedClosure,
    /// Of a struct, what stands behind its path: `{ a, b: c, ..d }`.
    ExprStruct,
    /// Of a call, what stands behind the function: `(a, b)`.
    ExprCall,
    /// Of a method's call, what stands behind its receiver: `.a::<T>(b)`.
    ExprMethodCall,
    /// Of a field, what stands behind its struct: `.a`, `.0.1`.
    ExprField,
    /// `.await`
    ExprAwait,
    /// `[a]`
    ExprIndex,
    /// `?`
    ExprTry,
    /// `as T`
    ExprCast,
    /// Attributes before an operand.
    ExprAttributed,
    /// `*`, `!` or `-`
    ExprUnary,
    /// `&raw const` or `&raw mut`
    ExprRawAddr,
    /// `&` or `&mut`
    ExprReference,
    /// `let a =`
    ExprLet,
    /// `break 'a`
    ExprBreak,
    /// `return`
    ExprReturn,
    /// `yield`
    ExprYield,
    /// Of a closure, what stands before its body: `move |a, b|`.
    ExprClosure,
    /// `..`
    ExprRange,
    /// `..=`
    ExprRangeClosed,
    /// `=`, or an operator that assigns, as `+=`.
    ExprAssign,
    /// `||`
    ExprOr,
    /// `&&`
    ExprAnd,
    /// `==`, `<`, `<=`, `!=`, `>=` or `>`
    ExprCompare,
    /// `|`
    ExprBitOr,
    /// `^`
    ExprBitXor,
    /// `&`
    ExprBitAnd,
    /// `<<` or `>>`
    ExprShift,
    /// `+` or `-`
    ExprSum,
    /// `*`, `/` or `%`
    ExprProduct,
    /// The fields of a struct's expression in their braces.
    FieldValues,
    /// One of these: a field, or `..` with or without a struct that has the others.
    AFieldValue,
    /// A field: `a`, `b: c`.
    FieldValue,
    /// The arms of a `match`.
    Arms,
    /// One of these: `a | b if c => d,`.
    Arm,
    /// A parameter of a closure: `a: T`.
    ClosureParam,
    /// A label: `'a:`.
    Label,
    /// Statements in braces.
    Block,
    /// Inner attributes and statements in braces.
    Body,
    /// A visibility, or none: `pub`, `pub(in a::b)`.
    Visibility,
    /// Fields in braces: `{ a: A, b: B }`.
    NamedFields,
    /// Fields in parentheses: `(A, B)`.
    UnnamedFields,
    /// A field with a name: `pub a: A`.
    NamedField,
    /// A field without one: `pub A`.
    UnnamedField,
    /// A variant of an enum: `A(B) = 1`.
    Variant,
    /// A struct, behind its attributes and its visibility.
    AStruct,
    /// An enum, behind these.
    AnEnum,
    /// A union, behind these.
    AUnion,
    /// A static, behind these: `static mut A: B = c;`.
    AStatic,
    /// A constant, behind these: `const A: B = c;`.
    AConst,
    /// `extern crate a as b;`, behind these.
    AnExternCrate,
    /// An extern block, behind these: `unsafe extern "C" { .. }`.
    AForeignModule,
    /// A `use`, behind these.
    AUse,
    /// What is used: a tree that may begin with `::`.
    UseTop,
    /// A tree of names: `a::b`, `a as b`, `*`, `{ .. }`.
    UseTree,
    /// The same, but no braces.
    UseBranch,
    /// A tree in braces that no path stands before, which may begin with `::`.
    UseRooted,
    /// A module, behind its attributes and its visibility.
    AModule,
    /// A trait or an alias of traits, behind these.
    ATrait,
    /// A trait behind `const`, behind these.
    AConstTrait,
    /// A trait that only some may implement, behind these: `impl(crate) trait A {}`.
    ARestrictedTrait,
    /// An impl, behind its attributes.
    AnImpl,
    /// A macro's definition: `macro a(..) { .. }`.
    AMacroDefinition,
    /// The parameters of a function, without their parentheses.
    Parameters,
    /// One of these: a receiver, a pattern with its type, or `...`.
    Parameter,
    /// A parameter by itself, which is none with `...`.
    FnArg,
    /// A receiver: `&'a mut self`, `self: T`.
    Receiver,
    /// A signature: `const unsafe fn a<T>(b: B) -> C where ..`.
    Signature(Place),
    /// A function, behind its attributes and its visibility.
    AFunction(Place),
    /// An alias of a type, behind these: `type A = B;`.
    ATypeAlias(Place),
    /// A macro where an item stands: `a! { .. }`, `a! b { .. }`.
    ItemMacro(Place),
    /// An item of a file, a module or a block, with its attributes and its visibility.
    AnItem,
    /// An item of an extern block.
    AForeignItem,
    /// An item of a trait.
    ATraitItem,
    /// An item of an impl.
    AnImplItem,
    /// The items of a file or a module.
    Items,
    /// The items of an extern block.
    ForeignItems,
    /// The items of a trait.
    TraitItems,
    /// The items of an impl.
    ImplItems,
    /// A struct by itself, with its attributes and its visibility.
    ItemStruct,
    /// An enum by itself.
    ItemEnum,
    /// A union by itself.
    ItemUnion,
    /// A function by itself.
    ItemFn,
    /// `extern crate a;` by itself.
    ItemExternCrate,
    /// An extern block by itself.
    ItemForeignMod,
    /// A `use` by itself.
    ItemUse,
    /// A static by itself.
    ItemStatic,
    /// A constant by itself.
    ItemConst,
    /// A module by itself.
    ItemMod,
    /// An alias of a type by itself.
    ItemType,
    /// A trait by itself.
    ItemTrait,
    /// An alias of traits by itself: `trait A = B;`.
    ItemTraitAlias,
    /// An impl by itself.
    ItemImpl,
    /// A struct, an enum or a union by itself, as a derive helper reads it.
    DeriveInput,
    /// A macro in that place, by itself.
    OneMacro(Place),
    /// A function in that place, by itself.
    OneFunction(Place),
    /// An alias of a type in that place, by itself.
    OneTypeAlias(Place),
    /// A constant in that place, by itself.
    OneConst(Place),
    /// A static of an extern block, by itself.
    ForeignItemStatic,
    /// Statements, to the end.
    Statements,
    /// One of these, with its `;` if it has one.
    AStatement,
    /// A statement by itself: it has the `;` that it needs.
    OneStatement,
    /// A `let` with its `;`.
    ALet,
    /// A file: inner attributes and items.
    AFile,
}
