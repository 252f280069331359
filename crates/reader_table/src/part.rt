//! The names of the parts of a form.

/// A part of a form, by its name.
#[derive(Clone, Copy)]
pub enum Part {
    /// The name of an item, a field or a parameter.
    Name,
    /// The visibility.
    Visibility,
    /// `pub`, and what restricts it.
    Pub,
    /// The item behind its attributes and its visibility.
    Item,
    /// `unsafe`, and in an extern block `safe`.
    Safety,
    /// `const`
    Const,
    /// `default`
    Default,
    /// `auto`
    Auto,
    /// The parameters in angle brackets.
    Generics,
    /// The parameters of a function.
    Parameters,
    /// The where clause, or none.
    Where,
    /// The where clause that stands there.
    Clause,
    /// The bounds.
    Bounds,
    /// The type.
    Type,
    /// The value.
    Value,
    /// The body.
    Body,
    /// Of an alias of traits, its `=`.
    Equals,
    /// Of an impl, its `!`.
    Polarity,
    /// Of an impl, the type behind `impl`.
    First,
    /// Of an impl, the type behind `for`.
    SelfType,
    /// The path of a bound.
    Path,
    /// The lifetime.
    Lifetime,
    /// The arguments.
    Arguments,
    /// Of a parameter, that it is a receiver.
    Receiver,
    /// Of a parameter, its type where it has no name.
    Unnamed,
    /// The pattern.
    Pattern,
    /// `...`
    Dots,
    /// The condition.
    Condition,
    /// Of a field, its numbers.
    Indices,
    /// Of a struct's expression, the struct that has the other fields.
    Base,
    /// `..`
    Rest,
    /// The comma.
    Comma,
    /// The expression.
    Expression,
    /// `;`
    Semicolon,
    /// `else` and what stands behind it.
    Else,
    /// The label.
    Label,
    /// The attributes.
    Attributes,
}
