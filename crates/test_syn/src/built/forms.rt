//! The table of forms. In each `@` is an operand.

/// Forms without operands.
pub(crate) const ALONE: [&str; 42] = [
    "a",
    "self",
    "a::b",
    "::a",
    "<T>::d",
    "f::<T>",
    "1",
    "\"s\"",
    "true",
    "_",
    "m!()",
    "m![]",
    "m! {}",
    "(c)",
    "(c,)",
    "()",
    "[c]",
    "[c; 2]",
    "{}",
    "'l: {}",
    "unsafe {}",
    "async {}",
    "async move {}",
    "const {}",
    "try {}",
    "if c {}",
    "if c {} else {}",
    "match c {}",
    "loop {}",
    "'l: loop {}",
    "while c {}",
    "for i in c {}",
    "|x| -> T {}",
    "continue",
    "continue 'l",
    "break",
    "break 'l",
    "return",
    "yield",
    "..",
    "S {}",
    "S { x: 1, ..b }",
];

/// Paths, before which a struct's braces may stand.
pub(crate) const PATHS: [&str; 6] = ["a", "self", "a::b", "::a", "<T>::d", "f::<T>"];

/// A struct's braces, behind a path.
pub(crate) const BRACES: &str = "@ {}";

/// Forms with an operand behind them alone.
pub(crate) const FRONTS: [&str; 18] = [
    "- @",
    "! @",
    "* @",
    "& @",
    "& mut @",
    "&raw const @",
    "&raw mut @",
    "let p = @",
    "return @",
    "break @",
    "break 'l @",
    "yield @",
    "|x| @",
    "move || @",
    "async |x: T| @",
    ".. @",
    "..= @",
    "#[q] @",
];

/// Forms with an operand before them alone.
pub(crate) const BACKS: [&str; 16] = [
    "@ (e)",
    "@ .g()",
    "@ .g::<T>(e)",
    "@ .f",
    "@ .0",
    "@ [e]",
    "@ ?",
    "@ .await",
    "@ as u8",
    "@ as T",
    "@ as a::T",
    "@ as T<U>",
    "@ as [T]",
    "@ as &T",
    "@ as fn() -> T",
    "@ ..",
];

/// Operators between two operands.
pub(crate) const OPERATORS: [&str; 31] = [
    "+", "-", "*", "/", "%", "<<", ">>", "&", "^", "|", "==", "!=", "<", ">", "<=", ">=", "&&",
    "||", "..", "..=", "=", "+=", "-=", "*=", "/=", "%=", "^=", "&=", "|=", "<<=", ">>=",
];

/// Forms of each level, which are put into each other at three depths.
pub(crate) const AROUND: [&str; 18] = [
    "- @",
    "@ .f",
    "@ (e)",
    "@ + y",
    "x + @",
    "x * @",
    "@ == y",
    "x && @",
    "@ < y",
    "@ as T",
    "x = @",
    "@ = y",
    "@ ..",
    ".. @",
    "return @",
    "|x| @",
    "let p = @",
    "#[q] @",
];

/// Forms that stand innermost there.
pub(crate) const INSIDE: [&str; 18] = [
    "a",
    "return",
    "break",
    "..",
    "if c {}",
    "S {}",
    "m! {}",
    "x + y",
    "x == y",
    "x && y",
    "x = y",
    "- z",
    "|x| z",
    "let p = z",
    "z as T",
    "z ..",
    "return z",
    "#[q] z",
];

/// Places in which an expression stands by itself, within a form's own part. In each `@` is that expression.
pub(crate) const PLACES: [&str; 9] = [
    "f(@)",
    "f(@, d)",
    "x.m(c, @)",
    "[@]",
    "[@; n]",
    "[x; @]",
    "(@, d)",
    "x[@]",
    "S { f: @ }",
];
