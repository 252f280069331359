//! Groups that are entered by macros.

/// Enters the group in parentheses that stands there: `parenthesized!(content in input)` puts its inside into the
/// variable `content`, gives its delimiters, and hands a fault on. Close the inside with `close`.
#[macro_export]
macro_rules! parenthesized {
    ($content:ident in $input:expr) => {{
        let entered = $input.parse_parens()?;
        $content = entered.content;
        entered.token
    }};
}

/// Enters the group in braces that stands there, as `parenthesized!` does.
#[macro_export]
macro_rules! braced {
    ($content:ident in $input:expr) => {{
        let entered = $input.parse_braces()?;
        $content = entered.content;
        entered.token
    }};
}

/// Enters the group in brackets that stands there, as `parenthesized!` does.
#[macro_export]
macro_rules! bracketed {
    ($content:ident in $input:expr) => {{
        let entered = $input.parse_brackets()?;
        $content = entered.content;
        entered.token
    }};
}
