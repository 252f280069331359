//! What may stand in front of an item.

use syn_kinds::token;

/// What may stand in front of a constant.
#[derive(Clone, Copy, Default)]
pub struct ConstModifiers {
    /// `default`, if it is there.
    pub defaultness: Option<token::Default>,
}

/// What may stand in front of a function.
#[derive(Clone, Copy, Default)]
pub struct FnModifiers {
    /// `default`, if it is there.
    pub defaultness: Option<token::Default>,
}

/// What may stand in front of a type.
#[derive(Clone, Copy, Default)]
pub struct TypeModifiers {
    /// `default`, if it is there.
    pub defaultness: Option<token::Default>,
}

/// What may stand in front of an impl, and in front of its trait.
#[derive(Clone, Copy, Default)]
pub struct ImplModifiers {
    /// `default`, if it is there.
    pub defaultness: Option<token::Default>,
    /// `!` in front of the trait, if it is there.
    pub polarity: Option<token::Not>,
}

/// What may stand in front of a trait.
#[derive(Clone, Copy, Default)]
pub struct TraitModifiers {
    /// `auto`, if it is there.
    pub auto_token: Option<token::Auto>,
}
