//! The words, literals and punctuations of which entries speak.

ghost use Rattle.reader_table.specs.Words.{keyword_text, sign_text};
ghost use Rattle.std.specs.Prelude.{◌≡◌};

/// A keyword of the grammar, weak ones included.
#[derive(Clone, Copy)]
pub enum Keyword {
    /// `unsafe`
    Unsafe,
    /// `const`
    Const,
    /// `mut`
    Mut,
    /// `_`
    Underscore,
    /// `for`
    For,
    /// `async`
    Async,
    /// `impl`
    Impl,
    /// `extern`
    Extern,
    /// `as`
    As,
    /// `static`
    Static,
    /// `default`
    Default,
    /// `move`
    Move,
    /// `try`
    Try,
    /// `trait`
    Trait,
    /// `auto`
    Auto,
    /// `type`
    Type,
    /// `self`
    SelfValue,
    /// `ref`
    Ref,
    /// `if`
    If,
    /// `fn`
    Fn,
    /// `let`
    Let,
    /// `else`
    Else,
    /// `where`
    Where,
    /// `union`
    Union,
    /// `struct`
    Struct,
    /// `mod`
    Mod,
    /// `in`
    In,
    /// `enum`
    Enum,
    /// `dyn`
    Dyn,
    /// `crate`
    Crate,
    /// `yield`
    Yield,
    /// `while`
    While,
    /// `use`
    Use,
    /// `safe`
    Safe,
    /// `return`
    Return,
    /// `raw`
    Raw,
    /// `pub`
    Pub,
    /// `match`
    Match,
    /// `macro`
    Macro,
    /// `loop`
    Loop,
    /// `continue`
    Continue,
    /// `break`
    Break,
    /// `await`
    Await,
    /// `super`
    Super,
    /// `Self`
    SelfType,
}

/// Words that pass a test of their text.
#[derive(Clone, Copy)]
pub enum Words {
    /// That keyword.
    Keyword(Keyword),
    /// Any word.
    Any,
    /// A word that is not reserved.
    Ident,
    /// A name of a path.
    Name,
    /// A name of a path that takes arguments.
    PlainName,
    /// `self`, `super` or `crate`.
    PathKeyword,
    /// `true` or `false`.
    Bool,
    /// `crate`, `self` or `super`, in a visibility.
    Restriction,
    /// `self`, `super` or `crate`, before a macro.
    MacroStart,
    /// `self`, `super`, `crate` or `try`, in a use.
    UseWord,
    /// `unsafe` or `safe`.
    Safety,
    /// `const` or `mut`.
    ConstOrMut,
    /// A word that begins an item.
    ItemWord,
}

/// Literals that pass a test of their text.
#[derive(Clone, Copy)]
pub enum Literals {
    /// Any literal.
    Any,
    /// A number.
    Number,
    /// A string.
    Text,
    /// An index of a field.
    Index,
    /// Indices with dots between them.
    Indices,
    /// A number that ends in a dot.
    EndsInDot,
}

/// A punctuation, of one mark or several.
#[derive(Clone, Copy)]
pub enum Sign {
    /// `!`
    Not,
    /// `!=`
    Ne,
    /// `#`
    Pound,
    /// `%`
    Percent,
    /// `%=`
    PercentEq,
    /// `&`
    And,
    /// `&&`
    AndAnd,
    /// `&=`
    AndEq,
    /// `*`
    Star,
    /// `*=`
    StarEq,
    /// `+`
    Plus,
    /// `+=`
    PlusEq,
    /// `,`
    Comma,
    /// `-`
    Minus,
    /// `-=`
    MinusEq,
    /// `->`
    RArrow,
    /// `.`
    Dot,
    /// `..`
    DotDot,
    /// `...`
    DotDotDot,
    /// `..=`
    DotDotEq,
    /// `/`
    Slash,
    /// `/=`
    SlashEq,
    /// `:`
    Colon,
    /// `::`
    PathSep,
    /// `;`
    Semi,
    /// `<`
    Lt,
    /// `<<`
    Shl,
    /// `<<=`
    ShlEq,
    /// `<=`
    Le,
    /// `=`
    Eq,
    /// `==`
    EqEq,
    /// `=>`
    FatArrow,
    /// `>`
    Gt,
    /// `>=`
    Ge,
    /// `>>`
    Shr,
    /// `>>=`
    ShrEq,
    /// `?`
    Question,
    /// `@`
    At,
    /// `^`
    Caret,
    /// `^=`
    CaretEq,
    /// `|`
    Or,
    /// `|=`
    OrEq,
    /// `||`
    OrOr,
}

impl Keyword {
    /// The word.
    pub fn text(self) -> &'static str
        ensures { result.now ≡ keyword_text self }
    {
        match self {
            Keyword::Unsafe => "unsafe",
            Keyword::Const => "const",
            Keyword::Mut => "mut",
            Keyword::Underscore => "_",
            Keyword::For => "for",
            Keyword::Async => "async",
            Keyword::Impl => "impl",
            Keyword::Extern => "extern",
            Keyword::As => "as",
            Keyword::Static => "static",
            Keyword::Default => "default",
            Keyword::Move => "move",
            Keyword::Try => "try",
            Keyword::Trait => "trait",
            Keyword::Auto => "auto",
            Keyword::Type => "type",
            Keyword::SelfValue => "self",
            Keyword::Ref => "ref",
            Keyword::If => "if",
            Keyword::Fn => "fn",
            Keyword::Let => "let",
            Keyword::Else => "else",
            Keyword::Where => "where",
            Keyword::Union => "union",
            Keyword::Struct => "struct",
            Keyword::Mod => "mod",
            Keyword::In => "in",
            Keyword::Enum => "enum",
            Keyword::Dyn => "dyn",
            Keyword::Crate => "crate",
            Keyword::Yield => "yield",
            Keyword::While => "while",
            Keyword::Use => "use",
            Keyword::Safe => "safe",
            Keyword::Return => "return",
            Keyword::Raw => "raw",
            Keyword::Pub => "pub",
            Keyword::Match => "match",
            Keyword::Macro => "macro",
            Keyword::Loop => "loop",
            Keyword::Continue => "continue",
            Keyword::Break => "break",
            Keyword::Await => "await",
            Keyword::Super => "super",
            Keyword::SelfType => "Self",
        }
    }
}

impl Sign {
    /// The marks.
    pub fn text(self) -> &'static str
        ensures { result.now ≡ sign_text self }
    {
        match self {
            Sign::Not => "!",
            Sign::Ne => "!=",
            Sign::Pound => "#",
            Sign::Percent => "%",
            Sign::PercentEq => "%=",
            Sign::And => "&",
            Sign::AndAnd => "&&",
            Sign::AndEq => "&=",
            Sign::Star => "*",
            Sign::StarEq => "*=",
            Sign::Plus => "+",
            Sign::PlusEq => "+=",
            Sign::Comma => ",",
            Sign::Minus => "-",
            Sign::MinusEq => "-=",
            Sign::RArrow => "->",
            Sign::Dot => ".",
            Sign::DotDot => "..",
            Sign::DotDotDot => "...",
            Sign::DotDotEq => "..=",
            Sign::Slash => "/",
            Sign::SlashEq => "/=",
            Sign::Colon => ":",
            Sign::PathSep => "::",
            Sign::Semi => ";",
            Sign::Lt => "<",
            Sign::Shl => "<<",
            Sign::ShlEq => "<<=",
            Sign::Le => "<=",
            Sign::Eq => "=",
            Sign::EqEq => "==",
            Sign::FatArrow => "=>",
            Sign::Gt => ">",
            Sign::Ge => ">=",
            Sign::Shr => ">>",
            Sign::ShrEq => ">>=",
            Sign::Question => "?",
            Sign::At => "@",
            Sign::Caret => "^",
            Sign::CaretEq => "^=",
            Sign::Or => "|",
            Sign::OrEq => "|=",
            Sign::OrOr => "||",
        }
    }
}
