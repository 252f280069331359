//! The kinds of tokens by their names, as `token::Struct` and `token::Comma`.
//!
//! A keyword or a punctuation is named by the number of its row in the table (`crate::table`), and a punctuation by
//! its number of marks too.

pub use crate::delimiters::{Brace, Bracket, Paren};
pub use crate::group::Group;
use crate::keyword::Keyword;
use crate::punctuation::Punctuation;
pub use crate::underscore::Underscore;

/// `abstract`
pub type Abstract = Keyword<0>;
/// `as`
pub type As = Keyword<1>;
/// `async`
pub type Async = Keyword<2>;
/// `await`
pub type Await = Keyword<3>;
/// `become`
pub type Become = Keyword<4>;
/// `box`
pub type Box = Keyword<5>;
/// `break`
pub type Break = Keyword<6>;
/// `const`
pub type Const = Keyword<7>;
/// `continue`
pub type Continue = Keyword<8>;
/// `crate`
pub type Crate = Keyword<9>;
/// `do`
pub type Do = Keyword<10>;
/// `dyn`
pub type Dyn = Keyword<11>;
/// `else`
pub type Else = Keyword<12>;
/// `enum`
pub type Enum = Keyword<13>;
/// `extern`
pub type Extern = Keyword<14>;
/// `final`
pub type Final = Keyword<16>;
/// `fn`
pub type Fn = Keyword<17>;
/// `for`
pub type For = Keyword<18>;
/// `if`
pub type If = Keyword<19>;
/// `impl`
pub type Impl = Keyword<20>;
/// `in`
pub type In = Keyword<21>;
/// `let`
pub type Let = Keyword<22>;
/// `loop`
pub type Loop = Keyword<23>;
/// `macro`
pub type Macro = Keyword<24>;
/// `match`
pub type Match = Keyword<25>;
/// `mod`
pub type Mod = Keyword<26>;
/// `move`
pub type Move = Keyword<27>;
/// `mut`
pub type Mut = Keyword<28>;
/// `override`
pub type Override = Keyword<29>;
/// `priv`
pub type Priv = Keyword<30>;
/// `pub`
pub type Pub = Keyword<31>;
/// `ref`
pub type Ref = Keyword<32>;
/// `return`
pub type Return = Keyword<33>;
/// `Self`
pub type SelfType = Keyword<34>;
/// `self`
pub type SelfValue = Keyword<35>;
/// `static`
pub type Static = Keyword<36>;
/// `struct`
pub type Struct = Keyword<37>;
/// `super`
pub type Super = Keyword<38>;
/// `trait`
pub type Trait = Keyword<39>;
/// `try`
pub type Try = Keyword<41>;
/// `type`
pub type Type = Keyword<42>;
/// `typeof`
pub type Typeof = Keyword<43>;
/// `unsafe`
pub type Unsafe = Keyword<44>;
/// `unsized`
pub type Unsized = Keyword<45>;
/// `use`
pub type Use = Keyword<46>;
/// `virtual`
pub type Virtual = Keyword<47>;
/// `where`
pub type Where = Keyword<48>;
/// `while`
pub type While = Keyword<49>;
/// `yield`
pub type Yield = Keyword<50>;
/// `auto`
pub type Auto = Keyword<51>;
/// `default`
pub type Default = Keyword<52>;
/// `raw`
pub type Raw = Keyword<53>;
/// `safe`
pub type Safe = Keyword<54>;
/// `union`
pub type Union = Keyword<55>;
/// `&`
pub type And = Punctuation<0, 1>;
/// `&&`
pub type AndAnd = Punctuation<1, 2>;
/// `&=`
pub type AndEq = Punctuation<2, 2>;
/// `@`
pub type At = Punctuation<3, 1>;
/// `^`
pub type Caret = Punctuation<4, 1>;
/// `^=`
pub type CaretEq = Punctuation<5, 2>;
/// `:`
pub type Colon = Punctuation<6, 1>;
/// `,`
pub type Comma = Punctuation<7, 1>;
/// `$`
pub type Dollar = Punctuation<8, 1>;
/// `.`
pub type Dot = Punctuation<9, 1>;
/// `..`
pub type DotDot = Punctuation<10, 2>;
/// `...`
pub type DotDotDot = Punctuation<11, 3>;
/// `..=`
pub type DotDotEq = Punctuation<12, 3>;
/// `=`
pub type Eq = Punctuation<13, 1>;
/// `==`
pub type EqEq = Punctuation<14, 2>;
/// `=>`
pub type FatArrow = Punctuation<15, 2>;
/// `>=`
pub type Ge = Punctuation<16, 2>;
/// `>`
pub type Gt = Punctuation<17, 1>;
/// `<-`
pub type LArrow = Punctuation<18, 2>;
/// `<=`
pub type Le = Punctuation<19, 2>;
/// `<`
pub type Lt = Punctuation<20, 1>;
/// `-`
pub type Minus = Punctuation<21, 1>;
/// `-=`
pub type MinusEq = Punctuation<22, 2>;
/// `!=`
pub type Ne = Punctuation<23, 2>;
/// `!`
pub type Not = Punctuation<24, 1>;
/// `|`
pub type Or = Punctuation<25, 1>;
/// `|=`
pub type OrEq = Punctuation<26, 2>;
/// `||`
pub type OrOr = Punctuation<27, 2>;
/// `::`
pub type PathSep = Punctuation<28, 2>;
/// `%`
pub type Percent = Punctuation<29, 1>;
/// `%=`
pub type PercentEq = Punctuation<30, 2>;
/// `+`
pub type Plus = Punctuation<31, 1>;
/// `+=`
pub type PlusEq = Punctuation<32, 2>;
/// `#`
pub type Pound = Punctuation<33, 1>;
/// `?`
pub type Question = Punctuation<34, 1>;
/// `->`
pub type RArrow = Punctuation<35, 2>;
/// `;`
pub type Semi = Punctuation<36, 1>;
/// `<<`
pub type Shl = Punctuation<37, 2>;
/// `<<=`
pub type ShlEq = Punctuation<38, 3>;
/// `>>`
pub type Shr = Punctuation<39, 2>;
/// `>>=`
pub type ShrEq = Punctuation<40, 3>;
/// `/`
pub type Slash = Punctuation<41, 1>;
/// `/=`
pub type SlashEq = Punctuation<42, 2>;
/// `*`
pub type Star = Punctuation<43, 1>;
/// `*=`
pub type StarEq = Punctuation<44, 2>;
/// `~`
pub type Tilde = Punctuation<45, 1>;
