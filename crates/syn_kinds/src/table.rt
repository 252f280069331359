//! The table of the kinds of tokens: which words the keywords are, and which marks the punctuations.
//!
//! A kind is a number of a row. A number past the rows of the words is that of the last one.

ghost use Rattle.rust_leaf.specs.Leaf.{ident_text};
ghost use Rattle.rust_leaf.specs.Mark.{is_mark};
ghost use Rattle.std.specs.Prelude.{[], ◌<◌, ◌≡◌, ◌≤◌, IsTrue, drop, false, get_or, length, take};
ghost use Rattle.std.specs.List.{list_any};
ghost use Rattle.std.specs.Str.{chars};
ghost use Rattle.syn_kinds.specs.Table.{begins, kept_words, quoted, sign, texts, word};
ghost use Rattle.rust_leaf.specs.Keywords.{is_reserved, same_text};

use rust_leaf::ident::Ident;

// The words, as messages show them: the 51 that are no names, and then those that are names too.
const WORDS: [&str; 56] = [
    "`abstract`",
    "`as`",
    "`async`",
    "`await`",
    "`become`",
    "`box`",
    "`break`",
    "`const`",
    "`continue`",
    "`crate`",
    "`do`",
    "`dyn`",
    "`else`",
    "`enum`",
    "`extern`",
    "`false`",
    "`final`",
    "`fn`",
    "`for`",
    "`if`",
    "`impl`",
    "`in`",
    "`let`",
    "`loop`",
    "`macro`",
    "`match`",
    "`mod`",
    "`move`",
    "`mut`",
    "`override`",
    "`priv`",
    "`pub`",
    "`ref`",
    "`return`",
    "`Self`",
    "`self`",
    "`static`",
    "`struct`",
    "`super`",
    "`trait`",
    "`true`",
    "`try`",
    "`type`",
    "`typeof`",
    "`unsafe`",
    "`unsized`",
    "`use`",
    "`virtual`",
    "`where`",
    "`while`",
    "`yield`",
    "`auto`",
    "`default`",
    "`raw`",
    "`safe`",
    "`union`",
];

// The marks of the punctuations, as messages show them.
const MARKS: [&str; 46] = [
    "`&`", "`&&`", "`&=`", "`@`", "`^`", "`^=`", "`:`", "`,`", "`$`", "`.`", "`..`", "`...`",
    "`..=`", "`=`", "`==`", "`=>`", "`>=`", "`>`", "`<-`", "`<=`", "`<`", "`-`", "`-=`", "`!=`",
    "`!`", "`|`", "`|=`", "`||`", "`::`", "`%`", "`%=`", "`+`", "`+=`", "`#`", "`?`", "`->`",
    "`;`", "`<<`", "`<<=`", "`>>`", "`>>=`", "`/`", "`/=`", "`*`", "`*=`", "`~`",
];

// A row of a list of rows.
fn entry(rows: &[&'static str], kind: usize) -> &'static str
    requires { kind < length rows.now }
    ensures { result.now ≡ get_or (texts rows.now) kind [] }
{
    rows[kind]
}

// The row of a word.
fn word_row(kind: usize) -> &'static str
    ensures { result.now ≡ quoted (word kind) }
{
    if kind < WORDS.len() {
        entry(&WORDS, kind)
    } else {
        "`union`"
    }
}

/// The word of a keyword.
pub(crate) fn word(kind: usize) -> &'static str
    ensures { result.now ≡ word kind }
{
    let row = word_row(kind);
    &row[1..row.len() - 1]
}

// The row of a punctuation.
fn sign_row(kind: usize) -> &'static str
    ensures { result.now ≡ quoted (sign kind) }
{
    if kind < MARKS.len() {
        entry(&MARKS, kind)
    } else {
        "`~`"
    }
}

// Whether an identifier is printed as that word.
fn is_word(ident: &Ident, word: &str) -> bool
    ensures { result ≡ same_text (chars word.now) (ident_text ident.now) }
{
    ident.is_text(word)
}

// Whether an identifier is printed as a keyword.
#[tactic(auto, using(crate::proofs::Rows::word_chars))]
fn is_keyword(ident: &Ident, kind: usize) -> bool
    ensures { result ≡ same_text (word kind) (ident_text ident.now) }
{
    is_word(ident, word(kind))
}

// The rows of the words that are no names and begin with a byte: the first of them, and the one behind the last.
#[tactic(auto, unfolding(crate::specs::Table::kept_words))]
fn rows_from(first: u8) -> (usize, usize)
    ensures ordered { result.0 ≤ result.1 }
    ensures within { result.1 ≤ 51 }
    ensures before { list_any (begins first) (take result.0 kept_words) ≡ false }
    ensures behind { list_any (begins first) (drop result.1 kept_words) ≡ false }
{
    match first {
        b'a' => (0, 4),
        b'b' => (4, 7),
        b'c' => (7, 10),
        b'd' => (10, 12),
        b'e' => (12, 15),
        b'f' => (15, 19),
        b'i' => (19, 22),
        b'l' => (22, 24),
        b'm' => (24, 29),
        b'o' => (29, 30),
        b'p' => (30, 32),
        b'r' => (32, 34),
        b'S' => (34, 35),
        b's' => (35, 39),
        b't' => (39, 44),
        b'u' => (44, 47),
        b'v' => (47, 48),
        b'w' => (48, 50),
        b'y' => (50, 51),
        _ => (0, 0),
    }
}

// Whether an identifier is one of the words that are no names. Only those are looked at that begin as it does.
fn is_kept(ident: &Ident) -> bool
    ensures { result ≡ list_any (λ word. same_text word (ident_text ident.now)) kept_words }
{
    let (from, to) = rows_from(ident.first_byte());
    for kind in from..to {
        if is_keyword(ident, kind) {
            return true;
        }
    }
    false
}

/// Whether an identifier is no name: one of the first 51 words, or `_`. A raw one is a name.
#[tactic(auto, using(crate::proofs::Rows::underscore_chars, crate::proofs::Words::reserved_is))]
pub fn is_reserved(ident: &Ident) -> bool
    ensures { result ≡ is_reserved (ident_text ident.now) }
{
    is_word(ident, "_") || is_kept(ident)
}

/// How a message shows a keyword.
pub(crate) fn displayed_word(kind: usize) -> &'static str
    ensures { result.now ≡ quoted (word kind) }
{
    word_row(kind)
}

/// How a message shows a punctuation.
pub(crate) fn displayed_sign(kind: usize) -> &'static str
    ensures { result.now ≡ quoted (sign kind) }
{
    sign_row(kind)
}

/// A mark of a punctuation, from 0, or `~` where its row has fewer.
pub(crate) fn mark(kind: usize, index: usize) -> char
    ensures mark { result ≡ get_or (sign kind) index 126 }
    ensures is_mark { IsTrue (is_mark result) }
{
    let row = sign_row(kind).as_bytes();
    if index < row.len() - 2 {
        row[index + 1] as char
    } else {
        '~'
    }
}
