//! What holds of every text and the tokens that it is read as.
//!
//! Each function does nothing: its contract is a law, proved once for all texts.

ghost use Rattle.proc_macro2.specs.Leaf.{AreLeaves};
ghost use Rattle.rust_leaf.specs.Leaf.{AreCharacters};
ghost use Rattle.laws_lexer.specs.Joined.{JoinedCovers, JoinedFileForest, JoinedForest};
ghost use Rattle.laws_lexer.specs.Read.{IsReadAs};
ghost use Rattle.proc_macro2.specs.Forest.{IsFaultBehind, IsForest};
ghost use Rattle.proc_macro2.specs.Groups.{IsMatched};
ghost use Rattle.proc_macro2.specs.Printed.{text};
ghost use Rattle.proc_macro2.specs.Spacing.{IsWellSpaced};
ghost use Rattle.proc_macro2.specs.Token.{Spanned, Token, plain};
ghost use Rattle.std.specs.Prelude.{◌≡◌, ◌↔◌, ℕ, List};

/// A text is read as at most one list of tokens.
pub fn one_reading()
    ensures { (cs : List ℕ) (ts us : List Token) → IsReadAs cs ts → IsReadAs cs us → ts ≡ us }
{}

/// Tokens each of which is a leaf are what their printed text is read as exactly if they are well spaced.
pub fn read_back()
    ensures { (ts : List Token) → AreLeaves ts → IsWellSpaced ts ↔ IsReadAs (text ts) ts }
{}

/// The tokens that a text is read as are well spaced.
pub fn well_spaced()
    ensures { (cs : List ℕ) (ts : List Token) → IsReadAs cs ts → IsWellSpaced ts }
{}

/// Each token that a text is read as is a leaf by itself, those that stand for a doc included.
pub fn leaves()
    ensures { (cs : List ℕ) (ts : List Token) → AreCharacters cs → IsReadAs cs ts → AreLeaves ts }
{}

/// The tokens of a forest are leaves, and they are well spaced.
pub fn forest_spaced()
    ensures { (base : ℕ) (cs : List ℕ) (stream : List Spanned) → AreCharacters cs → IsForest base cs stream →
        AreLeaves (plain stream) × IsWellSpaced (plain stream) }
{}

/// Where the printed text of leaves has a forest, it has the same tokens exactly if they are well spaced.
pub fn same_forest()
    ensures { (base : ℕ) (stream read : List Spanned) → AreLeaves (plain stream) →
        IsForest base (text (plain stream)) read → IsWellSpaced (plain stream) ↔ (plain read ≡ plain stream) }
{}

/// The printed text of well spaced leaves in matched groups has no lexical fault.
pub fn no_fault()
    ensures { (stream : List Spanned) (n : ℕ) → AreLeaves (plain stream) → IsMatched stream →
        IsWellSpaced (plain stream) → IsFaultBehind (text (plain stream)) n → ⊥ }
{}

/// Leaves in matched groups are well spaced exactly if their printed text has a forest of the same tokens.
pub fn forest_back()
    ensures { (base : ℕ) (stream : List Spanned) → AreLeaves (plain stream) → IsMatched stream
        → IsWellSpaced (plain stream) ↔ ((read : List Spanned) × IsForest base (text (plain stream)) read ×
        (plain read ≡ plain stream)) }
{}

/// The cover of a file, a line feed, and the cover of a text without byte order mark and shebang: they are the cover of
/// both texts joined by the line feed.
pub fn joined_covers()
    ensures { JoinedCovers }
{}

/// Two texts joined by a line feed have the forests of both, one behind the other, spans aside. The second has no byte
/// order mark.
pub fn joined_forest()
    ensures { JoinedForest }
{}

/// The same of files: the first may have a byte order mark and a shebang, which are those of both joined.
pub fn joined_file_forest()
    ensures { JoinedFileForest }
{}
