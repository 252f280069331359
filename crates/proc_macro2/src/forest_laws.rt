//! Laws of the forests of texts and of files, and of their lexical faults.
//!
//! Each function does nothing: its contract is a law, proved once for all texts.

ghost use Rattle.proc_macro2.specs.FileForest.{IsFileForest, IsFileLexicalFault};
ghost use Rattle.proc_macro2.specs.Forest.{IsForest, IsLexicalFault};
ghost use Rattle.proc_macro2.specs.Token.{Spanned};
ghost use Rattle.rust_map.specs.declared.place.LineColumn.{LineColumn};
ghost use Rattle.std.specs.Prelude.{ℕ, ◌≡◌, ◌⊎◌, List, Option};

/// A text has at most one forest: its tokens and their spans are determined.
pub fn one_forest()
    ensures { (base : ℕ) (text : List ℕ) (ts us : List Spanned) → IsForest base text ts → IsForest base text us
        → ts ≡ us }
{}

/// A text with a lexical fault has no forest.
pub fn no_forest()
    ensures { (base : ℕ) (text : List ℕ) (place : LineColumn) (ts : List Spanned) → IsLexicalFault text place
        → IsForest base text ts → ⊥ }
{}

/// A text has at most one lexical fault: two of them stand at the same line and column.
pub fn one_fault()
    ensures { (text : List ℕ) (p q : LineColumn) → IsLexicalFault text p → IsLexicalFault text q → p ≡ q }
{}

/// Each text has a forest or a lexical fault.
pub fn forest_or_fault()
    ensures { (base : ℕ) (text : List ℕ)
        → ((ts : List Spanned) × IsForest base text ts) ⊎ ((place : LineColumn) × IsLexicalFault text place) }
{}

/// A text has at most one forest as a file: its shebang, its tokens and their spans are determined.
pub fn one_file_forest()
    ensures { (base : ℕ) (text : List ℕ) (shebang other : Option (List ℕ)) (ts us : List Spanned)
        → IsFileForest base text shebang ts → IsFileForest base text other us → (shebang ≡ other) × (ts ≡ us) }
{}

/// A text with a lexical fault as a file has no forest as one.
pub fn no_file_forest()
    ensures { (base : ℕ) (text : List ℕ) (place : LineColumn) (shebang : Option (List ℕ)) (ts : List Spanned)
        → IsFileLexicalFault text place → IsFileForest base text shebang ts → ⊥ }
{}

/// A text has at most one lexical fault as a file: two of them stand at the same line and column.
pub fn one_file_fault()
    ensures { (text : List ℕ) (p q : LineColumn) → IsFileLexicalFault text p → IsFileLexicalFault text q → p ≡ q }
{}

/// Each text has a forest or a lexical fault as a file.
pub fn file_forest_or_fault()
    ensures { (base : ℕ) (text : List ℕ)
        → ((shebang : Option (List ℕ)) × (ts : List Spanned) × IsFileForest base text shebang ts)
        ⊎ ((place : LineColumn) × IsFileLexicalFault text place) }
{}
