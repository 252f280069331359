//! Laws of programs and their canonical forms, over the whole grammar. The functions do nothing: their contracts are
//! the laws.

ghost use Rattle.laws_programs.specs.Faults.{IsSyntaxFault};
ghost use Rattle.laws_programs.specs.Joined.{AreAlike, AreJoinable, IsFirstFault, IsJoinedOutput, Wrong};
ghost use Rattle.laws_programs.specs.Joined.{attributes_of, file_of, items_of, joined, spaced};
ghost use Rattle.laws_programs.specs.Program.{IsFile, IsOutput, IsProgram, NoFile, Program, begins_bang, written};
ghost use Rattle.laws_programs.specs.Stands.{AllStandIn};
ghost use Rattle.proc_macro2.specs.FileForest.{IsFileForest, IsFileLexicalFault, NoShebang};
ghost use Rattle.proc_macro2.specs.Spacing.{IsWellSpaced};
ghost use Rattle.proc_macro2.specs.Token.{Spanned, Token, plain};
ghost use Rattle.rust_leaf.specs.Leaf.{AreCharacters};
ghost use Rattle.rust_map.specs.declared.place.LineColumn.{LineColumn};
ghost use Rattle.std.specs.Prelude.{ℕ, false, ◌≡◌, ◌⊎◌, ◌↔◌, List, [], ◌++◌, Option, None};
ghost use Rattle.syn_grammar.specs.Kept.{kept};
ghost use Rattle.syn_grammar.specs.Kind.{AFile};
ghost use Rattle.syn_grammar.specs.Names.{names};
ghost use Rattle.syn_grammar.specs.Normal.{normal};
ghost use Rattle.syn_grammar.specs.Read.{IsDerived, NoneRead};
ghost use Rattle.syn_grammar.specs.Tree.{Tree, flat};

/// What is read as a file is all of the tokens; where nothing is read, they are no file.
pub fn files()
    ensures read { (ts : List Token) (t : Tree) (rest : List Token) → IsDerived AFile ts t rest
        → IsFile ts t × (rest ≡ []) }
    ensures refused { (ts : List Token) → NoneRead AFile ts → NoFile ts }
{}

/// The forest of a text decides, wherever the text's characters stand in a map: if its tokens are a file, the tree of
/// that, with the shebang, is the text's program, and if they are none, the text is at fault.
pub fn forest_decides()
    ensures program { (base : ℕ) (text : List ℕ) (ss : List Spanned) (p : Program)
        → IsFileForest base text p.shebang ss → IsFile (plain ss) p.tree → IsProgram text p }
    ensures fault { (base : ℕ) (text : List ℕ) (shebang : Option (List ℕ)) (ss : List Spanned)
        → IsFileForest base text shebang ss → NoFile (plain ss) → IsSyntaxFault text None }
{}

/// A text has at most one program.
pub fn one_program()
    ensures { (text : List ℕ) (p q : Program) → IsProgram text p → IsProgram text q → p ≡ q }
{}

/// The tokens of a normal form are well spaced, so that they can be written down.
pub fn normal_form_is_spaced()
    ensures { (text : List ℕ) (p : Program) → AreCharacters text → IsProgram text p
        → IsWellSpaced (flat (normal (kept p.tree))) }
{}

/// What is written has the shebang and the normal form's tokens, and no others.
pub fn output_has_tokens()
    ensures { (text : List ℕ) (p : Program) → AreCharacters text → IsProgram text p
        → (read : List Spanned) × IsFileForest 0 (written p) p.shebang read
        × (plain read ≡ flat (normal (kept p.tree))) }
{}

/// Two accepted texts have one output exactly if they have the same shebang and their normal forms the same tokens.
pub fn one_output_for_the_same_tokens()
    ensures { (a b : List ℕ) (p q : Program) → AreCharacters a → AreCharacters b → IsProgram a p → IsProgram b q
        → (written p ≡ written q) ↔ ((p.shebang ≡ q.shebang)
        × (flat (normal (kept p.tree)) ≡ flat (normal (kept q.tree)))) }
{}

/// An output is accepted, and is its own output.
pub fn output_is_fixed()
    ensures { (text output : List ℕ) → AreCharacters text → IsOutput text output → IsOutput output output }
{}

/// The output of a text has the text's shebang, and its syntax tree is the normal form of the one that was written.
pub fn output_has_normal_form()
    ensures { (text : List ℕ) (p : Program) → AreCharacters text → IsProgram text p
        → (q : Program) × IsProgram (written p) q × (q.shebang ≡ p.shebang)
        × (kept q.tree ≡ normal (kept p.tree)) }
{}

/// Two accepted texts have one output exactly if they have the same shebang and their syntax trees the same normal
/// form.
pub fn one_output_for_one_form()
    ensures { (a b : List ℕ) (p q : Program) → AreCharacters a → AreCharacters b → IsProgram a p → IsProgram b q
        → (written p ≡ written q) ↔ ((p.shebang ≡ q.shebang)
        × (normal (kept p.tree) ≡ normal (kept q.tree))) }
{}

/// The output of a text without shebang begins with none.
pub fn no_shebang_begins()
    ensures { (text : List ℕ) (p : Program) → AreCharacters text → IsProgram text p → p.shebang ≡ None
        → NoShebang (written p) }
{}

/// The output of a text without shebang doesn't begin with `#!` at all, before `[` either.
pub fn no_shebang_marks()
    ensures { (text : List ℕ) (p : Program) → AreCharacters text → IsProgram text p → p.shebang ≡ None
        → begins_bang (written p) ≡ false }
{}

/// A text that is at fault has no program.
pub fn faults_have_no_program()
    ensures lexical { (text : List ℕ) (place : LineColumn) (p : Program) → IsFileLexicalFault text place
        → IsProgram text p → ⊥ }
    ensures syntax { (text : List ℕ) (place : Option LineColumn) (p : Program) → IsSyntaxFault text place
        → IsProgram text p → ⊥ }
{}

/// Each text has a program, a lexical fault or a syntax fault.
pub fn program_or_fault()
    ensures { (text : List ℕ) → ((p : Program) × IsProgram text p)
        ⊎ ((place : LineColumn) × IsFileLexicalFault text place)
        ⊎ ((place : Option LineColumn) × IsSyntaxFault text place) }
{}

/// Each name of a text's program stands in the text, character by character, at the line and the column where its token
/// begins.
pub fn names_stand()
    ensures { (text : List ℕ) (p : Program) → (i : IsProgram text p) → AllStandIn text i.tokens (names p.tree) }
{}

/// A file, and one behind it that has no attributes of its own: their tokens one behind the other are the file that has
/// the attributes of the first and the items of both.
pub fn joined_files()
    ensures { (ts us : List Token) (t u : Tree) → IsFile ts t → IsFile us u → attributes_of u ≡ []
        → IsFile (ts ++ us) (file_of (attributes_of t) (items_of t ++ items_of u)) }
{}

/// Texts that may be joined: the text of all, with a line feed between two, is accepted, its output is put together
/// from theirs, and its items are theirs in order.
pub fn joined_texts()
    ensures { (texts : List (List ℕ)) (ps : List Program) → AreCharacters (joined texts)
        → AreJoinable false texts ps → IsJoinedOutput texts (spaced false ps) }
{}

/// Joined texts have at most one output.
pub fn one_joined_output()
    ensures { (texts : List (List ℕ)) (a b : List ℕ) → IsJoinedOutput texts a → IsJoinedOutput texts b → a ≡ b }
{}

/// Texts may be joined, or one of them is the first that may not stand where it does; never both. There is one such
/// text at most, and what is wrong with it is one: a lexical fault at one place, a syntax fault, or that it must come
/// first.
pub fn joinable_or_misplaced()
    ensures either { (texts : List (List ℕ)) → ((ps : List Program) × AreJoinable false texts ps)
        ⊎ ((index : ℕ) × (wrong : Wrong) × IsFirstFault false texts index wrong) }
    ensures never_both { (texts : List (List ℕ)) (ps : List Program) (index : ℕ) (wrong : Wrong)
        → AreJoinable false texts ps → IsFirstFault false texts index wrong → ⊥ }
    ensures one { (texts : List (List ℕ)) (i j : ℕ) (v w : Wrong) → IsFirstFault false texts i v
        → IsFirstFault false texts j w → i ≡ j }
    ensures alike { (texts : List (List ℕ)) (i j : ℕ) (v w : Wrong) → IsFirstFault false texts i v
        → IsFirstFault false texts j w → AreAlike v w }
{}
