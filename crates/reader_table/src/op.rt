//! What an entry says, as steps in a row.
//!
//! An entry is a list of steps: a step that has parts stands before them, and says how many steps each of them but
//! the last one takes. A look is a list of sights in the same way.

use crate::composite::Composite;
use crate::kind::{Kind, Place, Position};
use crate::part::Part;
use crate::word::{Literals, Sign, Words};
use proc_macro2::delimiter::Delimiter;

/// One step of an entry.
#[derive(Clone, Copy)]
pub enum Op {
    /// A word that passes.
    Word(Words),
    /// A literal that passes.
    Literal(Literals),
    /// A punctuation, whatever follows its last mark.
    Mark(Sign),
    /// `'` and a word.
    Lifetime,
    /// Tokens of any kind, to the end.
    Raw,
    /// No token.
    Nothing,
    /// What is read nowhere.
    Never,
    /// A part that takes so many steps, and then another.
    Seq(usize),
    /// If the test passes a part that takes so many steps, and else the other.
    Alt(Test, usize),
    /// A part again and again while the test passes.
    Star(Test),
    /// Parts with that mark between them, which may stand behind the last one too, until the test passes.
    Many(Test, Separator),
    /// A group, whose inside is read to its end.
    Group(Delimiter),
    /// A part that is kept, kept as tokens, or refused, as it is judged.
    Judged(Verdicts),
    /// A part that is read and forgotten.
    Dropped,
    /// A part, by its name.
    Called(Part),
    /// A node of a kind.
    Ref(Kind),
    /// An expression, as a right operand of an operator of that level; at level 0 a whole one.
    Operand(Position, usize),
}

/// What stands between the elements of a list.
#[derive(Clone, Copy)]
pub enum Separator {
    /// `,`
    Comma,
    /// `+`
    Plus,
}

/// A test of the tokens that follow.
#[derive(Clone, Copy)]
pub enum Test {
    /// The look sees what it wants.
    Sees(Look),
    /// It does not.
    Lacks(Look),
}

/// What is looked for in the tokens that follow.
#[derive(Clone, Copy)]
pub enum Look {
    /// A word that passes.
    Word(Words),
    /// A literal that passes.
    Quoted(Literals),
    /// A punctuation.
    Mark(Sign),
    /// `'` and a word.
    Lifetime,
    /// The opening token of such a group.
    Opens(Delimiter),
    /// The end of the list.
    End,
    /// What is nowhere.
    Nowhere,
    /// Several things, by the name of the look.
    Composite(Composite),
}

/// One step of a look.
#[derive(Clone, Copy)]
pub enum Sight {
    /// A word that passes.
    Word(Words),
    /// A literal that passes.
    Quoted(Literals),
    /// A punctuation.
    Mark(Sign),
    /// `'` and a word.
    Lifetime,
    /// The opening token of such a group.
    Opens(Delimiter),
    /// An opening token of any kind.
    Opening,
    /// A closing token.
    Closes,
    /// A whole group.
    Group(Delimiter),
    /// All tokens up to the first mark of that character that stands in no group, and that mark.
    PastFirst(u32),
    /// Literals that pass, as far as they go.
    PastLiterals(Literals),
    /// The end of the list.
    End,
    /// What is nowhere.
    Nowhere,
    /// What takes so many steps, and then another.
    Then(usize),
    /// What takes so many steps, or else another.
    Or(usize),
    /// What may be there.
    Maybe,
    /// What is not there; nothing is passed.
    No,
    /// Again and again, as far as it goes.
    Repeatedly,
}

/// A form of expressions, and what is seen where it stands.
#[derive(Clone, Copy)]
pub struct Case {
    /// The form's kind.
    pub kind: Kind,
    /// What is looked for.
    pub look: Look,
}

/// How what was read is judged: it is kept, or its tokens are, or there is none.
#[derive(Clone, Copy)]
pub enum Verdicts {
    /// An item in its place.
    Item(Place),
    /// An item of one kind by itself, in its place.
    Typed(Place),
    /// Bounds of which one at least is a path.
    SomeBounds,
    /// Fields of a pattern, of which `..` is the last.
    FieldPatterns,
    /// Fields of a struct expression, of which the base is the last.
    FieldValues,
    /// An arm of a match.
    Arm,
    /// Parameters of a function.
    Parameters,
    /// One parameter by itself.
    FnArg,
    /// A trait or an alias of traits.
    Trait,
    /// A trait that is no alias, behind a restriction.
    RestrictedTrait,
    /// An impl.
    Impl,
    /// A trait by itself.
    TraitByItself,
    /// An alias of traits by itself.
    TraitAliasByItself,
    /// A let.
    Let,
    /// One statement by itself.
    OneStatement,
    /// Statements.
    Statements,
}
