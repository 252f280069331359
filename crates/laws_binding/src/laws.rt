//! Laws of expressions: each is the contract of a function that does nothing.

ghost use Rattle.proc_macro2.specs.Token.{Token};
ghost use Rattle.std.specs.Prelude.{◌≡◌, true, List};
ghost use Rattle.syn_grammar.specs.Derives.{Bound, Derives};
ghost use Rattle.syn_grammar.specs.Gram.{ref};
ghost use Rattle.syn_grammar.specs.Kept.{kept};
ghost use Rattle.syn_grammar.specs.Kind.{Expression, InCondition, Plain, Position};
ghost use Rattle.syn_grammar.specs.Look.{sees};
ghost use Rattle.syn_grammar.specs.Normal.{formed, normal_in};
ghost use Rattle.syn_grammar.specs.Say.{brace};
ghost use Rattle.syn_grammar.specs.Tree.{Node, Tree, Whole};
ghost use Rattle.laws_binding.specs.Bare.{bare, HasPlainRanges};
ghost use Rattle.laws_binding.specs.Meets.{Meets, NoneGoesOn};
ghost use Rattle.laws_binding.specs.Spelled.{Spelled};
ghost use Rattle.laws_binding.specs.Written.{write, wrote};

/// An expression that was read gains no parentheses in its place, if no range among its operands has attributes: its
/// normal form has the operands where they stood, and its own parts in normal form. Behind a condition stands a brace.
pub fn gains_none()
    ensures { (p : Position) (x : Tree) (rest : List Token)
        → Derives (Node (Expression p) (Whole x)) (ref (Expression p)) rest → (p ≡ InCondition → sees brace rest ≡ true)
        → HasPlainRanges x → normal_in p (kept (Node (Expression p) (Whole x)))
        ≡ Node (Expression Plain) (Whole (bare (kept x))) }
{}

/// One who writes an expression in one pass, and keeps of each operand that is written its tokens and ten facts, writes
/// its normal form: in every position, before whatever follows, of trees that were built by hand too.
pub fn one_pass()
    ensures { (p : Position) (ts : List Token) (x : Tree) → write p ts x ≡ wrote (formed p ts x) }
{}

/// The operands of a normal form meet the conditions of levels, of trees that were built by hand too: what stands left
/// of a form may stand there and goes on with nothing, and what stands right of it is of the levels that it takes.
pub fn levels_met()
    ensures { (p : Position) (ts : List Token) (x : Tree) → Meets p (formed p ts x) }
{}

/// What binds an expression is in two parts: the operands meet the conditions of levels, and the own parts are read
/// where they stand; and before what follows no operand on the right edge goes on.
pub fn in_parts()
    ensures apart { (p : Position) (x : Tree) (rest : List Token) → Bound p x rest
        → Meets p x × Spelled p x rest × NoneGoesOn p x rest }
    ensures joined { (p : Position) (x : Tree) (rest : List Token) → Meets p x → Spelled p x rest → NoneGoesOn p x rest
        → Bound p x rest }
{}
