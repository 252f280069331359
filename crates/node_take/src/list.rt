//! Elements with separators, and turns.

ghost use Rattle.node_shapes.specs.Shape.{IsShaped};
ghost use Rattle.node_words.specs.Words as words;
ghost use Rattle.proc_macro2.specs.Token.{Token};
ghost use Rattle.reader_tree.specs.Forms.{elements as listed, ending, turns as in_turn};
ghost use Rattle.reader_tree.specs.Size.{node_count};
ghost use Rattle.std.specs.Prelude.{◌≡◌, ◌<◌, ◌≤◌, [], Bool, IfOk, IfSome, List, None, ℕ};
ghost use Rattle.syn_grammar.specs.Gram as g;
ghost use Rattle.syn_grammar.specs.Gram.{Gram};
ghost use Rattle.syn_grammar.specs.Kept.{kept};
ghost use Rattle.syn_grammar.specs.Tree as t;
ghost use Rattle.syn_grammar.specs.Tree.{Tree as GivenTree};

use reader_tree::tree::{Element, Form, Tree};
use std::alloc::{AllocError, Global};
use syn_kinds::punctuation::Punctuation;
use syn_lists::Punctuated;

/// Elements with a mark between them, and perhaps one behind the last.
#[derive(Clone, Copy)]
pub struct Listed<'t, 'a> {
    /// The elements that a mark follows.
    pub before: &'t [Element<'a>],
    /// The last one, if no mark follows it.
    pub last: Option<&'t Tree<'a>>,
}

// No element.
fn no_elements<'t, 'a>() -> Listed<'t, 'a>
    ensures before { result.before.now ≡ [] }
    ensures last { result.last ≡ None }
{
    Listed {
        before: &[],
        last: None,
    }
}

/// The elements of a list, which that mark follows.
#[tactic(auto, using(crate::proofs::Takes::lists))]
pub fn elements<'t, 'a>(mark: char, tree: &'t Tree<'a>) -> Listed<'t, 'a>
    requires { ((e : List Token → Bool) × (a : Gram) × IsShaped tree.now (g.many e mark a)) }
    ensures { tree.now ≡ listed mark result.before.now (ending (λ x. x.now) result.last) }
{
    match &tree.form {
        Form::Elements(list) => Listed {
            before: list.before,
            last: list.last,
        },
        Form::End => no_elements(),
        Form::Turns(turns) => if turns.each.is_empty() {
            no_elements()
        } else {
            unreachable!()
        },
        _ => unreachable!(),
    }
}

/// The only element of a list, if it is one and no mark follows it.
#[tactic(auto, using(crate::proofs::Takes::lists))]
pub fn lone<'t, 'a>(mark: char, tree: &'t Tree<'a>) -> Option<&'t Tree<'a>>
    requires { ((e : List Token → Bool) × (a : Gram) × IsShaped tree.now (g.many e mark a)) }
    ensures { IfSome result (λ x. tree.now ≡ t.Final x.now) }
{
    let Listed { before, last } = elements(mark, tree);
    if before.is_empty() { last } else { None }
}

/// Turns, one behind the other.
#[derive(Clone, Copy)]
pub struct Turns<'t, 'a> {
    /// Each of them.
    pub each: &'t [Tree<'a>],
}

// No turn.
fn no_turns<'t, 'a>() -> Turns<'t, 'a>
    ensures { result.each.now ≡ [] }
{
    Turns { each: &[] }
}

/// The turns that stand there.
pub fn all_turns<'t, 'a>(tree: &'t Tree<'a>) -> Turns<'t, 'a>
    requires { ((e : List Token → Bool) × (a : Gram) × IsShaped tree.now (g.star e a)) }
    ensures { tree.now ≡ in_turn result.each.now }
{
    match &tree.form {
        Form::Turns(turns) => Turns { each: turns.each },
        _ => no_turns(),
    }
}

/// What makes values of trees of one shape.
pub trait Make<T> {
    /// The entry whose shape they have.
    ghost shape: { Gram };

    /// What a value is as a tree that a syntax tree holds.
    ghost view: { T → GivenTree };

    /// It may be asked.
    ghost ready: { Self → Type 0 };

    /// It makes values of trees with fewer nodes than that.
    ghost bound: { Self → ℕ };

    /// Where memory is taken from.
    fn alloc(&self) -> Global;

    /// The value that a tree is.
    ///
    /// # Errors
    ///
    /// Where there is no memory for it.
    fn make(&self, tree: &Tree<'_>) -> Result<T, AllocError>
        requires ready { ready self.now }
        requires shaped { IsShaped tree.now shape }
        requires fewer { node_count tree.now < bound self.now }
        ensures { IfOk result (λ x. view x ≡ kept tree.now) };
}

/// The elements of a list, which that mark follows, each as the value that it is. The separators stand where
/// they stood.
///
/// # Errors
///
/// Where there is no memory for them.
#[tactic(auto, using(crate::proofs::Lists::steps))]
pub fn separated<T: Drop, M: Make<T>, const K: usize>(
    maker: &M,
    mark: char,
    tree: &Tree<'_>,
) -> Result<Punctuated<T, Punctuation<K, 1>>, AllocError>
    requires ready { M.ready maker.now }
    requires shaped { ((e : List Token → Bool) × IsShaped tree.now (g.many e mark M.shape)) }
    requires fewer { node_count tree.now ≤ M.bound maker.now }
    ensures { IfOk result (λ l. words.listed mark M.view l.values.items l.separators.items ≡ kept tree.now) }
{
    let Listed { before, last } = elements(mark, tree);
    let mut list = Punctuated::new(maker.alloc());
    for element in before {
        list.push_value(maker.make(&element.tree)?)?;
        list.push_punct(Punctuation::new([element.spacing.span()]))?;
    }
    if let Some(element) = last {
        list.push_value(maker.make(element)?)?;
    }
    Ok(list)
}

/// Turns, each as the value that it is.
///
/// # Errors
///
/// Where there is no memory for them.
#[tactic(auto, using(crate::proofs::Lists::turn_steps))]
pub fn each<T: Drop, M: Make<T>>(maker: &M, tree: &Tree<'_>) -> Result<Vec<T>, AllocError>
    requires ready { M.ready maker.now }
    requires shaped { ((e : List Token → Bool) × IsShaped tree.now (g.star e M.shape)) }
    requires fewer { node_count tree.now ≤ M.bound maker.now }
    ensures { IfOk result (λ v. words.turns M.view v.items ≡ kept tree.now) }
{
    let mut values = Vec::new(maker.alloc());
    let Turns { each } = all_turns(tree);
    for turn in each {
        values.push(maker.make(turn)?)?;
    }
    Ok(values)
}
