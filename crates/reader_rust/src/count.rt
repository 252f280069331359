//! How many tokens a tree has. It is counted in a loop: a tree may be as deep as a text is long.

ghost use Rattle.reader_rust.specs.Count.{element_nodes, element_tokens, list_tree, tokens_left, tokens_of, turn_nodes};
ghost use Rattle.reader_rust.specs.Count.{turn_tokens, weight_left, weight_of};
ghost use Rattle.reader_table.specs.Words.{sign_text};
ghost use Rattle.reader_tree.specs.Size.{node_count};
ghost use Rattle.std.specs.Prelude.{◌≡◌, ◌++◌, ◌*◌, ◌+◌, ◌<◌, ◌^◌, [], IfOk, OnOk, length};
ghost use Rattle.syn_grammar.specs.Tree.{flat};

use reader_table::word::Sign;
use reader_tree::tree::{Element, Form, Separated, Three, Tree, Two};
use std::alloc::AllocError;

/// What is left to be counted.
#[derive(Clone, Copy)]
pub(crate) enum Left<'t, 'a> {
    /// A tree.
    Tree(&'t Tree<'a>),
    /// Turns.
    Turns(&'t [Tree<'a>]),
    /// Elements, with a mark behind each.
    Elements(&'t [Element<'a>]),
}

// That is left to be counted too.
#[tactic(auto, using(crate::proofs::Counts::lefts))]
fn put_off<'t, 'a>(
    index: usize,
    next: Left<'t, 'a>,
    left: &mut Vec<Left<'t, 'a>>,
) -> Result<usize, AllocError>
    ensures same { IfOk result (λ n. n ≡ index) }
    ensures tokens { OnOk result (tokens_left left.new.items ≡ tokens_of next.entry + tokens_left left.old.items) }
    ensures weight { OnOk result (weight_left left.new.items ≡ weight_of next.entry + weight_left left.old.items) }
{
    left.push(next)?;
    Ok(index)
}

// The same of two trees.
fn put_off_two<'t, 'a>(
    index: usize,
    two: &'t Two<'a>,
    left: &mut Vec<Left<'t, 'a>>,
) -> Result<usize, AllocError>
    ensures same { IfOk result (λ n. n ≡ index) }
    ensures tokens { OnOk result (tokens_left left.new.items
        ≡ length (flat two.now.front) + length (flat two.now.back) + tokens_left left.old.items) }
    ensures weight { OnOk result (weight_left left.new.items
        ≡ 5 * (node_count two.now.front + node_count two.now.back) + 4 + weight_left left.old.items) }
{
    put_off(index, Left::Tree(&two.front), left)?;
    put_off(index, Left::Tree(&two.back), left)
}

// The same of three trees.
fn put_off_three<'t, 'a>(
    index: usize,
    three: &'t Three<'a>,
    left: &mut Vec<Left<'t, 'a>>,
) -> Result<usize, AllocError>
    ensures same { IfOk result (λ n. n ≡ index) }
    ensures tokens { OnOk result (tokens_left left.new.items
        ≡ length (flat three.now.left) + length (flat three.now.own) + length (flat three.now.right)
        + tokens_left left.old.items) }
    ensures weight { OnOk result (weight_left left.new.items
        ≡ 5 * (node_count three.now.left + node_count three.now.own + node_count three.now.right) + 6
        + weight_left left.old.items) }
{
    put_off(index, Left::Tree(&three.left), left)?;
    put_off(index, Left::Tree(&three.own), left)?;
    put_off(index, Left::Tree(&three.right), left)
}

// The same of elements, and a last one, if no mark follows it.
#[tactic(auto, using(crate::proofs::Counts::forms))]
fn put_off_list<'t, 'a>(
    index: usize,
    list: &'t Separated<'a>,
    left: &mut Vec<Left<'t, 'a>>,
) -> Result<usize, AllocError>
    ensures same { IfOk result (λ n. n ≡ index) }
    ensures tokens { OnOk result (tokens_left left.new.items
        ≡ length (flat (list_tree list.now)) + tokens_left left.old.items) }
    ensures weight { OnOk result (weight_left left.new.items
        < 5 * node_count (list_tree list.now) + 2 + weight_left left.old.items) }
{
    match list.last {
        Some(last) => {
            put_off(index, Left::Tree(last), left)?;
            put_off(index, Left::Elements(list.before), left)
        }
        None => put_off(index, Left::Elements(list.before), left),
    }
}

// So many tokens, and the marks of a punctuation.
#[tactic(auto, using(reader_tree::proofs::Counted::marks_counted))]
fn past_sign(index: usize, sign: Sign) -> usize
    requires { index + length (sign_text sign) < 2 ^ 64 }
    ensures { result ≡ index + length (sign_text sign) }
{
    index + sign.text().len()
}

// So many tokens, and those that a tree has itself. What stands in it is put off.
#[tactic(auto, using(crate::proofs::Counts::forms))]
fn past_tree<'t, 'a>(
    index: usize,
    tree: &'t Tree<'a>,
    left: &mut Vec<Left<'t, 'a>>,
) -> Result<usize, AllocError>
    requires { index + length (flat tree.now) < 2 ^ 64 }
    ensures tokens { IfOk result (λ n. n + tokens_left left.new.items
        ≡ index + length (flat tree.now) + tokens_left left.old.items) }
    ensures weight { OnOk result (weight_left left.new.items
        < 5 * node_count tree.now + 2 + weight_left left.old.items) }
{
    match &tree.form {
        Form::Word(_) | Form::Literal(_) => Ok(index + 1),
        Form::Mark(sign, _, _) => Ok(past_sign(index, *sign)),
        Form::Lifetime(_) => Ok(index + 2),
        Form::Raw(kept) => Ok(index + kept.entries.len()),
        Form::Nil | Form::End => Ok(index),
        Form::Pair(two) | Form::Front(_, two) | Form::Back(_, two) => put_off_two(index, two, left),
        Form::Infix(_, three) => put_off_three(index, three, left),
        Form::Turns(turns) => put_off(index, Left::Turns(turns.each), left),
        Form::Elements(list) => put_off_list(index, list, left),
        Form::Group(_, group) => put_off(index + 2, Left::Tree(&group.inside), left),
        Form::First(_, inner) | Form::Second(_, inner) | Form::Dropped(inner) => {
            put_off(index, Left::Tree(inner), left)
        }
        Form::Called(_, inner) | Form::Verbatim(inner) | Form::Node(_, inner) => {
            put_off(index, Left::Tree(inner), left)
        }
        Form::Whole(inner) | Form::Alone(_, inner) => put_off(index, Left::Tree(inner), left),
    }
}

// So many tokens, and those that turns have themselves: none. The first one is put off, and the others behind it.
fn past_turns<'t, 'a>(
    index: usize,
    turns: &'t [Tree<'a>],
    left: &mut Vec<Left<'t, 'a>>,
) -> Result<usize, AllocError>
    ensures tokens { IfOk result (λ n. n + tokens_left left.new.items
        ≡ index + turn_tokens turns.now + tokens_left left.old.items) }
    ensures weight { OnOk result (weight_left left.new.items
        < 5 * turn_nodes turns.now + 1 + weight_left left.old.items) }
{
    match turns.split_first() {
        Some((first, rest)) => {
            put_off(index, Left::Turns(rest), left)?;
            put_off(index, Left::Tree(first), left)
        }
        None => Ok(index),
    }
}

// So many tokens, and those that elements have themselves: of the first one its mark. That one is put off, and the
// others behind it.
fn past_elements<'t, 'a>(
    index: usize,
    elements: &'t [Element<'a>],
    left: &mut Vec<Left<'t, 'a>>,
) -> Result<usize, AllocError>
    requires { index + element_tokens elements.now < 2 ^ 64 }
    ensures tokens { IfOk result (λ n. n + tokens_left left.new.items
        ≡ index + element_tokens elements.now + tokens_left left.old.items) }
    ensures weight { OnOk result (weight_left left.new.items
        < 5 * element_nodes elements.now + 1 + weight_left left.old.items) }
{
    match elements.split_first() {
        Some((first, rest)) => {
            put_off(index, Left::Elements(rest), left)?;
            put_off(index + 1, Left::Tree(&first.tree), left)
        }
        None => Ok(index),
    }
}

// So many tokens, and those that what comes next has itself.
fn past_next<'t, 'a>(
    index: usize,
    next: Left<'t, 'a>,
    left: &mut Vec<Left<'t, 'a>>,
) -> Result<usize, AllocError>
    requires { index + tokens_of next < 2 ^ 64 }
    ensures tokens { IfOk result (λ n. n + tokens_left left.new.items
        ≡ index + tokens_of next.entry + tokens_left left.old.items) }
    ensures weight { OnOk result (weight_left left.new.items < weight_of next.entry + weight_left left.old.items) }
{
    match next {
        Left::Tree(tree) => past_tree(index, tree, left),
        Left::Turns(turns) => past_turns(index, turns, left),
        Left::Elements(elements) => past_elements(index, elements, left),
    }
}

/// So many tokens, and those of a tree. What is left to be counted meanwhile is kept in a list, which is empty before
/// and behind.
///
/// # Errors
///
/// Where there is no memory for that list. It is not empty then.
#[tactic(auto, using(crate::proofs::Counts::lefts))]
pub(crate) fn past<'t, 'a>(
    index: usize,
    tree: &'t Tree<'a>,
    left: &mut Vec<Left<'t, 'a>>,
) -> Result<usize, AllocError>
    requires empty { left.old.items ≡ [] }
    requires fits { index + length (flat tree.now) < 2 ^ 64 }
    ensures empty { OnOk result (left.new.items ≡ []) }
    ensures behind { IfOk result (λ n. n ≡ index + length (flat tree.now)) }
{
    let mut behind = past_tree(index, tree, left)?;
    while !left.is_empty() {
        let next = left.take_last();
        behind = past_next(behind, next, left)?;
    }
    Ok(behind)
}
