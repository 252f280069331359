//! The names of a file's items.

ghost use Rattle.reader_rust.specs.Ahead.{ahead_names, ahead_tokens, ahead_weight};
ghost use Rattle.reader_rust.specs.Ahead.{next_names, next_tokens, next_weight};
ghost use Rattle.reader_rust.specs.Names.{lister_of, name_of, named_of};
ghost use Rattle.reader_rust.specs.declared.names.Next.TheVariants as next;
ghost use Rattle.reader_table.specs.Kinds.{kind_of};
ghost use Rattle.reader_table.specs.Parts.{part_of};
ghost use Rattle.reader_tree.specs.Size.{node_count};
ghost use Rattle.std.specs.Prelude.{◌≡◌, ◌++◌, ◌+◌, ◌*◌, ◌<◌, ◌^◌, []};
ghost use Rattle.std.specs.Prelude.{IfOk, OnOk, length, map};
ghost use Rattle.syn_grammar.specs.Name.{same_part, the_name};
ghost use Rattle.syn_grammar.specs.Names.{Names, Others, lister, named, names, names_behind, trait_kind};
ghost use Rattle.syn_grammar.specs.Tree.{flat};

use crate::count::{Left, past};
use reader_table::kind::Kind;
use reader_table::part::Part;
use reader_tree::tree::{Form, Tree};
use rust_leaf::ident::Ident;
use std::alloc::AllocError;

/// What a name is the name of.
#[derive(Clone, Copy)]
pub enum Named {
    /// A constant.
    Const,
    /// An enum.
    Enum,
    /// A crate: `extern crate NAME`.
    ExternCrate,
    /// A function.
    Fn,
    /// A macro that gets a name: `macro_rules! NAME`.
    Macro,
    /// A module.
    Mod,
    /// A static.
    Static,
    /// A struct.
    Struct,
    /// A trait.
    Trait,
    /// An alias of traits: `trait NAME = ..`.
    TraitAlias,
    /// An alias of a type: `type NAME = ..`.
    Type,
    /// A union.
    Union,
}

/// A name of an item.
#[derive(Clone, Copy)]
pub struct Name<'a> {
    /// What it is the name of.
    pub kind: Named,
    /// The name.
    pub ident: &'a Ident,
    /// How many tokens stand before it, the marks of groups among them.
    pub index: usize,
}

/// What lists names: a file and its items; an item of a kind that has a name.
#[derive(Clone, Copy)]
pub(crate) enum Lister {
    /// Nothing.
    Nothing,
    /// A file, or its items.
    Others,
    /// An item of a kind that has a name.
    Names(Named),
}

/// What is left to be listed.
#[derive(Clone, Copy)]
pub(crate) enum Next<'t, 'a> {
    /// A tree, by what lists its names.
    Tree(Lister, &'t Tree<'a>),
    /// Turns, by what lists theirs.
    Turns(Lister, &'t [Tree<'a>]),
    /// A mark that closes a group.
    Closing,
}

// What is left while names are listed.
#[derive(Drop)]
struct Walk<'t, 'a> {
    // What is left to be counted of a tree without names.
    left: Vec<Left<'t, 'a>>,
    // What is left to be listed, of which the last comes next.
    todo: Vec<Next<'t, 'a>>,
}

// A trait, or an alias of traits.
fn trait_kind(tree: &Tree) -> Named
    ensures { named_of result ≡ trait_kind tree.now }
{
    if tree.has(Part::Equals) {
        Named::TraitAlias
    } else {
        Named::Trait
    }
}

// What lists the names in a node that stands there.
fn listed_by(above: Lister, kind: Kind, tree: &Tree) -> Lister
    ensures { lister_of result ≡ lister (lister_of above) (kind_of kind) tree.now }
{
    match above {
        Lister::Nothing => Lister::Nothing,
        Lister::Others | Lister::Names(_) => match kind {
            Kind::AFile | Kind::Items | Kind::AnItem => Lister::Others,
            Kind::AStruct => Lister::Names(Named::Struct),
            Kind::AnEnum => Lister::Names(Named::Enum),
            Kind::AUnion => Lister::Names(Named::Union),
            Kind::AStatic => Lister::Names(Named::Static),
            Kind::AConst => Lister::Names(Named::Const),
            Kind::AnExternCrate => Lister::Names(Named::ExternCrate),
            Kind::AModule => Lister::Names(Named::Mod),
            Kind::ATrait => Lister::Names(trait_kind(tree)),
            Kind::AFunction(_) => Lister::Names(Named::Fn),
            Kind::Signature(_) => above,
            Kind::ATypeAlias(_) => Lister::Names(Named::Type),
            Kind::ItemMacro(_) => Lister::Names(Named::Macro),
            _ => Lister::Nothing,
        },
    }
}

// Whether a part is a name.
#[tactic(auto, unfolding(syn_grammar::specs::Name::same_part))]
fn is_name(part: Part) -> bool
    ensures { result ≡ same_part (part_of part) the_name }
{
    match part {
        Part::Name => true,
        _ => false,
    }
}

// The name itself, of a part that is a word, or one of two words.
#[tactic(auto, using(crate::proofs::Listed::forms))]
fn put_word<'a>(
    kind: Named,
    index: usize,
    tree: &Tree<'a>,
    out: &mut Vec<Name<'a>>,
) -> Result<(), AllocError>
    ensures { OnOk result (map name_of out.new.items
        ≡ map name_of out.old.items ++ named (Names (named_of kind)) index tree.now) }
{
    match &tree.form {
        Form::Word(ident) => {
            out.push(Name { kind, ident, index })?;
            Ok(())
        }
        Form::First(_, inner) | Form::Second(_, inner) => put_word(kind, index, inner, out),
        Form::Literal(_) | Form::Mark(_, _, _) | Form::Lifetime(_) | Form::Raw(_) => Ok(()),
        Form::Nil | Form::End | Form::Pair(_) | Form::Turns(_) | Form::Elements(_) => Ok(()),
        Form::Group(_, _) | Form::Dropped(_) | Form::Called(_, _) | Form::Verbatim(_) => Ok(()),
        Form::Node(_, _) | Form::Whole(_) | Form::Alone(_, _) | Form::Front(_, _) => Ok(()),
        Form::Back(_, _) | Form::Infix(_, _) => Ok(()),
    }
}

// The name that is a part, where names are listed.
#[tactic(auto, using(crate::proofs::Listed::none_named, crate::proofs::Listed::forms))]
fn put_name<'a>(
    lister: Lister,
    index: usize,
    tree: &Tree<'a>,
    out: &mut Vec<Name<'a>>,
) -> Result<(), AllocError>
    ensures { OnOk result (map name_of out.new.items
        ≡ map name_of out.old.items ++ named (lister_of lister) index tree.now) }
{
    match lister {
        Lister::Names(kind) => put_word(kind, index, tree, out),
        Lister::Nothing => Ok(()),
        Lister::Others => Ok(()),
    }
}

// That is left to be listed too.
#[tactic(auto, using(crate::proofs::Ahead::aheads))]
fn put_off<'t, 'a>(
    index: usize,
    next: Next<'t, 'a>,
    todo: &mut Vec<Next<'t, 'a>>,
) -> Result<usize, AllocError>
    ensures same { IfOk result (λ n. n ≡ index) }
    ensures names { OnOk result (ahead_names index todo.new.items
        ≡ next_names index next.entry ++ ahead_names (index + next_tokens next.entry) todo.old.items) }
    ensures tokens { OnOk result (ahead_tokens todo.new.items
        ≡ next_tokens next.entry + ahead_tokens todo.old.items) }
    ensures weight { OnOk result (ahead_weight todo.new.items
        ≡ next_weight next.entry + ahead_weight todo.old.items) }
{
    todo.push(next)?;
    Ok(index)
}

// The same of two, of which the first comes first.
#[tactic(auto, using(crate::proofs::Ahead::both))]
fn put_off_both<'t, 'a>(
    index: usize,
    first: Next<'t, 'a>,
    second: Next<'t, 'a>,
    todo: &mut Vec<Next<'t, 'a>>,
) -> Result<usize, AllocError>
    ensures same { IfOk result (λ n. n ≡ index) }
    ensures names { OnOk result (ahead_names index todo.new.items
        ≡ next_names index first.entry ++ (next_names (index + next_tokens first.entry) second.entry
        ++ ahead_names (index + (next_tokens first.entry + next_tokens second.entry)) todo.old.items)) }
    ensures tokens { OnOk result (ahead_tokens todo.new.items
        ≡ next_tokens first.entry + next_tokens second.entry + ahead_tokens todo.old.items) }
    ensures weight { OnOk result (ahead_weight todo.new.items
        ≡ next_weight first.entry + next_weight second.entry + ahead_weight todo.old.items) }
{
    todo.push(second)?;
    todo.push(first)?;
    Ok(index)
}

// The names that a tree has itself, which stands behind so many tokens. What stands in it is put off; where no names
// are listed, its tokens are counted. How many tokens stand before what comes next.
#[tactic(auto, using(crate::proofs::Listed::forms, crate::proofs::Ahead::steps))]
fn put_tree<'t, 'a>(
    lister: Lister,
    index: usize,
    tree: &'t Tree<'a>,
    walk: &mut Walk<'t, 'a>,
    out: &mut Vec<Name<'a>>,
) -> Result<usize, AllocError>
    requires empty { walk.old.left.items ≡ [] }
    requires fits { index + length (flat tree.now) < 2 ^ 64 }
    ensures empty { OnOk result (walk.new.left.items ≡ []) }
    ensures names { IfOk result (λ n. map name_of out.new.items ++ ahead_names n walk.new.todo.items
        ≡ map name_of out.old.items ++ (names_behind (lister_of lister) index tree.now
        ++ ahead_names (index + length (flat tree.now)) walk.old.todo.items)) }
    ensures tokens { IfOk result (λ n. n + ahead_tokens walk.new.todo.items
        ≡ index + length (flat tree.now) + ahead_tokens walk.old.todo.items) }
    ensures weight { OnOk result (ahead_weight walk.new.todo.items
        < 5 * node_count tree.now + 2 + ahead_weight walk.old.todo.items) }
{
    if let Lister::Nothing = lister {
        return past(index, tree, &mut walk.left);
    }
    match &tree.form {
        Form::Called(part, inner) if is_name(*part) => {
            put_name(lister, index, inner, out)?;
            past(index, inner, &mut walk.left)
        }
        Form::Called(_, inner) | Form::First(_, inner) | Form::Second(_, inner) => {
            put_off(index, Next::Tree(lister, inner), &mut walk.todo)
        }
        Form::Node(kind, inner) => {
            let within = listed_by(lister, *kind, inner);
            put_off(index, Next::Tree(within, inner), &mut walk.todo)
        }
        Form::Pair(two) => {
            let front = Next::Tree(lister, &two.front);
            let back = Next::Tree(lister, &two.back);
            put_off_both(index, front, back, &mut walk.todo)
        }
        Form::Turns(turns) => put_off(index, Next::Turns(lister, turns.each), &mut walk.todo),
        Form::Group(_, group) => {
            let inside = Next::Tree(lister, &group.inside);
            put_off_both(index + 1, inside, Next::Closing, &mut walk.todo)
        }
        Form::Word(_) | Form::Literal(_) | Form::Mark(_, _, _) => past(index, tree, &mut walk.left),
        Form::Lifetime(_) | Form::Raw(_) | Form::Nil => past(index, tree, &mut walk.left),
        Form::End | Form::Elements(_) | Form::Dropped(_) => past(index, tree, &mut walk.left),
        Form::Verbatim(_) | Form::Whole(_) => past(index, tree, &mut walk.left),
        Form::Alone(_, _) | Form::Front(_, _) => past(index, tree, &mut walk.left),
        Form::Back(_, _) | Form::Infix(_, _) => past(index, tree, &mut walk.left),
    }
}

// The first of turns is put off, and the others behind it.
#[tactic(auto, using(crate::proofs::Listed::forms, crate::proofs::Ahead::steps))]
fn put_turns<'t, 'a>(
    lister: Lister,
    index: usize,
    turns: &'t [Tree<'a>],
    todo: &mut Vec<Next<'t, 'a>>,
) -> Result<usize, AllocError>
    ensures same { IfOk result (λ n. n ≡ index) }
    ensures names { OnOk result (ahead_names index todo.new.items
        ≡ next_names index (next.Turns lister turns.entry)
        ++ ahead_names (index + next_tokens (next.Turns lister turns.entry)) todo.old.items) }
    ensures tokens { OnOk result (ahead_tokens todo.new.items
        ≡ next_tokens (next.Turns lister turns.entry) + ahead_tokens todo.old.items) }
    ensures weight { OnOk result (ahead_weight todo.new.items
        < next_weight (next.Turns lister turns.entry) + ahead_weight todo.old.items) }
{
    match turns.split_first() {
        Some((first, rest)) => {
            put_off_both(
                index,
                Next::Tree(lister, first),
                Next::Turns(lister, rest),
                todo,
            )
        }
        None => Ok(index),
    }
}

// The names that what comes next has itself. How many tokens stand before what comes then.
#[tactic(auto, using(crate::proofs::Ahead::steps))]
fn put_next<'t, 'a>(
    index: usize,
    next: Next<'t, 'a>,
    walk: &mut Walk<'t, 'a>,
    out: &mut Vec<Name<'a>>,
) -> Result<usize, AllocError>
    requires empty { walk.old.left.items ≡ [] }
    requires fits { index + next_tokens next < 2 ^ 64 }
    ensures empty { OnOk result (walk.new.left.items ≡ []) }
    ensures names { IfOk result (λ n. map name_of out.new.items ++ ahead_names n walk.new.todo.items
        ≡ map name_of out.old.items ++ (next_names index next.entry
        ++ ahead_names (index + next_tokens next.entry) walk.old.todo.items)) }
    ensures tokens { IfOk result (λ n. n + ahead_tokens walk.new.todo.items
        ≡ index + next_tokens next.entry + ahead_tokens walk.old.todo.items) }
    ensures weight { OnOk result (ahead_weight walk.new.todo.items
        < next_weight next.entry + ahead_weight walk.old.todo.items) }
{
    match next {
        Next::Tree(lister, tree) => put_tree(lister, index, tree, walk, out),
        Next::Turns(lister, turns) => put_turns(lister, index, turns, &mut walk.todo),
        Next::Closing => Ok(index + 1),
    }
}

/// Puts the names of a file's items, in their order, those of an inline module behind its own, behind the names that
/// are given. Modules may stand in one another as deep as a text is long.
///
/// # Errors
///
/// Where there is no memory for more names, or for what is left to be listed.
#[tactic(auto, using(crate::proofs::Ahead::steps, crate::proofs::Ahead::aheads))]
pub fn names<'a>(file: &Tree<'a>, out: &mut Vec<Name<'a>>) -> Result<(), AllocError>
    requires { length (flat file.now) < 2 ^ 64 }
    ensures { OnOk result (map name_of out.new.items ≡ map name_of out.old.items ++ names file.now) }
{
    let alloc = *out.allocator();
    let mut walk = Walk {
        left: Vec::new(alloc),
        todo: Vec::new(alloc),
    };
    let mut behind = put_tree(Lister::Others, 0, file, &mut walk, out)?;
    while !walk.todo.is_empty() {
        let next = walk.todo.take_last();
        behind = put_next(behind, next, &mut walk, out)?;
    }
    Ok(())
}
