//! What may stand left of a form.

ghost use Rattle.reader_table.specs.Kinds.{kind_of as named, position_of};
ghost use Rattle.std.specs.Prelude.{◌≡◌};
ghost use Rattle.syn_grammar.specs.Forms.{chains, ends_there, form_of, is_block_like, is_brace_macro, is_path_form};
ghost use Rattle.syn_grammar.specs.Forms.{is_range, kind_of, may_be_left, stands_left, takes_postfix};
ghost use Rattle.syn_grammar.specs.Kind.{AMacro, ExprMacro};
ghost use Rattle.syn_grammar.specs.Tree.{Alone, Nil, Node, Pair};

use crate::level::{is_dotted, level};
use reader_table::kind::{Kind, Position};
use reader_tree::tree::Tree;

/// The kind of a form; of what is none that of an invisible group.
pub fn kind_of(tree: &Tree) -> Kind
    ensures { named result ≡ kind_of tree.now }
{
    match tree.kind() {
        Some(kind) => kind,
        None => Kind::ExprGroup,
    }
}

/// Whether it is a range, with attributes or without.
pub fn is_range(tree: &Tree) -> bool
    ensures { result ≡ is_range tree.now }
{
    match tree.front() {
        Some((kind, operand)) => match kind {
            Kind::ExprAttributed => is_range(operand),
            _ => level(kind) == 3,
        },
        None => level(kind_of(tree)) == 3,
    }
}

/// Whether it is an atom, a postfix form, a jump or a closure.
pub fn takes_postfix(tree: &Tree) -> bool
    ensures { result ≡ takes_postfix tree.now }
{
    let level = level(kind_of(tree));
    level == 16 || level == 1
}

/// Whether it is a path.
pub fn is_path_form(tree: &Tree) -> bool
    ensures { result ≡ is_path_form tree.now }
{
    match tree.alone() {
        Some((kind, _)) => match kind {
            Kind::ExprPath => true,
            _ => false,
        },
        None => false,
    }
}

/// Whether, by its kind, something may stand left of a form: of a struct's braces a path; of a postfix form an atom, a
/// postfix form, a jump or a closure; of an infix form or a cast anything but a range.
pub fn may_be_left(kind: Kind, left: &Tree) -> bool
    ensures { result ≡ may_be_left (named kind) left.now }
{
    match kind {
        Kind::ExprStruct => is_path_form(left),
        _ => {
            if level(kind) == 16 {
                takes_postfix(left)
            } else {
                !is_range(left)
            }
        }
    }
}

/// Whether a form ends a statement or an arm, with attributes or without.
pub fn is_block_like(tree: &Tree) -> bool
    ensures { result ≡ is_block_like tree.now }
{
    match tree.front() {
        Some((kind, operand)) => match kind {
            Kind::ExprAttributed => is_block_like(operand),
            _ => false,
        },
        None => match tree.alone() {
            Some((kind, _)) => has_block(kind),
            None => false,
        },
    }
}

// Whether such an atom ends a statement or an arm.
fn has_block(kind: Kind) -> bool
    ensures { result ≡ is_block_like (Alone (named kind) Nil) }
{
    match kind {
        Kind::ExprIf | Kind::ExprWhile | Kind::ExprForLoop | Kind::ExprLoop | Kind::ExprMatch =>
            true,
        Kind::ExprTryBlock | Kind::ExprUnsafe | Kind::ExprConst | Kind::ExprBlock => true,
        _ => false,
    }
}

/// Whether it is a macro's call with braces, with attributes or without.
pub fn is_brace_macro(tree: &Tree) -> bool
    ensures { result ≡ is_brace_macro tree.now }
{
    match tree.front() {
        Some((kind, operand)) => match kind {
            Kind::ExprAttributed => is_brace_macro(operand),
            _ => false,
        },
        None => match tree.alone() {
            Some((kind, own)) => match kind {
                Kind::ExprMacro => calls_with_braces(own),
                _ => false,
            },
            None => false,
        },
    }
}

// Whether a macro's call has braces.
fn calls_with_braces(call: &Tree) -> bool
    ensures { result ≡ is_brace_macro (Alone ExprMacro call.now) }
{
    match call.node() {
        Some((kind, inner)) => match kind {
            Kind::AMacro => match inner.pair() {
                Some((_, behind_path)) => ends_with_braces(behind_path),
                None => false,
            },
            _ => false,
        },
        None => false,
    }
}

// Whether what stands behind a macro's path is `!` and braces.
fn ends_with_braces(behind_path: &Tree) -> bool
    ensures { result ≡ is_brace_macro (Alone ExprMacro (Node AMacro (Pair Nil behind_path.now))) }
{
    match behind_path.pair() {
        Some((_, group)) => is_in_braces(group),
        None => false,
    }
}

// Whether a macro's group has braces.
fn is_in_braces(group: &Tree) -> bool
    ensures { result ≡ is_brace_macro (Alone ExprMacro (Node AMacro (Pair Nil (Pair Nil group.now)))) }
{
    match group.node() {
        Some((kind, inner)) => match kind {
            Kind::Delimited => inner.is_middle(),
            _ => false,
        },
        None => false,
    }
}

/// Whether a form ends there, where a statement or an arm stands.
pub fn ends_there(position: Position, tree: &Tree) -> bool
    ensures { result ≡ ends_there (position_of position) tree.now }
{
    match position {
        Position::InArm => is_block_like(tree),
        Position::InStatement => is_block_like(tree) || is_brace_macro(tree),
        Position::Plain => false,
        Position::InCondition => false,
    }
}

/// Whether the form of an expression ends there; of what is none itself.
pub fn expression_ends(position: Position, tree: &Tree) -> bool
    ensures { result ≡ ends_there (position_of position) (form_of tree.now) }
{
    match tree.node() {
        Some((kind, inner)) => match kind {
            Kind::Expression(_) => match inner.whole() {
                Some(form) => ends_there(position, form),
                None => ends_there(position, tree),
            },
            _ => ends_there(position, tree),
        },
        None => ends_there(position, tree),
    }
}

/// Whether something may stand left of a form of the kind, there.
#[tactic(auto, unfolding(syn_grammar::specs::Forms::stands_left))]
pub fn stands_left(position: Position, left: &Tree, kind: Kind) -> bool
    ensures { result ≡ stands_left (position_of position) left.now (named kind) }
{
    may_be_left(kind, left) && (!ends_there(position, left) || is_dotted(kind))
}

/// Whether it would be chained: a comparison left of a comparison.
#[tactic(auto, unfolding(syn_grammar::specs::Forms::chains))]
pub fn chains(left: &Tree, kind: Kind) -> bool
    ensures { result ≡ chains left.now (named kind) }
{
    level(kind) == 7 && level(kind_of(left)) == 7
}
