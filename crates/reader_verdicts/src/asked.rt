//! What is asked of the elements and the parts of what was read.

ghost use Rattle.reader_verdicts.specs.Asked.{asked_of};
ghost use Rattle.reader_table.specs.Kinds.{kind_of};
ghost use Rattle.reader_table.specs.Parts.{part_of};
ghost use Rattle.std.specs.Prelude.{◌≡◌};
ghost use Rattle.syn_grammar.specs.Part.{the};
ghost use Rattle.syn_grammar.specs.Tree.{Node};

use reader_table::kind::Kind;
use reader_table::part::Part;
use reader_tree::tree::Tree;

/// What is asked of a tree.
#[derive(Clone, Copy)]
pub enum Asked {
    /// Whether it is a bound that is a path.
    PathBound,
    /// Whether it is a field pattern that is `..`.
    Rest,
    /// Whether it is a field value that is `..`.
    Base,
    /// Whether it is a parameter that is a receiver.
    Receiver,
    /// Whether it is a parameter with `...`.
    Variadic,
    /// Whether it is a visibility `pub`.
    Public,
    /// Whether it is generics with parameters.
    Generic,
    /// Whether it is a where clause that is there.
    Where,
    /// Whether it is a colon with bounds.
    Bounded,
    /// Whether it is an alias of traits.
    TraitAlias,
}

/// Whether a tree is what is asked.
pub fn is(asked: Asked, tree: &Tree) -> bool
    ensures { result ≡ asked_of asked tree.now }
{
    match tree.node() {
        Some((kind, inner)) => is_node(asked, kind, inner),
        None => false,
    }
}

// Whether a node of a kind is what is asked.
fn is_node(asked: Asked, kind: Kind, inner: &Tree) -> bool
    ensures { result ≡ asked_of asked (Node (kind_of kind) inner.now) }
{
    match asked {
        Asked::PathBound => matches!(kind, Kind::Bound) && inner.has(Part::Path),
        Asked::Rest => matches!(kind, Kind::FieldPattern) && inner.has(Part::Rest),
        Asked::Base => matches!(kind, Kind::AFieldValue) && inner.has(Part::Base),
        Asked::Receiver => matches!(kind, Kind::Parameter) && inner.has(Part::Receiver),
        Asked::Variadic => matches!(kind, Kind::Parameter) && inner.has(Part::Dots),
        Asked::Public => matches!(kind, Kind::Visibility) && inner.has(Part::Pub),
        Asked::Generic => matches!(kind, Kind::Generics) && inner.has(Part::Parameters),
        Asked::Where => matches!(kind, Kind::Where) && inner.has(Part::Clause),
        Asked::Bounded => matches!(kind, Kind::BoundsColon) && inner.has(Part::Bounds),
        Asked::TraitAlias => matches!(kind, Kind::ATrait) && inner.has(Part::Equals),
    }
}

/// Whether the part of that name is what is asked.
pub fn part_is(asked: Asked, part: Part, tree: &Tree) -> bool
    ensures { result ≡ asked_of asked (the (part_of part) tree.now) }
{
    match tree.the(part) {
        Some(inner) => is(asked, inner),
        None => false,
    }
}
