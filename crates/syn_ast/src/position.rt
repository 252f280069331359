//! How many segments a path has, and so where in a qualified path the trait's path ends.

ghost use Rattle.std.specs.Prelude.{◌-◌, ◌^◌, ◌≡◌, min};
ghost use Rattle.syn_ast.specs.Position.{path_count, segment_count, trait_count};

use crate::paths::QSelf;
use reader_table::kind::Kind;
use reader_tree::tree::{Form, Tree};

// How many segments there are.
#[tactic(auto, using(crate::proofs::Counts::counts))]
fn segment_count(tree: &Tree<'_>) -> usize
    ensures { result ≡ min (segment_count tree.now) (2 ^ 64 - 1) }
{
    match &tree.form {
        Form::Node(kind, inner) => match kind {
            Kind::Segments(_) => segment_count(inner).saturating_add(1),
            _ => 0,
        },
        Form::Pair(two) => segment_count(&two.back),
        Form::First(_, inner) | Form::Second(_, inner) => segment_count(inner),
        _ => 0,
    }
}

// How many segments a path has.
#[tactic(auto, using(crate::proofs::Counts::counts))]
fn path_count(tree: &Tree<'_>) -> usize
    ensures { result ≡ min (path_count tree.now) (2 ^ 64 - 1) }
{
    match &tree.form {
        Form::Node(kind, inner) => match kind {
            Kind::Path(_) => segment_count(inner),
            _ => 0,
        },
        _ => 0,
    }
}

impl<'t, 'a> QSelf<'t, 'a> {
    /// How many segments of the whole path stand in front of `>`: those of the trait's path, and without `as` none.
    /// It is 3 in `<T as a::b::C>::D`. More than `usize::MAX` are not told apart.
    pub fn position(&self) -> usize
        ensures { result ≡ min (trait_count self.now.as_token) (2 ^ 64 - 1) }
    {
        match self.as_token {
            Some(found) => path_count(found.node),
            None => 0,
        }
    }
}
