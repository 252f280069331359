//! Patterns by their form, as trees.

ghost use Rattle.std.specs.Prelude.{◌≡◌, IfOk, MatchOption};
ghost use Rattle.syn_grammar.specs.Kind as k;
ghost use Rattle.syn_grammar.specs.Tree as t;
ghost use Rattle.syn_made.specs.MadeAst.{IsLimit, IsRange, IsRangeEnd, IsWholePat};
ghost use Rattle.syn_pat.specs.Pat.{pat_tree, range_form, started};
ghost use Rattle.syn_pat.specs.Patterns.{range_end};
ghost use Rattle.syn_pat.specs.declared.pat.Pat.TheVariants as pats;

use crate::forms::{First, Grouped, Second, Seconds};
use crate::lists::Only;
use crate::put::{node, some_node};
use crate::to_tree::ToTree;
use crate::try_to_tree::TryToTree;
use reader_table::kind::Kind;
use reader_tree::arena::Arena;
use reader_tree::tree::Tree;
use std::alloc::AllocError;
use syn_pat::pat::{Pat, PatLit, PatParen, PatPath, PatRange, PatStruct, PatTuple, PatTupleStruct};
use syn_pat::patterns::{PatRangeTo, PathBehind, RangeBound, RangeEnd};

impl<'a> ToTree<'a> for PatLit<'a> {
    ghost tree = { λ x. pat_tree (pats.Lit x) };

    fn to_tree(&self, arena: &'a Arena) -> Result<Tree<'a>, AllocError> {
        let inside = (self.lit, Second(()));
        node(arena, Kind::LiteralPattern, &inside)
    }
}

impl<'t, 'a> ToTree<'a> for PatParen<'t, 'a> {
    ghost tree = { λ x. pat_tree (pats.Paren x) };

    fn to_tree(&self, arena: &'a Arena) -> Result<Tree<'a>, AllocError> {
        let inside = Grouped(self.paren_token, Only(self.pat));
        node(arena, Kind::TuplePattern, &inside)
    }
}

impl<'t, 'a> ToTree<'a> for PatTuple<'t, 'a> {
    ghost tree = { λ x. pat_tree (pats.Tuple x) };

    fn to_tree(&self, arena: &'a Arena) -> Result<Tree<'a>, AllocError> {
        let inside = Grouped(self.paren_token, self.elems);
        node(arena, Kind::TuplePattern, &inside)
    }
}

impl<'t, 'a> ToTree<'a> for PatPath<'t, 'a> {
    ghost tree = { λ x. pat_tree (pats.Path x) };

    fn to_tree(&self, arena: &'a Arena) -> Result<Tree<'a>, AllocError> {
        let inside = (self.path, PathBehind::None);
        node(arena, Kind::PathPattern, &inside)
    }
}

impl<'t, 'a> ToTree<'a> for PatTupleStruct<'t, 'a> {
    ghost tree = { λ x. pat_tree (pats.TupleStruct x) };

    fn to_tree(&self, arena: &'a Arena) -> Result<Tree<'a>, AllocError> {
        let behind = PathBehind::Tuple(self.paren_token, self.elems);
        node(arena, Kind::PathPattern, &(self.path, behind))
    }
}

impl<'t, 'a> ToTree<'a> for PatStruct<'t, 'a> {
    ghost tree = { λ x. pat_tree (pats.Struct x) };

    fn to_tree(&self, arena: &'a Arena) -> Result<Tree<'a>, AllocError> {
        let inside = (self.path, PathBehind::Struct(self.fields));
        node(arena, Kind::PathPattern, &inside)
    }
}

// A range behind its start, if it has an end as it needs one.
fn range_from<'a>(
    arena: &'a Arena,
    start: RangeBound<'_, 'a>,
    end: RangeEnd<'_, 'a>,
) -> Result<Option<Tree<'a>>, AllocError>
    ensures { IfOk result (λ o. MatchOption o (IsLimit end.entry.limits
        × IsRangeEnd end.entry.limits end.entry.end → ⊥)
        (λ x. IsLimit end.entry.limits × IsRangeEnd end.entry.limits end.entry.end
        × (x ≡ started start.entry (t.Node k.RangeEnd (range_end end.entry.limits end.entry.end))))) }
{
    let Some(end) = end.try_to_tree(arena)? else {
        return Ok(None);
    };
    match start {
        RangeBound::Lit(lit) => { some_node(arena, Kind::LiteralPattern, &(lit, First(&end))) }
        RangeBound::Path(path) => {
            some_node(arena, Kind::PathPattern, &(path, Seconds(2, First(&end))))
        }
    }
}

impl<'t, 'a> TryToTree<'a> for PatRange<'t, 'a> {
    ghost says = { λ x tree. IsRange x.start x.limits x.end × (tree ≡ range_form x) };

    fn try_to_tree(&self, arena: &'a Arena) -> Result<Option<Tree<'a>>, AllocError> {
        let limits = self.limits;
        match (self.start, self.end) {
            (Some(start), end) => match range_from(arena, start, RangeEnd { limits, end })? {
                Some(tree) => Ok(Some(tree)),
                None => Ok(None),
            },
            (None, Some(end)) => match (PatRangeTo { limits, end }).try_to_tree(arena)? {
                Some(tree) => Ok(Some(tree)),
                None => Ok(None),
            },
            (None, None) => Ok(None),
        }
    }
}

impl<'t, 'a> TryToTree<'a> for Pat<'t, 'a> {
    ghost says = { λ x tree. IsWholePat x × (tree ≡ pat_tree x) };

    fn try_to_tree(&self, arena: &'a Arena) -> Result<Option<Tree<'a>>, AllocError> {
        match *self {
            Pat::Ident(found) => found.to_some_tree(arena),
            Pat::Lit(found) => found.to_some_tree(arena),
            Pat::Or(found) => found.to_some_tree(arena),
            Pat::Paren(found) => found.to_some_tree(arena),
            Pat::Path(found) => found.to_some_tree(arena),
            Pat::Range(found) => found.try_to_tree(arena),
            Pat::Reference(found) => found.to_some_tree(arena),
            Pat::Rest(found) => found.to_some_tree(arena),
            Pat::Slice(found) => found.to_some_tree(arena),
            Pat::Struct(found) => found.to_some_tree(arena),
            Pat::Tuple(found) => found.to_some_tree(arena),
            Pat::TupleStruct(found) => found.to_some_tree(arena),
            Pat::Wild(found) => found.to_some_tree(arena),
        }
    }
}
