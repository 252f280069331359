//! What patterns are read as, as trees.

ghost use Rattle.std.specs.Prelude.{◌≡◌, ◌↔◌, IsTrue};
ghost use Rattle.syn_grammar.specs.Kind as k;
ghost use Rattle.syn_grammar.specs.Tree as t;
ghost use Rattle.syn_made.specs.MadeAst.{IsLimit, IsRangeEnd};
ghost use Rattle.syn_pat.specs.Patterns.{field_pat, field_pattern_tree, field_patterns, literal_pattern};
ghost use Rattle.syn_pat.specs.Patterns.{member_pattern_tree, pat_ident, pat_or, pat_parenthesized, pat_range_to};
ghost use Rattle.syn_pat.specs.Patterns.{pat_reference, pat_rest, pat_several, pat_slice, pat_wild, path_behind};
ghost use Rattle.syn_pat.specs.Patterns.{path_pattern, range_bound, range_end, range_limits, shorthand_tree};
ghost use Rattle.syn_pat.specs.Patterns.{signed_lit_tree};

use crate::forms::{Called, First, Grouped, Second};
use crate::leaf::is_sign;
use crate::put::{behind, node, nth, some_node};
use crate::to_tree::ToTree;
use crate::try_to_tree::TryToTree;
use reader_table::kind::Kind;
use reader_table::part::Part;
use reader_table::word::Sign;
use reader_tree::arena::Arena;
use reader_tree::tree::Tree;
use std::alloc::AllocError;
use syn_pat::patterns::{
    FieldPat, FieldPattern, FieldPatterns, LiteralPattern, MemberPattern, PatIdent, PatOr,
    PatParenthesized, PatRangeTo, PatReference, PatRest, PatSeveral, PatSlice, PatWild, PathBehind,
    PathPattern, RangeBound, RangeEnd, RangeLimits, Shorthand, SignedLit,
};

impl<'a> ToTree<'a> for PatWild<'a> {
    ghost tree = { pat_wild };

    fn to_tree(&self, arena: &'a Arena) -> Result<Tree<'a>, AllocError> {
        node(arena, Kind::WildPattern, &self.underscore_token)
    }
}

impl<'a> ToTree<'a> for PatRest {
    ghost tree = { pat_rest };

    fn to_tree(&self, arena: &'a Arena) -> Result<Tree<'a>, AllocError> {
        node(arena, Kind::RestPattern, &self.dot2_token)
    }
}

impl<'t, 'a> ToTree<'a> for PatReference<'t, 'a> {
    ghost tree = { pat_reference };

    fn to_tree(&self, arena: &'a Arena) -> Result<Tree<'a>, AllocError> {
        let inside = (self.and_token, self.mutability, self.pat);
        node(arena, Kind::ReferencePattern, &inside)
    }
}

impl<'t, 'a> ToTree<'a> for PatSlice<'t, 'a> {
    ghost tree = { pat_slice };

    fn to_tree(&self, arena: &'a Arena) -> Result<Tree<'a>, AllocError> {
        node(
            arena,
            Kind::SlicePattern,
            &Grouped(self.bracket_token, self.elems),
        )
    }
}

impl<'t, 'a> ToTree<'a> for PatParenthesized<'t, 'a> {
    ghost tree = { pat_parenthesized };

    fn to_tree(&self, arena: &'a Arena) -> Result<Tree<'a>, AllocError> {
        node(
            arena,
            Kind::TuplePattern,
            &Grouped(self.paren_token, self.elems),
        )
    }
}

impl<'t, 'a> ToTree<'a> for PatOr<'t, 'a> {
    ghost tree = { pat_or };

    fn to_tree(&self, arena: &'a Arena) -> Result<Tree<'a>, AllocError> {
        node(
            arena,
            Kind::Pattern,
            &(self.leading_vert, self.first, self.others),
        )
    }
}

impl<'t, 'a> ToTree<'a> for PatSeveral<'t, 'a> {
    ghost tree = { pat_several };

    fn to_tree(&self, arena: &'a Arena) -> Result<Tree<'a>, AllocError> {
        node(arena, Kind::SeveralPatterns, &(self.first, self.others))
    }
}

impl<'t, 'a> ToTree<'a> for PatIdent<'t, 'a> {
    ghost tree = { pat_ident };

    fn to_tree(&self, arena: &'a Arena) -> Result<Tree<'a>, AllocError> {
        let inside = (
            self.by_ref,
            self.mutability,
            self.ident,
            Second(self.subpat),
        );
        node(arena, Kind::IdentPattern, &inside)
    }
}

impl<'a> ToTree<'a> for RangeLimits {
    ghost tree = { range_limits };

    fn to_tree(&self, arena: &'a Arena) -> Result<Tree<'a>, AllocError> {
        match *self {
            RangeLimits::Closed(mark) => nth(arena, 0, &mark),
            RangeLimits::HalfOpen(mark) => behind(arena, 1, &mark),
        }
    }
}

/// Whether the punctuation of a range is `..` or `..=`, as it says.
pub(crate) fn is_limit(limits: RangeLimits) -> bool
    ensures { IsTrue result ↔ IsLimit limits }
{
    match limits {
        RangeLimits::HalfOpen(mark) => is_sign(mark, Sign::DotDot),
        RangeLimits::Closed(mark) => is_sign(mark, Sign::DotDotEq),
    }
}

impl<'t, 'a> TryToTree<'a> for PatRangeTo<'t, 'a> {
    ghost says = { λ x tree. IsLimit x.limits × (tree ≡ pat_range_to x) };

    fn try_to_tree(&self, arena: &'a Arena) -> Result<Option<Tree<'a>>, AllocError> {
        if !is_limit(self.limits) {
            return Ok(None);
        }
        let inside = (self.limits, self.end);
        Ok(Some(node(arena, Kind::RangeToPattern, &inside)?))
    }
}

impl<'t, 'a> TryToTree<'a> for RangeEnd<'t, 'a> {
    ghost says = { λ x tree. IsLimit x.limits × IsRangeEnd x.limits x.end
        × (tree ≡ t.Node k.RangeEnd (range_end x.limits x.end)) };

    fn try_to_tree(&self, arena: &'a Arena) -> Result<Option<Tree<'a>>, AllocError> {
        if !is_limit(self.limits) {
            return Ok(None);
        }
        match (self.limits, self.end) {
            (RangeLimits::Closed(mark), Some(end)) => {
                some_node(arena, Kind::RangeEnd, &First((mark, end)))
            }
            (RangeLimits::Closed(_), None) => Ok(None),
            (RangeLimits::HalfOpen(mark), end) => {
                some_node(arena, Kind::RangeEnd, &Second((mark, end)))
            }
        }
    }
}

impl<'a> ToTree<'a> for SignedLit<'a> {
    ghost tree = { signed_lit_tree };

    fn to_tree(&self, arena: &'a Arena) -> Result<Tree<'a>, AllocError> {
        match *self {
            SignedLit::Negative(mark, literal) => nth(arena, 0, &(mark, literal)),
            SignedLit::Plain(lit) => behind(arena, 1, &lit),
        }
    }
}

impl<'t, 'a> ToTree<'a> for LiteralPattern<'t, 'a> {
    ghost tree = { literal_pattern };

    fn to_tree(&self, arena: &'a Arena) -> Result<Tree<'a>, AllocError> {
        node(arena, Kind::LiteralPattern, &(self.lit, self.end))
    }
}

impl<'t, 'a> ToTree<'a> for RangeBound<'t, 'a> {
    ghost tree = { range_bound };

    fn to_tree(&self, arena: &'a Arena) -> Result<Tree<'a>, AllocError> {
        match *self {
            RangeBound::Lit(lit) => node(arena, Kind::RangeBound, &First(lit)),
            RangeBound::Path(path) => node(arena, Kind::RangeBound, &Second(path)),
        }
    }
}

impl<'t, 'a> ToTree<'a> for PathBehind<'t, 'a> {
    ghost tree = { path_behind };

    fn to_tree(&self, arena: &'a Arena) -> Result<Tree<'a>, AllocError> {
        match *self {
            PathBehind::Tuple(delimiters, elems) => nth(arena, 0, &Grouped(delimiters, elems)),
            PathBehind::Struct(fields) => nth(arena, 1, &fields),
            PathBehind::Range(end) => nth(arena, 2, &end),
            PathBehind::None => behind(arena, 3, &()),
        }
    }
}

impl<'t, 'a> ToTree<'a> for PathPattern<'t, 'a> {
    ghost tree = { path_pattern };

    fn to_tree(&self, arena: &'a Arena) -> Result<Tree<'a>, AllocError> {
        node(arena, Kind::PathPattern, &(self.path, self.behind))
    }
}

impl<'t, 'a> ToTree<'a> for FieldPatterns<'t, 'a> {
    ghost tree = { field_patterns };

    fn to_tree(&self, arena: &'a Arena) -> Result<Tree<'a>, AllocError> {
        let inside = First(Grouped(self.brace_token, self.fields));
        node(arena, Kind::FieldPatterns, &inside)
    }
}

impl<'t, 'a> ToTree<'a> for MemberPattern<'t, 'a> {
    ghost tree = { member_pattern_tree };

    fn to_tree(&self, arena: &'a Arena) -> Result<Tree<'a>, AllocError> {
        (self.member, self.colon_token, self.pat).to_tree(arena)
    }
}

impl<'a> ToTree<'a> for Shorthand<'a> {
    ghost tree = { shorthand_tree };

    fn to_tree(&self, arena: &'a Arena) -> Result<Tree<'a>, AllocError> {
        (self.by_ref, self.mutability, self.ident).to_tree(arena)
    }
}

impl<'t, 'a> ToTree<'a> for FieldPattern<'t, 'a> {
    ghost tree = { field_pattern_tree };

    fn to_tree(&self, arena: &'a Arena) -> Result<Tree<'a>, AllocError> {
        match *self {
            FieldPattern::Rest(rest) => nth(arena, 0, &Called(Part::Rest, rest)),
            FieldPattern::Member(field) => nth(arena, 1, &field),
            FieldPattern::Shorthand(field) => behind(arena, 2, &field),
        }
    }
}

impl<'t, 'a> ToTree<'a> for FieldPat<'t, 'a> {
    ghost tree = { field_pat };

    fn to_tree(&self, arena: &'a Arena) -> Result<Tree<'a>, AllocError> {
        node(arena, Kind::FieldPattern, &(self.attrs, self.pattern))
    }
}
