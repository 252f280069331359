//! Paths, members and macros as trees.

ghost use Rattle.std.specs.Prelude.{◌≡◌, ◌↔◌, IfOk, IsTrue, MatchOption};
ghost use Rattle.syn_ast.specs.Paths.{angle_bracketed_generic_arguments, argument_inside, assoc_type_tree};
ghost use Rattle.syn_ast.specs.Paths.{behind_keyword, behind_name, delimited, generic_argument, index};
ghost use Rattle.syn_ast.specs.Paths.{macro, member, one_segment, parenthesized_generic_arguments, path};
ghost use Rattle.syn_ast.specs.Paths.{qualified_path, segment_end, segments, segments_inside};
ghost use Rattle.syn_grammar.specs.Tree as t;
ghost use Rattle.syn_made.specs.MadeAst.{AreArgumentsIn, AreWhole, IsBare, IsNameEnd, IsSegmentEnd};
ghost use Rattle.syn_made.specs.MadeAst.{IsWholeSegment};
ghost use Rattle.syn_part.specs.Leaves.{word_tree};

use crate::forms::{Called, First, Grouped, Node, Second, Seconds};
use crate::put::{behind, node, nth, some_node};
use crate::to_tree::ToTree;
use crate::try_to_tree::TryToTree;
use reader_table::kind::{Kind, Style};
use reader_table::part::Part;
use reader_tree::arena::Arena;
use reader_tree::tree::Tree;
use rust_leaf::ident::Ident;
use std::alloc::AllocError;
use syn_ast::paths::{
    AngleBracketedGenericArguments, AssocType, Delimited, GenericArgument, Index, Macro,
    MacroDelimiter, Member, OneSegment, ParenthesizedGenericArguments, Path, PathArguments,
    PathSegment, QualifiedPath, Segments,
};
use syn_part::sub::Marked;

impl<'t, 'a> ToTree<'a> for Path<'t, 'a> {
    ghost tree = { path };

    fn to_tree(&self, arena: &'a Arena) -> Result<Tree<'a>, AllocError> {
        let inside = (self.leading_colon, self.segments);
        node(arena, Kind::Path(self.style), &inside)
    }
}

impl<'t, 'a> ToTree<'a> for QualifiedPath<'t, 'a> {
    ghost tree = { qualified_path };

    fn to_tree(&self, arena: &'a Arena) -> Result<Tree<'a>, AllocError> {
        let qself = self.qself;
        let behind = (qself.gt_token, self.colon2_token, self.segments);
        let inside = (qself.lt_token, qself.ty, qself.as_token, behind);
        node(arena, Kind::QualifiedPath(self.style), &inside)
    }
}

impl<'t, 'a> ToTree<'a> for AngleBracketedGenericArguments<'t, 'a> {
    ghost tree = { angle_bracketed_generic_arguments };

    fn to_tree(&self, arena: &'a Arena) -> Result<Tree<'a>, AllocError> {
        let args = Called(Part::Arguments, self.args);
        let inside = (self.colon2_token, self.lt_token, args, self.gt_token);
        node(arena, Kind::Arguments, &inside)
    }
}

impl<'t, 'a> ToTree<'a> for ParenthesizedGenericArguments<'t, 'a> {
    ghost tree = { parenthesized_generic_arguments };

    fn to_tree(&self, arena: &'a Arena) -> Result<Tree<'a>, AllocError> {
        let inside = (Grouped(self.paren_token, self.inputs), self.output);
        node(arena, Kind::ParenthesizedArguments, &inside)
    }
}

impl<'t, 'a> ToTree<'a> for Macro<'t, 'a> {
    ghost tree = { macro };

    fn to_tree(&self, arena: &'a Arena) -> Result<Tree<'a>, AllocError> {
        let inside = (self.path, self.bang_token, self.delimited);
        node(arena, Kind::AMacro, &inside)
    }
}

// A keyword and what stands behind it, if it has no arguments: perhaps `::` and further segments.
fn from_keyword<'a>(
    arena: &'a Arena,
    word: &'a Ident,
    arguments: PathArguments<'_, 'a>,
    others: Option<Marked<'_, 'a>>,
) -> Result<Option<Tree<'a>>, AllocError>
    ensures { IfOk result (λ o. MatchOption o (IsBare arguments.entry → ⊥)
        (λ x. IsBare arguments.entry
        × (x ≡ t.First (t.Pair (word_tree word.entry) (behind_keyword arguments.entry others.entry))))) }
{
    match arguments {
        PathArguments::None => First((word, others)).to_some_tree(arena),
        _ => Ok(None),
    }
}

// A name and what stands behind it: its arguments, and perhaps `::` and further segments, if they are not in
// parentheses.
fn from_name<'a>(
    arena: &'a Arena,
    word: &'a Ident,
    arguments: PathArguments<'_, 'a>,
    others: Option<Marked<'_, 'a>>,
) -> Result<Option<Tree<'a>>, AllocError>
    ensures { IfOk result (λ o. MatchOption o (IsNameEnd arguments.entry others.entry → ⊥)
        (λ x. IsNameEnd arguments.entry others.entry
        × (x ≡ t.Second (t.Pair (word_tree word.entry) (behind_name arguments.entry others.entry))))) }
{
    match (arguments, others) {
        (PathArguments::AngleBracketed(args), others) => {
            Second((word, First((args, others)))).to_some_tree(arena)
        }
        (PathArguments::None, Some(others)) => Second((word, Second(First(others)))).to_some_tree(
            arena,
        ),
        (PathArguments::None, None) => Second((word, Seconds(3, ()))).to_some_tree(arena),
        (PathArguments::Parenthesized(args), None) => {
            Second((word, Seconds(2, First(args)))).to_some_tree(arena)
        }
        (PathArguments::Parenthesized(_), Some(_)) => Ok(None),
    }
}

// A first segment and what stands behind it, if that may.
fn segments_inside<'a>(
    arena: &'a Arena,
    is_keyword: bool,
    first: PathSegment<'_, 'a>,
    others: Option<Marked<'_, 'a>>,
) -> Result<Option<Tree<'a>>, AllocError>
    ensures { IfOk result (λ o. MatchOption o (IsSegmentEnd is_keyword first.entry.arguments others.entry → ⊥)
        (λ x. IsSegmentEnd is_keyword first.entry.arguments others.entry
        × (x ≡ segments_inside is_keyword first.entry others.entry))) }
{
    if is_keyword {
        from_keyword(arena, first.ident, first.arguments, others)
    } else {
        from_name(arena, first.ident, first.arguments, others)
    }
}

// Whether a segment's arguments may stand in a path of that style.
fn are_arguments_in(style: Style, arguments: PathArguments<'_, '_>) -> bool
    ensures { IsTrue result ↔ AreArgumentsIn style arguments.entry }
{
    match (arguments, style) {
        (PathArguments::None, _) => true,
        (PathArguments::AngleBracketed(_), Style::InModule) => false,
        (PathArguments::AngleBracketed(_), Style::InExpression) => true,
        (PathArguments::AngleBracketed(_), Style::InType | Style::AtType) => true,
        (PathArguments::Parenthesized(_), Style::AtType) => true,
        (PathArguments::Parenthesized(_), Style::InModule | Style::InExpression) => false,
        (PathArguments::Parenthesized(_), Style::InType) => false,
    }
}

impl<'t, 'a> TryToTree<'a> for Segments<'t, 'a> {
    ghost says = { λ x tree. AreWhole x × (tree ≡ segments x) };

    fn try_to_tree(&self, arena: &'a Arena) -> Result<Option<Tree<'a>>, AllocError> {
        if !are_arguments_in(self.style, self.first.arguments) {
            return Ok(None);
        }
        match segments_inside(arena, self.is_keyword, self.first, self.others)? {
            Some(inside) => Node(Kind::Segments(self.style), &inside).to_some_tree(arena),
            None => Ok(None),
        }
    }
}

impl<'t, 'a> ToTree<'a> for PathArguments<'t, 'a> {
    ghost tree = { segment_end };

    fn to_tree(&self, arena: &'a Arena) -> Result<Tree<'a>, AllocError> {
        match *self {
            PathArguments::AngleBracketed(args) => nth(arena, 0, &args),
            PathArguments::Parenthesized(args) => nth(arena, 1, &args),
            PathArguments::None => behind(arena, 2, &()),
        }
    }
}

impl<'t, 'a> TryToTree<'a> for OneSegment<'t, 'a> {
    ghost says = { λ x tree. IsWholeSegment x × (tree ≡ one_segment x) };

    fn try_to_tree(&self, arena: &'a Arena) -> Result<Option<Tree<'a>>, AllocError> {
        let segment = self.segment;
        if !are_arguments_in(self.style, segment.arguments) {
            return Ok(None);
        }
        let word = segment.ident;
        match (self.is_keyword, segment.arguments) {
            (true, PathArguments::None) => {
                some_node(arena, Kind::Segment(self.style), &First(word))
            }
            (true, _) => Ok(None),
            (false, arguments) => {
                some_node(arena, Kind::Segment(self.style), &Second((word, arguments)))
            }
        }
    }
}

impl<'t, 'a> ToTree<'a> for AssocType<'t, 'a> {
    ghost tree = { assoc_type_tree };

    fn to_tree(&self, arena: &'a Arena) -> Result<Tree<'a>, AllocError> {
        (self.ident, self.eq_token, self.ty).to_tree(arena)
    }
}

// What stands in a generic argument.
#[derive(Clone, Copy)]
struct Argument<'t, 'a>(GenericArgument<'t, 'a>);

impl<'t, 'a> ToTree<'a> for Argument<'t, 'a> {
    ghost tree = { λ x. argument_inside x.0 };

    fn to_tree(&self, arena: &'a Arena) -> Result<Tree<'a>, AllocError> {
        match self.0 {
            GenericArgument::Lifetime(lifetime) => {
                nth(arena, 0, &Called(Part::Lifetime, lifetime))
            }
            GenericArgument::Const(lit) => nth(arena, 1, &lit),
            GenericArgument::ConstBlock(block) => nth(arena, 2, &block),
            GenericArgument::AssocType(assoc) => nth(arena, 3, &assoc),
            GenericArgument::Type(ty) => behind(arena, 4, &ty),
        }
    }
}

impl<'t, 'a> ToTree<'a> for GenericArgument<'t, 'a> {
    ghost tree = { generic_argument };

    fn to_tree(&self, arena: &'a Arena) -> Result<Tree<'a>, AllocError> {
        node(arena, Kind::AnArgument, &Argument(*self))
    }
}

impl<'a> ToTree<'a> for Index<'a> {
    ghost tree = { index };

    fn to_tree(&self, arena: &'a Arena) -> Result<Tree<'a>, AllocError> {
        node(arena, Kind::Index, &self.index)
    }
}

impl<'a> ToTree<'a> for Member<'a> {
    ghost tree = { member };

    fn to_tree(&self, arena: &'a Arena) -> Result<Tree<'a>, AllocError> {
        match *self {
            Member::Named(ident) => node(arena, Kind::Member, &First(ident)),
            Member::Unnamed(index) => node(arena, Kind::Member, &Second(index.index)),
        }
    }
}

impl<'a> ToTree<'a> for Delimited<'a> {
    ghost tree = { delimited };

    fn to_tree(&self, arena: &'a Arena) -> Result<Tree<'a>, AllocError> {
        match self.delimiter {
            MacroDelimiter::Paren(found) => {
                let group = Grouped(found, self.tokens);
                node(arena, Kind::Delimited, &First(group))
            }
            MacroDelimiter::Brace(found) => {
                let group = Grouped(found, self.tokens);
                node(arena, Kind::Delimited, &Second(First(group)))
            }
            MacroDelimiter::Bracket(found) => {
                let group = Grouped(found, self.tokens);
                node(arena, Kind::Delimited, &Second(Second(group)))
            }
        }
    }
}
