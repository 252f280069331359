//! Patterns of their forms, for where one stands.

ghost use Rattle.std.specs.Prelude.{◌≡◌, IfOk, IfSome, MatchOption};
ghost use Rattle.syn_grammar.specs.Gram as g;
ghost use Rattle.syn_grammar.specs.Kind as k;
ghost use Rattle.syn_made.specs.MadeAst.{IsRange, IsWholePat};
ghost use Rattle.syn_part.specs.Shape.{IsShaped};
ghost use Rattle.syn_pat.specs.Pat.{form_of_pat, pat_tree, range_form};
ghost use Rattle.syn_wrapped.specs.Patterns.{in_parens, one_form_of, one_inside, one_pattern_tree, pat_kind};
ghost use Rattle.syn_wrapped.specs.Patterns.{pattern_form_of, pattern_tree, range_inside_one, several_form_of};
ghost use Rattle.syn_wrapped.specs.Patterns.{several_tree};

use proc_macro2::delimiter::Delimiter;
use reader_table::kind::Kind;
use reader_tree::arena::Arena;
use reader_tree::made;
use reader_tree::tree::Tree;
use rust_map::span::Span;
use std::alloc::AllocError;
use syn_made::forms::{First, Grouped, Second, Seconds};
use syn_made::lists::Only;
use syn_made::put::node;
use syn_made::to_tree::ToTree;
use syn_made::try_to_tree::TryToTree;
use syn_part::leaf::Delimiters;
use syn_part::list::Turns;
use syn_pat::pat::{Pat, PatRange};
use syn_pat::patterns::{PatOr, RangeBound};

// Alternatives in parentheses.
#[derive(Clone, Copy)]
struct InParens<'t, 'a>(PatOr<'t, 'a>);

impl<'t, 'a> ToTree<'a> for InParens<'t, 'a> {
    ghost tree = { λ x. in_parens x.0 };

    fn to_tree(&self, arena: &'a Arena) -> Result<Tree<'a>, AllocError> {
        let parentheses = Delimiters {
            delimiter: Delimiter::Parenthesis,
            span: Span::call_site(),
        };
        let inside = self.0.to_tree(arena)?;
        node(
            arena,
            Kind::TuplePattern,
            &Grouped(parentheses, Only(&inside)),
        )
    }
}

// A range among patterns, if it is one.
fn range_inside<'a>(
    arena: &'a Arena,
    found: PatRange<'_, 'a>,
) -> Result<Option<Tree<'a>>, AllocError>
    ensures { IfOk result (λ o. MatchOption o (IsRange found.entry.start found.entry.limits found.entry.end → ⊥)
        (λ x. IsRange found.entry.start found.entry.limits found.entry.end
        × (x ≡ range_inside_one found.entry.start (range_form found.entry)))) }
{
    let Some(form) = found.try_to_tree(arena)? else {
        return Ok(None);
    };
    match found.start {
        None => Seconds(2, First(&form)).to_some_tree(arena),
        Some(RangeBound::Lit(_)) => Seconds(7, First(&form)).to_some_tree(arena),
        Some(RangeBound::Path(_)) => Seconds(8, &form).to_some_tree(arena),
    }
}

// A pattern's form, among those of one alternative, if it is one.
fn one_inside<'a>(arena: &'a Arena, form: &Pat<'_, 'a>) -> Result<Option<Tree<'a>>, AllocError>
    ensures { IfOk result (λ o. MatchOption o (IsWholePat form.now → ⊥)
        (λ x. IsWholePat form.now × (x ≡ one_inside form.now))) }
{
    match *form {
        Pat::Ident(found) => First(found).to_some_tree(arena),
        Pat::Wild(found) => Seconds(1, First(found)).to_some_tree(arena),
        Pat::Range(found) => range_inside(arena, found),
        Pat::Rest(found) => Seconds(3, First(found)).to_some_tree(arena),
        Pat::Paren(found) => Seconds(4, First(found)).to_some_tree(arena),
        Pat::Tuple(found) => Seconds(4, First(found)).to_some_tree(arena),
        Pat::Or(found) => Ok(Some(Seconds(4, First(InParens(found))).to_tree(arena)?)),
        Pat::Slice(found) => Seconds(5, First(found)).to_some_tree(arena),
        Pat::Reference(found) => Seconds(6, First(found)).to_some_tree(arena),
        Pat::Lit(found) => Seconds(7, First(found)).to_some_tree(arena),
        Pat::Path(found) => Ok(Some(Seconds(8, found).to_tree(arena)?)),
        Pat::Struct(found) => Ok(Some(Seconds(8, found).to_tree(arena)?)),
        Pat::TupleStruct(found) => Ok(Some(Seconds(8, found).to_tree(arena)?)),
    }
}

/// A pattern of its form, as a tree of the kind `OnePattern`, for where one alternative stands; `None`, exactly where
/// it is no tree. Alternatives get parentheses.
///
/// # Errors
///
/// Where there is no memory for it.
#[tactic(auto, using(crate::proofs::PatternForms::one_whole))]
pub fn one_pattern<'a>(arena: &'a Arena, form: &Pat<'_, 'a>) -> Result<Option<Tree<'a>>, AllocError>
    ensures tree { IfOk result (λ o. MatchOption o (IsWholePat form.now → ⊥)
        (λ x. IsWholePat form.now × (x ≡ one_pattern_tree form.now))) }
    ensures form { IfOk result (λ o. IfSome o (λ x. form_of_pat x ≡ one_form_of form.now)) }

    // It has the shape of its entry where the form has that of its own.
    ensures shaped { IfOk result (λ o. IfSome o (λ x. IsShaped (pat_tree form.now) (g.ref (pat_kind form.now))
        → IsShaped x (g.ref k.OnePattern))) }
{
    let Some(inside) = one_inside(arena, form)? else {
        return Ok(None);
    };
    Ok(Some(made::node(arena, Kind::OnePattern, inside)?))
}

/// A pattern of its form, as a tree of the kind `Pattern`, for where alternatives may stand, perhaps behind a `|`;
/// `None`, exactly where it is no tree.
///
/// # Errors
///
/// Where there is no memory for it.
#[tactic(auto, using(crate::proofs::PatternForms::pattern_whole))]
pub fn pattern<'a>(arena: &'a Arena, form: &Pat<'_, 'a>) -> Result<Option<Tree<'a>>, AllocError>
    ensures tree { IfOk result (λ o. MatchOption o (IsWholePat form.now → ⊥)
        (λ x. IsWholePat form.now × (x ≡ pattern_tree form.now))) }
    ensures form { IfOk result (λ o. IfSome o (λ x. form_of_pat x ≡ pattern_form_of form.now)) }

    // It has the shape of its entry where the form has that of its own.
    ensures shaped { IfOk result (λ o. IfSome o (λ x. IsShaped (pat_tree form.now) (g.ref (pat_kind form.now))
        → IsShaped x (g.ref k.Pattern))) }
{
    if let Pat::Or(found) = form {
        return Ok(Some(found.to_tree(arena)?));
    }
    let Some(one) = one_pattern(arena, form)? else {
        return Ok(None);
    };
    let inside = (Second(()), &one, Turns { each: &[] });
    Ok(Some(node(arena, Kind::Pattern, &inside)?))
}

/// A pattern of its form, as a tree of the kind `SeveralPatterns`, for where alternatives may stand, but no `|` in
/// front of them, which is left out; `None`, exactly where it is no tree.
///
/// # Errors
///
/// Where there is no memory for it.
#[tactic(auto, using(crate::proofs::PatternForms::several_whole))]
pub fn several_patterns<'a>(
    arena: &'a Arena,
    form: &Pat<'_, 'a>,
) -> Result<Option<Tree<'a>>, AllocError>
    ensures tree { IfOk result (λ o. MatchOption o (IsWholePat form.now → ⊥)
        (λ x. IsWholePat form.now × (x ≡ several_tree form.now))) }
    ensures form { IfOk result (λ o. IfSome o (λ x. form_of_pat x ≡ several_form_of form.now)) }

    // It has the shape of its entry where the form has that of its own.
    ensures shaped { IfOk result (λ o. IfSome o (λ x. IsShaped (pat_tree form.now) (g.ref (pat_kind form.now))
        → IsShaped x (g.ref k.SeveralPatterns))) }
{
    if let Pat::Or(found) = form {
        let inside = (found.first, found.others);
        return Ok(Some(node(arena, Kind::SeveralPatterns, &inside)?));
    }
    let Some(one) = one_pattern(arena, form)? else {
        return Ok(None);
    };
    let inside = (&one, Turns { each: &[] });
    Ok(Some(node(arena, Kind::SeveralPatterns, &inside)?))
}
