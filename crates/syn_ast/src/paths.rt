//! Paths.

ghost use Rattle.reader_table.specs.Kinds.{style_of};
ghost use Rattle.proc_macro2.specs.Token.{Token};
ghost use Rattle.proc_macro2.specs.declared.delimiter.Delimiter.{Delimiter as GivenDelimiter};
ghost use Rattle.rust_leaf.specs.Leaf.{ident_text};
ghost use Rattle.std.specs.Prelude.{◌≡◌, Bool, List, MatchOption, None, Some, cond, option_map, ℕ};
ghost use Rattle.std.specs.Str.{chars};
ghost use Rattle.syn_ast.specs.Paths.{angle_bracketed_generic_arguments, assoc_type_tree, behind_name, delimited};
ghost use Rattle.syn_ast.specs.Paths.{generic_argument, index, macro, member, one_segment};
ghost use Rattle.syn_ast.specs.Paths.{parenthesized_generic_arguments};
ghost use Rattle.syn_ast.specs.Paths.{lone_name, name_of_path, path, qualified_path, segment_end, segments};
ghost use Rattle.syn_grammar.specs.Gram as g;
ghost use Rattle.syn_grammar.specs.Kind as k;
ghost use Rattle.syn_grammar.specs.Name as n;
ghost use Rattle.syn_grammar.specs.Tree as t;
ghost use Rattle.syn_part.specs.Leaves.{lifetime_tree, raw_tree, word_tree};
ghost use Rattle.syn_part.specs.Shape.{IsShaped};

use reader_table::kind::{Kind, Style};
use reader_table::part::Part;
use reader_tree::tree::Tree;
use rust_leaf::ident::Ident;
use rust_leaf::literal::Literal;
use syn_buffer::entry::Entry;
use syn_part::leaf::{Delimiters, Lifetime, Mark};
use syn_part::list::Elements;
use syn_part::sub::{
    Lit, Marked, Worded, as_lit, as_marked, optional_as_marked, optional_as_worded,
};
use syn_part::take::{self, Choice, Choice3, Choice4, Choice5};
use syn_part::{inside, joined};

/// A path: `::a::b<T>`.
#[derive(Clone, Copy)]
pub struct Path<'t, 'a> {
    /// How it is written.
    pub style: Style,
    /// `::`
    pub leading_colon: Option<Mark>,
    /// Its segments, as a form of the kind `Segments`.
    pub segments: &'t Tree<'a>,
}

impl<'t, 'a> Path<'t, 'a> {
    /// A tree of the kind `Path`, as its parts. `None` only of trees that have another shape.
    #[tactic(auto, unfolding(syn_grammar::specs::Table::table))]
    pub fn of(tree: &'t Tree<'a>) -> Option<Path<'t, 'a>>
        ensures { MatchOption result ((p : k.Style) → IsShaped tree.now (g.ref (k.Path p)) → ⊥)
            (λ x. tree.now ≡ path x) }
    {
        let Some((Kind::Path(style), inner)) = take::node(tree) else {
            return None;
        };
        let Some((leading_colon, segments)) = take::pair(inner) else {
            return None;
        };
        let Some(leading_colon) = take::optional_mark(leading_colon) else {
            return None;
        };
        Some(Path {
            style,
            leading_colon,
            segments,
        })
    }
}

/// What qualifies a path: `<T as A>`. The trait's path is its own, so that no count of segments says where it ends.
#[derive(Clone, Copy)]
pub struct QSelf<'t, 'a> {
    /// `<`
    pub lt_token: Mark,
    /// The type.
    pub ty: &'t Tree<'a>,
    /// `as` and the trait's path, as a form of the kind `Path`.
    pub as_token: Option<Worded<'t, 'a>>,
    /// `>`
    pub gt_token: Mark,
}

/// A qualified path: `<T as A>::B`.
#[derive(Clone, Copy)]
pub struct QualifiedPath<'t, 'a> {
    /// How it is written.
    pub style: Style,
    /// What qualifies it.
    pub qself: QSelf<'t, 'a>,
    /// `::`
    pub colon2_token: Mark,
    /// The segments behind it, as a form of the kind `Segments`.
    pub segments: &'t Tree<'a>,
}

impl<'t, 'a> QualifiedPath<'t, 'a> {
    /// A tree of the kind `QualifiedPath`, as its parts. `None` only of trees that have another shape.
    #[tactic(auto, unfolding(syn_grammar::specs::Table::table))]
    pub fn of(tree: &'t Tree<'a>) -> Option<QualifiedPath<'t, 'a>>
        ensures { MatchOption result ((p : k.Style) → IsShaped tree.now (g.ref (k.QualifiedPath p)) → ⊥)
            (λ x. tree.now ≡ qualified_path x) }
    {
        let Some((Kind::QualifiedPath(style), inner)) = take::node(tree) else {
            return None;
        };
        let Some((lt_token, ty, as_token, gt_token, colon2_token, segments)) = take::six(inner)
        else {
            return None;
        };
        let Some((lt_token, as_token, gt_token, colon2_token)) = joined::four(
            take::mark(lt_token),
            optional_as_worded(as_token),
            take::mark(gt_token),
            take::mark(colon2_token),
        ) else {
            return None;
        };
        let qself = QSelf {
            lt_token,
            ty,
            as_token,
            gt_token,
        };
        Some(QualifiedPath {
            style,
            qself,
            colon2_token,
            segments,
        })
    }
}

/// Arguments in angle brackets: `::<A, B>`.
#[derive(Clone, Copy)]
pub struct AngleBracketedGenericArguments<'t, 'a> {
    /// `::`
    pub colon2_token: Option<Mark>,
    /// `<`
    pub lt_token: Mark,
    /// The arguments.
    pub args: Elements<'t, 'a>,
    /// `>`
    pub gt_token: Mark,
}

impl<'t, 'a> AngleBracketedGenericArguments<'t, 'a> {
    /// A tree of the kind `Arguments`, as its parts. `None` only of trees that have another shape.
    #[tactic(auto, unfolding(syn_grammar::specs::Table::table))]
    pub fn of(tree: &'t Tree<'a>) -> Option<AngleBracketedGenericArguments<'t, 'a>>
        ensures { MatchOption result (IsShaped tree.now (g.ref k.Arguments) → ⊥)
            (λ x. tree.now ≡ angle_bracketed_generic_arguments x) }
    {
        let Some((colon2_token, lt_token, args, gt_token)) = inside::four(Kind::Arguments, tree)
        else {
            return None;
        };
        let Some(args) = inside::part(Part::Arguments, args) else {
            return None;
        };
        let Some((colon2_token, lt_token, args, gt_token)) = joined::four(
            take::optional_mark(colon2_token),
            take::mark(lt_token),
            take::list(args),
            take::mark(gt_token),
        ) else {
            return None;
        };
        Some(AngleBracketedGenericArguments {
            colon2_token,
            lt_token,
            args,
            gt_token,
        })
    }
}

/// Arguments in parentheses: `(A, B) -> C`.
#[derive(Clone, Copy)]
pub struct ParenthesizedGenericArguments<'t, 'a> {
    /// The parentheses.
    pub paren_token: Delimiters,
    /// The types in them.
    pub inputs: Elements<'t, 'a>,
    /// `->` and a type.
    pub output: Option<Marked<'t, 'a>>,
}

impl<'t, 'a> ParenthesizedGenericArguments<'t, 'a> {
    /// A tree of the kind `ParenthesizedArguments`, as its parts. `None` only of trees that have another
    /// shape.
    #[tactic(auto, unfolding(syn_grammar::specs::Table::table))]
    pub fn of(tree: &'t Tree<'a>) -> Option<ParenthesizedGenericArguments<'t, 'a>>
        ensures { MatchOption result (IsShaped tree.now (g.ref k.ParenthesizedArguments) → ⊥)
            (λ x. tree.now ≡ parenthesized_generic_arguments x) }
    {
        let Some((paren_token, output)) = inside::pair(Kind::ParenthesizedArguments, tree) else {
            return None;
        };
        let Some((paren_token, inside)) = take::group(paren_token) else {
            return None;
        };
        let Some((inputs, output)) = joined::two(take::list(inside), optional_as_marked(output))
        else {
            return None;
        };
        Some(ParenthesizedGenericArguments {
            paren_token,
            inputs,
            output,
        })
    }
}

/// A macro: `a::b!(c)`.
#[derive(Clone, Copy)]
pub struct Macro<'t, 'a> {
    /// Its path.
    pub path: &'t Tree<'a>,
    /// `!`
    pub bang_token: Mark,
    /// Its tokens, in a group.
    pub delimited: &'t Tree<'a>,
}

impl<'t, 'a> Macro<'t, 'a> {
    /// A tree of the kind `AMacro`, as its parts. `None` only of trees that have another shape.
    #[tactic(auto, unfolding(syn_grammar::specs::Table::table))]
    pub fn of(tree: &'t Tree<'a>) -> Option<Macro<'t, 'a>>
        ensures { MatchOption result (IsShaped tree.now (g.ref k.AMacro) → ⊥) (λ x. tree.now ≡ macro x) }
    {
        let Some((path, bang_token, delimited)) = inside::three(Kind::AMacro, tree) else {
            return None;
        };
        let Some(bang_token) = take::mark(bang_token) else {
            return None;
        };
        Some(Macro {
            path,
            bang_token,
            delimited,
        })
    }
}

/// The arguments of a segment.
#[derive(Clone, Copy)]
pub enum PathArguments<'t, 'a> {
    /// It has none.
    None,
    /// `<A, B>`, as a form of the kind `Arguments`.
    AngleBracketed(&'t Tree<'a>),
    /// `(A, B) -> C`, as a form of the kind `ParenthesizedArguments`.
    Parenthesized(&'t Tree<'a>),
}

/// A segment of a path: `a<T>`.
#[derive(Clone, Copy)]
pub struct PathSegment<'t, 'a> {
    /// Its name.
    pub ident: &'a Ident,
    /// Its arguments.
    pub arguments: PathArguments<'t, 'a>,
}

/// The segments of a path: the first, and those behind it.
#[derive(Clone, Copy)]
pub struct Segments<'t, 'a> {
    /// How the path is written.
    pub style: Style,
    /// Whether the first is `self`, `super` or `crate`, which take no arguments.
    pub is_keyword: bool,
    /// The first.
    pub first: PathSegment<'t, 'a>,
    /// `::` and those behind it, as a form of the kind `Segments`.
    pub others: Option<Marked<'t, 'a>>,
}

// Arguments in angle brackets, and what stands behind them.
fn as_bracketed<'t, 'a>(
    tree: &'t Tree<'a>,
) -> Option<(PathArguments<'t, 'a>, Option<Marked<'t, 'a>>)>
    ensures { MatchOption result ((a b : g.Gram) (test : List Token → Bool) (c : ℕ) (cs : List ℕ) → IsShaped tree.now
        (g.seq a (g.alt test (g.seq (g.mark c cs) b) g.nothing)) → ⊥)
        (λ p. t.First tree.now ≡ behind_name p.0 p.1) }
{
    let Some((arguments, others)) = take::pair(tree) else {
        return None;
    };
    let Some(others) = optional_as_marked(others) else {
        return None;
    };
    Some((PathArguments::AngleBracketed(arguments), others))
}

// What stands behind the name of a first segment.
fn as_behind_name<'t, 'a>(
    tree: &'t Tree<'a>,
) -> Option<(PathArguments<'t, 'a>, Option<Marked<'t, 'a>>)>
    ensures { MatchOption result ((r s u v : List Token → Bool) (a b e f : g.Gram) (c d : ℕ) (cs ds : List ℕ)
        → IsShaped tree.now (g.alt r (g.seq a (g.alt s (g.seq (g.mark c cs) b) g.nothing)) (g.alt u
        (g.seq (g.mark d ds) e) (g.alt v f g.nothing))) → ⊥)
        (λ p. tree.now ≡ behind_name p.0 p.1) }
{
    let Some(which) = take::chosen4(tree) else {
        return None;
    };
    match which {
        Choice4::First(inner) => as_bracketed(inner),
        Choice4::Second(inner) => match as_marked(inner) {
            Some(others) => Some((PathArguments::None, Some(others))),
            None => None,
        },
        Choice4::Third(inner) => Some((PathArguments::Parenthesized(inner), None)),
        Choice4::Fourth(inner) => if take::is_nothing(inner) {
            Some((PathArguments::None, None))
        } else {
            None
        },
    }
}

impl<'t, 'a> Segments<'t, 'a> {
    // Those that begin with a keyword.
    fn of_keyword(style: Style, tree: &'t Tree<'a>) -> Option<Segments<'t, 'a>>
        ensures { MatchOption result ((p : List ℕ → Bool) (a : g.Gram) (test : List Token → Bool) (c : ℕ) (cs : List ℕ)
            → IsShaped tree.now (g.seq (g.word p) (g.alt test (g.seq (g.mark c cs) a) g.nothing)) → ⊥)
            (λ x. t.Node (k.Segments (style_of style)) (t.First tree.now) ≡ segments x) }
    {
        let Some((ident, others)) = take::pair(tree) else {
            return None;
        };
        let Some((ident, others)) = joined::two(take::word(ident), optional_as_marked(others))
        else {
            return None;
        };
        let arguments = PathArguments::None;
        Some(Segments {
            style,
            is_keyword: true,
            first: PathSegment { ident, arguments },
            others,
        })
    }

    // Those that begin with a name that takes arguments.
    fn of_name(style: Style, tree: &'t Tree<'a>) -> Option<Segments<'t, 'a>>
        ensures { MatchOption result ((p : List ℕ → Bool) (r s u v : List Token → Bool) (a b e f : g.Gram) (c d : ℕ)
            (cs ds : List ℕ) → IsShaped tree.now (g.seq (g.word p) (g.alt r (g.seq a (g.alt s (g.seq (g.mark c cs) b)
            g.nothing)) (g.alt u (g.seq (g.mark d ds) e) (g.alt v f g.nothing)))) → ⊥)
            (λ x. t.Node (k.Segments (style_of style)) (t.Second tree.now) ≡ segments x) }
    {
        let Some((ident, behind)) = take::pair(tree) else {
            return None;
        };
        let Some(ident) = take::word(ident) else {
            return None;
        };
        let Some((arguments, others)) = as_behind_name(behind) else {
            return None;
        };
        Some(Segments {
            style,
            is_keyword: false,
            first: PathSegment { ident, arguments },
            others,
        })
    }

    /// A tree of the kind `Segments`, as its parts. `None` only of trees that have another shape.
    #[tactic(auto, unfolding(syn_grammar::specs::Table::table))]
    pub fn of(tree: &'t Tree<'a>) -> Option<Segments<'t, 'a>>
        ensures { MatchOption result ((p : k.Style) → IsShaped tree.now (g.ref (k.Segments p)) → ⊥)
            (λ x. tree.now ≡ segments x) }
    {
        let Some((Kind::Segments(style), inner)) = take::node(tree) else {
            return None;
        };
        let Some(which) = take::chosen(inner) else {
            return None;
        };
        match which {
            Choice::First(inner) => Segments::of_keyword(style, inner),
            Choice::Second(inner) => Segments::of_name(style, inner),
        }
    }
}

impl<'t, 'a> Segments<'t, 'a> {
    /// The only segment's name, if there is one segment without arguments.
    pub fn only_ident(&self) -> Option<&'a Ident>
        ensures { option_map (λ i. ident_text i.now) result ≡ lone_name (segments self.now) }
    {
        match (self.first.arguments, self.others) {
            (PathArguments::None, None) => Some(self.first.ident),
            _ => None,
        }
    }
}

impl<'t, 'a> Path<'t, 'a> {
    /// The only segment's name, if no `::` stands in front and there is one segment without arguments.
    pub fn get_ident(&self) -> Option<&'a Ident>
        ensures { MatchOption result ((s : k.Style) → IsShaped self.now.segments.now (g.ref (k.Segments s))
            → name_of_path self.now ≡ None)
            (λ i. name_of_path self.now ≡ Some (ident_text i.now)) }
    {
        if self.leading_colon.is_some() {
            return None;
        }
        match Segments::of(self.segments) {
            Some(found) => found.only_ident(),
            None => None,
        }
    }

    /// Whether it is that one name, with no `::` in front and no arguments.
    pub fn is_ident(&self, text: &str) -> bool
        ensures { cond result (name_of_path self.now ≡ Some (chars text.now)) ((s : k.Style)
            → IsShaped self.now.segments.now (g.ref (k.Segments s)) → name_of_path self.now ≡ Some (chars text.now)
            → ⊥) }
    {
        match self.get_ident() {
            Some(ident) => ident.is_text(text),
            None => false,
        }
    }
}

/// One segment by itself.
#[derive(Clone, Copy)]
pub struct OneSegment<'t, 'a> {
    /// How it is written.
    pub style: Style,
    /// Whether it is `self`, `super` or `crate`, which take no arguments.
    pub is_keyword: bool,
    /// The segment.
    pub segment: PathSegment<'t, 'a>,
}

// The arguments of a segment by itself.
fn as_segment_end<'t, 'a>(tree: &'t Tree<'a>) -> Option<PathArguments<'t, 'a>>
    ensures { MatchOption result ((r s : List Token → Bool) (a b : g.Gram) → IsShaped tree.now (g.alt r a
        (g.alt s b g.nothing)) → ⊥)
        (λ x. tree.now ≡ segment_end x) }
{
    let Some(which) = take::chosen3(tree) else {
        return None;
    };
    match which {
        Choice3::First(inner) => Some(PathArguments::AngleBracketed(inner)),
        Choice3::Second(inner) => Some(PathArguments::Parenthesized(inner)),
        Choice3::Third(inner) => if take::is_nothing(inner) {
            Some(PathArguments::None)
        } else {
            None
        },
    }
}

// A name and its arguments.
fn as_named_segment<'t, 'a>(tree: &'t Tree<'a>) -> Option<PathSegment<'t, 'a>>
    ensures { MatchOption result ((p : List ℕ → Bool) (r s : List Token → Bool) (a b : g.Gram) → IsShaped tree.now
        (g.seq (g.word p) (g.alt r a (g.alt s b g.nothing))) → ⊥)
        (λ x. tree.now ≡ t.Pair (word_tree x.ident) (segment_end x.arguments)) }
{
    let Some((ident, arguments)) = take::pair(tree) else {
        return None;
    };
    let Some((ident, arguments)) = joined::two(take::word(ident), as_segment_end(arguments)) else {
        return None;
    };
    Some(PathSegment { ident, arguments })
}

impl<'t, 'a> OneSegment<'t, 'a> {
    /// A tree of the kind `Segment`, as its parts. `None` only of trees that have another shape.
    #[tactic(auto, unfolding(syn_grammar::specs::Table::table))]
    pub fn of(tree: &'t Tree<'a>) -> Option<OneSegment<'t, 'a>>
        ensures { MatchOption result ((p : k.Style) → IsShaped tree.now (g.ref (k.Segment p)) → ⊥)
            (λ x. tree.now ≡ one_segment x) }
    {
        let Some((Kind::Segment(style), inner)) = take::node(tree) else {
            return None;
        };
        let Some(which) = take::chosen(inner) else {
            return None;
        };
        match which {
            Choice::First(inner) => match take::word(inner) {
                Some(ident) => {
                    let arguments = PathArguments::None;
                    let segment = PathSegment { ident, arguments };
                    Some(OneSegment {
                        style,
                        is_keyword: true,
                        segment,
                    })
                }
                None => None,
            },
            Choice::Second(inner) => match as_named_segment(inner) {
                Some(segment) => Some(OneSegment {
                    style,
                    is_keyword: false,
                    segment,
                }),
                None => None,
            },
        }
    }
}

/// A type that is associated: `A = T`.
#[derive(Clone, Copy)]
pub struct AssocType<'t, 'a> {
    /// Its name.
    pub ident: &'a Ident,
    /// `=`
    pub eq_token: Mark,
    /// The type.
    pub ty: &'t Tree<'a>,
}

/// A generic argument: `'a`, `T`, `1`, `{ 1 }`, `A = T`.
#[derive(Clone, Copy)]
pub enum GenericArgument<'t, 'a> {
    /// A lifetime.
    Lifetime(Lifetime<'a>),
    /// A type.
    Type(&'t Tree<'a>),
    /// A constant that is a literal.
    Const(Lit<'a>),
    /// A constant that is a block, as a form of the kind `Body`.
    ConstBlock(&'t Tree<'a>),
    /// A type that is associated.
    AssocType(AssocType<'t, 'a>),
}

// A lifetime, by its name as a part.
fn as_lifetime_argument<'t, 'a>(tree: &'t Tree<'a>) -> Option<Lifetime<'a>>
    ensures { MatchOption result (IsShaped tree.now (g.called n.the_lifetime g.lifetime) → ⊥)
        (λ l. tree.now ≡ t.Called n.the_lifetime (lifetime_tree l)) }
{
    let Some(inner) = inside::part(Part::Lifetime, tree) else {
        return None;
    };
    take::lifetime(inner)
}

// A type that is associated.
fn as_assoc_type<'t, 'a>(tree: &'t Tree<'a>) -> Option<AssocType<'t, 'a>>
    ensures { MatchOption result ((p : List ℕ → Bool) (c : ℕ) (cs : List ℕ) (a : g.Gram) → IsShaped tree.now
        (g.seq (g.word p) (g.seq (g.mark c cs) a)) → ⊥)
        (λ x. tree.now ≡ assoc_type_tree x) }
{
    let Some((ident, eq_token, ty)) = take::three(tree) else {
        return None;
    };
    let Some((ident, eq_token)) = joined::two(take::word(ident), take::mark(eq_token)) else {
        return None;
    };
    Some(AssocType {
        ident,
        eq_token,
        ty,
    })
}

impl<'t, 'a> GenericArgument<'t, 'a> {
    /// A tree of the kind `AnArgument`, as its parts. `None` only of trees that have another shape.
    #[tactic(auto, unfolding(syn_grammar::specs::Table::table))]
    pub fn of(tree: &'t Tree<'a>) -> Option<GenericArgument<'t, 'a>>
        ensures { MatchOption result (IsShaped tree.now (g.ref k.AnArgument) → ⊥)
            (λ x. tree.now ≡ generic_argument x) }
    {
        let Some(inner) = inside::node(Kind::AnArgument, tree) else {
            return None;
        };
        let Some(which) = take::chosen5(inner) else {
            return None;
        };
        match which {
            Choice5::First(inner) => match as_lifetime_argument(inner) {
                Some(found) => Some(GenericArgument::Lifetime(found)),
                None => None,
            },
            Choice5::Second(inner) => match as_lit(inner) {
                Some(found) => Some(GenericArgument::Const(found)),
                None => None,
            },
            Choice5::Third(inner) => Some(GenericArgument::ConstBlock(inner)),
            Choice5::Fourth(inner) => match as_assoc_type(inner) {
                Some(found) => Some(GenericArgument::AssocType(found)),
                None => None,
            },
            Choice5::Fifth(inner) => Some(GenericArgument::Type(inner)),
        }
    }
}

/// A field's index: `0`.
#[derive(Clone, Copy)]
pub struct Index<'a> {
    /// The number; behind the dot of an expression perhaps several, with dots between them: `0.1` in `a.0.1`.
    pub index: &'a Literal,
}

impl<'a> Index<'a> {
    /// A tree of the kind `Index`, as its parts. `None` only of trees that have another shape.
    #[tactic(auto, unfolding(syn_grammar::specs::Table::table))]
    pub fn of(tree: &Tree<'a>) -> Option<Index<'a>>
        ensures { MatchOption result (IsShaped tree.now (g.ref k.Index) → ⊥) (λ x. tree.now ≡ index x) }
    {
        let Some(inner) = inside::node(Kind::Index, tree) else {
            return None;
        };
        let Some(index) = take::literal(inner) else {
            return None;
        };
        Some(Index { index })
    }
}

/// A field's name, or its index.
#[derive(Clone, Copy)]
pub enum Member<'a> {
    /// Its name.
    Named(&'a Ident),
    /// Its index.
    Unnamed(Index<'a>),
}

impl<'a> Member<'a> {
    /// A tree of the kind `Member`, as its parts. `None` only of trees that have another shape.
    #[tactic(auto, unfolding(syn_grammar::specs::Table::table))]
    pub fn of(tree: &Tree<'a>) -> Option<Member<'a>>
        ensures { MatchOption result (IsShaped tree.now (g.ref k.Member) → ⊥) (λ x. tree.now ≡ member x) }
    {
        let Some(inner) = inside::node(Kind::Member, tree) else {
            return None;
        };
        let Some(which) = take::chosen(inner) else {
            return None;
        };
        match which {
            Choice::First(inner) => match take::word(inner) {
                Some(ident) => Some(Member::Named(ident)),
                None => None,
            },
            Choice::Second(inner) => match take::literal(inner) {
                Some(index) => Some(Member::Unnamed(Index { index })),
                None => None,
            },
        }
    }
}

/// The delimiters of a macro.
#[derive(Clone, Copy)]
pub enum MacroDelimiter {
    /// Parentheses.
    Paren(Delimiters),
    /// Braces.
    Brace(Delimiters),
    /// Brackets.
    Bracket(Delimiters),
}

/// The tokens of a macro or of an attribute, in their delimiters.
#[derive(Clone, Copy)]
pub struct Delimited<'a> {
    /// The delimiters.
    pub delimiter: MacroDelimiter,
    /// The tokens in them.
    pub tokens: &'a [Entry<'a>],
}

// A group of tokens that are kept as they are.
fn as_raw_group<'a>(tree: &Tree<'a>) -> Option<(Delimiters, &'a [Entry<'a>])>
    ensures { MatchOption result ((d : GivenDelimiter) → IsShaped tree.now (g.group d g.raw) → ⊥)
        (λ p. tree.now ≡ t.Group p.0.delimiter (raw_tree p.1)) }
{
    let Some((delimiters, inside)) = take::group(tree) else {
        return None;
    };
    let Some(tokens) = take::raw(inside) else {
        return None;
    };
    Some((delimiters, tokens))
}

impl<'a> Delimited<'a> {
    /// A tree of the kind `Delimited`, as its parts. `None` only of trees that have another shape.
    #[tactic(auto, unfolding(syn_grammar::specs::Table::table))]
    pub fn of(tree: &Tree<'a>) -> Option<Delimited<'a>>
        ensures { MatchOption result (IsShaped tree.now (g.ref k.Delimited) → ⊥) (λ x. tree.now ≡ delimited x) }
    {
        let Some(inner) = inside::node(Kind::Delimited, tree) else {
            return None;
        };
        let Some(which) = take::chosen3(inner) else {
            return None;
        };
        match which {
            Choice3::First(inner) => match as_raw_group(inner) {
                Some((found, tokens)) => Some(Delimited {
                    delimiter: MacroDelimiter::Paren(found),
                    tokens,
                }),
                None => None,
            },
            Choice3::Second(inner) => match as_raw_group(inner) {
                Some((found, tokens)) => Some(Delimited {
                    delimiter: MacroDelimiter::Brace(found),
                    tokens,
                }),
                None => None,
            },
            Choice3::Third(inner) => match as_raw_group(inner) {
                Some((found, tokens)) => Some(Delimited {
                    delimiter: MacroDelimiter::Bracket(found),
                    tokens,
                }),
                None => None,
            },
        }
    }
}
