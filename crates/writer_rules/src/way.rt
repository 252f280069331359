//! The way in which a kind, a part, and what stands behind a left operand are written, seen in what was read.

ghost use Rattle.reader_table.specs.Kinds.{kind_of};
ghost use Rattle.reader_table.specs.Parts.{part_of};
ghost use Rattle.writer_rules.specs.Laid.{laid, laid_in, within_impl};
ghost use Rattle.writer_rules.specs.Way.{dotted_of, indices_of, is_bare_angled, is_dotted, last_text, passes};
ghost use Rattle.writer_rules.specs.Way.{value_text, way_laid};
ghost use Rattle.rust_leaf.specs.Leaf.{literal_text};
ghost use Rattle.std.specs.Bool.{OnFalse};
ghost use Rattle.std.specs.List.{list_any};
ghost use Rattle.std.specs.Prelude.{[], ◌≡◌, cond, not, option_map};
ghost use Rattle.syn_grammar.specs.Kind.{Index, Member};
ghost use Rattle.syn_grammar.specs.Tree as t;
ghost use Rattle.syn_grammar.specs.Tree.{Tree as GivenTree};

use crate::seen::{
    called, is_bare_colon, is_bare_generics, is_bare_where, is_lifetime_param, is_lifetime_read,
    keeps_generics, literal,
};
use crate::within::Within;
use reader_table::kind::Kind;
use reader_table::part::Part;
use reader_tree::tree::{Element, Tree};
use rust_leaf::literal::Literal;

/// A list of which some elements come first.
#[derive(Clone, Copy)]
pub enum Firsts {
    /// Lifetimes among generic parameters.
    Params,
    /// Lifetimes among arguments in angles.
    Arguments,
}

/// The way in which the inside of a node, or of a part, is written.
#[derive(Clone, Copy)]
pub enum Way<'a> {
    /// Not at all.
    Nothing,
    /// As this number, in plain decimal.
    Number(&'a Literal),
    /// As a parameter, which may be a type alone.
    Parameter,
    /// As a statement, whose attributes may be given to its expression.
    Statement,
    /// As a list of which some elements come first.
    Firsts(Firsts),
    /// As it stands, within such parts.
    Parts(Within),
}

/// What stands behind the left operand of a field, a method's call or an await.
#[derive(Clone, Copy)]
pub struct Behind<'t, 'a> {
    /// The dot.
    pub dot: &'t Tree<'a>,
    /// The numbers that end in a dot, which stand in front.
    pub numbers: &'t Tree<'a>,
    /// What stands behind the last dot.
    pub behind: &'t Tree<'a>,
}

/// Whether an element of such a list comes first.
pub fn passes(which: Firsts, tree: &Tree<'_>) -> bool
    ensures { result ≡ passes which tree.now }
{
    match which {
        Firsts::Params => is_lifetime_param(tree),
        Firsts::Arguments => is_lifetime_read(tree),
    }
}

/// Whether one of these elements doesn't come first.
pub fn lacks_some(which: Firsts, before: &[Element<'_>]) -> bool
    ensures { result ≡ list_any (λ e. not (passes which e.tree)) before.now }
{
    for element in before {
        if !passes(which, &element.tree) {
            return true;
        }
    }
    false
}

// Not at all where it is bare, else as it stands.
fn unless<'a>(bare: bool) -> Way<'a>
    ensures { (x : GivenTree) → way_laid result x ≡ cond bare [] (laid x) }
{
    if bare {
        Way::Nothing
    } else {
        Way::Parts(Within::Anywhere)
    }
}

// The inside of an index.
#[tactic(auto, using(crate::proofs::WayForms::numbers))]
fn of_index<'a>(inner: &Tree<'a>) -> Way<'a>
    ensures { way_laid result inner.now ≡ laid (t.Node Index inner.now) }
{
    match literal(inner) {
        Some(literal) => Way::Number(literal),
        None => Way::Parts(Within::Anywhere),
    }
}

// The inside of a member.
#[tactic(auto, using(crate::proofs::WayForms::members))]
fn of_member<'a>(inner: &Tree<'a>) -> Way<'a>
    ensures { way_laid result inner.now ≡ laid (t.Node Member inner.now) }
{
    let Some(number) = inner.last() else {
        return Way::Parts(Within::Anywhere);
    };
    match literal(number) {
        Some(literal) => Way::Number(literal),
        None => Way::Parts(Within::Anywhere),
    }
}

/// Whether the inside of a kind has a way of its own, as those of most have not: they are written as they stand.
#[tactic(auto, using(crate::proofs::WayForms::nodes))]
pub fn has_way(kind: Kind) -> bool
    ensures { OnFalse result ((x : GivenTree) → laid x ≡ laid (t.Node (kind_of kind) x)) }
{
    match kind {
        Kind::Parameter => true,
        Kind::AStatement => true,
        Kind::Member => true,
        Kind::Index => true,
        Kind::Where => true,
        Kind::Generics => true,
        Kind::BoundsColon => true,
        Kind::LifetimeColon => true,
        Kind::GenericParams => true,
        Kind::Arguments => true,
        Kind::AnImpl => true,
        _ => false,
    }
}

/// The inside of a node.
#[tactic(auto, using(crate::proofs::WayForms::nodes))]
#[inline(always)]
pub fn of_node<'a>(kind: Kind, inner: &Tree<'a>) -> Way<'a>
    ensures { way_laid result inner.now ≡ laid (t.Node (kind_of kind) inner.now) }
{
    match kind {
        Kind::Parameter => Way::Parameter,
        Kind::AStatement => Way::Statement,
        Kind::Member => of_member(inner),
        Kind::Index => of_index(inner),
        Kind::Where => unless(is_bare_where(inner)),
        Kind::Generics => unless(is_bare_generics(inner)),
        Kind::BoundsColon => unless(is_bare_colon(inner)),
        Kind::LifetimeColon => unless(is_bare_colon(inner)),
        Kind::GenericParams => Way::Firsts(Firsts::Params),
        Kind::Arguments => Way::Parts(Within::InArguments),
        Kind::AnImpl => of_impl(keeps_generics(inner)),
        _ => Way::Parts(Within::Anywhere),
    }
}

// The inside of an impl, which keeps its generics or not.
fn of_impl<'a>(keeps: bool) -> Way<'a>
    ensures { (x : GivenTree) → way_laid result x ≡ laid_in (within_impl keeps) x }
{
    if keeps {
        Way::Parts(Within::Anywhere)
    } else {
        Way::Parts(Within::InImpl)
    }
}

// Whether these are the generics of an impl, and they are bare.
fn is_bare_angled(tree: &Tree<'_>) -> bool
    ensures { result ≡ is_bare_angled tree.now }
{
    match tree.node() {
        Some((kind, inner)) => match kind {
            Kind::ImplGenerics => is_bare_generics(inner),
            _ => false,
        },
        None => false,
    }
}

/// The inside of a part.
#[tactic(auto, using(crate::proofs::WayForms::insides))]
pub fn of_part<'a>(within: Within, part: Part, inner: &Tree<'a>) -> Way<'a>
    ensures { way_laid result inner.now ≡ laid_in within (t.Called (part_of part) inner.now) }
{
    match within {
        Within::Anywhere => Way::Parts(Within::Anywhere),
        Within::InArguments => match part {
            Part::Arguments => Way::Firsts(Firsts::Arguments),
            _ => Way::Parts(Within::Anywhere),
        },
        Within::InImpl => match part {
            Part::Generics => unless(is_bare_angled(inner)),
            _ => Way::Parts(Within::Anywhere),
        },
    }
}

/// Whether the own part of a kind begins with a dot, behind which numbers may stand.
#[tactic(auto, using(crate::proofs::WayForms::undotted))]
pub fn is_dotted(kind: Kind) -> bool
    ensures { result ≡ is_dotted (kind_of kind) }
{
    match kind {
        Kind::ExprField => true,
        Kind::ExprMethodCall => true,
        Kind::ExprAwait => true,
        _ => false,
    }
}

// Of the numbers behind a dot what they are.
fn indices<'t, 'a>(tree: &'t Tree<'a>) -> Option<&'t Tree<'a>>
    ensures { option_map (λ x. x.now) result ≡ indices_of tree.now }
{
    match called(tree) {
        Some((part, inner)) => match part {
            Part::Indices => Some(inner),
            _ => None,
        },
        None => None,
    }
}

/// What stands behind a left operand, where it begins with a dot.
#[tactic(auto, using(crate::proofs::WayForms::dots))]
pub fn dotted<'t, 'a>(own: &'t Tree<'a>) -> Option<Behind<'t, 'a>>
    ensures { option_map (λ d. (d.dot.now, d.numbers.now, d.behind.now)) result ≡ dotted_of own.now }
{
    let (front, behind) = own.pair()?;
    let (dot, called) = front.pair()?;
    let numbers = indices(called)?;
    Some(Behind {
        dot,
        numbers,
        behind,
    })
}

// The literal that is a part, if it is a value.
fn value<'a>(tree: &Tree<'a>) -> Option<&'a Literal>
    ensures { option_map (λ l. literal_text l.now) result ≡ value_text tree.now }
{
    match called(tree) {
        Some((part, inner)) => match part {
            Part::Value => literal(inner),
            _ => None,
        },
        None => None,
    }
}

/// Of a field the number that stands behind the last dot, if it is one.
#[tactic(auto, using(crate::proofs::WayForms::lasts))]
pub fn last_number<'a>(kind: Kind, behind: &Tree<'a>) -> Option<&'a Literal>
    ensures { option_map (λ l. literal_text l.now) result ≡ last_text (kind_of kind) behind.now }
{
    match kind {
        Kind::ExprField => value(behind.last()?),
        _ => None,
    }
}
