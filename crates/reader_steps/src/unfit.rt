//! What was wanted where what was read is refused, and where that is said: as a reader of the text would say it.

ghost use Rattle.reader_steps.specs.Answers.{Fails, IsSyntax};
ghost use Rattle.syn_grammar.specs.Run.{Out};

use crate::refusal::{Refusal, Wanted, Wrong, refuse, refuse_at};
use proc_macro2::delimiter::Delimiter;
use reader_table::kind::{Kind, Place};
use reader_table::op::{Separator, Verdicts};
use reader_table::part::Part;
use reader_table::word::{Keyword, Sign, Words};
use reader_tree::tree::{Element, Form, Tree, Two};
use reader_verdicts::asked::{Asked, is};
use reader_verdicts::statements::needs_semicolon;
use rust_leaf::ident::Ident;
use rust_map::span::Span;
use syn_buffer::entry::Entry;

// Where the first of tokens stands.
fn begin_of_tokens(tokens: &[Entry<'_>]) -> Option<Span> {
    match tokens.first() {
        Some(entry) => Some(entry.span()),
        None => None,
    }
}

// Where the first token of two trees stands.
#[cycle(begin)]
fn begin_of_two(two: &Two<'_>) -> Option<Span> {
    match begin(&two.front) {
        Some(span) => Some(span),
        None => begin(&two.back),
    }
}

// Where the first token of turns stands.
#[cycle(begin)]
fn begin_of_turns(turns: &[Tree<'_>]) -> Option<Span> {
    match turns.first() {
        Some(turn) => begin(turn),
        None => None,
    }
}

// Where the first token of elements that a mark follows stands.
#[cycle(begin)]
fn begin_of_elements(before: &[Element<'_>]) -> Option<Span> {
    match before.first() {
        Some(element) => begin(&element.tree),
        None => None,
    }
}

// Where the first token of a tree stands, if it has one.
#[cycle(begin)]
fn begin(tree: &Tree<'_>) -> Option<Span> {
    match &tree.form {
        Form::Word(ident) => Some(ident.span()),
        Form::Literal(literal) => Some(literal.span()),
        Form::Mark(_, _, span) => Some(span.span()),
        Form::Lifetime(lifetime) => Some(lifetime.span),
        Form::Group(_, group) => Some(group.span),
        Form::Raw(kept) => begin_of_tokens(kept.entries),
        Form::Nil | Form::End => None,
        Form::Pair(two) | Form::Front(_, two) | Form::Back(_, two) => begin_of_two(two),
        Form::Turns(turns) => begin_of_turns(turns.each),
        Form::Elements(list) => match begin_of_elements(list.before) {
            Some(span) => Some(span),
            None => begin(list.last?),
        },
        Form::Infix(_, three) => begin(&three.left),
        Form::First(_, inner) | Form::Second(_, inner) | Form::Dropped(inner) => begin(inner),
        Form::Called(_, inner) | Form::Verbatim(inner) | Form::Node(_, inner) => begin(inner),
        Form::Whole(inner) | Form::Alone(_, inner) => begin(inner),
    }
}

// Where the turn begins that stands behind the first that needs a `;`, if one does: the last one's is not known.
fn behind_open(turns: &[Tree<'_>]) -> Option<Span> {
    let mut is_open = false;
    for turn in turns {
        if is_open {
            return begin(turn);
        }
        is_open = needs_semicolon(turn.choice());
    }
    None
}

// Whether the last turn is a statement that needs a `;`.
fn is_last_open(turns: &[Tree<'_>]) -> bool {
    match turns.last() {
        Some(turn) => needs_semicolon(turn.choice()),
        None => false,
    }
}

// Where that begins which is left behind the first turn that needs a `;`, if one does: another turn, or these entries.
fn left_behind(turns: &[Tree<'_>], at: &[Entry<'_>]) -> Option<Span> {
    match behind_open(turns) {
        Some(span) => Some(span),
        None if is_last_open(turns) => begin_of_tokens(at),
        None => None,
    }
}

/// What was refused where these entries begin, behind turns. Where one of these needs a `;`, that is wanted where what
/// is left behind it begins.
pub(crate) fn unclosed(turns: &[Tree<'_>], at: &[Entry<'_>], refusal: Refusal) -> Refusal
    ensures { (o : Out) → Fails refusal o → Fails result o }
{
    match (refusal, left_behind(turns, at)) {
        (Refusal::Syntax(_), Some(span)) => Refusal::Syntax(Wrong {
            span: Some(span),
            is_end: false,
            wanted: Wanted::Mark(Sign::Semi),
        }),
        (other, _) => other,
    }
}

// Where the first element stands that is what is asked.
fn first_asked(asked: Asked, elements: &[Element<'_>]) -> Option<Span> {
    for element in elements {
        if is(asked, &element.tree) {
            return begin(&element.tree);
        }
    }
    None
}

// Where the first element of a group's list stands that is what is asked, and has a mark behind it.
fn separated(asked: Asked, tree: &Tree<'_>) -> Option<Span> {
    match listed(tree) {
        Some((before, _)) => first_asked(asked, before),
        None => None,
    }
}

// The elements of a group's list that a mark follows, and the last one, if none follows it.
fn listed<'t, 'a>(tree: &'t Tree<'a>) -> Option<(&'t [Element<'a>], Option<&'t Tree<'a>>)> {
    tree.group()?.list()
}

// Where `self` stands in a receiver.
fn self_word(tree: &Tree<'_>) -> Option<Span> {
    match &tree.form {
        Form::Word(ident) if ident.is_text("self") => Some(ident.span()),
        Form::Pair(two) => match self_word(&two.front) {
            Some(span) => Some(span),
            None => self_word(&two.back),
        },
        Form::First(_, inner) | Form::Second(_, inner) => self_word(inner),
        _ => None,
    }
}

// Where the `self` of a parameter stands, if that is a receiver.
fn receiver(parameter: &Tree<'_>) -> Option<Span> {
    let (_, inner) = parameter.node()?;
    let (_, receiver) = inner.the(Part::Receiver)?.node()?;
    self_word(receiver)
}

// Where the `self` of the first receiver stands.
fn first_receiver(elements: &[Element<'_>], last: Option<&Tree<'_>>) -> Option<Span> {
    for element in elements {
        if let Some(span) = receiver(&element.tree) {
            return Some(span);
        }
    }
    receiver(last?)
}

// Where that stands which makes a parameter one that may not stand there: the `self` of a receiver behind others, or
// a parameter with `...` before others.
fn misplaced(tree: &Tree<'_>) -> Option<Span> {
    let (before, last) = listed(tree)?;
    let (_, others) = before.split_first()?;
    match first_receiver(others, last) {
        Some(span) => Some(span),
        None => first_asked(Asked::Variadic, before),
    }
}

// Where that is said of what was judged.
fn place(verdicts: Verdicts, tree: &Tree<'_>) -> Option<Span> {
    match verdicts {
        Verdicts::Statements => behind_open(tree.turns()?),
        Verdicts::FieldPatterns => separated(Asked::Rest, tree),
        Verdicts::FieldValues => separated(Asked::Base, tree),
        Verdicts::Parameters => misplaced(tree),
        Verdicts::Let => begin(tree.the(Part::Else)?),
        Verdicts::Arm | Verdicts::OneStatement => None,
        _ => begin(tree),
    }
}

/// What was read is refused, as it is judged. A `;` is wanted where the next statement begins, a `,` behind an arm; of
/// lists it is said at the first element that stands where it may not, of all else where it begins, or where `else`
/// does; and where no such place is, before these entries.
pub(crate) fn unfit(verdicts: Verdicts, tree: &Tree<'_>, rest: &[Entry<'_>]) -> Refusal
    ensures { IsSyntax result }
{
    let wanted = match verdicts {
        Verdicts::Statements | Verdicts::OneStatement => Wanted::Mark(Sign::Semi),
        Verdicts::Arm => Wanted::Mark(Sign::Comma),
        _ => Wanted::Judged(verdicts),
    };
    match place(verdicts, tree) {
        Some(span) => refuse_at(wanted, span),
        None => refuse(wanted, rest),
    }
}

// Whether a kind is one that a reader knows by a name.
fn has_name(kind: Kind) -> bool {
    matches!(
        kind,
        Kind::AType(_)
            | Kind::Pattern
            | Kind::SeveralPatterns
            | Kind::OnePattern
            | Kind::AnItem
            | Kind::AForeignItem
            | Kind::ATraitItem
            | Kind::AnImplItem
            | Kind::DeriveInput
    )
}

// Whether that stands where the first of the entries does.
fn stands_first(wrong: &Wrong, at: &[Entry<'_>]) -> bool {
    match (at.first(), &wrong.span) {
        (Some(entry), Some(span)) => entry.span().eq(span),
        (None, _) => wrong.is_end,
        (Some(_), None) => false,
    }
}

// Whether that is what stands where none of a type's bounds is a path, behind the word before them.
fn lacks_path(kind: Kind, wrong: &Wrong, at: &[Entry<'_>]) -> bool {
    let Some((_, bounds)) = at.split_first() else {
        return false;
    };
    matches!(kind, Kind::DynType(_) | Kind::ImplType(_))
        && matches!(
            wrong.wanted,
            Wanted::Judged(Verdicts::SomeBounds) | Wanted::Nothing
        )
        && begins_lifetime(bounds)
        && stands_first(wrong, bounds)
}

// Whether a lifetime begins there.
fn begins_lifetime(at: &[Entry<'_>]) -> bool {
    let Some((entry, _)) = at.split_first() else {
        return false;
    };
    match *entry {
        Entry::Punct(mark) => mark.as_char() == '\'',
        _ => false,
    }
}

// Whether one of a derive input's keywords was wanted, of which the last is said.
fn lacks_keyword(kind: Kind, wanted: Wanted) -> bool {
    matches!(kind, Kind::DeriveInput)
        && matches!(wanted, Wanted::Word(Words::Keyword(Keyword::Union)))
}

// Whether the node of the kind is wanted itself: where nothing else is, and, if it has a name, where none of its tokens
// stands; and of a derive input, where its word is.
fn is_node(kind: Kind, wrong: &Wrong, at: &[Entry<'_>]) -> bool {
    match wrong.wanted {
        Wanted::Nothing => true,
        Wanted::Judged(_) => false,
        _ => has_name(kind) && stands_first(wrong, at) || lacks_keyword(kind, wrong.wanted),
    }
}

// Whether a word stands there by itself, of which no macro is made: `!` was wanted behind it.
fn is_lone_word(wrong: &Wrong, at: &[Entry<'_>]) -> bool {
    let Some((entry, behind)) = at.split_first() else {
        return false;
    };
    matches!(entry, Entry::Ident(_))
        && matches!(wrong.wanted, Wanted::Mark(Sign::Not))
        && stands_first(wrong, behind)
}

// What is wanted in place of a word that stands where a macro does and is none.
fn wanted_for(place: Place) -> Wanted {
    Wanted::Node(match place {
        Place::InFile => Kind::AnItem,
        Place::InForeign => Kind::AForeignItem,
        Place::InTrait => Kind::ATraitItem,
        Place::InImpl => Kind::AnImplItem,
    })
}

// What is wanted where a node of the kind is, or nothing that stands there goes on with it.
fn wanted_of(kind: Kind) -> Wanted {
    match kind {
        Kind::UnnamedField | Kind::WhereClause => Wanted::Mark(Sign::Comma),
        Kind::Meta => Wanted::Expression,
        _ => Wanted::Node(kind),
    }
}

// What is wrong of a node of the kind that begins there.
fn wrong_of(kind: Kind, at: &[Entry<'_>], wrong: Wrong) -> Wrong {
    if lacks_path(kind, &wrong, at) {
        return Wrong {
            span: begin_of_tokens(at),
            is_end: false,
            wanted: Wanted::Judged(Verdicts::SomeBounds),
        };
    }
    if let Kind::ItemMacro(place) = kind
        && is_lone_word(&wrong, at)
    {
        return Wrong {
            span: begin_of_tokens(at),
            is_end: false,
            wanted: wanted_for(place),
        };
    }
    if is_node(kind, &wrong, at) {
        return Wrong {
            span: wrong.span,
            is_end: wrong.is_end,
            wanted: wanted_of(kind),
        };
    }
    wrong
}

/// What was refused of a node of the kind: the node is wanted, by its name, where none of its tokens stands, and where
/// none of its forms goes on. That no bound is a path is said where the type begins, and that an item is wanted in
/// place of a lone word, at that word.
pub(crate) fn named(kind: Kind, at: &[Entry<'_>], refusal: Refusal) -> Refusal
    ensures { (o : Out) → Fails refusal o → Fails result o }
{
    match refusal {
        Refusal::Syntax(wrong) => Refusal::Syntax(wrong_of(kind, at, wrong)),
        other => other,
    }
}

// What is wrong behind a part of that name.
fn wrong_behind_part(part: Part, inner: &Tree<'_>, wrong: Wrong) -> Wrong {
    match (part, wrong.wanted) {
        (Part::Label, Wanted::Nothing) => Wrong {
            span: begin(inner),
            is_end: false,
            wanted: Wanted::Node(Kind::ExprBreak),
        },
        (Part::Type, Wanted::Nothing) => Wrong {
            span: wrong.span,
            is_end: wrong.is_end,
            wanted: Wanted::Node(Kind::ExprCast),
        },
        _ => wrong,
    }
}

// Whether that is said of a token in place of the braces that `try` wants.
fn is_tried(word: &Ident, wrong: &Wrong) -> bool {
    word.is_text("try") && !wrong.is_end && matches!(wrong.wanted, Wanted::Group(Delimiter::Brace))
}

// What is wrong behind that tree.
fn wrong_behind(front: &Tree<'_>, wrong: Wrong) -> Wrong {
    match &front.form {
        Form::Called(part, inner) => wrong_behind_part(*part, inner, wrong),
        Form::Word(word) if is_tried(word, &wrong) => Wrong {
            span: Some(word.span()),
            is_end: false,
            wanted: Wanted::Expression,
        },
        _ => wrong,
    }
}

/// What was refused behind that tree. Where nothing goes on, parentheses are wanted round what begins with a label
/// behind `break`, which is said at the label, and round a cast. Behind `try` another token than braces makes no
/// expression of it, as in `try!(x)`, which is said at `try`.
pub(crate) fn behind(front: &Tree<'_>, refusal: Refusal) -> Refusal
    ensures { (o : Out) → Fails refusal o → Fails result o }
{
    match refusal {
        Refusal::Syntax(wrong) => Refusal::Syntax(wrong_behind(front, wrong)),
        other => other,
    }
}

/// What is wanted where tokens are left of a group's inside: a mark, where that is a list whose last element has none.
pub(crate) fn wanted_behind(tree: &Tree<'_>) -> Wanted {
    match &tree.form {
        Form::Elements(list) => match (list.separator, list.last) {
            (Separator::Comma, Some(_)) => Wanted::Mark(Sign::Comma),
            (Separator::Plus, Some(_)) => Wanted::Mark(Sign::Plus),
            _ => Wanted::End,
        },
        Form::Pair(two) => wanted_behind(&two.back),
        Form::First(_, inner) | Form::Second(_, inner) => wanted_behind(inner),
        Form::Called(_, inner) | Form::Node(_, inner) => wanted_behind(inner),
        _ => Wanted::End,
    }
}
