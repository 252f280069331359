//! Which form of expressions stands at tokens.

ghost use Rattle.reader_tokens.specs.Marks.{no_mark};
ghost use Rattle.reader_tokens.specs.Nested.{is_nested};
ghost use Rattle.reader_tokens.specs.Tokens.{tokens};
ghost use Rattle.reader_lookahead.specs.Words.{begins_form, early_words, late_words};
ghost use Rattle.reader_table.specs.Cases.{cases_of};
ghost use Rattle.reader_table.specs.Kinds.{kind_of, position_of};
ghost use Rattle.reader_table.specs.Words.{keyword_text};
ghost use Rattle.proc_macro2.specs.Token as token;
ghost use Rattle.proc_macro2.specs.declared.delimiter.Delimiter.TheVariants.{Brace};
ghost use Rattle.rust_leaf.specs.Leaf.{ident_text, punct_char, punct_spacing};
ghost use Rattle.rust_leaf.specs.declared.punct.Spacing.TheVariants.{Alone, Joint};
ghost use Rattle.std.specs.Prelude.{◌∷◌, ◌≡◌, MatchOption, None, Some, false, true};
ghost use Rattle.syn_grammar.specs.Forms.{back, brace_ends, first_form, front, has_right, operand_stands, past_bar};
ghost use Rattle.syn_grammar.specs.Forms.{range_is_open, repeat_stands};
ghost use Rattle.syn_grammar.specs.Look.{no, sees, ◌or◌, ◌then◌};
ghost use Rattle.syn_grammar.specs.Say.{marks, parenthesis};
ghost use Rattle.syn_grammar.specs.Words.{is_name};
ghost use Rattle.rust_leaf.specs.Keywords.{is_among, same_text};

use crate::look::look;
use proc_macro2::delimiter::Delimiter;
use reader_table::composite::Composite;
use reader_table::form::{backs, fronts};
use reader_table::kind::{Kind, Position};
use reader_table::op::{Case, Look};
use reader_table::word::{Keyword, Literals, Sign, Words};
use reader_tokens::group::{opens, opens_first, past_first};
use reader_tokens::leaf::{is_keyword, is_word, word};
use reader_tokens::literals::past;
use reader_tokens::sign::{first_ident, first_mark, is_sign};
use rust_leaf::ident::Ident;
use rust_leaf::punct::{Punct, Spacing};
use syn_buffer::entry::Entry;

// The characters `|` and `;`.
const BAR: u32 = 124;

const SEMICOLON: u32 = 59;

// The first form of these that is seen.
#[tactic(auto, using(crate::proofs::Forms::form_here, crate::proofs::Forms::form_behind))]
fn first_form(cases: &[Case], at: &[Entry<'_>]) -> Option<Kind>
    requires { is_nested at.now ≡ true }
    ensures { MatchOption result (first_form (cases_of cases.now) (tokens at.now) ≡ None)
        (λ k. first_form (cases_of cases.now) (tokens at.now) ≡ Some (kind_of k)) }
{
    match cases {
        [] => None,
        [first, others @ ..] => {
            if look(first.look, at) {
                Some(first.kind)
            } else {
                first_form(others, at)
            }
        }
    }
}

// Whether brackets open there in which a `;` stands that is in no group.
#[tactic(auto, using(crate::proofs::Sees::is_repeated_laws, crate::proofs::Steps::there_laws))]
fn is_repeated(at: &[Entry<'_>]) -> bool
    requires { is_nested at.now ≡ true }
    ensures { result ≡ sees repeat_stands (tokens at.now) }
{
    match opens(Delimiter::Bracket, at) {
        Some(inside) => past_first(SEMICOLON, inside).is_some(),
        None => false,
    }
}

// The form that begins with a group.
fn group_front(
    position: Position,
    delimiter: Delimiter,
    at: &[Entry<'_>],
    rest: &[Entry<'_>],
) -> Option<Kind>
    requires nested { is_nested at.now ≡ true }
    requires first { tokens at.now ≡ token.Opens delimiter ∷ tokens rest.now }
    ensures { MatchOption result (front (position_of position) (tokens at.now) ≡ None)
        (λ k. front (position_of position) (tokens at.now) ≡ Some (kind_of k)) }
{
    let _behind = rest.len();
    match delimiter {
        Delimiter::Parenthesis => Some(Kind::ExprParen),
        Delimiter::Brace => Some(Kind::ExprBlock),
        Delimiter::None => Some(Kind::ExprGroup),
        Delimiter::Bracket => {
            if is_repeated(at) {
                Some(Kind::ExprRepeat)
            } else {
                Some(Kind::ExprArray)
            }
        }
    }
}

// Whether `->` stands behind two bars, each the first one that stands in no group.
#[tactic(auto, using(crate::proofs::Sees::then_none, crate::proofs::Sees::then_so))]
fn is_typed(at: &[Entry<'_>]) -> bool
    requires { is_nested at.now ≡ true }
    ensures { result ≡ sees (past_bar then past_bar then marks "->") (tokens at.now) }
{
    match past_first(BAR, at) {
        Some(parameters) => match past_first(BAR, parameters) {
            Some(behind) => is_sign(Sign::RArrow, behind),
            None => false,
        },
        None => false,
    }
}

// The form that begins with a lone `|`: a closure.
fn bar_front(position: Position, mark: &Punct, at: &[Entry<'_>], rest: &[Entry<'_>]) -> Kind
    requires nested { is_nested at.now ≡ true }
    requires first { tokens at.now ≡ token.Punct (punct_char mark.now) (punct_spacing mark.now) ∷ tokens rest.now }
    requires bar { punct_char mark.now ≡ 124 }
    requires lone { punct_spacing mark.now ≡ Alone }
    ensures { front (position_of position) (tokens at.now) ≡ Some (kind_of result) }
{
    let _behind = (position, mark.as_char(), rest.len());
    if is_typed(at) {
        Kind::ExprTypedClosure
    } else {
        Kind::ExprClosure
    }
}

// The form that begins with a lone `&`.
fn and_front(position: Position, mark: &Punct, at: &[Entry<'_>], rest: &[Entry<'_>]) -> Kind
    requires nested { is_nested at.now ≡ true }
    requires first { tokens at.now ≡ token.Punct (punct_char mark.now) (punct_spacing mark.now) ∷ tokens rest.now }
    requires and { punct_char mark.now ≡ 38 }
    requires lone { punct_spacing mark.now ≡ Alone }
    ensures { front (position_of position) (tokens at.now) ≡ Some (kind_of result) }
{
    let _behind = (position, mark.as_char(), rest.len());
    if !is_word(Words::Keyword(Keyword::Raw), rest) {
        return Kind::ExprReference;
    }
    if look(Look::Composite(Composite::RawAddrStands), at) {
        Kind::ExprRawAddr
    } else {
        Kind::ExprReference
    }
}

// The form that begins with a mark.
#[tactic(auto, using(crate::proofs::Forms::front_is))]
fn mark_front(
    position: Position,
    mark: &Punct,
    at: &[Entry<'_>],
    rest: &[Entry<'_>],
) -> Option<Kind>
    requires nested { is_nested at.now ≡ true }
    requires first { tokens at.now ≡ token.Punct (punct_char mark.now) (punct_spacing mark.now) ∷ tokens rest.now }
    ensures { MatchOption result (front (position_of position) (tokens at.now) ≡ None)
        (λ k. front (position_of position) (tokens at.now) ≡ Some (kind_of k)) }
{
    let _behind = rest.len();
    match mark.spacing() {
        Spacing::Alone => match mark.as_char() {
            '#' => Some(Kind::ExprAttributed),
            '*' => Some(Kind::ExprUnary),
            '!' => Some(Kind::ExprUnary),
            '-' => Some(Kind::ExprUnary),
            '<' => Some(Kind::ExprPath),
            '|' => Some(bar_front(position, mark, at, rest)),
            '&' => Some(and_front(position, mark, at, rest)),
            _ => first_form(fronts(position), at),
        },
        Spacing::Joint => first_form(fronts(position), at),
    }
}

// Whether the word is that keyword.
#[inline(always)]
fn is(ident: &Ident, keyword: Keyword) -> bool
    ensures { result ≡ same_text (keyword_text keyword) (ident_text ident.now) }
{
    is_keyword(ident, keyword)
}

// Whether the word is one of those.
fn is_early(ident: &Ident) -> bool
    ensures { result ≡ is_among early_words (ident_text ident.now) }
{
    is(ident, Keyword::Loop)
        || is(ident, Keyword::While)
        || is(ident, Keyword::Static)
        || is(ident, Keyword::Move)
        || is(ident, Keyword::Const)
        || is(ident, Keyword::Async)
        || is(ident, Keyword::For)
}

// Whether the word is one of these.
fn is_late(ident: &Ident) -> bool
    ensures { result ≡ is_among late_words (ident_text ident.now) }
{
    is(ident, Keyword::Underscore)
        || is(ident, Keyword::Unsafe)
        || is(ident, Keyword::Try)
        || is(ident, Keyword::If)
        || is(ident, Keyword::Match)
        || is(ident, Keyword::Continue)
        || is(ident, Keyword::Break)
        || is(ident, Keyword::Return)
        || is(ident, Keyword::Yield)
        || is(ident, Keyword::Let)
}

// Whether a mark stands first.
fn is_mark_first(at: &[Entry<'_>]) -> bool
    ensures { result ≡ false → no_mark (tokens at.now) }
{
    let Some((first, _)) = at.split_first() else {
        return false;
    };
    match first {
        Entry::Punct(_) => true,
        Entry::Open(..) => false,
        Entry::Close(..) => false,
        Entry::Ident(_) => false,
        Entry::Literal(_) => false,
    }
}

// The form that begins with a name: a path, or a macro's call.
fn name_front(position: Position, ident: &Ident, at: &[Entry<'_>], rest: &[Entry<'_>]) -> Kind
    requires nested { is_nested at.now ≡ true }
    requires first { tokens at.now ≡ token.Ident (ident_text ident.now) ∷ tokens rest.now }
    requires name { is_name (ident_text ident.now) ≡ true }
    requires no_form { begins_form (ident_text ident.now) ≡ false }
    ensures { front (position_of position) (tokens at.now) ≡ Some (kind_of result) }
{
    let _around = (position, ident.first_byte());
    if !is_mark_first(rest) {
        return Kind::ExprPath;
    }
    if look(Look::Composite(Composite::MacroCallStands), at) {
        Kind::ExprMacro
    } else {
        Kind::ExprPath
    }
}

// The form that begins with a word.
#[tactic(auto, using(crate::proofs::Forms::front_is))]
fn word_front(
    position: Position,
    ident: &Ident,
    at: &[Entry<'_>],
    rest: &[Entry<'_>],
) -> Option<Kind>
    requires nested { is_nested at.now ≡ true }
    requires first { tokens at.now ≡ token.Ident (ident_text ident.now) ∷ tokens rest.now }
    ensures { MatchOption result (front (position_of position) (tokens at.now) ≡ None)
        (λ k. front (position_of position) (tokens at.now) ≡ Some (kind_of k)) }
{
    if word(Words::Ident, ident) {
        return Some(name_front(position, ident, at, rest));
    }
    if word(Words::Bool, ident) {
        return Some(Kind::ExprLit);
    }
    if is(ident, Keyword::If) {
        return Some(Kind::ExprIf);
    }
    if is(ident, Keyword::Match) {
        return Some(Kind::ExprMatch);
    }
    if is_early(ident) {
        return first_form(fronts(position), at);
    }
    if is_late(ident) {
        return first_form(fronts(position), at);
    }
    if word(Words::Name, ident) {
        Some(name_front(position, ident, at, rest))
    } else {
        None
    }
}

/// The form of expressions that begins at the entries.
#[tactic(auto, using(crate::proofs::Fronts::closing_front))]
pub fn front(position: Position, at: &[Entry<'_>]) -> Option<Kind>
    requires { is_nested at.now ≡ true }
    ensures { MatchOption result (front (position_of position) (tokens at.now) ≡ None)
        (λ k. front (position_of position) (tokens at.now) ≡ Some (kind_of k)) }
{
    let Some((first, rest)) = at.split_first() else {
        return None;
    };
    match first {
        Entry::Ident(ident) => word_front(position, ident, at, rest),
        Entry::Punct(mark) => mark_front(position, mark, at, rest),
        Entry::Literal(_) => Some(Kind::ExprLit),
        Entry::Open(delimiter, ..) => group_front(position, *delimiter, at, rest),
        Entry::Close(..) => None,
    }
}

// Whether arguments of a method stand there, or `::` before them.
#[tactic(auto, using(crate::proofs::Sees::either, crate::proofs::Sees::neither))]
fn is_called(at: &[Entry<'_>]) -> bool
    ensures { result ≡ sees (parenthesis or marks "::") (tokens at.now) }
{
    opens_first(Delimiter::Parenthesis, at) || is_sign(Sign::PathSep, at)
}

// The form whose left operand stands before a dot that none follows at once.
fn dot_back(position: Position, mark: &Punct, at: &[Entry<'_>], rest: &[Entry<'_>]) -> Option<Kind>
    requires nested { is_nested at.now ≡ true }
    requires first { tokens at.now ≡ token.Punct (punct_char mark.now) (punct_spacing mark.now) ∷ tokens rest.now }
    requires dot { punct_char mark.now ≡ 46 }
    requires lone { punct_spacing mark.now ≡ Alone }
    ensures { MatchOption result (back (position_of position) (tokens at.now) ≡ None)
        (λ k. back (position_of position) (tokens at.now) ≡ Some (kind_of k)) }
{
    let _behind = (position, mark.as_char(), rest.len());
    let Some(behind) = past(Literals::EndsInDot, rest) else {
        return None;
    };
    let Some((ident, after)) = first_ident(behind) else {
        return Some(Kind::ExprField);
    };
    if is(ident, Keyword::Await) {
        return Some(Kind::ExprAwait);
    }
    if !word(Words::Ident, ident) {
        return Some(Kind::ExprField);
    }
    if is_called(after) {
        Some(Kind::ExprMethodCall)
    } else {
        Some(Kind::ExprField)
    }
}

// The form whose left operand stands before two marks of which the first is joint.
#[tactic(auto, using(crate::proofs::Forms::back_is))]
fn angle_back(
    position: Position,
    mark: &Punct,
    next: &Punct,
    at: &[Entry<'_>],
    behind: &[Entry<'_>],
) -> Option<Kind>
    requires nested { is_nested at.now ≡ true }
    requires first { tokens at.now ≡ token.Punct (punct_char mark.now) (punct_spacing mark.now)
        ∷ token.Punct (punct_char next.now) (punct_spacing next.now) ∷ tokens behind.now }
    requires joint { punct_spacing mark.now ≡ Joint }
    ensures { MatchOption result (back (position_of position) (tokens at.now) ≡ None)
        (λ k. back (position_of position) (tokens at.now) ≡ Some (kind_of k)) }
{
    let _behind = behind.len();
    match next.spacing() {
        Spacing::Joint => first_form(backs(position), at),
        Spacing::Alone => match mark.as_char() {
            '<' => match next.as_char() {
                '<' => Some(Kind::ExprShift),
                '=' => Some(Kind::ExprCompare),
                _ => first_form(backs(position), at),
            },
            '>' => match next.as_char() {
                '>' => Some(Kind::ExprShift),
                '=' => Some(Kind::ExprCompare),
                _ => first_form(backs(position), at),
            },
            _ => first_form(backs(position), at),
        },
    }
}

// The form whose left operand stands before a mark that another one follows at once.
#[tactic(auto, using(crate::proofs::Forms::back_is))]
fn joint_back(
    position: Position,
    mark: &Punct,
    at: &[Entry<'_>],
    rest: &[Entry<'_>],
) -> Option<Kind>
    requires nested { is_nested at.now ≡ true }
    requires first { tokens at.now ≡ token.Punct (punct_char mark.now) (punct_spacing mark.now) ∷ tokens rest.now }
    requires joint { punct_spacing mark.now ≡ Joint }
    ensures { MatchOption result (back (position_of position) (tokens at.now) ≡ None)
        (λ k. back (position_of position) (tokens at.now) ≡ Some (kind_of k)) }
{
    let Some((next, behind)) = first_mark(rest) else {
        return first_form(backs(position), at);
    };
    match mark.as_char() {
        '=' => match next.as_char() {
            '=' => Some(Kind::ExprCompare),
            '>' => None,
            _ => first_form(backs(position), at),
        },
        '!' => match next.as_char() {
            '=' => Some(Kind::ExprCompare),
            _ => first_form(backs(position), at),
        },
        '&' => match next.as_char() {
            '&' => Some(Kind::ExprAnd),
            _ => first_form(backs(position), at),
        },
        '|' => match next.as_char() {
            '|' => Some(Kind::ExprOr),
            _ => first_form(backs(position), at),
        },
        _ => angle_back(position, mark, next, at, behind),
    }
}

// The form whose left operand stands before a mark.
#[tactic(auto, using(crate::proofs::Forms::back_is))]
fn mark_back(position: Position, mark: &Punct, at: &[Entry<'_>], rest: &[Entry<'_>]) -> Option<Kind>
    requires nested { is_nested at.now ≡ true }
    requires first { tokens at.now ≡ token.Punct (punct_char mark.now) (punct_spacing mark.now) ∷ tokens rest.now }
    ensures { MatchOption result (back (position_of position) (tokens at.now) ≡ None)
        (λ k. back (position_of position) (tokens at.now) ≡ Some (kind_of k)) }
{
    let _behind = rest.len();
    match mark.as_char() {
        ',' => return None,
        ';' => return None,
        '?' => return Some(Kind::ExprTry),
        _ => {}
    }
    match mark.spacing() {
        Spacing::Alone => match mark.as_char() {
            '=' => Some(Kind::ExprAssign),
            '+' => Some(Kind::ExprSum),
            '-' => Some(Kind::ExprSum),
            '*' => Some(Kind::ExprProduct),
            '/' => Some(Kind::ExprProduct),
            '<' => Some(Kind::ExprCompare),
            '>' => Some(Kind::ExprCompare),
            '.' => dot_back(position, mark, at, rest),
            '%' => Some(Kind::ExprProduct),
            '&' => Some(Kind::ExprBitAnd),
            '^' => Some(Kind::ExprBitXor),
            '|' => Some(Kind::ExprBitOr),
            _ => first_form(backs(position), at),
        },
        Spacing::Joint => joint_back(position, mark, at, rest),
    }
}

// The form whose left operand stands before braces: a struct, but in a condition.
fn brace_back(
    position: Position,
    delimiter: Delimiter,
    at: &[Entry<'_>],
    rest: &[Entry<'_>],
) -> Option<Kind>
    requires first { tokens at.now ≡ token.Opens delimiter ∷ tokens rest.now }
    requires brace { delimiter ≡ Brace }
    ensures { MatchOption result (back (position_of position) (tokens at.now) ≡ None)
        (λ k. back (position_of position) (tokens at.now) ≡ Some (kind_of k)) }
{
    let _around = (delimiter, at.len(), rest.len());
    match position {
        Position::Plain => Some(Kind::ExprStruct),
        Position::InCondition => None,
        Position::InArm => Some(Kind::ExprStruct),
        Position::InStatement => Some(Kind::ExprStruct),
    }
}

// The form whose left operand stands before a group.
fn group_back(
    position: Position,
    delimiter: Delimiter,
    at: &[Entry<'_>],
    rest: &[Entry<'_>],
) -> Option<Kind>
    requires nested { is_nested at.now ≡ true }
    requires first { tokens at.now ≡ token.Opens delimiter ∷ tokens rest.now }
    ensures { MatchOption result (back (position_of position) (tokens at.now) ≡ None)
        (λ k. back (position_of position) (tokens at.now) ≡ Some (kind_of k)) }
{
    let _behind = rest.len();
    match delimiter {
        Delimiter::Parenthesis => Some(Kind::ExprCall),
        Delimiter::Bracket => Some(Kind::ExprIndex),
        Delimiter::None => None,
        Delimiter::Brace => brace_back(position, delimiter, at, rest),
    }
}

// The form whose left operand stands before a word: a cast, if the word is `as`.
fn word_back(
    position: Position,
    ident: &Ident,
    at: &[Entry<'_>],
    rest: &[Entry<'_>],
) -> Option<Kind>
    requires nested { is_nested at.now ≡ true }
    requires first { tokens at.now ≡ token.Ident (ident_text ident.now) ∷ tokens rest.now }
    ensures { MatchOption result (back (position_of position) (tokens at.now) ≡ None)
        (λ k. back (position_of position) (tokens at.now) ≡ Some (kind_of k)) }
{
    let _behind = (position, at.len(), rest.len());
    if is(ident, Keyword::As) {
        Some(Kind::ExprCast)
    } else {
        None
    }
}

/// The form of expressions whose left operand stands before the entries.
#[tactic(auto, using(crate::proofs::Backs::closing_back))]
pub fn back(position: Position, at: &[Entry<'_>]) -> Option<Kind>
    requires { is_nested at.now ≡ true }
    ensures { MatchOption result (back (position_of position) (tokens at.now) ≡ None)
        (λ k. back (position_of position) (tokens at.now) ≡ Some (kind_of k)) }
{
    let Some((first, rest)) = at.split_first() else {
        return None;
    };
    match first {
        Entry::Ident(ident) => word_back(position, ident, at, rest),
        Entry::Punct(mark) => mark_back(position, mark, at, rest),
        Entry::Literal(_) => None,
        Entry::Open(delimiter, ..) => group_back(position, *delimiter, at, rest),
        Entry::Close(..) => None,
    }
}

// Whether a break has an operand there.
fn break_has(position: Position, at: &[Entry<'_>]) -> bool
    requires { is_nested at.now ≡ true }
    ensures { result ≡ sees (no (brace_ends (position_of position)) then operand_stands) (tokens at.now) }
{
    match position {
        Position::Plain => look(Look::Composite(Composite::OperandStands), at),
        Position::InCondition => look(Look::Composite(Composite::BreakOperandStands), at),
        Position::InArm => look(Look::Composite(Composite::OperandStands), at),
        Position::InStatement => look(Look::Composite(Composite::OperandStands), at),
    }
}

// Whether a range has no end there.
fn is_open(position: Position, at: &[Entry<'_>]) -> bool
    requires { is_nested at.now ≡ true }
    ensures { result ≡ sees (range_is_open (position_of position)) (tokens at.now) }
{
    match position {
        Position::Plain => look(Look::Composite(Composite::RangeIsOpen), at),
        Position::InCondition => look(Look::Composite(Composite::RangeIsOpenInCondition), at),
        Position::InArm => look(Look::Composite(Composite::RangeIsOpen), at),
        Position::InStatement => look(Look::Composite(Composite::RangeIsOpen), at),
    }
}

/// Whether a form of the kind has an operand behind its own part, where the entries follow that: `break`, `return`,
/// `yield` and a half-open range by what follows; a closure, any other infix form and a prefix form always; the rest
/// never.
#[tactic(auto, unfolding(syn_grammar::specs::Forms::has_right, syn_grammar::specs::Forms::level))]
pub fn has_right(position: Position, kind: Kind, at: &[Entry<'_>]) -> bool
    requires { is_nested at.now ≡ true }
    ensures { result ≡ has_right (position_of position) (kind_of kind) (tokens at.now) }
{
    match kind {
        Kind::ExprBreak => break_has(position, at),
        Kind::ExprReturn | Kind::ExprYield => look(Look::Composite(Composite::OperandStands), at),
        Kind::ExprRange => !is_open(position, at),
        Kind::ExprClosure | Kind::ExprAssign | Kind::ExprRangeClosed => true,
        Kind::ExprOr | Kind::ExprAnd | Kind::ExprLet | Kind::ExprCompare => true,
        Kind::ExprBitOr | Kind::ExprBitXor | Kind::ExprBitAnd => true,
        Kind::ExprShift | Kind::ExprSum | Kind::ExprProduct => true,
        Kind::ExprUnary | Kind::ExprRawAddr | Kind::ExprReference | Kind::ExprAttributed => true,
        _ => false,
    }
}
