//! Looking at places, and moving on.

ghost use Rattle.proc_macro2.specs.Trees.{delim_span_of};
ghost use Rattle.rust_map.specs.Spans.{call_site, first_of, last_of};
ghost use Rattle.std.specs.Prelude.{[], ◌∷◌, ◌≡◌, ◌<◌, ◌≤◌, IfNone, IfSome, IsTrue, false, length, true};
ghost use Rattle.syn_buffer.specs.Entries.{is_laid, last_end, spanned_entries};
ghost use Rattle.syn_buffer.specs.Groups.{Enters, IsNext};
ghost use Rattle.syn_buffer.specs.Heads.{SeenFirst};
ghost use Rattle.syn_buffer.specs.Position.{IsPast, Takes, ahead, index, left, next_span, rest, scope};
ghost use Rattle.syn_buffer.specs.Position.{trees_left, whole, whole_at};
ghost use Rattle.syn_buffer.specs.Standing.{trees_of};
ghost use Rattle.syn_buffer.specs.Leaves.{ident_token, literal_token, punct_token};
ghost use Rattle.syn_buffer.specs.Seen.{all_seen, is_visible, seen};
ghost use Rattle.syn_kinds.specs.Stands.{any_ident_stands, group_stands, literal_stands};
ghost use Rattle.syn_buffer.specs.Stands.{any_group_stands, end_stands, mark_stands, punct_stands};
ghost use Rattle.syn_buffer.specs.declared.entry.Entry.TheVariants as marks;

use crate::buffer::TokenBuffer;
use crate::entry::Entry;
use crate::next::Next;
use crate::position::Cursor;
use proc_macro2::delimiter::Delimiter;
use proc_macro2::group::DelimSpan;
use rust_leaf::ident::Ident;
use rust_leaf::literal::Literal;
use rust_leaf::punct::Punct;
use rust_map::span::Span;

// Past the marks of invisible groups.
#[tactic(auto, using(crate::proofs::Laid::settles))]
#[inline(always)]
fn settled<'a>(entries: &'a [Entry<'a>]) -> &'a [Entry<'a>]
    requires { IsTrue (is_laid entries.now) }
    ensures same { seen (spanned_entries result.now) ≡ seen (spanned_entries entries.now) }
    ensures laid { IsTrue (is_laid result.now) }
    ensures further { length result.now ≤ length entries.now }
    ensures first { SeenFirst result.now }
    ensures visible { IsTrue (all_seen (spanned_entries entries.now))
        → IsTrue (all_seen (spanned_entries result.now)) }
{
    let mut at = 0usize;
    while at < entries.len() {
        if entries[at].is_seen() {
            break;
        }
        at += 1;
    }
    &entries[at..]
}

// Where the last of the entries ends, and of none what is said.
pub(crate) fn end_of_last(none: Span, entries: &[Entry<'_>]) -> Span
    ensures { result ≡ last_end none entries.now }
{
    match entries.last() {
        Some(last) => last.end(),
        None => none,
    }
}

impl TokenBuffer<'_> {
    /// The place at the first token. At its end the call site is said.
    pub fn begin(&self) -> Cursor<'_>
        ensures tokens { rest result ≡ seen (spanned_entries self.now.entries.items) }
        ensures trees { trees_left result ≡ trees_of self.now.entries.items }
        ensures list { scope result
            ≡ whole self.now.number (length self.now.entries.items) self.now.all_visible }
        ensures first { index result ≡ 0 }
        ensures before { result.before ≡ call_site }
    {
        self.begin_within(Span::call_site())
    }

    /// The place at the first token, of tokens that stand within that span: it is what is said at their end.
    #[tactic(auto, using(crate::proofs::Laid::whole_is_laid))]
    pub fn begin_within(&self, closing: Span) -> Cursor<'_>
        ensures tokens { rest result ≡ seen (spanned_entries self.now.entries.items) }
        ensures trees { trees_left result ≡ trees_of self.now.entries.items }
        ensures list { scope result
            ≡ whole_at closing self.now.number (length self.now.entries.items) self.now.all_visible }
        ensures first { index result ≡ 0 }
        ensures before { result.before ≡ call_site }
    {
        Cursor {
            entries: self.entries.as_slice(),
            end: self.entries.len(),
            number: self.number,
            before: Span::call_site(),
            closer: Delimiter::None,
            closing,
            all_visible: self.all_visible,
        }
    }
}

impl<'a> Cursor<'a> {
    /// A place of no buffer, at which nothing is left.
    pub fn empty() -> Cursor<'a>
        ensures nothing { rest result ≡ [] }
        ensures trees { trees_left result ≡ [] }
        ensures list { scope result ≡ whole 0 0 true }
        ensures before { result.before ≡ call_site }
    {
        Cursor {
            entries: &[],
            end: 0,
            number: 0,
            before: Span::call_site(),
            closer: Delimiter::None,
            closing: Span::call_site(),
            all_visible: true,
        }
    }

    // The place of the same list where these are left, behind a token with that span.
    #[inline(always)]
    pub(crate) fn past(self, entries: &'a [Entry<'a>], before: Span) -> Cursor<'a>
        requires laid { IsTrue (is_laid entries.now) }
        requires further { length entries.now ≤ ahead self }
        requires visible { IsTrue self.all_visible → IsTrue (all_seen (spanned_entries entries.now)) }
        ensures entries { result.entries.now ≡ entries.now }
        ensures scope { scope result ≡ scope self.entry }
        ensures before { result.before ≡ before }
    {
        Cursor {
            entries,
            end: self.end,
            number: self.number,
            before,
            closer: self.closer,
            closing: self.closing,
            all_visible: self.all_visible,
        }
    }

    // The place inside a group, of which these entries are left behind its opening mark.
    #[inline(always)]
    fn inside(
        self,
        delimiter: Delimiter,
        span: Span,
        entries: &'a [Entry<'a>],
        end: usize,
    ) -> Cursor<'a>
        requires laid { IsTrue (is_laid entries.now) }
        requires within { length entries.now ≤ end }
        requires visible { IsTrue self.all_visible → IsTrue (all_seen (spanned_entries entries.now)) }
        ensures entries { result.entries.now ≡ entries.now }
        ensures scope { scope result ≡ record {
          number = self.entry.number;
          end = end;
          closing = last_of span;
          closer = delimiter;
          all_visible = self.entry.all_visible;
        } }
        ensures before { result.before ≡ first_of span }
    {
        Cursor {
            entries,
            end,
            number: self.number,
            before: span.first_character(),
            closer: delimiter,
            closing: span.last_character(),
            all_visible: self.all_visible,
        }
    }

    // The group that opens there, of which these entries are left behind its opening mark.
    #[inline(always)]
    fn group_at(
        self,
        delimiter: Delimiter,
        span: Span,
        count: usize,
        behind: &'a [Entry<'a>],
    ) -> Next<'a>
        requires stands { rest self ≡ seen (spanned_entries (marks.Open delimiter span count ∷ behind.now)) }
        requires laid { IsTrue (is_laid (marks.Open delimiter span count ∷ behind.now)) }
        requires visible { is_visible delimiter ≡ true }
        requires further { length behind.now < ahead self }
        requires seen { IsTrue self.all_visible → IsTrue (all_seen (spanned_entries behind.now)) }
        ensures { IsNext self.entry result }
    {
        let end = self.end - behind.len() + count;
        let inside = self.inside(delimiter, span, &behind[..count], end);
        let after = self.past(&behind[count + 1..], span.last_character());
        Next::Group(delimiter, span, inside, after)
    }

    /// What stands at the place, and the place behind it.
    #[tactic(auto, using(crate::proofs::Laid::laid_literal))]
    #[inline(always)]
    pub fn next(self) -> Next<'a>
        ensures { IsNext self.entry result }
    {
        let entries = settled(self.entries);
        let Some((first, behind)) = entries.split_first() else {
            return Next::End;
        };
        match first {
            Entry::Open(delimiter, span, count) => self.group_at(*delimiter, *span, *count, behind),
            Entry::Ident(ident) => Next::Ident(ident, self.past(behind, ident.span())),
            Entry::Punct(punct) => Next::Punct(punct, self.past(behind, punct.span())),
            Entry::Literal(literal) => Next::Literal(literal, self.past(behind, literal.span())),
            Entry::Close(_, _) => Next::End,
        }
    }

    /// Whether nothing is left of the list.
    #[inline]
    pub fn eof(self) -> bool
        ensures { result ≡ end_stands (left self.entry) }
    {
        match self.next() {
            Next::End => true,
            Next::Ident(..) => false,
            Next::Punct(..) => false,
            Next::Literal(..) => false,
            Next::Group(..) => false,
        }
    }

    /// The identifier or keyword that stands there, and the place behind it, or `None` where another token or none
    /// does.
    #[inline]
    pub fn ident(self) -> Option<(&'a Ident, Cursor<'a>)>
        ensures some { IfSome result (λ r. Takes self.entry (ident_token r.0.now) r.1) }
        ensures none { IfNone result (any_ident_stands (left self.entry) ≡ false) }
    {
        match self.next() {
            Next::Ident(ident, behind) => Some((ident, behind)),
            Next::End => None,
            Next::Punct(..) => None,
            Next::Literal(..) => None,
            Next::Group(..) => None,
        }
    }

    /// The mark that stands there, a punctuation or an apostrophe, and the place behind it, or `None` where another
    /// token or none does.
    #[inline]
    pub fn mark(self) -> Option<(Punct, Cursor<'a>)>
        ensures some { IfSome result (λ r. Takes self.entry (punct_token r.0) r.1) }
        ensures none { IfNone result (mark_stands (left self.entry) ≡ false) }
    {
        match self.next() {
            Next::Punct(punct, behind) => Some((*punct, behind)),
            Next::End => None,
            Next::Ident(..) => None,
            Next::Literal(..) => None,
            Next::Group(..) => None,
        }
    }

    /// The punctuation that stands there, and the place behind it, or `None` where another token or none does. An
    /// apostrophe is no punctuation: it begins a lifetime.
    #[inline]
    pub fn punct(self) -> Option<(Punct, Cursor<'a>)>
        ensures some { IfSome result (λ r. Takes self.entry (punct_token r.0) r.1) }
        ensures there { IfSome result (λ _. punct_stands (left self.entry) ≡ true) }
        ensures none { IfNone result (punct_stands (left self.entry) ≡ false) }
    {
        match self.mark() {
            Some((punct, behind)) if punct.as_char() != '\'' => Some((punct, behind)),
            _ => None,
        }
    }

    /// The literal that stands there, and the place behind it, or `None` where another token or none does.
    #[inline]
    pub fn literal(self) -> Option<(&'a Literal, Cursor<'a>)>
        ensures some { IfSome result (λ r. Takes self.entry (literal_token r.0.now) r.1) }
        ensures none { IfNone result (literal_stands (left self.entry) ≡ false) }
    {
        match self.next() {
            Next::Literal(literal, behind) => Some((literal, behind)),
            Next::End => None,
            Next::Ident(..) => None,
            Next::Punct(..) => None,
            Next::Group(..) => None,
        }
    }

    /// The visible group with that delimiter that stands there: the place where its inside begins, its spans, and the
    /// place behind it. It is `None` where another group or token or none stands. Of an invisible delimiter there is
    /// none, since invisible groups are passed through.
    #[inline]
    pub fn group(self, delimiter: Delimiter) -> Option<(Cursor<'a>, DelimSpan, Cursor<'a>)>
        ensures some { IfSome result (λ r. Enters self.entry delimiter r.1.join r.0 r.2) }
        ensures spans { IfSome result (λ r. r.1 ≡ delim_span_of r.1.join) }
        ensures none { IfNone result (group_stands delimiter (left self.entry) ≡ false) }
    {
        match self.next() {
            Next::Group(opened, span, inside, behind) if opened == delimiter => {
                Some((inside, DelimSpan::of(span), behind))
            }
            Next::Group(..) => None,
            Next::End => None,
            Next::Ident(..) => None,
            Next::Punct(..) => None,
            Next::Literal(..) => None,
        }
    }

    /// The visible group that stands there: the place where its inside begins, its delimiter, its spans, and the place
    /// behind it. It is `None` where another token or none stands.
    #[inline]
    pub fn any_group(self) -> Option<(Cursor<'a>, Delimiter, DelimSpan, Cursor<'a>)>
        ensures some { IfSome result (λ r. Enters self.entry r.1 r.2.join r.0 r.3) }
        ensures spans { IfSome result (λ r. r.2 ≡ delim_span_of r.2.join) }
        ensures none { IfNone result (any_group_stands (left self.entry) ≡ false) }
    {
        match self.next() {
            Next::Group(delimiter, span, inside, behind) => {
                Some((inside, delimiter, DelimSpan::of(span), behind))
            }
            Next::End => None,
            Next::Ident(..) => None,
            Next::Punct(..) => None,
            Next::Literal(..) => None,
        }
    }

    /// Where the next token stands, of a group all of it. At the end of a group's inside it is the group's
    /// closing mark, and at the end of the whole the call site.
    #[inline]
    pub fn span(self) -> Span
        ensures { result ≡ next_span self.entry.closing (rest self.entry) }
    {
        match self.next() {
            Next::End => self.closing,
            Next::Ident(ident, _) => ident.span(),
            Next::Punct(punct, _) => punct.span(),
            Next::Literal(literal, _) => literal.span(),
            Next::Group(_, span, _, _) => span,
        }
    }

    /// Where the token before the place stands: the one that was taken last, a group's closing mark, or the
    /// opening mark of the group that has been entered. Before the first it is the call site.
    pub fn prev_span(self) -> Span
        ensures { result ≡ self.entry.before }
    {
        self.before
    }

    /// How many entries are left of the list, marks of invisible groups among them. It falls as the place moves on.
    pub fn entries_left(self) -> usize
        ensures { result ≡ ahead self.entry }
    {
        self.entries.len()
    }

    /// What closes the list; of the whole nothing visible does.
    pub fn closer(self) -> Delimiter
        ensures { result ≡ self.entry.closer }
    {
        self.closer
    }

    /// The place at the end of the list.
    pub fn at_end(self) -> Cursor<'a>
        ensures nothing { rest result ≡ [] }
        ensures trees { trees_left result ≡ [] }
        ensures past { IsPast self.entry result }
        ensures end { ahead result ≡ 0 }
        ensures before { result.before ≡ last_end self.entry.before self.entry.entries.now }
    {
        self.past(&[], end_of_last(self.before, self.entries))
    }
}
