//! The messages of an error one by one, and errors put together.

ghost use Rattle.std.specs.Iterator.{item_count};
ghost use Rattle.std.specs.List.{flat_map};
ghost use Rattle.std.specs.Prelude.{◌++◌, ◌≡◌, ◌∷◌, [], IfOk};
ghost use Rattle.syn_error.specs.Left.{GivesCopy, GivesFirst, into_iter_left, iter_left};
ghost use Rattle.syn_error.specs.Messages.{note};

use crate::error::{Error, Message};
use std::alloc::{AllocError, Global};
use std::collections::VecDeque;
use try_clone::TryClone;

/// The messages of an error, in order, each as an error of its own. Each item is refused only where memory is, and
/// the message is passed then too.
#[derive(Clone, Copy, Debug)]
pub struct Iter<'a> {
    pub(crate) first: Option<&'a Message>,
    pub(crate) others: &'a [Message],
    pub(crate) alloc: Global,
}

impl TryClone for Message {
    ghost use Rattle.syn_error.specs.Notes.{Note};

    ghost Shown = { Note };

    ghost shown = { note };

    fn try_clone(&self) -> Result<Message, AllocError> {
        Ok(Message {
            start: self.start,
            end: self.end,
            words: self.words.clone()?,
        })
    }
}

// An error of a copy of the message.
fn copied(alloc: Global, message: &Message) -> Result<Error, AllocError>
    ensures { IfOk result (λ e. e ≡ note message.now ∷ []) }
{
    Ok(Error {
        first: message.try_clone()?,
        others: Vec::new(alloc),
    })
}

impl Error {
    /// The messages, in order, each as an error of its own.
    pub fn iter(&self) -> Iter<'_>
        ensures { iter_left result ≡ self.now }
    {
        Iter {
            first: Some(&self.first),
            others: self.others.as_slice(),
            alloc: *self.others.allocator(),
        }
    }
}

impl Iterator for Iter<'_> {
    type Item = Result<Error, AllocError>;

    ghost next_gives = { GivesCopy iter_left };

    ghost remaining = { item_count iter_left };

    fn next(&mut self) -> Option<Result<Error, AllocError>> {
        if let Some(first) = self.first {
            self.first = None;
            return Some(copied(self.alloc, first));
        }
        let (message, others) = self.others.split_first()?;
        self.others = others;
        Some(copied(self.alloc, message))
    }
}

/// The messages of an error, in order, each as an error of its own. It takes no memory.
#[derive(Debug, Drop)]
pub struct IntoIter {
    pub(crate) first: Option<Message>,
    pub(crate) others: VecDeque<Message>,
    pub(crate) alloc: Global,
}

impl IntoIterator for Error {
    type Item = Error;

    type IntoIter = IntoIter;

    ghost into_iter_gives = { λ error it. into_iter_left it ≡ error };

    fn into_iter(self) -> IntoIter {
        let Error { first, others } = self;
        let alloc = *others.allocator();
        IntoIter {
            first: Some(first),
            others: VecDeque::from_vec(others),
            alloc,
        }
    }
}

impl<'a> IntoIterator for &'a Error {
    type Item = Result<Error, AllocError>;

    type IntoIter = Iter<'a>;

    ghost into_iter_gives = { λ error it. iter_left it ≡ error.now };

    fn into_iter(self) -> Iter<'a> {
        self.iter()
    }
}

impl Iterator for IntoIter {
    type Item = Error;

    ghost next_gives = { GivesFirst into_iter_left };

    ghost remaining = { item_count into_iter_left };

    fn next(&mut self) -> Option<Error> {
        let first = match self.first.take() {
            Some(first) => first,
            None => self.others.pop_front()?,
        };
        Some(Error {
            first,
            others: Vec::new(self.alloc),
        })
    }
}

impl Extend<Error> for Error {
    ghost extend_gives = { λ old errors new. new ≡ old ++ flat_map (λ e. e) errors };

    /// Puts the messages of the errors behind those of this one. Where memory is refused, those of the errors before
    /// the refused one stay.
    fn extend<U: IntoIterator<Item = Error>>(&mut self, errors: U) -> Result<(), AllocError> {
        for error in errors {
            self.combine(error)?;
        }
        Ok(())
    }
}

impl TryClone for Error {
    ghost use Rattle.std.specs.Prelude.{List};
    ghost use Rattle.syn_error.specs.Notes.{Note};

    ghost Shown = { List Note };

    ghost shown = { λ error. error };

    fn try_clone(&self) -> Result<Error, AllocError> {
        Ok(Error {
            first: self.first.try_clone()?,
            others: self.others.try_clone()?,
        })
    }
}
