//! What stands under the name of a variable.
ghost use Rattle.std.specs.Prelude.{◌≡◌, IfOk, OnErr, None, Some, Ok};
ghost use Rattle.tks_text.specs.Fault.{Gives};
ghost use Rattle.tks_vars.specs.Changing.{ChangesInside};
ghost use Rattle.tks_vars.specs.Meets.{AnswersSo, index_seen};
ghost use Rattle.tks_vars.specs.Names.{IsIndex};
ghost use Rattle.tks_vars.specs.Table.{IsName};
ghost use Rattle.tks_vars.specs.Variables.{about, value_in, updated, taken, is_there, grown_inside};

use crate::table::Table;
use std::alloc::{AllocError, Global};
use tks_list::ListText;
use tks_share::{Change, Copied, Share};
use tks_text::{ErrorNumber, Failure, Txt};

/// What stands under the name of a variable.
#[derive(Drop)]
pub enum Content {
    Scalar(ListText),
    Array(Table<ListText>),
}

/// What stands under a name in a procedure's frame.
#[derive(Drop)]
pub enum Local {
    /// A variable of the procedure's own.
    Own(Content),
    /// A link to the global of the same name.
    Link,
}

impl Content {
    /// A new variable with a value: a scalar, or an array with one element.
    pub fn of(alloc: Global, index: Option<&[u8]>, value: ListText) -> Result<Content, AllocError>
        requires { IsIndex (index_seen index) }
        ensures { IfOk result (λ made. updated None (index_seen index.entry) value ≡ Ok made) }
    {
        match index {
            None => Ok(Content::Scalar(value)),
            Some(index) => {
                let mut elements = Table::new(alloc);
                elements.insert(index, value)?;
                Ok(Content::Array(elements))
            }
        }
    }

    /// The value of the whole variable, or of an element.
    pub fn value(&self, index: Option<&[u8]>) -> Result<&ListText, ErrorNumber>
        ensures { AnswersSo (λ v. v.now) result (value_in (Some self.now) (index_seen index.entry)) }
    {
        match (self, index) {
            (Content::Scalar(value), None) => Ok(value),
            (Content::Array(elements), Some(index)) => {
                elements.get(index).ok_or(ErrorNumber::NoSuchVariable)
            }
            _ => Err(ErrorNumber::WrongKindOfVariable),
        }
    }

    /// Whether the whole variable, or an element, is there.
    pub fn is_there(&self, index: Option<&[u8]>) -> bool
        ensures { result ≡ is_there (Some self.now) (index_seen index.entry) }
    {
        match (self, index) {
            (_, None) => true,
            (Content::Array(elements), Some(index)) => elements.contains(index),
            (Content::Scalar(_), Some(_)) => false,
        }
    }

    /// Gives the whole variable, or an element, a value. The error tells the name.
    pub fn set(&mut self, name: &Txt, index: Option<&[u8]>, value: ListText) -> Result<(), Failure>
        requires { IsIndex (index_seen index) }
        ensures value { Gives (λ _. self.new) result (about name.now (updated (Some self.old) (index_seen index.entry) value)) }
        ensures err { OnErr result (self.new ≡ self.old) }
    {
        match (self, index) {
            (Content::Scalar(held), None) => {
                *held = value;
                Ok(())
            }
            (Content::Array(elements), Some(index)) => {
                elements.insert(index, value)?;
                Ok(())
            }
            _ => Err(Failure::about(ErrorNumber::WrongKindOfVariable, name)),
        }
    }

    /// Changes the value of the whole variable, or of an element, where it stands, if it is there. The error tells the name.
    #[inline(always)]
    pub fn change<C: Change<ListText>>(
        &mut self,
        name: &Txt,
        index: Option<&[u8]>,
        change: &mut C,
    ) -> Result<Option<C::Answer>, Failure>
        ensures { ChangesInside (C.gives change.old) name.now (index_seen index.entry) self.old self.new result }
    {
        match (self, index) {
            (Content::Scalar(value), None) => Ok(Some(change.change(value))),
            (Content::Array(elements), Some(index)) => {
                let answer = elements.change(index, change)?;
                Ok(answer)
            }
            _ => Err(Failure::about(ErrorNumber::WrongKindOfVariable, name)),
        }
    }

    /// How many elements there are, where this one would join them.
    pub fn grown(&self, index: Option<&[u8]>) -> Option<usize>
        ensures { result ≡ grown_inside self.now (index_seen index.entry) }
    {
        match (self, index) {
            (Content::Array(elements), Some(index)) if !elements.contains(index) => {
                Some(elements.len())
            }
            _ => None,
        }
    }

    /// What is left of an array without an element. The error tells the name.
    pub fn left(&self, name: &Txt, index: &[u8]) -> Result<Content, Failure>
        ensures { Gives (λ c. Some c) result (about name.now (taken (Some self.now) (Some index.now))) }
    {
        match self {
            Content::Scalar(_) => Err(Failure::about(ErrorNumber::WrongKindOfVariable, name)),
            Content::Array(elements) => {
                if !elements.contains(index) {
                    return Err(Failure::about(ErrorNumber::NoSuchVariable, name));
                }
                let mut elements = elements.share()?;
                elements.remove(index)?;
                Ok(Content::Array(elements))
            }
        }
    }
}

impl Copied for Content {
    fn copied(&self, _alloc: Global) -> Result<Content, AllocError> {
        match self {
            Content::Scalar(value) => Ok(Content::Scalar(value.try_clone()?)),
            Content::Array(elements) => Ok(Content::Array(elements.share()?)),
        }
    }
}

impl Copied for Local {
    fn copied(&self, alloc: Global) -> Result<Local, AllocError> {
        match self {
            Local::Own(content) => Ok(Local::Own(content.copied(alloc)?)),
            Local::Link => Ok(Local::Link),
        }
    }
}
