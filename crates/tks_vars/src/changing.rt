//! Changes of what stands under a name, made where it stands.
ghost use Rattle.std.specs.Prelude.{◌≡◌};
ghost use Rattle.tks_vars.specs.Meets.{index_seen};
ghost use Rattle.tks_vars.specs.Names.{IsIndex, IsIndex-prop};

use crate::content::{Content, Local};
use std::alloc::Global;
use tks_list::{Elements, ListText};
use tks_share::{Change, Shared};
use tks_text::{Failure, Txt};

/// A change of a value, as one of the variable: of its own value, or of an element's. An error tells the name.
#[derive(Clone, Copy)]
pub struct ValueChange<'a, C> {
    pub name: &'a Txt,
    pub index: Option<&'a [u8]>,
    pub change: C,
}

impl<C: Change<ListText>> Change<Content> for ValueChange<'_, C> {
    ghost use Rattle.tks_vars.specs.Changing.{ChangesInside};

    type Answer = Result<Option<C::Answer>, Failure>;

    ghost gives = { λ it. ChangesInside (C.gives it.change) it.name.now (index_seen it.index) };

    #[inline(always)]
    fn change(&mut self, content: &mut Content) -> Result<Option<C::Answer>, Failure> {
        content.change(self.name, self.index, &mut self.change)
    }
}

/// A change of a variable, as one of what stands under a name of a procedure's frame. A link is left as it is, and told as none.
#[derive(Clone, Copy)]
pub struct OwnChange<K> {
    pub change: K,
}

impl<K: Change<Content>> Change<Local> for OwnChange<K> {
    ghost use Rattle.tks_vars.specs.Changing.{ChangesOwn};

    type Answer = Option<K::Answer>;

    ghost gives = { λ it. ChangesOwn (K.gives it.change) };

    #[inline(always)]
    fn change(&mut self, local: &mut Local) -> Option<K::Answer> {
        match local {
            Local::Own(content) => Some(self.change.change(content)),
            Local::Link => None,
        }
    }
}

/// The value that is given to the variable with this name, or to an element of it, which may be new.
#[derive(Clone, Copy)]
pub struct Setting<'a> {
    pub name: &'a Txt,
    pub index: Option<&'a [u8]>,
    pub value: &'a ListText,
    ghost spelled: { IsIndex (index_seen index) } by { IsIndex-prop (index_seen index) },
}

impl Change<Content> for Setting<'_> {
    ghost use Rattle.std.specs.Prelude.{Some};
    ghost use Rattle.tks_vars.specs.Changing.{GivenSo};
    ghost use Rattle.tks_vars.specs.Variables.{updated};

    type Answer = Result<(), Failure>;

    ghost gives = { λ it before. GivenSo it.name.now (updated (Some before) (index_seen it.index) it.value.now) before };

    fn change(&mut self, content: &mut Content) -> Result<(), Failure> {
        let value = self.value.try_clone()?;
        content.set(self.name, self.index, value)
    }
}

/// A value that is to keep the list that it splits into: the list is told.
#[derive(Clone, Copy)]
pub struct KeepList {
    pub alloc: Global,
}

impl Change<ListText> for KeepList {
    ghost use Rattle.tks_vars.specs.Changing.{KeepsSo};

    type Answer = Option<Shared<Elements>>;

    ghost gives = { λ _. KeepsSo };

    fn change(&mut self, value: &mut ListText) -> Option<Shared<Elements>> {
        value.keep_list(self.alloc);
        value.list()
    }
}

/// Where a name of the present frame led.
#[derive(Drop)]
pub enum Reached<A> {
    /// To what was changed, with this answer.
    Changed(A),
    /// To nothing, among the variables of a procedure's own.
    Nowhere,
    /// To the globals: the frame is none of a procedure, or the name is a link.
    Global,
}
