//! What commands make of the values of variables, where these stand.
ghost use Rattle.std.specs.Prelude.{◌≡◌, OnErr};
ghost use Rattle.tks_text.specs.Text.{IsText};
ghost use Rattle.tks_tcl.specs.Cause.{after};
ghost use Rattle.tks_tcl.specs.Making.{MakesSo, TellsMade};
ghost use Rattle.tks_tcl.specs.Meets.{GivesSo};
ghost use Rattle.tks_tcl.specs.Variables.{value_or, stores, left};

use crate::interrupt::Interrupt;
use crate::variables::store_new;
use std::alloc::Global;
use tks_list::ListText;
use tks_share::Change;
use tks_text::{Limits, Txt};
use tks_vars::Vars;

/// What a command makes of a value.
pub(crate) trait Making: Copy {
    ghost use Rattle.std.specs.Prelude.{List, ℕ, Result};
    ghost use Rattle.tks_tcl.specs.Cause.{Cause};

    // what the value becomes
    ghost makes: { Self → List ℕ → Result (List ℕ) Cause };

    /// Makes it, where it passes no limit. An error leaves the value as it was.
    fn make(self, alloc: Global, value: &mut ListText, limits: &Limits) -> Result<(), Interrupt>
        ensures { MakesSo limits.now (makes self value.old) value.old value.new result };
}

// The change by it.
#[derive(Clone, Copy)]
struct Quietly<'a, M> {
    alloc: Global,
    making: M,
    limits: &'a Limits,
}

impl<M: Making> Change<ListText> for Quietly<'_, M> {
    ghost use Rattle.tks_tcl.specs.Making.{MakesSo};

    type Answer = Result<(), Interrupt>;

    ghost gives = { λ it before. MakesSo it.limits.now (M.makes it.making before) before };

    #[inline(always)]
    fn change(&mut self, value: &mut ListText) -> Result<(), Interrupt> {
        self.making.make(self.alloc, value, self.limits)
    }
}

// The same change. What the value becomes is told.
#[derive(Clone, Copy)]
struct Told<'a, M> {
    alloc: Global,
    making: M,
    limits: &'a Limits,
}

impl<M: Making> Change<ListText> for Told<'_, M> {
    ghost use Rattle.tks_tcl.specs.Making.{TellsMade};

    type Answer = Result<Txt, Interrupt>;

    ghost gives = { λ it before. TellsMade it.limits.now (M.makes it.making before) before };

    #[inline(always)]
    fn change(&mut self, value: &mut ListText) -> Result<Txt, Interrupt> {
        let mut made = value.try_clone()?;
        self.making.make(self.alloc, &mut made, self.limits)?;
        let text = made.as_text().try_clone()?;
        *value = made;
        Ok(text)
    }
}

/// Has the value of a variable or an element become what is made of it, where a missing one counts as a default. It is told.
pub(crate) fn make<M: Making>(
    alloc: Global,
    variables: &mut Vars,
    name: &Txt,
    making: M,
    default: &[u8],
    limits: &Limits,
) -> Result<Txt, Interrupt>
    requires { IsText default.now }
    ensures value { GivesSo (λ t. (t, variables.new)) result (after (after (value_or default.now variables.old name.now) (M.makes making)) (stores limits.now name.now variables.old)) }
    ensures err { OnErr result (variables.new ≡ variables.old) }
{
    let told = Told {
        alloc,
        making,
        limits,
    };
    match variables.change(name, told)? {
        Some(told) => told,
        None => {
            let mut value = ListText::of(Txt::from_text(alloc, default)?);
            making.make(alloc, &mut value, limits)?;
            let text = value.as_text().try_clone()?;
            store_new(variables, name, value, limits)?;
            Ok(text)
        }
    }
}

/// The same, where nobody asks for the answer: the value is changed where it stands.
pub(crate) fn make_quietly<M: Making>(
    alloc: Global,
    variables: &mut Vars,
    name: &Txt,
    making: M,
    default: &[u8],
    limits: &Limits,
) -> Result<(), Interrupt>
    requires { IsText default.now }
    ensures value { GivesSo (λ _. variables.new) result (left (after (after (value_or default.now variables.old name.now) (M.makes making)) (stores limits.now name.now variables.old))) }
    ensures err { OnErr result (variables.new ≡ variables.old) }
{
    let quietly = Quietly {
        alloc,
        making,
        limits,
    };
    match variables.change(name, quietly)? {
        Some(made) => made,
        None => {
            let mut value = ListText::of(Txt::from_text(alloc, default)?);
            making.make(alloc, &mut value, limits)?;
            store_new(variables, name, value, limits)?;
            Ok(())
        }
    }
}
