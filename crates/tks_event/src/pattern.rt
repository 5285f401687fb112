//! Patterns of events.
ghost use Rattle.std.specs.Prelude.{◌≡◌, IfOk};

use crate::kind::Kind;
use crate::modifiers::Modifiers;
use std::alloc::{AllocError, Global};
use std::default::MadeWith;
use tks_text::Txt;

/// Which events one place of a sequence fits.
#[derive(Debug, Drop)]
pub struct Pattern {
    /// Whether the event comes close behind that of the pattern before: no more than 500 milliseconds later and, at
    /// buttons, in the same cell.
    pub near: bool,
    pub kind: Kind,
    /// The modifiers that are held, others beside them or not.
    pub modifiers: Modifiers,
    /// A keysym, a button's number or a virtual event's name; empty where any will do.
    pub detail: Txt,
}

impl Pattern {
    /// An equal pattern.
    pub fn try_clone(&self) -> Result<Pattern, AllocError>
        ensures { IfOk result (λ p. p ≡ self.now) }
    {
        Ok(Pattern {
            near: self.near,
            kind: self.kind,
            modifiers: self.modifiers,
            detail: self.detail.try_clone()?,
        })
    }
}

impl MadeWith<Global> for Pattern {
    fn made_with(alloc: Global) -> Pattern {
        Pattern {
            near: false,
            kind: Kind::KeyPress,
            modifiers: Modifiers::none(),
            detail: Txt::new(alloc),
        }
    }
}

/// A pattern that stands alone, and how often its repeat word lets it come.
#[derive(Debug, Drop)]
pub struct Repeated {
    /// Not near.
    pub pattern: Pattern,
    /// 1 without a repeat word, 2 for `Double`, 3 for `Triple`, 4 for `Quadruple`.
    pub times: u8,
}
