//! Where the windows lie, kept until something changes that may move one.
ghost use Rattle.std.specs.Prelude.{◌≡◌, if◌then◌else◌, None, Some, IfOk, IfSome, option_map};
ghost use Rattle.tks_state.specs.Links.{AsksAs};

use crate::kept::Kept;
use crate::layout::Placed;
use crate::widget::Widget;
use std::alloc::{AllocError, Global};
use std::marker::Model;
use tks_pack::Extent;
use tks_share::{Share, Shared};
use tks_tree::WindowId;

/// How much room a window asked for that shows a global.
#[derive(Clone, Copy, Debug)]
pub struct Asked {
    pub window: WindowId,
    pub size: Extent,
}

/// The windows that are shown, in drawing order, while those that show globals ask for this.
#[derive(Drop)]
pub struct Laid {
    pub shown: Vec<Placed>,
    pub asked: Vec<Asked>,
}

impl Model for Laid {
    ghost use Rattle.tks_state.specs.Laid.{Laid};

    ghost Value = { Laid };

    ghost view = { λ l. record { shown = l.shown.items; asked = l.asked.items } };
}

/// Where the windows lie, where it is known. Copies share it.
pub struct Places {
    laid: Option<Shared<Laid>>,
}

// Written out, so that to let go of it is one step for whoever owns it.
impl Drop for Places {
    fn drop(self) {
        let Places { laid: _ } = self;
    }
}

impl Model for Places {
    ghost use Rattle.std.specs.Prelude.{Option};
    ghost use Rattle.tks_state.specs.Laid.{Laid};

    ghost Value = { Option Laid };

    ghost view = { λ p. p.laid };
}

impl Places {
    /// Nothing is known.
    pub fn unknown() -> Places
        ensures { result ≡ None }
    {
        Places { laid: None }
    }

    /// The windows lie so.
    pub fn known(alloc: Global, laid: Laid) -> Result<Places, AllocError>
        ensures { IfOk result (λ p. p ≡ Some laid) }
    {
        Ok(Places {
            laid: Some(Shared::new(alloc, laid)?),
        })
    }

    /// How they lie, where it is known.
    pub fn get(&self) -> Option<&Laid>
        ensures { option_map (λ l. l.now) result ≡ self.now }
    {
        match &self.laid {
            Some(laid) => Some(laid.get()),
            None => None,
        }
    }

    /// The same where they stay, else nothing.
    pub fn kept_if(self, stays: bool) -> Places
        ensures { result ≡ (if stays then self else None) }
    {
        if stays { self } else { Places::unknown() }
    }

    /// What is still known where a window becomes another widget: all where that asks for as much room, else nothing.
    pub fn with_widget(&self, kept: Option<&Kept>, widget: &Widget) -> Result<Places, AllocError>
        ensures { IfOk result (λ p. IfSome p (λ laid. (self.now ≡ Some laid) × IfSome (option_map (λ k. k.now) kept.entry) (λ k. AsksAs k.widget widget.now))) }
    {
        match kept {
            Some(kept) if !kept.widget.get().asks_as(widget) => Ok(Places::unknown()),
            _ => self.share(),
        }
    }
}

impl Share for Places {
    fn share(&self) -> Result<Places, AllocError> {
        match &self.laid {
            Some(laid) => Ok(Places {
                laid: Some(laid.share()?),
            }),
            None => Ok(Places::unknown()),
        }
    }
}
