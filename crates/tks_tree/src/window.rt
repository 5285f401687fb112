//! A window's number, and what the tree has of it.
ghost use Rattle.std.specs.Prelude.{◌≡◌, ◌==◌};
ghost use Rattle.tks_tree.specs.WellFormed.{is_widget_class};

use std::marker::Model;
use tks_share::Numbered;
use tks_text::{Class, Txt};

/// The number of a window. Numbers are given out from 0, which is that of `.`, and never again.
#[derive(Clone, Copy, Debug, PartialEq, Eq)]
pub struct WindowId {
    number: u64,
}

impl Model for WindowId {
    ghost use Rattle.std.specs.Prelude.{ℕ};

    ghost Value = { ℕ };

    ghost view = { λ id. id.number };

    ghost inverse = { λ n. record { number = n } };
}

impl WindowId {
    /// The number as an id.
    pub fn of(number: u64) -> WindowId
        ensures { result ≡ number }
    {
        WindowId { number }
    }

    /// The number of `.`.
    pub fn root() -> WindowId
        ensures { result ≡ 0 }
    {
        WindowId::of(0)
    }

    /// Whether this is the number of `.`.
    pub fn is_root(self) -> bool
        ensures { result ≡ (self == 0) }
    {
        self.number == 0
    }

    /// The number.
    pub fn number(self) -> u64
        ensures { result ≡ self }
    {
        self.number
    }
}

/// Whether a class is one of windows other than `.`.
pub fn is_widget_class(class: Class) -> bool
    ensures { result ≡ is_widget_class class }
{
    match class {
        Class::Root => false,
        Class::Frame
        | Class::Label
        | Class::Button
        | Class::Checkbutton
        | Class::Entry
        | Class::Listbox
        | Class::Text => true,
    }
}

/// A window, as a tree shows it.
#[derive(Clone, Copy)]
pub struct Window<'a> {
    pub id: WindowId,
    pub path: &'a Txt,
    pub class: Class,
}

/// A window, as a tree keeps it.
#[derive(Drop)]
pub struct Entry {
    pub id: WindowId,
    pub path: Txt,
    pub class: Class,
}

impl Model for Entry {
    ghost use Rattle.tks_tree.specs.Windows as windows;

    ghost Value = { windows.Window };

    ghost view = { λ e. record { number = e.id; path = e.path; class = e.class } };
}

impl Numbered for Entry {
    ghost number_of = { λ w. w.number };

    fn number(&self) -> u64 {
        self.id.number()
    }
}
