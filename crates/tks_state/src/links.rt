//! Widgets and the globals that they show.
ghost use Rattle.std.specs.Prelude.{◌≡◌, true, is_some, IfOk, option_map};
ghost use Rattle.tks_opt.specs.Options.{Options, value_in};
ghost use Rattle.tks_state.specs.Widget.{class_of, options_of};
ghost use Rattle.tks_state.specs.Laid.{AreSame};
ghost use Rattle.tks_state.specs.Links.{AsksAs, assigned, first_assigned, global_if, is_on, link_of, linked, or_empty, requested, seen, shown, switch_value, text_of, with_text};

use crate::widget::Widget;
use std::alloc::{AllocError, Global};
use tks_button::{Assignment, Caption};
use tks_opt::OptionName;
use tks_pack::Extent;
use tks_share::Copied;
use tks_text::{Seq, Txt};
use tks_vars::Vars;

// The value of a global, if it can be read.
fn global_if<'a>(variables: &'a Vars, name: &Txt) -> Option<&'a Txt>
    ensures { option_map (λ v. v.now) result ≡ global_if variables.now name.now }
{
    match variables.get_global(name) {
        Ok(value) => Some(value),
        Err(_) => None,
    }
}

// The value of a checkbutton's variable, if it can be read.
fn switch_value<'a>(variables: &'a Vars, caption: &Caption) -> Option<&'a Txt>
    ensures { option_map (λ v. v.now) result ≡ switch_value variables.now caption.now }
{
    match caption.variable() {
        Some(name) => global_if(variables, name),
        None => None,
    }
}

// Whether two sizes are the same.
pub(crate) fn are_same(first: Extent, second: Extent) -> bool
    ensures same { result ≡ true → first ≡ second }
    ensures where_same { first ≡ second → result ≡ true }
{
    first.width == second.width && first.height == second.height
}

/// Whether there are two extents, and they are the same.
pub(crate) fn are_same_if_any(first: Option<Extent>, second: Option<Extent>) -> bool
    ensures same { result ≡ true → AreSame first second }
    ensures where_same { AreSame first second → result ≡ true }
{
    match (first, second) {
        (Some(first), Some(second)) => are_same(first, second),
        _ => false,
    }
}

impl Widget {
    /// The name of the global that its text is linked to, if any.
    #[tactic(auto, unfolding(crate::specs::Links::link_of))]
    pub fn link(&self) -> Option<&Txt>
        ensures { option_map (λ v. v.now) result ≡ link_of self.now }
    {
        match self.options().value(OptionName::TextVariable) {
            Some(name) if !name.is_empty() => Some(name),
            _ => None,
        }
    }

    // The text of one that may show a global; the others have none.
    #[tactic(auto, unfolding(crate::specs::Links::text_of))]
    fn text(&self) -> Option<&Txt>
        ensures { or_empty (option_map (λ t. t.now) result) ≡ text_of self.now }
    {
        match self {
            Widget::Frame(_) | Widget::Listbox(_) | Widget::Text(_) => None,
            Widget::Caption(caption) => Some(caption.text()),
            Widget::Entry(entry) => Some(entry.text()),
        }
    }

    /// A copy of the text of one that may show a global; that of another is empty.
    pub fn copied_text(&self, alloc: Global) -> Result<Txt, AllocError>
        ensures { IfOk result (λ t. t ≡ text_of self.now) }
    {
        match self.text() {
            Some(text) => text.try_clone(),
            None => Ok(Txt::new(alloc)),
        }
    }

    /// A copy of the name that its text is linked to.
    pub fn copied_link(&self) -> Result<Option<Txt>, AllocError>
        ensures { IfOk result (λ name. name ≡ link_of self.now) }
    {
        match self.link() {
            Some(name) => Ok(Some(name.try_clone()?)),
            None => Ok(None),
        }
    }

    /// The same widget with another text, where it may show a global.
    #[tactic(auto, unfolding(crate::specs::Links::with_text))]
    pub fn with_text(&self, text: &Txt) -> Result<Widget, AllocError>
        ensures value { IfOk result (λ w. w ≡ with_text text.now self.now) }
        ensures class { IfOk result (λ w. class_of w ≡ class_of self.now) }
    {
        match self {
            Widget::Frame(frame) => Ok(Widget::Frame(frame.try_clone()?)),
            Widget::Caption(caption) => Ok(Widget::Caption(caption.with_text(text)?)),
            Widget::Entry(entry) => Ok(Widget::Entry(entry.with_text(text)?)),
            Widget::Listbox(listbox) => Ok(Widget::Listbox(listbox.try_clone()?)),
            Widget::Text(lines) => Ok(Widget::Text(lines.try_clone()?)),
        }
    }

    /// The widget as it is seen: while it is linked its text is the global's.
    #[tactic(auto, unfolding(crate::specs::Links::seen))]
    pub fn seen(&self, alloc: Global, variables: &Vars) -> Result<Widget, AllocError>
        ensures value { IfOk result (λ w. w ≡ seen variables.now self.now) }
        ensures class { IfOk result (λ w. class_of w ≡ class_of self.now) }
    {
        let Some(name) = self.link() else {
            return self.copied(alloc);
        };
        match global_if(variables, name) {
            Some(text) => self.with_text(text),
            None => self.with_text(&Txt::new(alloc)),
        }
    }

    /// How large the widget asks to be as it is seen.
    #[tactic(auto, unfolding(crate::specs::Links::requested, crate::specs::Links::seen))]
    pub fn requested_as_seen(&self, alloc: Global, variables: &Vars) -> Result<Extent, AllocError>
        ensures { IfOk result (λ e. e ≡ requested variables.now self.now) }
    {
        if self.link().is_none() {
            return Ok(self.requested());
        }
        Ok(self.seen(alloc, variables)?.requested())
    }

    // Whether its text is linked to a global.
    pub(crate) fn is_linked(&self) -> bool
        ensures { result ≡ is_some (link_of self.now) }
    {
        self.link().is_some()
    }

    // Whether an option has one value for both.
    fn has_same(&self, other: &Widget, name: OptionName) -> bool
        ensures same { result ≡ true → value_in (options_of self.now).values name ≡ value_in (options_of other.now).values name }
        ensures where_same { value_in (options_of self.now).values name ≡ value_in (options_of other.now).values name → result ≡ true }
    {
        let Some(own) = self.options().value(name) else {
            return other.options().value(name).is_none();
        };
        match other.options().value(name) {
            Some(others) => own == others,
            None => false,
        }
    }

    // Whether both are entries that show one global, as wide as each other: with its value they ask for the same room.
    fn is_entry_as(&self, other: &Widget) -> bool
        requires { is_some (link_of self.now) ≡ true }
        ensures { result ≡ true → AsksAs self.now other.now }
    {
        let Widget::Entry(_) = self else {
            return false;
        };
        let Widget::Entry(_) = other else {
            return false;
        };
        if !self.has_same(other, OptionName::TextVariable) {
            return false;
        }
        self.has_same(other, OptionName::Width)
    }

    /// Whether it asks for as much room as another, whatever the variables are. Of one that is linked this is known where both
    /// are entries.
    pub fn asks_as(&self, other: &Widget) -> bool
        ensures { result ≡ true → AsksAs self.now other.now }
    {
        if self.is_linked() {
            return self.is_entry_as(other);
        }
        if other.is_linked() {
            return false;
        }
        are_same(self.requested(), other.requested())
    }

    /// Whether a checkbutton is on.
    #[tactic(auto, unfolding(crate::specs::Links::is_on))]
    pub fn is_on(&self, variables: &Vars) -> bool
        ensures { result ≡ is_on variables.now self.now }
    {
        match self {
            Widget::Caption(caption) => caption.is_on(switch_value(variables, caption)),
            _ => false,
        }
    }

    /// What the words of a whole command give the variable of a checkbutton, where they give it something.
    #[tactic(auto, unfolding(crate::specs::Links::assigned))]
    pub fn assigned(
        &self,
        variables: &Vars,
        words: &[Txt],
    ) -> Result<Option<Assignment>, AllocError>
        ensures { IfOk result (λ a. a ≡ assigned variables.now self.now words.now) }
    {
        match self {
            Widget::Caption(caption) => caption.assigned(words, switch_value(variables, caption)),
            _ => Ok(None),
        }
    }

    /// What a checkbutton that is made gives its variable, where that is missing.
    #[tactic(auto, unfolding(crate::specs::Links::first_assigned))]
    pub fn first_assigned(&self) -> Result<Option<Assignment>, AllocError>
        ensures { IfOk result (λ a. a ≡ first_assigned self.now) }
    {
        match self {
            Widget::Caption(caption) => caption.first_assigned(),
            _ => Ok(None),
        }
    }

    /// The characters that the widget shows in an area as it is seen, row by row.
    #[tactic(auto, unfolding(crate::specs::Links::shown, crate::specs::Links::seen))]
    pub fn shown_as_seen(
        &self,
        alloc: Global,
        variables: &Vars,
        width: usize,
        height: usize,
    ) -> Result<Seq<Seq<u8>>, AllocError>
        ensures { IfOk result (λ cells. cells ≡ shown variables.now self.now width height) }
    {
        let on = self.is_on(variables);
        if self.link().is_none() {
            let cells = self.shown(on, width, height)?;
            return Ok(cells);
        }
        let cells = self.seen(alloc, variables)?.shown(on, width, height)?;
        Ok(cells)
    }
}
