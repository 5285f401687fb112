//! What a widget answers to the words of a command, or what they are to change of it.
ghost use Rattle.std.specs.Prelude.{◌≡◌, OnErr};
ghost use Rattle.tks_text.specs.Fault.{Gives};
ghost use Rattle.tks_state.specs.Widget.{class_of, called};
ghost use Rattle.tks_state.specs.Asking.{AsksSo, changed};
ghost use Rattle.tks_state.specs.declared.asking.WidgetChange.TheVariants as changes;
ghost use Rattle.tks_state.specs.declared.widget.Widget.TheVariants as widget;

use crate::widget::Widget;
use std::alloc::Global;
use tks_lines::TextWidget;
use tks_listbox::ListWidget;
use tks_opt::Said;
use tks_text::{Failure, Txt};

/// A change of a widget that the words of a command say.
#[derive(Clone, Copy)]
pub(crate) enum WidgetChange<'w> {
    Listbox(tks_listbox::Change<'w>),
    Text(tks_lines::Change<'w>),
    /// Of a widget of another class: the words themselves, the window's path first.
    Words(&'w [Txt]),
}

/// What words come to before anything has changed.
#[derive(Drop)]
pub(crate) enum Asked<'w> {
    /// This answer; nothing changes.
    Said(Said),
    Changes(WidgetChange<'w>),
}

fn ask_listbox<'w>(listbox: &ListWidget, words: &'w [Txt]) -> Result<Asked<'w>, Failure>
    ensures { AsksSo (λ c. changed c (widget.Listbox listbox.now)) result (called (widget.Listbox listbox.now) words.now) (widget.Listbox listbox.now) }
{
    match listbox.read(words) {
        Ok(tks_listbox::Subcommand::Asks(question)) => {
            let said = listbox.answer(question)?;
            Ok(Asked::Said(said))
        }
        Ok(tks_listbox::Subcommand::Changes(change)) => {
            Ok(Asked::Changes(WidgetChange::Listbox(change)))
        }
        Err(failure) => Err(failure),
    }
}

fn ask_text<'w>(text: &TextWidget, words: &'w [Txt]) -> Result<Asked<'w>, Failure>
    ensures { AsksSo (λ c. changed c (widget.Text text.now)) result (called (widget.Text text.now) words.now) (widget.Text text.now) }
{
    match text.read(words) {
        Ok(tks_lines::Subcommand::Asks(question)) => {
            let said = text.answer(question)?;
            Ok(Asked::Said(said))
        }
        Ok(tks_lines::Subcommand::Changes(change)) => {
            Ok(Asked::Changes(WidgetChange::Text(change)))
        }
        Err(failure) => Err(failure),
    }
}

impl Widget {
    /// What the words of a whole command come to, the window's path first: the answer, where they change nothing that can be
    /// told without a copy, or the change that they say.
    pub(crate) fn ask<'w>(&self, words: &'w [Txt]) -> Result<Asked<'w>, Failure>
        ensures { AsksSo (λ c. changed c self.now) result (called self.now words.now) self.now }
    {
        match self {
            Widget::Listbox(listbox) => ask_listbox(listbox, words),
            Widget::Text(text) => ask_text(text, words),
            Widget::Frame(_) | Widget::Caption(_) | Widget::Entry(_) => {
                Ok(Asked::Changes(WidgetChange::Words(words)))
            }
        }
    }

    // Makes a listbox's change; of a widget of another class nothing is changed.
    fn change_listbox(
        &mut self,
        alloc: Global,
        change: tks_listbox::Change<'_>,
    ) -> Result<Said, Failure>
        ensures value { Gives (λ said. (said, self.new)) result (changed (changes.Listbox change.entry) self.old) }
        ensures err { OnErr result (self.new ≡ self.old) }
        ensures class { class_of self.new ≡ class_of self.old }
    {
        match self {
            Widget::Listbox(listbox) => {
                listbox.change(change)?;
                Ok(Said::Text(Txt::new(alloc)))
            }
            Widget::Frame(_) | Widget::Caption(_) | Widget::Entry(_) | Widget::Text(_) => {
                Ok(Said::Text(Txt::new(alloc)))
            }
        }
    }

    // Makes a text's change; of a widget of another class nothing is changed.
    fn change_text(&mut self, alloc: Global, change: tks_lines::Change<'_>) -> Result<Said, Failure>
        ensures value { Gives (λ said. (said, self.new)) result (changed (changes.Text change.entry) self.old) }
        ensures err { OnErr result (self.new ≡ self.old) }
        ensures class { class_of self.new ≡ class_of self.old }
    {
        match self {
            Widget::Text(text) => {
                text.change(change)?;
                Ok(Said::Text(Txt::new(alloc)))
            }
            Widget::Frame(_) | Widget::Caption(_) | Widget::Entry(_) | Widget::Listbox(_) => {
                Ok(Said::Text(Txt::new(alloc)))
            }
        }
    }

    /// Makes a change that words said of it.
    pub(crate) fn change(
        &mut self,
        alloc: Global,
        change: WidgetChange<'_>,
    ) -> Result<Said, Failure>
        ensures value { Gives (λ said. (said, self.new)) result (changed change.entry self.old) }
        ensures err { OnErr result (self.new ≡ self.old) }
        ensures class { class_of self.new ≡ class_of self.old }
    {
        match change {
            WidgetChange::Listbox(change) => {
                let said = self.change_listbox(alloc, change)?;
                Ok(said)
            }
            WidgetChange::Text(change) => {
                let said = self.change_text(alloc, change)?;
                Ok(said)
            }
            WidgetChange::Words(words) => {
                let said = self.call(words)?;
                Ok(said)
            }
        }
    }
}
