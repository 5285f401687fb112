//! Labels, buttons and checkbuttons: widgets with a caption (label(n), button(n), checkbutton(n)).
ghost use Rattle.std.specs.Prelude.{◌≡◌, true, IfOk, OnErr, option_map};
ghost use Rattle.tks_text.specs.Fault.{Gives};
ghost use Rattle.tks_text.specs.declared.class.Class.TheVariants as class;
ghost use Rattle.tks_opt.specs.Options.{first_options, configured, replaced};
ghost use Rattle.tks_opt.specs.declared.name.OptionName.TheVariants as name;
ghost use Rattle.tks_button.specs.Caption.{has_caption, restored, called, variable_of, is_on, assignment, assigned, first_assigned, requested_width, requested_height, shown};
ghost use Rattle.tks_button.specs.Sizes.{text_of};

use crate::mark::MARK_WIDTH;
use crate::{button, checkbutton, label};
use std::alloc::{AllocError, Global};
use std::marker::Model;
use tks_opt::{OptionName, Options, Said};
use tks_text::{Class, Failure, Seq, Txt};

/// A widget with a caption, a text of one or more lines: a label (label(n)), a button (button(n)), or a checkbutton
/// (checkbutton(n)), which is on or off as its variable says. The variable is kept by the caller, who reads and sets
/// it. Contracts see the options, which say the class too.
pub struct Caption {
    alloc: Global,
    options: Options,
}

// Written out, so that to let go of it is one step for whoever owns it.
impl Drop for Caption {
    fn drop(self) {
        let Caption {
            alloc: _,
            options: _,
        } = self;
    }
}

impl Model for Caption {
    ghost use Rattle.std.specs.Prelude.{◌≡◌, true};
    ghost use Rattle.tks_opt.specs.Options.{Options};
    ghost use Rattle.tks_button.specs.Caption.{has_caption};

    ghost Value = { Options };

    ghost view = { λ c. c.options };

    ghost invariant = { λ c. has_caption c.options.class ≡ true };
}

/// A variable, and the value that it is given.
#[derive(Drop)]
pub struct Assignment {
    pub variable: Txt,
    pub value: Txt,
}

impl Caption {
    /// The widget of this class that is made under a path. The last part of the path is the name of a checkbutton's
    /// variable.
    pub fn new(alloc: Global, class: Class, path: &Txt) -> Result<Caption, AllocError>
        requires { has_caption class ≡ true }
        ensures { IfOk result (λ c. c ≡ first_options class path.now) }
    {
        let options = Options::new(alloc, class, path)?;
        Ok(Caption { alloc, options })
    }

    /// The widget that has these options, so that one is made again from what it had: none where they are those of a
    /// class without a caption.
    pub fn restore(alloc: Global, options: Options) -> Option<Caption>
        ensures { result ≡ restored options }
    {
        match options.class() {
            Class::Label | Class::Button | Class::Checkbutton => Some(Caption { alloc, options }),
            _ => None,
        }
    }

    /// Its options.
    pub fn options(&self) -> &Options
        ensures value { result.now ≡ self.now }
        ensures class { has_caption self.now.class ≡ true }
    {
        &self.options
    }

    /// Its text.
    #[tactic(auto, using(crate::proofs::Captions::has_text))]
    pub fn text(&self) -> &Txt
        ensures { result.now ≡ text_of self.now }
    {
        self.options.own_value(OptionName::Text)
    }

    /// The name of a checkbutton's variable, a global one; the other classes have none.
    pub fn variable(&self) -> Option<&Txt>
        ensures { option_map (λ v. v.now) result ≡ variable_of self.now }
    {
        match self.options.class() {
            Class::Checkbutton => Some(checkbutton::variable(&self.options)),
            _ => None,
        }
    }

    /// Whether a checkbutton is on where its variable has this value, or none: the value is that of `-onvalue`.
    /// Widgets of the other classes are never on.
    pub fn is_on(&self, value: Option<&Txt>) -> bool
        ensures { result ≡ is_on self.now (option_map (λ v. v.now) value.entry) }
    {
        match self.options.class() {
            Class::Checkbutton => checkbutton::is_on(&self.options, value),
            _ => false,
        }
    }

    // What a checkbutton gives its variable to be on, or off.
    fn assignment(&self, on: bool) -> Result<Assignment, AllocError>
        requires { self.now.class ≡ class.Checkbutton }
        ensures { IfOk result (λ a. a ≡ assignment self.now on) }
    {
        Ok(Assignment {
            variable: checkbutton::variable(&self.options).try_clone()?,
            value: checkbutton::value_when(&self.options, on).try_clone()?,
        })
    }

    /// What the words of a whole command give a checkbutton's variable, where they give it something, by the value
    /// that it has before, if it has one. The caller sets the variable so before it runs a script that `call` answers.
    pub fn assigned(
        &self,
        words: &[Txt],
        value: Option<&Txt>,
    ) -> Result<Option<Assignment>, AllocError>
        ensures { IfOk result (λ a. a ≡ assigned self.now words.now (option_map (λ v. v.now) value.entry)) }
    {
        let Class::Checkbutton = self.options.class() else {
            return Ok(None);
        };
        match checkbutton::turned(&self.options, words, self.is_on(value)) {
            Some(on) => Ok(Some(self.assignment(on)?)),
            None => Ok(None),
        }
    }

    /// What a checkbutton that is made gives its variable, where that is missing.
    pub fn first_assigned(&self) -> Result<Option<Assignment>, AllocError>
        ensures { IfOk result (λ a. a ≡ first_assigned self.now) }
    {
        match self.options.class() {
            Class::Checkbutton => Ok(Some(self.assignment(false)?)),
            _ => Ok(None),
        }
    }

    /// How many cells wide it asks to be: as `-width` says, or, where that is 0, as its longest line is; a checkbutton
    /// four more, for what stands before its lines.
    pub fn requested_width(&self) -> usize
        ensures { result ≡ requested_width self.now }
    {
        match self.options.class() {
            Class::Checkbutton => MARK_WIDTH + label::requested_width(&self.options),
            _ => label::requested_width(&self.options),
        }
    }

    /// How many cells high it asks to be: one for each line.
    pub fn requested_height(&self) -> usize
        ensures { result ≡ requested_height self.now }
    {
        label::requested_height(&self.options)
    }

    /// The characters of its area, row by row: its lines as a block, where `-anchor` says. Where the area is too
    /// narrow, lines are shown from their first characters on, and where it is too low, from the first line on. Before
    /// a checkbutton's first line stands `[x] ` or `[ ] `, as it is on or off, and four spaces before its others.
    pub fn shown(&self, width: usize, height: usize, on: bool) -> Result<Seq<Seq<u8>>, AllocError>
        ensures { IfOk result (λ cells. cells ≡ shown self.now width height on) }
    {
        match self.options.class() {
            Class::Checkbutton => {
                let cells = checkbutton::shown(self.alloc, &self.options, width, height, on)?;
                Ok(cells)
            }
            _ => {
                let cells = label::shown(self.alloc, &self.options, width, height)?;
                Ok(cells)
            }
        }
    }

    /// Gives options values: words that are names and values in turn, from left to right. An option that the class
    /// lacks, and a value that it may not have, are errors about the name, and leave all as it was.
    pub fn configure(&mut self, pairs: &[Txt]) -> Result<(), Failure>
        ensures value { Gives (λ _. self.new) result (configured self.old pairs.now) }
        ensures err { OnErr result (self.new ≡ self.old) }
        ensures class { self.new.class ≡ self.old.class }
    {
        self.options.configure(pairs)?;
        Ok(())
    }

    /// What the words of a whole command come to, the widget's path first. `invoke` of a button or a checkbutton
    /// answers what the script of `-command` does, once the caller has run it, and the empty text where `-state` is
    /// `disabled`. A checkbutton's `select`, `deselect` and `toggle` answer the empty text; what they make of its being
    /// on is `assigned`'s.
    pub fn call(&mut self, words: &[Txt]) -> Result<Said, Failure>
        ensures value { Gives (λ said. (said, self.new)) result (called self.old words.now) }
        ensures err { OnErr result (self.new ≡ self.old) }
        ensures class { self.new.class ≡ self.old.class }
    {
        let said = match self.options.class() {
            Class::Button => button::call(self.alloc, &mut self.options, words)?,
            Class::Checkbutton => checkbutton::call(self.alloc, &mut self.options, words)?,
            _ => self.options.call(words)?,
        };
        Ok(said)
    }

    /// The same widget with another text.
    pub fn with_text(&self, text: &Txt) -> Result<Caption, AllocError>
        ensures { IfOk result (λ c. c ≡ record self.now { values = replaced self.now.values name.Text text.now }) }
    {
        Ok(Caption {
            alloc: self.alloc,
            options: self.options.with_text(text)?,
        })
    }

    /// An equal widget.
    pub fn try_clone(&self) -> Result<Caption, AllocError>
        ensures { IfOk result (λ c. c ≡ self.now) }
    {
        Ok(Caption {
            alloc: self.alloc,
            options: self.options.try_clone()?,
        })
    }
}
