//! The text widget: characters in lines, tags, marks (text(n)).
ghost use Rattle.std.specs.Prelude.{◌≡◌, ◌<◌, ◌^◌, ◌∷◌, ◌++◌, [], length, IfOk, OnErr};
ghost use Rattle.tks_text.specs.Fault.{Gives};
ghost use Rattle.tks_text.specs.Text.{IsText};
ghost use Rattle.tks_text.specs.Short.{IsShort};
ghost use Rattle.tks_text.specs.declared.class.Class.TheVariants as class;
ghost use Rattle.tks_opt.specs.Options.{configured};
ghost use Rattle.tks_lines.specs.Lines.{Formed, first_mark, first_lines};

use crate::lined_text::LinedText;
use crate::marks::Marks;
use crate::parts::{Mark, Tag};
use crate::tags::Tags;
use std::alloc::{AllocError, Global};
use std::marker::Model;
use tks_opt::Options;
use tks_text::{Class, Failure, Seq, Txt};

/// A text widget (text(n)): characters in lines, with tags on them and marks between them.
pub struct TextWidget {
    pub(crate) alloc: Global,
    pub(crate) options: Options,
    pub(crate) text: LinedText,
    pub(crate) tags: Tags,
    pub(crate) marks: Marks,
}

// Written out, so that to let go of it is one step for whoever owns it.
impl Drop for TextWidget {
    fn drop(self) {
        let TextWidget {
            alloc: _,
            options: _,
            text: _,
            tags: _,
            marks: _,
        } = self;
    }
}

impl Model for TextWidget {
    ghost use Rattle.tks_lines.specs.Lines.{Lines, Formed};

    ghost Value = { Lines };

    ghost view = { λ t. record { options = t.options; text = t.text; tags = t.tags; marks = t.marks } };

    ghost invariant = { λ t. Formed (record { options = t.options; text = t.text; tags = t.tags; marks = t.marks }) };
}

// The mark that every text widget has.
fn first_marks(alloc: Global) -> Result<Marks, AllocError>
    ensures { IfOk result (λ marks. marks ≡ first_mark ∷ []) }
{
    let mut marks = Seq::new(alloc);
    marks.push(Mark {
        name: Txt::from_text(alloc, b"insert")?,
        place: 0,
        left: false,
    })?;
    Ok(Marks::of(marks))
}

impl TextWidget {
    /// The text widget that is made under a path: without characters and tags, with the mark `insert`.
    pub fn new(alloc: Global, path: &Txt) -> Result<TextWidget, AllocError>
        ensures { IfOk result (λ t. t ≡ first_lines path.now) }
    {
        let options = Options::new(alloc, Class::Text, path)?;
        let marks = first_marks(alloc)?;
        Ok(TextWidget {
            alloc,
            options,
            text: LinedText::of(alloc, &Txt::new(alloc))?,
            tags: Tags::new(alloc),
            marks,
        })
    }

    /// Its options.
    pub fn options(&self) -> &Options
        ensures value { result.now ≡ self.now.options }
        ensures class { self.now.options.class ≡ class.Text }
    {
        &self.options
    }

    /// How many characters it has, but for the last newline.
    pub fn len(&self) -> usize
        ensures value { result ≡ length self.now.text }
        ensures bound { result < 2 ^ 32 }
    {
        self.text.len()
    }

    /// Its characters, but for the last newline, in three pieces, of which each stands behind the one before it.
    pub fn pieces(&self) -> (&[u8], &[u8], &[u8])
        ensures value { result.0.now ++ (result.1.now ++ result.2.now) ≡ self.now.text }
        ensures text { IsText result.0.now × (IsText result.1.now × IsText result.2.now) }
        ensures short { IsShort self.now.text }
    {
        self.text.pieces()
    }

    /// Its tags, in the order in which they were made.
    pub fn tags(&self) -> &[Tag]
        ensures value { result.now ≡ self.now.tags }
        ensures short { IsShort self.now.tags }
    {
        self.tags.as_slice()
    }

    /// Its marks: `insert`, then the others in the order in which they were made. None is behind the last newline.
    pub fn marks(&self) -> &[Mark]
        ensures value { result.now ≡ self.now.marks }
        ensures short { IsShort self.now.marks }
        ensures formed { Formed self.now }
    {
        self.marks.as_slice()
    }

    /// Gives options values: words that are names and values in turn, from left to right. An option that a text widget
    /// lacks, and a value that it may not have, are errors about the name, and leave all as it was.
    pub fn configure(&mut self, pairs: &[Txt]) -> Result<(), Failure>
        ensures value { Gives (λ _. self.new.options) result (configured self.old.options pairs.now) }
        ensures others { self.new ≡ record self.old { options = self.new.options } }
        ensures err { OnErr result (self.new ≡ self.old) }
        ensures class { self.new.options.class ≡ self.old.options.class }
    {
        self.options.configure(pairs)?;
        Ok(())
    }

    /// An equal text widget.
    pub fn try_clone(&self) -> Result<TextWidget, AllocError>
        ensures { IfOk result (λ t. t ≡ self.now) }
    {
        Ok(TextWidget {
            alloc: self.alloc,
            options: self.options.try_clone()?,
            text: self.text.try_clone()?,
            tags: self.tags.try_clone(self.alloc)?,
            marks: self.marks.try_clone(self.alloc)?,
        })
    }
}
