//! Frames (frame(n)).
ghost use Rattle.std.specs.Prelude.{◌≡◌, true, IfOk, OnErr};
ghost use Rattle.tks_text.specs.Fault.{Gives};
ghost use Rattle.tks_text.specs.declared.class.Class.TheVariants as class;
ghost use Rattle.tks_opt.specs.Calls.{called};
ghost use Rattle.tks_opt.specs.Options.{first_options, configured};
ghost use Rattle.tks_button.specs.Frame.{is_frame, restored, requested_width, requested_height, shown};

use std::alloc::{AllocError, Global};
use std::marker::Model;
use tks_opt::{OptionName, Options, Said, blank_rows};
use tks_text::{Class, Failure, Seq, Txt};

/// A frame (frame(n)), or `.`, which is one of a class of its own. Contracts see its options.
pub struct Frame {
    alloc: Global,
    options: Options,
}

// Written out, so that to let go of it is one step for whoever owns it.
impl Drop for Frame {
    fn drop(self) {
        let Frame {
            alloc: _,
            options: _,
        } = self;
    }
}

impl Model for Frame {
    ghost use Rattle.std.specs.Prelude.{◌≡◌, true};
    ghost use Rattle.tks_opt.specs.Options.{Options};
    ghost use Rattle.tks_button.specs.Frame.{is_frame};

    ghost Value = { Options };

    ghost view = { λ f. f.options };

    ghost invariant = { λ f. is_frame f.options.class ≡ true };
}

impl Frame {
    /// The frame that is made under a path.
    pub fn new(alloc: Global, path: &Txt) -> Result<Frame, AllocError>
        ensures { IfOk result (λ f. f ≡ first_options class.Frame path.now) }
    {
        let options = Options::new(alloc, Class::Frame, path)?;
        Ok(Frame { alloc, options })
    }

    /// The one of `.`.
    pub fn root(alloc: Global, path: &Txt) -> Result<Frame, AllocError>
        ensures { IfOk result (λ f. f ≡ first_options class.Root path.now) }
    {
        let options = Options::new(alloc, Class::Root, path)?;
        Ok(Frame { alloc, options })
    }

    /// The frame that has these options, so that one is made again from what it had: none where they are those of a
    /// class that isn't a frame's or that of `.`.
    pub fn restore(alloc: Global, options: Options) -> Option<Frame>
        ensures { result ≡ restored options }
    {
        match options.class() {
            Class::Root | Class::Frame => Some(Frame { alloc, options }),
            _ => None,
        }
    }

    /// Its options.
    pub fn options(&self) -> &Options
        ensures value { result.now ≡ self.now }
        ensures class { is_frame self.now.class ≡ true }
    {
        &self.options
    }

    /// How many cells wide it asks to be.
    pub fn requested_width(&self) -> usize
        ensures { result ≡ requested_width self.now }
    {
        match self.options.size(OptionName::Width) {
            Some(width) => usize::from(width),
            None => 0,
        }
    }

    /// How many cells high it asks to be.
    pub fn requested_height(&self) -> usize
        ensures { result ≡ requested_height self.now }
    {
        match self.options.size(OptionName::Height) {
            Some(height) => usize::from(height),
            None => 0,
        }
    }

    /// The characters of its area, row by row.
    pub fn shown(&self, width: usize, height: usize) -> Result<Seq<Seq<u8>>, AllocError>
        ensures { IfOk result (λ cells. cells ≡ shown width height) }
    {
        let cells = blank_rows(self.alloc, width, height)?;
        Ok(cells)
    }

    /// Gives options values: words that are names and values in turn, from left to right. An option that a frame
    /// lacks, and a value that it may not have, are errors about the name, and leave all as it was.
    pub fn configure(&mut self, pairs: &[Txt]) -> Result<(), Failure>
        ensures value { Gives (λ _. self.new) result (configured self.old pairs.now) }
        ensures err { OnErr result (self.new ≡ self.old) }
        ensures class { self.new.class ≡ self.old.class }
    {
        self.options.configure(pairs)?;
        Ok(())
    }

    /// What the words of a whole command come to, the frame's path first.
    pub fn call(&mut self, words: &[Txt]) -> Result<Said, Failure>
        ensures value { Gives (λ said. (said, self.new)) result (called self.old words.now) }
        ensures err { OnErr result (self.new ≡ self.old) }
        ensures class { self.new.class ≡ self.old.class }
    {
        let said = self.options.call(words)?;
        Ok(said)
    }

    /// An equal frame.
    pub fn try_clone(&self) -> Result<Frame, AllocError>
        ensures { IfOk result (λ f. f ≡ self.now) }
    {
        Ok(Frame {
            alloc: self.alloc,
            options: self.options.try_clone()?,
        })
    }
}
