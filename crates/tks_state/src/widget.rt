//! What a window is, by its class.
ghost use Rattle.std.specs.Prelude.{◌≡◌, IfOk, OnErr};
ghost use Rattle.tks_text.specs.Fault.{Gives};
ghost use Rattle.tks_pack.specs.Packing.{capped};
ghost use Rattle.tks_state.specs.WellFormed.{WellFormedWidget};
ghost use Rattle.tks_state.specs.Widget.{options_of, class_of, stands_alone, configured, called, requested, shown};

use std::alloc::{AllocError, Global};
use tks_button::{Caption, Frame};
use tks_entry::EntryWidget;
use tks_lines::TextWidget;
use tks_listbox::ListWidget;
use tks_opt::{Options, Said};
use tks_pack::Extent;
use tks_share::Copied;
use tks_text::{Failure, Seq, Txt};

/// What a window is, by its class.
pub enum Widget {
    /// A frame, or `.`.
    Frame(Frame),
    /// A label, a button or a checkbutton.
    Caption(Caption),
    Entry(EntryWidget),
    Listbox(ListWidget),
    Text(TextWidget),
}

// Written out, so that to let go of it is one step for whoever owns it.
impl Drop for Widget {
    fn drop(self) {
        match self {
            Widget::Frame(_) => {}
            Widget::Caption(_) => {}
            Widget::Entry(_) => {}
            Widget::Listbox(_) => {}
            Widget::Text(_) => {}
        }
    }
}

// So many cells, as far as they are told of.
fn capped(cells: usize) -> u32
    ensures { result ≡ capped cells }
{
    cells.min(u32::MAX as usize) as u32
}

impl Widget {
    /// Its options; they say its class too.
    pub fn options(&self) -> &Options
        ensures { result.now ≡ options_of self.now }
    {
        match self {
            Widget::Frame(frame) => frame.options(),
            Widget::Caption(caption) => caption.options(),
            Widget::Entry(entry) => entry.options(),
            Widget::Listbox(listbox) => listbox.options(),
            Widget::Text(text) => text.options(),
        }
    }

    /// What holds of all widgets.
    pub fn stands(&self)
        ensures { WellFormedWidget self.now }
    {
        let _ = self.options().class();
        match self {
            Widget::Frame(frame) => {
                let _ = frame.options();
            }
            Widget::Caption(caption) => {
                let _ = caption.options();
            }
            Widget::Entry(entry) => {
                let _ = entry.options();
            }
            Widget::Listbox(listbox) => {
                let _ = listbox.options();
            }
            Widget::Text(text) => {
                let _ = text.options();
            }
        }
    }

    /// Whether it neither shows a global nor sets one.
    pub fn stands_alone(&self) -> bool
        ensures { result ≡ stands_alone self.now }
    {
        match self {
            Widget::Frame(_) | Widget::Listbox(_) | Widget::Text(_) => true,
            Widget::Caption(_) | Widget::Entry(_) => false,
        }
    }

    /// Gives options values: words that are names and values in turn. An option that its class lacks, and a value
    /// that it may not have, are errors about the name, and leave all as it was.
    pub fn configure(&mut self, pairs: &[Txt]) -> Result<(), Failure>
        ensures value { Gives (λ _. self.new) result (configured self.old pairs.now) }
        ensures err { OnErr result (self.new ≡ self.old) }
        ensures class { class_of self.new ≡ class_of self.old }
    {
        match self {
            Widget::Frame(frame) => {
                frame.configure(pairs)?;
                Ok(())
            }
            Widget::Caption(caption) => {
                caption.configure(pairs)?;
                Ok(())
            }
            Widget::Entry(entry) => {
                entry.configure(pairs)?;
                Ok(())
            }
            Widget::Listbox(listbox) => {
                listbox.configure(pairs)?;
                Ok(())
            }
            Widget::Text(text) => {
                text.configure(pairs)?;
                Ok(())
            }
        }
    }

    /// What the words of a whole command come to, the window's path first.
    pub fn call(&mut self, words: &[Txt]) -> Result<Said, Failure>
        ensures value { Gives (λ said. (said, self.new)) result (called self.old words.now) }
        ensures err { OnErr result (self.new ≡ self.old) }
        ensures class { class_of self.new ≡ class_of self.old }
    {
        match self {
            Widget::Frame(frame) => {
                let said = frame.call(words)?;
                Ok(said)
            }
            Widget::Caption(caption) => {
                let said = caption.call(words)?;
                Ok(said)
            }
            Widget::Entry(entry) => {
                let said = entry.call(words)?;
                Ok(said)
            }
            Widget::Listbox(listbox) => {
                let said = listbox.call(words)?;
                Ok(said)
            }
            Widget::Text(text) => {
                let said = text.call(words)?;
                Ok(said)
            }
        }
    }

    /// How large it asks to be. No more than 2^32 - 1 cells are told of.
    pub fn requested(&self) -> Extent
        ensures { result ≡ requested self.now }
    {
        match self {
            Widget::Frame(frame) => Extent {
                width: capped(frame.requested_width()),
                height: capped(frame.requested_height()),
            },
            Widget::Caption(caption) => Extent {
                width: capped(caption.requested_width()),
                height: capped(caption.requested_height()),
            },
            Widget::Entry(entry) => Extent {
                width: capped(entry.requested_width()),
                height: capped(entry.requested_height()),
            },
            Widget::Listbox(listbox) => Extent {
                width: capped(listbox.requested_width()),
                height: capped(listbox.requested_height()),
            },
            Widget::Text(text) => Extent {
                width: capped(text.requested_width()),
                height: capped(text.requested_height()),
            },
        }
    }

    /// The characters that it shows in an area, row by row; a checkbutton by whether it is on.
    pub fn shown(&self, on: bool, width: usize, height: usize) -> Result<Seq<Seq<u8>>, AllocError>
        ensures { IfOk result (λ cells. cells ≡ shown self.now on width height) }
    {
        match self {
            Widget::Frame(frame) => {
                let cells = frame.shown(width, height)?;
                Ok(cells)
            }
            Widget::Caption(caption) => {
                let cells = caption.shown(width, height, on)?;
                Ok(cells)
            }
            Widget::Entry(entry) => {
                let cells = entry.shown(width, height)?;
                Ok(cells)
            }
            Widget::Listbox(listbox) => {
                let cells = listbox.shown(width, height)?;
                Ok(cells)
            }
            Widget::Text(text) => {
                let cells = text.shown(width, height)?;
                Ok(cells)
            }
        }
    }
}

impl Copied for Widget {
    fn copied(&self, _alloc: Global) -> Result<Widget, AllocError> {
        match self {
            Widget::Frame(frame) => Ok(Widget::Frame(frame.try_clone()?)),
            Widget::Caption(caption) => Ok(Widget::Caption(caption.try_clone()?)),
            Widget::Entry(entry) => Ok(Widget::Entry(entry.try_clone()?)),
            Widget::Listbox(listbox) => Ok(Widget::Listbox(listbox.try_clone()?)),
            Widget::Text(text) => Ok(Widget::Text(text.try_clone()?)),
        }
    }
}
