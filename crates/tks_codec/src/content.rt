//! What a window holds besides its options.
ghost use Rattle.std.specs.Prelude.{◌≡◌, length, true, Ok, OnOk};
ghost use Rattle.tks_text.specs.declared.class.Class.TheVariants as class;
ghost use Rattle.tks_button.specs.Caption.{has_caption};
ghost use Rattle.tks_button.specs.Frame.{is_frame};
ghost use Rattle.tks_spelling.specs.Reading.{Gives};
ghost use Rattle.tks_spelling.specs.Writing.{PutsSo};
ghost use Rattle.tks_spelling.specs.Lengths.{counted};
ghost use Rattle.tks_codec.specs.Content as kinds;
ghost use Rattle.tks_codec.specs.Content.{content, content_by, content_at};
ghost use Rattle.tks_state.specs.Widget.{options_of};
ghost use Rattle.tks_state.specs.declared.widget.Widget.TheVariants as widget;

use std::alloc::{AllocError, Global};
use tks_button::{Caption, Frame};
use tks_codec_windows::{
    entry_length, entry_of, lines_length, lines_of, listbox_length, listbox_of, put_entry,
    put_lines, put_listbox,
};
use tks_opt::Options;
use tks_spelling::Unread;
use tks_state::Widget;
use tks_text::Class;

// A frame, or `.`.
fn frame_with(alloc: Global, options: Options) -> Widget
    requires { is_frame options.class ≡ true }
    ensures { result ≡ widget.Frame options }
{
    match Frame::restore(alloc, options) {
        Some(frame) => Widget::Frame(frame),
        None => unreachable!(),
    }
}

// A label, a button or a checkbutton.
fn caption_with(alloc: Global, options: Options) -> Widget
    requires { has_caption options.class ≡ true }
    ensures { result ≡ widget.Caption options }
{
    match Caption::restore(alloc, options) {
        Some(caption) => Widget::Caption(caption),
        None => unreachable!(),
    }
}

fn entry_with(alloc: Global, options: Options, bytes: &[u8]) -> Result<(Widget, &[u8]), Unread>
    requires { options.class ≡ class.Entry }
    ensures { Gives (λ x. (x.0, x.1.now)) result ((content_by class.Entry options).read bytes.now) }
{
    let (entry, rest) = entry_of(alloc, options, bytes)?;
    Ok((Widget::Entry(entry), rest))
}

fn listbox_with(alloc: Global, options: Options, bytes: &[u8]) -> Result<(Widget, &[u8]), Unread>
    requires { options.class ≡ class.Listbox }
    ensures { Gives (λ x. (x.0, x.1.now)) result ((content_by class.Listbox options).read bytes.now) }
{
    let (listbox, rest) = listbox_of(alloc, options, bytes)?;
    Ok((Widget::Listbox(listbox), rest))
}

#[tactic(auto, unfolding(tks_codec_windows::specs::Lines::lines_at))]
fn lines_with(alloc: Global, options: Options, bytes: &[u8]) -> Result<(Widget, &[u8]), Unread>
    requires { options.class ≡ class.Text }
    ensures { Gives (λ x. (x.0, x.1.now)) result ((content_by class.Text options).read bytes.now) }
{
    let (lines, rest) = lines_of(alloc, options, bytes)?;
    Ok((Widget::Text(lines), rest))
}

/// A widget with these options, by what it holds besides.
#[tactic(auto, unfolding(crate::specs::Content::content_at))]
pub fn content_of(alloc: Global, options: Options, bytes: &[u8]) -> Result<(Widget, &[u8]), Unread>
    ensures { Gives (λ x. (x.0, x.1.now)) result (content_at options bytes.now) }
{
    match options.class() {
        Class::Root | Class::Frame => Ok((frame_with(alloc, options), bytes)),
        Class::Label | Class::Button | Class::Checkbutton => {
            Ok((caption_with(alloc, options), bytes))
        }
        Class::Entry => entry_with(alloc, options, bytes),
        Class::Listbox => listbox_with(alloc, options, bytes),
        Class::Text => lines_with(alloc, options, bytes),
    }
}

/// Adds what a widget holds besides its options.
pub fn put_content(out: &mut Vec<u8>, widget: &Widget) -> Result<(), AllocError>
    ensures puts { PutsSo result out.old.items out.new.items ((content (options_of widget.now)).write widget.now) }
    ensures legal { OnOk result ((content (options_of widget.now)).Legal widget.now) }
{
    match widget {
        Widget::Frame(frame) => {
            let _ = frame.options();
            Ok(())
        }
        Widget::Caption(caption) => {
            let _ = caption.options();
            Ok(())
        }
        Widget::Entry(entry) => {
            let _ = entry.options();
            put_entry(out, entry)
        }
        Widget::Listbox(listbox) => {
            let _ = listbox.options();
            put_listbox(out, listbox)
        }
        Widget::Text(text) => {
            let _ = text.options();
            put_lines(out, text)
        }
    }
}

/// The length of the spelling of what a widget holds besides its options, in bytes.
pub fn content_length(widget: &Widget) -> u64
    ensures { result ≡ counted (length ((content (options_of widget.now)).write widget.now)) }
{
    match widget {
        Widget::Frame(frame) => {
            let _ = frame.options();
            0
        }
        Widget::Caption(caption) => {
            let _ = caption.options();
            0
        }
        Widget::Entry(entry) => {
            let _ = entry.options();
            entry_length(entry)
        }
        Widget::Listbox(listbox) => {
            let _ = listbox.options();
            listbox_length(listbox)
        }
        Widget::Text(text) => {
            let _ = text.options();
            lines_length(text)
        }
    }
}
