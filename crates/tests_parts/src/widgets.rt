//! Widgets made again from what they had.

use crate::texts::text;
use std::alloc::Global;
use tks_button::{Caption, Frame};
use tks_entry::EntryWidget;
use tks_opt::Options;
use tks_text::Class;

// The first options of a window `.a`.
fn first(alloc: Global, class: Class) -> Option<Options> {
    Options::new(alloc, class, &text(alloc, ".a")?).ok()
}

// Whether an entry keeps its text, and a cursor that lies behind the text's end.
fn entry_is_restored(alloc: Global) -> Option<bool> {
    let options = first(alloc, Class::Entry)?;
    let entry = EntryWidget::restore(alloc, options, text(alloc, "abc")?, 7)?;
    Some(entry.text().as_bytes() == b"abc".as_slice() && entry.cursor() == 7)
}

// Whether options of another class make no entry.
fn no_entry(alloc: Global, class: Class) -> Option<bool> {
    let options = first(alloc, class)?;
    Some(EntryWidget::restore(alloc, options, text(alloc, "abc")?, 0).is_none())
}

#[test]
fn entries(rt: HostRuntime) {
    assert_eq!(rt; entry_is_restored(rt.alloc()), Some(true));
    assert_eq!(rt; no_entry(rt.alloc(), Class::Text), Some(true));
}

// Whether options of a class make a widget with a caption.
fn has_caption(alloc: Global, class: Class) -> Option<bool> {
    Some(Caption::restore(alloc, first(alloc, class)?).is_some())
}

// Whether options of a class make a frame.
fn is_frame(alloc: Global, class: Class) -> Option<bool> {
    Some(Frame::restore(alloc, first(alloc, class)?).is_some())
}

#[test]
fn captions_and_frames(rt: HostRuntime) {
    assert_eq!(rt; has_caption(rt.alloc(), Class::Label), Some(true));
    assert_eq!(rt; has_caption(rt.alloc(), Class::Button), Some(true));
    assert_eq!(rt; has_caption(rt.alloc(), Class::Checkbutton), Some(true));
    assert_eq!(rt; has_caption(rt.alloc(), Class::Frame), Some(false));
    assert_eq!(rt; is_frame(rt.alloc(), Class::Root), Some(true));
    assert_eq!(rt; is_frame(rt.alloc(), Class::Frame), Some(true));
    assert_eq!(rt; is_frame(rt.alloc(), Class::Label), Some(false));
}
