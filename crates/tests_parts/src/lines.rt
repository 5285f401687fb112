//! Text widgets made again from what they had, the ranges of tags, and random commands beside plain lists.

use crate::lines_trial::command_agrees;
use crate::plain_lines::PlainLines;
use crate::texts::text;
use std::alloc::Global;
use tests_disk::Dice;
use tks_lines::{Flags, Mark, Range, Tag, TextWidget};
use tks_opt::Options;
use tks_text::{Class, Seq};

// A mark of a name at a place.
fn mark(alloc: Global, name: &str, place: usize) -> Option<Mark> {
    Some(Mark {
        name: text(alloc, name)?,
        place,
        left: false,
    })
}

// Marks of two names at a place each.
fn marks(alloc: Global, first: &str, second: &str, place: usize) -> Option<Seq<Mark>> {
    let mut marks = Seq::new(alloc);
    marks.push(mark(alloc, first, 0)?).ok()?;
    marks.push(mark(alloc, second, place)?).ok()?;
    Some(marks)
}

// A tag of a name on the second of so many characters, three or more.
fn tag(alloc: Global, name: &str, len: usize) -> Option<Tag> {
    let range = Range { first: 1, last: 2 };
    if len < 2 || 1000 < len {
        return None;
    }
    let on = Flags::of_ranges(alloc, len, &[range]).ok()?;
    Some(Tag {
        name: text(alloc, name)?,
        on,
    })
}

// Tags of two names on the second of so many characters.
fn tags(alloc: Global, first: &str, second: &str, len: usize) -> Option<Seq<Tag>> {
    let mut tags = Seq::new(alloc);
    tags.push(tag(alloc, first, len)?).ok()?;
    tags.push(tag(alloc, second, len)?).ok()?;
    Some(tags)
}

// The text widget with the characters `abc`, these tags and these marks.
fn made(alloc: Global, class: Class, tags: Seq<Tag>, marks: Seq<Mark>) -> Option<TextWidget> {
    let options = Options::new(alloc, class, &text(alloc, ".a")?).ok()?;
    TextWidget::restore(alloc, options, text(alloc, "abc")?, tags, marks).ok()?
}

// Whether the first tag of a text widget is on its second character alone.
fn first_is_on_second(widget: &TextWidget) -> Option<bool> {
    let tag = widget.tags().first()?;
    match tag.on.ranges() {
        [range] => Some(range.first == 1 && range.last == 2 && tag.on.len() == 3),
        _ => Some(false),
    }
}

// Whether a text widget is made again from two tags and two marks.
fn is_restored(alloc: Global) -> Option<bool> {
    let tags = tags(alloc, "a", "b", 3)?;
    let marks = marks(alloc, "insert", "m", 3)?;
    let widget = made(alloc, Class::Text, tags, marks)?;
    let all = widget.tags().len() == 2 && widget.marks().len() == 2;
    Some(all && first_is_on_second(&widget)?)
}

// Whether one is made with tags of these names, for a text of so many characters.
fn is_made_with_tags(alloc: Global, first: &str, second: &str, len: usize) -> Option<bool> {
    let marks = marks(alloc, "insert", "m", 3)?;
    Some(made(alloc, Class::Text, tags(alloc, first, second, len)?, marks).is_some())
}

// Whether one is made with marks of these names, the second at a place.
fn is_made_with_marks(alloc: Global, first: &str, second: &str, place: usize) -> Option<bool> {
    let marks = marks(alloc, first, second, place)?;
    Some(made(alloc, Class::Text, Seq::new(alloc), marks).is_some())
}

// Whether options of a class make a text widget.
fn is_made_of(alloc: Global, class: Class) -> Option<bool> {
    let marks = marks(alloc, "insert", "m", 0)?;
    Some(made(alloc, class, Seq::new(alloc), marks).is_some())
}

#[test]
fn text_widgets(rt: HostRuntime) {
    assert_eq!(rt; is_restored(rt.alloc()), Some(true));
    assert_eq!(rt; is_made_with_tags(rt.alloc(), "a", "a", 3), Some(false));
    assert_eq!(rt; is_made_with_tags(rt.alloc(), "a", "b", 4), Some(false));
    assert_eq!(rt;
        is_made_with_marks(rt.alloc(), "insert", "m", 4),
        Some(false)
    );
    assert_eq!(rt;
        is_made_with_marks(rt.alloc(), "m", "insert", 0),
        Some(false)
    );
    assert_eq!(rt;
        is_made_with_marks(rt.alloc(), "insert", "insert", 0),
        Some(false)
    );
    assert_eq!(rt; is_made_of(rt.alloc(), Class::Entry), Some(false));
}

// Gives a new text widget and plain lists so many random commands, up to the first behind which they differ.
fn agrees_for(alloc: Global, seed: u64, commands: usize) -> Option<usize> {
    let mut dice = Dice::new(seed);
    let mut widget = TextWidget::new(alloc, &text(alloc, ".t")?).ok()?;
    let mut plain = PlainLines::new(alloc)?;
    let mut near = 0;
    for command in 0..commands {
        let (agrees, place) = command_agrees(alloc, &mut widget, &mut plain, near, &mut dice)?;
        if !agrees {
            return Some(command);
        }
        near = place;
    }
    Some(commands)
}

#[test]
fn text_widgets_do_what_plain_lists_do(rt: HostRuntime) {
    for seed in 0..12 {
        let agreed = agrees_for(rt.alloc(), seed, 150);
        assert_eq!(rt; agreed, Some(150), "seed {seed}");
    }
}
