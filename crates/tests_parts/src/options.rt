//! Options made again from the values that they had.

use crate::texts::text;
use std::alloc::Global;
use tks_opt::{Anchor, OptionName, Options, class_number, class_numbered};
use tks_text::{Class, Seq, Txt};

// The first options of a window `.a`, with a background of its own.
fn with_background(alloc: Global, class: Class) -> Option<Options> {
    let mut options = Options::new(alloc, class, &text(alloc, ".a")?).ok()?;
    let name = text(alloc, "-bg")?;
    let value = text(alloc, "red")?;
    options.configure(&[name, value]).ok()?;
    Some(options)
}

// The values of options in the order in which they are kept, up to so many of them.
fn first_values(alloc: Global, options: &Options, count: usize) -> Option<Seq<Txt>> {
    let mut values = Seq::new(alloc);
    for index in 0..count {
        let Some(value) = options.value_at(index) else {
            return Some(values);
        };
        values.push(value.try_clone().ok()?).ok()?;
    }
    Some(values)
}

// Whether options that are made of these values have the background that they had.
fn has_background(alloc: Global, class: Class, values: Seq<Txt>) -> Option<bool> {
    let options = Options::restore(alloc, class, values).ok()??;
    let background = options.value(OptionName::Background)?;
    Some(background.as_bytes() == b"red".as_slice())
}

// Whether these values make no options of the class.
fn is_refused(alloc: Global, class: Class, values: Seq<Txt>) -> Option<bool> {
    let options = Options::restore(alloc, class, values).ok()?;
    Some(options.is_none())
}

// The values of options of the class, up to so many of them.
fn values_of(alloc: Global, class: Class, count: usize) -> Option<Seq<Txt>> {
    let options = with_background(alloc, class)?;
    first_values(alloc, &options, count)
}

// Whether options are made again from all their values.
fn all_are_taken(alloc: Global, class: Class) -> Option<bool> {
    has_background(alloc, class, values_of(alloc, class, 32)?)
}

// Whether values are refused where the last ones are missing.
fn fewer_are_refused(alloc: Global, class: Class) -> Option<bool> {
    is_refused(alloc, class, values_of(alloc, class, 7)?)
}

// Whether values are refused where there is one more.
fn more_are_refused(alloc: Global, class: Class) -> Option<bool> {
    let mut values = values_of(alloc, class, 32)?;
    values.push(Txt::new(alloc)).ok()?;
    is_refused(alloc, class, values)
}

// Whether values are refused where that of the sixth option, a flag, is no flag.
fn unlawful_are_refused(alloc: Global, class: Class) -> Option<bool> {
    let mut values = values_of(alloc, class, 32)?;
    if 5 < values.len() {
        values.set(5, Txt::new(alloc));
    }
    is_refused(alloc, class, values)
}

// Whether options are made again from just the values that they may have.
fn is_restored(alloc: Global, class: Class) -> Option<bool> {
    let taken = all_are_taken(alloc, class)?;
    let refused = fewer_are_refused(alloc, class)? && more_are_refused(alloc, class)?;
    Some(taken && refused && unlawful_are_refused(alloc, class)?)
}

// Whether this holds of the class of a number, and no other number is that of the class.
fn holds_of_number(alloc: Global, number: u8) -> Option<bool> {
    let class = class_numbered(number)?;
    Some(class_number(class) == number && is_restored(alloc, class)?)
}

#[test]
fn options_of_each_class(rt: HostRuntime) {
    for number in 0..8u8 {
        assert_eq!(rt; holds_of_number(rt.alloc(), number), Some(true));
    }
    assert!(rt; class_numbered(8).is_none());
}

// The number of the anchor that a text names, and whether it is the anchor of that number.
fn number_of(alloc: Global, name: &str) -> Option<u8> {
    let anchor = Anchor::named(&text(alloc, name)?)?;
    if Anchor::numbered(anchor.number()) == Some(anchor) {
        Some(anchor.number())
    } else {
        None
    }
}

#[test]
fn numbers_of_anchors(rt: HostRuntime) {
    assert_eq!(rt; number_of(rt.alloc(), "center"), Some(0));
    assert_eq!(rt; number_of(rt.alloc(), "e"), Some(3));
    assert_eq!(rt; number_of(rt.alloc(), "nw"), Some(8));
    assert!(rt; Anchor::numbered(9).is_none());
}
