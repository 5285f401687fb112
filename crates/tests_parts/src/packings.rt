//! A packing made again from its contents, and the numbers of sides and of ways of filling.

use crate::texts::text;
use std::alloc::Global;
use tks_pack::{Content, Fill, Packing, Padding, Settings, Side};
use tks_text::Class;
use tks_tree::Tree;

// Whether a packing keeps its one content and that it doesn't propagate.
fn packing_is_restored(alloc: Global) -> Option<bool> {
    let mut tree = Tree::new(alloc).ok()?;
    let window = tree.create(&text(alloc, ".a")?, Class::Frame).ok()?;
    let mut settings = Settings::new();
    settings.padx = Padding::of(3);
    let mut contents = Vec::new(alloc);
    contents.push(Content { window, settings }).ok()?;
    let packing = Packing::restore(alloc, contents, false).ok()?;
    let content = packing.contents().next()?;
    Some(content.window == window && content.settings.padx.cells() == 3 && !packing.propagates())
}

#[test]
fn packings(rt: HostRuntime) {
    assert_eq!(rt; packing_is_restored(rt.alloc()), Some(true));
}

// Whether a number is that of a side, and of a way of filling.
fn is_number(number: u8) -> Option<bool> {
    let side = Side::numbered(number)?;
    let fill = Fill::numbered(number)?;
    Some(side.number() == number && fill.number() == number)
}

#[test]
fn numbers_of_sides_and_fills(rt: HostRuntime) {
    for number in 0..4u8 {
        assert_eq!(rt; is_number(number), Some(true));
    }
    assert!(rt; Side::numbered(4).is_none());
    assert!(rt; Fill::numbered(4).is_none());
}
