//! The order of the focus, and the numbers of windows.

use std::alloc::Global;
use tks_share::Share;
use tks_text::{Class, Txt};
use tks_tree::{Tree, WindowId};

// Makes frames of these paths, with spaces between them.
fn plant(alloc: Global, tree: &mut Tree, paths: &str) -> Option<()> {
    for path in paths.split(' ') {
        let path = Txt::from_bytes(alloc, path.as_bytes()).ok()?;
        tree.create(&path, Class::Frame).ok()?;
    }
    Some(())
}

// The tree of frames of these paths.
fn planted(alloc: Global, paths: &str) -> Option<Tree> {
    let mut tree = Tree::new(alloc).ok()?;
    if plant(alloc, &mut tree, paths).is_some() {
        Some(tree)
    } else {
        None
    }
}

// The next window in the order of the focus, where it has this path and this one is the one before it.
fn next(tree: &Tree, from: WindowId, path: &str) -> Option<WindowId> {
    let next = tree.next_in_focus_order(from, |_| true).ok()?;
    let back = tree.previous_in_focus_order(next, |_| true).ok()?;
    match tree.window(next) {
        Some(window) if window.path.as_bytes() == path.as_bytes() => {}
        _ => return None,
    }
    if back.number() == from.number() {
        Some(next)
    } else {
        None
    }
}

// Whether the order of a tree's focus, from `.` on, is this; and where no window takes it, it stays.
fn is_order(tree: &Tree, order: &str) -> Option<bool> {
    let mut window = WindowId::root();
    for path in order.split(' ') {
        window = next(tree, window, path)?;
    }
    let stays = tree.next_in_focus_order(window, |_| false).ok()?;
    Some(stays.number() == window.number())
}

// The same of the tree of frames of these paths.
fn has_order(alloc: Global, made: &str, order: &str) -> Option<bool> {
    let tree = planted(alloc, made)?;
    is_order(&tree, order)
}

// Windows in the order in which they are made, and that of the focus: by tools/rows/focus.tcl with wish 8.6.13.
const ORDERS: [(&str, &str); 4] = [
    (
        ".a .b .b.c .a.d .b.c.e .b.f .b.c.g .b.c.h .a.d.i .j .a.k .b.c.g.l",
        ".a .a.d .a.d.i .a.k .b .b.c .b.c.e .b.c.g .b.c.g.l .b.c.h .b.f .j",
    ),
    (
        ".a .b .c .a.d .e .f .c.g .b.h .a.d.i .c.g.j .a.d.k .a.d.i.l",
        ".a .a.d .a.d.i .a.d.i.l .a.d.k .b .b.h .c .c.g .c.g.j .e .f",
    ),
    (
        ".a .a.b .c .a.d .c.e .a.f .g .h .c.i .h.j .a.f.k .l",
        ".a .a.b .a.d .a.f .a.f.k .c .c.e .c.i .g .h .h.j .l",
    ),
    (
        ".a .a.b .a.b.c .a.b.c.d .a.b.c.d.e .a.b.c.d.f .g .a.h .a.b.c.d.e.i .j .k .a.b.l",
        ".a .a.b .a.b.c .a.b.c.d .a.b.c.d.e .a.b.c.d.e.i .a.b.c.d.f .a.b.l .a.h .g .j .k",
    ),
];

#[test]
fn the_focus_goes_as_in_wish(rt: HostRuntime) {
    for (made, order) in ORDERS {
        assert_eq!(rt; has_order(rt.alloc(), made, order), Some(true), "at {made}");
    }
}

// The number of a window that is made anew where `.b` was.
fn made_anew(alloc: Global, tree: &mut Tree) -> Option<u64> {
    let path = Txt::from_bytes(alloc, b".b").ok()?;
    let window = tree.resolve(&path).ok()?;
    tree.destroy(window).ok()?;
    Some(tree.create(&path, Class::Label).ok()?.number())
}

// Whether a tree has two windows beside `.`, which are its children.
fn has_two(tree: &Tree) -> Option<bool> {
    Some(tree.children(WindowId::root()).ok()?.len() == 2 && tree.len() == 3)
}

// The number of such a window, on a tree whose copy keeps its two.
fn number_beside_copy(alloc: Global, tree: &mut Tree) -> Option<u64> {
    let copy = tree.share().ok()?;
    let number = made_anew(alloc, tree);
    if has_two(&copy) == Some(true) && has_two(tree) == Some(true) {
        number
    } else {
        None
    }
}

fn second_number(alloc: Global) -> Option<u64> {
    let mut tree = planted(alloc, ".a .b")?;
    number_beside_copy(alloc, &mut tree)
}

#[test]
fn numbers_are_given_out_once(rt: HostRuntime) {
    assert_eq!(rt; second_number(rt.alloc()), Some(3));
}
