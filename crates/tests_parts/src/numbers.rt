//! A tree made again with the numbers that its windows had.

use std::alloc::Global;
use tks_text::{Class, Txt};
use tks_tree::Tree;

// The highest number that may be the next one.
const LAST: u64 = 1 << 62;

// Whether a window of this path gets this number, once it was made the next one.
fn takes(alloc: Global, tree: &mut Tree, path: &str, number: u64) -> Option<bool> {
    let path = Txt::from_bytes(alloc, path.as_bytes()).ok()?;
    let may_be = tree.skip_to(number);
    let id = tree.create(&path, Class::Frame).ok()?;
    Some(may_be && id.number() == number)
}

// Whether windows get the numbers 1, 7 and 8, none gets a number twice, and none one past the last.
fn numbers_are_kept(alloc: Global) -> Option<bool> {
    let mut tree = Tree::new(alloc).ok()?;
    let first = takes(alloc, &mut tree, ".a", 1)?;
    let later = takes(alloc, &mut tree, ".a.b", 7)?;
    let refused = !tree.skip_to(7) && !tree.skip_to(LAST + 1);
    let known = tree.next() == 8;
    let next = takes(alloc, &mut tree, ".c", 8)?;
    let ended = tree.skip_to(LAST) && !tree.skip_to(9);
    let path = Txt::from_bytes(alloc, b".d").ok()?;
    let full = tree.create(&path, Class::Frame).is_err();
    Some(first && later && refused && known && next && ended && full)
}

#[test]
fn numbers(rt: HostRuntime) {
    assert_eq!(rt; numbers_are_kept(rt.alloc()), Some(true));
}
