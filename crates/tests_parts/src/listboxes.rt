//! Listboxes made again from what they had, and random commands beside a plain list.

use crate::items_trial::{PlainItems, items_command_agrees};
use crate::texts::text;
use std::alloc::Global;
use tests_disk::Dice;
use tks_listbox::{Item, ListWidget};
use tks_opt::Options;
use tks_share::SharedList;
use tks_text::Class;

// The items `a` and, selected, `b`.
fn two_items(alloc: Global) -> Option<SharedList<Item>> {
    let mut items = SharedList::new(alloc);
    let first = Item {
        text: text(alloc, "a")?,
        is_selected: false,
    };
    items.push(first).ok()?;
    let second = Item {
        text: text(alloc, "b")?,
        is_selected: true,
    };
    items.push(second).ok()?;
    Some(items)
}

// The listbox of a class's first options, these items, and an active one.
fn made(alloc: Global, class: Class, items: SharedList<Item>, active: usize) -> Option<ListWidget> {
    let options = Options::new(alloc, class, &text(alloc, ".a")?).ok()?;
    ListWidget::restore(alloc, options, items, active)
}

// Whether a listbox keeps two items, which is selected, and the active one.
fn is_kept(listbox: &ListWidget) -> bool {
    let items = listbox.items();
    match (items.get(0), items.get(1)) {
        (Some(first), Some(second)) => {
            items.len() == 2
                && !first.is_selected
                && second.is_selected
                && second.text.as_bytes() == b"b".as_slice()
        }
        _ => false,
    }
}

// Whether a listbox is made again from two items, of which the second is active.
fn is_restored(alloc: Global) -> Option<bool> {
    let listbox = made(alloc, Class::Listbox, two_items(alloc)?, 1)?;
    Some(is_kept(&listbox) && listbox.active() == 1)
}

// Whether options of a class and an active place make a listbox of two items.
fn is_made(alloc: Global, class: Class, active: usize) -> Option<bool> {
    Some(made(alloc, class, two_items(alloc)?, active).is_some())
}

// Whether a listbox without items is made with an active place.
fn is_made_empty(alloc: Global, active: usize) -> bool {
    made(alloc, Class::Listbox, SharedList::new(alloc), active).is_some()
}

#[test]
fn listboxes(rt: HostRuntime) {
    assert_eq!(rt; is_restored(rt.alloc()), Some(true));
    assert_eq!(rt; is_made(rt.alloc(), Class::Listbox, 2), Some(false));
    assert_eq!(rt; is_made(rt.alloc(), Class::Text, 0), Some(false));
    assert!(rt; is_made_empty(rt.alloc(), 0));
    assert!(rt; !is_made_empty(rt.alloc(), 1));
}

// Gives a new listbox and a plain list so many random commands, up to the first behind which they differ.
fn agrees_for(alloc: Global, seed: u64, commands: usize) -> Option<usize> {
    let mut dice = Dice::new(seed);
    let mut listbox = ListWidget::new(alloc, &text(alloc, ".l")?).ok()?;
    let mut plain = PlainItems::new(alloc);
    for command in 0..commands {
        if !items_command_agrees(alloc, &mut listbox, &mut plain, &mut dice)? {
            return Some(command);
        }
    }
    Some(commands)
}

#[test]
fn listboxes_do_what_plain_lists_do(rt: HostRuntime) {
    for seed in 0..20 {
        let agreed = agrees_for(rt.alloc(), seed, 150);
        assert_eq!(rt; agreed, Some(150), "seed {seed}");
    }
}
