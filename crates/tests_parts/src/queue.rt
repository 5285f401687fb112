//! The queue of events beside a plain list.

use crate::plain_queue::{PlainQueue, has_letter, put_letter, queue_call_agrees};
use std::alloc::Global;
use tests_disk::Dice;
use tks_queue::{Place, Queue};
use tks_share::Share;

#[test]
fn the_queue_does_what_a_plain_list_does(rt: HostRuntime) {
    let alloc = rt.alloc();
    for seed in 0..20 {
        let mut dice = Dice::new(seed);
        let mut queue = Queue::new(alloc);
        let mut plain = PlainQueue::new(alloc);
        for call in 0..200 {
            let agrees = queue_call_agrees(alloc, &mut queue, &mut plain, &mut dice) == Some(true);
            assert!(rt; agrees, "seed {seed}, call {call}");
        }
    }
}

fn put(alloc: Global, queue: &mut Queue, place: Place, letter: u8) -> Option<()> {
    put_letter(alloc, queue, place, letter, 0)
}

fn take_all(queue: &mut Queue, letters: &[u8]) -> Option<bool> {
    for letter in letters {
        if !has_letter(&queue.take().ok()?, Some(*letter)) {
            return Some(false);
        }
    }
    Some(has_letter(&queue.take().ok()?, None))
}

// Puts one event at the tail, two with a mark, one at the head, and one more with a mark, which goes behind the other two.
fn put_five(alloc: Global, queue: &mut Queue) -> Option<()> {
    put(alloc, queue, Place::Tail, b't')?;
    put(alloc, queue, Place::Mark, b'1')?;
    put(alloc, queue, Place::Mark, b'2')?;
    put(alloc, queue, Place::Head, b'h')?;
    put(alloc, queue, Place::Mark, b'3')
}

// Whether they and their copy come out in the order of their places.
fn come_in_order(alloc: Global, queue: &mut Queue) -> Option<bool> {
    put_five(alloc, queue)?;
    let mut copy = queue.share().ok()?;
    queue.drop_window(1).ok()?;
    let is_whole = copy.len() == 5 && take_all(&mut copy, b"h123t") == Some(true);
    Some(is_whole && take_all(queue, b"h123t")?)
}

#[test]
fn events_stand_where_they_are_put(rt: HostRuntime) {
    let mut queue = Queue::new(rt.alloc());
    assert_eq!(rt; come_in_order(rt.alloc(), &mut queue), Some(true));
}
