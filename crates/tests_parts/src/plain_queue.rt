//! A queue as a plain list, and random calls made on both.
use std::alloc::Global;
use tests_disk::Dice;
use tks_event::{Event, EventFields, Kind, Modifiers};
use tks_queue::{Place, Queue};
use tks_text::Txt;

/// An event of one letter that waits.
#[derive(Clone, Copy)]
pub struct Letter {
    pub letter: u8,
    pub window: u64,
    pub with_mark: bool,
}

/// What waits, the next one first.
#[derive(Drop)]
pub struct PlainQueue {
    pub letters: Vec<Letter>,
}

impl PlainQueue {
    pub fn new(alloc: Global) -> PlainQueue {
        PlainQueue {
            letters: Vec::new(alloc),
        }
    }

    pub fn put(&mut self, place: Place, letter: u8, window: u64) -> Option<()> {
        let with_mark = place == Place::Mark;
        let mut index = 0;
        for (at, waiting) in self.letters.iter().enumerate() {
            if place == Place::Tail || (with_mark && waiting.with_mark) {
                index = at + 1;
            }
        }
        let waiting = Letter {
            letter,
            window,
            with_mark,
        };
        let index = index.min(self.letters.len());
        self.letters.insert(index, waiting).ok()?;
        Some(())
    }

    pub fn take(&mut self) -> Option<u8> {
        if self.letters.is_empty() {
            return None;
        }
        Some(self.letters.remove(0).letter)
    }

    pub fn drop_window(&mut self, window: u64) {
        self.letters.retain(|waiting| waiting.window != window);
    }
}

/// A virtual event with one letter as its data.
fn letter_event(alloc: Global, letter: u8, window: u64) -> Option<Event> {
    Event::restore(EventFields {
        window,
        kind: Kind::Virtual,
        detail: Txt::from_bytes(alloc, b"V").ok()?,
        state: Modifiers::none(),
        time: 0,
        x: 0,
        y: 0,
        root_x: 0,
        root_y: 0,
        payload: Txt::from_bytes(alloc, &[letter]).ok()?,
    })
}

/// Puts an event of one letter into its place.
pub fn put_letter(
    alloc: Global,
    queue: &mut Queue,
    place: Place,
    letter: u8,
    window: u64,
) -> Option<()> {
    queue.put(place, letter_event(alloc, letter, window)?).ok()
}

/// Whether the event has this letter, or both are none.
pub fn has_letter(event: &Option<Event>, letter: Option<u8>) -> bool {
    match (event, letter) {
        (Some(event), Some(letter)) => event.payload.as_bytes() == [letter].as_slice(),
        (None, None) => true,
        _ => false,
    }
}

fn any_place(dice: &mut Dice) -> Place {
    match dice.roll(3) {
        0 => Place::Tail,
        1 => Place::Head,
        _ => Place::Mark,
    }
}

// Whether both hold the same letters in the same order.
fn queues_agree(queue: &Queue, plain: &PlainQueue) -> bool {
    let mut at = 0;
    for queued in queue.events() {
        let Some(waiting) = plain.letters.get(at) else {
            return false;
        };
        if queued.event.payload.as_bytes() != [waiting.letter].as_slice() {
            return false;
        }
        at += 1;
    }
    at == plain.letters.len() && at == queue.len()
}

/// Makes a random call on both.
pub fn queue_call_agrees(
    alloc: Global,
    queue: &mut Queue,
    plain: &mut PlainQueue,
    dice: &mut Dice,
) -> Option<bool> {
    let window = dice.roll(3) as u64;
    let agrees = match dice.roll(20) {
        0..=9 => {
            let letter = *b"abcdefghijklmnopqrst".get(dice.roll(20))?;
            let place = any_place(dice);
            put_letter(alloc, queue, place, letter, window)?;
            plain.put(place, letter, window)?;
            true
        }
        10..=18 => has_letter(&queue.take().ok()?, plain.take()),
        _ => {
            queue.drop_window(window).ok()?;
            plain.drop_window(window);
            true
        }
    };
    Some(agrees && queues_agree(queue, plain))
}
