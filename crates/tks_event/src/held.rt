//! What is held down.
ghost use Rattle.std.specs.Prelude.{◌≡◌, true, false};
ghost use Rattle.tks_event.specs.Held.{nothing_held, with_key, turned, pressed, released, with_button, held_too, state_of};

use crate::modifiers::{Modifier, Modifiers};

/// The modifier keys and buttons that an operator holds down, and whether Caps Lock is on.
#[derive(Clone, Copy, Debug, PartialEq, Eq)]
pub struct Held {
    pub shift_left: bool,
    pub shift_right: bool,
    pub control_left: bool,
    pub control_right: bool,
    pub alt_left: bool,
    pub alt_right: bool,
    pub lock: bool,
    pub button1: bool,
    pub button2: bool,
    pub button3: bool,
    pub button4: bool,
    pub button5: bool,
}

impl Held {
    /// Nothing is held, and Caps Lock is off.
    pub fn nothing() -> Held
        ensures { result ≡ nothing_held }
    {
        Held {
            shift_left: false,
            shift_right: false,
            control_left: false,
            control_right: false,
            alt_left: false,
            alt_right: false,
            lock: false,
            button1: false,
            button2: false,
            button3: false,
            button4: false,
            button5: false,
        }
    }

    /// A key goes down. A press of Caps Lock turns the lock over; a key that is no modifier key changes nothing.
    pub fn press_key(&mut self, key: &[u8])
        ensures { self.new ≡ pressed key.now self.old }
    {
        self.set_key(key, true);
        self.turn_lock(key);
    }

    /// A key goes up.
    pub fn release_key(&mut self, key: &[u8])
        ensures { self.new ≡ released key.now self.old }
    {
        self.set_key(key, false);
    }

    /// A button goes down, or up. There are the buttons 1 to 5.
    pub fn set_button(&mut self, button: u8, down: bool)
        ensures { self.new ≡ with_button button down self.old }
    {
        match button {
            1 => self.button1 = down,
            2 => self.button2 = down,
            3 => self.button3 = down,
            4 => self.button4 = down,
            5 => self.button5 = down,
            _ => {}
        }
    }

    // A modifier key is down, or up.
    fn set_key(&mut self, key: &[u8], down: bool)
        ensures { self.new ≡ with_key key.now down self.old }
    {
        if key == b"Shift_L".as_slice() {
            self.shift_left = down;
        } else if key == b"Shift_R".as_slice() {
            self.shift_right = down;
        } else if key == b"Control_L".as_slice() {
            self.control_left = down;
        } else if key == b"Control_R".as_slice() {
            self.control_right = down;
        } else if key == b"Alt_L".as_slice() {
            self.alt_left = down;
        } else if key == b"Alt_R".as_slice() {
            self.alt_right = down;
        }
    }

    // A press of Caps Lock turns the lock over.
    fn turn_lock(&mut self, key: &[u8])
        ensures { self.new ≡ turned key.now self.old }
    {
        if key == b"Caps_Lock".as_slice() {
            self.lock = !self.lock;
        }
    }

    /// The state that an event has while this is held.
    pub fn state(&self) -> Modifiers
        ensures { result ≡ state_of self.now }
    {
        let mut set = Modifiers::none();
        set = with_held(set, Modifier::Shift, self.shift_left || self.shift_right);
        set = with_held(set, Modifier::Lock, self.lock);
        set = with_held(
            set,
            Modifier::Control,
            self.control_left || self.control_right,
        );
        set = with_held(set, Modifier::Mod1, self.alt_left || self.alt_right);
        set = with_held(set, Modifier::Button1, self.button1);
        set = with_held(set, Modifier::Button2, self.button2);
        set = with_held(set, Modifier::Button3, self.button3);
        set = with_held(set, Modifier::Button4, self.button4);
        with_held(set, Modifier::Button5, self.button5)
    }
}

// A set with a modifier more, where it is held.
fn with_held(set: Modifiers, modifier: Modifier, is_held: bool) -> Modifiers
    ensures { result ≡ held_too is_held modifier set }
{
    if is_held { set.with(modifier) } else { set }
}
