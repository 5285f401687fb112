//! Modifiers, and sets of them.
ghost use Rattle.std.specs.Prelude.{◌≡◌, ◌<◌, ◌==◌, bit_and, bit_or, nat_lt, IfSome, Some, None, if◌then◌else◌};
ghost use Rattle.tks_event.specs.Keysyms.{named_in};
ghost use Rattle.tks_event.specs.Modifiers.{bit_of, all_bits, has, with_modifier, key_modifiers, first_modifiers, later_modifiers, button_modifiers, later_button_modifiers, modifier_named, modifier_name, all_modifiers};

use std::marker::Model;

/// A key or a button that may be held while something happens.
#[derive(Clone, Copy, Debug, PartialEq, Eq)]
pub enum Modifier {
    Shift,
    /// Caps Lock, which each press turns over.
    Lock,
    Control,
    /// Also called `M1` and `Alt`.
    Mod1,
    /// Also called `M2`.
    Mod2,
    /// Also called `M3`.
    Mod3,
    /// Also called `M4`.
    Mod4,
    /// Also called `M5`.
    Mod5,
    /// Also called `B1`.
    Button1,
    /// Also called `B2`.
    Button2,
    /// Also called `B3`.
    Button3,
    /// Also called `B4`.
    Button4,
    /// Also called `B5`.
    Button5,
}

impl Modifier {
    /// All of them, by rising bit.
    pub const ALL: [Modifier; 13] = [
        Modifier::Shift,
        Modifier::Lock,
        Modifier::Control,
        Modifier::Mod1,
        Modifier::Mod2,
        Modifier::Mod3,
        Modifier::Mod4,
        Modifier::Mod5,
        Modifier::Button1,
        Modifier::Button2,
        Modifier::Button3,
        Modifier::Button4,
        Modifier::Button5,
    ];

    /// Its bit in the state of an event: 1 for `Shift` up to 4096 for `Button5`.
    pub fn bit(self) -> u16
        ensures value { result ≡ bit_of self }
        ensures within { result < all_bits }
    {
        match self {
            Modifier::Shift => 1,
            Modifier::Lock => 2,
            Modifier::Control => 4,
            Modifier::Mod1 => 8,
            Modifier::Mod2 => 16,
            Modifier::Mod3 => 32,
            Modifier::Mod4 => 64,
            Modifier::Mod5 => 128,
            Modifier::Button1 => 256,
            Modifier::Button2 => 512,
            Modifier::Button3 => 1024,
            Modifier::Button4 => 2048,
            Modifier::Button5 => 4096,
        }
    }

    /// Its first name, by which patterns are spelled.
    pub fn name(self) -> &'static [u8]
        ensures { result.now ≡ modifier_name self }
    {
        match self {
            Modifier::Shift => b"Shift",
            Modifier::Lock => b"Lock",
            Modifier::Control => b"Control",
            Modifier::Mod1 => b"Mod1",
            Modifier::Mod2 => b"Mod2",
            Modifier::Mod3 => b"Mod3",
            Modifier::Mod4 => b"Mod4",
            Modifier::Mod5 => b"Mod5",
            Modifier::Button1 => b"Button1",
            Modifier::Button2 => b"Button2",
            Modifier::Button3 => b"Button3",
            Modifier::Button4 => b"Button4",
            Modifier::Button5 => b"Button5",
        }
    }

    /// The modifier that a word names, by any of its names.
    pub fn named(word: &[u8]) -> Option<Modifier>
        ensures { result ≡ modifier_named word.now }
    {
        if let Some(modifier) = key_modifier(word) {
            return Some(modifier);
        }
        if let Some(modifier) = first_modifier(word) {
            return Some(modifier);
        }
        if let Some(modifier) = later_modifier(word) {
            return Some(modifier);
        }
        if let Some(modifier) = button_modifier(word) {
            return Some(modifier);
        }
        later_button_modifier(word)
    }
}

fn key_modifier(word: &[u8]) -> Option<Modifier>
    ensures { result ≡ named_in key_modifiers word.now }
{
    if word == b"Shift".as_slice() {
        Some(Modifier::Shift)
    } else if word == b"Lock".as_slice() {
        Some(Modifier::Lock)
    } else if word == b"Control".as_slice() {
        Some(Modifier::Control)
    } else {
        None
    }
}

fn first_modifier(word: &[u8]) -> Option<Modifier>
    ensures { result ≡ named_in first_modifiers word.now }
{
    if word == b"Mod1".as_slice() {
        Some(Modifier::Mod1)
    } else if word == b"M1".as_slice() {
        Some(Modifier::Mod1)
    } else if word == b"Alt".as_slice() {
        Some(Modifier::Mod1)
    } else if word == b"Mod2".as_slice() {
        Some(Modifier::Mod2)
    } else if word == b"M2".as_slice() {
        Some(Modifier::Mod2)
    } else {
        None
    }
}

fn later_modifier(word: &[u8]) -> Option<Modifier>
    ensures { result ≡ named_in later_modifiers word.now }
{
    if word == b"Mod3".as_slice() {
        Some(Modifier::Mod3)
    } else if word == b"M3".as_slice() {
        Some(Modifier::Mod3)
    } else if word == b"Mod4".as_slice() {
        Some(Modifier::Mod4)
    } else if word == b"M4".as_slice() {
        Some(Modifier::Mod4)
    } else if word == b"Mod5".as_slice() {
        Some(Modifier::Mod5)
    } else if word == b"M5".as_slice() {
        Some(Modifier::Mod5)
    } else {
        None
    }
}

fn button_modifier(word: &[u8]) -> Option<Modifier>
    ensures { result ≡ named_in button_modifiers word.now }
{
    if word == b"Button1".as_slice() {
        Some(Modifier::Button1)
    } else if word == b"B1".as_slice() {
        Some(Modifier::Button1)
    } else if word == b"Button2".as_slice() {
        Some(Modifier::Button2)
    } else if word == b"B2".as_slice() {
        Some(Modifier::Button2)
    } else if word == b"Button3".as_slice() {
        Some(Modifier::Button3)
    } else if word == b"B3".as_slice() {
        Some(Modifier::Button3)
    } else {
        None
    }
}

fn later_button_modifier(word: &[u8]) -> Option<Modifier>
    ensures { result ≡ named_in later_button_modifiers word.now }
{
    if word == b"Button4".as_slice() {
        Some(Modifier::Button4)
    } else if word == b"B4".as_slice() {
        Some(Modifier::Button4)
    } else if word == b"Button5".as_slice() {
        Some(Modifier::Button5)
    } else if word == b"B5".as_slice() {
        Some(Modifier::Button5)
    } else {
        None
    }
}

/// A set of modifiers. Contracts see it as the number of its bits.
#[derive(Clone, Copy, Debug, PartialEq, Eq)]
pub struct Modifiers {
    bits: u16,
}

impl Model for Modifiers {
    ghost use Rattle.std.specs.Prelude.{ℕ, ◌<◌};

    ghost Value = { ℕ };

    ghost view = { λ s. s.bits };

    ghost invariant = { λ s. s.bits < 8_192 };

    ghost inverse = { λ n. record { bits = n } };
}

impl Modifiers {
    /// The empty set.
    pub fn none() -> Modifiers
        ensures { result ≡ 0 }
    {
        Modifiers { bits: 0 }
    }

    /// The set that has these bits, where each is a modifier's: 0 to 8191.
    pub fn from_bits(bits: u16) -> Option<Modifiers>
        ensures { result ≡ (if nat_lt bits all_bits then Some bits else None) }
    {
        if bits < 8192 {
            Some(Modifiers { bits })
        } else {
            None
        }
    }

    /// The bits, as the state of an event has them: 0 to 8191.
    pub fn bits(self) -> u16
        ensures value { result ≡ self }
        ensures within { result < all_bits }
    {
        self.bits
    }

    /// Whether a modifier is in the set.
    pub fn has(self, modifier: Modifier) -> bool
        ensures { result ≡ has self modifier }
    {
        self.bits & modifier.bit() != 0
    }

    /// The set with one modifier more.
    #[tactic(auto, using(crate::proofs::Sets::or_within))]
    pub fn with(self, modifier: Modifier) -> Modifiers
        ensures { result ≡ with_modifier modifier self }
    {
        Modifiers {
            bits: self.bits | modifier.bit(),
        }
    }

    /// The set of the modifiers of both.
    #[tactic(auto, using(crate::proofs::Sets::or_within))]
    pub fn union(self, other: Modifiers) -> Modifiers
        ensures { result ≡ bit_or self other }
    {
        Modifiers {
            bits: self.bits | other.bits,
        }
    }

    /// Whether each modifier of the other set is in this one.
    pub fn holds(self, other: Modifiers) -> bool
        ensures { result ≡ (bit_and self other == other) }
    {
        self.bits & other.bits == other.bits
    }
}
