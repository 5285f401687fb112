//! What is held down.
ghost use Rattle.std.specs.Prelude.{◌≡◌, ◌≤◌};
ghost use Rattle.tks_spelling.specs.Spelling.{flag_of};
ghost use Rattle.tks_spelling.specs.Reading.{Gives};
ghost use Rattle.tks_spelling.specs.Writing.{PutsSo};
ghost use Rattle.tks_codec_events.specs.Held as helds;
ghost use Rattle.tks_codec_events.specs.Held.{keys_number, buttons_number, is_odd, held_by, held_at};

use std::alloc::AllocError;
use tks_event::Held;
use tks_spelling::Unread;
use tks_spelling::reading::u8_of;
use tks_spelling::writing::put_u8;

fn is_odd(number: u8) -> bool
    ensures { result ≡ is_odd number }
{
    number % 2 == 1
}

// What these bits say.
fn held_by(keys: u8, buttons: u8) -> Held
    ensures { result ≡ held_by keys buttons }
{
    Held {
        shift_left: is_odd(keys),
        shift_right: is_odd(keys / 2),
        control_left: is_odd(keys / 4),
        control_right: is_odd(keys / 8),
        alt_left: is_odd(keys / 16),
        alt_right: is_odd(keys / 32),
        lock: is_odd(keys / 64),
        button1: is_odd(buttons),
        button2: is_odd(buttons / 2),
        button3: is_odd(buttons / 4),
        button4: is_odd(buttons / 8),
        button5: is_odd(buttons / 16),
    }
}

/// The modifier keys and the buttons that are held down.
#[tactic(auto, unfolding(crate::specs::Held::held_at))]
pub fn held_of(bytes: &[u8]) -> Result<(Held, &[u8]), Unread>
    ensures { Gives (λ x. (x.0, x.1.now)) result (held_at bytes.now) }
{
    let (keys, rest) = u8_of(bytes)?;
    if 128 <= keys {
        return Err(Unread::Left(rest.len() + 1));
    }
    let (buttons, rest) = u8_of(rest)?;
    if 32 <= buttons {
        return Err(Unread::Left(rest.len() + 1));
    }
    Ok((held_by(keys, buttons), rest))
}

fn one(is_down: bool) -> u8
    ensures value { result ≡ flag_of is_down }
    ensures within { result ≤ 1 }
{
    if is_down { 1 } else { 0 }
}

// The bits of the modifier keys.
fn keys_number(held: &Held) -> u8
    ensures { result ≡ keys_number held.now }
{
    one(held.shift_left)
        + (2 * one(held.shift_right)
            + (4 * one(held.control_left)
                + (8 * one(held.control_right)
                    + (16 * one(held.alt_left)
                        + (32 * one(held.alt_right) + 64 * one(held.lock))))))
}

// The bits of the buttons.
fn buttons_number(held: &Held) -> u8
    ensures { result ≡ buttons_number held.now }
{
    one(held.button1)
        + (2 * one(held.button2)
            + (4 * one(held.button3) + (8 * one(held.button4) + 16 * one(held.button5))))
}

/// Adds the modifier keys and the buttons that are held down.
pub fn put_held(out: &mut Vec<u8>, held: &Held) -> Result<(), AllocError>
    ensures { PutsSo result out.old.items out.new.items (helds.held.write held.now) }
{
    put_u8(out, keys_number(held))?;
    put_u8(out, buttons_number(held))?;
    Ok(())
}
