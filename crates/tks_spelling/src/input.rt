//! Inputs as bytes.

ghost use Rattle.std.specs.Prelude.{◌≡◌, ℕ, ◌<◌, ◌^◌, ◌++◌, ◌∷◌, [], List, take, true, Ok, Err, IfOk, OnOk, OnErr};
ghost use Rattle.std.specs.Int.{w16, w64, to_be_bytes};
ghost use Rattle.tks_input.specs.declared.input.Input.{Input};
ghost use Rattle.tks_input.specs.declared.input.Input.TheVariants.{Script, KeyPress, KeyRelease, Press, Release, Clock, Rules};
ghost use Rattle.tks_spelling.specs.Spelling.{byte, such_that};
ghost use Rattle.tks_spelling.specs.Spelling as spellings;
ghost use Rattle.tks_spelling.specs.Input as inputs;
ghost use Rattle.tks_spelling.specs.Input.{input_at, of_text, of_button, of_time, of_rules};
ghost use Rattle.tks_spelling.specs.Reading.{Gives, FindsSo, StopsAt};
ghost use Rattle.tks_spelling.specs.Writing.{PutsSo};

use crate::fault::CodecFault;
use crate::reading::{text_of, u8_of, u16_of, u64_of};
use crate::unread::Unread;
use crate::writing::{put_text, put_u8, put_u16, put_u64};
use std::alloc::{AllocError, Global};
use tks_input::Input;
use tks_text::Txt;

// A script.
fn script_of(alloc: Global, bytes: &[u8]) -> Result<(Input, &[u8]), Unread>
    ensures { Gives (λ x. (x.0, x.1.now)) result ((of_text (λ script. Script script)).read bytes.now) }
{
    let (script, rest) = text_of(alloc, bytes)?;
    Ok((Input::Script(script), rest))
}

// A key that goes down.
fn key_press_of(alloc: Global, bytes: &[u8]) -> Result<(Input, &[u8]), Unread>
    ensures { Gives (λ x. (x.0, x.1.now)) result ((of_text (λ key. KeyPress key)).read bytes.now) }
{
    let (key, rest) = text_of(alloc, bytes)?;
    Ok((Input::KeyPress(key), rest))
}

// A key that goes up.
fn key_release_of(alloc: Global, bytes: &[u8]) -> Result<(Input, &[u8]), Unread>
    ensures { Gives (λ x. (x.0, x.1.now)) result ((of_text (λ key. KeyRelease key)).read bytes.now) }
{
    let (key, rest) = text_of(alloc, bytes)?;
    Ok((Input::KeyRelease(key), rest))
}

// A button that goes down.
fn press_of(bytes: &[u8]) -> Result<(Input, &[u8]), Unread>
    ensures { Gives (λ x. (x.0, x.1.now)) result ((of_button (λ button x y. Press button x y)).read bytes.now) }
{
    let (button, rest) = u8_of(bytes)?;
    let (x, rest) = u16_of(rest)?;
    let (y, rest) = u16_of(rest)?;
    Ok((Input::Press { button, x, y }, rest))
}

// A button that goes up.
fn release_of(bytes: &[u8]) -> Result<(Input, &[u8]), Unread>
    ensures { Gives (λ x. (x.0, x.1.now)) result ((of_button (λ button x y. Release button x y)).read bytes.now) }
{
    let (button, rest) = u8_of(bytes)?;
    let (x, rest) = u16_of(rest)?;
    let (y, rest) = u16_of(rest)?;
    Ok((Input::Release { button, x, y }, rest))
}

// A time of the clock.
fn clock_of(bytes: &[u8]) -> Result<(Input, &[u8]), Unread>
    ensures { Gives (λ x. (x.0, x.1.now)) result ((of_time (λ time. Clock time)).read bytes.now) }
{
    let (time, rest) = u64_of(bytes)?;
    Ok((Input::Clock(time), rest))
}

// The number of rules.
fn rules_of(bytes: &[u8]) -> Result<(Input, &[u8]), Unread>
    ensures { Gives (λ x. (x.0, x.1.now)) result (of_rules.read bytes.now) }
{
    let (number, rest) = u8_of(bytes)?;
    Ok((Input::Rules(number), rest))
}

// What stands behind a tag.
fn behind_tag(alloc: Global, tag: u8, bytes: &[u8]) -> Result<(Input, &[u8]), Unread>
    requires { inputs.is_tag tag ≡ true }
    ensures { Gives (λ x. (x.0, x.1.now)) result ((inputs.behind_tag tag).read bytes.now) }
{
    match tag {
        1 => script_of(alloc, bytes),
        2 => key_press_of(alloc, bytes),
        3 => key_release_of(alloc, bytes),
        4 => press_of(bytes),
        5 => release_of(bytes),
        6 => clock_of(bytes),
        7 => Ok((Input::Turn, bytes)),
        _ => rules_of(bytes),
    }
}

// A tag.
fn tag_of(bytes: &[u8]) -> Result<(u8, &[u8]), Unread>
    ensures value { Gives (λ x. (x.0, x.1.now)) result ((such_that inputs.is_tag byte).read bytes.now) }
    ensures tag { IfOk result (λ x. inputs.is_tag x.0 ≡ true) }
{
    let (tag, rest) = u8_of(bytes)?;
    if tag < 1 || 8 < tag {
        return Err(Unread::Left(rest.len() + 1));
    }
    Ok((tag, rest))
}

// The input, and the bytes behind it.
#[tactic(auto, unfolding(crate::specs::Input::input_at))]
fn input_of(alloc: Global, bytes: &[u8]) -> Result<(Input, &[u8]), Unread>
    ensures { Gives (λ x. (x.0, x.1.now)) result (input_at bytes.now) }
{
    let (tag, rest) = tag_of(bytes)?;
    let (input, rest) = behind_tag(alloc, tag, rest)?;
    Ok((input, rest))
}

// The input, and the length of its spelling.
fn input_found(alloc: Global, bytes: &[u8]) -> Result<(Input, usize), CodecFault>
    ensures { FindsSo result bytes.now (input_at bytes.now) }
{
    match input_of(alloc, bytes) {
        Ok((input, rest)) => Ok((input, bytes.len() - rest.len())),
        Err(Unread::Left(left)) => Err(CodecFault::Bad(bytes.len() - left)),
        Err(Unread::NoMemory) => Err(CodecFault::NoMemory),
    }
}

/// The input at the front, and the length of its spelling; other bytes may follow. Memory is taken for a
/// text once its bytes are there.
pub fn read_input(alloc: Global, bytes: &[u8]) -> Result<(Input, usize), CodecFault>
    // What is read is spelled so.
    ensures found { IfOk result (λ x. inputs.input.Legal x.0 × (take x.1 bytes.now ≡ inputs.input.write x.0)) }
    // What is spelled so is read, unless memory is refused.
    ensures only { (i : Input) (rest : List ℕ) → inputs.input.Legal i → bytes.now ≡ inputs.input.write i ++ rest → FindsSo result bytes.now (Ok (i, rest)) }
    // Where the fault is.
    ensures bad { (p : ℕ) → result ≡ Err (CodecFault.Bad p) → StopsAt inputs.input bytes.now p }
    // All this at once.
    ensures exact { FindsSo result bytes.now (input_at bytes.now) }
{
    input_found(alloc, bytes)
}

// Adds a tag and a text.
#[tactic(auto, using(crate::proofs::Puts::put_behind))]
fn put_tagged_text(out: &mut Vec<u8>, tag: u8, text: &Txt) -> Result<(), AllocError>
    ensures puts { PutsSo result out.old.items out.new.items (tag ∷ spellings.text.write text.now) }
    ensures legal { OnOk result (spellings.text.Legal text.now) }
{
    put_u8(out, tag)?;
    put_text(out, text)?;
    Ok(())
}

// Adds a tag, a button and a cell.
fn put_tagged_cell(out: &mut Vec<u8>, tag: u8, button: u8, x: u16, y: u16) -> Result<(), AllocError>
    ensures puts { PutsSo result out.old.items out.new.items (tag ∷ button ∷ to_be_bytes w16 x ++ to_be_bytes w16 y) }
    ensures range { (button < 2 ^ 8) × (x < 2 ^ 16) × (y < 2 ^ 16) }
{
    put_u8(out, tag)?;
    put_u8(out, button)?;
    put_u16(out, x)?;
    put_u16(out, y)?;
    Ok(())
}

// Adds a tag and a time.
fn put_tagged_time(out: &mut Vec<u8>, tag: u8, time: u64) -> Result<(), AllocError>
    ensures puts { PutsSo result out.old.items out.new.items (tag ∷ to_be_bytes w64 time) }
    ensures range { time < 2 ^ 64 }
{
    put_u8(out, tag)?;
    put_u64(out, time)?;
    Ok(())
}

// Adds a tag and a byte.
fn put_tagged_byte(out: &mut Vec<u8>, tag: u8, byte: u8) -> Result<(), AllocError>
    ensures puts { PutsSo result out.old.items out.new.items (tag ∷ byte ∷ []) }
    ensures range { byte < 2 ^ 8 }
{
    put_u8(out, tag)?;
    put_u8(out, byte)?;
    Ok(())
}

// Adds the spelling; where memory is refused, perhaps a front of it.
fn put_input(input: &Input, out: &mut Vec<u8>) -> Result<(), AllocError>
    ensures puts { PutsSo result out.old.items out.new.items (inputs.input.write input.now) }
    ensures legal { OnOk result (inputs.input.Legal input.now) }
{
    match input {
        Input::Script(script) => put_tagged_text(out, 1, script),
        Input::KeyPress(key) => put_tagged_text(out, 2, key),
        Input::KeyRelease(key) => put_tagged_text(out, 3, key),
        Input::Press { button, x, y } => put_tagged_cell(out, 4, *button, *x, *y),
        Input::Release { button, x, y } => put_tagged_cell(out, 5, *button, *x, *y),
        Input::Clock(time) => put_tagged_time(out, 6, *time),
        Input::Turn => put_u8(out, 7),
        Input::Rules(number) => put_tagged_byte(out, 8, *number),
    }
}

/// Adds the input's spelling at the end. Where memory is refused, the bytes are as they were.
pub fn write_input(input: &Input, out: &mut Vec<u8>) -> Result<(), AllocError>
    ensures ok { OnOk result (out.new.items ≡ out.old.items ++ inputs.input.write input.now) }
    // It is read back, by the law of inputs.
    ensures legal { OnOk result (inputs.input.Legal input.now) }
    ensures err { OnErr result (out.new.items ≡ out.old.items) }
{
    let before = out.len();
    match put_input(input, out) {
        Ok(()) => Ok(()),
        Err(refused) => {
            out.truncate(before);
            Err(refused)
        }
    }
}
