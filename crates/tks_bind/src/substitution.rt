//! Percent substitution.
ghost use Rattle.std.specs.Prelude.{◌≡◌, ◌++◌, ◌∷◌, [], true, Some, IfSome, IfOk, OnOk, decimal};
ghost use Rattle.std.specs.Fmt.{signed_decimal};
ghost use Rattle.tks_text.specs.Text.{is_text_byte, IsText};
ghost use Rattle.tks_event.specs.Keysyms.{keysym_char};
ghost use Rattle.tks_bind.specs.Percents.{char_text, field_text, value, formed, replaced, percents, held_to, is_over};

use crate::field::Field;
use itoa::Buffer;
use std::alloc::{AllocError, Global};
use tks_event::{Event, keysym_char};
use tks_list::backslash_form;
use tks_text::{TextBuilder, Txt, decimal_of};

/// A script with each percent form replaced by what it stands for: `%%` by a percent sign, `%A %d %K %W %b %s %t %x %y
/// %X %Y` by the value of the event's field in backslash form, or by `??` where the event lacks the field. A percent
/// sign before any other character, or at the end, stays. The event's window has this path.
pub fn percents(alloc: Global, script: &Txt, event: &Event, path: &Txt) -> Result<Txt, AllocError>
    ensures { IfOk result (λ t. t ≡ percents event.now path.now script.now) }
{
    match replaced(alloc, script, event, path, None)? {
        Some(text) => Ok(text),
        None => unreachable!(),
    }
}

/// The same, where it has at most so many bytes; else `None`. No more is made than so many bytes and one value.
pub fn percents_within(
    alloc: Global,
    script: &Txt,
    event: &Event,
    path: &Txt,
    most: usize,
) -> Result<Option<Txt>, AllocError>
    ensures { IfOk result (λ t. t ≡ held_to (Some most) (percents event.now path.now script.now)) }
{
    replaced(alloc, script, event, path, Some(most))
}

// Whether a text is longer than a bound, if there is one.
fn is_over(text: &TextBuilder, most: Option<usize>) -> bool
    ensures { result ≡ is_over most text.now }
{
    match most {
        None => false,
        Some(most) => most < text.len(),
    }
}

// A text, where it is no longer than a bound, if there is one.
fn held(text: Txt, most: Option<usize>) -> Option<Txt>
    ensures { result ≡ held_to most text }
{
    match most {
        Some(most) if most < text.len() => None,
        _ => Some(text),
    }
}

// A script with each percent form replaced, where it is no longer than a bound, if there is one.
#[tactic(auto, using(crate::proofs::Bounded::front_is_over))]
fn replaced(
    alloc: Global,
    script: &Txt,
    event: &Event,
    path: &Txt,
    most: Option<usize>,
) -> Result<Option<Txt>, AllocError>
    ensures { IfOk result (λ t. t ≡ held_to most (percents event.now path.now script.now)) }
{
    let mut text = TextBuilder::new(alloc);
    let mut is_behind_percent = false;
    for letter in script.as_bytes() {
        if is_over(&text, most) {
            return Ok(None);
        }
        if is_behind_percent {
            push_formed(alloc, &mut text, event, path, *letter)?;
            is_behind_percent = false;
        } else if *letter == b'%' {
            is_behind_percent = true;
        } else {
            text.push_byte(*letter)?;
        }
    }
    if is_behind_percent {
        text.push_byte(b'%')?;
    }
    Ok(held(text.into_text()?, most))
}

// Adds what a percent sign and a character stand for.
fn push_formed(
    alloc: Global,
    text: &mut TextBuilder,
    event: &Event,
    path: &Txt,
    letter: u8,
) -> Result<(), AllocError>
    requires { is_text_byte letter ≡ true }
    ensures { OnOk result (text.new ≡ text.old ++ formed event.now path.now letter) }
{
    if letter == b'%' {
        text.push_byte(b'%')?;
        return Ok(());
    }
    match Field::named(letter) {
        Some(field) => push_value(alloc, text, event, path, field)?,
        None => {
            text.push_byte(b'%')?;
            text.push_byte(letter)?;
        }
    }
    Ok(())
}

// Adds the value of a field in backslash form, or `??` where the event lacks it.
fn push_value(
    alloc: Global,
    text: &mut TextBuilder,
    event: &Event,
    path: &Txt,
    field: Field,
) -> Result<(), AllocError>
    ensures { OnOk result (text.new ≡ text.old ++ value event.now path.now field) }
{
    if field.is_of(event.kind) {
        let value = field_text(alloc, event, path, field)?;
        text.push_bytes(backslash_form(alloc, &value)?.as_bytes())?;
    } else {
        text.push_byte(b'?')?;
        text.push_byte(b'?')?;
    }
    Ok(())
}

// The value of a field.
fn field_text(alloc: Global, event: &Event, path: &Txt, field: Field) -> Result<Txt, AllocError>
    ensures { IfOk result (λ t. t ≡ field_text event.now path.now field) }
{
    match field {
        Field::Window => path.try_clone(),
        Field::Character => char_text(alloc, keysym_char(&event.detail)),
        Field::Keysym | Field::Button => event.detail.try_clone(),
        Field::Data => event.payload.try_clone(),
        Field::State => count_text(alloc, u64::from(event.state.bits())),
        Field::Time => count_text(alloc, event.time),
        Field::Column => decimal_of(alloc, event.x),
        Field::Row => decimal_of(alloc, event.y),
        Field::RootColumn => decimal_of(alloc, event.root_x),
        Field::RootRow => decimal_of(alloc, event.root_y),
    }
}

// The text of one character, or the empty text.
fn char_text(alloc: Global, letter: Option<u8>) -> Result<Txt, AllocError>
    requires { IfSome letter (λ c. is_text_byte c ≡ true) }
    ensures { IfOk result (λ t. t ≡ char_text letter) }
{
    match letter {
        Some(letter) => Txt::from_text(alloc, &[letter]),
        None => Ok(Txt::new(alloc)),
    }
}

// A number in decimal.
#[tactic(auto, using(crate::proofs::Digits::count_is_text))]
fn count_text(alloc: Global, count: u64) -> Result<Txt, AllocError>
    ensures { IfOk result (λ t. t ≡ decimal count) }
{
    let mut digits = Buffer::new();
    Txt::from_text(alloc, digits.format(count).as_bytes())
}
