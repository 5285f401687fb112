//! What stands at the end of a world.
ghost use Rattle.std.specs.Prelude.{◌≡◌, length, OnOk};
ghost use Rattle.tks_spelling.specs.Reading.{Gives};
ghost use Rattle.tks_spelling.specs.Writing.{PutsSo, flattened};
ghost use Rattle.tks_spelling.specs.Lengths.{counted};
ghost use Rattle.tks_codec.specs.Ends as kinds;
ghost use Rattle.tks_codec.specs.Ends.{ends_at, ends_parts, ends_seen, rules_in};
ghost use Rattle.tks_spelling.specs.declared.format.Format.TheVariants as Format;
ghost use Rattle.tks_codec.specs.World.{ends_of};

use std::alloc::{AllocError, Global};
use tks_app::Memories;
use tks_codec_events::{held_of, put_held};
use tks_codec_variables::{put_table, table_length, table_of};
use tks_event::Held;
use tks_spelling::reading::{presence_of, u8_of, u64_of};
use tks_spelling::writing::{put_presence, put_u8, put_u64};
use tks_spelling::{Format, Texts, Unread, items_length, list_of, put_items};
use tks_state::{Rules, World};
use tks_text::{Seq, Txt};
use tks_tree::WindowId;

/// The focus, what is held down, the last press, the memories of an application, the faults, and by which rules scripts run.
#[derive(Drop)]
pub struct Ends {
    pub focus: WindowId,
    pub held: Held,
    pub pressed: Option<WindowId>,
    pub memories: Memories,
    pub faults: Seq<Txt>,
    pub rules: Rules,
}

// The number of the window that took the last press, if there is one.
fn press_of(bytes: &[u8]) -> Result<(Option<u64>, &[u8]), Unread>
    ensures { Gives (λ x. (x.0, x.1.now)) result (kinds.press.read bytes.now) }
{
    let (is_there, rest) = presence_of(bytes)?;
    if !is_there {
        return Ok((None, rest));
    }
    let (number, rest) = u64_of(rest)?;
    Ok((Some(number), rest))
}

// The window of this number, if there is one.
fn window_of(number: Option<u64>) -> Option<WindowId>
    ensures { result ≡ number }
{
    match number {
        None => None,
        Some(number) => Some(WindowId::of(number)),
    }
}

// The rules of this number, where a side of this format may hold a world that goes by them.
fn rules_in(format: Format, number: u8) -> Option<Rules>
    ensures { result ≡ rules_in format number }
{
    match format {
        Format::One if number != 1 => None,
        _ => Rules::numbered(number),
    }
}

// By which rules scripts run.
fn rules_of(format: Format, bytes: &[u8]) -> Result<(Rules, &[u8]), Unread>
    ensures { Gives (λ x. (x.0, x.1.now)) result ((kinds.rules_of format).read bytes.now) }
{
    let (number, rest) = u8_of(bytes)?;
    match rules_in(format, number) {
        Some(rules) => Ok((rules, rest)),
        None => Err(Unread::Left(rest.len() + 1)),
    }
}

/// What stands at the end of a world, in a side of this format.
#[tactic(auto, unfolding(crate::specs::Ends::ends_at, tks_codec_events::specs::Held::held_at, tks_codec_variables::specs::Table::table_at))]
pub fn ends_of(alloc: Global, format: Format, bytes: &[u8]) -> Result<(Ends, &[u8]), Unread>
    ensures { Gives (λ x. (ends_seen x.0, x.1.now)) result (ends_at format bytes.now) }
{
    let (focus, rest) = u64_of(bytes)?;
    let (held, rest) = held_of(rest)?;
    let (pressed, rest) = press_of(rest)?;
    let (memories, rest) = table_of(alloc, Texts, rest)?;
    let (faults, rest) = list_of(alloc, Texts, rest)?;
    let (rules, rest) = rules_of(format, rest)?;
    let ends = Ends {
        focus: WindowId::of(focus),
        held,
        pressed: window_of(pressed),
        memories: Memories::of(memories),
        faults,
        rules,
    };
    Ok((ends, rest))
}

// Adds the number of the window that took the last press, if there is one.
fn put_press(out: &mut Vec<u8>, pressed: Option<WindowId>) -> Result<(), AllocError>
    ensures puts { PutsSo result out.old.items out.new.items (kinds.press.write pressed) }
    ensures legal { OnOk result (kinds.press.Legal pressed) }
{
    match pressed {
        None => put_presence(out, false),
        Some(window) => {
            put_presence(out, true)?;
            put_u64(out, window.number())
        }
    }
}

// Adds the parts.
#[tactic(auto, using(tks_spelling::proofs::Puts::flattened_puts))]
fn put_parts(out: &mut Vec<u8>, world: &World) -> Result<(), AllocError>
    ensures puts { PutsSo result out.old.items out.new.items (flattened (ends_parts (ends_of world.now))) }
    ensures legal { OnOk result ((kinds.ends Format.Two).Legal (ends_of world.now)) }
{
    world.stands();
    put_u64(out, world.focus().number())?;
    put_held(out, &world.held())?;
    put_press(out, world.pressed())?;
    put_table(out, Texts, world.memories().texts())?;
    put_items(out, Texts, world.faults().iter(), world.faults().len())?;
    put_u8(out, world.rules().number())
}

/// Adds what stands at the end of a world.
#[tactic(auto, unfolding(tks_spelling::specs::Writing::flattened))]
pub fn put_ends(out: &mut Vec<u8>, world: &World) -> Result<(), AllocError>
    ensures puts { PutsSo result out.old.items out.new.items ((kinds.ends Format.Two).write (ends_of world.now)) }
    ensures legal { OnOk result ((kinds.ends Format.Two).Legal (ends_of world.now)) }
{
    put_parts(out, world)
}

// The length of the number of the window that took the last press, if there is one.
fn press_length(pressed: Option<WindowId>) -> u64
    ensures { result ≡ counted (length (kinds.press.write pressed)) }
{
    match pressed {
        None => 1,
        Some(_) => 9,
    }
}

/// The length of the spelling of what stands at the end of a world, in bytes.
#[tactic(auto, using(tks_spelling::proofs::Counting::lengths))]
pub fn ends_length(world: &World) -> u64
    ensures { result ≡ counted (length ((kinds.ends Format.Two).write (ends_of world.now))) }
{
    press_length(world.pressed())
        .saturating_add(table_length(&Texts, world.memories().texts()))
        .saturating_add(items_length(&Texts, world.faults().iter()))
        .saturating_add(11)
}
