//! `event generate`.
ghost use Rattle.std.specs.Prelude.{◌≡◌, ◌≤◌, ◌<◌, ◌^◌, Some, None, if◌then◌else◌, IfOk};
ghost use Rattle.tks_tcl.specs.Cause.{about};
ghost use Rattle.tks_tcl.specs.Meets.{GivesSo, TellsSo};
ghost use Rattle.tks_cmd.specs.Dispatch.{begun};
ghost use Rattle.tks_cmd.specs.Events.{time_of, state_of, place_of, when_of, option_named, with_field, with_field_option, is_when, when_given, with_option, with_options, has_detail, first_state, first_time, first_event, is_incomplete, complete, event_of, event_read, sent, within_text, generated, generate_does};
ghost use Rattle.tks_cmd.specs.Meets.{KeepsSo};

use crate::dispatch::begin;
use crate::packing::window_of;
use crate::queue::put as put_event;
use crate::windows::are_paired;
use std::alloc::{AllocError, Global};
use tks_bind::Field;
use tks_eval::Plan;
use tks_event::{
    Event, EventFields, Kind, Modifiers, Pattern, Repeated, is_keysym, is_of_button, is_of_key,
    parse_pattern,
};
use tks_opt::number_within;
use tks_queue::Place;
use tks_state::World;
use tks_tcl::{Interrupt, Stop, error_about, wrong_words};
use tks_text::{ErrorNumber, Limits, MAX_TIME, Txt, decimal_of, integer_of};
use tks_tree::WindowId;

/// When a generated event is delivered.
#[derive(Clone, Copy)]
pub enum When {
    /// At once.
    Now,
    /// When it is the first of the queue, into which it is put in this place.
    Queued(Place),
}

/// How far from 0 a column or a row may lie.
const MAX_PLACE: i64 = 100_000;

// The number of milliseconds that a text spells.
fn time_of(text: &Txt) -> Option<u64>
    ensures { result ≡ time_of text.now }
{
    match integer_of(text) {
        Ok(Some(time)) if 0 <= time && time as u64 <= MAX_TIME => Some(time as u64),
        _ => None,
    }
}

// The column or row that a text spells.
fn place_of(text: &Txt) -> Option<i64>
    ensures { result ≡ place_of text.now }
{
    match integer_of(text) {
        Ok(Some(place)) if -MAX_PLACE <= place && place <= MAX_PLACE => Some(place),
        _ => None,
    }
}

// When an event is delivered, as a text says.
fn when_of(text: &Txt) -> Option<When>
    ensures { result ≡ when_of text.now }
{
    let text = text.as_bytes();
    if text == b"now".as_slice() {
        Some(When::Now)
    } else if text == b"tail".as_slice() {
        Some(When::Queued(Place::Tail))
    } else if text == b"head".as_slice() {
        Some(When::Queued(Place::Head))
    } else if text == b"mark".as_slice() {
        Some(When::Queued(Place::Mark))
    } else {
        None
    }
}

// The field that an option is for.
fn option_named(name: &Txt) -> Option<Field>
    ensures { result ≡ option_named name.now }
{
    let name = name.as_bytes();
    if name == b"-keysym".as_slice() {
        Some(Field::Keysym)
    } else if name == b"-button".as_slice() {
        Some(Field::Button)
    } else if name == b"-state".as_slice() {
        Some(Field::State)
    } else if name == b"-time".as_slice() {
        Some(Field::Time)
    } else if name == b"-x".as_slice() {
        Some(Field::Column)
    } else if name == b"-y".as_slice() {
        Some(Field::Row)
    } else if name == b"-rootx".as_slice() {
        Some(Field::RootColumn)
    } else if name == b"-rooty".as_slice() {
        Some(Field::RootRow)
    } else if name == b"-data".as_slice() {
        Some(Field::Data)
    } else {
        None
    }
}

// The set of modifiers that a text spells the number of.
fn state_of(text: &Txt) -> Option<Modifiers>
    ensures { result ≡ state_of text.now }
{
    match integer_of(text) {
        Ok(Some(bits)) if 0 <= bits && bits < 8192 => Modifiers::from_bits(bits as u16),
        _ => None,
    }
}

// Puts a value where it belongs, if there is one, and says whether there was.
fn put<T: Copy>(place: &mut T, value: Option<T>) -> bool
    ensures { value ≡ (if result then Some place.new else None) }
{
    match value {
        Some(value) => {
            *place = value;
            true
        }
        None => false,
    }
}

// Sets a field of an event, and says whether the field may have the value.
fn set_field(
    alloc: Global,
    event: &mut EventFields,
    field: Field,
    value: &Txt,
) -> Result<bool, AllocError>
    ensures { IfOk result (λ is_set. with_field field value.now event.old ≡ (if is_set then Some event.new else None)) }
{
    match field {
        Field::Keysym => {
            if !is_keysym(value.as_bytes()) {
                return Ok(false);
            }
            event.detail = value.try_clone()?;
            Ok(true)
        }
        Field::Button => {
            let Some(button) = number_within(1, 5, value) else {
                return Ok(false);
            };
            event.detail = decimal_of(alloc, i64::from(button))?;
            Ok(true)
        }
        Field::Data => {
            event.payload = value.try_clone()?;
            Ok(true)
        }
        Field::State => Ok(put(&mut event.state, state_of(value))),
        Field::Time => Ok(put(&mut event.time, time_of(value))),
        Field::Column => Ok(put(&mut event.x, place_of(value))),
        Field::Row => Ok(put(&mut event.y, place_of(value))),
        Field::RootColumn => Ok(put(&mut event.root_x, place_of(value))),
        Field::RootRow => Ok(put(&mut event.root_y, place_of(value))),
        Field::Character | Field::Window => Ok(false),
    }
}

// The error about a pattern of which no event can be made so.
fn not_so(pattern: &Txt) -> Interrupt
    ensures { TellsSo (about ErrorNumber.CannotBeGenerated pattern.now) result }
{
    error_about(ErrorNumber::CannotBeGenerated, pattern)
}

// Sets the field of an option, which events of this kind must have.
#[tactic(auto, using(tks_tcl::proofs::Causes::tells))]
fn set_field_option(
    alloc: Global,
    event: &mut EventFields,
    pattern: &Txt,
    name: &Txt,
    value: &Txt,
) -> Result<(), Interrupt>
    ensures { GivesSo (λ _. event.new) result (with_field_option pattern.now name.now value.now event.old) }
{
    let Some(field) = option_named(name) else {
        return Err(error_about(ErrorNumber::UnknownOption, name));
    };
    if !field.is_of(event.kind) {
        return Err(not_so(pattern));
    }
    if !set_field(alloc, event, field, value)? {
        return Err(error_about(ErrorNumber::BadValue, name));
    }
    Ok(())
}

// When an event is delivered, as the value of `-when` says.
#[tactic(auto, using(tks_tcl::proofs::Causes::tells))]
fn when_given(name: &Txt, value: &Txt) -> Result<When, Interrupt>
    ensures { GivesSo (λ t. t) result (when_given name.now value.now) }
{
    match when_of(value) {
        Some(when) => Ok(when),
        None => Err(error_about(ErrorNumber::BadValue, name)),
    }
}

// Sets what an option says: a field of an event, or when the event is delivered.
fn set_option(
    alloc: Global,
    event: &mut EventFields,
    when: &mut When,
    pattern: &Txt,
    name: &Txt,
    value: &Txt,
) -> Result<(), Interrupt>
    ensures { GivesSo (λ _. (event.new, when.new)) result (with_option pattern.now name.now value.now (event.old, when.old)) }
{
    if name.as_bytes() == b"-when".as_slice() {
        *when = when_given(name, value)?;
        return Ok(());
    }
    set_field_option(alloc, event, pattern, name, value)?;
    Ok(())
}

// Sets what options with their values say, in turn.
fn set_options(
    alloc: Global,
    event: &mut EventFields,
    when: &mut When,
    pattern: &Txt,
    options: &[Txt],
) -> Result<(), Interrupt>
    ensures { GivesSo (λ _. (event.new, when.new)) result (with_options pattern.now options.now (event.old, when.old)) }
{
    let mut rest = options;
    'options: while let Some((name, behind)) = rest.split_first() {
        let Some((value, more)) = behind.split_first() else {
            return Ok(());
        };
        set_option(alloc, event, when, pattern, name, value)?;
        rest = more;
    }
    Ok(())
}

// Whether events of a kind have a key or a button.
fn has_detail(kind: Kind) -> bool
    ensures { result ≡ has_detail kind }
{
    is_of_key(kind) || is_of_button(kind)
}

// The modifiers of a pattern, in events that have a state.
fn first_state(kind: Kind, modifiers: Modifiers) -> Modifiers
    ensures { result ≡ first_state kind modifiers }
{
    if Field::State.is_of(kind) {
        modifiers
    } else {
        Modifiers::none()
    }
}

// The time of the clock, in events that have a time.
fn first_time(kind: Kind, clock: u64) -> u64
    ensures { result ≡ first_time kind clock }
{
    if Field::Time.is_of(kind) { clock } else { 0 }
}

// The event that a pattern alone says.
fn first_event(alloc: Global, clock: u64, window: WindowId, pattern: Pattern) -> EventFields
    ensures { result ≡ first_event clock window pattern }
{
    EventFields {
        window: window.number(),
        kind: pattern.kind,
        detail: pattern.detail,
        state: first_state(pattern.kind, pattern.modifiers),
        time: first_time(pattern.kind, clock),
        x: 0,
        y: 0,
        root_x: 0,
        root_y: 0,
        payload: Txt::new(alloc),
    }
}

// Whether an event doesn't say which key or button it is of.
fn is_incomplete(event: &EventFields) -> bool
    ensures { result ≡ is_incomplete event.now }
{
    has_detail(event.kind) && event.detail.as_bytes().is_empty()
}

// The event that a pattern and options say, and when it is delivered.
#[tactic(auto, using(tks_tcl::proofs::Causes::tells))]
fn event_of(
    alloc: Global,
    clock: u64,
    window: WindowId,
    text: &Txt,
    options: &[Txt],
    repeated: Repeated,
) -> Result<(EventFields, When), Interrupt>
    ensures { GivesSo (λ x. x) result (event_of clock window text.now options.now repeated) }
{
    if repeated.times != 1 {
        return Err(not_so(text));
    }
    let mut event = first_event(alloc, clock, window, repeated.pattern);
    let mut when = When::Now;
    set_options(alloc, &mut event, &mut when, text, options)?;
    if is_incomplete(&event) {
        return Err(not_so(text));
    }
    Ok((event, when))
}

// The same, given the text of the pattern.
fn event_read(
    alloc: Global,
    clock: u64,
    window: WindowId,
    text: &Txt,
    options: &[Txt],
) -> Result<(Event, When), Interrupt>
    requires early { clock < 2 ^ 62 }
    requires low { window ≤ 2 ^ 62 }
    ensures { GivesSo (λ x. x) result (event_read clock window text.now options.now) }
{
    let repeated = parse_pattern(alloc, text)?;
    let (fields, when) = event_of(alloc, clock, window, text, options, repeated)?;
    Ok((Event::new(fields), when))
}

// Delivers an event. No error comes of it.
fn deliver(
    alloc: Global,
    world: &mut World,
    event: Event,
    limits: &Limits,
) -> Result<Plan, Interrupt>
    ensures value { GivesSo (λ p. (p, world.new)) result (begun limits.now world.old event) }
    ensures kept { KeepsSo result world.old world.new }
{
    match begin(alloc, world, event, limits) {
        Ok(plan) => Ok(plan),
        Err(Stop::TooLarge) => Err(Interrupt::TooLarge),
        Err(Stop::NoMemory) => Err(Interrupt::NoMemory),
        Err(_) => unreachable!(),
    }
}

// Delivers an event at once, or puts it into the queue.
fn send(
    alloc: Global,
    world: &mut World,
    when: When,
    event: Event,
    limits: &Limits,
) -> Result<Plan, Interrupt>
    ensures value { GivesSo (λ p. (p, world.new)) result (sent limits.now world.old when event) }
    ensures kept { KeepsSo result world.old world.new }
{
    match when {
        When::Now => {
            let plan = deliver(alloc, world, event, limits)?;
            Ok(plan)
        }
        When::Queued(place) => {
            put_event(world, place, event, limits)?;
            Ok(Plan::Answer(0, Txt::new(alloc)))
        }
    }
}

// Whether the detail of an event passes no limit; a pattern of one character may have a longer one.
fn check_detail(event: &Event, limits: &Limits) -> Result<(), Interrupt>
    ensures { GivesSo (λ _. event.now) result (within_text limits.now event.now) }
{
    if event.detail.len() <= limits.text as usize {
        Ok(())
    } else {
        Err(Interrupt::TooLarge)
    }
}

// Makes an event for the window of a path, and delivers it or puts it into the queue.
fn generate(
    alloc: Global,
    path: &Txt,
    text: &Txt,
    options: &[Txt],
    world: &mut World,
    limits: &Limits,
) -> Result<Plan, Interrupt>
    ensures value { GivesSo (λ p. (p, world.new)) result (generated limits.now path.now text.now options.now world.old) }
    ensures kept { KeepsSo result world.old world.new }
{
    let window = window_of(world, path)?;
    let (event, when) = event_read(alloc, world.clock(), window, text, options)?;
    check_detail(&event, limits)?;
    let plan = send(alloc, world, when, event, limits)?;
    Ok(plan)
}

/// event generate window pattern ?option value ..?
#[tactic(auto, using(tks_tcl::proofs::Causes::tells))]
pub fn run_generate(
    alloc: Global,
    command: &Txt,
    words: &[Txt],
    world: &mut World,
    limits: &Limits,
) -> Result<Plan, Interrupt>
    ensures value { GivesSo (λ p. (p, world.new)) result (generate_does limits.now command.now words.now world.old) }
    ensures kept { KeepsSo result world.old world.new }
{
    let Some((path, behind)) = words.split_first() else {
        return Err(wrong_words(command));
    };
    let Some((text, options)) = behind.split_first() else {
        return Err(wrong_words(command));
    };
    if !are_paired(options) {
        return Err(wrong_words(command));
    }
    let plan = generate(alloc, path, text, options, world, limits)?;
    Ok(plan)
}
