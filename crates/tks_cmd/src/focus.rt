//! `focus`, `tk_focusNext` and `tk_focusPrev`.
ghost use Rattle.std.specs.Prelude.{◌≡◌, ◌≤◌, ◌^◌, true, IfOk};
ghost use Rattle.tks_event.specs.Legality.{is_event};
ghost use Rattle.tks_tcl.specs.Meets.{GivesSo};
ghost use Rattle.tks_opt.specs.Options.{value_in};
ghost use Rattle.tks_cmd.specs.Focus.{path_at, focus_event, focus_moved, focus_given, focus_on, focus_does, is_taking, is_disabled, takes_focus, takes_at, next_taking, previous_taking, focus_next_does, focus_previous_does};
ghost use Rattle.tks_cmd.specs.Meets.{KeepsSo};

use crate::packing::window_of;
use crate::queue::put;
use std::alloc::{AllocError, Global};
use tks_event::{Event, EventFields, Kind, Modifiers};
use tks_opt::{OptionName, Options, State};
use tks_queue::Place;
use tks_state::World;
use tks_tcl::{Interrupt, wrong_words};
use tks_text::{Limits, Txt};
use tks_tree::WindowId;

// The path of the window of a number.
fn path_at(alloc: Global, world: &World, window: WindowId) -> Result<Txt, AllocError>
    ensures { IfOk result (λ t. t ≡ path_at world.now window) }
{
    match world.tree().window(window) {
        Some(window) => window.path.try_clone(),
        None => Ok(Txt::new(alloc)),
    }
}

// A window gets the focus or loses it.
fn focus_event(alloc: Global, kind: Kind, window: WindowId) -> Event
    requires { is_event (focus_event kind window) ≡ true }
    ensures { result ≡ focus_event kind window }
{
    Event::new(EventFields {
        window: window.number(),
        kind,
        detail: Txt::new(alloc),
        state: Modifiers::none(),
        time: 0,
        x: 0,
        y: 0,
        root_x: 0,
        root_y: 0,
        payload: Txt::new(alloc),
    })
}

// Gives the focus to another window, and puts the events that tell of it behind all others.
#[tactic(auto, using(crate::proofs::Legal::leaves_legal, crate::proofs::Legal::comes_legal))]
fn move_focus(
    alloc: Global,
    window: WindowId,
    world: &mut World,
    limits: &Limits,
) -> Result<(), Interrupt>
    requires { window ≤ 2 ^ 62 }
    ensures value { GivesSo (λ _. world.new) result (focus_moved limits.now window world.old) }
    ensures kept { KeepsSo result world.old world.new }
{
    let left = world.focus();
    world.set_focus(window);
    put(
        world,
        Place::Tail,
        focus_event(alloc, Kind::FocusOut, left),
        limits,
    )?;
    put(
        world,
        Place::Tail,
        focus_event(alloc, Kind::FocusIn, window),
        limits,
    )?;
    Ok(())
}

// Gives a window the focus, if it hasn't it.
fn give_focus(
    alloc: Global,
    window: WindowId,
    world: &mut World,
    limits: &Limits,
) -> Result<(), Interrupt>
    requires { window ≤ 2 ^ 62 }
    ensures value { GivesSo (λ _. world.new) result (focus_given limits.now window world.old) }
    ensures kept { KeepsSo result world.old world.new }
{
    if window != world.focus() {
        move_focus(alloc, window, world, limits)?;
    }
    Ok(())
}

// Gives the focus to the window of a path. The empty text names none, and nothing is done.
fn focus_on(alloc: Global, path: &Txt, world: &mut World, limits: &Limits) -> Result<Txt, Interrupt>
    ensures value { GivesSo (λ t. (t, world.new)) result (focus_on limits.now path.now world.old) }
    ensures kept { KeepsSo result world.old world.new }
{
    if path.as_bytes().is_empty() {
        return Ok(Txt::new(alloc));
    }
    let window = window_of(world, path)?;
    give_focus(alloc, window, world, limits)?;
    Ok(Txt::new(alloc))
}

/// focus ?window?
#[tactic(auto, using(tks_tcl::proofs::Causes::tells))]
pub fn run_focus(
    alloc: Global,
    command: &Txt,
    words: &[Txt],
    world: &mut World,
    limits: &Limits,
) -> Result<Txt, Interrupt>
    ensures value { GivesSo (λ t. (t, world.new)) result (focus_does limits.now command.now words.now world.old) }
    ensures kept { KeepsSo result world.old world.new }
{
    match words {
        [] => {
            let path = path_at(alloc, world, world.focus())?;
            Ok(path)
        }
        [path] => {
            let text = focus_on(alloc, path, world, limits)?;
            Ok(text)
        }
        _ => Err(wrong_words(command)),
    }
}

// Whether it is the state in which a window isn't used.
fn is_disabled(state: Option<State>) -> bool
    ensures { result ≡ is_disabled state }
{
    matches!(state, Some(State::Disabled))
}

// Whether `-takefocus` is 1.
fn is_taking(options: &Options) -> bool
    ensures { result ≡ is_taking (value_in options.now.values OptionName.TakeFocus) }
{
    match options.value(OptionName::TakeFocus) {
        Some(value) => value.as_bytes() == b"1".as_slice(),
        None => false,
    }
}

// Whether a window of these options takes the focus by itself.
fn takes_focus(options: &Options) -> bool
    ensures { result ≡ takes_focus options.now }
{
    is_taking(options) && !is_disabled(options.state())
}

// The same of the window of a number.
fn takes_at(world: &World, window: WindowId) -> bool
    ensures { result ≡ takes_at world.now window }
{
    match world.kept(window) {
        Some(kept) => takes_focus(kept.widget.get().options()),
        None => false,
    }
}

// The next window that takes the focus by itself.
fn next_taking(world: &World, window: WindowId) -> Result<WindowId, AllocError>
    ensures { IfOk result (λ id. id ≡ next_taking world.now window) }
{
    let next = world
        .tree()
        .next_in_focus_order(window, |id| takes_at(world, id))?;
    Ok(next)
}

// The one before it.
fn previous_taking(world: &World, window: WindowId) -> Result<WindowId, AllocError>
    ensures { IfOk result (λ id. id ≡ previous_taking world.now window) }
{
    let previous = world
        .tree()
        .previous_in_focus_order(window, |id| takes_at(world, id))?;
    Ok(previous)
}

/// tk_focusNext window
#[tactic(auto, using(tks_tcl::proofs::Causes::tells))]
pub fn run_focus_next(
    alloc: Global,
    command: &Txt,
    words: &[Txt],
    world: &World,
) -> Result<Txt, Interrupt>
    ensures { GivesSo (λ t. (t, world.now)) result (focus_next_does command.now words.now world.now) }
{
    match words {
        [path] => {
            let window = window_of(world, path)?;
            let next = next_taking(world, window)?;
            let path = path_at(alloc, world, next)?;
            Ok(path)
        }
        _ => Err(wrong_words(command)),
    }
}

/// tk_focusPrev window
#[tactic(auto, using(tks_tcl::proofs::Causes::tells))]
pub fn run_focus_previous(
    alloc: Global,
    command: &Txt,
    words: &[Txt],
    world: &World,
) -> Result<Txt, Interrupt>
    ensures { GivesSo (λ t. (t, world.now)) result (focus_previous_does command.now words.now world.now) }
{
    match words {
        [path] => {
            let window = window_of(world, path)?;
            let previous = previous_taking(world, window)?;
            let path = path_at(alloc, world, previous)?;
            Ok(path)
        }
        _ => Err(wrong_words(command)),
    }
}
