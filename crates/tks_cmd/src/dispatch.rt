//! The scripts of an event, up to their list.
ghost use Rattle.std.specs.Prelude.{◌≡◌, None, option_copied, IfOk, OnOk};
ghost use Rattle.tks_tree.specs.View.{window_seen};
ghost use Rattle.tks_state.specs.Windows.{kept_of, on_kept};
ghost use Rattle.tks_state.specs.World.{with_event};
ghost use Rattle.tks_cmd.specs.Dispatch.{delivered, default_tags, tags_of, is_passed, with_more, script_of, tag_script, tag_scripts, event_scripts, begun};
ghost use Rattle.tks_cmd.specs.Meets.{LimitsSo};

use std::alloc::{AllocError, Global};
use tks_bind::{Binding, percents_within};
use tks_eval::Plan;
use tks_event::{Event, is_of_key};
use tks_state::World;
use tks_tcl::Stop;
use tks_text::{Limits, Seq, Txt, begins_dot, texts_again};
use tks_tree::{Window, WindowId};

// The event that is delivered: one of a key goes to the window that has the focus.
fn delivered(world: &World, event: Event) -> Event
    ensures { result ≡ delivered world.now event }
{
    if is_of_key(event.kind) {
        event.in_window(world.focus().number())
    } else {
        event
    }
}

// Adds an event that is delivered to the history, which passes over a virtual one.
fn remember(world: &mut World, event: &Event) -> Result<(), AllocError>
    ensures { OnOk result (world.new ≡ with_event event.now world.old) }
{
    world.add_event(event)?;
    Ok(())
}

// The tags that were set for a window, if any were.
fn own_tags(world: &World, window: WindowId) -> Option<&Seq<Txt>>
    ensures { option_copied result ≡ on_kept (kept_of world.now.kept window) None (λ k. k.tags) }
{
    match world.kept(window) {
        Some(kept) => kept.tags(),
        None => None,
    }
}

// The tags that a window has where none were set.
#[tactic(auto, using(crate::proofs::Tags::class_is_text))]
fn default_tags(alloc: Global, window: &Window<'_>) -> Result<Seq<Txt>, AllocError>
    ensures { IfOk result (λ tags. tags ≡ default_tags (window_seen window.now)) }
{
    let mut tags = Seq::new(alloc);
    tags.push(window.path.try_clone()?)?;
    tags.push(Txt::from_text(alloc, window.class.name())?)?;
    if !window.id.is_root() {
        tags.push(Txt::from_text(alloc, b".")?)?;
    }
    tags.push(Txt::from_text(alloc, b"all")?)?;
    Ok(tags)
}

/// The tags of a window, in the order in which their scripts run.
pub fn tags_of(alloc: Global, world: &World, window: &Window<'_>) -> Result<Seq<Txt>, AllocError>
    ensures { IfOk result (λ tags. tags ≡ tags_of world.now (window_seen window.now)) }
{
    match own_tags(world, window.id) {
        Some(tags) => texts_again(alloc, tags.as_slice()),
        None => default_tags(alloc, window),
    }
}

// Whether a tag is passed over: it begins with a dot and names no window.
fn is_passed(world: &World, tag: &Txt) -> bool
    ensures { result ≡ is_passed world.now tag.now }
{
    begins_dot(tag.as_bytes()) && world.tree().find(tag).is_none()
}

// Adds the script of a binding, with each percent form replaced, where it passes no limit. Where it would, it isn't made.
#[tactic(auto, using(crate::proofs::Scripts::none_more))]
fn add_script(
    alloc: Global,
    scripts: &mut Seq<Txt>,
    event: &Event,
    path: &Txt,
    binding: Option<&Binding>,
    limits: &Limits,
) -> Result<(), Stop>
    ensures { LimitsSo (λ _. scripts.new) result (with_more scripts.old (script_of limits.now event.now path.now (option_copied binding.entry))) }
{
    let Some(binding) = binding else {
        return Ok(());
    };
    let most = limits.text as usize;
    let Some(script) = percents_within(alloc, &binding.script, event, path, most)? else {
        return Err(Stop::TooLarge);
    };
    scripts.push(script)?;
    Ok(())
}

// Adds that of the binding of a tag that an event fires.
#[tactic(auto, using(crate::proofs::Scripts::none_more))]
fn add_tag(
    alloc: Global,
    scripts: &mut Seq<Txt>,
    world: &World,
    event: &Event,
    path: &Txt,
    tag: &Txt,
    limits: &Limits,
) -> Result<(), Stop>
    ensures { LimitsSo (λ _. scripts.new) result (with_more scripts.old (tag_script limits.now world.now event.now path.now tag.now)) }
{
    if is_passed(world, tag) {
        return Ok(());
    }
    let binding = world.chosen(tag, event);
    add_script(alloc, scripts, event, path, binding, limits)?;
    Ok(())
}

// Those of tags, in order.
#[tactic(auto, using(crate::proofs::Scripts::begins, crate::proofs::Scripts::none_more, crate::proofs::Scripts::fails))]
fn tag_scripts(
    alloc: Global,
    world: &World,
    event: &Event,
    path: &Txt,
    tags: &[Txt],
    limits: &Limits,
) -> Result<Seq<Txt>, Stop>
    ensures { LimitsSo (λ scripts. scripts) result (tag_scripts limits.now world.now event.now path.now tags.now) }
{
    let mut scripts = Seq::new(alloc);
    for tag in tags {
        add_tag(alloc, &mut scripts, world, event, path, tag, limits)?;
    }
    Ok(scripts)
}

// Those of the tags of an event's window.
fn event_scripts(
    alloc: Global,
    world: &World,
    event: &Event,
    limits: &Limits,
) -> Result<Seq<Txt>, Stop>
    ensures { LimitsSo (λ scripts. scripts) result (event_scripts limits.now world.now event.now) }
{
    let Some(window) = world.tree().window(WindowId::of(event.window)) else {
        return Ok(Seq::new(alloc));
    };
    let tags = tags_of(alloc, world, &window)?;
    let path = window.path;
    let scripts = tag_scripts(alloc, world, event, path, tags.as_slice(), limits)?;
    Ok(scripts)
}

/// Delivers an event: one of a key goes to the window that has the focus, a physical one joins the history, and for each
/// tag of its window, in order, the script of the binding that it fires is chosen and its percent forms are replaced,
/// all before the first of them runs. What is left to be done is the plan. The stops are `TooLarge`, where one of these
/// scripts would pass the limit of a text, and `NoMemory`; after them nothing is said of the world.
#[tactic(auto, unfolding(crate::specs::Dispatch::begun))]
pub fn begin(alloc: Global, world: &mut World, event: Event, limits: &Limits) -> Result<Plan, Stop>
    ensures { LimitsSo (λ p. (p, world.new)) result (begun limits.now world.old event) }
{
    let event = delivered(world, event);
    remember(world, &event)?;
    let window = event.window;
    let scripts = event_scripts(alloc, world, &event, limits)?;
    Ok(Plan::Dispatch(window, scripts))
}
