//! What a world is made again of, and which parts are those of a world.
ghost use Rattle.std.specs.Prelude.{◌≡◌, ℕ, ◌<◌, ◌^◌, ◌==◌, ◌||◌, nat_le, not, length, map, Some, None, IfOk, OnOk, if◌then◌else◌};
ghost use Rattle.std.specs.BTreeSet.{contains};
ghost use Rattle.std.specs.List.{list_all};
ghost use Rattle.std.specs.Ordering.{nat_cmp};
ghost use Rattle.tks_tree.specs.View.{window_seen};
ghost use Rattle.tks_tree.specs.Windows.{parent};
ghost use Rattle.tks_state.specs.Events.{max_faults};
ghost use Rattle.tks_state.specs.Restoring.{kept_of_parts, is_kept_of, are_in_step, are_distinct, is_number, packs_children};

use crate::event_loop::EventLoop;
use crate::events::Events;
use crate::kept::{Kept, held_tags};
use crate::rules::Rules;
use crate::widget::Widget;
use std::alloc::{AllocError, Global};
use std::collections::BTreeSet;
use tks_app::Memories;
use tks_bind::{Bindings, History, Virtuals};
use tks_event::Held;
use tks_opt::class_number;
use tks_pack::{Content, Packing};
use tks_queue::Queue;
use tks_share::{Items, Shared, SharedList};
use tks_text::{Seq, Size, Txt};
use tks_timer::Timers;
use tks_tree::{Tree, Window, WindowId};
use tks_vars::Vars;

/// What is kept of a window.
#[derive(Drop)]
pub struct WindowParts {
    pub widget: Widget,
    /// The tags that were set, if any were.
    pub tags: Option<Seq<Txt>>,
    pub packing: Packing,
}

/// What a world is made again of.
#[derive(Drop)]
pub struct WorldParts {
    /// How many inputs were accepted.
    pub accepted: u64,
    /// In milliseconds.
    pub clock: u64,
    pub tree: Tree,
    /// One for each window of the tree, in its order.
    pub windows: Vec<WindowParts>,
    pub variables: Vars,
    pub bindings: Bindings,
    pub virtuals: Virtuals,
    pub history: History,
    pub queue: Queue,
    pub timers: Timers,
    pub focus: WindowId,
    pub held: Held,
    pub pressed: Option<WindowId>,
    pub memories: Memories,
    pub faults: Seq<Txt>,
    pub rules: Rules,
    pub grid: Size,
}

/// What the bindings, virtual events, the history and the faults of a world are made again of.
pub(crate) struct EventParts {
    pub bindings: Bindings,
    pub virtuals: Virtuals,
    pub history: History,
    pub faults: Seq<Txt>,
}

// Written out, so that to let go of it is one call for whoever owns it.
impl Drop for EventParts {
    fn drop(self) {
        let EventParts {
            bindings: _,
            virtuals: _,
            history: _,
            faults: _,
        } = self;
    }
}

impl EventParts {
    /// Those, where no more faults are kept than may be.
    pub(crate) fn made(self, alloc: Global) -> Result<Option<Events>, AllocError>
        ensures { IfOk result (λ made. made ≡ (if nat_le (length self.faults) max_faults then Some (record { bindings = self.bindings; virtuals = self.virtuals; history = self.history; faults = self.faults }) else None)) }
    {
        let EventParts {
            bindings,
            virtuals,
            history,
            faults,
        } = self;
        let events = Events::restore(alloc, bindings, virtuals, history, faults.into_items())?;
        Ok(events)
    }
}

/// What a world's event loop is made again of.
pub(crate) struct LoopParts {
    pub clock: u64,
    pub queue: Queue,
    pub timers: Timers,
    pub focus: WindowId,
    pub held: Held,
    pub pressed: Option<WindowId>,
}

// The same.
impl Drop for LoopParts {
    fn drop(self) {
        let LoopParts {
            clock: _,
            queue: _,
            timers: _,
            focus: _,
            held: _,
            pressed: _,
        } = self;
    }
}

impl LoopParts {
    /// The event loop.
    pub(crate) fn made(self) -> EventLoop
        requires { self.clock < 2 ^ 62 }
        ensures { result ≡ record { clock = self.clock; queue = self.queue; timers = self.timers; focus = self.focus; held = self.held; pressed = self.pressed } }
    {
        let LoopParts {
            clock,
            queue,
            timers,
            focus,
            held,
            pressed,
        } = self;
        EventLoop::restore(clock, queue, timers, focus, held, pressed)
    }
}

// What is kept of a window, of its parts.
fn kept_with(alloc: Global, window: WindowId, part: WindowParts) -> Result<Kept, AllocError>
    ensures { IfOk result (λ k. k ≡ record { window = window; widget = part.widget; tags = part.tags; packing = part.packing }) }
{
    let WindowParts {
        widget,
        tags,
        packing,
    } = part;
    Ok(Kept {
        window,
        widget: Shared::new(alloc, widget)?,
        tags: held_tags(alloc, tags)?,
        packing,
    })
}

/// What is kept of each window of a tree, as long as there are parts.
#[tactic(auto, using(crate::proofs::Restored::kept_at, crate::proofs::Restored::none_kept))]
pub fn kept_of_parts(
    alloc: Global,
    tree: &Tree,
    parts: Vec<WindowParts>,
) -> Result<SharedList<Kept>, AllocError>
    ensures { IfOk result (λ kept. kept ≡ kept_of_parts tree.now.windows parts.items) }
{
    let mut kept = SharedList::new(alloc);
    let mut parts = parts.into_iter();
    for index in 0..tree.len() {
        let Some(window) = tree.nth(index) else {
            unreachable!()
        };
        let Some(part) = parts.next() else {
            return Ok(kept);
        };
        kept.push(kept_with(alloc, window.id, part)?)?;
    }
    Ok(kept)
}

// Whether this is kept of the window, and its widget is of the window's class.
fn is_kept_of(window: &Window<'_>, kept: &Kept) -> bool
    ensures { result ≡ is_kept_of (window_seen window.now) kept.now }
{
    kept.window == window.id
        && class_number(kept.widget.get().options().class()) == class_number(window.class)
}

/// Whether one is kept of each window, in the same order.
#[tactic(auto, using(crate::proofs::Restored::in_step_at, crate::proofs::Restored::not_in_step))]
pub fn are_in_step(tree: &Tree, kept: &SharedList<Kept>) -> bool
    ensures { result ≡ are_in_step tree.now.windows kept.now }
{
    if tree.len() != kept.len() {
        return false;
    }
    for index in 0..kept.len() {
        let Some(window) = tree.nth(index) else {
            unreachable!()
        };
        let Some(one) = kept.get(index) else {
            unreachable!()
        };
        if !is_kept_of(&window, one) {
            return false;
        }
    }
    true
}

// Keeps that a window was seen, and says whether it was the first time.
fn add_seen(seen: &mut BTreeSet<u64>, window: WindowId) -> Result<bool, AllocError>
    ensures is_new { IfOk result (λ is_new. is_new ≡ not (contains nat_cmp seen.old window)) }
    ensures kept { OnOk result ((n : ℕ) → contains nat_cmp seen.new n ≡ (window == n || contains nat_cmp seen.old n)) }
{
    let is_new = seen.insert(window.number())?;
    Ok(is_new)
}

// Whether packed windows differ.
fn are_distinct(alloc: Global, contents: Items<'_, Content>) -> Result<bool, AllocError>
    ensures { IfOk result (λ b. b ≡ are_distinct (map (λ c. c.window) contents.entry)) }
{
    let mut seen = BTreeSet::new(alloc);
    for content in contents {
        if !add_seen(&mut seen, content.window)? {
            return Ok(false);
        }
    }
    Ok(true)
}

// Whether windows stand right in one.
fn are_children(tree: &Tree, container: WindowId, contents: Items<'_, Content>) -> bool
    ensures { result ≡ list_all (λ n. is_number container (parent tree.now n)) (map (λ c. c.window) contents.entry) }
{
    for content in contents {
        if tree.parent(content.window) != Some(container) {
            return false;
        }
    }
    true
}

/// Whether the windows that are packed in each differ, and stand right in it.
pub fn all_pack_children(
    alloc: Global,
    tree: &Tree,
    kept: &SharedList<Kept>,
) -> Result<bool, AllocError>
    ensures { IfOk result (λ b. b ≡ list_all (packs_children tree.now) kept.now) }
{
    for one in kept.iter() {
        let packing = &one.packing;
        if !are_distinct(alloc, packing.contents())?
            || !are_children(tree, one.window, packing.contents())
        {
            return Ok(false);
        }
    }
    Ok(true)
}
