//! What turns work on: the clock, what waits to be delivered or run, the focus, and what is held down.
ghost use Rattle.std.specs.Prelude.{◌≡◌, ◌↔◌, ◌≤◌, ◌<◌, ◌^◌, Err, is_some, IfOk, IfErr, OnOk, OnErr};
ghost use Rattle.std.specs.List.{list_all};
ghost use Rattle.tks_queue.specs.EventQueue.{put, first, without_first};
ghost use Rattle.tks_timer.specs.After as after;
ghost use Rattle.tks_timer.specs.After.{script_in, kept_under, with_script};
ghost use Rattle.tks_tree.specs.Windows.{of_number};
ghost use Rattle.tks_state.specs.EventLoop.{first_loop, is_there, is_for, is_press, all_in, left_queue, left_focus, left_pressed, left};
ghost use Rattle.tks_state.specs.WellFormed.{WellFormedLoop};

use std::alloc::{AllocError, AllocFailed, Global};
use std::marker::Model;
use tks_event::{Event, Held};
use tks_queue::{Place, Queue, Queued};
use tks_share::{Items, Share};
use tks_text::Txt;
use tks_timer::{AfterFault, Timers};
use tks_tree::{Tree, WindowId};

/// What turns work on. The clock is below 2^62. Copies share the events and scripts that wait, but for what one of them has changed.
pub struct EventLoop {
    clock: u64,
    queue: Queue,
    timers: Timers,
    focus: WindowId,
    held: Held,
    pressed: Option<WindowId>,
}

// Written out, so that to let go of it is one step for whoever owns it.
impl Drop for EventLoop {
    fn drop(self) {
        let EventLoop {
            clock: _,
            queue: _,
            timers: _,
            focus: _,
            held: _,
            pressed: _,
        } = self;
    }
}

impl Model for EventLoop {
    ghost use Rattle.tks_state.specs.EventLoop.{EventLoop};

    ghost Value = { EventLoop };

    ghost view = { λ x. record { clock = x.clock; queue = x.queue; timers = x.timers; focus = x.focus; held = x.held; pressed = x.pressed } };

    ghost use Rattle.std.specs.Prelude.{◌<◌, ◌^◌};

    ghost invariant = { λ x. x.clock < 2 ^ 62 };
}

impl EventLoop {
    /// The clock stands at 0, nothing waits, `.` has the focus, and nothing is held.
    pub fn new(alloc: Global) -> EventLoop
        ensures { result ≡ first_loop }
    {
        EventLoop {
            clock: 0,
            queue: Queue::new(alloc),
            timers: Timers::new(alloc),
            focus: WindowId::root(),
            held: Held::nothing(),
            pressed: None,
        }
    }

    /// The one with these parts.
    pub fn restore(
        clock: u64,
        queue: Queue,
        timers: Timers,
        focus: WindowId,
        held: Held,
        pressed: Option<WindowId>,
    ) -> EventLoop
        requires { clock < 2 ^ 62 }
        ensures { result ≡ record { clock = clock; queue = queue; timers = timers; focus = focus; held = held; pressed = pressed } }
    {
        EventLoop {
            clock,
            queue,
            timers,
            focus,
            held,
            pressed,
        }
    }

    /// What holds of all that turns work on.
    pub fn stands(&self)
        ensures { WellFormedLoop self.now }
    {
        let _ = self.clock();
        let _ = self.queue.events();
        let _ = self.timers.next();
    }

    /// Whether the focus, the events that wait and the last press are of windows that are there.
    pub fn is_in(&self, tree: &Tree) -> bool
        ensures { result ≡ all_in tree.now.windows self.now }
    {
        is_there(tree, self.focus)
            && are_for(tree, self.queue.events())
            && is_press(tree, self.pressed)
    }

    /// The time, in milliseconds.
    pub fn clock(&self) -> u64
        ensures value { result ≡ self.now.clock }
        ensures bound { self.now.clock < 2 ^ 62 }
    {
        self.clock
    }

    /// Sets the clock.
    pub fn set_clock(&mut self, time: u64)
        requires { time < 2 ^ 62 }
        ensures { self.new ≡ record self.old { clock = time } }
    {
        self.clock = time;
    }

    /// The events that wait to be delivered, the next one first.
    pub fn queue(&self) -> &Queue
        ensures { result.now ≡ self.now.queue }
    {
        &self.queue
    }

    /// Puts an event into its place; one of a key waits under `.`. Where memory is refused, it hands the event back.
    pub fn put_event(&mut self, place: Place, event: Event) -> Result<(), AllocFailed<Event>>
        ensures ok { OnOk result (self.new ≡ record self.old { queue = put place event self.old.queue }) }
        ensures err { OnErr result (self.new ≡ self.old) }
        ensures handed_back { IfErr result (λ refused. refused.value ≡ event) }
    {
        self.queue.put(place, event)
    }

    /// Takes out the first event.
    pub fn take_event(&mut self) -> Result<Option<Event>, AllocError>
        ensures value { IfOk result (λ event. event ≡ first self.old.queue) }
        ensures ok { OnOk result (self.new ≡ record self.old { queue = without_first self.old.queue }) }
        ensures err { OnErr result (self.new ≡ self.old) }
    {
        self.queue.take()
    }

    /// The scripts that wait to be run.
    pub fn timers(&self) -> &Timers
        ensures { result.now ≡ self.now.timers }
    {
        &self.timers
    }

    /// Keeps a script that is due at a time. It answers the script's id.
    pub fn keep_timer(&mut self, due: u64, script: Txt) -> Result<u64, AfterFault>
        ensures id { IfOk result (λ id. id ≡ self.old.timers.next) }
        ensures ok { OnOk result (self.new ≡ record self.old { timers = after.with_timer due script self.old.timers }) }
        ensures full { (result ≡ Err AfterFault.OutOfNumbers) ↔ (2 ^ 62 ≤ self.old.timers.next) }
        ensures err { OnErr result (self.new ≡ self.old) }
    {
        self.timers.after(due, script)
    }

    /// Keeps a script that runs when nothing else is to be done. It answers the script's id.
    pub fn keep_idle(&mut self, script: Txt) -> Result<u64, AfterFault>
        ensures id { IfOk result (λ id. id ≡ self.old.timers.next) }
        ensures ok { OnOk result (self.new ≡ record self.old { timers = after.with_idle script self.old.timers }) }
        ensures full { (result ≡ Err AfterFault.OutOfNumbers) ↔ (2 ^ 62 ≤ self.old.timers.next) }
        ensures err { OnErr result (self.new ≡ self.old) }
    {
        self.timers.idle(script)
    }

    /// Takes out the script of an id; where there is none, nothing is done.
    pub fn cancel(&mut self, id: u64) -> Result<(), AllocError>
        ensures ok { OnOk result (self.new ≡ record self.old { timers = after.without id self.old.timers }) }
        ensures err { OnErr result (self.new ≡ self.old) }
    {
        self.timers.cancel(id)
    }

    /// Takes out the script with the least id of those that are equal to this one; where there is none, nothing is done.
    pub fn cancel_script(&mut self, script: &Txt) -> Result<(), AllocError>
        ensures ok { OnOk result (self.new ≡ record self.old { timers = after.without_found (with_script script.now self.old.timers) self.old.timers }) }
        ensures err { OnErr result (self.new ≡ self.old) }
    {
        self.timers.cancel_script(script)
    }

    /// Takes out the script of an id, to be run.
    pub fn take_script(&mut self, id: u64) -> Result<Option<Txt>, AllocError>
        ensures value { IfOk result (λ script. script ≡ script_in (kept_under id self.old.timers)) }
        ensures ok { OnOk result (self.new ≡ record self.old { timers = after.without id self.old.timers }) }
        ensures err { OnErr result (self.new ≡ self.old) }
    {
        self.timers.take(id)
    }

    /// The window that has the focus.
    pub fn focus(&self) -> WindowId
        ensures { result ≡ self.now.focus }
    {
        self.focus
    }

    /// Gives a window the focus.
    pub fn set_focus(&mut self, window: WindowId)
        ensures { self.new ≡ record self.old { focus = window } }
    {
        self.focus = window;
    }

    /// What is held down.
    pub fn held(&self) -> Held
        ensures { result ≡ self.now.held }
    {
        self.held
    }

    /// Says what is held down.
    pub fn set_held(&mut self, held: Held)
        ensures { self.new ≡ record self.old { held = held } }
    {
        self.held = held;
    }

    /// The window that took the last press, if it is there.
    pub fn pressed(&self) -> Option<WindowId>
        ensures { result ≡ self.now.pressed }
    {
        self.pressed
    }

    /// Says which window took the last press.
    pub fn set_pressed(&mut self, window: Option<WindowId>)
        ensures { self.new ≡ record self.old { pressed = window } }
    {
        self.pressed = window;
    }

    /// The same without what is of windows that are not there.
    pub fn left(&self, tree: &Tree) -> Result<EventLoop, AllocError>
        ensures { IfOk result (λ x. x ≡ left tree.now.windows self.now) }
    {
        let mut left = self.share()?;
        leave(&mut left.queue, tree)?;
        left.focus = left_focus(tree, left.focus);
        left.pressed = left_pressed(tree, left.pressed);
        Ok(left)
    }
}

impl Share for EventLoop {
    fn share(&self) -> Result<EventLoop, AllocError> {
        Ok(EventLoop {
            clock: self.clock,
            queue: self.queue.share()?,
            timers: self.timers.share()?,
            focus: self.focus,
            held: self.held,
            pressed: self.pressed,
        })
    }
}

/// Whether the window of a number is there.
pub fn is_there(tree: &Tree, window: WindowId) -> bool
    ensures { result ≡ is_there tree.now.windows window }
{
    tree.window(window).is_some()
}

// The window, where it is there, or else `.`.
fn left_focus(tree: &Tree, window: WindowId) -> WindowId
    ensures { result ≡ left_focus tree.now.windows window }
{
    if is_there(tree, window) {
        window
    } else {
        WindowId::root()
    }
}

/// The window, where it is there.
pub fn left_pressed(tree: &Tree, window: Option<WindowId>) -> Option<WindowId>
    ensures { result ≡ left_pressed tree.now.windows window }
{
    match window {
        Some(window) if is_there(tree, window) => Some(window),
        _ => None,
    }
}

// Whether the window that took the last press is there, if one did.
fn is_press(tree: &Tree, pressed: Option<WindowId>) -> bool
    ensures { result ≡ is_press tree.now.windows pressed }
{
    match pressed {
        Some(window) => is_there(tree, window),
        None => true,
    }
}

// Whether the window of each event is there.
fn are_for(tree: &Tree, events: Items<'_, Queued>) -> bool
    ensures { result ≡ list_all (is_for tree.now.windows) events.entry }
{
    for queued in events {
        if !is_for(tree, queued) {
            return false;
        }
    }
    true
}

// Whether an event stays: its window is there.
fn is_for(tree: &Tree, queued: &Queued) -> bool
    ensures { result ≡ is_for tree.now.windows queued.now }
{
    is_there(tree, WindowId::of(queued.event.window))
}

// Takes out the events of windows that are not there. Where there are none, nothing is copied.
fn leave(queue: &mut Queue, tree: &Tree) -> Result<(), AllocError>
    ensures { OnOk result (queue.new ≡ left_queue tree.now.windows queue.old) }
{
    queue.retain(
        |queued: &Queued| -> bool
            ensures { result ≡ is_for tree.entry.now.windows queued.now }
        { is_for(tree, queued) },
    )
}
