//! The world: what is kept between inputs, and its changes.
ghost use Rattle.std.specs.Prelude.{◌≡◌, true, ◌≢◌, ◌↔◌, ◌≤◌, ◌+◌, ◌<◌, ◌^◌, [], Err, option_map, option_copied, IfOk, IfErr, IfSome, OnOk, OnErr};
ghost use Rattle.std.specs.FinMap as map;
ghost use Rattle.tks_text.specs.Fault.{Gives};
ghost use Rattle.tks_vars.specs.Variables.{no_variables};
ghost use Rattle.tks_bind.specs.Choosing.{chosen};
ghost use Rattle.tks_tree.specs.Meets.{MakesSo};
ghost use Rattle.tks_tree.specs.WellFormed as trees;
ghost use Rattle.tks_tree.specs.WellFormed.{is_widget_class};
ghost use Rattle.tks_state.specs.Widget.{class_of};
ghost use Rattle.tks_state.specs.Windows.{kept_of};
ghost use Rattle.tks_state.specs.EventLoop.{all_in};
ghost use Rattle.tks_state.specs.Laid.{StandSo};
ghost use Rattle.tks_state.specs.WellFormed.{WellFormed};
ghost use Rattle.tks_state.specs.Restoring.{counts_fit, restored};
ghost use Rattle.tks_queue.specs.EventQueue.{first};
ghost use Rattle.tks_timer.specs.After.{script_in, kept_under};
ghost use Rattle.tks_state.specs.World.{with_virtual, without_virtual, without_virtual_sequence, with_rules, with_clock, queued, without_event, with_timer, with_idle, without_id, without_script, focused, holding, pressed_in};
ghost use Rattle.tks_state.specs.World.{world_with, first_world, with_window, with_widget, called, unpacked, destroyed, tagged, packed, with_propagation, bound_to, with_event, with_fault, scene, windows_of};

use crate::asking::Asked;
use crate::event_loop::{EventLoop, is_there, left_pressed};
use crate::events::Events;
use crate::kept::Kept;
use crate::laid::{Laid, Places};
use crate::links::are_same_if_any;
use crate::restoring::{EventParts, LoopParts, WindowParts, WorldParts, kept_of_parts};
use crate::rules::Rules;
use crate::widget::Widget;
use crate::windows::Windows;
use std::alloc::{AllocError, AllocFailed, Global};
use std::marker::Model;
use std::mem;
use tks_app::Memories;
use tks_bind::{BindFault, Binding, Bindings, History, PhysicalSequence, Virtuals};
use tks_event::{Event, Held, Sequence, VirtualName};
use tks_opt::Said;
use tks_parse_table::ParseTable;
use tks_queue::{Place, Queue};
use tks_share::{Share, SharedList};
use tks_text::{Failure, MAX_NUMBER, MAX_TIME, Seq, Size, Txt};
use tks_timer::{AfterFault, Timers};
use tks_tree::{CreateFault, Tree, WindowId};
use tks_vars::Vars;

/// What is kept between inputs. Copies share what none of them has changed. Beside what contracts see, a world has what the scripts of
/// its inputs parsed, of which no copy has anything, and where its windows lie, until something changes that may move one.
pub struct World {
    alloc: Global,
    accepted: u64,
    windows: Windows,
    variables: Vars,
    events: Events,
    event_loop: EventLoop,
    memories: Memories,
    rules: Rules,
    grid: Size,
    places: Places,
    parsed: ParseTable,
}

// Written out, so that to let go of a world is one step for whoever owns it.
impl Drop for World {
    fn drop(self) {
        let World {
            alloc: _,
            accepted: _,
            windows: _,
            variables: _,
            events: _,
            event_loop: _,
            memories: _,
            rules: _,
            grid: _,
            places: _,
            parsed: _,
        } = self;
    }
}

impl Model for World {
    ghost use Rattle.std.specs.Prelude.{◌≤◌, ◌^◌};
    ghost use Rattle.std.specs.Coded.{codes};
    ghost use Rattle.tks_app.specs.Memories.{memories_code};
    ghost use Rattle.tks_vars.specs.Variables.{variables_code};
    ghost use Rattle.tks_state.specs.World.{World};

    ghost Value = { World };

    ghost coded = { Prim.hlevel (codes, variables_code, memories_code) };

    ghost view = { λ w. record { accepted = w.accepted; clock = w.event_loop.clock; tree = w.windows.tree; kept = w.windows.kept; variables = w.variables; bindings = w.events.bindings; virtuals = w.events.virtuals; history = w.events.history; queue = w.event_loop.queue; timers = w.event_loop.timers; focus = w.event_loop.focus; held = w.event_loop.held; pressed = w.event_loop.pressed; memories = w.memories; faults = w.events.faults; rules = w.rules; grid = w.grid } };

    ghost use Rattle.std.specs.Prelude.{◌≡◌, true, []};
    ghost use Rattle.tks_state.specs.EventLoop.{all_in};
    ghost use Rattle.tks_state.specs.Laid.{ArePlaces};

    ghost invariant = { λ w. (w.accepted ≤ 2 ^ 62) × (all_in w.windows.tree.windows w.event_loop ≡ true) × (w.variables.locals ≡ []) × ArePlaces w.windows w.grid w.places };
}

// Whether so many inputs may have been accepted, and the clock may stand so.
fn counts_fit(accepted: u64, clock: u64) -> bool
    ensures { result ≡ counts_fit accepted clock }
{
    accepted <= MAX_NUMBER && clock <= MAX_TIME
}

impl World {
    /// The world before any input, with a grid of this size, for an application whose commands have these names.
    pub fn first(alloc: Global, grid: Size, names: &[Txt]) -> Result<World, AllocError>
        ensures { IfOk result (λ w. w ≡ first_world grid names.now) }
    {
        Ok(World {
            alloc,
            accepted: 0,
            windows: Windows::first(alloc)?,
            variables: Vars::new(alloc),
            events: Events::first(alloc)?,
            event_loop: EventLoop::new(alloc),
            memories: Memories::first(alloc, names)?,
            rules: Rules::One,
            grid,
            places: Places::unknown(),
            parsed: ParseTable::new(alloc),
        })
    }

    /// The world of these parts, where there may be such a world: one of these is kept of each window, of its class; what is
    /// packed in a window are distinct windows that stand right in it; no more inputs were accepted than may be, the clock is no
    /// later, and no more faults are kept; no frame of variables stands; and the focus, the events that wait and the last press are of windows
    /// that are there.
    #[tactic(auto, using(crate::proofs::Restored::too_many))]
    pub fn restore(alloc: Global, parts: WorldParts) -> Result<Option<World>, AllocError>
        ensures { IfOk result (λ world. world ≡ restored parts) }
    {
        if !counts_fit(parts.accepted, parts.clock) {
            return Ok(None);
        }
        World::of_parts(alloc, parts)
    }

    // The same, where no number is too great.
    fn of_parts(alloc: Global, parts: WorldParts) -> Result<Option<World>, AllocError>
        requires counted { parts.accepted ≤ 2 ^ 62 }
        requires clock { parts.clock < 2 ^ 62 }
        ensures { IfOk result (λ world. world ≡ restored parts) }
    {
        let WorldParts {
            accepted,
            clock,
            tree,
            windows,
            variables,
            bindings,
            virtuals,
            history,
            queue,
            timers,
            focus,
            held,
            pressed,
            memories,
            faults,
            rules,
            grid,
        } = parts;
        let events = EventParts {
            bindings,
            virtuals,
            history,
            faults,
        };
        let event_loop = LoopParts {
            clock,
            queue,
            timers,
            focus,
            held,
            pressed,
        };
        World::of_groups(
            alloc, accepted, tree, windows, variables, events, event_loop, memories, rules, grid,
        )
    }

    // The same, of parts that are let go together where one is refused.
    #[tactic(auto, unfolding(crate::specs::Restoring::is_possible))]
    fn of_groups(
        alloc: Global,
        accepted: u64,
        tree: Tree,
        windows: Vec<WindowParts>,
        variables: Vars,
        events: EventParts,
        event_loop: LoopParts,
        memories: Memories,
        rules: Rules,
        grid: Size,
    ) -> Result<Option<World>, AllocError>
        requires counted { accepted ≤ 2 ^ 62 }
        requires clock { event_loop.clock < 2 ^ 62 }
        ensures { IfOk result (λ world. world ≡ restored (record { accepted = accepted; clock = event_loop.clock; tree = tree; windows = windows; variables = variables; bindings = events.bindings; virtuals = events.virtuals; history = events.history; queue = event_loop.queue; timers = event_loop.timers; focus = event_loop.focus; held = event_loop.held; pressed = event_loop.pressed; memories = memories; faults = events.faults; rules = rules; grid = grid })) }
    {
        // What holds of all histories is asked for here.
        let _ = events.history.events();
        let kept = kept_of_parts(alloc, &tree, windows)?;
        let event_loop = event_loop.made();
        if variables.depth() > 0 || !event_loop.is_in(&tree) {
            return Ok(None);
        }
        let Some(windows) = Windows::restore(alloc, tree, kept)? else {
            return Ok(None);
        };
        let Some(events) = events.made(alloc)? else {
            return Ok(None);
        };
        Ok(Some(World::of(
            alloc, accepted, windows, variables, events, event_loop, memories, rules, grid,
        )))
    }

    // The world of parts that fit together.
    fn of(
        alloc: Global,
        accepted: u64,
        windows: Windows,
        variables: Vars,
        events: Events,
        event_loop: EventLoop,
        memories: Memories,
        rules: Rules,
        grid: Size,
    ) -> World
        requires counted { accepted ≤ 2 ^ 62 }
        requires there { all_in windows.tree.windows event_loop ≡ true }
        requires rests { variables.locals ≡ [] }
        ensures { result ≡ world_with accepted windows variables events event_loop memories rules grid }
    {
        World {
            alloc,
            accepted,
            windows,
            variables,
            events,
            event_loop,
            memories,
            rules,
            grid,
            places: Places::unknown(),
            parsed: ParseTable::new(alloc),
        }
    }

    // Where the world's memory comes from.
    pub(crate) fn alloc(&self) -> Global {
        self.alloc
    }

    /// What holds of all worlds.
    pub fn stands(&self)
        ensures { WellFormed self.now }
    {
        let _ = self.windows.tree();
        self.events.stands();
        self.event_loop.stands();
    }

    /// How many inputs were accepted.
    pub fn accepted(&self) -> u64
        ensures value { result ≡ self.now.accepted }
        ensures bound { self.now.accepted ≤ 2 ^ 62 }
    {
        self.accepted
    }

    /// The rules by which scripts are run.
    pub fn rules(&self) -> Rules
        ensures { result ≡ self.now.rules }
    {
        self.rules
    }

    /// Has scripts run by other rules from here on.
    pub fn set_rules(&mut self, rules: Rules)
        ensures { self.new ≡ with_rules rules self.old }
    {
        self.rules = rules;
    }

    /// The grid's size.
    pub fn grid(&self) -> Size
        ensures { result ≡ self.now.grid }
    {
        self.grid
    }

    /// The windows: their numbers, paths and classes.
    pub fn tree(&self) -> &Tree
        ensures value { result.now ≡ self.now.tree }
        ensures formed { trees.WellFormed self.now.tree }
    {
        self.windows.tree()
    }

    /// What is kept of each window, in the order in which the windows were made.
    pub fn all_kept(&self) -> &SharedList<Kept>
        ensures { result.now ≡ self.now.kept }
    {
        self.windows.all()
    }

    /// What is kept of the window of a number.
    pub fn kept(&self, window: WindowId) -> Option<&Kept>
        ensures { option_map (λ k. k.now) result ≡ kept_of self.now.kept window }
    {
        self.windows.get(window)
    }

    // How the windows lie, where it is known.
    pub(crate) fn places(&self) -> Option<&Laid>
        ensures { IfSome result (λ laid. StandSo (windows_of self.now) self.now.grid laid.now) }
    {
        self.places.get()
    }

    // Keeps how the windows lie.
    pub(crate) fn keep_places(&mut self, laid: Laid) -> Result<(), AllocError>
        requires { StandSo (windows_of self.old) self.old.grid laid }
        ensures { self.new ≡ self.old }
    {
        self.places = Places::known(self.alloc, laid)?;
        Ok(())
    }

    /// The variables and procedures. No frame of variables stands.
    pub fn variables(&self) -> &Vars
        ensures { result.now ≡ self.now.variables }
    {
        &self.variables
    }

    /// Takes the variables out, of which no frame stands. None are left.
    pub fn take_variables(&mut self) -> Vars
        ensures taken { result ≡ self.old.variables }
        ensures rests { result.locals ≡ [] }
        ensures left { self.new ≡ record self.old { variables = no_variables } }
    {
        mem::replace(&mut self.variables, Vars::new(self.alloc))
    }

    /// Puts variables, of which no frame stands, in the place of the present ones.
    pub fn put_variables(&mut self, variables: Vars)
        requires { variables.locals ≡ [] }
        ensures { self.new ≡ record self.old { variables = variables } }
    {
        self.variables = variables;
    }

    /// Says how many inputs were accepted.
    pub fn set_accepted(&mut self, count: u64)
        requires { count ≤ 2 ^ 62 }
        ensures { self.new ≡ record self.old { accepted = count } }
    {
        self.accepted = count;
    }

    /// Makes a window other than `.`, which is this widget. The path has to be one that no window has, in a window that is there.
    pub fn add_window(&mut self, path: &Txt, widget: Widget) -> Result<WindowId, CreateFault>
        requires { is_widget_class (class_of widget) ≡ true }
        ensures value { MakesSo (λ id. (id, self.new)) result (with_window self.old path.now widget) }
        ensures err { OnErr result (self.new ≡ self.old) }
    {
        self.places = Places::unknown();
        let window = self.windows.add(path, widget)?;
        Ok(window)
    }

    /// Destroys a window, with all that stand in it, the bindings of their paths and the events that wait for them. `.`
    /// stays, that is an error, and gets the focus of one that is gone. Where no window has the number, none is destroyed.
    pub fn remove_window(&mut self, window: WindowId) -> Result<(), Failure>
        ensures value { Gives (λ _. self.new) result (destroyed self.old window) }
        ensures err { OnErr result (self.new ≡ self.old) }
    {
        let (windows, gone) = self.windows.without(window)?;
        let events = self.events.left(self.windows.tree(), window, &gone)?;
        let event_loop = self.event_loop.left(windows.tree())?;
        self.places = Places::unknown();
        self.windows = windows;
        self.events = events;
        self.event_loop = event_loop;
        Ok(())
    }

    /// Puts another widget of its class in the place of a window's. Where no window has the number, nothing is done.
    pub fn set_widget(&mut self, window: WindowId, widget: Widget) -> Result<(), AllocError>
        requires { IfSome (kept_of self.old.kept window) (λ k. class_of k.widget ≡ class_of widget) }
        ensures ok { OnOk result (self.new ≡ with_widget self.old window widget) }
        ensures err { OnErr result (self.new ≡ self.old) }
    {
        let places = self.places.with_widget(self.kept(window), &widget)?;
        self.windows.set_widget(window, widget)?;
        self.places = places;
        Ok(())
    }

    /// What the widget of a window answers to the words of a whole command, the window's path first. The widget stays where it
    /// stands, and is copied only where a mark holds it too. Where no window has the number, the answer is empty.
    pub fn call_widget(&mut self, window: WindowId, words: &[Txt]) -> Result<Said, Failure>
        ensures value { Gives (λ said. (said, self.new)) result (called self.old window words.now) }
        ensures err { OnErr result (self.new ≡ self.old) }
    {
        match self.windows.ask(window, words) {
            Ok(Asked::Said(said)) => Ok(said),
            Ok(Asked::Changes(change)) => {
                let places = mem::replace(&mut self.places, Places::unknown());
                let before = self.windows.asked_alone(window);
                let said = self.windows.change(window, change)?;
                let stays = are_same_if_any(before, self.windows.asked_alone(window));
                self.places = places.kept_if(stays);
                Ok(said)
            }
            Err(failure) => Err(failure),
        }
    }

    /// Sets the tags of a window, or takes away those that were set. Where no window has the number, nothing is done.
    pub fn set_tags(&mut self, window: WindowId, tags: Option<Seq<Txt>>) -> Result<(), AllocError>
        ensures ok { OnOk result (self.new ≡ tagged self.old window tags) }
        ensures err { OnErr result (self.new ≡ self.old) }
    {
        self.windows.set_tags(window, tags)?;
        Ok(())
    }

    /// Packs a window in the one that it stands in, with options and values in turn. `.` is never packed.
    pub fn pack(&mut self, window: WindowId, options: &[Txt]) -> Result<(), Failure>
        ensures value { Gives (λ _. self.new) result (packed self.old window options.now) }
        ensures err { OnErr result (self.new ≡ self.old) }
    {
        self.places = Places::unknown();
        self.windows.pack(window, options)?;
        Ok(())
    }

    /// Takes a window out of the container that it is packed in, if it is.
    pub fn unpack(&mut self, window: WindowId) -> Result<(), AllocError>
        ensures ok { OnOk result (self.new ≡ unpacked self.old window) }
        ensures err { OnErr result (self.new ≡ self.old) }
    {
        self.places = Places::unknown();
        self.windows.forget(window)
    }

    /// Says whether a container asks to be as large as its contents need.
    pub fn set_propagates(&mut self, window: WindowId, propagates: bool) -> Result<(), AllocError>
        ensures ok { OnOk result (self.new ≡ with_propagation self.old window propagates) }
        ensures err { OnErr result (self.new ≡ self.old) }
    {
        self.places = Places::unknown();
        self.windows.set_propagates(window, propagates)
    }

    /// The bindings, in the order in which they were made.
    pub fn bindings(&self) -> &Bindings
        ensures { result.now ≡ self.now.bindings }
    {
        self.events.bindings()
    }

    /// The texts of the last errors, at most 32, of scripts that no script was there to see; the oldest first.
    pub fn faults(&self) -> &SharedList<Txt>
        ensures { result.now ≡ self.now.faults }
    {
        self.events.faults()
    }

    /// The binding of a tag that an event fires, where the event is the last one of the history, or a virtual one.
    pub fn chosen<'a>(&'a self, tag: &'a Txt, event: &'a Event) -> Option<&'a Binding>
        ensures { option_copied result ≡ chosen (scene self.now tag.now event.now) }
    {
        self.events.chosen(tag, event)
    }

    /// Sets the script that a tag has for a sequence, as `Bindings::bind` does.
    pub fn bind(&mut self, tag: Txt, sequence: Sequence, script: &Txt) -> Result<(), BindFault>
        ensures ok { OnOk result (self.new ≡ bound_to tag sequence script.now self.old) }
        ensures full { (result ≡ Err BindFault.OutOfNumbers) ↔ ((script.now ≢ []) × (2 ^ 62 ≤ self.old.bindings.next)) }
        ensures err { OnErr result (self.new ≡ self.old) }
    {
        self.events.bind(tag, sequence, script)
    }

    /// The events that scripts were chosen for, the oldest first.
    pub fn history(&self) -> &History
        ensures { result.now ≡ self.now.history }
    {
        self.events.history()
    }

    /// The virtual events, in the order in which they were added.
    pub fn virtuals(&self) -> &Virtuals
        ensures { result.now ≡ self.now.virtuals }
    {
        self.events.virtuals()
    }

    /// Adds a sequence of physical events to a virtual event. One that is there stays where it is.
    pub fn add_virtual(
        &mut self,
        name: &VirtualName,
        sequence: &PhysicalSequence,
    ) -> Result<(), AllocError>
        ensures ok { OnOk result (self.new ≡ with_virtual name.now sequence.now self.old) }
        ensures err { OnErr result (self.new ≡ self.old) }
    {
        self.events.add_virtual(name, sequence)
    }

    /// Takes a virtual event's sequences away.
    pub fn remove_virtual(&mut self, name: &Txt) -> Result<(), AllocError>
        ensures ok { OnOk result (self.new ≡ without_virtual name.now self.old) }
        ensures err { OnErr result (self.new ≡ self.old) }
    {
        self.events.remove_virtual(name)
    }

    /// Takes a sequence of a virtual event away. Where none is left, the name goes too.
    pub fn remove_virtual_sequence(
        &mut self,
        name: &Txt,
        sequence: &Sequence,
    ) -> Result<(), AllocError>
        ensures ok { OnOk result (self.new ≡ without_virtual_sequence name.now sequence.now self.old) }
        ensures err { OnErr result (self.new ≡ self.old) }
    {
        self.events.remove_virtual_sequence(name, sequence)
    }

    /// Adds a copy of an event that is delivered to the history; a virtual one is passed over.
    pub fn add_event(&mut self, event: &Event) -> Result<(), AllocError>
        ensures ok { OnOk result (self.new ≡ with_event event.now self.old) }
        ensures err { OnErr result (self.new ≡ self.old) }
    {
        self.events.add_event(event)
    }

    /// Adds an error's text to the faults; where there were 32, the oldest goes.
    pub fn add_fault(&mut self, text: Txt) -> Result<(), AllocError>
        ensures ok { OnOk result (self.new ≡ with_fault text self.old) }
        ensures err { OnErr result (self.new ≡ self.old) }
    {
        self.events.add_fault(text)
    }

    /// The time, in milliseconds.
    pub fn clock(&self) -> u64
        ensures value { result ≡ self.now.clock }
        ensures bound { self.now.clock < 2 ^ 62 }
    {
        self.event_loop.clock()
    }

    /// Sets the clock.
    pub fn set_clock(&mut self, time: u64)
        requires { time < 2 ^ 62 }
        ensures { self.new ≡ with_clock time self.old }
    {
        self.event_loop.set_clock(time);
    }

    /// The events that wait to be delivered, the next one first.
    pub fn queue(&self) -> &Queue
        ensures { result.now ≡ self.now.queue }
    {
        self.event_loop.queue()
    }

    /// Puts an event into its place; one of a key waits under `.`. Where no window has its number, nothing is done.
    pub fn put_event(&mut self, place: Place, event: Event) -> Result<(), AllocError>
        ensures ok { OnOk result (self.new ≡ queued place event self.old) }
        ensures err { OnErr result (self.new ≡ self.old) }
    {
        if is_there(self.windows.tree(), WindowId::of(event.window)) {
            self.event_loop.put_event(place, event)?;
        }
        Ok(())
    }

    /// Takes out the event that is delivered next.
    pub fn take_event(&mut self) -> Result<Option<Event>, AllocError>
        ensures value { IfOk result (λ event. event ≡ first self.old.queue) }
        ensures ok { OnOk result (self.new ≡ without_event self.old) }
        ensures err { OnErr result (self.new ≡ self.old) }
    {
        self.event_loop.take_event()
    }

    /// The scripts that wait to be run.
    pub fn timers(&self) -> &Timers
        ensures { result.now ≡ self.now.timers }
    {
        self.event_loop.timers()
    }

    /// Keeps a script that is due at a time, in milliseconds. It answers the script's id.
    pub fn keep_timer(&mut self, due: u64, script: Txt) -> Result<u64, AfterFault>
        ensures id { IfOk result (λ id. id ≡ self.old.timers.next) }
        ensures ok { OnOk result (self.new ≡ with_timer due script self.old) }
        ensures full { (result ≡ Err AfterFault.OutOfNumbers) ↔ (2 ^ 62 ≤ self.old.timers.next) }
        ensures err { OnErr result (self.new ≡ self.old) }
    {
        self.event_loop.keep_timer(due, script)
    }

    /// Keeps a script that runs when nothing else is to be done. It answers the script's id.
    pub fn keep_idle(&mut self, script: Txt) -> Result<u64, AfterFault>
        ensures id { IfOk result (λ id. id ≡ self.old.timers.next) }
        ensures ok { OnOk result (self.new ≡ with_idle script self.old) }
        ensures full { (result ≡ Err AfterFault.OutOfNumbers) ↔ (2 ^ 62 ≤ self.old.timers.next) }
        ensures err { OnErr result (self.new ≡ self.old) }
    {
        self.event_loop.keep_idle(script)
    }

    /// Takes out the script of an id; where there is none, nothing is done.
    pub fn cancel(&mut self, id: u64) -> Result<(), AllocError>
        ensures ok { OnOk result (self.new ≡ without_id id self.old) }
        ensures err { OnErr result (self.new ≡ self.old) }
    {
        self.event_loop.cancel(id)
    }

    /// Takes out the script with the least id of those that are equal to this one; where there is none, nothing is done.
    pub fn cancel_script(&mut self, script: &Txt) -> Result<(), AllocError>
        ensures ok { OnOk result (self.new ≡ without_script script.now self.old) }
        ensures err { OnErr result (self.new ≡ self.old) }
    {
        self.event_loop.cancel_script(script)
    }

    /// Takes out the script of an id, to be run.
    pub fn take_script(&mut self, id: u64) -> Result<Option<Txt>, AllocError>
        ensures value { IfOk result (λ script. script ≡ script_in (kept_under id self.old.timers)) }
        ensures ok { OnOk result (self.new ≡ without_id id self.old) }
        ensures err { OnErr result (self.new ≡ self.old) }
    {
        self.event_loop.take_script(id)
    }

    /// The window that has the focus.
    pub fn focus(&self) -> WindowId
        ensures value { result ≡ self.now.focus }
        ensures bound { self.now.focus ≤ 2 ^ 62 }
    {
        // What holds of all windows is asked for here.
        let _ = self.windows.tree();
        self.event_loop.focus()
    }

    /// Gives a window the focus. Where no window has the number, nothing is done.
    pub fn set_focus(&mut self, window: WindowId)
        ensures { self.new ≡ focused window self.old }
    {
        if is_there(self.windows.tree(), window) {
            self.event_loop.set_focus(window);
        }
    }

    /// What is held down.
    pub fn held(&self) -> Held
        ensures { result ≡ self.now.held }
    {
        self.event_loop.held()
    }

    /// Says what is held down.
    pub fn set_held(&mut self, held: Held)
        ensures { self.new ≡ holding held self.old }
    {
        self.event_loop.set_held(held);
    }

    /// The window that took the last press, if it is there.
    pub fn pressed(&self) -> Option<WindowId>
        ensures value { result ≡ self.now.pressed }
        ensures bound { IfSome result (λ window. window ≤ 2 ^ 62) }
    {
        // What holds of all windows is asked for here.
        let _ = self.windows.tree();
        self.event_loop.pressed()
    }

    /// Says which window took the last press; one that is not there takes none.
    pub fn set_pressed(&mut self, window: Option<WindowId>)
        ensures { self.new ≡ pressed_in window self.old }
    {
        self.event_loop
            .set_pressed(left_pressed(self.windows.tree(), window));
    }

    /// What the commands of an application keep.
    pub fn memories(&self) -> &Memories
        ensures { result.now ≡ self.now.memories }
    {
        &self.memories
    }

    /// Takes the memories out. None are left.
    pub fn take_memories(&mut self) -> Memories
        ensures taken { result ≡ self.old.memories }
        ensures left { self.new ≡ record self.old { memories = map.empty } }
    {
        mem::replace(&mut self.memories, Memories::none(self.alloc))
    }

    /// Puts memories in the place of the present ones.
    pub fn put_memories(&mut self, memories: Memories)
        ensures { self.new ≡ record self.old { memories = memories } }
    {
        self.memories = memories;
    }

    /// Takes out what the scripts of earlier inputs parsed.
    pub fn take_parsed(&mut self) -> ParseTable
        ensures { self.new ≡ self.old }
    {
        mem::replace(&mut self.parsed, ParseTable::new(self.alloc))
    }

    /// Keeps what was parsed for further inputs, but of texts of at most 4,096 bytes alone.
    pub fn put_parsed(&mut self, parsed: ParseTable)
        ensures { self.new ≡ self.old }
    {
        self.parsed = parsed;
        self.parsed.keep_short();
    }
}

impl Share for World {
    // What was parsed stays with the one.
    fn share(&self) -> Result<World, AllocError> {
        Ok(World {
            alloc: self.alloc,
            accepted: self.accepted,
            windows: self.windows.share()?,
            variables: self.variables.share()?,
            events: self.events.share()?,
            event_loop: self.event_loop.share()?,
            memories: self.memories.share()?,
            rules: self.rules,
            grid: self.grid,
            places: self.places.share()?,
            parsed: ParseTable::new(self.alloc),
        })
    }
}
