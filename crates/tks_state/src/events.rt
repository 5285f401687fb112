//! What scripts bound to events rest on: the bindings, virtual events, the history, and the faults of such scripts.
ghost use Rattle.std.specs.Prelude.{◌≡◌, ◌≢◌, ◌↔◌, ◌≤◌, ◌^◌, [], Some, None, if◌then◌else◌, nat_le, Err, length, option_copied, IfOk, OnOk, OnErr};
ghost use Rattle.tks_bind.specs.Binding.{bound};
ghost use Rattle.tks_bind.specs.Choosing.{chosen};
ghost use Rattle.tks_bind.specs.History as history;
ghost use Rattle.tks_bind.specs.VirtualEvents.{added, deleted, deleted_sequence};
ghost use Rattle.tks_state.specs.Events.{max_faults, first_events, with_fault, held, without_those_of, without_those_of_all};
ghost use Rattle.tks_tree.specs.Windows.{without};
ghost use Rattle.tks_tree.specs.Within.{AreThoseIn};
ghost use Rattle.tks_state.specs.WellFormed.{WellFormedEvents};

use crate::class_bindings::first_bindings;
use crate::faults::Faults;
use std::alloc::{AllocError, Global};
use std::marker::Model;
use tks_bind::{BindFault, Binding, Bindings, History, PhysicalSequence, Virtuals};
use tks_event::{Event, Sequence, VirtualName};
use tks_share::{Share, SharedList};
use tks_text::Txt;
use tks_tree::{Tree, WindowId};

/// What scripts bound to events rest on. Copies share the parts that none of them has changed.
pub struct Events {
    bindings: Bindings,
    virtuals: Virtuals,
    history: History,
    faults: Faults,
}

// Written out, so that to let go of it is one step for whoever owns it.
impl Drop for Events {
    fn drop(self) {
        let Events {
            bindings: _,
            virtuals: _,
            history: _,
            faults: _,
        } = self;
    }
}

impl Model for Events {
    ghost use Rattle.std.specs.Coded.{codes};
    ghost use Rattle.tks_state.specs.Events.{Events};

    ghost Value = { Events };

    ghost coded = { Prim.hlevel codes };

    ghost view = { λ x. record { bindings = x.bindings; virtuals = x.virtuals; history = x.history; faults = x.faults } };
}

impl Events {
    /// The bindings of classes, no virtual event, no event and no fault.
    pub fn first(alloc: Global) -> Result<Events, AllocError>
        ensures { IfOk result (λ events. events ≡ first_events) }
    {
        Ok(Events {
            bindings: first_bindings(alloc)?,
            virtuals: Virtuals::new(alloc),
            history: History::new(alloc)?,
            faults: Faults::none(alloc),
        })
    }

    /// Those with these parts; of faults there may be 32.
    pub fn restore(
        alloc: Global,
        bindings: Bindings,
        virtuals: Virtuals,
        history: History,
        faults: Vec<Txt>,
    ) -> Result<Option<Events>, AllocError>
        ensures { IfOk result (λ made. made ≡ (if nat_le (length faults.items) max_faults then Some (record { bindings = bindings; virtuals = virtuals; history = history; faults = faults.items }) else None)) }
    {
        let Some(faults) = Faults::restore(alloc, faults)? else {
            return Ok(None);
        };
        Ok(Some(Events {
            bindings,
            virtuals,
            history,
            faults,
        }))
    }

    /// The bindings.
    pub fn bindings(&self) -> &Bindings
        ensures { result.now ≡ self.now.bindings }
    {
        &self.bindings
    }

    /// What holds of all that scripts bound to events rest on.
    pub fn stands(&self)
        ensures { WellFormedEvents self.now }
    {
        let _ = self.bindings.next();
        let _ = self.virtuals.events();
        let _ = self.history.events();
        let _ = self.faults.texts();
    }

    /// The texts of the last errors, the oldest first.
    pub fn faults(&self) -> &SharedList<Txt>
        ensures { result.now ≡ self.now.faults }
    {
        self.faults.texts()
    }

    /// The binding of a tag that an event fires.
    pub fn chosen<'a>(&'a self, tag: &'a Txt, event: &'a Event) -> Option<&'a Binding>
        ensures { option_copied result ≡ chosen (record { bindings = self.now.bindings.bindings; tag = tag.now; event = event.now; history = self.now.history; virtuals = self.now.virtuals }) }
    {
        self.bindings
            .chosen(tag, event, &self.history, &self.virtuals)
    }

    /// Sets the script that a tag has for a sequence.
    pub fn bind(&mut self, tag: Txt, sequence: Sequence, script: &Txt) -> Result<(), BindFault>
        ensures ok { OnOk result (self.new ≡ record self.old { bindings = bound tag sequence script.now self.old.bindings }) }
        ensures full { (result ≡ Err BindFault.OutOfNumbers) ↔ ((script.now ≢ []) × (2 ^ 62 ≤ self.old.bindings.next)) }
        ensures err { OnErr result (self.new ≡ self.old) }
    {
        self.bindings.bind(tag, sequence, script)
    }

    /// The events that scripts were chosen for, the oldest first.
    pub fn history(&self) -> &History
        ensures { result.now ≡ self.now.history }
    {
        &self.history
    }

    /// The virtual events.
    pub fn virtuals(&self) -> &Virtuals
        ensures { result.now ≡ self.now.virtuals }
    {
        &self.virtuals
    }

    /// Adds a sequence of physical events to a virtual event. One that is there stays where it is.
    pub fn add_virtual(
        &mut self,
        name: &VirtualName,
        sequence: &PhysicalSequence,
    ) -> Result<(), AllocError>
        ensures ok { OnOk result (self.new ≡ record self.old { virtuals = added name.now sequence.now self.old.virtuals }) }
        ensures err { OnErr result (self.new ≡ self.old) }
    {
        self.virtuals.event_add(name, sequence)
    }

    /// Takes a virtual event's sequences away.
    pub fn remove_virtual(&mut self, name: &Txt) -> Result<(), AllocError>
        ensures ok { OnOk result (self.new ≡ record self.old { virtuals = deleted name.now self.old.virtuals }) }
        ensures err { OnErr result (self.new ≡ self.old) }
    {
        self.virtuals.event_delete(name)
    }

    /// Takes a sequence of a virtual event away. Where none is left, the name goes too.
    pub fn remove_virtual_sequence(
        &mut self,
        name: &Txt,
        sequence: &Sequence,
    ) -> Result<(), AllocError>
        ensures ok { OnOk result (self.new ≡ record self.old { virtuals = deleted_sequence name.now sequence.now self.old.virtuals }) }
        ensures err { OnErr result (self.new ≡ self.old) }
    {
        self.virtuals.event_delete_sequence(name, sequence)
    }

    /// The same without the bindings of a window, and of those that stand in it, which have these numbers.
    pub fn left(
        &self,
        tree: &Tree,
        window: WindowId,
        gone: &[WindowId],
    ) -> Result<Events, AllocError>
        requires { AreThoseIn tree.now window gone.now }
        ensures { IfOk result (λ x. x ≡ record self.now { bindings = held tree.now.windows (without tree.now window).windows self.now.bindings }) }
    {
        // What holds of all windows is asked for here.
        let _ = tree.len();
        let mut left = self.share()?;
        drop_all(&mut left.bindings, tree, gone)?;
        Ok(left)
    }

    /// Adds a copy of an event to the history; a virtual one is passed over.
    pub fn add_event(&mut self, event: &Event) -> Result<(), AllocError>
        ensures ok { OnOk result (self.new ≡ record self.old { history = history.with_event event.now self.old.history }) }
        ensures err { OnErr result (self.new ≡ self.old) }
    {
        self.history.add_copy(event)
    }

    /// Adds an error's text to the faults; where there were 32, the oldest goes.
    pub fn add_fault(&mut self, text: Txt) -> Result<(), AllocError>
        ensures ok { OnOk result (self.new ≡ record self.old { faults = with_fault text self.old.faults }) }
        ensures err { OnErr result (self.new ≡ self.old) }
    {
        self.faults.add(text)
    }
}

impl Share for Events {
    fn share(&self) -> Result<Events, AllocError> {
        Ok(Events {
            bindings: self.bindings.share()?,
            virtuals: self.virtuals.share()?,
            history: self.history.share()?,
            faults: self.faults.share()?,
        })
    }
}

// Takes away the bindings of a window, if it is there.
fn drop_those_of(bindings: &mut Bindings, tree: &Tree, window: WindowId) -> Result<(), AllocError>
    ensures { OnOk result (bindings.new ≡ without_those_of tree.now.windows window bindings.old) }
{
    let Some(window) = tree.window(window) else {
        return Ok(());
    };
    bindings.drop_tag(window.path)?;
    Ok(())
}

// Takes away the bindings of windows.
fn drop_all(bindings: &mut Bindings, tree: &Tree, windows: &[WindowId]) -> Result<(), AllocError>
    ensures { OnOk result (bindings.new ≡ without_those_of_all tree.now.windows windows.now bindings.old) }
{
    for window in windows {
        drop_those_of(bindings, tree, *window)?;
    }
    Ok(())
}
