//! The virtual events.
ghost use Rattle.std.specs.Prelude.{◌≡◌, ◌<◌, ◌^◌, true, false, [], ◌∷◌, length, Some, None, IfOk, OnOk, OnErr, option_copied, slice_get};
ghost use Rattle.tks_bind.specs.VirtualEvents.{is_of_name, sequences_of, added, deleted, deleted_sequence};
ghost use Rattle.tks_bind.specs.VirtualIndexes.{index_of, ArePlaced};
ghost use Rattle.std.specs.List.{AllByRecursion};
ghost use Rattle.tks_event.specs.Sequences.{is_name};
ghost use Rattle.tks_bind.specs.WellFormed.{is_virtual_event, are_virtuals, AreVirtuals};
ghost use Rattle.tks_bind.specs.Endings.{ending_seen};
ghost use Rattle.tks_bind.specs.Ends.{sequences_in};
ghost use Rattle.tks_bind.specs.Groups.{Tells, Leads};

use crate::ending::Ending;
use crate::groups::Lists;
use crate::name_places::NamePlaces;
use crate::physical::PhysicalSequence;
use crate::through::{Through, Throughs, names, with_sequences, without_sequences};
use crate::virtual_event::{VirtualEvent, has_sequence, others, with_one_more};
use std::alloc::{AllocError, Global};
use std::marker::Model;
use std::slice::from_ref;
use tks_event::{Sequence, VirtualName};
use tks_share::{Items, Share, SharedList, SharedMap};
use tks_text::{Seq, Txt};

/// The virtual events that have sequences, in the order in which they were added. Copies share what they have in common.
pub struct Virtuals {
    alloc: Global,
    events: SharedList<VirtualEvent>,
    // Their sequences, by their endings.
    groups: Throughs,
    // Their places, by their names.
    names: NamePlaces,
}

// Written out, so that to let go of it is one step for whoever owns it.
impl Drop for Virtuals {
    fn drop(self) {
        let Virtuals {
            alloc: _,
            events: _,
            groups: _,
            names: _,
        } = self;
    }
}

impl Model for Virtuals {
    ghost use Rattle.std.specs.Prelude.{List};
    ghost use Rattle.tks_bind.specs.declared.virtual_event.VirtualEvent.{VirtualEvent};

    ghost Value = { List VirtualEvent };

    ghost view = { λ v. v.events };

    ghost use Rattle.tks_bind.specs.VirtualIndexes.{AreIndexed};

    ghost invariant = { λ v. AreIndexed v.events v.groups v.names };
}

impl Virtuals {
    /// No virtual event.
    pub fn new(alloc: Global) -> Virtuals
        ensures { result ≡ [] }
    {
        Virtuals {
            alloc,
            events: SharedList::new(alloc),
            groups: SharedMap::new(alloc),
            names: NamePlaces::new(alloc),
        }
    }

    /// These virtual events, in order, so that they are made again from what there was. Their names differ, and each has
    /// sequences of physical events, which differ.
    pub fn restore(alloc: Global, events: Vec<VirtualEvent>) -> Result<Virtuals, AllocError>
        requires names { are_virtuals events.items ≡ true }
        requires legal { AllByRecursion (λ v. is_virtual_event v ≡ true) events.items }
        ensures { IfOk result (λ made. made ≡ events.items) }
    {
        let events = SharedList::of(alloc, events)?;
        let groups = grouped(alloc, &events)?;
        let names = placed(alloc, &events)?;
        Ok(Virtuals {
            alloc,
            events,
            groups,
            names,
        })
    }

    /// The virtual events, in the order in which they were added.
    pub fn events(&self) -> Items<'_, VirtualEvent>
        ensures value { result ≡ self.now }
        ensures formed { AreVirtuals self.now }
    {
        self.events.iter()
    }

    /// How many virtual events have sequences.
    pub fn len(&self) -> usize
        ensures value { result ≡ length self.now }
        ensures short { length self.now < 2 ^ 32 }
    {
        self.events.len()
    }

    /// The sequences by which a virtual event is met, in the order in which they were added.
    pub fn sequences(&self, name: &Txt) -> &[Sequence]
        ensures { result.now ≡ sequences_of name.now self.now }
    {
        let index = self.index_of(name);
        match self.events.get(index) {
            Some(event) => event.sequences.as_slice(),
            None => &[],
        }
    }

    // The sequences by which virtual events are met, and whose last pattern ends so, by the events' names.
    pub(crate) fn group(&self, ending: Ending<'_>) -> Option<&Lists<Through>>
        ensures { Tells self.now (ending_seen ending.entry) (sequences_in (option_copied result)) }
    {
        names(&self.groups, ending)
    }

    // The index of the virtual event of a name, or the end.
    fn index_of(&self, name: &Txt) -> usize
        ensures { result ≡ index_of name.now self.now }
    {
        match self.names.place_of(name) {
            Some(index) => index,
            None => self.events.len(),
        }
    }

    /// Adds a sequence of physical events to a virtual event. One that is there stays where it is.
    pub fn event_add(
        &mut self,
        name: &VirtualName,
        sequence: &PhysicalSequence,
    ) -> Result<(), AllocError>
        ensures ok { OnOk result (self.new ≡ added name.now sequence.now self.old) }
        ensures err { OnErr result (self.new ≡ self.old) }
    {
        self.add(name.text(), sequence.sequence())
    }

    // The same, of a text that may be a name and a sequence that isn't one of a name.
    fn add(&mut self, name: &Txt, sequence: &Sequence) -> Result<(), AllocError>
        requires name { is_name name.now ≡ true }
        requires physical { is_of_name sequence.now ≡ false }
        ensures ok { OnOk result (self.new ≡ added name.now sequence.now self.old) }
        ensures err { OnErr result (self.new ≡ self.old) }
    {
        let index = self.index_of(name);
        let Some(event) = self.events.get(index) else {
            let event = first(self.alloc, name, sequence)?;
            let groups = with_sequences(self.alloc, &self.groups, name, from_ref(sequence))?;
            let names = self.names.with(name)?;
            self.events.push(event)?;
            self.groups = groups;
            self.names = names;
            return Ok(());
        };
        if has_sequence(event.sequences.as_slice(), sequence) {
            return Ok(());
        }
        let more = VirtualEvent {
            name: event.name.try_clone()?,
            sequences: with_one_more(self.alloc, event.sequences.as_slice(), sequence)?,
        };
        let groups = with_sequences(self.alloc, &self.groups, name, from_ref(sequence))?;
        self.events.set(index, more)?;
        self.groups = groups;
        Ok(())
    }

    /// Takes a virtual event's sequences away.
    pub fn event_delete(&mut self, name: &Txt) -> Result<(), AllocError>
        ensures ok { OnOk result (self.new ≡ deleted name.now self.old) }
        ensures err { OnErr result (self.new ≡ self.old) }
    {
        let index = self.index_of(name);
        let Some(event) = self.events.get(index) else {
            return Ok(());
        };
        let sequences = event.sequences.as_slice();
        let groups = without_sequences(self.alloc, &self.groups, name, sequences)?;
        let names = self.names.without(index, name)?;
        self.events.remove(index)?;
        self.groups = groups;
        self.names = names;
        Ok(())
    }

    /// Takes a sequence of a virtual event away. Where none is left, the name goes too.
    pub fn event_delete_sequence(
        &mut self,
        name: &Txt,
        sequence: &Sequence,
    ) -> Result<(), AllocError>
        ensures ok { OnOk result (self.new ≡ deleted_sequence name.now sequence.now self.old) }
        ensures err { OnErr result (self.new ≡ self.old) }
    {
        let index = self.index_of(name);
        let Some(event) = self.events.get(index) else {
            return Ok(());
        };
        let left = others(self.alloc, event.sequences.as_slice(), sequence)?;
        let groups = without_sequences(self.alloc, &self.groups, name, from_ref(sequence))?;
        if left.is_empty() {
            let names = self.names.without(index, name)?;
            self.events.remove(index)?;
            self.groups = groups;
            self.names = names;
            return Ok(());
        }
        let event = VirtualEvent {
            name: event.name.try_clone()?,
            sequences: left,
        };
        self.events.set(index, event)?;
        self.groups = groups;
        Ok(())
    }
}

impl Share for Virtuals {
    fn share(&self) -> Result<Virtuals, AllocError> {
        Ok(Virtuals {
            alloc: self.alloc,
            events: self.events.share()?,
            groups: self.groups.share()?,
            names: self.names.share()?,
        })
    }
}

// A virtual event with its first sequence.
fn first(alloc: Global, name: &Txt, sequence: &Sequence) -> Result<VirtualEvent, AllocError>
    ensures { IfOk result (λ v. v ≡ record { name = name.now; sequences = sequence.now ∷ [] }) }
{
    let mut sequences = Seq::new(alloc);
    sequences.push(sequence.try_clone(alloc)?)?;
    Ok(VirtualEvent {
        name: name.try_clone()?,
        sequences,
    })
}

// The sequences of these virtual events, by their endings.
fn grouped(alloc: Global, events: &SharedList<VirtualEvent>) -> Result<Throughs, AllocError>
    ensures { IfOk result (λ groups. are_virtuals events.now ≡ true → Leads groups events.now) }
{
    let mut groups = SharedMap::new(alloc);
    for event in events.iter() {
        groups = with_sequences(alloc, &groups, &event.name, event.sequences.as_slice())?;
    }
    Ok(groups)
}

// The places of these virtual events, by their names.
fn placed(alloc: Global, events: &SharedList<VirtualEvent>) -> Result<NamePlaces, AllocError>
    requires { are_virtuals events.now ≡ true }
    ensures { IfOk result (λ names. ArePlaced events.now names) }
{
    let mut names = NamePlaces::new(alloc);
    for event in events.iter() {
        names = names.with(&event.name)?;
    }
    Ok(names)
}
