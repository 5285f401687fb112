//! The bindings.
ghost use Rattle.std.specs.Prelude.{◌≡◌, ◌≢◌, ◌↔◌, ◌≤◌, ◌<◌, ◌^◌, true, [], ◌∷◌, ◌++◌, length, map, slice_get, Some, None, Err, IfOk, OnOk, OnErr, option_copied};
ghost use Rattle.std.specs.List.{filter};
ghost use Rattle.tks_text.specs.Text.{IsText};
ghost use Rattle.tks_event.specs.Canonical.{canonical};
ghost use Rattle.tks_bind.specs.Binding.{Content, nothing, script_for, placed, without, without_tag, set, unset, made, appended, bound, spelled};
ghost use Rattle.tks_bind.specs.Chosen.{ChosenSo};
ghost use Rattle.tks_bind.specs.Choosing.{chosen};
ghost use Rattle.tks_bind.specs.Distinct.{all_differ};
ghost use Rattle.tks_bind.specs.Endings.{ending_seen, is_under};
ghost use Rattle.tks_bind.specs.Groups.{Groups};
ghost use Rattle.tks_bind.specs.Indexes.{index_of};
ghost use Rattle.tks_bind.specs.Places.{numbers_of};
ghost use Rattle.tks_bind.specs.Tagged.{without_each};
ghost use Rattle.tks_bind.specs.declared.binding.Binding.{Binding};
ghost use Rattle.tks_bind.specs.WellFormed.{differ, are_bindings, others_are_below, AreBindings};

use crate::binding::Binding;
use crate::ending::Ending;
use crate::fault::BindFault;
use crate::history::History;
use crate::passes::Passes;
use crate::places::Places;
use crate::scene::Scene;
use crate::tag_groups::{
    TagGroups, bindings_of, group_of, held_for, with_binding, without_binding,
};
use crate::virtuals::Virtuals;
use std::alloc::{AllocError, Global};
use std::marker::Model;
use tks_event::{Event, Sequence};
use tks_share::{Items, Share, Shared, SharedList, SharedMap};
use tks_text::{MAX_NUMBER, Seq, TextBuilder, Txt};

/// The bindings, in the order in which they were made. Copies share what they have in common.
pub struct Bindings {
    alloc: Global,
    bindings: SharedList<Binding>,
    // The same ones, by their tags and the endings of their sequences.
    tags: TagGroups,
    // The places of their numbers.
    places: Places,
    next: u64,
}

// Written out, so that to let go of it is one step for whoever owns it.
impl Drop for Bindings {
    fn drop(self) {
        let Bindings {
            alloc: _,
            bindings: _,
            tags: _,
            places: _,
            next: _,
        } = self;
    }
}

impl Model for Bindings {
    ghost use Rattle.tks_bind.specs.Binding.{Content};

    ghost Value = { Content };

    ghost view = { λ b. record { bindings = b.bindings; next = b.next } };

    ghost use Rattle.tks_bind.specs.Places.{AreIndexed};

    ghost invariant = { λ b. AreIndexed (record { bindings = b.bindings; next = b.next }) b.tags b.places };
}

impl Bindings {
    /// No binding.
    pub fn new(alloc: Global) -> Bindings
        ensures { result ≡ nothing }
    {
        Bindings {
            alloc,
            bindings: SharedList::new(alloc),
            tags: SharedMap::new(alloc),
            places: Places::new(alloc),
            next: 0,
        }
    }

    /// These bindings, in order, and this next number, so that they are made again from what there was.
    /// Their numbers are below the next one, and they differ in their numbers, and in their tags or their sequences.
    pub fn restore(alloc: Global, bindings: Vec<Binding>, next: u64) -> Result<Bindings, AllocError>
        requires small { next ≤ 2 ^ 62 }
        requires formed { are_bindings next bindings.items ≡ true }
        ensures { IfOk result (λ made. made ≡ record { bindings = bindings.items; next = next }) }
    {
        let bindings = SharedList::of(alloc, bindings)?;
        let tags = grouped(alloc, &bindings)?;
        let places = placed(alloc, &bindings)?;
        Ok(Bindings {
            alloc,
            bindings,
            tags,
            places,
            next,
        })
    }

    /// The number that the next binding gets.
    pub fn next(&self) -> u64
        ensures value { result ≡ self.now.next }
        ensures formed { AreBindings self.now }
    {
        self.next
    }

    /// Whether all numbers were given out.
    pub fn is_full(&self) -> bool
        ensures { (result ≡ true) ↔ (2 ^ 62 ≤ self.now.next) }
    {
        self.next >= MAX_NUMBER
    }

    /// The bindings, in the order in which they were made.
    pub fn bindings(&self) -> Items<'_, Binding>
        ensures { result ≡ self.now.bindings }
    {
        self.bindings.iter()
    }

    /// How many bindings there are.
    pub fn len(&self) -> usize
        ensures value { result ≡ length self.now.bindings }
        ensures short { length self.now.bindings < 2 ^ 32 }
    {
        self.bindings.len()
    }

    /// The script that a tag has for a sequence.
    pub fn script(&self, tag: &Txt, sequence: &Sequence) -> Option<&Txt>
        ensures { option_copied result ≡ script_for tag.now sequence.now self.now.bindings }
    {
        let binding = held_for(&self.tags, tag, sequence)?;
        Some(&binding.get().script)
    }

    /// The sequences of a tag, in canonical spelling, in the order in which its bindings were made.
    pub fn sequences(&self, tag: &Txt) -> Result<Seq<Txt>, AllocError>
        ensures { IfOk result (λ found. found ≡ spelled tag.now self.now.bindings) }
    {
        spelled(self.alloc, &self.bindings, tag)
    }

    /// The binding of a tag that an event fires, where the event is the last one of the history, or a virtual one: of
    /// the bindings that it meets, and by a way that no way to meet one of them beats, the one that was set last. It
    /// takes no memory.
    #[tactic(auto, unfolding(crate::specs::Choosing::chosen))]
    pub fn chosen<'a>(
        &'a self,
        tag: &'a Txt,
        event: &'a Event,
        history: &'a History,
        virtuals: &'a Virtuals,
    ) -> Option<&'a Binding>
        ensures value { option_copied result ≡ chosen (record { bindings = self.now.bindings; tag = tag.now; event = event.now; history = history.now; virtuals = virtuals.now }) }
        ensures so { ChosenSo (record { bindings = self.now.bindings; tag = tag.now; event = event.now; history = history.now; virtuals = virtuals.now }) (option_copied result) }
    {
        let _ = self.next();
        let scene = Scene {
            bindings: self,
            tag,
            event,
            history,
            virtuals,
        };
        let passes = Passes {
            scene,
            full: scene.full_ends(),
            bare: scene.bare_ends(),
        };
        passes.latest()
    }

    // The bindings of a tag whose sequences end so, in the order in which they were made.
    pub(crate) fn group(&self, tag: &Txt, ending: Ending<'_>) -> &[Shared<Binding>]
        ensures { result.now ≡ filter (is_under tag.now (ending_seen ending.entry)) self.now.bindings }
    {
        group_of(&self.tags, tag, ending)
    }

    /// Sets the script that a tag has for a sequence. An empty script takes the binding away; one that begins with a
    /// plus sign is appended, behind a newline, to the script that is there. A binding that is set anew keeps its
    /// place, and has the greatest number.
    pub fn bind(&mut self, tag: Txt, sequence: Sequence, script: &Txt) -> Result<(), BindFault>
        ensures ok { OnOk result (self.new ≡ bound tag sequence script.now self.old) }
        ensures full { (result ≡ Err BindFault.OutOfNumbers) ↔ ((script.now ≢ []) × (2 ^ 62 ≤ self.old.next)) }
        ensures err { OnErr result (self.new ≡ self.old) }
        ensures latest { OnOk result (others_are_below self.old.next tag sequence self.new.bindings ≡ true) }
    {
        if script.as_bytes().is_empty() {
            self.unset(&tag, &sequence)?;
            return Ok(());
        }
        if self.is_full() {
            return Err(BindFault::OutOfNumbers);
        }
        let script = made(self.alloc, self.script(&tag, &sequence), script)?;
        self.set(tag, sequence, script)?;
        Ok(())
    }

    /// How long the script is that `bind` sets for a tag and a sequence, given this one.
    pub fn script_len(&self, tag: &Txt, sequence: &Sequence, script: &Txt) -> usize
        ensures { result ≡ length (made (script_for tag.now sequence.now self.now.bindings) script.now) }
    {
        made_len(self.script(tag, sequence), script)
    }

    /// Takes away the bindings of a tag. It costs as much as there are of them, whatever others there are.
    pub fn drop_tag(&mut self, tag: &Txt) -> Result<(), AllocError>
        ensures ok { OnOk result (self.new ≡ without_tag tag.now self.old) }
        ensures err { OnErr result (self.new ≡ self.old) }
    {
        *self = self.without_tag(tag)?;
        Ok(())
    }

    // The same without the bindings of a tag.
    fn without_tag(&self, tag: &Txt) -> Result<Bindings, AllocError>
        ensures { IfOk result (λ left. left ≡ without_tag tag.now self.now) }
    {
        let gone = bindings_of(self.alloc, &self.tags, tag)?;
        let left = self.without_each(gone.as_slice())?;
        Ok(left)
    }

    // The same without these bindings.
    fn without_each(&self, gone: &[Shared<Binding>]) -> Result<Bindings, AllocError>
        ensures { IfOk result (λ left. left ≡ without_each gone.now self.now) }
    {
        let mut left = self.share()?;
        for binding in gone {
            left.unset(&binding.get().tag, &binding.get().sequence)?;
        }
        Ok(left)
    }

    // The index of the binding of a tag and a sequence, or the end.
    fn index_of(&self, tag: &Txt, sequence: &Sequence) -> usize
        ensures { result ≡ index_of tag.now sequence.now self.now.bindings }
    {
        let Some(binding) = held_for(&self.tags, tag, sequence) else {
            return self.bindings.len();
        };
        match self.places.place_of(binding.get().number) {
            Some(index) => index,
            None => unreachable!(),
        }
    }

    // Takes a binding away, if it is there.
    #[tactic(auto, using(crate::proofs::Placing::taken_there, crate::proofs::Placing::none_taken))]
    fn unset(&mut self, tag: &Txt, sequence: &Sequence) -> Result<(), AllocError>
        ensures ok { OnOk result (self.new ≡ unset tag.now sequence.now self.old) }
        ensures err { OnErr result (self.new ≡ self.old) }
        ensures latest { OnOk result (others_are_below self.old.next tag.now sequence.now self.new.bindings ≡ true) }
    {
        let index = self.index_of(tag, sequence);
        if index < self.bindings.len() {
            let tags = without_binding(self.alloc, &self.tags, tag, sequence)?;
            let mut places = self.places.share()?;
            places.remove(index)?;
            self.bindings.remove(index)?;
            self.tags = tags;
            self.places = places;
        }
        Ok(())
    }

    // Sets a script, with the next number.
    fn set(&mut self, tag: Txt, sequence: Sequence, script: Txt) -> Result<(), AllocError>
        requires { self.old.next < 2 ^ 62 }
        ensures ok { OnOk result (self.new ≡ set tag sequence script self.old) }
        ensures err { OnErr result (self.new ≡ self.old) }
        ensures latest { OnOk result (others_are_below self.old.next tag sequence self.new.bindings ≡ true) }
    {
        let index = self.index_of(&tag, &sequence);
        let binding = Binding {
            number: self.next,
            tag,
            sequence,
            script,
        };
        let mut bindings = self.bindings.share()?;
        place(&mut bindings, index, binding)?;
        let binding = held_at(&bindings, index)?;
        let tags = with_binding(self.alloc, &self.tags, &binding)?;
        self.places.put(index, self.next)?;
        self.bindings = bindings;
        self.tags = tags;
        self.next += 1;
        Ok(())
    }
}

impl Share for Bindings {
    fn share(&self) -> Result<Bindings, AllocError> {
        Ok(Bindings {
            alloc: self.alloc,
            bindings: self.bindings.share()?,
            tags: self.tags.share()?,
            places: self.places.share()?,
            next: self.next,
        })
    }
}

// Puts a binding into the place of the one of its tag and sequence, which is at this index, or at the end.
#[tactic(auto, using(crate::proofs::Placing::placed_there, crate::proofs::Placing::placed_last, crate::proofs::Placing::there_set))]
fn place(
    bindings: &mut SharedList<Binding>,
    index: usize,
    binding: Binding,
) -> Result<(), AllocError>
    requires { index ≡ index_of binding.tag binding.sequence bindings.old }
    ensures ok { OnOk result (bindings.new ≡ placed binding bindings.old) }
    ensures there { OnOk result (slice_get bindings.new index ≡ Some binding) }
    ensures err { OnErr result (bindings.new ≡ bindings.old) }
{
    if index < bindings.len() {
        bindings.set(index, binding)?;
    } else {
        bindings.push(binding)?;
    }
    Ok(())
}

// The binding at an index, held once more. It is taken out of a copy of the list, since a list hands out just what is taken
// out of it.
fn held_at(bindings: &SharedList<Binding>, index: usize) -> Result<Shared<Binding>, AllocError>
    requires { index < length bindings.now }
    ensures { IfOk result (λ binding. slice_get bindings.now index ≡ Some binding) }
{
    let mut copy = bindings.share()?;
    copy.remove(index)
}

// These bindings by their tags and endings.
fn grouped(alloc: Global, bindings: &SharedList<Binding>) -> Result<TagGroups, AllocError>
    ensures { IfOk result (λ tags. all_differ differ bindings.now ≡ true → Groups tags bindings.now) }
{
    let mut tags = SharedMap::new(alloc);
    for index in 0..bindings.len() {
        let binding = held_at(bindings, index)?;
        tags = with_binding(alloc, &tags, &binding)?;
    }
    Ok(tags)
}

// The places of the numbers of these bindings.
fn placed(alloc: Global, bindings: &SharedList<Binding>) -> Result<Places, AllocError>
    requires { all_differ differ bindings.now ≡ true }
    ensures { IfOk result (λ places. places ≡ numbers_of bindings.now) }
{
    let mut places = Places::new(alloc);
    for binding in bindings.iter() {
        places.push(binding.number)?;
    }
    Ok(places)
}

// The script that is set where this one is there and that one is given: one behind a plus sign is appended.
fn made(alloc: Global, script: Option<&Txt>, given: &Txt) -> Result<Txt, AllocError>
    ensures { IfOk result (λ t. t ≡ made (option_copied script.entry) given.now) }
{
    match given.as_bytes() {
        [b'+', more @ ..] => appended(alloc, script, more),
        _ => given.try_clone(),
    }
}

// The script that is there, a newline and more; or just that, where none is there.
fn appended(alloc: Global, script: Option<&Txt>, more: &[u8]) -> Result<Txt, AllocError>
    requires { IsText more.now }
    ensures { IfOk result (λ t. t ≡ appended (option_copied script.entry) more.now) }
{
    let Some(script) = script else {
        return Txt::from_text(alloc, more);
    };
    let mut text = TextBuilder::new(alloc);
    text.push_bytes(script.as_bytes())?;
    text.push_byte(b'\n')?;
    text.push_bytes(more)?;
    text.into_text()
}

// How long the script is that is set where this one is there and that one is given.
fn made_len(script: Option<&Txt>, given: &Txt) -> usize
    ensures { result ≡ length (made (option_copied script.entry) given.now) }
{
    match given.as_bytes() {
        [b'+', more @ ..] => appended_len(script, more),
        bytes => bytes.len(),
    }
}

// How long the script that is there is with more behind it.
fn appended_len(script: Option<&Txt>, more: &[u8]) -> usize
    ensures { result ≡ length (appended (option_copied script.entry) more.now) }
{
    match script {
        Some(script) => script.as_bytes().len() + 1 + more.len(),
        None => more.len(),
    }
}

fn spelled(alloc: Global, bindings: &SharedList<Binding>, tag: &Txt) -> Result<Seq<Txt>, AllocError>
    ensures { IfOk result (λ found. found ≡ spelled tag.now bindings.now) }
{
    let mut found = Seq::new(alloc);
    for binding in bindings.iter() {
        if binding.tag == *tag {
            found.push(binding.sequence.canonical(alloc)?)?;
        }
    }
    Ok(found)
}
