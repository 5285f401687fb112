//! The scripts that wait, and what is done to them.
ghost use Rattle.std.specs.Prelude.{◌≡◌, ◌==◌, ◌↔◌, ◌<◌, ◌≤◌, ◌^◌, true, length, Some, Err, IfOk, OnOk, OnErr, option_copied, option_map, IsPermutation};
ghost use Rattle.std.specs.List.{find};
ghost use Rattle.std.specs.List.Sorted.{IsSorted};
ghost use Rattle.std.specs.Ordering.{nat_cmp};
ghost use Rattle.tks_text.specs.Fault.{Gives};
ghost use Rattle.tks_timer.specs.After.{Content, nothing, no_later, with_timer, with_idle, without, without_found, lesser, due_at, first_idle, kept_under, script_in, told_about, timer_with, idle_with, with_script, ids};
ghost use Rattle.tks_timer.specs.Firsts.{CancelsLeast, RunsNext};
ghost use Rattle.tks_timer.specs.Order.{in_turn};
ghost use Rattle.tks_timer.specs.Waits.{waiting_seen};
ghost use Rattle.tks_timer.specs.WellFormed.{are_waiting, AreWaiting};

use crate::entry::{Idle, Timer};
use crate::fault::AfterFault;
use crate::order::Order;
use std::alloc::{AllocError, Global};
use std::marker::Model;
use tks_share::{Items, Share, SharedList};
use tks_text::{ErrorNumber, Failure, MAX_NUMBER, MAX_TIME, Txt};

/// A script that waits, and what for.
#[derive(Clone, Copy)]
pub enum Waiting<'a> {
    /// For its time.
    Timer(&'a Txt),
    /// For nothing else to be done.
    Idle(&'a Txt),
}

/// The scripts that wait to be run. Copies share what they have in common.
pub struct Timers {
    alloc: Global,
    timers: SharedList<Timer>,
    /// When each is due, the soonest first.
    order: Order,
    idles: SharedList<Idle>,
    next: u64,
}

// Written out, so that to let go of it is one step for whoever owns it.
impl Drop for Timers {
    fn drop(self) {
        let Timers {
            alloc: _,
            timers: _,
            order: _,
            idles: _,
            next: _,
        } = self;
    }
}

impl Model for Timers {
    ghost use Rattle.tks_timer.specs.After.{Content};

    ghost Value = { Content };

    ghost view = { λ t. record { timers = t.timers; idles = t.idles; next = t.next } };

    ghost use Rattle.tks_timer.specs.Order.{AreInOrder};

    ghost invariant = { λ t. AreInOrder (record { timers = t.timers; idles = t.idles; next = t.next }) t.order };
}

impl Timers {
    /// No script.
    pub fn new(alloc: Global) -> Timers
        ensures { result ≡ nothing }
    {
        Timers {
            alloc,
            timers: SharedList::new(alloc),
            order: Order::new(alloc),
            idles: SharedList::new(alloc),
            next: 0,
        }
    }

    /// These timers and idle scripts, in order, and this next id, so that they are made again from what there was. Their
    /// ids rise and differ, below the next one.
    pub fn restore(
        alloc: Global,
        timers: Vec<Timer>,
        idles: Vec<Idle>,
        next: u64,
    ) -> Result<Timers, AllocError>
        requires small { next ≤ 2 ^ 62 }
        requires formed { are_waiting (record { timers = timers.items; idles = idles.items; next = next }) ≡ true }
        ensures { IfOk result (λ made. made ≡ record { timers = timers.items; idles = idles.items; next = next }) }
    {
        let timers = SharedList::of(alloc, timers)?;
        let order = Order::of(alloc, &timers)?;
        let idles = SharedList::of(alloc, idles)?;
        Ok(Timers {
            alloc,
            timers,
            order,
            idles,
            next,
        })
    }

    /// The timers, in the order in which they came.
    pub fn timers(&self) -> Items<'_, Timer>
        ensures { result ≡ self.now.timers }
    {
        self.timers.iter()
    }

    /// The idle scripts, in the order in which they came.
    pub fn idles(&self) -> Items<'_, Idle>
        ensures { result ≡ self.now.idles }
    {
        self.idles.iter()
    }

    /// The id that the next script gets.
    pub fn next(&self) -> u64
        ensures value { result ≡ self.now.next }
        ensures formed { AreWaiting self.now }
    {
        self.next
    }

    /// Whether all ids were given out.
    pub fn is_full(&self) -> bool
        ensures { (result ≡ true) ↔ (2 ^ 62 ≤ self.now.next) }
    {
        self.next >= MAX_NUMBER
    }

    /// How many timers there are.
    pub fn timer_count(&self) -> usize
        ensures value { result ≡ length self.now.timers }
        ensures short { length self.now.timers < 2 ^ 32 }
    {
        self.timers.len()
    }

    /// How many idle scripts there are.
    pub fn idle_count(&self) -> usize
        ensures value { result ≡ length self.now.idles }
        ensures short { length self.now.idles < 2 ^ 32 }
    {
        self.idles.len()
    }

    /// Keeps a script that is due at a time, in milliseconds, or at the last time that there is. It answers the
    /// script's id.
    pub fn after(&mut self, due: u64, script: Txt) -> Result<u64, AfterFault>
        ensures id { IfOk result (λ id. id ≡ self.old.next) }
        ensures ok { OnOk result (self.new ≡ with_timer due script self.old) }
        ensures full { (result ≡ Err AfterFault.OutOfNumbers) ↔ (2 ^ 62 ≤ self.old.next) }
        ensures err { OnErr result (self.new ≡ self.old) }
    {
        let id = self.next;
        if id >= MAX_NUMBER {
            return Err(AfterFault::OutOfNumbers);
        }
        let due = no_later(due);
        let mut order = self.order.share()?;
        order.put((due, id))?;
        self.timers.push(Timer { id, due, script })?;
        self.order = order;
        self.next = id + 1;
        Ok(id)
    }

    /// Keeps a script that runs when nothing else is to be done. It answers the script's id.
    pub fn idle(&mut self, script: Txt) -> Result<u64, AfterFault>
        ensures id { IfOk result (λ id. id ≡ self.old.next) }
        ensures ok { OnOk result (self.new ≡ with_idle script self.old) }
        ensures full { (result ≡ Err AfterFault.OutOfNumbers) ↔ (2 ^ 62 ≤ self.old.next) }
        ensures err { OnErr result (self.new ≡ self.old) }
    {
        let id = self.next;
        if id >= MAX_NUMBER {
            return Err(AfterFault::OutOfNumbers);
        }
        self.idles.push(Idle { id, script })?;
        self.next = id + 1;
        Ok(id)
    }

    // The timer of an id.
    fn timer_of(&self, id: u64) -> Option<&Timer>
        ensures { option_copied result ≡ find (λ t. t.id == id) self.now.timers }
    {
        match self.timers.place_of(id) {
            None => None,
            Some(index) => self.timers.get(index),
        }
    }

    // The idle script of an id.
    fn idle_of(&self, id: u64) -> Option<&Idle>
        ensures { option_copied result ≡ find (λ i. i.id == id) self.now.idles }
    {
        match self.idles.place_of(id) {
            None => None,
            Some(index) => self.idles.get(index),
        }
    }

    // The order of the timers but for the one of an id.
    fn order_without(&self, id: u64) -> Result<Order, AllocError>
        ensures { IfOk result (λ order. order ≡ in_turn (without id self.now).timers) }
    {
        let mut order = self.order.share()?;
        let Some(timer) = self.timer_of(id) else {
            return Ok(order);
        };
        order.take((timer.due, timer.id))?;
        Ok(order)
    }

    /// Takes out the script of an id; where there is none, nothing is done.
    pub fn cancel(&mut self, id: u64) -> Result<(), AllocError>
        ensures ok { OnOk result (self.new ≡ without id self.old) }
        ensures err { OnErr result (self.new ≡ self.old) }
    {
        let order = self.order_without(id)?;
        let mut timers = self.timers.share()?;
        timers.remove_number(id)?;
        self.idles.remove_number(id)?;
        self.timers = timers;
        self.order = order;
        Ok(())
    }

    /// The least id that has the script. It takes no memory.
    #[tactic(auto, using(crate::proofs::Firsts::cancels_least))]
    pub fn find(&self, script: &Txt) -> Option<u64>
        ensures value { result ≡ with_script script.now self.now }
        ensures least { CancelsLeast script.now self.now result }
    {
        lesser(
            timer_with(&self.timers, script),
            idle_with(&self.idles, script),
        )
    }

    /// Takes out the script with the least id of those that are equal to this one; where there is none, nothing
    /// is done.
    pub fn cancel_script(&mut self, script: &Txt) -> Result<(), AllocError>
        ensures ok { OnOk result (self.new ≡ without_found (with_script script.now self.old) self.old) }
        ensures err { OnErr result (self.new ≡ self.old) }
    {
        match self.find(script) {
            None => Ok(()),
            Some(id) => self.cancel(id),
        }
    }

    /// The id of the timer that is run at this time: of those that are due, the one that was due first, and of
    /// those that were due together the one with the least id. It takes no memory.
    pub fn due(&self, now: u64) -> Option<u64>
        ensures value { result ≡ due_at now self.now }
        ensures first { RunsNext now self.now.timers result }
    {
        self.order.due(now)
    }

    /// The id of the idle script that has waited longest. It takes no memory.
    pub fn oldest_idle(&self) -> Option<u64>
        ensures { result ≡ first_idle self.now.idles }
    {
        let idle = self.idles.get(0)?;
        Some(idle.id)
    }

    // The script of an id.
    #[tactic(auto, using(crate::proofs::Finding::timer_script_found, crate::proofs::Finding::idle_script_found))]
    fn script(&self, id: u64) -> Option<&Txt>
        ensures { option_copied result ≡ script_in (kept_under id self.now) }
    {
        if let Some(timer) = self.timer_of(id) {
            return Some(&timer.script);
        }
        match self.idle_of(id) {
            Some(idle) => Some(&idle.script),
            None => None,
        }
    }

    /// Takes out the script of an id, to be run.
    pub fn take(&mut self, id: u64) -> Result<Option<Txt>, AllocError>
        ensures value { IfOk result (λ script. script ≡ script_in (kept_under id self.old)) }
        ensures ok { OnOk result (self.new ≡ without id self.old) }
        ensures err { OnErr result (self.new ≡ self.old) }
    {
        let script = match self.script(id) {
            Some(script) => Some(script.try_clone()?),
            None => None,
        };
        self.cancel(id)?;
        Ok(script)
    }

    /// The ids of all scripts, rising.
    pub fn ids(&self) -> Result<Vec<u64>, AllocError>
        ensures all { IfOk result (λ found. IsPermutation (ids self.now) found.items) }
        ensures rising { IfOk result (λ found. IsSorted nat_cmp found.items) }
    {
        let mut found = Vec::new(self.alloc);
        for timer in self.timers.iter() {
            found.push(timer.id)?;
        }
        for idle in self.idles.iter() {
            found.push(idle.id)?;
        }
        found.sort()?;
        Ok(found)
    }

    /// The script of an id, which was written so. Where there is none, the error is about what was written.
    #[tactic(auto, using(crate::proofs::Finding::timer_script_found, crate::proofs::Finding::idle_script_found))]
    pub fn info(&self, id: u64, written: &Txt) -> Result<Waiting<'_>, Failure>
        ensures { Gives waiting_seen result (told_about written.now (kept_under id self.now)) }
    {
        if let Some(timer) = self.timer_of(id) {
            return Ok(Waiting::Timer(&timer.script));
        }
        match self.idle_of(id) {
            Some(idle) => Ok(Waiting::Idle(&idle.script)),
            None => Err(Failure::about(ErrorNumber::NoSuchAfterId, written)),
        }
    }
}

impl Share for Timers {
    fn share(&self) -> Result<Timers, AllocError> {
        Ok(Timers {
            alloc: self.alloc,
            timers: self.timers.share()?,
            order: self.order.share()?,
            idles: self.idles.share()?,
            next: self.next,
        })
    }
}

// A time, or the last one where it is later.
fn no_later(time: u64) -> u64
    ensures { result ≡ no_later time }
{
    time.min(MAX_TIME)
}

// The lesser of two ids.
fn lesser(a: Option<u64>, b: Option<u64>) -> Option<u64>
    ensures { result ≡ lesser a b }
{
    match (a, b) {
        (None, _) => b,
        (_, None) => a,
        (Some(x), Some(y)) => { if y < x { Some(y) } else { Some(x) } }
    }
}

#[tactic(auto, using(crate::proofs::Least::lesser_assoc))]
fn timer_with(timers: &SharedList<Timer>, script: &Txt) -> Option<u64>
    ensures { result ≡ timer_with script.now timers.now }
{
    let mut least = None;
    for timer in timers.iter() {
        if timer.script.as_bytes() == script.as_bytes() {
            least = lesser(least, Some(timer.id));
        }
    }
    least
}

#[tactic(auto, using(crate::proofs::Least::lesser_assoc))]
fn idle_with(idles: &SharedList<Idle>, script: &Txt) -> Option<u64>
    ensures { result ≡ idle_with script.now idles.now }
{
    let mut least = None;
    for idle in idles.iter() {
        if idle.script.as_bytes() == script.as_bytes() {
            least = lesser(least, Some(idle.id));
        }
    }
    least
}
