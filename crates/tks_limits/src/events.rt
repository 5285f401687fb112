//! Bindings, virtual events, and what waits.
ghost use Rattle.std.specs.Prelude.{◌≡◌};
ghost use Rattle.std.specs.List.{list_all};
ghost use Rattle.tks_limits.specs.Within as kinds;

use crate::texts::{fits, may_hold};
use tks_bind::{Binding, Bindings, History, VirtualEvent, Virtuals};
use tks_event::{Event, Pattern, Sequence};
use tks_queue::{Queue, Queued};
use tks_share::Items;
use tks_text::Limits;
use tks_timer::{Idle, Timer, Timers};

/// Whether the details of a sequence's events fit.
pub fn patterns_fit(patterns: &[Pattern], limits: &Limits) -> bool
    ensures { result ≡ kinds.sequence_fits limits.now patterns.now }
{
    for pattern in patterns {
        if !fits(pattern.detail.as_bytes(), limits) {
            return false;
        }
    }
    true
}

// Whether a binding fits.
fn binding_fits(binding: &Binding, limits: &Limits) -> bool
    ensures { result ≡ kinds.binding_fits limits.now binding.now }
{
    fits(binding.tag.as_bytes(), limits)
        && patterns_fit(binding.sequence.patterns(), limits)
        && fits(binding.script.as_bytes(), limits)
}

// Whether each binding fits.
fn each_binding_fits(bindings: Items<'_, Binding>, limits: &Limits) -> bool
    ensures { result ≡ list_all (kinds.binding_fits limits.now) bindings.entry }
{
    for binding in bindings {
        if !binding_fits(binding, limits) {
            return false;
        }
    }
    true
}

/// Whether bindings fit.
pub fn bindings_fit(bindings: &Bindings, limits: &Limits) -> bool
    ensures { result ≡ kinds.bindings_fit limits.now bindings.now.bindings }
{
    may_hold(bindings.len(), limits) && each_binding_fits(bindings.bindings(), limits)
}

// Whether each sequence fits.
fn sequences_fit(sequences: &[Sequence], limits: &Limits) -> bool
    ensures { result ≡ kinds.sequences_fit limits.now sequences.now }
{
    for sequence in sequences {
        if !patterns_fit(sequence.patterns(), limits) {
            return false;
        }
    }
    true
}

// Whether a virtual event fits.
fn virtual_fits(event: &VirtualEvent, limits: &Limits) -> bool
    ensures { result ≡ kinds.virtual_fits limits.now event.now }
{
    let sequences = event.sequences.as_slice();
    fits(event.name.as_bytes(), limits)
        && may_hold(sequences.len(), limits)
        && sequences_fit(sequences, limits)
}

// Whether each virtual event fits.
fn each_virtual_fits(events: Items<'_, VirtualEvent>, limits: &Limits) -> bool
    ensures { result ≡ list_all (kinds.virtual_fits limits.now) events.entry }
{
    for event in events {
        if !virtual_fits(event, limits) {
            return false;
        }
    }
    true
}

/// Whether virtual events fit.
pub fn virtuals_fit(virtuals: &Virtuals, limits: &Limits) -> bool
    ensures { result ≡ kinds.virtuals_fit limits.now virtuals.now }
{
    may_hold(virtuals.len(), limits) && each_virtual_fits(virtuals.events(), limits)
}

// Whether the texts of an event fit.
fn event_fits(event: &Event, limits: &Limits) -> bool
    ensures { result ≡ kinds.event_fits limits.now event.now }
{
    fits(event.detail.as_bytes(), limits) && fits(event.payload.as_bytes(), limits)
}

/// Whether the texts of past events fit.
pub fn history_fits(history: &History, limits: &Limits) -> bool
    ensures { result ≡ kinds.history_fits limits.now history.now }
{
    for event in history.events() {
        if !event_fits(event, limits) {
            return false;
        }
    }
    true
}

// Whether the texts of events that wait fit.
fn each_event_fits(events: Items<'_, Queued>, limits: &Limits) -> bool
    ensures { result ≡ list_all (λ q. kinds.event_fits limits.now q.event) events.entry }
{
    for queued in events {
        if !event_fits(&queued.event, limits) {
            return false;
        }
    }
    true
}

/// Whether events that wait fit.
pub fn queue_fits(queue: &Queue, limits: &Limits) -> bool
    ensures { result ≡ kinds.queue_fits limits.now queue.now }
{
    may_hold(queue.len(), limits) && each_event_fits(queue.events(), limits)
}

// Whether the scripts of timers fit.
fn each_timer_fits(timers: Items<'_, Timer>, limits: &Limits) -> bool
    ensures { result ≡ list_all (λ t. kinds.fits limits.now t.script) timers.entry }
{
    for timer in timers {
        if !fits(timer.script.as_bytes(), limits) {
            return false;
        }
    }
    true
}

// Whether idle scripts fit.
fn each_idle_fits(idles: Items<'_, Idle>, limits: &Limits) -> bool
    ensures { result ≡ list_all (λ i. kinds.fits limits.now i.script) idles.entry }
{
    for idle in idles {
        if !fits(idle.script.as_bytes(), limits) {
            return false;
        }
    }
    true
}

/// Whether timers and idle scripts fit.
pub fn timers_fit(timers: &Timers, limits: &Limits) -> bool
    ensures { result ≡ kinds.timers_fit limits.now timers.now }
{
    may_hold(timers.timer_count(), limits)
        && each_timer_fits(timers.timers(), limits)
        && may_hold(timers.idle_count(), limits)
        && each_idle_fits(timers.idles(), limits)
}
