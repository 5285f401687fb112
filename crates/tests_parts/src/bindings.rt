//! Which binding fires, and percent forms.

use crate::scenes::{Keys, sequence};
use std::alloc::Global;
use tks_bind::percents;
use tks_text::Txt;

// Control, Alt and Shift are held: the binding with two of them beats one of these, and the later of the others fires.
fn modifiers_choose(keys: &mut Keys) -> Option<bool> {
    keys.bind(b"<Control-Alt-Key>", b"ca")?;
    keys.bind(b"<Shift-Key>", b"s")?;
    keys.bind(b"<Control-Key>", b"c")?;
    keys.fires(b"a", 13, b"s")
}

#[test]
fn the_latest_that_none_beats_fires(rt: HostRuntime) {
    let chosen = match Keys::new(rt.alloc()) {
        Some(mut keys) => modifiers_choose(&mut keys) == Some(true),
        None => false,
    };
    assert!(rt; chosen);
}

// A modifier key may lie between keys; the choice of events isn't the latest one.
fn key_between(keys: &mut Keys) -> Option<bool> {
    keys.bind(b"<Key-x><Key><Key-b>", b"yes")?;
    Some(
        keys.fires(b"x", 0, b"")?
            && keys.fires(b"a", 0, b"")?
            && keys.fires(b"Shift_L", 0, b"")?
            && keys.fires(b"b", 1, b"yes")?,
    )
}

#[test]
fn a_modifier_key_may_lie_between(rt: HostRuntime) {
    let fires = match Keys::new(rt.alloc()) {
        Some(mut keys) => key_between(&mut keys) == Some(true),
        None => false,
    };
    assert!(rt; fires);
}

// A key meets a binding of a virtual event; the same sequence bound itself beats it, whichever was set last.
fn virtual_events(alloc: Global, keys: &mut Keys) -> Option<bool> {
    keys.bind(b"a", b"itself")?;
    keys.bind(b"<<V>>", b"virtual")?;
    let name = Txt::from_bytes(alloc, b"V").ok()?;
    keys.add(&name, b"a")?;
    keys.add(&name, b"b")?;
    let before = keys.fires(b"a", 0, b"itself")? && keys.fires(b"b", 0, b"virtual")?;
    keys.virtuals
        .event_delete_sequence(&name, &sequence(alloc, b"b")?)
        .ok()?;
    let after = keys.fires(b"b", 0, b"")?;
    keys.virtuals.event_delete(&name).ok()?;
    Some(before && after && keys.virtuals.len() == 0)
}

#[test]
fn virtual_events_are_met_through_sequences(rt: HostRuntime) {
    let fires = match Keys::new(rt.alloc()) {
        Some(mut keys) => virtual_events(rt.alloc(), &mut keys) == Some(true),
        None => false,
    };
    assert!(rt; fires);
}

// Percent forms of a key: a space in backslash form, a field that it lacks, a form that there is none of.
fn forms(alloc: Global, keys: &Keys) -> Option<bool> {
    let script = Txt::from_bytes(alloc, b"%A %K %W %b %s%% %q %").ok()?;
    let path = Txt::from_bytes(alloc, b".e").ok()?;
    let made = percents(alloc, &script, &keys.event(b"space", 5)?, &path).ok()?;
    Some(made.as_bytes() == b"\\  space .e ?? 5% %q %".as_slice())
}

#[test]
fn percent_forms_are_replaced(rt: HostRuntime) {
    let replaced = match Keys::new(rt.alloc()) {
        Some(keys) => forms(rt.alloc(), &keys) == Some(true),
        None => false,
    };
    assert!(rt; replaced);
}

// An append is on a line of its own and counts as set; the list is in canonical spelling, oldest first.
fn appends(keys: &mut Keys) -> Option<bool> {
    keys.bind(b"<Key>", b"any")?;
    keys.bind(b"<KeyRelease-a>", b"up")?;
    keys.bind(b"<Key>", b"+more")?;
    let listed = keys.bindings.sequences(&keys.tag).ok()?;
    let names = listed.as_slice();
    let told = names.len() == 2
        && names.first()?.as_bytes() == b"<KeyPress>".as_slice()
        && names.last()?.as_bytes() == b"<KeyRelease-a>".as_slice();
    let fires = keys.fires(b"z", 0, b"any\nmore")?;
    keys.bind(b"<Key>", b"")?;
    Some(told && fires && keys.fires(b"z", 0, b"")?)
}

#[test]
fn scripts_are_appended_and_taken_away(rt: HostRuntime) {
    let appended = match Keys::new(rt.alloc()) {
        Some(mut keys) => appends(&mut keys) == Some(true),
        None => false,
    };
    assert!(rt; appended);
}
