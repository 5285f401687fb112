//! The bindings of classes that a world has before any input.
ghost use Rattle.std.specs.Prelude.{◌≡◌, ◌≤◌, ◌<◌, ◌+◌, IfOk, OnOk};
ghost use Rattle.tks_text.specs.Text.{IsText};
ghost use Rattle.tks_bind.specs.Binding.{nothing};
ghost use Rattle.tks_state.specs.ClassBindings.{all_bound, one_bound, entry_keys, first_bindings, invoking, presses, text_keys, traversal, typing, first_binding};

use std::alloc::{AllocError, Global};
use tks_bind::{BindFault, Bindings};
use tks_event::parse_sequence;
use tks_text::{Failure, Txt};

// Binds a script to a sequence as scripts write it.
fn bind(
    alloc: Global,
    bindings: &mut Bindings,
    tag: &[u8],
    sequence: &[u8],
    script: &[u8],
) -> Result<(), AllocError>
    requires texts { IsText tag.now × IsText sequence.now × IsText script.now }
    requires room { bindings.old.next < 100 }
    ensures value { OnOk result (bindings.new ≡ one_bound (first_binding tag.now sequence.now script.now) bindings.old) }
    ensures next { OnOk result (bindings.new.next ≤ bindings.old.next + 1) }
{
    let tag = Txt::from_text(alloc, tag)?;
    let sequence = Txt::from_text(alloc, sequence)?;
    let script = Txt::from_text(alloc, script)?;
    match parse_sequence(alloc, &sequence) {
        Ok(sequence) => match bindings.bind(tag, sequence, &script) {
            Ok(()) => Ok(()),
            Err(BindFault::NoMemory) => Err(AllocError),
            Err(BindFault::OutOfNumbers) => unreachable!(),
        },
        Err(Failure::Script(_)) => Ok(()),
        Err(Failure::NoMemory) => Err(AllocError),
    }
}

// A press gives the focus.
fn bind_presses(alloc: Global, bindings: &mut Bindings) -> Result<(), AllocError>
    requires { bindings.old.next < 50 }
    ensures value { OnOk result (bindings.new ≡ all_bound presses bindings.old) }
    ensures next { OnOk result (bindings.new.next ≤ bindings.old.next + 5) }
{
    bind(alloc, bindings, b"Entry", b"<ButtonPress-1>", b"focus %W")?;
    bind(
        alloc,
        bindings,
        b"Listbox",
        b"<ButtonPress-1>",
        b"focus %W; %W activate [%W nearest %y]; %W selection clear 0 end; %W selection set active",
    )?;
    bind(alloc, bindings, b"Text", b"<ButtonPress-1>", b"focus %W")?;
    bind(alloc, bindings, b"Button", b"<ButtonPress-1>", b"focus %W")?;
    bind(
        alloc,
        bindings,
        b"Checkbutton",
        b"<ButtonPress-1>",
        b"focus %W",
    )?;
    Ok(())
}

// Keys that print are typed.
fn bind_typing(alloc: Global, bindings: &mut Bindings, tag: &[u8]) -> Result<(), AllocError>
    requires text { IsText tag.now }
    requires room { bindings.old.next < 50 }
    ensures value { OnOk result (bindings.new ≡ all_bound (typing tag.now) bindings.old) }
    ensures next { OnOk result (bindings.new.next ≤ bindings.old.next + 3) }
{
    bind(
        alloc,
        bindings,
        tag,
        b"<KeyPress>",
        b"if {[string length %A] == 1} {%W insert insert %A}",
    )?;
    bind(alloc, bindings, tag, b"<Control-KeyPress>", b"continue")?;
    bind(alloc, bindings, tag, b"<Mod1-KeyPress>", b"continue")?;
    Ok(())
}

// Keys that edit an entry.
fn bind_entry_keys(alloc: Global, bindings: &mut Bindings) -> Result<(), AllocError>
    requires { bindings.old.next < 50 }
    ensures value { OnOk result (bindings.new ≡ all_bound entry_keys bindings.old) }
    ensures next { OnOk result (bindings.new.next ≤ bindings.old.next + 4) }
{
    bind(
        alloc,
        bindings,
        b"Entry",
        b"<KeyPress-BackSpace>",
        b"if {[%W index insert] > 0} {%W delete [expr {[%W index insert] - 1}]}",
    )?;
    bind(
        alloc,
        bindings,
        b"Entry",
        b"<KeyPress-Delete>",
        b"%W delete insert",
    )?;
    bind(
        alloc,
        bindings,
        b"Entry",
        b"<KeyPress-Left>",
        b"%W icursor [expr {[%W index insert] - 1}]",
    )?;
    bind(
        alloc,
        bindings,
        b"Entry",
        b"<KeyPress-Right>",
        b"%W icursor [expr {[%W index insert] + 1}]",
    )?;
    Ok(())
}

// Keys that edit a text.
fn bind_text_keys(alloc: Global, bindings: &mut Bindings) -> Result<(), AllocError>
    requires { bindings.old.next < 50 }
    ensures value { OnOk result (bindings.new ≡ all_bound text_keys bindings.old) }
    ensures next { OnOk result (bindings.new.next ≤ bindings.old.next + 4) }
{
    bind(
        alloc,
        bindings,
        b"Text",
        b"<KeyPress-BackSpace>",
        b"if {[%W index insert] ne \"1.0\"} {%W delete {insert -1c}}",
    )?;
    bind(
        alloc,
        bindings,
        b"Text",
        b"<KeyPress-Return>",
        b"%W insert insert \\n",
    )?;
    bind(
        alloc,
        bindings,
        b"Text",
        b"<KeyPress-Left>",
        b"%W mark set insert {insert -1c}",
    )?;
    bind(
        alloc,
        bindings,
        b"Text",
        b"<KeyPress-Right>",
        b"%W mark set insert {insert +1c}",
    )?;
    Ok(())
}

// Buttons are invoked.
fn bind_invoking(alloc: Global, bindings: &mut Bindings, tag: &[u8]) -> Result<(), AllocError>
    requires text { IsText tag.now }
    requires room { bindings.old.next < 50 }
    ensures value { OnOk result (bindings.new ≡ all_bound (invoking tag.now) bindings.old) }
    ensures next { OnOk result (bindings.new.next ≤ bindings.old.next + 2) }
{
    bind(alloc, bindings, tag, b"<ButtonRelease-1>", b"%W invoke")?;
    bind(alloc, bindings, tag, b"<KeyPress-space>", b"%W invoke")?;
    Ok(())
}

// The focus goes round.
fn bind_traversal(alloc: Global, bindings: &mut Bindings) -> Result<(), AllocError>
    requires { bindings.old.next < 50 }
    ensures { OnOk result (bindings.new ≡ all_bound traversal bindings.old) }
{
    bind(
        alloc,
        bindings,
        b"all",
        b"<KeyPress-Tab>",
        b"focus [tk_focusNext %W]",
    )?;
    bind(
        alloc,
        bindings,
        b"all",
        b"<Shift-KeyPress-Tab>",
        b"focus [tk_focusPrev %W]",
    )?;
    Ok(())
}

/// The bindings of classes that a world has before any input.
#[tactic(auto, unfolding(crate::specs::ClassBindings::first_bindings))]
pub fn first_bindings(alloc: Global) -> Result<Bindings, AllocError>
    ensures { IfOk result (λ bindings. bindings ≡ first_bindings) }
{
    let mut bindings = Bindings::new(alloc);
    bind_presses(alloc, &mut bindings)?;
    bind_typing(alloc, &mut bindings, b"Entry")?;
    bind_typing(alloc, &mut bindings, b"Text")?;
    bind_entry_keys(alloc, &mut bindings)?;
    bind_text_keys(alloc, &mut bindings)?;
    bind_invoking(alloc, &mut bindings, b"Button")?;
    bind_invoking(alloc, &mut bindings, b"Checkbutton")?;
    bind_traversal(alloc, &mut bindings)?;
    Ok(bindings)
}
