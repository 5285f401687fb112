//! The windows' own commands: `configure`, and what else a widget answers, with the globals that it is linked to.
ghost use Rattle.std.specs.Prelude.{◌≡◌, true, false, Some, OnErr, IfOk, IfSome};
ghost use Rattle.tks_tcl.specs.Cause.{value_or_fault};
ghost use Rattle.tks_tcl.specs.Meets.{GivesSo};
ghost use Rattle.tks_state.specs.World as worlds;
ghost use Rattle.tks_vars.specs.Variables.{Variables};
ghost use Rattle.tks_state.specs.Widget.{class_of, stands_alone};
ghost use Rattle.tks_state.specs.Windows.{kept_of};
ghost use Rattle.tks_state.specs.Links.{seen};
ghost use Rattle.tks_cmd.specs.Changes.{outcome, plan_of};
ghost use Rattle.tks_cmd.specs.Widgets.{sets_link, is_configure, configured_pair, configured, told_words, assigned_does, action_does, configure_does, called, window_does};
ghost use Rattle.tks_cmd.specs.Meets.{KeepsSo};

use crate::contents::holds_within;
use crate::links::{set_global, settle};
use std::alloc::Global;
use std::mem;
use tks_button::Assignment;
use tks_eval::Plan;
use tks_opt::{Said, are_pairs};
use tks_share::{Copied, Share};
use tks_state::{Widget, World};
use tks_tcl::{Interrupt, wrong_words};
use tks_text::{Limits, Txt};
use tks_tree::WindowId;
use tks_vars::Vars;

// Whether a pair of an option and its value sets the link.
fn sets_link(pair: &[Txt]) -> bool
    ensures { result ≡ sets_link pair.now }
{
    match pair {
        [] => false,
        [name, ..] => name.as_bytes() == b"-textvariable".as_slice(),
    }
}

// Gives a widget, as it is seen, a pair of an option and its value.
fn configure_seen(
    alloc: Global,
    pair: &[Txt],
    widget: &Widget,
    next: &mut Widget,
    variables: &mut Vars,
    limits: &Limits,
) -> Result<(), Interrupt>
    requires seen { next.old ≡ seen variables.old widget.now }
    ensures value { GivesSo (λ _. (next.new, variables.new)) result (configured_pair limits.now pair.now (widget.now, variables.old)) }
    ensures err { OnErr result (variables.new ≡ variables.old) }
    ensures class { class_of next.new ≡ class_of next.old }
{
    next.configure(pair)?;
    settle(alloc, sets_link(pair), widget, next, variables, limits)
}

// A widget with a pair of an option and its value.
fn configure_pair(
    alloc: Global,
    pair: &[Txt],
    widget: &Widget,
    variables: &mut Vars,
    limits: &Limits,
) -> Result<Widget, Interrupt>
    ensures value { GivesSo (λ w. (w, variables.new)) result (configured_pair limits.now pair.now (widget.now, variables.old)) }
    ensures err { OnErr result (variables.new ≡ variables.old) }
    ensures class { IfOk result (λ w. class_of w ≡ class_of widget.now) }
{
    let mut next = widget.seen(alloc, variables)?;
    configure_seen(alloc, pair, widget, &mut next, variables, limits)?;
    Ok(next)
}

/// A widget with options and values in turn. After an error nothing is said of the variables.
#[tactic(auto, unfolding(crate::specs::Widgets::configured))]
pub fn configure(
    alloc: Global,
    pairs: &[Txt],
    widget: Widget,
    variables: &mut Vars,
    limits: &Limits,
) -> Result<Widget, Interrupt>
    ensures value { GivesSo (λ w. (w, variables.new)) result (configured limits.now pairs.now (widget, variables.old)) }
    ensures class { IfOk result (λ w. class_of w ≡ class_of widget) }
{
    let mut widget = widget;
    let mut rest = pairs;
    while 2 <= rest.len() {
        let (pair, more) = rest.split_at(2);
        widget = configure_pair(alloc, pair, &widget, variables, limits)?;
        rest = more;
    }
    Ok(widget)
}

// What a widget answers, and the widget that is left.
#[derive(Drop)]
struct Told {
    said: Said,
    widget: Widget,
}

// What a widget, as it is seen, answers to the words of a command.
#[tactic(auto, unfolding(crate::specs::Widgets::told_words))]
fn tell_words(
    alloc: Global,
    words: &[Txt],
    widget: &Widget,
    variables: &mut Vars,
    limits: &Limits,
) -> Result<Told, Interrupt>
    ensures value { GivesSo (λ t. (t.said, (t.widget, variables.new))) result (told_words limits.now words.now (widget.now, variables.old)) }
    ensures err { OnErr result (variables.new ≡ variables.old) }
    ensures class { IfOk result (λ t. class_of t.widget ≡ class_of widget.now) }
{
    let mut next = widget.seen(alloc, variables)?;
    let said = next.call(words)?;
    settle(alloc, false, widget, &mut next, variables, limits)?;
    Ok(Told { said, widget: next })
}

// The same behind a checkbutton's variable that is set first. After an error nothing is said of the variables.
fn assign_and_tell(
    alloc: Global,
    words: &[Txt],
    widget: &Widget,
    first: Assignment,
    variables: &mut Vars,
    limits: &Limits,
) -> Result<Told, Interrupt>
    ensures value { GivesSo (λ t. (t.said, (t.widget, variables.new))) result (assigned_does limits.now words.now widget.now (Some first) variables.old) }
    ensures class { IfOk result (λ t. class_of t.widget ≡ class_of widget.now) }
{
    let Assignment { variable, value } = first;
    set_global(variables, &variable, value, limits)?;
    tell_words(alloc, words, widget, variables, limits)
}

// What a widget answers to words other than those of `configure`: a checkbutton's variable is set on a copy.
#[tactic(auto, unfolding(crate::specs::Widgets::action_does))]
fn run_action(
    alloc: Global,
    words: &[Txt],
    widget: &Widget,
    variables: &mut Vars,
    limits: &Limits,
) -> Result<Told, Interrupt>
    ensures value { GivesSo (λ t. (t.said, (t.widget, variables.new))) result (action_does limits.now words.now (widget.now, variables.old)) }
    ensures err { OnErr result (variables.new ≡ variables.old) }
    ensures class { IfOk result (λ t. class_of t.widget ≡ class_of widget.now) }
{
    let Some(first) = widget.assigned(variables, words)? else {
        return tell_words(alloc, words, widget, variables, limits);
    };
    let mut copy = variables.share()?;
    let told = assign_and_tell(alloc, words, widget, first, &mut copy, limits)?;
    mem::swap(variables, &mut copy);
    Ok(told)
}

// A widget with options and values in turn: more than one pair on a copy of the variables.
#[tactic(auto, using(crate::proofs::Pairs::pair_alone))]
fn configure_all(
    alloc: Global,
    pairs: &[Txt],
    widget: &Widget,
    variables: &mut Vars,
    limits: &Limits,
) -> Result<Widget, Interrupt>
    ensures value { GivesSo (λ w. (w, variables.new)) result (configured limits.now pairs.now (widget.now, variables.old)) }
    ensures err { OnErr result (variables.new ≡ variables.old) }
    ensures class { IfOk result (λ w. class_of w ≡ class_of widget.now) }
{
    if let [_option, _value] = pairs {
        return configure_pair(alloc, pairs, widget, variables, limits);
    }
    let mut copy = variables.share()?;
    let configured = configure(alloc, pairs, widget.copied(alloc)?, &mut copy, limits)?;
    mem::swap(variables, &mut copy);
    Ok(configured)
}

// path configure option value ..
#[tactic(auto, using(tks_tcl::proofs::Causes::tells))]
fn run_configure(
    alloc: Global,
    path: &Txt,
    pairs: &[Txt],
    widget: &Widget,
    variables: &mut Vars,
    limits: &Limits,
) -> Result<Told, Interrupt>
    ensures value { GivesSo (λ t. (t.said, (t.widget, variables.new))) result (configure_does limits.now path.now pairs.now (widget.now, variables.old)) }
    ensures err { OnErr result (variables.new ≡ variables.old) }
    ensures class { IfOk result (λ t. class_of t.widget ≡ class_of widget.now) }
{
    if !are_pairs(pairs) {
        return Err(wrong_words(path));
    }
    let widget = configure_all(alloc, pairs, widget, variables, limits)?;
    Ok(Told {
        said: Said::Text(Txt::new(alloc)),
        widget,
    })
}

// What a widget comes to by the words of a whole command, the window's path first.
fn call(
    alloc: Global,
    words: &[Txt],
    widget: &Widget,
    variables: &mut Vars,
    limits: &Limits,
) -> Result<Told, Interrupt>
    ensures value { GivesSo (λ t. (t.said, (t.widget, variables.new))) result (called limits.now words.now (widget.now, variables.old)) }
    ensures err { OnErr result (variables.new ≡ variables.old) }
    ensures class { IfOk result (λ t. class_of t.widget ≡ class_of widget.now) }
{
    if let [path, name, rest @ ..] = words {
        if name.as_bytes() == b"configure".as_slice() {
            let told = run_configure(alloc, path, rest, widget, variables, limits)?;
            return Ok(told);
        }
    }
    let told = run_action(alloc, words, widget, variables, limits)?;
    Ok(told)
}

// A text is the answer itself, a script is run for it.
fn plan_of(said: Said) -> Plan
    ensures { result ≡ plan_of said }
{
    match said {
        Said::Text(text) => Plan::Answer(0, text),
        Said::Run(script) => Plan::Eval(script),
    }
}

// Whether the words of a whole command are those of `configure`.
fn is_configure(words: &[Txt]) -> bool
    ensures { result ≡ is_configure words.now }
{
    match words {
        [_, name, ..] => name.as_bytes() == b"configure".as_slice(),
        _ => false,
    }
}

// Calls the widget of a window with the words of a whole command.
fn call_widget(world: &mut World, window: WindowId, words: &[Txt]) -> Result<Said, Interrupt>
    ensures value { GivesSo (λ said. (said, world.new)) result (value_or_fault (worlds.called world.old window words.now)) }
    ensures err { OnErr result (world.new ≡ world.old) }
{
    let said = world.call_widget(window, words)?;
    Ok(said)
}

// What a window that stands alone answers to words other than those of `configure`. Its widget stays where it stands.
fn run_alone(
    world: &mut World,
    window: WindowId,
    words: &[Txt],
    limits: &Limits,
) -> Result<Plan, Interrupt>
    requires alone { IfSome (kept_of world.old.kept window) (λ k. stands_alone k.widget ≡ true) }
    requires other { is_configure words.now ≡ false }
    ensures value { (v : Variables) → GivesSo (λ p. outcome p world.new v) result (window_does limits.now window words.now world.old v) }
    ensures world { KeepsSo result world.old world.new }
{
    let said = call_widget(world, window, words)?;
    if let Some(kept) = world.kept(window) {
        let widget = kept.widget.get();
        widget.stands();
        if !holds_within(widget, limits) {
            return Err(Interrupt::TooLarge);
        }
    }
    Ok(plan_of(said))
}

/// What a window answers to the words of a whole command, its path first.
pub fn run_window(
    alloc: Global,
    world: &mut World,
    variables: &mut Vars,
    window: WindowId,
    words: &[Txt],
    limits: &Limits,
) -> Result<Plan, Interrupt>
    ensures value { GivesSo (λ p. outcome p world.new variables.new) result (window_does limits.now window words.now world.old variables.old) }
    ensures world { KeepsSo result world.old world.new }
    ensures variables { KeepsSo result variables.old variables.new }
{
    let Some(kept) = world.kept(window) else {
        return Ok(Plan::Answer(0, Txt::new(alloc)));
    };
    let widget = kept.widget.get();
    if widget.stands_alone() && !is_configure(words) {
        return run_alone(world, window, words, limits);
    }
    let told = call(alloc, words, widget, variables, limits)?;
    world.set_widget(window, told.widget)?;
    Ok(plan_of(told.said))
}
