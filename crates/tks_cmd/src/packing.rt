//! The forms of `pack`.
ghost use Rattle.std.specs.Prelude.{◌≡◌, ◌≤◌, ◌^◌, ◌++◌, ◌∷◌, length, IfOk, OnOk};
ghost use Rattle.tks_tcl.specs.Words.{truth_text};
ghost use Rattle.tks_tcl.specs.Meets.{GivesSo};
ghost use Rattle.tks_text.specs.Truth.{truth_of_word};
ghost use Rattle.tks_cmd.specs.Packing.{window_of, windows_of, stands_in_one, or_on_root, content_of, contents_of, packed_each, begins_dash, window_count, options_read, packed_all, configure_does, unpacked_all, forget_does, packing_of, path_of, paths_of, slaves_text, slaves_does, truth_read, propagate_does, form_does, pack_does};
ghost use Rattle.tks_cmd.specs.Meets.{KeepsSo};

use crate::windows::{are_paired, not_on_root};
use std::alloc::{AllocError, Global};
use tks_list::join;
use tks_pack::{Content, Settings, with_options};
use tks_share::Items;
use tks_state::World;
use tks_tcl::{Interrupt, integer_in, wrong_words};
use tks_text::{Seq, Txt, begins_dot, truth_of_word};
use tks_tree::{Tree, WindowId};

/// The window of a path, which must be there.
pub fn window_of(world: &World, path: &Txt) -> Result<WindowId, Interrupt>
    ensures value { GivesSo (λ id. id) result (window_of world.now path.now) }
    ensures bound { IfOk result (λ id. id ≤ 2 ^ 62) }
{
    let id = world.tree().resolve(path)?;
    Ok(id)
}

// Those of paths, in order.
#[tactic(auto, using(crate::proofs::Each::begins, crate::proofs::Each::ends, crate::proofs::Each::goes, crate::proofs::Each::fails))]
fn windows_of(alloc: Global, world: &World, paths: &[Txt]) -> Result<Seq<WindowId>, Interrupt>
    ensures { GivesSo (λ ids. ids) result (windows_of world.now paths.now) }
{
    let mut ids = Seq::new(alloc);
    for path in paths {
        ids.push(window_of(world, path)?)?;
    }
    Ok(ids)
}

// Whether a window stands in another; only `.` doesn't.
fn stands_in_one(world: &World, window: WindowId) -> bool
    ensures { result ≡ stands_in_one world.now window }
{
    !window.is_root() && world.tree().parent(window).is_some()
}

// A window to be packed: it must be there, and not be `.`.
fn content_of(world: &World, path: &Txt) -> Result<WindowId, Interrupt>
    ensures { GivesSo (λ id. id) result (content_of world.now path.now) }
{
    let id = window_of(world, path)?;
    if stands_in_one(world, id) {
        Ok(id)
    } else {
        Err(not_on_root())
    }
}

// Those of paths, in order.
#[tactic(auto, using(crate::proofs::Each::begins, crate::proofs::Each::ends, crate::proofs::Each::goes, crate::proofs::Each::fails))]
fn contents_of(alloc: Global, world: &World, paths: &[Txt]) -> Result<Seq<WindowId>, Interrupt>
    ensures { GivesSo (λ ids. ids) result (contents_of world.now paths.now) }
{
    let mut ids = Seq::new(alloc);
    for path in paths {
        ids.push(content_of(world, path)?)?;
    }
    Ok(ids)
}

// Packs windows in those that they stand in, one after the other.
fn pack_each(world: &mut World, windows: &[WindowId], options: &[Txt]) -> Result<(), Interrupt>
    ensures { GivesSo (λ _. world.new) result (packed_each windows.now options.now world.old) }
{
    for window in windows {
        world.pack(*window, options)?;
    }
    Ok(())
}

// Whether options may have the values that stand behind them.
fn check_options(alloc: Global, options: &[Txt]) -> Result<(), Interrupt>
    ensures { GivesSo (λ x. x) result (options_read options.now) }
{
    with_options(alloc, Settings::new(), options)?;
    Ok(())
}

// Packs the windows of paths. After the first change nothing but want of memory is refused.
fn pack_all(
    alloc: Global,
    paths: &[Txt],
    options: &[Txt],
    world: &mut World,
) -> Result<Txt, Interrupt>
    ensures value { GivesSo (λ t. (t, world.new)) result (packed_all paths.now options.now world.old) }
    ensures kept { KeepsSo result world.old world.new }
{
    let windows = contents_of(alloc, world, paths)?;
    check_options(alloc, options)?;
    pack_each(world, windows.as_slice(), options)?;
    Ok(Txt::new(alloc))
}

// Whether a word begins as options do.
fn begins_dash(word: &Txt) -> bool
    ensures { result ≡ begins_dash word.now }
{
    matches!(word.as_bytes(), [b'-', ..])
}

// How many words stand before the first option.
fn window_count(words: &[Txt]) -> usize
    ensures value { result ≡ window_count words.now }
    ensures bound { result ≤ length words.now }
{
    words.iter().take_while(|word| !begins_dash(word)).count()
}

// pack ?configure? window .. ?option value ..?
#[tactic(auto, using(tks_tcl::proofs::Causes::tells))]
fn run_configure(
    alloc: Global,
    command: &Txt,
    words: &[Txt],
    world: &mut World,
) -> Result<Txt, Interrupt>
    ensures value { GivesSo (λ t. (t, world.new)) result (configure_does command.now words.now world.old) }
    ensures kept { KeepsSo result world.old world.new }
{
    let (paths, options) = words.split_at(window_count(words));
    if paths.is_empty() || !are_paired(options) {
        return Err(wrong_words(command));
    }
    let answer = pack_all(alloc, paths, options, world)?;
    Ok(answer)
}

// Takes windows out of those that they are packed in.
fn unpack_all(world: &mut World, windows: &[WindowId]) -> Result<(), AllocError>
    ensures { OnOk result (world.new ≡ unpacked_all windows.now world.old) }
{
    for window in windows {
        world.unpack(*window)?;
    }
    Ok(())
}

// pack forget window ..
#[tactic(auto, using(tks_tcl::proofs::Causes::tells))]
fn run_forget(
    alloc: Global,
    command: &Txt,
    words: &[Txt],
    world: &mut World,
) -> Result<Txt, Interrupt>
    ensures value { GivesSo (λ t. (t, world.new)) result (forget_does command.now words.now world.old) }
    ensures kept { KeepsSo result world.old world.new }
{
    if words.is_empty() {
        return Err(wrong_words(command));
    }
    let windows = windows_of(alloc, world, words)?;
    unpack_all(world, windows.as_slice())?;
    Ok(Txt::new(alloc))
}

// Adds the path of a window, where there is one of the number.
fn push_path(paths: &mut Seq<Txt>, tree: &Tree, window: WindowId) -> Result<(), AllocError>
    ensures { OnOk result (paths.new ≡ paths.old ++ path_of tree.now.windows window) }
{
    if let Some(window) = tree.window(window) {
        paths.push(window.path.try_clone()?)?;
    }
    Ok(())
}

// The paths of packed windows.
fn paths_of(
    alloc: Global,
    tree: &Tree,
    contents: Items<'_, Content>,
) -> Result<Seq<Txt>, AllocError>
    ensures { IfOk result (λ paths. paths ≡ paths_of tree.now.windows contents.entry) }
{
    let mut paths = Seq::new(alloc);
    for content in contents {
        push_path(&mut paths, tree, content.window)?;
    }
    Ok(paths)
}

// The list of the paths of the windows that are packed in one.
fn slaves_text(alloc: Global, world: &World, window: WindowId) -> Result<Txt, AllocError>
    ensures { IfOk result (λ t. t ≡ slaves_text world.now window) }
{
    let Some(kept) = world.kept(window) else {
        return Ok(Txt::new(alloc));
    };
    let paths = paths_of(alloc, world.tree(), kept.packing.contents())?;
    let text = join(alloc, paths.as_slice())?;
    Ok(text)
}

// pack slaves window
#[tactic(auto, using(tks_tcl::proofs::Causes::tells))]
fn run_slaves(alloc: Global, command: &Txt, words: &[Txt], world: &World) -> Result<Txt, Interrupt>
    ensures { GivesSo (λ t. (t, world.now)) result (slaves_does command.now words.now world.now) }
{
    match words {
        [path] => {
            let window = window_of(world, path)?;
            Ok(slaves_text(alloc, world, window)?)
        }
        _ => Err(wrong_words(command)),
    }
}

// Whether a window asks to be as large as its contents need.
fn propagates(world: &World, window: WindowId) -> bool
    ensures { result ≡ (packing_of world.now window).propagates }
{
    match world.kept(window) {
        Some(kept) => kept.packing.propagates(),
        None => true,
    }
}

// A truth value: one of the words, or an integer.
fn truth_of(text: &Txt) -> Result<bool, Interrupt>
    ensures { GivesSo (λ b. b) result (truth_read text.now (truth_of_word text.now)) }
{
    match truth_of_word(text.as_bytes()) {
        Some(truth) => Ok(truth),
        None => Ok(integer_in(text)? != 0),
    }
}

// pack propagate window ?boolean?
#[tactic(auto, using(tks_tcl::proofs::Causes::tells))]
fn run_propagate(
    alloc: Global,
    command: &Txt,
    words: &[Txt],
    world: &mut World,
) -> Result<Txt, Interrupt>
    ensures value { GivesSo (λ t. (t, world.new)) result (propagate_does command.now words.now world.old) }
    ensures kept { KeepsSo result world.old world.new }
{
    match words {
        [path] => {
            let window = window_of(world, path)?;
            let text = truth_text(alloc, propagates(world, window))?;
            Ok(text)
        }
        [path, value] => {
            let window = window_of(world, path)?;
            let truth = truth_of(value)?;
            world.set_propagates(window, truth)?;
            Ok(Txt::new(alloc))
        }
        _ => Err(wrong_words(command)),
    }
}

// `1` or `0`.
fn truth_text(alloc: Global, is_true: bool) -> Result<Txt, AllocError>
    ensures { IfOk result (λ t. t ≡ truth_text is_true) }
{
    Txt::from_text(alloc, if is_true { b"1" } else { b"0" })
}

// What a form answers, given the word behind the command's name and the others.
#[tactic(auto, using(tks_tcl::proofs::Causes::tells))]
fn run_form(
    alloc: Global,
    command: &Txt,
    form: &Txt,
    words: &[Txt],
    whole: &[Txt],
    world: &mut World,
) -> Result<Txt, Interrupt>
    requires { whole.now ≡ form.now ∷ words.now }
    ensures value { GivesSo (λ t. (t, world.new)) result (form_does command.now form.now words.now world.old) }
    ensures kept { KeepsSo result world.old world.new }
{
    let form = form.as_bytes();
    if form == b"configure".as_slice() {
        run_configure(alloc, command, words, world)
    } else if form == b"forget".as_slice() {
        run_forget(alloc, command, words, world)
    } else if form == b"slaves".as_slice() {
        run_slaves(alloc, command, words, world)
    } else if form == b"propagate".as_slice() {
        run_propagate(alloc, command, words, world)
    } else if begins_dot(form) {
        run_configure(alloc, command, whole, world)
    } else {
        Err(wrong_words(command))
    }
}

/// The forms of `pack`: what the command answers, given its first word and the others.
#[tactic(auto, using(tks_tcl::proofs::Causes::tells))]
pub fn run_pack(
    alloc: Global,
    command: &Txt,
    words: &[Txt],
    world: &mut World,
) -> Result<Txt, Interrupt>
    ensures value { GivesSo (λ t. (t, world.new)) result (pack_does command.now words.now world.old) }
    ensures kept { KeepsSo result world.old world.new }
{
    let Some((form, rest)) = words.split_first() else {
        return Err(wrong_words(command));
    };
    let answer = run_form(alloc, command, form, rest, words, world)?;
    Ok(answer)
}
