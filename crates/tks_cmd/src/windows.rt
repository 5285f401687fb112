//! Making and destroying windows.
ghost use Rattle.std.specs.Prelude.{◌≡◌, true, Ok, IfOk};
ghost use Rattle.std.specs.List.{list_all};
ghost use Rattle.tks_text.specs.Fault.{Gives};
ghost use Rattle.tks_tcl.specs.Cause.{after};
ghost use Rattle.tks_tcl.specs.Meets.{GivesSo};
ghost use Rattle.tks_state.specs.Widget.{class_of};
ghost use Rattle.tks_tree.specs.WellFormed.{is_widget_class};
ghost use Rattle.tks_tree.specs.Windows.{free_path};
ghost use Rattle.tks_cmd.specs.Changes.{creation, outcome};
ghost use Rattle.tks_cmd.specs.Windows.{are_paired, kind_named, first_widget, new_widget, added, room, placed, made, make_does, is_other, without_path, without_all, destroy_does};
ghost use Rattle.tks_cmd.specs.Meets.{KeepsSo, interrupt_of};

use crate::links::set_first_value;
use crate::widgets::configure;
use std::alloc::{AllocError, Global};
use std::mem;
use tks_button::{Caption, Frame};
use tks_entry::EntryWidget;
use tks_eval::Plan;
use tks_limits::widget_fits;
use tks_lines::TextWidget;
use tks_listbox::ListWidget;
use tks_share::Share;
use tks_state::{Widget, World};
use tks_tcl::{Interrupt, wrong_words};
use tks_text::{Class, ErrorNumber, Failure, Limits, ScriptFault, Txt};
use tks_tree::{CreateFault, Tree};
use tks_vars::Vars;

/// What a command makes.
#[derive(Clone, Copy)]
pub enum WindowKind {
    Frame,
    Label,
    Button,
    Checkbutton,
    Entry,
    Listbox,
    Text,
}

impl WindowKind {
    /// The kind that the command of this name makes.
    pub fn named(name: &Txt) -> Option<WindowKind>
        ensures { result ≡ kind_named name.now }
    {
        let name = name.as_bytes();
        if name == b"frame".as_slice() {
            Some(WindowKind::Frame)
        } else if name == b"label".as_slice() {
            Some(WindowKind::Label)
        } else if name == b"button".as_slice() {
            Some(WindowKind::Button)
        } else if name == b"checkbutton".as_slice() {
            Some(WindowKind::Checkbutton)
        } else if name == b"entry".as_slice() {
            Some(WindowKind::Entry)
        } else if name == b"listbox".as_slice() {
            Some(WindowKind::Listbox)
        } else if name == b"text".as_slice() {
            Some(WindowKind::Text)
        } else {
            None
        }
    }

    // A window of this kind as it is at first.
    #[tactic(auto, using(crate::proofs::Legal::first_class))]
    fn first_widget(self, alloc: Global, path: &Txt) -> Result<Widget, AllocError>
        ensures value { IfOk result (λ v. v ≡ first_widget self path.now) }
        ensures class { IfOk result (λ v. is_widget_class (class_of v) ≡ true) }
    {
        match self {
            WindowKind::Frame => Ok(Widget::Frame(Frame::new(alloc, path)?)),
            WindowKind::Label => Ok(Widget::Caption(Caption::new(alloc, Class::Label, path)?)),
            WindowKind::Button => Ok(Widget::Caption(Caption::new(alloc, Class::Button, path)?)),
            WindowKind::Checkbutton => Ok(Widget::Caption(Caption::new(
                alloc,
                Class::Checkbutton,
                path,
            )?)),
            WindowKind::Entry => Ok(Widget::Entry(EntryWidget::new(alloc, path)?)),
            WindowKind::Listbox => Ok(Widget::Listbox(ListWidget::new(alloc, path)?)),
            WindowKind::Text => Ok(Widget::Text(TextWidget::new(alloc, path)?)),
        }
    }

    // The same with these options. After an error nothing is said of the variables.
    #[tactic(auto, unfolding(crate::specs::Windows::new_widget))]
    fn widget(
        self,
        alloc: Global,
        path: &Txt,
        options: &[Txt],
        variables: &mut Vars,
        limits: &Limits,
    ) -> Result<Widget, Interrupt>
        ensures value { GivesSo (λ v. (v, variables.new)) result (new_widget limits.now self path.now options.now variables.old) }
        ensures class { IfOk result (λ v. is_widget_class (class_of v) ≡ true) }
    {
        let first = self.first_widget(alloc, path)?;
        let widget = configure(alloc, options, first, variables, limits)?;
        set_first_value(&widget, variables, limits)?;
        Ok(widget)
    }
}

/// The error about what `.` is not allowed.
pub fn not_on_root() -> Interrupt
    ensures { result ≡ Interrupt.Script (record { number = ErrorNumber.NotAllowedOnRoot; subject = None }) }
{
    Interrupt::Script(ScriptFault {
        number: ErrorNumber::NotAllowedOnRoot,
        subject: None,
    })
}

// Why a command gives no answer where a window isn't made.
fn interrupt_of(fault: CreateFault) -> Interrupt
    ensures { result ≡ interrupt_of fault }
{
    match fault {
        CreateFault::Script(fault) => Interrupt::Script(fault),
        CreateFault::OutOfNumbers => Interrupt::TooLarge,
        CreateFault::NoMemory => Interrupt::NoMemory,
    }
}

/// Whether each option has a value.
pub fn are_paired(options: &[Txt]) -> bool
    ensures { result ≡ are_paired options.now }
{
    options.len() % 2 == 0
}

// Whether a window may be made under a path.
fn check_path(tree: &Tree, path: &Txt) -> Result<(), Interrupt>
    ensures { GivesSo (λ x. x) result (creation (free_path tree.now.windows path.now)) }
{
    match tree.check_path(path) {
        Ok(()) => Ok(()),
        Err(fault) => Err(interrupt_of(fault)),
    }
}

// Whether a window more passes no limit, and neither do the values that its options have at first.
fn check_room(world: &World, widget: &Widget, limits: &Limits) -> Result<(), Interrupt>
    ensures { GivesSo (λ x. x) result (room limits.now world.now widget.now) }
{
    if world.tree().len() < limits.items as usize && widget_fits(widget, limits) {
        Ok(())
    } else {
        Err(Interrupt::TooLarge)
    }
}

// Adds a window to the world, where it passes no limit.
#[tactic(auto, unfolding(crate::specs::Windows::placed))]
fn add_window(
    world: &mut World,
    path: &Txt,
    widget: Widget,
    limits: &Limits,
) -> Result<(), Interrupt>
    requires { is_widget_class (class_of widget) ≡ true }
    ensures value { GivesSo (λ _. world.new) result (placed limits.now world.old path.now widget) }
    ensures kept { KeepsSo result world.old world.new }
{
    check_room(world, &widget, limits)?;
    match world.add_window(path, widget) {
        Ok(_) => Ok(()),
        Err(fault) => Err(interrupt_of(fault)),
    }
}

// Makes a window of a kind, with a copy of the variables until nothing more is refused.
fn make(
    alloc: Global,
    kind: WindowKind,
    path: &Txt,
    options: &[Txt],
    world: &mut World,
    variables: &mut Vars,
    limits: &Limits,
) -> Result<Plan, Interrupt>
    ensures value { GivesSo (λ p. outcome p world.new variables.new) result (made limits.now kind path.now options.now world.old variables.old) }
    ensures world { KeepsSo result world.old world.new }
    ensures variables { KeepsSo result variables.old variables.new }
{
    check_path(world.tree(), path)?;
    let answer = path.try_clone()?;
    let mut copy = variables.share()?;
    let widget = kind.widget(alloc, path, options, &mut copy, limits)?;
    add_window(world, path, widget, limits)?;
    mem::swap(variables, &mut copy);
    Ok(Plan::Answer(0, answer))
}

/// frame, label, button, checkbutton, entry, listbox, text: path ?option value ..? Makes a window, and answers its path.
#[tactic(auto, using(tks_tcl::proofs::Causes::tells))]
pub fn run_make(
    alloc: Global,
    kind: WindowKind,
    command: &Txt,
    words: &[Txt],
    world: &mut World,
    variables: &mut Vars,
    limits: &Limits,
) -> Result<Plan, Interrupt>
    ensures value { GivesSo (λ p. outcome p world.new variables.new) result (make_does limits.now kind command.now words.now world.old variables.old) }
    ensures world { KeepsSo result world.old world.new }
    ensures variables { KeepsSo result variables.old variables.new }
{
    let Some((path, options)) = words.split_first() else {
        return Err(wrong_words(command));
    };
    if !are_paired(options) {
        return Err(wrong_words(command));
    }
    let plan = make(alloc, kind, path, options, world, variables, limits)?;
    Ok(plan)
}

// Whether `.` is not among paths.
fn are_others(paths: &[Txt]) -> bool
    ensures { result ≡ list_all is_other paths.now }
{
    paths.iter().all(|path| path.as_bytes() != b".".as_slice())
}

// Destroys the window of a path, with all that stand in it, where there is one.
fn destroy(world: &mut World, path: &Txt) -> Result<(), Failure>
    requires { is_other path.now ≡ true }
    ensures { Gives (λ _. world.new) result (Ok (without_path world.old path.now)) }
{
    let Some(window) = world.tree().find(path) else {
        return Ok(());
    };
    let id = window.id;
    world.remove_window(id)
}

// Destroys the windows of paths, one after the other.
fn destroy_all(world: &mut World, paths: &[Txt]) -> Result<(), Failure>
    requires { list_all is_other paths.now ≡ true }
    ensures { Gives (λ _. world.new) result (Ok (without_all world.old paths.now)) }
{
    for path in paths {
        destroy(world, path)?;
    }
    Ok(())
}

/// destroy path .. Paths that no window has are passed over.
#[tactic(auto, using(tks_tcl::proofs::Causes::tells))]
pub fn run_destroy(
    alloc: Global,
    command: &Txt,
    words: &[Txt],
    world: &mut World,
) -> Result<Txt, Interrupt>
    ensures value { GivesSo (λ t. (t, world.new)) result (destroy_does command.now words.now world.old) }
    ensures kept { KeepsSo result world.old world.new }
{
    if words.is_empty() {
        return Err(wrong_words(command));
    }
    if !are_others(words) {
        return Err(not_on_root());
    }
    destroy_all(world, words)?;
    Ok(Txt::new(alloc))
}
