//! The windows: the tree of their numbers, paths and classes, and what is kept of each.
ghost use Rattle.std.specs.Prelude.{◌≡◌, true, option_map, if◌then◌else◌, Some, None, IfOk, IfSome, IfNone, OnOk, OnErr, map};
ghost use Rattle.tks_text.specs.Fault.{Gives};
ghost use Rattle.tks_tree.specs.Meets.{MakesSo};
ghost use Rattle.tks_tree.specs.Within.{AreThoseIn};
ghost use Rattle.tks_share.specs.Lists.{Rises};
ghost use Rattle.tks_state.specs.Widget.{class_of};
ghost use Rattle.tks_state.specs.Windows.{kept_of, replaced, with_widget_at, with_tags_at, called_at, called, packed_at, forgotten_at, propagating, first_windows, created, destroyed, changed, tagged, packed, unpacked, with_propagation};
ghost use Rattle.tks_state.specs.Asking.{AsksSo, changed_at, changed_in};
ghost use Rattle.tks_state.specs.EventLoop.{Stay};
ghost use Rattle.tks_state.specs.Laid.{AsksAlone, AsksNoneAlone};
ghost use Rattle.tks_state.specs.WellFormed.{WellFormedWindows, mark_of};
ghost use Rattle.tks_tree.specs.WellFormed.{is_widget_class};
ghost use Rattle.tks_state.specs.Restoring.{are_windows};

use crate::asking::{Asked, WidgetChange};
use crate::calling::Calling;
use crate::kept::{Kept, held_tags};
use crate::restoring::{all_pack_children, are_in_step};
use crate::widget::Widget;
use std::alloc::{AllocError, Global};
use std::marker::Model;
use tks_button::Frame;
use tks_opt::Said;
use tks_pack::Extent;
use tks_share::{Share, Shared, SharedList};
use tks_text::{ErrorNumber, Failure, ScriptFault, Seq, Txt};
use tks_tree::{CreateFault, Tree, WindowId, without_windows};

/// The windows of a world. Copies share what none of them has changed.
pub struct Windows {
    alloc: Global,
    tree: Tree,
    kept: SharedList<Kept>,
}

// Written out, so that to let go of it is one step for whoever owns it.
impl Drop for Windows {
    fn drop(self) {
        let Windows {
            alloc: _,
            tree: _,
            kept: _,
        } = self;
    }
}

impl Model for Windows {
    ghost use Rattle.std.specs.Coded.{codes};
    ghost use Rattle.tks_state.specs.Windows.{Windows};
    ghost use Rattle.tks_state.specs.WellFormed.{WellFormedWindows};

    ghost Value = { Windows };

    ghost coded = { Prim.hlevel codes };

    ghost view = { λ x. record { tree = x.tree; kept = x.kept } };

    ghost invariant = { λ x. WellFormedWindows (record { tree = x.tree; kept = x.kept }) };
}

// What is kept of a window. Windows' numbers rise.
fn find(kept: &SharedList<Kept>, window: WindowId) -> Option<&Kept>
    requires { Rises (λ k. k.window) 0 kept.now }
    ensures { option_map (λ k. k.now) result ≡ kept_of kept.now window }
{
    match kept.place_of(window.number()) {
        Some(place) => kept.get(place),
        None => None,
    }
}

// Puts other things that are kept of a window in the place of those that are. It is the same window, of the same class.
fn replace(kept: &mut SharedList<Kept>, window: WindowId, one: Kept) -> Result<(), AllocError>
    requires rises { Rises (λ k. k.window) 0 kept.old }
    requires mark { IfSome (kept_of kept.old window) (λ k. mark_of one ≡ mark_of k) }
    ensures value { OnOk result (kept.new ≡ replaced window one kept.old) }
    ensures marks { OnOk result (map mark_of kept.new ≡ map mark_of kept.old) }
    ensures err { OnErr result (kept.new ≡ kept.old) }
{
    let Some(place) = kept.place_of(window.number()) else {
        return Ok(());
    };
    kept.set(place, one)?;
    Ok(())
}

// Puts another widget of its class in the place of a window's.
fn set_widget_at(
    alloc: Global,
    kept: &mut SharedList<Kept>,
    window: WindowId,
    widget: Widget,
) -> Result<(), AllocError>
    requires rises { Rises (λ k. k.window) 0 kept.old }
    requires class { IfSome (kept_of kept.old window) (λ k. class_of k.widget ≡ class_of widget) }
    ensures value { OnOk result (kept.new ≡ with_widget_at kept.old window widget) }
    ensures marks { OnOk result (map mark_of kept.new ≡ map mark_of kept.old) }
    ensures err { OnErr result (kept.new ≡ kept.old) }
{
    let Some(one) = find(kept, window) else {
        return Ok(());
    };
    let one = one.with_widget(alloc, widget)?;
    replace(kept, window, one)?;
    Ok(())
}

// What the widget of a window answers to the words of a whole command, or the change that they say.
fn ask_at<'w>(
    alloc: Global,
    kept: &SharedList<Kept>,
    window: WindowId,
    words: &'w [Txt],
) -> Result<Asked<'w>, Failure>
    requires { Rises (λ k. k.window) 0 kept.now }
    ensures { AsksSo (changed_at kept.now window) result (called_at kept.now window words.now) kept.now }
{
    match find(kept, window) {
        Some(one) => one.widget.get().ask(words),
        None => Ok(Asked::Said(Said::Text(Txt::new(alloc)))),
    }
}

// Makes a change of the widget of a window.
fn change_at(
    alloc: Global,
    kept: &mut SharedList<Kept>,
    window: WindowId,
    change: WidgetChange<'_>,
) -> Result<Said, Failure>
    requires { Rises (λ k. k.window) 0 kept.old }
    ensures value { Gives (λ said. (said, kept.new)) result (changed_at kept.old window change.entry) }
    ensures marks { map mark_of kept.new ≡ map mark_of kept.old }
    ensures err { OnErr result (kept.new ≡ kept.old) }
{
    let Some(place) = kept.place_of(window.number()) else {
        return Ok(Said::Text(Txt::new(alloc)));
    };
    match kept.change(place, &mut Calling { alloc, change })? {
        Some(answer) => answer,
        None => unreachable!(),
    }
}

// Sets the tags of a window, or takes away those that were set.
fn set_tags_at(
    alloc: Global,
    kept: &mut SharedList<Kept>,
    window: WindowId,
    tags: Option<Seq<Txt>>,
) -> Result<(), AllocError>
    requires { Rises (λ k. k.window) 0 kept.old }
    ensures value { OnOk result (kept.new ≡ with_tags_at kept.old window tags) }
    ensures marks { OnOk result (map mark_of kept.new ≡ map mark_of kept.old) }
    ensures err { OnErr result (kept.new ≡ kept.old) }
{
    let Some(one) = find(kept, window) else {
        return Ok(());
    };
    let one = one.with_tags(held_tags(alloc, tags)?)?;
    replace(kept, window, one)?;
    Ok(())
}

// Packs a window in a container.
fn pack_at(
    kept: &mut SharedList<Kept>,
    container: Option<WindowId>,
    window: WindowId,
    options: &[Txt],
) -> Result<(), Failure>
    requires { Rises (λ k. k.window) 0 kept.old }
    ensures value { Gives (λ _. kept.new) result (packed_at kept.old container window options.now) }
    ensures marks { OnOk result (map mark_of kept.new ≡ map mark_of kept.old) }
    ensures err { OnErr result (kept.new ≡ kept.old) }
{
    let Some(container) = container else {
        return Err(Failure::Script(ScriptFault {
            number: ErrorNumber::NotAllowedOnRoot,
            subject: None,
        }));
    };
    let Some(one) = find(kept, container) else {
        return Ok(());
    };
    let one = one.packed(window, options)?;
    replace(kept, container, one)?;
    Ok(())
}

// Takes a window out of a container.
fn forget_at(
    kept: &mut SharedList<Kept>,
    container: Option<WindowId>,
    window: WindowId,
) -> Result<(), AllocError>
    requires { Rises (λ k. k.window) 0 kept.old }
    ensures value { OnOk result (kept.new ≡ forgotten_at kept.old container window) }
    ensures marks { OnOk result (map mark_of kept.new ≡ map mark_of kept.old) }
    ensures err { OnErr result (kept.new ≡ kept.old) }
{
    let Some(container) = container else {
        return Ok(());
    };
    let Some(one) = find(kept, container) else {
        return Ok(());
    };
    let one = one.forgotten(window)?;
    replace(kept, container, one)?;
    Ok(())
}

// Says whether a container asks for its contents.
fn set_propagates_at(
    kept: &mut SharedList<Kept>,
    container: WindowId,
    propagates: bool,
) -> Result<(), AllocError>
    requires { Rises (λ k. k.window) 0 kept.old }
    ensures value { OnOk result (kept.new ≡ propagating kept.old container propagates) }
    ensures marks { OnOk result (map mark_of kept.new ≡ map mark_of kept.old) }
    ensures err { OnErr result (kept.new ≡ kept.old) }
{
    let Some(one) = find(kept, container) else {
        return Ok(());
    };
    let one = one.propagating(propagates)?;
    replace(kept, container, one)?;
    Ok(())
}

impl Windows {
    /// `.` alone.
    pub fn first(alloc: Global) -> Result<Windows, AllocError>
        ensures { IfOk result (λ x. x ≡ first_windows) }
    {
        let path = Txt::from_text(alloc, b".")?;
        let widget = Shared::new(alloc, Widget::Frame(Frame::root(alloc, &path)?))?;
        let mut kept = SharedList::new(alloc);
        kept.push(Kept::new(alloc, WindowId::root(), widget))?;
        Ok(Windows {
            alloc,
            tree: Tree::new(alloc)?,
            kept,
        })
    }

    /// Those with this tree, where this is what is kept of each of its windows.
    pub fn restore(
        alloc: Global,
        tree: Tree,
        kept: SharedList<Kept>,
    ) -> Result<Option<Windows>, AllocError>
        ensures { IfOk result (λ windows. windows ≡ (if are_windows (record { tree = tree; kept = kept }) then Some (record { tree = tree; kept = kept }) else None)) }
    {
        if are_in_step(&tree, &kept) && all_pack_children(alloc, &tree, &kept)? {
            Ok(Some(Windows { alloc, tree, kept }))
        } else {
            Ok(None)
        }
    }

    /// Their numbers, paths and classes.
    pub fn tree(&self) -> &Tree
        ensures value { result.now ≡ self.now.tree }
        ensures formed { WellFormedWindows self.now }
    {
        &self.tree
    }

    /// What is kept of each, in the order in which they were made.
    pub fn all(&self) -> &SharedList<Kept>
        ensures { result.now ≡ self.now.kept }
    {
        &self.kept
    }

    /// What is kept of the window of a number.
    pub fn get(&self, window: WindowId) -> Option<&Kept>
        ensures { option_map (λ k. k.now) result ≡ kept_of self.now.kept window }
    {
        find(&self.kept, window)
    }

    /// Makes a window other than `.`, which is this widget. The path has to be one that no window has, in a window that is there.
    pub fn add(&mut self, path: &Txt, widget: Widget) -> Result<WindowId, CreateFault>
        requires { is_widget_class (class_of widget) ≡ true }
        ensures value { MakesSo (λ id. (id, self.new)) result (created self.old path.now widget) }
        ensures err { OnErr result (self.new ≡ self.old) }
        ensures stay { Stay self.old.tree.windows self.new.tree.windows }
    {
        let class = widget.options().class();
        let widget = Shared::new(self.alloc, widget)?;
        let mut tree = self.tree.share()?;
        let window = tree.create(path, class)?;
        self.kept.push(Kept::new(self.alloc, window, widget))?;
        self.tree = tree;
        Ok(window)
    }

    /// The same without a window, and without all that stand in it, with the numbers of those that go. `.` stays: that is an
    /// error. Where no window has the number, none goes.
    pub fn without(&self, window: WindowId) -> Result<(Windows, Vec<WindowId>), Failure>
        ensures value { Gives (λ x. x.0) result (destroyed self.now window) }
        ensures gone { IfOk result (λ x. AreThoseIn self.now.tree window x.1.items) }
    {
        let container = self.tree.parent(window);
        let mut tree = self.tree.share()?;
        let gone = tree.destroy(window)?;
        let mut kept = self.kept.share()?;
        forget_at(&mut kept, container, window)?;
        let kept = without_windows(&kept, &gone)?;
        let windows = Windows {
            alloc: self.alloc,
            tree,
            kept,
        };
        Ok((windows, gone))
    }

    /// Puts another widget of its class in the place of a window's. Where no window has the number, nothing is done.
    pub fn set_widget(&mut self, window: WindowId, widget: Widget) -> Result<(), AllocError>
        requires { IfSome (kept_of self.old.kept window) (λ k. class_of k.widget ≡ class_of widget) }
        ensures ok { OnOk result (self.new ≡ changed self.old window widget) }
        ensures err { OnErr result (self.new ≡ self.old) }
        ensures tree { self.new.tree ≡ self.old.tree }
    {
        set_widget_at(self.alloc, &mut self.kept, window, widget)?;
        Ok(())
    }

    /// What the widget of a window answers to the words of a whole command, the window's path first, or the change that they
    /// say. Where no window has the number, the answer is empty.
    pub(crate) fn ask<'w>(&self, window: WindowId, words: &'w [Txt]) -> Result<Asked<'w>, Failure>
        ensures { AsksSo (changed_in self.now window) result (called self.now window words.now) self.now }
    {
        ask_at(self.alloc, &self.kept, window, words)
    }

    /// How much room the widget of a window asks for, where it shows no global.
    pub(crate) fn asked_alone(&self, window: WindowId) -> Option<Extent>
        ensures some { IfSome result (AsksAlone self.now window) }
        ensures none { IfNone result (AsksNoneAlone self.now window) }
    {
        let kept = self.get(window)?;
        let widget = kept.widget.get();
        if widget.is_linked() {
            return None;
        }
        Some(widget.requested())
    }

    /// Makes a change of the widget of a window. Where no window has the number, nothing is done.
    pub(crate) fn change(
        &mut self,
        window: WindowId,
        change: WidgetChange<'_>,
    ) -> Result<Said, Failure>
        ensures value { Gives (λ said. (said, self.new)) result (changed_in self.old window change.entry) }
        ensures err { OnErr result (self.new ≡ self.old) }
        ensures tree { self.new.tree ≡ self.old.tree }
    {
        let said = change_at(self.alloc, &mut self.kept, window, change)?;
        Ok(said)
    }

    /// Sets the tags of a window, or takes away those that were set. Where no window has the number, nothing is done.
    pub fn set_tags(&mut self, window: WindowId, tags: Option<Seq<Txt>>) -> Result<(), AllocError>
        ensures ok { OnOk result (self.new ≡ tagged self.old window tags) }
        ensures err { OnErr result (self.new ≡ self.old) }
        ensures tree { self.new.tree ≡ self.old.tree }
    {
        set_tags_at(self.alloc, &mut self.kept, window, tags)?;
        Ok(())
    }

    /// Packs a window in the one that it stands in, with options and values in turn. `.` is never packed.
    pub fn pack(&mut self, window: WindowId, options: &[Txt]) -> Result<(), Failure>
        ensures value { Gives (λ _. self.new) result (packed self.old window options.now) }
        ensures err { OnErr result (self.new ≡ self.old) }
        ensures tree { self.new.tree ≡ self.old.tree }
    {
        let container = self.tree.parent(window);
        pack_at(&mut self.kept, container, window, options)?;
        Ok(())
    }

    /// Takes a window out of the container that it is packed in, if it is.
    pub fn forget(&mut self, window: WindowId) -> Result<(), AllocError>
        ensures ok { OnOk result (self.new ≡ unpacked self.old window) }
        ensures err { OnErr result (self.new ≡ self.old) }
        ensures tree { self.new.tree ≡ self.old.tree }
    {
        let container = self.tree.parent(window);
        forget_at(&mut self.kept, container, window)?;
        Ok(())
    }

    /// Says whether a container asks to be as large as its contents need.
    pub fn set_propagates(&mut self, window: WindowId, propagates: bool) -> Result<(), AllocError>
        ensures ok { OnOk result (self.new ≡ with_propagation self.old window propagates) }
        ensures err { OnErr result (self.new ≡ self.old) }
        ensures tree { self.new.tree ≡ self.old.tree }
    {
        set_propagates_at(&mut self.kept, window, propagates)?;
        Ok(())
    }
}

impl Share for Windows {
    fn share(&self) -> Result<Windows, AllocError> {
        Ok(Windows {
            alloc: self.alloc,
            tree: self.tree.share()?,
            kept: self.kept.share()?,
        })
    }
}
