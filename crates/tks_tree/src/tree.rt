//! The tree of windows, in the order in which they were made.
ghost use Rattle.std.specs.Prelude.{◌≡◌, ◌↔◌, ◌≤◌, true, ◌==◌, ◌++◌, ℕ, Bool, Some, ◌<◌, not, position, length, replicate, reverse, slice_get, IfOk, IfSome, OnOk, OnErr, option_map};
ghost use Rattle.std.specs.List.{filter};
ghost use Rattle.tks_tree.specs.Path.{parent_of, is_child};
ghost use Rattle.tks_text.specs.Fault.{Gives};
ghost use Rattle.tks_tree.specs.Windows.{max_number, first_windows, of_path, has_path, of_number, parent_found, free_path, created, may_skip, skipped, destroyed, resolved, number_at, parent, numbers, children, preorder, others_behind, Chooses};
ghost use Rattle.tks_tree.specs.Links.{parent_places, firsts_from, nexts_from, listed};
ghost use Rattle.tks_text.specs.Text.{same_text};
ghost use Rattle.tks_tree.specs.WellFormed.{is_widget_class, WellFormed};
ghost use Rattle.tks_tree.specs.View.{window_seen, Indexes};
ghost use Rattle.tks_tree.specs.Within.{is_one_of, AreThoseIn, front_within};
ghost use Rattle.tks_tree.specs.Meets.{MakesSo};

use crate::fault::{CreateFault, error_about};
use crate::focus::{first_accepted, others_behind};
use crate::gone::without_windows;
use crate::path::{ROOT, is_child, is_path, is_within, parent_of};
use crate::window::{Entry, Window, WindowId};
use std::alloc::{AllocError, Global};
use std::marker::Model;
use tks_share::{Iter, Share, SharedList, SharedMap};
use tks_text::{Class, ErrorNumber, Failure, MAX_NUMBER, ScriptFault, Txt};

/// The windows that there are, in the order in which they were made. There is always `.`, and each other
/// window stands in one made before it. Copies share what they have in common, so to make one costs next to nothing.
pub struct Tree {
    alloc: Global,
    windows: SharedList<Entry>,
    // The number of each window, under its path.
    index: SharedMap<WindowId>,
    next: u64,
}

// Written out, so that to let go of it is one step for whoever owns it.
impl Drop for Tree {
    fn drop(self) {
        let Tree {
            alloc: _,
            windows: _,
            index: _,
            next: _,
        } = self;
    }
}

// The windows by their places: their numbers, and the places of those that they stand in.
#[derive(Drop)]
struct Standing {
    ids: Vec<WindowId>,
    parents: Vec<Option<usize>>,
}

// For each window, by its place, that of the first one that stands right in it, and of the next one that stands where it does.
#[derive(Drop)]
struct Links {
    first: Vec<Option<usize>>,
    next: Vec<Option<usize>>,
}

impl Model for Tree {
    ghost use Rattle.tks_tree.specs.Windows.{Windows};
    ghost use Rattle.tks_tree.specs.WellFormed.{WellFormed};
    ghost use Rattle.tks_tree.specs.View.{Indexes};

    ghost Value = { Windows };

    ghost view = { λ t. record { windows = t.windows; next = t.next } };

    ghost invariant = { λ t. WellFormed (record { windows = t.windows; next = t.next }) × Indexes t.index t.windows };
}

impl Tree {
    /// `.` alone, of the class that is its own.
    pub fn new(alloc: Global) -> Result<Tree, AllocError>
        ensures { IfOk result (λ t. t ≡ first_windows) }
    {
        let mut windows = SharedList::new(alloc);
        windows.push(Entry {
            id: WindowId::root(),
            path: Txt::from_text(alloc, ROOT)?,
            class: Class::Root,
        })?;
        let mut index = SharedMap::new(alloc);
        index.insert(ROOT, WindowId::root())?;
        Ok(Tree {
            alloc,
            windows,
            index,
            next: 1,
        })
    }

    /// How many windows there are.
    pub fn len(&self) -> usize
        ensures value { result ≡ length self.now.windows }
        ensures formed { WellFormed self.now }
    {
        self.windows.len()
    }

    // The number of the window that has these bytes as its path.
    fn number_at(&self, path: &[u8]) -> Option<WindowId>
        ensures value { result ≡ number_at self.now.windows (Some path.now) }
        ensures formed { WellFormed self.now }
    {
        let index = &self.index;
        // `.` is always there.
        if path == ROOT {
            return Some(WindowId::root());
        }
        index.get(path).copied()
    }

    /// The window of a path.
    pub fn find(&self, path: &Txt) -> Option<Window<'_>>
        ensures { option_map window_seen result ≡ of_path self.now.windows path.now }
    {
        self.window(self.number_at(path.as_bytes())?)
    }

    // Whether there is a window of a path.
    fn has(&self, path: &Txt) -> bool
        ensures { result ≡ has_path self.now.windows path.now }
    {
        self.number_at(path.as_bytes()).is_some()
    }

    // How many windows were made before the one of a number, and are there. Numbers rise.
    fn place_of(&self, id: WindowId) -> Option<usize>
        ensures { result ≡ position (λ w. w.number == id) self.now.windows }
    {
        self.windows.place_of(id.number())
    }

    /// The window that was made after so many others that are there.
    pub fn nth(&self, index: usize) -> Option<Window<'_>>
        ensures { option_map window_seen result ≡ slice_get self.now.windows index }
    {
        match self.windows.get(index) {
            Some(entry) => Some(shown(entry)),
            None => None,
        }
    }

    /// The window of a number.
    pub fn window(&self, id: WindowId) -> Option<Window<'_>>
        ensures { option_map window_seen result ≡ of_number self.now.windows id }
    {
        self.nth(self.place_of(id)?)
    }

    /// The number of the window of a path, which must be there: else the error is about the path.
    pub fn resolve(&self, path: &Txt) -> Result<WindowId, Failure>
        ensures value { Gives (λ id. id) result (resolved self.now path.now) }
        ensures bound { IfOk result (λ id. id ≤ max_number) }
    {
        // What holds of all windows is asked for here.
        let _ = self.len();
        match self.find(path) {
            Some(window) => Ok(window.id),
            None => Err(Failure::Script(ScriptFault::about(ErrorNumber::NoSuchWindow, path)?)),
        }
    }

    // Whether the window that a path stands in is there.
    fn check_parent(&self, path: &Txt) -> Result<(), CreateFault>
        ensures { MakesSo (λ x. x) result (parent_found self.now.windows (parent_of path.now)) }
    {
        let Some(parent) = parent_of(path.as_bytes()) else {
            return Ok(());
        };
        let parent = Txt::from_text(self.alloc, parent)?;
        if self.has(&parent) {
            Ok(())
        } else {
            Err(error_about(ErrorNumber::NoSuchWindow, &parent))
        }
    }

    /// Whether a window may be made under a path. The text must be a path, no window may have it, and the one
    /// that it stands in must be there: these errors are about the path, and the last about the parent's.
    pub fn check_path(&self, path: &Txt) -> Result<(), CreateFault>
        ensures { MakesSo (λ x. x) result (free_path self.now.windows path.now) }
    {
        if !is_path(path.as_bytes()) {
            return Err(error_about(ErrorNumber::BadPath, path));
        }
        if self.has(path) {
            return Err(error_about(ErrorNumber::WindowExists, path));
        }
        self.check_parent(path)?;
        Ok(())
    }

    /// Makes a window of a class that isn't the root's, where one may be made under the path.
    pub fn create(&mut self, path: &Txt, class: Class) -> Result<WindowId, CreateFault>
        requires { is_widget_class class ≡ true }
        ensures value { MakesSo (λ id. (id, self.new)) result (created self.old path.now class) }
        ensures err { OnErr result (self.new ≡ self.old) }
    {
        self.check_path(path)?;
        if self.next >= MAX_NUMBER {
            return Err(CreateFault::OutOfNumbers);
        }
        let id = WindowId::of(self.next);
        let mut index = self.index.share()?;
        index.insert(path.as_bytes(), id)?;
        let path = path.try_clone()?;
        self.windows.push(Entry { id, path, class })?;
        self.index = index;
        self.next += 1;
        Ok(id)
    }

    /// The number that the next window gets, if there is one left.
    pub fn next(&self) -> u64
        ensures { result ≡ self.now.next }
    {
        self.next
    }

    /// Makes a number the next one to be given out, and says whether it may be: it isn't below the present next
    /// one, nor above 2^62. Else nothing is done. So a tree is made again with the numbers that its windows had.
    pub fn skip_to(&mut self, number: u64) -> bool
        ensures answer { result ≡ may_skip self.old number }
        ensures value { self.new ≡ skipped self.old number }
    {
        if number < self.next || number > MAX_NUMBER {
            return false;
        }
        self.next = number;
        true
    }

    /// The numbers of a window and of those that stand in it, however deep; none where no window has the number. To find
    /// them costs as much as there are of them: in the order of their bytes, their paths come right behind the window's.
    pub fn within(&self, id: WindowId) -> Result<Vec<WindowId>, AllocError>
        ensures { IfOk result (λ ids. AreThoseIn self.now id ids.items) }
    {
        let mut ids = Vec::new(self.alloc);
        let Some(window) = self.window(id) else {
            return Ok(ids);
        };
        let path = window.path.as_bytes();
        ids.push(id)?;
        push_within(&mut ids, path, self.index.iter_behind(path))?;
        Ok(ids)
    }

    // The index without the paths of these windows.
    fn index_without(&self, ids: &[WindowId]) -> Result<SharedMap<WindowId>, AllocError>
        ensures { IfOk result (λ index. Indexes index (filter (λ w. not (is_one_of w.number ids.now)) self.now.windows)) }
    {
        let mut index = self.index.share()?;
        for id in ids {
            if let Some(window) = self.window(*id) {
                index.remove(window.path.as_bytes())?;
            }
        }
        Ok(index)
    }

    /// Takes a window out, and all that stand in it, however deep, and hands out their numbers. `.` stays: that is an
    /// error. Where no window has the number, none goes.
    pub fn destroy(&mut self, id: WindowId) -> Result<Vec<WindowId>, Failure>
        ensures value { Gives (λ _. self.new) result (destroyed self.old id) }
        ensures gone { IfOk result (λ ids. AreThoseIn self.old id ids.items) }
        ensures err { OnErr result (self.new ≡ self.old) }
    {
        if id.is_root() {
            return Err(Failure::Script(ScriptFault {
                number: ErrorNumber::NotAllowedOnRoot,
                subject: None,
            }));
        }
        let ids = self.within(id)?;
        let windows = without_windows(&self.windows, &ids)?;
        let index = self.index_without(&ids)?;
        self.windows = windows;
        self.index = index;
        Ok(ids)
    }

    /// The number of the window that one stands in; none for `.`, and for a number that no window has.
    pub fn parent(&self, id: WindowId) -> Option<WindowId>
        ensures { result ≡ parent self.now id }
    {
        let Some(window) = self.window(id) else {
            return None;
        };
        let Some(path) = parent_of(window.path.as_bytes()) else {
            return None;
        };
        self.number_at(path)
    }

    /// The windows that stand right in one, in the order in which they were made.
    pub fn children(&self, id: WindowId) -> Result<Vec<WindowId>, AllocError>
        ensures { IfOk result (λ ids. ids.items ≡ children self.now id) }
    {
        let mut ids = Vec::new(self.alloc);
        let Some(parent) = self.window(id) else {
            return Ok(ids);
        };
        for window in self.windows.iter() {
            if is_child(parent.path.as_bytes(), window.path.as_bytes()) {
                ids.push(window.id)?;
            }
        }
        Ok(ids)
    }

    // The place of the window of a path.
    fn place_at(&self, path: &[u8]) -> Option<usize>
        ensures { result ≡ position (λ w. same_text path.now w.path) self.now.windows }
    {
        self.place_of(self.number_at(path)?)
    }

    // The place of the window of a path, where that of another path's is known.
    fn place_beside(&self, path: &[u8], known: &[u8], place: Option<usize>) -> Option<usize>
        requires { place ≡ position (λ w. same_text known.now w.path) self.now.windows }
        ensures { result ≡ position (λ w. same_text path.now w.path) self.now.windows }
    {
        if path == known {
            place
        } else {
            self.place_at(path)
        }
    }

    // The windows by their places. Windows that were made one after the other mostly stand in one, so that is looked up
    // where it is another than the last.
    fn standing(&self) -> Result<Standing, AllocError>
        ensures ids { IfOk result (λ s. s.ids.items ≡ numbers self.now.windows) }
        ensures parents { IfOk result (λ s. s.parents.items ≡ parent_places self.now.windows) }
    {
        let mut ids = Vec::with_capacity(self.alloc, self.len())?;
        let mut parents = Vec::with_capacity(self.alloc, self.len())?;
        let mut path = ROOT;
        let mut place = self.place_at(path);
        for window in self.windows.iter() {
            ids.push(window.id)?;
            match parent_of(window.path.as_bytes()) {
                None => parents.push(None)?,
                Some(parent) => {
                    place = self.place_beside(parent, path, place);
                    path = parent;
                    parents.push(place)?;
                }
            }
        }
        Ok(Standing { ids, parents })
    }

    // The windows of a tree linked by their places. From the last one on, each is put before those that stand where it does.
    fn links(&self, parents: &[Option<usize>]) -> Result<Links, AllocError>
        requires { parents.now ≡ parent_places self.now.windows }
        ensures first { IfOk result (λ l. l.first.items ≡ firsts_from self.now.windows self.now.windows 0) }
        ensures next { IfOk result (λ l. l.next.items ≡ nexts_from self.now.windows 0) }
    {
        let mut first = no_places(self.alloc, parents.len())?;
        let mut next = no_places(self.alloc, parents.len())?;
        let mut left = parents.len();
        while left > 0 {
            left -= 1;
            if let Some(parent) = parents[left] {
                next[left] = first[parent];
                first[parent] = Some(left);
            }
        }
        Ok(Links { first, next })
    }

    // The numbers in preorder, by the links of the windows' places.
    fn walk(&self, ids: &[WindowId], links: &Links) -> Result<Vec<WindowId>, AllocError>
        requires ids { ids.now ≡ numbers self.now.windows }
        requires first { links.now.first.items ≡ firsts_from self.now.windows self.now.windows 0 }
        requires next { links.now.next.items ≡ nexts_from self.now.windows 0 }
        ensures { IfOk result (λ order. order.items ≡ preorder self.now) }
    {
        let mut order = Vec::with_capacity(self.alloc, ids.len())?;
        let mut pending = Vec::new(self.alloc);
        pending.push(0)?;
        while let Some(place) = pending.pop() {
            order.push(ids[place])?;
            push_place(&mut pending, links.next[place])?;
            push_place(&mut pending, links.first[place])?;
        }
        Ok(order)
    }

    /// All windows in preorder: each before those in it, siblings in the order in which they were made.
    pub fn preorder(&self) -> Result<Vec<WindowId>, AllocError>
        ensures { IfOk result (λ ids. ids.items ≡ preorder self.now) }
    {
        let standing = self.standing()?;
        let links = self.links(&standing.parents)?;
        self.walk(&standing.ids, &links)
    }

    /// The next window in preorder, round the end, that the closure accepts, or this one where it accepts no
    /// other. It isn't asked of this one (focus(n), `tk_focusNext`).
    pub fn next_in_focus_order<F: Fn(WindowId) -> bool>(
        &self,
        from: WindowId,
        accepts: F,
    ) -> Result<WindowId, AllocError>
        requires { F.IsAlwaysCallable accepts }
        ensures { IfOk result (λ id. Chooses (F.post accepts) (others_behind (preorder self.now) from) from id) }
    {
        let order = self.preorder()?;
        let others = others_behind(self.alloc, &order, from)?;
        Ok(first_accepted(&others, from, accepts))
    }

    /// The same, the other way round (`tk_focusPrev`).
    pub fn previous_in_focus_order<F: Fn(WindowId) -> bool>(
        &self,
        from: WindowId,
        accepts: F,
    ) -> Result<WindowId, AllocError>
        requires { F.IsAlwaysCallable accepts }
        ensures { IfOk result (λ id. Chooses (F.post accepts) (others_behind (reverse (preorder self.now)) from) from id) }
    {
        let mut order = self.preorder()?;
        order.reverse();
        let others = others_behind(self.alloc, &order, from)?;
        Ok(first_accepted(&others, from, accepts))
    }
}

impl Share for Tree {
    fn share(&self) -> Result<Tree, AllocError> {
        Ok(Tree {
            alloc: self.alloc,
            windows: self.windows.share()?,
            index: self.index.share()?,
            next: self.next,
        })
    }
}

// Adds the numbers at the front of paths in order, up to the first path that isn't within one.
fn push_within(
    ids: &mut Vec<WindowId>,
    path: &[u8],
    others: Iter<'_, WindowId>,
) -> Result<(), AllocError>
    ensures { OnOk result (ids.new.items ≡ ids.old.items ++ front_within path.now others.entry) }
{
    for (other, id) in others {
        if !is_within(path, other) {
            return Ok(());
        }
        ids.push(*id)?;
    }
    Ok(())
}

// No place for each of so many windows.
fn no_places(alloc: Global, count: usize) -> Result<Vec<Option<usize>>, AllocError>
    ensures { IfOk result (λ places. places.items ≡ replicate count None) }
{
    let places = vec![in alloc; None; count]?;
    Ok(places)
}

// Adds a place, if there is one.
fn push_place(places: &mut Vec<usize>, place: Option<usize>) -> Result<(), AllocError>
    ensures { OnOk result (places.new.items ≡ places.old.items ++ listed place) }
{
    if let Some(place) = place {
        places.push(place)?;
    }
    Ok(())
}

// A window as a tree shows it.
fn shown(entry: &Entry) -> Window<'_>
    ensures { window_seen result ≡ entry.now }
{
    Window {
        id: entry.id,
        path: &entry.path,
        class: entry.class,
    }
}
