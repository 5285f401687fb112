//! What is packed in a container.
ghost use Rattle.std.specs.Prelude.{◌≡◌, ◌++◌, ◌∷◌, [], ◌<◌, ◌≤◌, ◌^◌, length, IfOk, OnOk, OnErr};
ghost use Rattle.tks_pack.specs.Indexes.{index_of};
ghost use Rattle.tks_pack.specs.Meets.{PacksSo};
ghost use Rattle.tks_pack.specs.Packing.{nothing_packed, settings_of, put, packed, forgotten, area, areas, horizontals, verticals, places, requested};

use crate::area::{Area, Extent};
use crate::line::{Reach, Span, spans};
use crate::options::with_options;
use crate::settings::Settings;
use crate::stretch::Stretch;
use std::alloc::{AllocError, Global};
use std::marker::Model;
use tks_share::{Items, Share, SharedList};
use tks_text::{ErrorNumber, Failure, ScriptFault, Txt};
use tks_tree::WindowId;

/// A packed window, and how it is packed.
#[derive(Clone, Copy, Debug)]
pub struct Content {
    pub window: WindowId,
    pub settings: Settings,
}

/// How large windows ask to be.
pub trait Requests {
    ghost use Rattle.std.specs.Prelude.{ℕ};
    ghost use Rattle.tks_pack.specs.declared.area.Extent.{Extent};

    ghost size: { Self → ℕ → Extent };

    /// The size that a window asks for.
    fn requested(&self, window: WindowId) -> Extent
        ensures { result ≡ size self.now window };
}

/// The windows that are packed in a container, in order, and whether the container asks to be as large as they
/// need. Copies share what they have in common.
pub struct Packing {
    alloc: Global,
    contents: SharedList<Content>,
    // No packed window has a greater number, so that one that was made later is known to be new here.
    newest: u64,
    propagates: bool,
}

// Written out, so that to let go of it is one step for whoever owns it.
impl Drop for Packing {
    fn drop(self) {
        let Packing {
            alloc: _,
            contents: _,
            newest: _,
            propagates: _,
        } = self;
    }
}

impl Model for Packing {
    ghost use Rattle.tks_pack.specs.Packing.{Packed};

    ghost Value = { Packed };

    ghost view = { λ p. record { contents = p.contents; propagates = p.propagates } };

    ghost use Rattle.tks_pack.specs.Indexes.{AllUpTo};

    ghost invariant = { λ p. AllUpTo p.newest p.contents };
}

// The index of a window among contents, or their end.
fn index_of(contents: &SharedList<Content>, window: WindowId) -> usize
    ensures { result ≡ index_of window contents.now }
{
    let len = contents.len();
    let mut left = len;
    for content in contents.iter() {
        if content.window == window {
            return len - left;
        }
        left -= 1;
    }
    len
}

// How a window is packed, or would be if no option were given.
fn settings_of(contents: &SharedList<Content>, window: WindowId) -> Settings
    ensures { result ≡ settings_of window contents.now }
{
    for content in contents.iter() {
        if content.window == window {
            return content.settings;
        }
    }
    Settings::new()
}

// A window's cells by its places along the axes.
fn area(horizontal: Option<Span>, vertical: Option<Span>) -> Option<Area>
    ensures { result ≡ area horizontal vertical }
{
    match (horizontal, vertical) {
        (Some(horizontal), Some(vertical)) => Some(Area {
            x: horizontal.start,
            y: vertical.start,
            width: horizontal.length,
            height: vertical.length,
        }),
        _ => None,
    }
}

// The windows' cells by their places along the axes.
fn areas(
    alloc: Global,
    horizontal: &[Option<Span>],
    vertical: &[Option<Span>],
) -> Result<Vec<Option<Area>>, AllocError>
    ensures { IfOk result (λ v. v.items ≡ areas horizontal.now vertical.now) }
{
    let mut areas = Vec::new(alloc);
    let mut down = vertical;
    for across in horizontal {
        let Some((first, behind)) = down.split_first() else {
            return Ok(areas);
        };
        areas.push(area(*across, *first))?;
        down = behind;
    }
    Ok(areas)
}

// What contents ask for, from left to right and from top to bottom.
#[derive(Drop)]
struct Asked {
    across: Vec<Stretch>,
    down: Vec<Stretch>,
}

// What these contents ask for. Each is asked once.
fn asked_by<R: Requests>(
    alloc: Global,
    contents: &SharedList<Content>,
    requests: &R,
) -> Result<Asked, AllocError>
    ensures across { IfOk result (λ s. s.across.items ≡ horizontals (R.size requests.now) contents.now) }
    ensures down { IfOk result (λ s. s.down.items ≡ verticals (R.size requests.now) contents.now) }
{
    let mut across = Vec::with_capacity(alloc, contents.len())?;
    let mut down = Vec::with_capacity(alloc, contents.len())?;
    for content in contents.iter() {
        let size = requests.requested(content.window);
        across.push(Stretch::horizontal(&content.settings, size))?;
        down.push(Stretch::vertical(&content.settings, size))?;
    }
    Ok(Asked { across, down })
}

impl Packing {
    /// Nothing packed, and a container that will ask for what is.
    pub fn new(alloc: Global) -> Packing
        ensures { result ≡ nothing_packed }
    {
        Packing {
            alloc,
            contents: SharedList::new(alloc),
            newest: 0,
            propagates: true,
        }
    }

    /// The packing with these contents, in order, so that one is made again from what it had. One too many is refused as memory
    /// is.
    pub fn restore(
        alloc: Global,
        contents: Vec<Content>,
        propagates: bool,
    ) -> Result<Packing, AllocError>
        ensures { IfOk result (λ p. p ≡ record { contents = contents.items; propagates = propagates }) }
    {
        let mut packing = Packing::new(alloc);
        for content in contents {
            packing.add(content)?;
        }
        packing.propagates = propagates;
        Ok(packing)
    }

    /// The packed windows in order, with their settings.
    pub fn contents(&self) -> Items<'_, Content>
        ensures { result ≡ self.now.contents }
    {
        self.contents.iter()
    }

    /// How many windows are packed.
    pub fn len(&self) -> usize
        ensures value { result ≡ length self.now.contents }
        ensures short { length self.now.contents < 2 ^ 32 }
    {
        self.contents.len()
    }

    /// Whether the container asks to be as large as its contents need (pack(n), `pack propagate`).
    pub fn propagates(&self) -> bool
        ensures { result ≡ self.now.propagates }
    {
        self.propagates
    }

    /// Says whether the container asks to be as large as its contents need.
    pub fn set_propagates(&mut self, propagates: bool)
        ensures { self.new ≡ record self.old { propagates = propagates } }
    {
        self.propagates = propagates;
    }

    // How a window is packed, or would be if no option were given.
    #[tactic(auto, using(crate::proofs::Contents::settings_new))]
    fn settings_of(&self, window: WindowId) -> Settings
        ensures { result ≡ settings_of window self.now.contents }
    {
        if self.newest < window.number() {
            return Settings::new();
        }
        settings_of(&self.contents, window)
    }

    // The index of a window among contents, or their end.
    #[tactic(auto, using(crate::proofs::Contents::index_new))]
    fn index_of(&self, window: WindowId) -> usize
        ensures { result ≡ index_of window self.now.contents }
    {
        if self.newest < window.number() {
            return self.contents.len();
        }
        index_of(&self.contents, window)
    }

    // Adds a content behind the others.
    fn add(&mut self, content: Content) -> Result<(), AllocError>
        ensures ok { OnOk result (self.new ≡ record self.old { contents = self.old.contents ++ content ∷ [] }) }
        ensures err { OnErr result (self.new ≡ self.old) }
    {
        if self.newest < content.window.number() {
            self.newest = content.window.number();
        }
        self.contents.push(content)
    }

    // Puts a content in the place of the window's present one, or behind all where it has none.
    #[tactic(auto, using(crate::proofs::Contents::put_there, crate::proofs::Contents::put_last))]
    fn put(&mut self, content: Content) -> Result<(), AllocError>
        ensures ok { OnOk result (self.new ≡ record self.old { contents = put content.window content.settings self.old.contents }) }
        ensures err { OnErr result (self.new ≡ self.old) }
    {
        let index = self.index_of(content.window);
        if index < self.contents.len() {
            self.contents.set(index, content)?;
        } else {
            self.add(content)?;
        }
        Ok(())
    }

    /// Packs a window (pack(n), `pack configure`) with options and values in turn: a new one goes last, one that
    /// is packed keeps its place, and the settings that no option names.
    ///
    /// # Errors
    ///
    /// `.` is never packed (E33, this project's own rule); an option that is unknown (E34) or has a bad value
    /// (E35), the first from left to right. A last option without a value has a bad one.
    pub fn pack(&mut self, window: WindowId, options: &[Txt]) -> Result<(), Failure>
        ensures { PacksSo result self.old self.new (packed window options.now self.old) }
    {
        if window.is_root() {
            return Err(Failure::Script(ScriptFault {
                number: ErrorNumber::NotAllowedOnRoot,
                subject: None,
            }));
        }
        let settings = with_options(self.alloc, self.settings_of(window), options)?;
        self.put(Content { window, settings })?;
        Ok(())
    }

    /// Takes a window out, if it is packed (pack(n), `pack forget`).
    #[tactic(auto, using(crate::proofs::Contents::taken_there, crate::proofs::Contents::none_taken))]
    pub fn forget(&mut self, window: WindowId) -> Result<(), AllocError>
        ensures ok { OnOk result (self.new ≡ forgotten window self.old) }
        ensures err { OnErr result (self.new ≡ self.old) }
    {
        let index = self.index_of(window);
        if index < self.contents.len() {
            self.contents.remove(index)?;
        }
        Ok(())
    }

    /// How large the container asks to be, where its contents decide that: none where there are none, or they
    /// don't (pack(n), "Geometry propagation"). No more than 2^32 - 1 cells are told of.
    pub fn requested<R: Requests>(&self, requests: &R) -> Option<Extent>
        ensures { result ≡ requested (R.size requests.now) self.now.propagates self.now.contents }
    {
        if !self.propagates || self.contents.len() == 0 {
            return None;
        }
        let mut across = Reach::new();
        let mut down = Reach::new();
        for content in self.contents.iter() {
            let size = requests.requested(content.window);
            across = across.past(&Stretch::horizontal(&content.settings, size));
            down = down.past(&Stretch::vertical(&content.settings, size));
        }
        Some(Extent {
            width: across.length(),
            height: down.length(),
        })
    }

    /// The cells that each window gets in a container of this size, in the order of the contents (pack(n), "The
    /// packer algorithm"); none for a window that isn't mapped, since it would have no cell.
    pub fn place<R: Requests>(
        &self,
        requests: &R,
        container: Extent,
    ) -> Result<Vec<Option<Area>>, AllocError>
        ensures { IfOk result (λ v. v.items ≡ places (R.size requests.now) container self.now.contents) }
    {
        let asked = asked_by(self.alloc, &self.contents, requests)?;
        let across = spans(self.alloc, &asked.across, container.width)?;
        let down = spans(self.alloc, &asked.down, container.height)?;
        let areas = areas(self.alloc, &across, &down)?;
        Ok(areas)
    }
}

impl Share for Packing {
    fn share(&self) -> Result<Packing, AllocError> {
        Ok(Packing {
            alloc: self.alloc,
            contents: self.contents.share()?,
            newest: self.newest,
            propagates: self.propagates,
        })
    }
}
