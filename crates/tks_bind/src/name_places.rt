//! The places of virtual events, each found by its name without a walk.
ghost use Rattle.std.specs.Prelude.{ℕ, ◌≡◌, ◌<◌, true, nat_lt, List, [], ◌∷◌, ◌++◌, length, IfOk};
ghost use Rattle.std.specs.List.{list_all, remove};
ghost use Rattle.tks_bind.specs.declared.virtual_event.VirtualEvent.{VirtualEvent};
ghost use Rattle.tks_bind.specs.VirtualIndexes.{index_of, or_end, ArePlaced};
ghost use Rattle.tks_bind.specs.WellFormed.{are_virtuals};

use crate::places::Places;
use std::alloc::{AllocError, Global};
use tks_share::SharedMap;
use tks_text::Txt;

/// The numbers of virtual events by their names, and the places of the numbers. Copies share what they have in common.
#[derive(Drop)]
pub struct NamePlaces {
    pub(crate) numbers: SharedMap<u64>,
    pub(crate) places: Places,
    /// The number of the next one.
    pub(crate) next: u64,
}

impl NamePlaces {
    /// Those of no virtual event.
    pub fn new(alloc: Global) -> NamePlaces
        ensures { ArePlaced [] result }
    {
        NamePlaces {
            numbers: SharedMap::new(alloc),
            places: Places::new(alloc),
            next: 0,
        }
    }

    /// The same, held once more.
    pub fn share(&self) -> Result<NamePlaces, AllocError>
        ensures { IfOk result (λ names. names ≡ self.now) }
    {
        Ok(NamePlaces {
            numbers: self.numbers.share()?,
            places: self.places.share()?,
            next: self.next,
        })
    }

    /// The place of the virtual event of a name.
    pub fn place_of(&self, name: &Txt) -> Option<usize>
        ensures { (vs : List VirtualEvent) → ArePlaced vs self.now → or_end result (length vs) ≡ index_of name.now vs }
    {
        match self.numbers.get(name.as_bytes()) {
            Some(number) => self.places.place_of(*number),
            None => None,
        }
    }

    /// With those of one more, of a name that none has so far. One too many is refused as memory is.
    pub fn with(&self, name: &Txt) -> Result<NamePlaces, AllocError>
        requires { list_all (λ n. nat_lt n self.now.next) self.now.places ≡ true }
        ensures { IfOk result (λ made. (vs : List VirtualEvent) (v : VirtualEvent) → ArePlaced vs self.now → index_of name.now vs ≡ length vs → v.name ≡ name.now → ArePlaced (vs ++ v ∷ []) made) }
    {
        let number = self.next;
        let Some(next) = number.checked_add(1) else {
            return Err(AllocError);
        };
        let mut numbers = self.numbers.share()?;
        numbers.insert(name.as_bytes(), number)?;
        let mut places = self.places.share()?;
        places.push(number)?;
        Ok(NamePlaces {
            numbers,
            places,
            next,
        })
    }

    /// Without those of the virtual event of a name, which is at this index.
    pub fn without(&self, index: usize, name: &Txt) -> Result<NamePlaces, AllocError>
        requires { index < length self.now.places }
        ensures { IfOk result (λ made. (vs : List VirtualEvent) → ArePlaced vs self.now → are_virtuals vs ≡ true → index ≡ index_of name.now vs → ArePlaced (remove vs index) made) }
    {
        let mut numbers = self.numbers.share()?;
        numbers.remove(name.as_bytes())?;
        let mut places = self.places.share()?;
        places.remove(index)?;
        Ok(NamePlaces {
            numbers,
            places,
            next: self.next,
        })
    }
}
