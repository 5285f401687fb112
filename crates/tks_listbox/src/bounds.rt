//! Between which places a listbox's selected items stand.
ghost use Rattle.std.specs.Prelude.{◌≡◌, ◌<◌, ◌^◌};
ghost use Rattle.tks_listbox.specs.Bounds.{Encloses, nowhere, come_in, go_out, with_range, without_range, turned_range};

use crate::item::Item;
use tks_share::SharedList;

/// Places between which all selected items stand: from the first on, and before the second. A selection is looked for only there.
#[derive(Clone, Copy)]
pub(crate) struct Bounds {
    pub front: usize,
    pub behind: usize,
}

impl Bounds {
    /// Those of no selected item.
    pub fn nowhere() -> Bounds
        ensures { result ≡ nowhere }
    {
        Bounds {
            front: 0,
            behind: 0,
        }
    }

    /// Those of the selected ones among these items.
    pub fn around(items: &SharedList<Item>) -> Bounds
        ensures { Encloses result items.now }
    {
        let mut bounds = Bounds::nowhere();
        for place in 0..items.len() {
            let Some(item) = items.get(place) else {
                unreachable!()
            };
            if item.is_selected {
                bounds = bounds.with_range(place, place + 1);
            }
        }
        bounds
    }

    /// The same where so many items that aren't selected come in at a place.
    pub fn come_in(self, place: usize, count: usize) -> Bounds
        requires { (self.front < 2 ^ 63) × (self.behind < 2 ^ 63) × (count < 2 ^ 63) }
        ensures { result ≡ come_in place count self }
    {
        if self.behind <= place {
            return self;
        }
        let front = if place <= self.front {
            self.front + count
        } else {
            self.front
        };
        Bounds {
            front,
            behind: self.behind + count,
        }
    }

    /// The same where the items from one place up to another go out.
    pub fn go_out(self, front: usize, behind: usize) -> Bounds
        ensures { result ≡ go_out front behind self }
    {
        Bounds {
            front: self.front - self.front.min(behind).saturating_sub(front),
            behind: self.behind - self.behind.min(behind).saturating_sub(front),
        }
    }

    // The same where the items from one place up to another are selected.
    fn with_range(self, front: usize, behind: usize) -> Bounds
        ensures { result ≡ with_range front behind self }
    {
        if behind <= front {
            self
        } else if self.behind <= self.front {
            Bounds { front, behind }
        } else {
            Bounds {
                front: self.front.min(front),
                behind: self.behind.max(behind),
            }
        }
    }

    // The same where they are taken out of the selection.
    fn without_range(self, front: usize, behind: usize) -> Bounds
        ensures { result ≡ without_range front behind self }
    {
        if behind < self.behind {
            let left = if front <= self.front {
                self.front.max(behind)
            } else {
                self.front
            };
            Bounds {
                front: left,
                behind: self.behind,
            }
        } else if self.front < front {
            Bounds {
                front: self.front,
                behind: self.behind.min(front),
            }
        } else {
            Bounds::nowhere()
        }
    }

    /// The same where the items from one place up to another are selected, or taken out of the selection.
    pub fn turned_range(self, on: bool, front: usize, behind: usize) -> Bounds
        ensures { result ≡ turned_range on front behind self }
    {
        if on {
            self.with_range(front, behind)
        } else {
            self.without_range(front, behind)
        }
    }
}
