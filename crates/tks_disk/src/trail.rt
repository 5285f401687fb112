//! What was, for proofs alone.
ghost use Rattle.std.specs.Prelude.{◌≡◌, [], ◌∷◌};

use std::marker::Model;
use std::snapshot::Snapshot;

/// A list that only contracts and proofs read, the newest item first. It takes no memory however long it grows, so a
/// disk can count its failures and its moments without end.
#[cycle(trail)]
#[derive(Drop)]
pub struct Trail<T> {
    end: End<T>,
}

#[cycle(trail)]
#[derive(Drop)]
enum End<T> {
    Nothing,
    Newest(Snapshot<T>, Snapshot<Trail<T>>),
}

impl<T> Model for Trail<T> {
    ghost use Rattle.std.specs.Prelude.{List, length};

    ghost Value = { List T };

    ghost use Rattle.tks_disk.specs.Trail.{items};

    ghost view = { λ t. items t.end };

    ghost size = { length };

    ghost use Rattle.std.proofs.Common.{arith};

    ghost size_decreases = { λ a h. Prim.grind arith };
}

impl<T> Trail<T> {
    /// The empty list.
    pub fn new() -> Trail<T>
        ensures { result ≡ [] }
    {
        Trail { end: End::Nothing }
    }

    /// The list with this item too.
    pub fn and(&self, newest: &T) -> Trail<T>
        ensures { result ≡ newest.now ∷ self.now }
    {
        Trail {
            end: End::Newest(Snapshot::of(newest), Snapshot::of(self)),
        }
    }
}
