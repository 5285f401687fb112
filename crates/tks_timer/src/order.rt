//! The order in which timers are due.
ghost use Rattle.std.specs.Prelude.{◌≡◌, ◌≤◌, ℕ, [], length, List, IfOk, OnOk, OnErr};
ghost use Rattle.tks_timer.specs.After.{is_sooner};
ghost use Rattle.tks_timer.specs.Order.{due_front, put, place, in_turn};

use crate::entry::Timer;
use std::alloc::{AllocError, Global};
use std::marker::Model;
use tks_share::SharedList;

/// When a timer is due, and its id.
pub(crate) type Turn = (u64, u64);

/// The turns of timers, the soonest first. Copies share what they have in common.
#[derive(Drop)]
pub(crate) struct Order {
    turns: SharedList<Turn>,
}

impl Model for Order {
    ghost use Rattle.std.specs.Prelude.{List, ℕ};

    ghost Value = { List (ℕ × ℕ) };

    ghost view = { λ o. o.turns };

    ghost use Rattle.tks_timer.specs.Order.{AreInTurn};

    ghost invariant = { λ o. AreInTurn o.turns };
}

impl Order {
    /// None.
    pub(crate) fn new(alloc: Global) -> Order
        ensures { result ≡ [] }
    {
        Order {
            turns: SharedList::new(alloc),
        }
    }

    /// That of these timers.
    pub(crate) fn of(alloc: Global, timers: &SharedList<Timer>) -> Result<Order, AllocError>
        ensures { IfOk result (λ order. order ≡ in_turn timers.now) }
    {
        let mut order = Order::new(alloc);
        for timer in timers.iter() {
            order.put((timer.due, timer.id))?;
        }
        Ok(order)
    }

    /// The same, held once more.
    pub(crate) fn share(&self) -> Result<Order, AllocError>
        ensures { IfOk result (λ order. order ≡ self.now) }
    {
        Ok(Order {
            turns: self.turns.share()?,
        })
    }

    /// The id of the soonest, if it is due at a time.
    pub(crate) fn due(&self, now: u64) -> Option<u64>
        ensures { result ≡ due_front now self.now }
    {
        match self.turns.get(0) {
            Some(turn) if turn.0 <= now => Some(turn.1),
            _ => None,
        }
    }

    // How many are sooner.
    fn place(&self, turn: Turn) -> usize
        ensures value { result ≡ place turn self.now }
        ensures within { result ≤ length self.now }
    {
        self.turns.partition_point(
            |other: &Turn| -> bool
                ensures { result ≡ is_sooner other.now turn }
            { is_sooner(*other, turn) },
        )
    }

    /// A turn comes in.
    pub(crate) fn put(&mut self, turn: Turn) -> Result<(), AllocError>
        ensures ok { OnOk result (self.new ≡ put turn self.old) }
        ensures err { OnErr result (self.new ≡ self.old) }
    {
        let place = self.place(turn);
        self.turns.insert(place, turn)?;
        Ok(())
    }

    /// A turn goes out that came in.
    pub(crate) fn take(&mut self, turn: Turn) -> Result<(), AllocError>
        ensures ok { OnOk result ((rest : List (ℕ × ℕ)) → self.old ≡ put turn rest → self.new ≡ rest) }
        ensures err { OnErr result (self.new ≡ self.old) }
    {
        let place = self.place(turn);
        if place < self.turns.len() {
            self.turns.remove(place)?;
        }
        Ok(())
    }
}

// Whether the first is due sooner, or together with the second and of a lesser id.
fn is_sooner(a: Turn, b: Turn) -> bool
    ensures { result ≡ is_sooner a b }
{
    a.0 < b.0 || (a.0 == b.0 && a.1 < b.1)
}
