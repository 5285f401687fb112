//! Where windows lie along one axis, and what a container asks for along it.
ghost use Rattle.std.specs.Prelude.{◌≡◌, ℕ, ◌<◌, ◌≤◌, ◌+◌, ◌-◌, ◌^◌, max, IfOk, min};
ghost use Rattle.tks_pack.specs.Stretch.{outer};
ghost use Rattle.tks_pack.specs.Packer.{parcel_at, behind, shown_length, within, spans, request_before, request};
ghost use Rattle.tks_pack.specs.Packing.{capped};

use crate::share::Shares;
use crate::stretch::{Edge, Stretch};
use std::alloc::{AllocError, Global};

/// Cells along one axis: the first, and how many there are.
#[derive(Clone, Copy)]
pub struct Span {
    pub start: u32,
    pub length: u32,
}

// The length of the parcel of a content that lies along the axis.
fn parcel_length(length: u32, first: &Stretch, share: u64) -> u32
    requires { share < 2 ^ 32 }
    ensures value { result ≡ min length (outer first.now + share) }
    ensures small { result ≤ length }
{
    u64::from(length).min(first.outer() + share) as u32
}

impl Span {
    // The parcel of this length at the edge of the cavity.
    fn parcel(self, edge: Edge, length: u32) -> Span
        requires inside { length ≤ self.length }
        requires fits { self.start + self.length < 2 ^ 32 }
        ensures value { result ≡ parcel_at edge length self }
        ensures fits { result.start + result.length < 2 ^ 32 }
    {
        match edge {
            Edge::Start => Span {
                start: self.start,
                length,
            },
            Edge::End => Span {
                start: self.start + (self.length - length),
                length,
            },
            Edge::Neither => self,
        }
    }

    // The cavity without a parcel of this length at its edge.
    fn behind(self, edge: Edge, length: u32) -> Span
        requires inside { length ≤ self.length }
        requires fits { self.start + self.length < 2 ^ 32 }
        ensures value { result ≡ behind edge length self }
        ensures fits { result.start + result.length < 2 ^ 32 }
    {
        match edge {
            Edge::Start => Span {
                start: self.start + length,
                length: self.length - length,
            },
            Edge::End => Span {
                start: self.start,
                length: self.length - length,
            },
            Edge::Neither => self,
        }
    }
}

// The length of a window in so much room.
fn shown_length(stretch: &Stretch, room: u32) -> u32
    ensures value { result ≡ shown_length stretch.now room }
    ensures small { result ≤ room }
{
    if stretch.fills {
        room
    } else {
        stretch.inner().min(u64::from(room)) as u32
    }
}

// The place of a window in its parcel.
fn within(stretch: &Stretch, parcel: Span) -> Option<Span>
    requires { parcel.start + parcel.length < 2 ^ 32 }
    ensures { result ≡ within stretch.now parcel }
{
    let padding = u32::from(stretch.padding);
    let room = parcel.length.saturating_sub(2 * padding);
    let length = shown_length(stretch, room);
    if length == 0 {
        None
    } else {
        let gap = stretch.alignment.gap((room - length) as usize) as u32;
        Some(Span {
            start: parcel.start + padding + gap,
            length,
        })
    }
}

/// The places of windows along one axis of a container of this length; none for one that has no cell there.
pub fn spans(
    alloc: Global,
    stretches: &[Stretch],
    length: u32,
) -> Result<Vec<Option<Span>>, AllocError>
    ensures { IfOk result (λ v. v.items ≡ spans (record { start = 0; length = length }) stretches.now) }
{
    let mut spans = Vec::with_capacity(alloc, stretches.len())?;
    let mut cavity = Span { start: 0, length };
    let mut shares = Shares::new(alloc, stretches)?;
    for (index, stretch) in stretches.iter().enumerate() {
        let share = shares.next(stretches, index, cavity.length);
        let taken = parcel_length(cavity.length, stretch, share);
        spans.push(within(stretch, cavity.parcel(stretch.edge, taken)))?;
        cavity = cavity.behind(stretch.edge, taken);
    }
    Ok(spans)
}

/// What contents ask for along one axis, from the first on.
#[derive(Clone, Copy)]
pub struct Reach {
    // What those that lie along the axis ask for.
    along: u32,
    // The most that one of the others asks for, with those before it.
    beside: u32,
}

impl Reach {
    /// That of no contents.
    pub fn new() -> Reach
        ensures { result ≡ record { along = 0; beside = 0 } }
    {
        Reach {
            along: 0,
            beside: 0,
        }
    }

    /// What is asked for with one content more.
    pub fn past(self, stretch: &Stretch) -> Reach
        ensures { (n : ℕ) → capped (max result.beside (result.along + n)) ≡ capped (max self.beside (self.along + request_before stretch.now n)) }
    {
        let reached = (u64::from(self.along) + stretch.outer()).min(u64::from(u32::MAX)) as u32;
        if stretch.edge.lies_along() {
            Reach {
                along: reached,
                beside: self.beside,
            }
        } else {
            Reach {
                along: self.along,
                beside: self.beside.max(reached),
            }
        }
    }

    /// The length that is asked for.
    pub fn length(self) -> u32
        ensures { result ≡ capped (max self.beside (self.along + 0)) }
    {
        self.along.max(self.beside)
    }
}
