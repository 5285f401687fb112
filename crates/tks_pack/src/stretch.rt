//! A window on one axis: which edge of the cavity it is packed against, and what it asks for.
ghost use Rattle.std.specs.Prelude.{◌≡◌, ◌<◌, ◌^◌};
ghost use Rattle.tks_pack.specs.Stretch.{horizontal_edge, vertical_edge, fills_horizontally, fills_vertically, horizontal, vertical, lies_along, takes_share, inner, outer};

use crate::area::Extent;
use crate::settings::{Fill, Settings, Side};
use tks_opt::Alignment;

/// The edge of the cavity that a window is packed against, along one axis.
#[derive(Clone, Copy)]
pub enum Edge {
    Start,
    End,
    /// It is packed against a side of the other axis, and so takes the cavity's whole length on this one.
    Neither,
}

/// What a packed window asks for along one axis.
#[derive(Clone, Copy)]
pub struct Stretch {
    pub edge: Edge,
    pub expands: bool,
    pub fills: bool,
    pub alignment: Alignment,
    pub requested: u32,
    pub inner_padding: u16,
    pub padding: u16,
}

fn horizontal_edge(side: Side) -> Edge
    ensures { result ≡ horizontal_edge side }
{
    match side {
        Side::Top | Side::Bottom => Edge::Neither,
        Side::Left => Edge::Start,
        Side::Right => Edge::End,
    }
}

fn vertical_edge(side: Side) -> Edge
    ensures { result ≡ vertical_edge side }
{
    match side {
        Side::Top => Edge::Start,
        Side::Bottom => Edge::End,
        Side::Left | Side::Right => Edge::Neither,
    }
}

fn fills_horizontally(fill: Fill) -> bool
    ensures { result ≡ fills_horizontally fill }
{
    match fill {
        Fill::X | Fill::Both => true,
        Fill::Neither | Fill::Y => false,
    }
}

fn fills_vertically(fill: Fill) -> bool
    ensures { result ≡ fills_vertically fill }
{
    match fill {
        Fill::Y | Fill::Both => true,
        Fill::Neither | Fill::X => false,
    }
}

impl Edge {
    /// Whether what is packed against it lies behind others along the axis.
    pub fn lies_along(self) -> bool
        ensures { result ≡ lies_along self }
    {
        match self {
            Edge::Start | Edge::End => true,
            Edge::Neither => false,
        }
    }
}

impl Stretch {
    /// What a window of this size, packed so, asks for from left to right.
    pub fn horizontal(settings: &Settings, size: Extent) -> Stretch
        ensures { result ≡ horizontal settings.now size }
    {
        Stretch {
            edge: horizontal_edge(settings.side),
            expands: settings.expand,
            fills: fills_horizontally(settings.fill),
            alignment: settings.anchor.horizontal(),
            requested: size.width,
            inner_padding: settings.ipadx.cells(),
            padding: settings.padx.cells(),
        }
    }

    /// What a window of this size, packed so, asks for from top to bottom.
    pub fn vertical(settings: &Settings, size: Extent) -> Stretch
        ensures { result ≡ vertical settings.now size }
    {
        Stretch {
            edge: vertical_edge(settings.side),
            expands: settings.expand,
            fills: fills_vertically(settings.fill),
            alignment: settings.anchor.vertical(),
            requested: size.height,
            inner_padding: settings.ipady.cells(),
            padding: settings.pady.cells(),
        }
    }

    /// Whether it shares what is left over along the axis.
    pub fn takes_share(&self) -> bool
        ensures { result ≡ takes_share self.now }
    {
        if self.edge.lies_along() {
            self.expands
        } else {
            false
        }
    }

    /// The length of the window, as it asks for it.
    pub fn inner(&self) -> u64
        ensures value { result ≡ inner self.now }
        ensures small { result < 2 ^ 33 }
    {
        u64::from(self.requested) + 2 * u64::from(self.inner_padding)
    }

    /// The same with its padding.
    pub fn outer(&self) -> u64
        ensures value { result ≡ outer self.now }
        ensures small { result < 2 ^ 34 }
    {
        self.inner() + 2 * u64::from(self.padding)
    }
}
