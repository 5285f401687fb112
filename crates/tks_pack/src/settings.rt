//! How a window is packed.
ghost use Rattle.std.specs.Prelude.{◌≡◌};
ghost use Rattle.tks_pack.specs.Numbers.{side_number, side_numbered, fill_number, fill_numbered};

use crate::padding::Padding;
use tks_opt::Anchor;

/// The side of the cavity that a window is packed against (pack(n), `-side`).
#[derive(Clone, Copy, Debug)]
pub enum Side {
    Top,
    Bottom,
    Left,
    Right,
}

/// In which directions a window fills its parcel (pack(n), `-fill`).
#[derive(Clone, Copy, Debug)]
pub enum Fill {
    Neither,
    X,
    Y,
    Both,
}

/// How a window is packed (pack(n)): its options' values, the paddings in cells.
#[derive(Clone, Copy, Debug)]
pub struct Settings {
    pub side: Side,
    pub fill: Fill,
    pub expand: bool,
    /// Where the window stands in its parcel.
    pub anchor: Anchor,
    /// Left free on the left and on the right of the window each.
    pub padx: Padding,
    /// Left free above and below the window each.
    pub pady: Padding,
    /// Added to the window's requested size on the left and on the right each.
    pub ipadx: Padding,
    /// Added to the window's requested size above and below each.
    pub ipady: Padding,
}

impl Side {
    /// The number by which bytes tell it.
    pub fn number(self) -> u8
        ensures { result ≡ side_number self }
    {
        match self {
            Side::Top => 0,
            Side::Bottom => 1,
            Side::Left => 2,
            Side::Right => 3,
        }
    }

    /// The side of a number.
    pub fn numbered(number: u8) -> Option<Side>
        ensures { result ≡ side_numbered number }
    {
        match number {
            0 => Some(Side::Top),
            1 => Some(Side::Bottom),
            2 => Some(Side::Left),
            3 => Some(Side::Right),
            _ => None,
        }
    }
}

impl Fill {
    /// The number by which bytes tell it.
    pub fn number(self) -> u8
        ensures { result ≡ fill_number self }
    {
        match self {
            Fill::Neither => 0,
            Fill::X => 1,
            Fill::Y => 2,
            Fill::Both => 3,
        }
    }

    /// The way of filling of a number.
    pub fn numbered(number: u8) -> Option<Fill>
        ensures { result ≡ fill_numbered number }
    {
        match number {
            0 => Some(Fill::Neither),
            1 => Some(Fill::X),
            2 => Some(Fill::Y),
            3 => Some(Fill::Both),
            _ => None,
        }
    }
}

impl Settings {
    ghost use Rattle.tks_pack.specs.Settings.{default_settings};

    /// The values of options that aren't given.
    pub fn new() -> Settings
        ensures { result ≡ default_settings }
    {
        Settings {
            side: Side::Top,
            fill: Fill::Neither,
            expand: false,
            anchor: Anchor::Center,
            padx: Padding::of(0),
            pady: Padding::of(0),
            ipadx: Padding::of(0),
            ipady: Padding::of(0),
        }
    }
}
