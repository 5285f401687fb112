//! The size of the grid.
ghost use Rattle.std.specs.Prelude.{◌≡◌, ◌↔◌, IsSome, IfSome};
ghost use Rattle.tks_text.specs.Size.{IsGridSize};

use std::marker::Model;

/// The size of the character grid, in cells: 1 to 200 wide and 1 to 100 high.
#[derive(Clone, Copy, Debug)]
pub struct Size {
    width: u16,
    height: u16,
}

impl Model for Size {
    ghost use Rattle.tks_text.specs.Size.{Extent, IsGridSize};

    ghost Value = { Extent };

    ghost view = { λ s. record { width = s.width; height = s.height } };

    ghost invariant = { λ s. IsGridSize s.width s.height };

    ghost inverse = { λ e. record { width = e.width; height = e.height } };
}

impl Size {
    /// The grid's greatest width.
    pub const MAX_WIDTH: u16 = 200;

    /// The grid's greatest height.
    pub const MAX_HEIGHT: u16 = 100;

    /// This width and height, where a grid may have them.
    pub fn new(width: u16, height: u16) -> Option<Size>
        ensures range { IsSome result ↔ IsGridSize width height }
        ensures value { IfSome result (λ s. s ≡ record { width = width; height = height }) }
    {
        if 1 <= width && width <= Size::MAX_WIDTH && 1 <= height && height <= Size::MAX_HEIGHT {
            Some(Size { width, height })
        } else {
            None
        }
    }

    /// How many cells a row has.
    pub fn width(self) -> u16
        ensures value { result ≡ self.width }
        ensures range { IsGridSize self.width self.height }
    {
        self.width
    }

    /// How many rows there are.
    pub fn height(self) -> u16
        ensures { result ≡ self.height }
    {
        self.height
    }
}
