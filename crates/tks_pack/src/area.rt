//! Cells of the grid: an area, and an extent.
/// A size in cells.
#[derive(Clone, Copy, Debug)]
pub struct Extent {
    pub width: u32,
    pub height: u32,
}

/// Cells of a container: the top left one, and how many there are to the right and below, itself counted.
#[derive(Clone, Copy, Debug)]
pub struct Area {
    pub x: u32,
    pub y: u32,
    pub width: u32,
    pub height: u32,
}
