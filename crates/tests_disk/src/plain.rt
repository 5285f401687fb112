//! What a disk is to hold, as a plain program tells it: byte by byte, each with whether it was written since the last sync.

use std::alloc::{AllocError, Global};
use tks_disk::{Left, Side};

#[derive(Clone, Copy)]
struct Place {
    byte: u8,
    written: bool,
}

#[derive(Drop)]
struct PlainSide {
    places: Vec<Place>,
    synced: Vec<u8>,
}

impl PlainSide {
    fn new(alloc: Global) -> PlainSide {
        PlainSide {
            places: Vec::new(alloc),
            synced: Vec::new(alloc),
        }
    }

    fn write(&mut self, at: usize, bytes: &[u8]) -> Result<(), AllocError> {
        for _ in self.places.len()..at.saturating_add(bytes.len()) {
            self.places.push(Place {
                byte: 0,
                written: false,
            })?;
        }
        for (place, byte) in self.places.iter_mut().skip(at).zip(bytes) {
            *place = Place {
                byte: *byte,
                written: true,
            };
        }
        Ok(())
    }

    fn sync(&mut self, alloc: Global) -> Result<(), AllocError> {
        let synced = self.left(alloc, Left::New)?;
        for place in &mut self.places {
            place.written = false;
        }
        self.synced = synced;
        Ok(())
    }

    fn left(&self, alloc: Global, left: Left) -> Result<Vec<u8>, AllocError> {
        let mut bytes = Vec::new(alloc);
        match left {
            Left::Old => bytes.extend_from_slice(&self.synced)?,
            Left::New => {
                for place in &self.places {
                    bytes.push(place.byte)?;
                }
            }
            Left::Fill(byte) => {
                for place in &self.places {
                    bytes.push(if place.written { byte } else { place.byte })?;
                }
            }
        }
        Ok(bytes)
    }
}

/// Two sides.
#[derive(Drop)]
pub struct Plain {
    a: PlainSide,
    b: PlainSide,
}

impl Plain {
    /// Two empty sides.
    pub fn new(alloc: Global) -> Plain {
        Plain {
            a: PlainSide::new(alloc),
            b: PlainSide::new(alloc),
        }
    }

    pub fn write(&mut self, side: Side, at: usize, bytes: &[u8]) -> Result<(), AllocError> {
        match side {
            Side::A => self.a.write(at, bytes),
            Side::B => self.b.write(at, bytes),
        }
    }

    pub fn sync(&mut self, alloc: Global, side: Side) -> Result<(), AllocError> {
        match side {
            Side::A => self.a.sync(alloc),
            Side::B => self.b.sync(alloc),
        }
    }

    /// What a crash leaves of a side where this is asked for; `Left::New` is what the side reads as.
    pub fn left(&self, alloc: Global, side: Side, left: Left) -> Result<Vec<u8>, AllocError> {
        match side {
            Side::A => self.a.left(alloc, left),
            Side::B => self.b.left(alloc, left),
        }
    }
}
