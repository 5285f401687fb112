//! Bytes that several hold.
ghost use Rattle.std.specs.Prelude.{◌≡◌, ◌++◌, [], ◌∷◌, length, IfOk, OnOk, OnErr};
ghost use Rattle.tks_text.specs.Bytes.{bytes_in};
ghost use Rattle.tks_text.specs.Short.{IsShort};

use crate::list::MAX_LEN;
use arrayvec::ArrayVec;
use std::alloc::{AllocError, Global};
use std::marker::Model;
use std::rc::Rc;

/// So many bytes lie where their count of holders does, and more of them in a vector.
const FEW: usize = 24;

// Where bytes lie.
#[derive(Debug, Drop)]
enum Place {
    Few(ArrayVec<u8, FEW>),
    Many(Vec<u8>),
}

/// Fewer than 2^32 bytes in one place. What would be more is refused as memory is.
#[derive(Debug, Drop)]
pub(crate) struct Held {
    place: Place,
}

impl Model for Held {
    ghost use Rattle.std.specs.Prelude.{List, ℕ};
    ghost use Rattle.tks_text.specs.Bytes.{bytes_in};
    ghost use Rattle.tks_text.specs.Short.{IsShort};

    ghost Value = { List ℕ };

    ghost view = { λ h. bytes_in h.place };

    ghost invariant = { λ h. IsShort (bytes_in h.place) };
}

impl Held {
    /// No bytes.
    pub(crate) fn new() -> Held
        ensures { result ≡ [] }
    {
        Held {
            place: Place::Few(ArrayVec::new()),
        }
    }

    // These bytes.
    fn of(alloc: Global, bytes: &[u8]) -> Result<Held, AllocError>
        ensures value { IfOk result (λ held. held ≡ bytes.now) }
        ensures short { OnOk result (IsShort bytes.now) }
    {
        if bytes.len() > MAX_LEN {
            return Err(AllocError);
        }
        let mut few = ArrayVec::new();
        let place = match few.try_extend_from_slice(bytes) {
            Ok(()) => Place::Few(few),
            Err(_) => Place::Many(Vec::from_slice(alloc, bytes)?),
        };
        Ok(Held { place })
    }

    /// The bytes.
    pub(crate) fn as_slice(&self) -> &[u8]
        ensures value { result.now ≡ self.now }
        ensures short { IsShort self.now }
    {
        match &self.place {
            Place::Few(few) => few.as_slice(),
            Place::Many(many) => many.as_slice(),
        }
    }

    /// Adds bytes at the end.
    pub(crate) fn append(&mut self, alloc: Global, more: &[u8]) -> Result<(), AllocError>
        ensures ok { OnOk result (self.new ≡ self.old ++ more.now) }
        ensures short { OnOk result (IsShort self.new) }
        ensures err { OnErr result (self.new ≡ self.old) }
    {
        match &mut self.place {
            Place::Many(many) => {
                if more.len() > MAX_LEN - many.len() {
                    return Err(AllocError);
                }
                many.extend_from_slice(more)
            }
            Place::Few(few) => match few.try_extend_from_slice(more) {
                Ok(()) => Ok(()),
                Err(_) => self.move_and_append(alloc, more),
            },
        }
    }

    /// Adds a byte at the end.
    pub(crate) fn push(&mut self, alloc: Global, byte: u8) -> Result<(), AllocError>
        ensures ok { OnOk result (self.new ≡ self.old ++ byte ∷ []) }
        ensures short { OnOk result (IsShort self.new) }
        ensures err { OnErr result (self.new ≡ self.old) }
    {
        match &mut self.place {
            Place::Many(many) => {
                if many.len() >= MAX_LEN {
                    return Err(AllocError);
                }
                many.push(byte)?;
                Ok(())
            }
            Place::Few(few) => match few.try_push(byte) {
                Ok(()) => Ok(()),
                Err(_) => self.move_and_append(alloc, &[byte]),
            },
        }
    }

    // Moves the bytes into a vector and adds more at the end.
    fn move_and_append(&mut self, alloc: Global, more: &[u8]) -> Result<(), AllocError>
        ensures ok { OnOk result (self.new ≡ self.old ++ more.now) }
        ensures short { OnOk result (IsShort self.new) }
        ensures err { OnErr result (self.new ≡ self.old) }
    {
        self.place = Place::Many(joined(alloc, self.as_slice(), more)?);
        Ok(())
    }
}

// Bytes and more behind them, with room for as many again.
fn joined(alloc: Global, bytes: &[u8], more: &[u8]) -> Result<Vec<u8>, AllocError>
    requires { IsShort bytes.now }
    ensures value { IfOk result (λ all. all.items ≡ bytes.now ++ more.now) }
    ensures short { IfOk result (λ all. IsShort all.items) }
{
    if more.len() > MAX_LEN - bytes.len() {
        return Err(AllocError);
    }
    let mut all = Vec::with_capacity(alloc, 2 * (bytes.len() + more.len()))?;
    all.extend_from_slice(bytes)?;
    all.extend_from_slice(more)?;
    Ok(all)
}

impl Clone for Held {
    ghost use Rattle.std.specs.Prelude.{◌≡◌};

    ghost is_clone = { λ held copy. copy ≡ held };

    fn clone(&self) -> Result<Held, AllocError> {
        let place = match &self.place {
            Place::Few(few) => {
                let mut copy = ArrayVec::new();
                match copy.try_extend_from_slice(few.as_slice()) {
                    Ok(()) => Place::Few(copy),
                    Err(_) => return Err(AllocError),
                }
            }
            Place::Many(many) => Place::Many(many.clone()?),
        };
        Ok(Held { place })
    }
}

/// Fewer than 2^32 bytes that several may hold. A change copies them first where others hold them too. Contracts see them
/// as a list.
#[derive(Debug)]
pub(crate) struct Bytes {
    alloc: Global,
    // None where there are none yet.
    held: Option<Rc<Held>>,
}

// Written out, so that to let go of it is one step for whoever owns it.
impl Drop for Bytes {
    fn drop(self) {
        let Bytes { alloc: _, held: _ } = self;
    }
}

impl Model for Bytes {
    ghost use Rattle.std.specs.Prelude.{List, ℕ};
    ghost use Rattle.tks_text.specs.Bytes.{bytes_held};

    ghost Value = { List ℕ };

    ghost view = { λ b. bytes_held b.held };
}

impl Bytes {
    /// No bytes.
    pub(crate) fn new(alloc: Global) -> Bytes
        ensures { result ≡ [] }
    {
        Bytes { alloc, held: None }
    }

    /// These bytes.
    pub(crate) fn of(alloc: Global, bytes: &[u8]) -> Result<Bytes, AllocError>
        ensures value { IfOk result (λ b. b ≡ bytes.now) }
        ensures short { OnOk result (IsShort bytes.now) }
    {
        Bytes::of_held(alloc, Held::of(alloc, bytes)?)
    }

    /// The bytes that lie in a place.
    pub(crate) fn of_held(alloc: Global, held: Held) -> Result<Bytes, AllocError>
        ensures { IfOk result (λ b. b ≡ held) }
    {
        if held.as_slice().is_empty() {
            return Ok(Bytes::new(alloc));
        }
        match Rc::new(alloc, held) {
            Ok(held) => Ok(Bytes {
                alloc,
                held: Some(held),
            }),
            Err(_) => Err(AllocError),
        }
    }

    /// The bytes.
    pub(crate) fn as_slice(&self) -> &[u8]
        ensures { result.now ≡ self.now }
    {
        match &self.held {
            None => &[],
            Some(held) => held.as_ref().as_slice(),
        }
    }

    /// How many there are.
    pub(crate) fn len(&self) -> usize
        ensures { result ≡ length self.now }
    {
        self.as_slice().len()
    }

    /// The same bytes, held once more.
    pub(crate) fn share(&self) -> Result<Bytes, AllocError>
        ensures { IfOk result (λ b. b ≡ self.now) }
    {
        let held = match &self.held {
            None => None,
            Some(held) => Some(held.clone()?),
        };
        Ok(Bytes {
            alloc: self.alloc,
            held,
        })
    }

    /// Adds a byte at the end.
    pub(crate) fn push(&mut self, byte: u8) -> Result<(), AllocError>
        ensures ok { OnOk result (self.new ≡ self.old ++ byte ∷ []) }
        ensures short { OnOk result (IsShort self.new) }
        ensures err { OnErr result (self.new ≡ self.old) }
    {
        match &mut self.held {
            None => {
                *self = Bytes::of(self.alloc, &[byte])?;
                Ok(())
            }
            Some(held) => Rc::make_mut(held)?.push(self.alloc, byte),
        }
    }

    /// Adds bytes at the end.
    pub(crate) fn append(&mut self, more: &[u8]) -> Result<(), AllocError>
        ensures ok { OnOk result (self.new ≡ self.old ++ more.now) }
        ensures short { OnOk result (IsShort self.new) }
        ensures err { OnErr result (self.new ≡ self.old) }
    {
        match &mut self.held {
            None => {
                *self = Bytes::of(self.alloc, more)?;
                Ok(())
            }
            Some(held) => Rc::make_mut(held)?.append(self.alloc, more),
        }
    }
}
