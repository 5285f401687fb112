//! A value that several hold.
ghost use Rattle.std.specs.Prelude.{◌≡◌, IfOk};

use crate::copied::Copied;
use crate::share::Share;
use std::alloc::{AllocError, Global};
use std::marker::Model;
use std::rc::Rc;

/// A value that several hold. Contracts see the value alone.
#[derive(Drop)]
pub struct Shared<T> {
    inner: Rc<T>,
}

impl<T> Model for Shared<T> {
    ghost Value = { T };

    ghost view = { λ s. s.inner.value };
}

impl<T: Drop> Shared<T> {
    /// The value, held once.
    pub fn new(alloc: Global, value: T) -> Result<Shared<T>, AllocError>
        ensures { IfOk result (λ s. s ≡ value) }
    {
        match Rc::new(alloc, value) {
            Ok(inner) => Ok(Shared { inner }),
            Err(_) => Err(AllocError),
        }
    }

    /// The value.
    pub fn get(&self) -> &T
        ensures { result.now ≡ self.now }
    {
        self.inner.as_ref()
    }

    /// The same value, held once more. Nothing of it is copied.
    pub fn share(&self) -> Result<Shared<T>, AllocError>
        ensures { IfOk result (λ s. s ≡ self.now) }
    {
        Ok(Shared {
            inner: self.inner.clone()?,
        })
    }
}

impl<T: Drop> Share for Shared<T> {
    fn share(&self) -> Result<Shared<T>, AllocError> {
        Shared::share(self)
    }
}

impl<T: Copied> Shared<T> {
    ghost use Rattle.std.specs.Borrow.{sem};
    ghost use Rattle.tks_share.specs.Lending.{LendsHeld};

    // Makes this the one that holds the value: where others do too, it gets a copy.
    fn part(&mut self, alloc: Global) -> Result<(), AllocError>
        ensures { self.new ≡ self.old }
    {
        if Rc::strong_count(&self.inner) > 1 {
            let copy = self.get().copied(alloc)?;
            *self = Shared::new(alloc, copy)?;
        }
        Ok(())
    }

    /// The value, to be changed. Where others hold it too, it is copied first, and they keep theirs.
    pub fn get_mut(&mut self, alloc: Global) -> Result<&mut T, AllocError>
        ensures* writes_back { sem 𝓛 (LendsHeld T.row self.entry result) }
        ensures value { IfOk result (λ x. x.now ≡ self.old) }
    {
        self.part(alloc)?;
        match Rc::get_mut(&mut self.inner) {
            Some(value) => Ok(value),
            None => Err(AllocError),
        }
    }
}
