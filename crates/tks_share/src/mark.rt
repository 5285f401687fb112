//! What a value was, to go back to.
ghost use Rattle.std.specs.Prelude.{◌≡◌, IfOk};

use crate::share::Share;
use std::alloc::AllocError;
use std::marker::Model;

/// What a value was when it was marked. The two share all that hasn't changed since; what is changed is copied first, so that
/// nothing can touch what a mark holds.
#[derive(Drop)]
pub struct Mark<T> {
    was: T,
}

impl<T> Model for Mark<T> {
    ghost Value = { T };

    ghost view = { λ m. m.was };
}

/// What can be marked, and go back to what it was.
pub trait Marked: Drop {
    /// The value as it is now, to go back to. It takes next to no memory and no time that grows, whatever the value holds.
    fn mark(&self) -> Result<Mark<Self>, AllocError>
        ensures { IfOk result (λ mark. mark ≡ self.now) };

    /// Goes back to what was marked. It takes no memory.
    fn back_to(&mut self, mark: Mark<Self>)
        ensures { self.new ≡ mark };

    /// Lets go of a mark: the value stays as it is. It takes no memory.
    fn forget(&mut self, mark: Mark<Self>)
        ensures { self.new ≡ self.old };
}

impl<T: Share> Marked for T {
    fn mark(&self) -> Result<Mark<T>, AllocError>
        ensures { IfOk result (λ mark. mark ≡ self.now) }
    {
        Ok(Mark { was: self.share()? })
    }

    fn back_to(&mut self, mark: Mark<T>)
        ensures { self.new ≡ mark }
    {
        let Mark { was } = mark;
        *self = was;
    }

    fn forget(&mut self, mark: Mark<T>)
        ensures { self.new ≡ self.old }
    {
        let Mark { was: _ } = mark;
    }
}
