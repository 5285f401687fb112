//! A list that is lent to the command that reads it.
ghost use Rattle.std.specs.Prelude.{◌≡◌};
ghost use Rattle.tks_tcl.specs.View.{elements_of};

use tks_list::Elements;
use tks_share::Shared;

/// The list of a text, for the command that reads it.
pub enum Lent {
    /// One that is kept.
    Kept(Shared<Elements>),
    /// One that was read for this command alone.
    Read(Elements),
}

// Written out, so that to let go of it is one step for whoever owns it.
impl Drop for Lent {
    fn drop(self) {
        match self {
            Lent::Kept(_) => {}
            Lent::Read(_) => {}
        }
    }
}

impl Lent {
    /// The list.
    pub fn get(&self) -> &Elements
        ensures { result.now ≡ elements_of self.now }
    {
        match self {
            Lent::Kept(list) => list.get(),
            Lent::Read(list) => list,
        }
    }
}
