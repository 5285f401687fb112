//! A change of a window's widget, made where it stands.
ghost use Rattle.std.specs.Prelude.{◌≡◌};

use crate::asking::WidgetChange;
use crate::kept::Kept;
use std::alloc::Global;
use tks_opt::Said;
use tks_share::Change;
use tks_text::Failure;

/// A change of a window's widget. One that a mark holds too is copied first.
#[derive(Drop)]
pub(crate) struct Calling<'a> {
    pub alloc: Global,
    pub change: WidgetChange<'a>,
}

impl Change<Kept> for Calling<'_> {
    ghost use Rattle.tks_state.specs.Asking.{changed};
    ghost use Rattle.tks_state.specs.Calling.{IsDone};

    type Answer = Result<Said, Failure>;

    ghost gives = { λ calling. IsDone (changed calling.change) };

    fn change(&mut self, kept: &mut Kept) -> Result<Said, Failure> {
        let widget = kept.widget.get_mut(self.alloc)?;
        let said = widget.change(self.alloc, self.change)?;
        Ok(said)
    }
}
