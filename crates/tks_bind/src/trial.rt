//! What is tried where a binding is chosen.
ghost use Rattle.std.specs.Prelude.{◌≡◌, option_copied};
ghost use Rattle.tks_bind.specs.Passes.{trial_of, trial_by};

use crate::binding::Binding;
use crate::way::Way;
use tks_event::Sequence;

/// A binding, and a way to meet it that is tried.
#[derive(Clone, Copy)]
pub struct Trial<'a> {
    pub binding: &'a Binding,
    pub way: Way<'a>,
}

impl<'a> Trial<'a> {
    /// A binding by its own sequence, or through one of a virtual event.
    pub fn by(binding: &'a Binding, through: Option<&'a Sequence>) -> Trial<'a>
        ensures { trial_of result ≡ trial_by (option_copied through.entry) binding.now }
    {
        let way = match through {
            Some(sequence) => Way {
                sequence,
                is_virtual: true,
            },
            None => Way {
                sequence: &binding.sequence,
                is_virtual: false,
            },
        };
        Trial { binding, way }
    }
}
