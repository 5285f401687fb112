//! Lists without what is of windows that go.
ghost use Rattle.std.specs.Prelude.{◌≡◌, not, IfOk};
ghost use Rattle.std.specs.List.{filter};
ghost use Rattle.tks_share.specs.Lists.{Rises};
ghost use Rattle.tks_tree.specs.Within.{is_one_of};

use crate::window::WindowId;
use std::alloc::AllocError;
use tks_share::{Numbered, SharedList};

/// The items of a list but for those whose numbers are those of these windows. The items' numbers must rise.
pub fn without_windows<T: Numbered>(
    items: &SharedList<T>,
    ids: &[WindowId],
) -> Result<SharedList<T>, AllocError>
    requires { Rises T.number_of 0 items.now }
    ensures { IfOk result (λ left. left ≡ filter (λ x. not (is_one_of (T.number_of x) ids.now)) items.now) }
{
    let mut left = items.share()?;
    for id in ids {
        left.remove_number(id.number())?;
    }
    Ok(left)
}
