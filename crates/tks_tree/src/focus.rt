//! The order in which the focus goes round.
ghost use Rattle.std.specs.Prelude.{◌≡◌, ◌==◌, position, IfOk};
ghost use Rattle.tks_tree.specs.Windows.{others_behind, Chooses};

use crate::window::WindowId;
use std::alloc::{AllocError, Global};

// The place of a number in the order.
fn place_of(order: &[WindowId], id: WindowId) -> Option<usize>
    ensures { result ≡ position (λ n. n == id) order.now }
{
    order.iter().position(|other| *other == id)
}

/// The order from behind a window on, round the end, up to the one before it.
pub fn others_behind(
    alloc: Global,
    order: &[WindowId],
    from: WindowId,
) -> Result<Vec<WindowId>, AllocError>
    ensures { IfOk result (λ others. others.items ≡ others_behind order.now from) }
{
    let mut others = Vec::new(alloc);
    let Some(place) = place_of(order, from) else {
        return Ok(others);
    };
    others.extend_from_slice(order.split_at(place + 1).1)?;
    others.extend_from_slice(order.split_at(place).0)?;
    Ok(others)
}

/// The first of the windows that the closure accepts, or else the one that is given.
pub fn first_accepted<F: Fn(WindowId) -> bool>(
    ids: &[WindowId],
    otherwise: WindowId,
    accepts: F,
) -> WindowId
    requires { F.IsAlwaysCallable accepts }
    ensures { Chooses (F.post accepts) ids.now otherwise result }
{
    for id in ids {
        if accepts(*id) {
            return *id;
        }
    }
    otherwise
}
