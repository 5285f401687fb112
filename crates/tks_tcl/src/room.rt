//! Whether the parts of a text have room: what would pass a limit is refused before it is made.
ghost use Rattle.std.specs.Prelude.{◌≡◌, ◌+◌, ◌<◌, ◌≤◌, nat_le, IfSome, IfNone};
ghost use Rattle.tks_tcl.specs.Room.{room_of};

use tks_text::Txt;

/// What is left of a room behind a text of so many bytes, and so many more.
pub fn room_behind(room: usize, len: usize, more: usize) -> Option<usize>
    ensures some { IfSome result (λ left. left + (len + more) ≡ room) }
    ensures none { IfNone result (room < len + more) }
{
    room.checked_sub(len)?.checked_sub(more)
}

/// Whether these texts, and so many bytes more with each, are no more than this room.
pub fn have_room(texts: &[Txt], more: usize, room: usize) -> bool
    ensures { result ≡ nat_le (room_of more texts.now) room }
{
    let mut left = room;
    for text in texts {
        match room_behind(left, text.len(), more) {
            Some(room) => left = room,
            None => return false,
        }
    }
    true
}
