//! The paths of windows: `.`, or names each with a dot before it, as `.form.name`.
ghost use Rattle.std.specs.Prelude.{◌≡◌, option_copied};
ghost use Rattle.std.specs.List.{list_all};
ghost use Rattle.tks_tree.specs.Path.{is_upper, is_name_byte, begins_upper, is_name, is_dot, are_names, are_names_behind_dot, is_path, before_last_dot, parent_of, is_child, goes_on, is_within};
ghost use Rattle.tks_tree.specs.View.{bytes_seen};

use tks_text::begins_dot;

/// The path of the first window.
pub const ROOT: &[u8] = b".";

/// How many bytes a name has at most.
const NAME_LEN: usize = 64;

// Whether a name may hold the byte.
fn is_name_byte(byte: u8) -> bool
    ensures { result ≡ is_name_byte byte }
{
    byte.is_ascii_alphanumeric() || byte == b'_'
}

// Whether all of the bytes may stand in names.
fn are_name_bytes(bytes: &[u8]) -> bool
    ensures { result ≡ list_all is_name_byte bytes.now }
{
    bytes.iter().all(|byte| is_name_byte(*byte))
}

// Whether the first byte is an upper-case letter.
fn begins_upper(name: &[u8]) -> bool
    ensures { result ≡ begins_upper name.now }
{
    match name {
        [] => false,
        [first, ..] => first.is_ascii_uppercase(),
    }
}

// Whether these bytes are the name of a window in its parent.
fn is_name(name: &[u8]) -> bool
    ensures { result ≡ is_name name.now }
{
    1 <= name.len() && name.len() <= NAME_LEN && are_name_bytes(name) && !begins_upper(name)
}

// Whether these bytes are names with dots between them.
fn are_names(names: &[u8]) -> bool
    ensures { result ≡ are_names names.now }
{
    names.split(|byte| *byte == b'.').all(is_name)
}

// Whether these bytes are a dot, and names behind it.
fn are_names_behind_dot(path: &[u8]) -> bool
    ensures { result ≡ are_names_behind_dot path.now }
{
    match path {
        [b'.', names @ ..] => are_names(names),
        _ => false,
    }
}

/// Whether a text is a path: `.`, or names of 1 to 64 letters, digits and underscores, each with a dot
/// before it, of which none begins with an upper-case letter.
pub fn is_path(text: &[u8]) -> bool
    ensures { result ≡ is_path text.now }
{
    text == ROOT || are_names_behind_dot(text)
}

// What stands before the last dot.
fn before_last_dot(path: &[u8]) -> Option<&[u8]>
    ensures { bytes_seen result ≡ before_last_dot path.now }
{
    let mut front = path;
    while let Some((byte, before)) = front.split_last() {
        if *byte == b'.' {
            return Some(before);
        }
        front = before;
    }
    None
}

/// The path of the window that a path stands in; none for `.`.
pub fn parent_of(path: &[u8]) -> Option<&[u8]>
    ensures value { bytes_seen result ≡ parent_of path.now }
{
    if path == ROOT {
        return None;
    }
    match before_last_dot(path) {
        None => None,
        Some([]) => Some(ROOT),
        Some(parent) => Some(parent),
    }
}

/// Whether a window of the path stands right in that of the other.
pub fn is_child(parent: &[u8], path: &[u8]) -> bool
    ensures { result ≡ is_child parent.now path.now }
{
    match parent_of(path) {
        None => false,
        Some(other) => parent == other,
    }
}

// Whether the path is the front, a dot and more.
#[tactic(auto, using(crate::proofs::Paths::behind_front, crate::proofs::Paths::other_front))]
fn goes_on(front: &[u8], path: &[u8]) -> bool
    ensures { result ≡ goes_on front.now path.now }
{
    match path.strip_prefix(front) {
        Some(behind) => begins_dot(behind),
        None => false,
    }
}

/// Whether a window of the path is the other, or stands in it, however deep.
pub fn is_within(window: &[u8], path: &[u8]) -> bool
    ensures { result ≡ is_within window.now path.now }
{
    window == ROOT || window == path || goes_on(window, path)
}
