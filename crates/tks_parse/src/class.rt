//! Which part a byte plays in a word.
ghost use Rattle.std.specs.Prelude.{◌≡◌, ◌≤◌, length};
ghost use Rattle.std.specs.List.{prefix_len};
ghost use Rattle.tks_parse.specs.Class.{is_separator, is_name_char, is_no_close_brace, begins_newline, is_fold};

/// What separates commands.
pub fn is_separator(c: u8) -> bool
    ensures { result ≡ is_separator c }
{
    c == b'\n' || c == b';'
}

/// A letter, a digit or an underscore.
pub fn is_name_char(c: u8) -> bool
    ensures { result ≡ is_name_char c }
{
    (b'0' <= c && c <= b'9') || (b'A' <= c && c <= b'Z') || (b'a' <= c && c <= b'z') || c == b'_'
}

/// How many characters of a name a text begins with.
pub fn name_len(text: &[u8]) -> usize
    ensures value { result ≡ prefix_len is_name_char text.now }
    ensures bound { result ≤ length text.now }
{
    text.iter().take_while(|c| is_name_char(**c)).count()
}

/// How many characters stand before the first `}`.
pub fn braced_name_len(text: &[u8]) -> usize
    ensures value { result ≡ prefix_len is_no_close_brace text.now }
    ensures bound { result ≤ length text.now }
{
    text.iter().take_while(|c| **c != b'}').count()
}

fn begins_newline(text: &[u8]) -> bool
    ensures { result ≡ begins_newline text.now }
{
    match text {
        [] => false,
        [c, ..] => *c == b'\n',
    }
}

/// Whether a character and the text behind it are a backslash and a newline.
pub fn is_fold(c: u8, rest: &[u8]) -> bool
    ensures { result ≡ is_fold c rest.now }
{
    c == b'\\' && begins_newline(rest)
}
