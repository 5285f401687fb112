//! Keysyms: the names of keys.
ghost use Rattle.std.specs.Prelude.{◌≡◌, true, is_some, IfSome};
ghost use Rattle.tks_text.specs.Text.{is_text_byte};
ghost use Rattle.std.specs.Option.{option_map};
ghost use Rattle.tks_event.specs.View.{bytes_seen, keysym_of_text};
ghost use Rattle.tks_event.specs.Keysyms.{named_in, is_among, is_alphanumeric, alphanumeric_of, first_signs, second_signs, third_signs, fourth_signs, keysym_char, editing_keys, moving_keys, function_keys, further_function_keys, is_modifier_key, is_function_key, is_keysym, name_in, sign_name};

use tks_text::Txt;

// Whether a character is a letter or a digit, which is its own keysym.
fn is_alphanumeric(c: u8) -> bool
    ensures { result ≡ is_alphanumeric c }
{
    matches!(c, b'0'..=b'9' | b'A'..=b'Z' | b'a'..=b'z')
}

// The letter or digit that a text is.
fn alphanumeric_of(text: &[u8]) -> Option<u8>
    ensures { result ≡ alphanumeric_of text.now }
{
    match text {
        [c] if is_alphanumeric(*c) => Some(*c),
        _ => None,
    }
}

fn first_sign(text: &[u8]) -> Option<u8>
    ensures { result ≡ named_in first_signs text.now }
{
    if text == b"space".as_slice() {
        Some(b' ')
    } else if text == b"exclam".as_slice() {
        Some(b'!')
    } else if text == b"quotedbl".as_slice() {
        Some(b'"')
    } else if text == b"numbersign".as_slice() {
        Some(b'#')
    } else if text == b"dollar".as_slice() {
        Some(b'$')
    } else if text == b"percent".as_slice() {
        Some(b'%')
    } else if text == b"ampersand".as_slice() {
        Some(b'&')
    } else if text == b"apostrophe".as_slice() {
        Some(b'\'')
    } else {
        None
    }
}

fn second_sign(text: &[u8]) -> Option<u8>
    ensures { result ≡ named_in second_signs text.now }
{
    if text == b"parenleft".as_slice() {
        Some(b'(')
    } else if text == b"parenright".as_slice() {
        Some(b')')
    } else if text == b"asterisk".as_slice() {
        Some(b'*')
    } else if text == b"plus".as_slice() {
        Some(b'+')
    } else if text == b"comma".as_slice() {
        Some(b',')
    } else if text == b"minus".as_slice() {
        Some(b'-')
    } else if text == b"period".as_slice() {
        Some(b'.')
    } else if text == b"slash".as_slice() {
        Some(b'/')
    } else {
        None
    }
}

fn third_sign(text: &[u8]) -> Option<u8>
    ensures { result ≡ named_in third_signs text.now }
{
    if text == b"colon".as_slice() {
        Some(b':')
    } else if text == b"semicolon".as_slice() {
        Some(b';')
    } else if text == b"less".as_slice() {
        Some(b'<')
    } else if text == b"equal".as_slice() {
        Some(b'=')
    } else if text == b"greater".as_slice() {
        Some(b'>')
    } else if text == b"question".as_slice() {
        Some(b'?')
    } else if text == b"at".as_slice() {
        Some(b'@')
    } else if text == b"bracketleft".as_slice() {
        Some(b'[')
    } else if text == b"backslash".as_slice() {
        Some(b'\\')
    } else {
        None
    }
}

fn fourth_sign(text: &[u8]) -> Option<u8>
    ensures { result ≡ named_in fourth_signs text.now }
{
    if text == b"bracketright".as_slice() {
        Some(b']')
    } else if text == b"asciicircum".as_slice() {
        Some(b'^')
    } else if text == b"underscore".as_slice() {
        Some(b'_')
    } else if text == b"grave".as_slice() {
        Some(b'`')
    } else if text == b"braceleft".as_slice() {
        Some(b'{')
    } else if text == b"bar".as_slice() {
        Some(b'|')
    } else if text == b"braceright".as_slice() {
        Some(b'}')
    } else if text == b"asciitilde".as_slice() {
        Some(b'~')
    } else {
        None
    }
}

// The character of a keysym, if it has a printing one.
fn char_of(text: &[u8]) -> Option<u8>
    ensures { result ≡ keysym_char text.now }
{
    if let Some(c) = alphanumeric_of(text) {
        return Some(c);
    }
    if let Some(c) = first_sign(text) {
        return Some(c);
    }
    if let Some(c) = second_sign(text) {
        return Some(c);
    }
    if let Some(c) = third_sign(text) {
        return Some(c);
    }
    fourth_sign(text)
}

/// The printing character of a keysym: that of a letter, a digit, `space`, or the name of a sign, as `exclam`.
/// `None` for every other keysym, `Tab` and `Return` among them, and for a text that is no keysym.
#[tactic(auto, using(crate::proofs::Legal::chars_are_text))]
pub fn keysym_char(text: &Txt) -> Option<u8>
    ensures value { result ≡ keysym_char text.now }
    ensures text { IfSome result (λ c. is_text_byte c ≡ true) }
{
    char_of(text.as_bytes())
}

fn is_editing_key(text: &[u8]) -> bool
    ensures { result ≡ is_among editing_keys text.now }
{
    text == b"BackSpace".as_slice()
        || text == b"Tab".as_slice()
        || text == b"Return".as_slice()
        || text == b"Escape".as_slice()
        || text == b"Delete".as_slice()
        || text == b"Home".as_slice()
        || text == b"Left".as_slice()
        || text == b"Up".as_slice()
}

fn is_moving_key(text: &[u8]) -> bool
    ensures { result ≡ is_among moving_keys text.now }
{
    text == b"Right".as_slice()
        || text == b"Down".as_slice()
        || text == b"Prior".as_slice()
        || text == b"Next".as_slice()
        || text == b"End".as_slice()
        || text == b"Insert".as_slice()
}

fn is_first_function_key(text: &[u8]) -> bool
    ensures { result ≡ is_among function_keys text.now }
{
    text == b"F1".as_slice()
        || text == b"F2".as_slice()
        || text == b"F3".as_slice()
        || text == b"F4".as_slice()
        || text == b"F5".as_slice()
        || text == b"F6".as_slice()
}

fn is_further_function_key(text: &[u8]) -> bool
    ensures { result ≡ is_among further_function_keys text.now }
{
    text == b"F7".as_slice()
        || text == b"F8".as_slice()
        || text == b"F9".as_slice()
        || text == b"F10".as_slice()
        || text == b"F11".as_slice()
        || text == b"F12".as_slice()
}

fn is_function_key(text: &[u8]) -> bool
    ensures { result ≡ is_function_key text.now }
{
    is_first_function_key(text) || is_further_function_key(text)
}

/// Whether a text is the keysym of a modifier key: `Shift_L`, `Shift_R`, `Control_L`, `Control_R`, `Alt_L`,
/// `Alt_R` or `Caps_Lock`.
pub fn is_modifier_key(text: &[u8]) -> bool
    ensures { result ≡ is_modifier_key text.now }
{
    text == b"Shift_L".as_slice()
        || text == b"Shift_R".as_slice()
        || text == b"Control_L".as_slice()
        || text == b"Control_R".as_slice()
        || text == b"Alt_L".as_slice()
        || text == b"Alt_R".as_slice()
        || text == b"Caps_Lock".as_slice()
}

/// Whether a text is a keysym: a letter, a digit, or one of the names of `docs/EVENTS.md`.
#[tactic(auto, unfolding(crate::specs::Keysyms::is_keysym))]
pub fn is_keysym(text: &[u8]) -> bool
    ensures { result ≡ is_keysym text.now }
{
    char_of(text).is_some()
        || is_editing_key(text)
        || is_moving_key(text)
        || is_function_key(text)
        || is_modifier_key(text)
}

fn first_sign_name(c: u8) -> Option<&'static [u8]>
    ensures { option_map (λ n. n.now) result ≡ name_in first_signs c }
{
    if c == b' ' {
        Some(b"space")
    } else if c == b'!' {
        Some(b"exclam")
    } else if c == b'"' {
        Some(b"quotedbl")
    } else if c == b'#' {
        Some(b"numbersign")
    } else if c == b'$' {
        Some(b"dollar")
    } else if c == b'%' {
        Some(b"percent")
    } else if c == b'&' {
        Some(b"ampersand")
    } else if c == b'\'' {
        Some(b"apostrophe")
    } else {
        None
    }
}

fn second_sign_name(c: u8) -> Option<&'static [u8]>
    ensures { option_map (λ n. n.now) result ≡ name_in second_signs c }
{
    if c == b'(' {
        Some(b"parenleft")
    } else if c == b')' {
        Some(b"parenright")
    } else if c == b'*' {
        Some(b"asterisk")
    } else if c == b'+' {
        Some(b"plus")
    } else if c == b',' {
        Some(b"comma")
    } else if c == b'-' {
        Some(b"minus")
    } else if c == b'.' {
        Some(b"period")
    } else if c == b'/' {
        Some(b"slash")
    } else {
        None
    }
}

fn third_sign_name(c: u8) -> Option<&'static [u8]>
    ensures { option_map (λ n. n.now) result ≡ name_in third_signs c }
{
    if c == b':' {
        Some(b"colon")
    } else if c == b';' {
        Some(b"semicolon")
    } else if c == b'<' {
        Some(b"less")
    } else if c == b'=' {
        Some(b"equal")
    } else if c == b'>' {
        Some(b"greater")
    } else if c == b'?' {
        Some(b"question")
    } else if c == b'@' {
        Some(b"at")
    } else if c == b'[' {
        Some(b"bracketleft")
    } else if c == b'\\' {
        Some(b"backslash")
    } else {
        None
    }
}

fn fourth_sign_name(c: u8) -> Option<&'static [u8]>
    ensures { option_map (λ n. n.now) result ≡ name_in fourth_signs c }
{
    if c == b']' {
        Some(b"bracketright")
    } else if c == b'^' {
        Some(b"asciicircum")
    } else if c == b'_' {
        Some(b"underscore")
    } else if c == b'`' {
        Some(b"grave")
    } else if c == b'{' {
        Some(b"braceleft")
    } else if c == b'|' {
        Some(b"bar")
    } else if c == b'}' {
        Some(b"braceright")
    } else if c == b'~' {
        Some(b"asciitilde")
    } else {
        None
    }
}

// The keysym of a printing character that is no letter and no digit.
fn sign_name(c: u8) -> Option<&'static [u8]>
    ensures { option_map (λ n. n.now) result ≡ sign_name c }
{
    if let Some(name) = first_sign_name(c) {
        return Some(name);
    }
    if let Some(name) = second_sign_name(c) {
        return Some(name);
    }
    if let Some(name) = third_sign_name(c) {
        return Some(name);
    }
    fourth_sign_name(c)
}

/// The keysym of a printing character, which is all of the text. `None` where the text isn't one printing character.
#[tactic(auto, unfolding(crate::specs::Keysyms::keysym_of))]
pub(crate) fn keysym_of(character: &[u8]) -> Option<&[u8]>
    ensures { bytes_seen result ≡ keysym_of_text character.now }
{
    match character {
        [c] => {
            if is_alphanumeric(*c) {
                return Some(character);
            }
            sign_name(*c)
        }
        _ => None,
    }
}
