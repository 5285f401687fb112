//! What the name of a variable says: a variable, or an element of one.
ghost use Rattle.std.specs.Prelude.{◌≡◌, ◌==◌, position, option_map};
ghost use Rattle.tks_vars.specs.Names.{halves, whole, element_named, named, is_whole};
ghost use Rattle.tks_vars.specs.View.{pair_seen, name_seen};

use tks_text::Txt;

/// What the name of a variable says: the variable, and, where it names an element, its index.
#[derive(Clone, Copy)]
pub struct Name<'a> {
    pub variable: &'a [u8],
    pub index: Option<&'a [u8]>,
}

/// What a text says as a name, or none where it names an element of a variable without a name. The end is looked at first, which
/// tells most names from those of elements.
pub fn named(text: &[u8]) -> Option<Name<'_>>
    ensures { option_map name_seen result ≡ named text.now }
{
    let Some(inside) = text.strip_suffix(b")".as_slice()) else {
        return Some(whole(text));
    };
    match halves(inside) {
        Some((variable, index)) => element_named(variable, index),
        None => Some(whole(text)),
    }
}

/// Whether a text is the name of a whole variable, and not of an element.
pub fn names_whole(text: &Txt) -> bool
    ensures { result ≡ is_whole (named text.now) }
{
    match named(text.as_bytes()) {
        Some(name) => name.index.is_none(),
        None => false,
    }
}

// The place of the first `(`.
fn first_open(text: &[u8]) -> Option<usize>
    ensures { result ≡ position (λ b. b == 40) text.now }
{
    text.iter().position(|byte| *byte == b'(')
}

// The parts of a text before and behind its first `(`.
fn halves(text: &[u8]) -> Option<(&[u8], &[u8])>
    ensures { option_map pair_seen result ≡ halves text.now }
{
    match first_open(text) {
        Some(open) => Some((text.split_at(open).0, text.split_at(open + 1).1)),
        None => None,
    }
}

// A text as the name of a whole variable.
fn whole(text: &[u8]) -> Name<'_>
    ensures { name_seen result ≡ whole text.now }
{
    Name {
        variable: text,
        index: None,
    }
}

// The name of an element.
fn element_named<'a>(variable: &'a [u8], index: &'a [u8]) -> Option<Name<'a>>
    ensures { option_map name_seen result ≡ element_named variable.now index.now }
{
    if variable.is_empty() {
        return None;
    }
    Some(Name {
        variable,
        index: Some(index),
    })
}
