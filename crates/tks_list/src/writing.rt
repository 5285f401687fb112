//! Writing elements, quoted where they have to be.
ghost use Rattle.std.specs.Prelude.{◌≡◌, ◌<◌, ◌≤◌, ◌+◌, ◌-◌, ◌^◌, ◌==◌, ◌++◌, not, IfOk, IfSome, OnOk, true};
ghost use Rattle.std.specs.List.{list_all};
ghost use Rattle.tks_text.specs.Text.{IsText, is_text_byte};
ghost use Rattle.tks_list.specs.Quoting.{is_sign, is_special, held_after, balances, stands_bare, stands_in_braces, in_braces, backslashed_char, backslashed_chars, backslashed, quoted, spaced, joined};

use std::alloc::{AllocError, Global};
use tks_text::{TextBuilder, Txt, is_space};

// Whether a byte is one of `" $ ; [ ] \ { }`.
fn is_sign(c: u8) -> bool
    ensures { result ≡ is_sign c }
{
    matches!(c, b'"' | b'$' | b';' | b'[' | b']' | b'\\' | b'{' | b'}')
}

// Whether a byte stands in no bare element.
fn is_special(c: u8) -> bool
    ensures { result ≡ is_special c }
{
    is_space(c) || is_sign(c)
}

// How many braces are open behind one more character, or `None` where it closes one that isn't open.
fn held_after(held: usize, c: u8) -> Option<usize>
    requires { held < 2 ^ 64 - 1 }
    ensures value { result ≡ held_after held c }
    ensures bound { IfSome result (λ n. n ≤ held + 1) }
{
    match c {
        b'}' => held.checked_sub(1),
        b'{' => Some(held + 1),
        _ => Some(held),
    }
}

// Whether no front has more closing than opening braces, and the whole as many.
fn balances(element: &[u8]) -> bool
    ensures { result ≡ balances 0 element.now }
{
    let mut held = 0;
    for c in element {
        match held_after(held, *c) {
            Some(next) => held = next,
            None => return false,
        }
    }
    held == 0
}

// Whether no byte has a meaning that a bare element can't have.
fn is_plain(element: &[u8]) -> bool
    ensures { result ≡ list_all (λ c. not (is_special c)) element.now }
{
    element.iter().all(|c| !is_special(*c))
}

// Whether there is no backslash.
fn has_no_backslash(element: &[u8]) -> bool
    ensures { result ≡ list_all (λ c. not (c == 92)) element.now }
{
    element.iter().all(|c| *c != b'\\')
}

// Whether an element may stand bare.
fn stands_bare(element: &[u8]) -> bool
    ensures { result ≡ stands_bare element.now }
{
    match element {
        [] | [b'#', ..] => false,
        _ => is_plain(element),
    }
}

// Whether an element may stand in braces.
fn stands_in_braces(element: &[u8]) -> bool
    ensures { result ≡ stands_in_braces element.now }
{
    has_no_backslash(element) && balances(element)
}

// Adds a character in backslash form.
fn push_backslashed_char(text: &mut TextBuilder, c: u8) -> Result<(), AllocError>
    requires { is_text_byte c ≡ true }
    ensures { OnOk result (text.new ≡ text.old ++ backslashed_char c) }
{
    if c == b'\n' {
        text.push_byte(b'\\')?;
        text.push_byte(b'n')?;
    } else if c == b'\t' {
        text.push_byte(b'\\')?;
        text.push_byte(b't')?;
    } else if c == b' ' || is_sign(c) {
        text.push_byte(b'\\')?;
        text.push_byte(c)?;
    } else {
        text.push_byte(c)?;
    }
    Ok(())
}

// Adds characters in backslash form.
fn push_backslashed_chars(text: &mut TextBuilder, chars: &[u8]) -> Result<(), AllocError>
    requires { IsText chars.now }
    ensures { OnOk result (text.new ≡ text.old ++ backslashed_chars chars.now) }
{
    for c in chars {
        push_backslashed_char(text, *c)?;
    }
    Ok(())
}

// Adds an element in backslash form.
fn push_backslashed(text: &mut TextBuilder, element: &[u8]) -> Result<(), AllocError>
    requires { IsText element.now }
    ensures { OnOk result (text.new ≡ text.old ++ backslashed element.now) }
{
    match element {
        [] => push_in_braces(text, element),
        [b'#', rest @ ..] => {
            text.push_byte(b'\\')?;
            text.push_byte(b'#')?;
            push_backslashed_chars(text, rest)
        }
        chars => push_backslashed_chars(text, chars),
    }
}

// Adds an element in braces.
fn push_in_braces(text: &mut TextBuilder, element: &[u8]) -> Result<(), AllocError>
    requires { IsText element.now }
    ensures { OnOk result (text.new ≡ text.old ++ in_braces element.now) }
{
    text.push_byte(b'{')?;
    text.push_bytes(element)?;
    text.push_byte(b'}')?;
    Ok(())
}

/// Adds an element, quoted where it has to be.
pub(crate) fn push_quoted(text: &mut TextBuilder, element: &[u8]) -> Result<(), AllocError>
    requires { IsText element.now }
    ensures { OnOk result (text.new ≡ text.old ++ quoted element.now) }
{
    if stands_bare(element) {
        text.push_bytes(element)
    } else if stands_in_braces(element) {
        push_in_braces(text, element)
    } else {
        push_backslashed(text, element)
    }
}

/// Adds elements, each with a space before it.
pub(crate) fn push_spaced(text: &mut TextBuilder, list: &[Txt]) -> Result<(), AllocError>
    ensures { OnOk result (text.new ≡ text.old ++ spaced list.now) }
{
    for element in list {
        text.push_byte(b' ')?;
        push_quoted(text, element.as_bytes())?;
    }
    Ok(())
}

/// An element as it stands in a list: bare where it may be, else in braces where it has no backslash and
/// its braces balance, else in backslash form. The empty text is `{}`.
pub fn quote(alloc: Global, element: &Txt) -> Result<Txt, AllocError>
    ensures { IfOk result (λ t. t ≡ quoted element.now) }
{
    let mut text = TextBuilder::new(alloc);
    push_quoted(&mut text, element.as_bytes())?;
    text.into_text()
}

/// An element in backslash form: a backslash before each space, before each of `" $ ; [ ] \ { }` and
/// before a leading `#`, and `\n` and `\t`. The empty text is `{}`.
pub fn backslash_form(alloc: Global, element: &Txt) -> Result<Txt, AllocError>
    ensures { IfOk result (λ t. t ≡ backslashed element.now) }
{
    let mut text = TextBuilder::new(alloc);
    push_backslashed(&mut text, element.as_bytes())?;
    text.into_text()
}

/// The text of a list: its elements as `quote` writes them, with single spaces between them.
pub fn join(alloc: Global, list: &[Txt]) -> Result<Txt, AllocError>
    ensures { IfOk result (λ t. t ≡ joined list.now) }
{
    let mut text = TextBuilder::new(alloc);
    if let [first, rest @ ..] = list {
        push_quoted(&mut text, first.as_bytes())?;
        push_spaced(&mut text, rest)?;
    }
    text.into_text()
}
