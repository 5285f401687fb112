//! Braces, and comments: in both a backslash takes the character behind it with it.
ghost use Rattle.std.specs.Prelude.{◌≡◌, ◌≤◌, ◌<◌, ◌+◌, ◌^◌, ◌++◌, [], length, true, false, IfOk, IfSome, OnOk};
ghost use Rattle.tks_text.specs.Text.{IsText};
ghost use Rattle.tks_parse.specs.Braces.{quotes, ends_comment, comment_len, ends_braces, held_behind, braced_len, verbatim_step, verbatim};
ghost use Rattle.tks_parse.specs.Gives.{GivesRun, run_of_parts, GivesVerbatim, IsTextVerbatim, text_of_verbatim};
ghost use Rattle.tks_parse.specs.Reading.{braced_at};

use crate::syntax::Syntax;
use crate::tree::{Part, Parts};
use std::alloc::{AllocError, Global};
use tks_text::{ErrorNumber, Failure, TextBuilder, Txt, blank_len};

// Whether a character is a backslash that quotes what follows.
fn quotes(quoted: bool, c: u8) -> bool
    ensures { result ≡ quotes quoted c }
{
    !quoted && c == b'\\'
}

fn ends_comment(quoted: bool, c: u8) -> bool
    ensures { result ≡ ends_comment quoted c }
{
    !quoted && c == b'\n'
}

/// The length of a comment's rest, up to a newline that no backslash quotes.
pub fn comment_len(text: &[u8]) -> usize
    ensures value { result ≡ comment_len false text.now }
    ensures bound { result ≤ length text.now }
{
    let mut quoted = false;
    let mut len = 0;
    'comment: for c in text {
        if ends_comment(quoted, *c) {
            return len;
        }
        quoted = quotes(quoted, *c);
        len += 1;
    }
    len
}

// Whether a character closes the outer braces, inside which `held` more are open.
fn ends_braces(held: usize, quoted: bool, c: u8) -> bool
    ensures { result ≡ ends_braces held quoted c }
{
    !quoted && c == b'}' && held == 0
}

// How many braces are open behind a character.
fn held_behind(held: usize, quoted: bool, c: u8) -> usize
    requires { held + 1 < 2 ^ 64 }
    ensures value { result ≡ held_behind held quoted c }
    ensures bound { result ≤ held + 1 }
{
    if !quoted && c == b'{' {
        return held + 1;
    }
    if !quoted && c == b'}' {
        return held.saturating_sub(1);
    }
    held
}

/// The length of what stands in braces: up to the brace that closes them, or to the end.
pub fn braced_len(text: &[u8]) -> usize
    ensures value { result ≡ braced_len 0 false text.now }
    ensures bound { result ≤ length text.now }
{
    let mut held = 0;
    let mut quoted = false;
    let mut len = 0;
    'braces: for c in text {
        if ends_braces(held, quoted, *c) {
            return len;
        }
        held = held_behind(held, quoted, *c);
        quoted = quotes(quoted, *c);
        len += 1;
    }
    len
}

/// What stands next in braces.
#[derive(Clone, Copy)]
pub enum Verbatim {
    /// A character that stands for itself, or the space for a newline that a backslash quotes.
    One(u8),
    /// A backslash and this character.
    Pair(u8),
}

// What stands next in braces, and how many bytes it takes behind its first.
#[tactic(auto, unfolding(crate::specs::Braces::verbatim_step))]
fn next_verbatim(text: &[u8]) -> Option<(Verbatim, usize)>
    requires { IsText text.now }
    ensures gives { GivesVerbatim result (verbatim_step text.now) }
    ensures bound { IfSome result (λ x. x.1 < length text.now) }
    ensures text { IfSome result (λ x. IsTextVerbatim x.0) }
{
    match text {
        [] => None,
        [b'\\', b'\n', blanks @ ..] => Some((Verbatim::One(b' '), 1 + blank_len(blanks))),
        [b'\\', c, ..] => Some((Verbatim::Pair(*c), 1)),
        [c, ..] => Some((Verbatim::One(*c), 0)),
    }
}

impl Verbatim {
    // Adds it to a text.
    fn add_to(self, text: &mut TextBuilder) -> Result<(), AllocError>
        requires { IsTextVerbatim self }
        ensures { OnOk result (text.new ≡ text.old ++ text_of_verbatim self) }
    {
        match self {
            Verbatim::One(c) => text.push_byte(c)?,
            Verbatim::Pair(c) => {
                text.push_byte(b'\\')?;
                text.push_byte(c)?;
            }
        }
        Ok(())
    }
}

/// The value of what stands in braces.
pub fn braced_value(alloc: Global, text: &[u8]) -> Result<Txt, AllocError>
    requires { IsText text.now }
    ensures { IfOk result (λ value. value ≡ verbatim text.now) }
{
    let mut value = TextBuilder::new(alloc);
    let mut rest = text;
    'verbatim: while let Some((next, more)) = next_verbatim(rest) {
        next.add_to(&mut value)?;
        rest = rest.split_at(1 + more).1;
    }
    value.into_text()
}

/// What stands behind an opening brace, up to the one that closes it, and how many bytes it takes with that.
#[tactic(auto, unfolding(crate::specs::Reading::braced_at))]
pub fn read_braced(alloc: Global, text: &[u8], syntax: Syntax) -> Result<(Parts, usize), Failure>
    requires { IsText text.now }
    ensures gives { GivesRun run_of_parts result (braced_at syntax text.now) }
    ensures bound { IfOk result (λ x. x.1 ≤ length text.now) }
{
    let len = braced_len(text);
    let (inside, behind) = text.split_at(len);
    if behind.is_empty() {
        return Err(syntax.fault(ErrorNumber::MissingCloseBrace));
    }
    let mut parts = Vec::new(alloc);
    parts.push(Part::Text(braced_value(alloc, inside)?))?;
    Ok((Parts::new(alloc, parts)?, len + 1))
}
