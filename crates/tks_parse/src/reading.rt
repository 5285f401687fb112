//! Reads scripts: parts, words and commands, and in them scripts in brackets and indexes of arrays.
//! Each function goes from the rest of the text to what stands at its front and how many bytes that
//! takes; `depth` says how many brackets and parentheses may still be opened.
ghost use Rattle.std.specs.Prelude.{◌≡◌, ◌<◌, ◌≤◌, ◌+◌, ◌-◌, ◌^◌, length, IfOk, IfSome};
ghost use Rattle.tks_text.specs.Backslash.{escape};
ghost use Rattle.tks_text.specs.Text.{IsText};
ghost use Rattle.tks_parse.specs.Gives.{GivesStep, GivesRun, taken_piece, run_of_parts, taken_word, run_of_command, taken_command, run_of_script, IsTextPiece};
ghost use Rattle.tks_parse.specs.Reading.{escape_step, braced_name_step, nested_step, index_step, variable_step, part_step, parts_at, quoted_at, plain_word, prefixed_word, word_step, words_at, command_step, commands_at, nest, index, script_of};
ghost use Rattle.tks_parse.specs.Script.{Spells};

use crate::braces::{comment_len, read_braced};
use crate::builder::{Builder, Piece};
use crate::class::{braced_name_len, is_fold, is_separator, name_len};
use crate::commands::{Found, add_command};
use crate::fault::fault;
use crate::mode::{Mode, Place};
use crate::ready::{is_ready, read_ready};
use crate::syntax::Syntax;
use crate::tree::{Command, Part, Parts, Script, Word};
use crate::words::{add_word, end_word, is_expanded};
use std::alloc::{AllocError, Global};
use tks_text::{ErrorNumber, Failure, Txt, escape, is_blank};

/// How many brackets and parentheses may be open in one another.
pub const MAX_DEPTH: u32 = 32;

// What a `$` before no name begins: `{name}`, or the `$` stands for itself.
#[tactic(auto, unfolding(crate::specs::Reading::braced_name_step))]
fn read_braced_name(
    alloc: Global,
    text: &[u8],
    syntax: Syntax,
) -> Result<Option<(Piece, usize)>, Failure>
    requires { IsText text.now }
    ensures gives { GivesStep taken_piece result (braced_name_step syntax text.now) }
    ensures bound { IfOk result (λ o. IfSome o (λ x. x.1 ≤ length text.now)) }
    ensures text { IfOk result (λ o. IfSome o (λ x. IsTextPiece x.0)) }
{
    match text {
        [b'{', rest @ ..] => {
            let len = braced_name_len(rest);
            let (name, behind) = rest.split_at(len);
            if behind.is_empty() {
                return Err(syntax.fault(ErrorNumber::MissingCloseOfVariable));
            }
            let name = Txt::from_text(alloc, name)?;
            Ok(Some((Piece::Whole(Part::Variable(name, None)), len + 2)))
        }
        _ => Ok(Some((Piece::Char(b'$'), 0))),
    }
}

/// The script behind a `[`, and its `]`.
#[cycle(parse)]
#[tactic(auto, unfolding(crate::specs::Reading::nested_step, crate::specs::Reading::nest))]
pub fn read_nested(
    alloc: Global,
    text: &[u8],
    depth: u32,
) -> Result<Option<(Piece, usize)>, Failure>
    requires { IsText text.now }
    ensures gives { GivesStep taken_piece result (nested_step (nest depth) text.now) }
    ensures bound { IfOk result (λ o. IfSome o (λ x. x.1 ≤ length text.now)) }
    ensures text { IfOk result (λ o. IfSome o (λ x. IsTextPiece x.0)) }
{
    if depth == 0 {
        return Err(fault(ErrorNumber::TooDeeplyNested));
    }
    let Found {
        commands,
        fault: failed,
        taken,
    } = read_commands(alloc, text, Place::Brackets, depth - 1)?;
    if let Some(failed) = failed {
        return Err(Failure::Script(failed));
    }
    if taken < text.len() {
        let script = Script::new(alloc, commands, None)?;
        Ok(Some((Piece::Whole(Part::Nested(script)), taken + 1)))
    } else {
        Err(fault(ErrorNumber::MissingCloseBracket))
    }
}

// The index behind a name and a `(`, and its `)`.
#[cycle(parse)]
#[tactic(auto, unfolding(crate::specs::Reading::index_step, crate::specs::Reading::index))]
fn read_index(
    alloc: Global,
    name: &[u8],
    text: &[u8],
    syntax: Syntax,
    depth: u32,
) -> Result<Option<(Piece, usize)>, Failure>
    requires text { IsText text.now }
    requires name { IsText name.now }
    requires room { length name.now + length text.now < 2 ^ 64 - 1 }
    ensures gives { GivesStep taken_piece result (index_step (index depth) syntax name.now (length name.now) text.now) }
    ensures bound { IfOk result (λ o. IfSome o (λ x. x.1 ≤ length name.now + 1 + length text.now)) }
    ensures text { IfOk result (λ o. IfSome o (λ x. IsTextPiece x.0)) }
{
    if depth == 0 {
        return Err(fault(ErrorNumber::TooDeeplyNested));
    }
    let (parts, taken) = read_parts(alloc, text, Mode::Index(syntax), depth - 1)?;
    if taken < text.len() {
        let len = name.len() + 1 + taken + 1;
        let name = Txt::from_text(alloc, name)?;
        Ok(Some((Piece::Whole(Part::Variable(name, Some(parts))), len)))
    } else {
        Err(syntax.fault(ErrorNumber::MissingCloseOfVariable))
    }
}

/// The variable behind a `$`, or the `$` itself where none stands there.
#[cycle(parse)]
#[tactic(auto, unfolding(crate::specs::Reading::variable_step, crate::specs::Reading::named_step))]
pub fn read_variable(
    alloc: Global,
    text: &[u8],
    syntax: Syntax,
    depth: u32,
) -> Result<Option<(Piece, usize)>, Failure>
    requires { IsText text.now }
    ensures gives { GivesStep taken_piece result (variable_step (index depth) syntax text.now) }
    ensures bound { IfOk result (λ o. IfSome o (λ x. x.1 ≤ length text.now)) }
    ensures text { IfOk result (λ o. IfSome o (λ x. IsTextPiece x.0)) }
{
    let len = name_len(text);
    if len == 0 {
        return read_braced_name(alloc, text, syntax);
    }
    let (name, behind) = text.split_at(len);
    match behind {
        [b'(', rest @ ..] => read_index(alloc, name, rest, syntax, depth),
        _ => {
            let name = Txt::from_text(alloc, name)?;
            Ok(Some((Piece::Whole(Part::Variable(name, None)), len)))
        }
    }
}

// The character that a backslash before this text gives.
fn read_escape(text: &[u8], syntax: Syntax) -> Result<Option<(Piece, usize)>, Failure>
    ensures gives { GivesStep taken_piece result (escape_step syntax (escape text.now)) }
    ensures bound { IfOk result (λ o. IfSome o (λ x. x.1 ≤ length text.now)) }
    ensures text { IfOk result (λ o. IfSome o (λ x. IsTextPiece x.0)) }
{
    match escape(text) {
        Some((c, taken)) => Ok(Some((Piece::Char(c), taken))),
        None => Err(syntax.fault(ErrorNumber::BadEscape)),
    }
}

// What stands at the front of a word's rest.
#[cycle(parse)]
#[tactic(auto, unfolding(crate::specs::Reading::part_step))]
fn read_piece(
    alloc: Global,
    text: &[u8],
    mode: Mode,
    depth: u32,
) -> Result<Option<(Piece, usize)>, Failure>
    requires { IsText text.now }
    ensures gives { GivesStep taken_piece result (part_step (nest depth) (index depth) mode text.now) }
    ensures bound { IfOk result (λ o. IfSome o (λ x. x.1 < length text.now)) }
    ensures text { IfOk result (λ o. IfSome o (λ x. IsTextPiece x.0)) }
{
    match text {
        [] => Ok(None),
        [first, rest @ ..] => {
            let c = *first;
            if mode.ends_parts(c, rest) {
                return Ok(None);
            }
            if c == b'$' {
                return read_variable(alloc, rest, mode.syntax(), depth);
            }
            if c == b'[' {
                return read_nested(alloc, rest, depth);
            }
            if c == b'\\' {
                return read_escape(rest, mode.syntax());
            }
            Ok(Some((Piece::Char(c), 0)))
        }
    }
}

// The parts that a text begins with.
#[cycle(parse)]
fn read_parts(alloc: Global, text: &[u8], mode: Mode, depth: u32) -> Result<(Parts, usize), Failure>
    requires { IsText text.now }
    ensures gives { GivesRun run_of_parts result (parts_at (nest depth) (index depth) mode text.now) }
    ensures bound { IfOk result (λ x. x.1 ≤ length text.now) }
{
    let mut builder = Builder::new(alloc);
    let mut taken = 0;
    let mut rest = text;
    'pieces: while let Some((piece, more)) = read_piece(alloc, rest, mode, depth)? {
        builder.add(piece)?;
        taken += 1 + more;
        rest = rest.split_at(1 + more).1;
    }
    let parts = Parts::new(alloc, builder.into_parts()?)?;
    Ok((parts, taken))
}

/// The parts behind an opening quote, up to the next quote.
#[cycle(parse)]
#[tactic(auto, unfolding(crate::specs::Reading::quoted_at))]
pub fn read_quoted(
    alloc: Global,
    text: &[u8],
    syntax: Syntax,
    depth: u32,
) -> Result<(Parts, usize), Failure>
    requires { IsText text.now }
    ensures gives { GivesRun run_of_parts result (quoted_at (nest depth) (index depth) syntax text.now) }
    ensures bound { IfOk result (λ x. x.1 ≤ length text.now) }
{
    let (parts, taken) = read_parts(alloc, text, Mode::Quoted(syntax), depth)?;
    if taken < text.len() {
        Ok((parts, taken + 1))
    } else {
        Err(syntax.fault(ErrorNumber::MissingCloseQuote))
    }
}

// A word, which is split as a list where `expand` says so.
#[cycle(parse)]
#[tactic(auto, unfolding(crate::specs::Reading::plain_word, crate::specs::Reading::bare_word))]
fn read_plain(
    alloc: Global,
    text: &[u8],
    place: Place,
    expand: bool,
    depth: u32,
) -> Result<Option<(Option<Word>, usize)>, Failure>
    requires { IsText text.now }
    ensures gives { GivesStep taken_word result (plain_word (nest depth) (index depth) place expand text.now) }
    ensures bound { IfOk result (λ o. IfSome o (λ x. x.1 < length text.now)) }
{
    match text {
        [] => Ok(None),
        [b'"', rest @ ..] => {
            let (parts, taken) = read_quoted(alloc, rest, Syntax::Scripts, depth)?;
            let behind = rest.split_at(taken).1;
            end_word(
                place,
                expand,
                ErrorNumber::TextAfterCloseQuote,
                parts,
                taken,
                behind,
            )
        }
        [b'{', rest @ ..] => {
            let (parts, taken) = read_braced(alloc, rest, Syntax::Scripts)?;
            let behind = rest.split_at(taken).1;
            end_word(
                place,
                expand,
                ErrorNumber::TextAfterCloseBrace,
                parts,
                taken,
                behind,
            )
        }
        _ => {
            let (parts, taken) = read_parts(alloc, text, Mode::Bare(place), depth)?;
            Ok(Some((Some(Word { expand, parts }), taken.saturating_sub(1))))
        }
    }
}

// A word, or `{*}` and a word.
#[cycle(parse)]
#[tactic(auto, unfolding(crate::specs::Reading::prefixed_word))]
fn read_prefixed(
    alloc: Global,
    text: &[u8],
    place: Place,
    depth: u32,
) -> Result<Option<(Option<Word>, usize)>, Failure>
    requires { IsText text.now }
    ensures gives { GivesStep taken_word result (prefixed_word (nest depth) (index depth) place text.now) }
    ensures bound { IfOk result (λ o. IfSome o (λ x. x.1 < length text.now)) }
{
    if !is_expanded(place, text) {
        return read_plain(alloc, text, place, false, depth);
    }
    let behind = text.split_at(3).1;
    match read_plain(alloc, behind, place, true, depth)? {
        Some((word, more)) => Ok(Some((word, 3 + more))),
        None => Ok(None),
    }
}

// The next word, or what separates words.
#[cycle(parse)]
#[tactic(auto, unfolding(crate::specs::Reading::word_step))]
fn read_word(
    alloc: Global,
    text: &[u8],
    place: Place,
    depth: u32,
) -> Result<Option<(Option<Word>, usize)>, Failure>
    requires { IsText text.now }
    ensures gives { GivesStep taken_word result (word_step (nest depth) (index depth) place text.now) }
    ensures bound { IfOk result (λ o. IfSome o (λ x. x.1 < length text.now)) }
{
    match text {
        [] => Ok(None),
        [first, rest @ ..] => {
            let c = *first;
            if is_blank(c) {
                return Ok(Some((None, 0)));
            }
            if is_fold(c, rest) {
                return Ok(Some((None, 1)));
            }
            if place.ends_word(c) {
                return Ok(None);
            }
            read_prefixed(alloc, text, place, depth)
        }
    }
}

// The words of a command.
#[cycle(parse)]
fn read_words(
    alloc: Global,
    text: &[u8],
    place: Place,
    depth: u32,
) -> Result<(Command, usize), Failure>
    requires { IsText text.now }
    ensures gives { GivesRun run_of_command result (words_at (nest depth) (index depth) place text.now) }
    ensures bound { IfOk result (λ x. x.1 ≤ length text.now) }
{
    if is_ready(place, text) {
        let ready = read_ready(alloc, text, place)?;
        return Ok(ready);
    }
    let mut words = Vec::new(alloc);
    let mut taken = 0;
    let mut rest = text;
    'words: while let Some((word, more)) = read_word(alloc, rest, place, depth)? {
        add_word(&mut words, word)?;
        taken += 1 + more;
        rest = rest.split_at(1 + more).1;
    }
    let command = Command::new(alloc, words)?;
    Ok((command, taken))
}

// The next command, or what stands before it.
#[cycle(parse)]
#[tactic(auto, unfolding(crate::specs::Reading::command_step, crate::specs::Reading::words_command))]
fn read_command(
    alloc: Global,
    text: &[u8],
    place: Place,
    depth: u32,
) -> Result<Option<(Option<Command>, usize)>, Failure>
    requires { IsText text.now }
    ensures gives { GivesStep taken_command result (command_step (nest depth) (index depth) place text.now) }
    ensures bound { IfOk result (λ o. IfSome o (λ x. x.1 < length text.now)) }
{
    match text {
        [] => Ok(None),
        [first, rest @ ..] => {
            let c = *first;
            if is_blank(c) || is_separator(c) {
                return Ok(Some((None, 0)));
            }
            if is_fold(c, rest) {
                return Ok(Some((None, 1)));
            }
            if place.ends_script(c) {
                return Ok(None);
            }
            if c == b'#' {
                return Ok(Some((None, comment_len(rest))));
            }
            let (words, taken) = read_words(alloc, text, place, depth)?;
            Ok(Some((Some(words), taken.saturating_sub(1))))
        }
    }
}

// The commands of a script, up to its end or its first fault.
#[cycle(parse)]
fn read_commands(alloc: Global, text: &[u8], place: Place, depth: u32) -> Result<Found, AllocError>
    requires { IsText text.now }
    ensures gives { IfOk result (λ found. commands_at (nest depth) (index depth) place text.now ≡ run_of_script found) }
    ensures bound { IfOk result (λ found. found.taken ≤ length text.now) }
{
    let mut commands = Vec::new(alloc);
    let mut taken = 0;
    let mut rest = text;
    'commands: loop {
        match read_command(alloc, rest, place, depth) {
            Ok(None) => {
                return Ok(Found {
                    commands,
                    fault: None,
                    taken,
                });
            }
            Ok(Some((command, more))) => {
                add_command(&mut commands, command)?;
                taken += 1 + more;
                rest = rest.split_at(1 + more).1;
            }
            Err(Failure::Script(fault)) => {
                return Ok(Found {
                    commands,
                    fault: Some(fault),
                    taken,
                });
            }
            Err(Failure::NoMemory) => return Err(AllocError),
        }
    }
}

// The script of a text, by reading it.
fn read_script(alloc: Global, text: &[u8]) -> Result<Script, AllocError>
    requires { IsText text.now }
    ensures { IfOk result (λ s. s ≡ script_of text.now) }
{
    let found = read_commands(alloc, text, Place::Alone, MAX_DEPTH)?;
    let script = Script::new(alloc, found.commands, found.fault)?;
    Ok(script)
}

/// The script that a text spells: its commands, up to its end or its first fault.
#[tactic(auto, using(crate::proofs::Faults::spells_at))]
pub fn parse(alloc: Global, text: &Txt) -> Result<Script, AllocError>
    ensures script { IfOk result (λ s. s ≡ script_of text.now) }
    ensures spelled { IfOk result (λ s. Spells text.now s) }
{
    let script = read_script(alloc, text.as_bytes())?;
    Ok(script)
}
