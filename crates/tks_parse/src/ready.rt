//! Commands whose words all stand for themselves, read without parts.
ghost use Rattle.std.specs.Prelude.{◌≡◌, ◌<◌, ◌≤◌, ◌+◌, true, not, drop, length, IfOk, IfSome, OnOk};
ghost use Rattle.std.specs.List.{prefix_len};
ghost use Rattle.tks_text.specs.Text.{IsText};
ghost use Rattle.tks_parse.specs.Class.{ends_word};
ghost use Rattle.tks_parse.specs.Gives.{run_of_command};
ghost use Rattle.tks_parse.specs.Ready.{is_simple, is_ready, ready_option, GivesReady, ReadsWords};
ghost use Rattle.tks_parse.specs.Tree.{join_words};
ghost use Rattle.tks_parse.specs.View.{ready_words};

use crate::mode::Place;
use crate::tree::Command;
use std::alloc::{AllocError, Global};
use tks_text::{Txt, is_blank};

// Whether a character begins nothing: no substitution, no fold, no quoted or braced word.
fn is_simple(c: u8) -> bool
    ensures { result ≡ is_simple c }
{
    c != b'$' && c != b'[' && c != b'\\' && c != b'"' && c != b'{'
}

/// Whether the words of the command at the front stand for themselves, since nothing in it begins anything else.
pub fn is_ready(place: Place, text: &[u8]) -> bool
    ensures { result ≡ is_ready place text.now }
{
    for c in text {
        if place.ends_command(*c) {
            return true;
        }
        if !is_simple(*c) {
            return false;
        }
    }
    true
}

// How many characters of a bare word a text begins with.
fn word_len(place: Place, text: &[u8]) -> usize
    ensures value { result ≡ prefix_len (λ c. not (ends_word place c)) text.now }
    ensures bound { result ≤ length text.now }
{
    text.iter().take_while(|c| !place.ends_word(**c)).count()
}

// The next word, or what separates words.
fn ready_word(place: Place, text: &[u8]) -> Option<(Option<&[u8]>, usize)>
    requires text { IsText text.now }
    requires ready { is_ready place text.now ≡ true }
    ensures gives { GivesReady place result text.now }
    ensures bound { IfSome result (λ x. x.1 < length text.now) }
    ensures behind { IfSome result (λ x. is_ready place (drop (1 + x.1) text.now) ≡ true) }
    ensures text { IfSome result (λ x. IfSome x.0 (λ word. IsText word.now)) }
{
    match text {
        [] => None,
        [first, ..] => {
            let c = *first;
            if is_blank(c) {
                return Some((None, 0));
            }
            if place.ends_word(c) {
                return None;
            }
            let len = word_len(place, text);
            let (word, _) = text.split_at(len);
            Some((Some(word), len.saturating_sub(1)))
        }
    }
}

// Adds a word that is there.
#[tactic(auto, using(crate::proofs::Readied::ready_more, crate::proofs::Joins::join_words_none))]
fn add_text(texts: &mut Vec<Txt>, alloc: Global, word: Option<&[u8]>) -> Result<(), AllocError>
    requires { IfSome word (λ text. IsText text.now) }
    ensures { OnOk result (ready_words texts.new.items ≡ join_words (ready_words texts.old.items) (ready_option word.entry)) }
{
    if let Some(word) = word {
        texts.push(Txt::from_text(alloc, word)?)?;
    }
    Ok(())
}

/// The words of a command that all stand for themselves, and how many bytes they take.
pub fn read_ready(alloc: Global, text: &[u8], place: Place) -> Result<(Command, usize), AllocError>
    requires text { IsText text.now }
    requires ready { is_ready place text.now ≡ true }
    ensures gives { IfOk result (λ x. ReadsWords place text.now (run_of_command x)) }
    ensures bound { IfOk result (λ x. x.1 ≤ length text.now) }
{
    let mut texts = Vec::new(alloc);
    let mut taken = 0;
    let mut rest = text;
    'words: while let Some((word, more)) = ready_word(place, rest) {
        add_text(&mut texts, alloc, word)?;
        taken += 1 + more;
        rest = rest.split_at(1 + more).1;
    }
    let command = Command::ready(alloc, texts)?;
    Ok((command, taken))
}
