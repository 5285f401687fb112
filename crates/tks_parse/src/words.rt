//! The words of a command.
ghost use Rattle.std.specs.Prelude.{◌≡◌, IfOk, IfSome, OnOk};
ghost use Rattle.tks_parse.specs.Class.{is_expanded};
ghost use Rattle.tks_parse.specs.Fault.{fault_of};
ghost use Rattle.tks_parse.specs.Gives.{GivesStep, taken_word, words_of_option};
ghost use Rattle.tks_parse.specs.Reading.{ended_word};
ghost use Rattle.tks_parse.specs.Tree.{join_words};
ghost use Rattle.tks_parse.specs.View.{words_of};

use crate::fault::fault;
use crate::mode::Place;
use crate::tree::{Parts, Word};
use std::alloc::AllocError;
use tks_text::{ErrorNumber, Failure};

/// Whether a text begins with `{*}` and a word behind it.
pub fn is_expanded(place: Place, text: &[u8]) -> bool
    ensures { result ≡ is_expanded place text.now }
{
    match text {
        [b'{', b'*', b'}', rest @ ..] => !place.ends_word_at(rest),
        _ => false,
    }
}

/// A word in braces or quotes, whose close takes it to this many bytes, before the rest of the text.
pub fn end_word(
    place: Place,
    expand: bool,
    text_after: ErrorNumber,
    parts: Parts,
    taken: usize,
    rest: &[u8],
) -> Result<Option<(Option<Word>, usize)>, Failure>
    ensures gives { GivesStep taken_word result (ended_word place expand (fault_of text_after) parts taken rest.now) }
    ensures taken { IfOk result (λ o. IfSome o (λ x. x.1 ≡ taken)) }
{
    if !place.ends_word_at(rest) {
        return Err(fault(text_after));
    }
    Ok(Some((Some(Word { expand, parts }), taken)))
}

/// Adds a word that is there.
#[tactic(auto, using(crate::proofs::Joins::words_push, crate::proofs::Joins::join_words_none))]
pub fn add_word(words: &mut Vec<Word>, word: Option<Word>) -> Result<(), AllocError>
    ensures { OnOk result (words_of words.new.items ≡ join_words (words_of words.old.items) (words_of_option word)) }
{
    if let Some(word) = word {
        words.push(word)?;
    }
    Ok(())
}
