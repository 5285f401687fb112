//! Commands whose words are lent, and those that run no script.
ghost use Rattle.std.specs.Prelude.{◌≡◌, true, IfSome, Some, option_map};
ghost use Rattle.tks_parse.specs.View.{words_of};
ghost use Rattle.tks_eval.specs.Filling.{IsWord, IsListWord};
ghost use Rattle.tks_eval.specs.Machine.{PlainlySo, AnswersWords};
ghost use Rattle.tks_tcl.specs.Plain.{plain};
ghost use Rattle.tks_tcl.specs.View.{elements_of};

use crate::frame::Ending;
use crate::words::lent;
use std::alloc::Global;
use tks_list::{LEAST_KEPT, read};
use tks_parse::{Part, Word};
use tks_tcl::{
    Lent, ListTable, Quiet, Stop, is_word, lindex_answer, llength_answer, lrange_answer, plain,
    plain_quietly, return_answer,
};
use tks_text::{Limits, Txt};
use tks_vars::Vars;

// The list that a word splits into: that of a short text, which is read, or the one that is kept beside a variable's value.
fn lent_list(alloc: Global, word: &Word, variables: &mut Vars, limits: &Limits) -> Option<Lent>
    ensures some { IfSome result (λ l. IsListWord limits.now variables.old word.now (elements_of l)) }
    ensures same { variables.new ≡ variables.old }
{
    let text = lent(word, variables, limits)?;
    if text.len() < LEAST_KEPT {
        return match read(alloc, text) {
            Ok(list) => Some(Lent::Read(list)),
            Err(_) => None,
        };
    }
    let [Part::Variable(name, None)] = word.parts.as_slice() else {
        return None;
    };
    match variables.list(name) {
        Some(list) => Some(Lent::Kept(list)),
        None => None,
    }
}

// Whether a word is this one.
fn is_lent(word: &Word, variables: &Vars, name: &[u8], limits: &Limits) -> bool
    ensures { result ≡ true → IsWord limits.now variables.now word.now name.now }
{
    match lent(word, variables, limits) {
        Some(text) => is_word(text.as_bytes(), name),
        None => false,
    }
}

// The answer of a `lindex` of a list that is lent.
fn lindex_at_once(
    alloc: Global,
    words: &[Word],
    variables: &mut Vars,
    limits: &Limits,
) -> Option<Txt>
    ensures some { IfSome result (λ t. AnswersWords limits.now variables.old (words_of words.now) 0 t) }
    ensures same { variables.new ≡ variables.old }
{
    let [command, list, index] = words else {
        return None;
    };
    if !is_lent(command, variables, b"lindex", limits) {
        return None;
    }
    let list = lent_list(alloc, list, variables, limits)?;
    let index = lent(index, variables, limits)?;
    lindex_answer(alloc, list.get(), index, limits)
}

// The same of a `llength`.
fn llength_at_once(
    alloc: Global,
    words: &[Word],
    variables: &mut Vars,
    limits: &Limits,
) -> Option<Txt>
    ensures some { IfSome result (λ t. AnswersWords limits.now variables.old (words_of words.now) 0 t) }
    ensures same { variables.new ≡ variables.old }
{
    let [command, list] = words else {
        return None;
    };
    if !is_lent(command, variables, b"llength", limits) {
        return None;
    }
    let list = lent_list(alloc, list, variables, limits)?;
    llength_answer(alloc, list.get(), limits)
}

// The same of a `lrange`.
fn lrange_at_once(
    alloc: Global,
    words: &[Word],
    variables: &mut Vars,
    limits: &Limits,
) -> Option<Txt>
    ensures some { IfSome result (λ t. AnswersWords limits.now variables.old (words_of words.now) 0 t) }
    ensures same { variables.new ≡ variables.old }
{
    let [command, list, first, last] = words else {
        return None;
    };
    if !is_lent(command, variables, b"lrange", limits) {
        return None;
    }
    let list = lent_list(alloc, list, variables, limits)?;
    let first = lent(first, variables, limits)?;
    let last = lent(last, variables, limits)?;
    lrange_answer(alloc, list.get(), first, last, limits)
}

// The text that a `return` ends with.
fn return_at_once(words: &[Word], variables: &Vars, limits: &Limits) -> Option<Txt>
    ensures { IfSome result (λ t. AnswersWords limits.now variables.now (words_of words.now) 2 t) }
{
    let [command, text] = words else {
        return None;
    };
    if !is_lent(command, variables, b"return", limits) {
        return None;
    }
    let text = lent(text, variables, limits)?;
    return_answer(text, limits)
}

// Whether a word may be the name of a command that is answered so. It is asked first, since most are none of them.
fn may_answer(command: &Word) -> bool {
    match command.parts.as_slice() {
        [Part::Text(name)] => matches!(name.as_bytes(), [b'l' | b'r', ..]),
        _ => false,
    }
}

// An end with this code and this text, if there is one.
fn ended(code: u8, text: Option<Txt>) -> Option<Ending>
    ensures { result ≡ option_map (λ text. record { code = code; text = text }) text }
{
    let text = text?;
    Some(Ending { code, text })
}

/// The end of a command of words that are lent: of a list that is read, or of a `return`. Nothing is copied as a word.
#[inline(always)]
pub fn answer_at_once(
    alloc: Global,
    words: &[Word],
    variables: &mut Vars,
    limits: &Limits,
) -> Option<Ending>
    ensures some { IfSome result (λ end. AnswersWords limits.now variables.old (words_of words.now) end.code end.text) }
    ensures same { variables.new ≡ variables.old }
{
    if !words.first().is_some_and(may_answer) {
        return None;
    }
    answer(alloc, words, variables, limits)
}

// The same of a command that may be one of those. It stands apart in what is compiled, since whoever runs a command would clear
// the places for its parts each time.
#[inline(never)]
fn answer(alloc: Global, words: &[Word], variables: &mut Vars, limits: &Limits) -> Option<Ending>
    ensures some { IfSome result (λ end. AnswersWords limits.now variables.old (words_of words.now) end.code end.text) }
    ensures same { variables.new ≡ variables.old }
{
    match words {
        [_, _, _, _] => ended(0, lrange_at_once(alloc, words, variables, limits)),
        [_, _, _] => ended(0, lindex_at_once(alloc, words, variables, limits)),
        [_, _] => match return_at_once(words, variables, limits) {
            Some(text) => Some(Ending { code: 2, text }),
            None => ended(0, llength_at_once(alloc, words, variables, limits)),
        },
        _ => None,
    }
}

/// The end of a command of these words that runs no script. Where the text of an end by code 0 isn't asked for, it may be
/// another one.
pub fn plain_end(
    alloc: Global,
    lists: &mut ListTable,
    variables: &mut Vars,
    words: &[Txt],
    asked: bool,
    limits: &Limits,
) -> Result<Option<Ending>, Stop>
    ensures { PlainlySo asked result variables.old variables.new (plain limits.now words.now variables.old) }
{
    if asked {
        let Some((code, text)) = plain(alloc, lists, variables, words, limits)? else {
            return Ok(None);
        };
        return Ok(Some(Ending { code, text }));
    }
    match plain_quietly(alloc, lists, variables, words, limits)? {
        None => Ok(None),
        Some(Quiet::Done) => Ok(Some(Ending::silent(alloc))),
        Some(Quiet::Ended(code, text)) => Ok(Some(Ending { code, text })),
    }
}
