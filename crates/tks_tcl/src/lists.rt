//! The commands on lists.
ghost use Rattle.std.specs.Prelude.{◌≡◌, ◌==◌, ◌<◌, ◌≤◌, ◌^◌, ◌++◌, ◌∷◌, [], length, map, filter, not, IfSome, IfOk, OnOk};
ghost use Rattle.std.specs.List.{prefix_len};
ghost use Rattle.tks_text.specs.Text.{IsText};
ghost use Rattle.tks_text.specs.Integer.{is_space};
ghost use Rattle.tks_tcl.specs.Cause.{after, within};
ghost use Rattle.tks_text.specs.Limits.{fits};
ghost use Rattle.tks_tcl.specs.Meets.{GivesSo};
ghost use Rattle.tks_list.specs.Quoting.{joined};
ghost use Rattle.tks_tcl.specs.Lists.{place_text, separated, joined_by, without_end, trimmed, concatenated, is_among, fields, split_at, llength_does, lindex_does, lrange_does, searched, lsearch_does, join_does, split_does};
ghost use Rattle.tks_tcl.specs.View.{list_command_of};

use crate::elements::{elements_joined, lindex_of, llength_of, lrange_of};
use crate::interrupt::{Interrupt, error_about, within, wrong_words};
use crate::room::have_room;
use crate::table::ListTable;
use crate::words::count_text;
use std::alloc::{AllocError, Global};
use tks_list::join;
use tks_text::{ErrorNumber, Limits, Seq, Txt, is_space, space_len};

/// The commands on lists.
#[derive(Clone, Copy)]
pub enum ListCommand {
    Concat,
    Join,
    Lindex,
    List,
    Llength,
    Lrange,
    Lsearch,
    Split,
}

impl ListCommand {
    /// What the command answers, given its first word and the others, where that passes no limit.
    pub fn run(
        self,
        alloc: Global,
        lists: &mut ListTable,
        command: &Txt,
        words: &[Txt],
        limits: &Limits,
    ) -> Result<Txt, Interrupt>
        ensures { GivesSo (λ t. t) result (after (list_command_of self command.now words.now) (within limits.now)) }
    {
        match self {
            ListCommand::Concat => concatenated_within(alloc, words, limits),
            ListCommand::Join => run_join(alloc, lists, command, words, limits),
            ListCommand::Lindex => within(run_lindex(alloc, lists, command, words)?, limits),
            ListCommand::List => list_within(alloc, words, limits),
            ListCommand::Llength => within(run_llength(alloc, lists, command, words)?, limits),
            ListCommand::Lrange => within(run_lrange(alloc, lists, command, words)?, limits),
            ListCommand::Lsearch => within(run_lsearch(alloc, lists, command, words)?, limits),
            ListCommand::Split => within(run_split(alloc, command, words)?, limits),
        }
    }
}

// The text of a list, where it passes no limit. One that is too long by its elements alone isn't made.
fn list_within(alloc: Global, elements: &[Txt], limits: &Limits) -> Result<Txt, Interrupt>
    ensures { GivesSo (λ t. t) result (within limits.now (joined elements.now)) }
{
    if !have_room(elements, 1, limits.text as usize + 1) {
        return Err(Interrupt::TooLarge);
    }
    within(join(alloc, elements)?, limits)
}

// llength l
#[tactic(auto, using(crate::proofs::Causes::tells))]
fn run_llength(
    alloc: Global,
    lists: &mut ListTable,
    command: &Txt,
    words: &[Txt],
) -> Result<Txt, Interrupt>
    ensures { GivesSo (λ t. t) result (llength_does command.now words.now) }
{
    match words {
        [list] => {
            let list = lists.list(alloc, list)?;
            Ok(llength_of(alloc, list.get())?)
        }
        _ => Err(wrong_words(command)),
    }
}

// lindex l i
#[tactic(auto, using(crate::proofs::Causes::tells))]
fn run_lindex(
    alloc: Global,
    lists: &mut ListTable,
    command: &Txt,
    words: &[Txt],
) -> Result<Txt, Interrupt>
    ensures { GivesSo (λ t. t) result (lindex_does command.now words.now) }
{
    match words {
        [list, index] => {
            let list = lists.list(alloc, list)?;
            lindex_of(alloc, list.get(), index)
        }
        _ => Err(wrong_words(command)),
    }
}

// lrange l a b
#[tactic(auto, using(crate::proofs::Causes::tells))]
fn run_lrange(
    alloc: Global,
    lists: &mut ListTable,
    command: &Txt,
    words: &[Txt],
) -> Result<Txt, Interrupt>
    ensures { GivesSo (λ t. t) result (lrange_does command.now words.now) }
{
    match words {
        [list, first, last] => {
            let list = lists.list(alloc, list)?;
            lrange_of(alloc, list.get(), first, last)
        }
        _ => Err(wrong_words(command)),
    }
}

// A place as a text.
fn place_text(alloc: Global, place: Option<usize>) -> Result<Txt, AllocError>
    requires { IfSome place (λ n. n < 2 ^ 63) }
    ensures { IfOk result (λ t. t ≡ place_text place) }
{
    match place {
        Some(place) => count_text(alloc, place),
        None => Txt::from_text(alloc, b"-1"),
    }
}

// The place of an element in a list.
fn searched(alloc: Global, lists: &mut ListTable, list: &Txt, value: &Txt) -> Result<Txt, Interrupt>
    ensures { GivesSo (λ t. t) result (searched list.now value.now) }
{
    let list = lists.list(alloc, list)?;
    let found = list.get().position(value);
    let text = place_text(alloc, found)?;
    Ok(text)
}

// lsearch -exact l v
#[tactic(auto, using(crate::proofs::Causes::tells))]
fn run_lsearch(
    alloc: Global,
    lists: &mut ListTable,
    command: &Txt,
    words: &[Txt],
) -> Result<Txt, Interrupt>
    ensures { GivesSo (λ t. t) result (lsearch_does command.now words.now) }
{
    match words {
        [option, list, value] => {
            if option.as_bytes() == b"-exact".as_slice() {
                searched(alloc, lists, list, value)
            } else {
                Err(error_about(ErrorNumber::UnknownOption, option))
            }
        }
        _ => Err(wrong_words(command)),
    }
}

// Adds texts, each with a separator before it.
fn push_separated(text: &mut Txt, more: &[Txt], separator: &Txt) -> Result<(), AllocError>
    ensures { OnOk result (text.new ≡ text.old ++ separated separator.now more.now) }
{
    for next in more {
        text.append(separator)?;
        text.append(next)?;
    }
    Ok(())
}

// Texts with a separator between them.
fn joined_by(alloc: Global, texts: &[Txt], separator: &Txt) -> Result<Txt, AllocError>
    ensures { IfOk result (λ t. t ≡ joined_by separator.now texts.now) }
{
    let mut text = Txt::new(alloc);
    if let [first, rest @ ..] = texts {
        text.append(first)?;
        push_separated(&mut text, rest, separator)?;
    }
    Ok(text)
}

// Whether texts with a separator between them pass no limit.
fn joined_fits(texts: &[Txt], separator: &Txt, limits: &Limits) -> bool
    ensures { result ≡ fits limits.now (joined_by separator.now texts.now) }
{
    let between = separator.as_bytes().len();
    have_room(texts, between, limits.text as usize + between)
}

/// Texts with a separator between them, where they pass no limit. Where they would, nothing is made.
pub fn joined_within(
    alloc: Global,
    texts: &[Txt],
    separator: &Txt,
    limits: &Limits,
) -> Result<Txt, Interrupt>
    ensures { GivesSo (λ t. t) result (within limits.now (joined_by separator.now texts.now)) }
{
    if !joined_fits(texts, separator, limits) {
        return Err(Interrupt::TooLarge);
    }
    Ok(joined_by(alloc, texts, separator)?)
}

// join l ?sep?
#[tactic(auto, using(crate::proofs::Causes::tells))]
fn run_join(
    alloc: Global,
    lists: &mut ListTable,
    command: &Txt,
    words: &[Txt],
    limits: &Limits,
) -> Result<Txt, Interrupt>
    ensures { GivesSo (λ t. t) result (after (join_does command.now words.now) (within limits.now)) }
{
    match words {
        [list] => {
            let list = lists.list(alloc, list)?;
            let space = Txt::from_text(alloc, b" ")?;
            let text = elements_joined(alloc, list.get(), &space, limits)?;
            Ok(text)
        }
        [list, separator] => {
            let list = lists.list(alloc, list)?;
            let text = elements_joined(alloc, list.get(), separator, limits)?;
            Ok(text)
        }
        _ => Err(wrong_words(command)),
    }
}

// A text without the white space at its end.
#[tactic(auto, using(crate::proofs::Parts::space_falls, crate::proofs::Parts::other_stays))]
fn without_end(text: &[u8]) -> &[u8]
    requires { IsText text.now }
    ensures value { result.now ≡ without_end text.now }
    ensures text { IsText result.now }
{
    let mut rest = text;
    'ends: while let Some((c, front)) = rest.split_last() {
        if !is_space(*c) {
            return rest;
        }
        rest = front;
    }
    rest
}

// A text without the white space around it.
#[tactic(auto, using(tks_text::proofs::Texts::text_drop))]
fn trimmed(text: &Txt) -> &[u8]
    ensures value { result.now ≡ trimmed text.now }
    ensures text { IsText result.now }
{
    let bytes = text.as_bytes();
    without_end(bytes.split_at(space_len(bytes)).1)
}

// Adds a text that isn't empty.
fn push_some(list: &mut Seq<Txt>, text: Txt) -> Result<(), AllocError>
    ensures { OnOk result (list.new ≡ list.old ++ filter (λ t. not (length t == 0)) (text ∷ [])) }
{
    if !text.is_empty() {
        list.push(text)?;
    }
    Ok(())
}

// The texts without their outer white space, those that are not empty then, with spaces between them.
fn concatenated(alloc: Global, words: &[Txt]) -> Result<Txt, AllocError>
    ensures { IfOk result (λ t. t ≡ concatenated words.now) }
{
    let mut kept = Seq::new(alloc);
    for word in words {
        push_some(&mut kept, Txt::from_text(alloc, trimmed(word))?)?;
    }
    let space = Txt::from_text(alloc, b" ")?;
    joined_by(alloc, kept.as_slice(), &space)
}

// Whether these texts pass no limit as `concatenated` joins them.
fn concatenated_fits(words: &[Txt], limits: &Limits) -> bool
    ensures { result ≡ fits limits.now (concatenated words.now) }
{
    let mut left = limits.text as usize + 1;
    for word in words {
        let len = trimmed(word).len();
        if len > 0 {
            if len >= left {
                return false;
            }
            left -= len + 1;
        }
    }
    true
}

/// The texts without their outer white space, those that are not empty then, with spaces between them, where that passes no limit.
/// Where it would, nothing is made.
pub fn concatenated_within(alloc: Global, words: &[Txt], limits: &Limits) -> Result<Txt, Interrupt>
    ensures { GivesSo (λ t. t) result (within limits.now (concatenated words.now)) }
{
    if !concatenated_fits(words, limits) {
        return Err(Interrupt::TooLarge);
    }
    Ok(concatenated(alloc, words)?)
}

// How many bytes stand before the first separator.
fn field_len(separators: &[u8], text: &[u8]) -> usize
    ensures value { result ≡ prefix_len (λ c. not (is_among separators.now c)) text.now }
    ensures bound { result ≤ length text.now }
{
    text.iter().take_while(|c| !separators.contains(*c)).count()
}

// The fields of a text between separators.
#[tactic(auto, using(crate::proofs::Parts::field_ends, crate::proofs::Parts::last_field, tks_text::proofs::Texts::text_drop))]
fn fields(alloc: Global, separators: &[u8], text: &[u8]) -> Result<Seq<Txt>, AllocError>
    requires { IsText text.now }
    ensures { IfOk result (λ l. l ≡ fields separators.now text.now) }
{
    let mut list = Seq::new(alloc);
    let mut rest = text;
    let mut len = field_len(separators, rest);
    'fields: while len < rest.len() {
        list.push(Txt::from_text(alloc, &rest[..len])?)?;
        rest = rest.split_at(len + 1).1;
        len = field_len(separators, rest);
    }
    list.push(Txt::from_text(alloc, rest)?)?;
    Ok(list)
}

// The characters of a text, each as a text.
fn characters(alloc: Global, text: &Txt) -> Result<Seq<Txt>, AllocError>
    ensures { IfOk result (λ l. l ≡ map (λ c. c ∷ []) text.now) }
{
    let mut list = Seq::new(alloc);
    for c in text.as_bytes() {
        let mut character = Txt::new(alloc);
        character.push_byte(*c)?;
        list.push(character)?;
    }
    Ok(list)
}

// What separators part a text into.
fn split_at(alloc: Global, separators: &[u8], text: &Txt) -> Result<Seq<Txt>, AllocError>
    ensures { IfOk result (λ l. l ≡ split_at separators.now text.now) }
{
    if text.is_empty() {
        return Ok(Seq::new(alloc));
    }
    if separators.is_empty() {
        return characters(alloc, text);
    }
    fields(alloc, separators, text.as_bytes())
}

// split t ?chars?
#[tactic(auto, using(crate::proofs::Causes::tells))]
fn run_split(alloc: Global, command: &Txt, words: &[Txt]) -> Result<Txt, Interrupt>
    ensures { GivesSo (λ t. t) result (split_does command.now words.now) }
{
    match words {
        [text] => {
            let list = split_at(alloc, b" \t\n", text)?;
            Ok(join(alloc, list.as_slice())?)
        }
        [text, separators] => {
            let list = split_at(alloc, separators.as_bytes(), text)?;
            Ok(join(alloc, list.as_slice())?)
        }
        _ => Err(wrong_words(command)),
    }
}
