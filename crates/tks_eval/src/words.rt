//! Words of commands: what stands in them is put together, and scripts in them are run.
ghost use Rattle.std.specs.Prelude.{true, ◌≡◌, ◌*◌, ◌+◌, [], ◌++◌, ◌∷◌, IfOk, IfSome, OnOk, Ok};
ghost use Rattle.tks_parse.specs.Tree.{nested, no_part, parts_size, words_size};
ghost use Rattle.tks_parse.specs.View.{words_of, parts_of};
ghost use Rattle.tks_eval.specs.Outcome.{appended};
ghost use Rattle.tks_eval.specs.Evaluation.{element_name, with_value, words_in, parts_do, made_text, words_do};
ghost use Rattle.tks_tcl.specs.Cause.{after};
ghost use Rattle.tks_tcl.specs.Meets.{GivesSo};
ghost use Rattle.tks_eval.specs.Filling.{IsWord};
ghost use Rattle.tks_eval.specs.Machine.{after_frame, ended, level_of, done_by, frame_weight, ComesSo, DoesSo, FallsTo, FallsBelow};
ghost use Rattle.tks_eval.specs.declared.frame.Frame.TheVariants as frame;

use crate::expressions::scalar;
use crate::frame::{Came, Ending, Frame, Opens};
use crate::halt::Halt;
use crate::host::Host;
use crate::machine::{Machine, NEAR, before, waiting};
use crate::made::MadeWords;
use std::alloc::{AllocError, Global};
use std::rc::Rc;
use tks_parse::{Part, Parts, Remaining, Script, Word};
use tks_tcl::{Interrupt, list_in};
use tks_text::{Limits, Txt, fits};
use tks_vars::Vars;

// Adds to a text that is being made.
fn grow(made: &mut Txt, more: &Txt, limits: &Limits) -> Result<(), Interrupt>
    ensures { GivesSo (λ _. made.new) result (appended limits.now made.old more.now) }
{
    if more.len() > (limits.text as usize).saturating_sub(made.len()) {
        return Err(Interrupt::TooLarge);
    }
    made.append(more)?;
    Ok(())
}

// A text that stands alone.
#[inline(always)]
fn alone(text: Txt, limits: &Limits) -> Result<Txt, Interrupt>
    ensures { GivesSo (λ t. t) result (appended limits.now [] text) }
{
    if text.len() > limits.text as usize {
        return Err(Interrupt::TooLarge);
    }
    Ok(text)
}

// A text that is being made, with more behind it. Where nothing is made yet, it is what comes.
fn joined(made: Txt, more: Txt, limits: &Limits) -> Result<Txt, Interrupt>
    ensures { GivesSo (λ t. t) result (appended limits.now made more) }
{
    if made.is_empty() {
        return alone(more, limits);
    }
    let mut made = made;
    grow(&mut made, &more, limits)?;
    Ok(made)
}

// Adds the value of a variable to a text that is being made.
fn grow_by_value(
    made: &mut Txt,
    name: &Txt,
    variables: &Vars,
    limits: &Limits,
) -> Result<(), Interrupt>
    ensures { GivesSo (λ _. made.new) result (with_value limits.now variables.now name.now made.old) }
{
    let value = variables.get(name)?;
    grow(made, value, limits)
}

// The name of an element.
fn element_name(name: &Txt, index: &Txt) -> Result<Txt, AllocError>
    ensures { IfOk result (λ t. t ≡ element_name name.now index.now) }
{
    let mut whole = name.try_clone()?;
    whole.push_byte(b'(')?;
    whole.append(index)?;
    whole.push_byte(b')')?;
    Ok(whole)
}

// Adds the words that a word's text stands for.
#[inline(always)]
fn add_words(alloc: Global, words: &mut MadeWords, expand: bool, text: Txt) -> Result<(), Interrupt>
    ensures { GivesSo (λ _. words.new) result (after (words_in expand text) (λ more. Ok (words.old ++ more))) }
{
    if !expand {
        words.push(text)?;
        return Ok(());
    }
    let more = list_in(alloc, &text)?;
    append(words, more.as_slice())?;
    Ok(())
}

// Adds words behind others.
fn append(words: &mut MadeWords, more: &[Txt]) -> Result<(), AllocError>
    ensures { OnOk result (words.new ≡ words.old ++ more.now) }
{
    for word in more {
        words.push(word.try_clone()?)?;
    }
    Ok(())
}

/// The text that a word is, where it lies: its characters, or a variable's value.
#[tactic(auto, using(crate::proofs::Lent::filled_one))]
#[inline(always)]
pub fn lent<'a>(word: &'a Word, variables: &'a Vars, limits: &Limits) -> Option<&'a Txt>
    ensures { IfSome result (λ t. IsWord limits.now variables.now word.now t.now) }
{
    if word.expand {
        return None;
    }
    let [part] = word.parts.as_slice() else {
        return None;
    };
    match part {
        Part::Text(text) if fits(text, limits) => Some(text),
        Part::Variable(name, None) => match scalar(name, variables, limits) {
            Ok(value) => Some(value),
            Err(_) => None,
        },
        _ => None,
    }
}

// The script whose result is all that parts make.
#[inline(always)]
fn lone_script(parts: &Parts) -> Option<&Script>
    ensures { IfSome result (λ s. parts.now ≡ nested s.now no_part) }
{
    match parts.as_slice() {
        [Part::Nested(script)] => Some(script),
        _ => None,
    }
}

// Nothing that is left of parts.
fn no_parts(alloc: Global) -> Result<Remaining<Part>, AllocError>
    ensures { IfOk result (λ parts. parts ≡ []) }
{
    match Rc::new(alloc, Vec::new(alloc)) {
        Ok(none) => Ok(Remaining::all(none)),
        Err(_) => Err(AllocError),
    }
}

impl Machine {
    /// Makes the text of parts, behind what is made of it.
    #[cycle(run)]
    pub fn make_text<H: Host>(
        &mut self,
        alloc: Global,
        host: &mut H,
        made: Txt,
        parts: Remaining<Part>,
        near: u32,
    ) -> Result<Came, Halt>
        ensures same_place { H.place host.new ≡ H.place host.old }
        ensures same_limits { self.new.limits ≡ self.old.limits }
        ensures falls { FallsTo result (4 * parts_size (parts_of parts)) self.old.fuel self.new.fuel }
        ensures comes { DoesSo H.meaning true (parts_do self.old.limits (level_of H.meaning self.old) (parts_of parts) made) (H.state host.old) self.old result (H.state host.new) self.new }
    {
        let mut made = made;
        let mut parts = parts;
        'part: while let Some(part) = parts.first() {
            match part {
                Part::Text(text) => {
                    grow(&mut made, text, &self.limits)?;
                    parts.skip();
                }
                Part::Variable(name, None) => {
                    grow_by_value(&mut made, name, &self.variables, &self.limits)?;
                    parts.skip();
                }
                Part::Variable(name, Some(index)) => {
                    let name = name.try_clone()?;
                    let index = self.make_index(alloc, host, index, near)?;
                    parts.skip();
                    match index {
                        Came::Waits(waiting) => {
                            return Ok(Came::Waits(before(
                                waiting,
                                Frame::Element { name, made, parts },
                            )?));
                        }
                        Came::Ended(end) => {
                            if end.code != 0 {
                                return Ok(Came::Ended(end));
                            }
                            let name = element_name(&name, &end.text)?;
                            grow_by_value(&mut made, &name, &self.variables, &self.limits)?;
                        }
                    }
                }
                Part::Nested(script) => {
                    let result = self.run_script(alloc, host, script, true, near)?;
                    parts.skip();
                    match result {
                        Came::Waits(waiting) => {
                            return Ok(Came::Waits(before(waiting, Frame::Nested { made, parts })?));
                        }
                        Came::Ended(end) => {
                            if end.code != 0 {
                                return Ok(Came::Ended(end));
                            }
                            made = joined(made, end.text, &self.limits)?;
                        }
                    }
                }
            }
        }
        Ok(Came::Ended(Ending::with(made)))
    }

    /// Makes the text of parts. The result of a script that is all of them is that text as it is.
    #[cycle(run)]
    #[inline(always)]
    pub fn make_parts<H: Host>(
        &mut self,
        alloc: Global,
        host: &mut H,
        parts: &Parts,
        near: u32,
    ) -> Result<Came, Halt>
        ensures same_place { H.place host.new ≡ H.place host.old }
        ensures same_limits { self.new.limits ≡ self.old.limits }
        ensures falls { FallsTo result (4 * parts_size parts.now) self.old.fuel self.new.fuel }
        ensures comes { DoesSo H.meaning true (made_text self.old.limits (level_of H.meaning self.old) parts.now) (H.state host.old) self.old result (H.state host.new) self.new }
    {
        let Some(script) = lone_script(parts) else {
            let parts = parts.remaining()?;
            return self.make_text(alloc, host, Txt::new(alloc), parts, near);
        };
        match self.run_script(alloc, host, script, true, near)? {
            Came::Waits(waiting) => {
                let made = Txt::new(alloc);
                let parts = no_parts(alloc)?;
                Ok(Came::Waits(before(waiting, Frame::Nested { made, parts })?))
            }
            Came::Ended(end) => {
                if end.code != 0 {
                    return Ok(Came::Ended(end));
                }
                Ok(Came::Ended(Ending::with(alone(end.text, &self.limits)?)))
            }
        }
    }

    // Makes the index of an element.
    #[cycle(run)]
    fn make_index<H: Host>(
        &mut self,
        alloc: Global,
        host: &mut H,
        parts: &Parts,
        near: u32,
    ) -> Result<Came, Halt>
        ensures same_place { H.place host.new ≡ H.place host.old }
        ensures same_limits { self.new.limits ≡ self.old.limits }
        ensures falls { FallsTo result (4 * parts_size parts.now + 1) self.old.fuel self.new.fuel }
        ensures comes { DoesSo H.meaning true (parts_do self.old.limits (level_of H.meaning self.old) parts.now []) (H.state host.old) self.old result (H.state host.new) self.new }
    {
        let parts = parts.remaining()?;
        if near == 0 {
            return Ok(Came::Waits(waiting(alloc, Opens::Index(parts))?));
        }
        self.make_text(alloc, host, Txt::new(alloc), parts, near - 1)
    }

    /// Makes the words that are left of a command, and runs it.
    #[cycle(run)]
    pub fn make_words<H: Host>(
        &mut self,
        alloc: Global,
        host: &mut H,
        words: MadeWords,
        rest: Remaining<Word>,
        asked: bool,
        near: u32,
    ) -> Result<Came, Halt>
        ensures same_place { H.place host.new ≡ H.place host.old }
        ensures same_limits { self.new.limits ≡ self.old.limits }
        ensures falls { FallsTo result (4 * words_size (words_of rest)) self.old.fuel self.new.fuel }
        ensures comes { DoesSo H.meaning asked (words_do H.meaning self.old.limits (level_of H.meaning self.old) (words_of rest) words) (H.state host.old) self.old result (H.state host.new) self.new }
    {
        let mut words = words;
        let mut rest = rest;
        'word: while let Some(word) = rest.first() {
            if let Some(text) = lent(word, &self.variables, &self.limits) {
                words.push(text.try_clone()?)?;
                rest.skip();
                continue 'word;
            }
            let expand = word.expand;
            let came = self.make_parts(alloc, host, &word.parts, near)?;
            rest.skip();
            match came {
                Came::Waits(waiting) => {
                    let frame = Frame::Command {
                        words,
                        expand,
                        rest,
                    };
                    return Ok(Came::Waits(before(waiting, frame)?));
                }
                Came::Ended(end) => {
                    if end.code != 0 {
                        return Ok(Came::Ended(end));
                    }
                    add_words(alloc, &mut words, expand, end.text)?;
                }
            }
        }
        let came = self.do_command(alloc, host, words.as_slice(), asked, near);
        self.table.keep_room(words);
        came
    }

    /// Goes on with a word behind a script in it.
    pub fn after_nested<H: Host>(
        &mut self,
        alloc: Global,
        host: &mut H,
        made: Txt,
        parts: Remaining<Part>,
        end: Ending,
    ) -> Result<Came, Halt>
        ensures same_place { H.place host.new ≡ H.place host.old }
        ensures same_limits { self.new.limits ≡ self.old.limits }
        ensures falls { FallsBelow result (frame_weight (frame.Nested made parts)) self.old.fuel self.new.fuel }
        ensures comes { ComesSo H.meaning true self.old.left (after_frame H.meaning self.old.limits self.old.left (frame.Nested made parts) (done_by (ended end) (H.state host.old) self.old)) result self.new (H.state host.new) }
    {
        if end.code != 0 {
            return Ok(Came::Ended(end));
        }
        let made = joined(made, end.text, &self.limits)?;
        self.make_text(alloc, host, made, parts, NEAR)
    }

    /// Goes on with a word behind the index of an element.
    pub fn after_index<H: Host>(
        &mut self,
        alloc: Global,
        host: &mut H,
        name: Txt,
        made: Txt,
        parts: Remaining<Part>,
        end: Ending,
    ) -> Result<Came, Halt>
        ensures same_place { H.place host.new ≡ H.place host.old }
        ensures same_limits { self.new.limits ≡ self.old.limits }
        ensures falls { FallsBelow result (frame_weight (frame.Element name made parts)) self.old.fuel self.new.fuel }
        ensures comes { ComesSo H.meaning true self.old.left (after_frame H.meaning self.old.limits self.old.left (frame.Element name made parts) (done_by (ended end) (H.state host.old) self.old)) result self.new (H.state host.new) }
    {
        if end.code != 0 {
            return Ok(Came::Ended(end));
        }
        let name = element_name(&name, &end.text)?;
        let mut made = made;
        grow_by_value(&mut made, &name, &self.variables, &self.limits)?;
        self.make_text(alloc, host, made, parts, NEAR)
    }

    /// Goes on with the words of a command behind one that was made.
    pub fn after_word<H: Host>(
        &mut self,
        alloc: Global,
        host: &mut H,
        words: MadeWords,
        expand: bool,
        rest: Remaining<Word>,
        end: Ending,
    ) -> Result<Came, Halt>
        ensures same_place { H.place host.new ≡ H.place host.old }
        ensures same_limits { self.new.limits ≡ self.old.limits }
        ensures falls { FallsBelow result (frame_weight (frame.Command words expand rest)) self.old.fuel self.new.fuel }
        ensures comes { ComesSo H.meaning true self.old.left (after_frame H.meaning self.old.limits self.old.left (frame.Command words expand rest) (done_by (ended end) (H.state host.old) self.old)) result self.new (H.state host.new) }
    {
        if end.code != 0 {
            return Ok(Came::Ended(end));
        }
        let mut words = words;
        add_words(alloc, &mut words, expand, end.text)?;
        self.make_words(alloc, host, words, rest, true, NEAR)
    }
}
