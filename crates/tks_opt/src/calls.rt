//! The subcommands that all widgets have.
ghost use Rattle.std.specs.Prelude.{◌≡◌, OnErr};
ghost use Rattle.tks_text.specs.Fault.{Gives, fault_about, TellsSo};
ghost use Rattle.tks_text.specs.declared.fault.ErrorNumber.TheVariants.{WrongWords};
ghost use Rattle.tks_opt.specs.Calls.{are_pairs, configure_does, cget_does, subcommand_does, too_few, called};

use crate::options::Options;
use crate::said::Said;
use tks_text::{ErrorNumber, Failure, ScriptFault, Txt};

/// The error about a wrong number of words, or an unknown subcommand: about the window's path.
pub fn wrong_words(path: &Txt) -> Failure
    ensures { TellsSo (fault_about WrongWords path.now) result }
{
    Failure::about(ErrorNumber::WrongWords, path)
}

/// The error about too few words of a widget's whole command: about the window's path, where that is there.
pub fn too_few_words(words: &[Txt]) -> Failure
    ensures { TellsSo (too_few words.now) result }
{
    match words {
        [] => Failure::Script(ScriptFault {
            number: ErrorNumber::WrongWords,
            subject: None,
        }),
        [path, ..] => wrong_words(path),
    }
}

/// Whether words are pairs, one or more.
pub fn are_pairs(words: &[Txt]) -> bool
    ensures { result ≡ are_pairs words.now }
{
    2 <= words.len() && words.len() % 2 == 0
}

impl Options {
    // `configure option value ..`.
    fn configure_words(&mut self, path: &Txt, words: &[Txt]) -> Result<Said, Failure>
        ensures value { Gives (λ said. (said, self.new)) result (configure_does path.now words.now self.old) }
        ensures err { OnErr result (self.new ≡ self.old) }
        ensures class { self.new.class ≡ self.old.class }
    {
        if !are_pairs(words) {
            return Err(wrong_words(path));
        }
        self.configure(words)?;
        Ok(Said::Text(self.empty_text()))
    }

    // `cget option`.
    fn cget_words(&self, path: &Txt, words: &[Txt]) -> Result<Said, Failure>
        ensures { Gives (λ said. (said, self.now)) result (cget_does path.now words.now self.now) }
    {
        match words {
            [name] => Ok(Said::Text(self.cget(name)?.try_clone()?)),
            _ => Err(wrong_words(path)),
        }
    }

    /// What `configure` or `cget` comes to, with the words behind it. Another subcommand is an error about the path.
    pub fn subcommand(&mut self, path: &Txt, name: &Txt, words: &[Txt]) -> Result<Said, Failure>
        ensures value { Gives (λ said. (said, self.new)) result (subcommand_does path.now name.now words.now self.old) }
        ensures err { OnErr result (self.new ≡ self.old) }
        ensures class { self.new.class ≡ self.old.class }
    {
        let name = name.as_bytes();
        if name == b"configure".as_slice() {
            let said = self.configure_words(path, words)?;
            Ok(said)
        } else if name == b"cget".as_slice() {
            let said = self.cget_words(path, words)?;
            Ok(said)
        } else {
            Err(wrong_words(path))
        }
    }

    /// What the words of a whole command come to, the window's path first: `configure` with pairs of options and
    /// values, or `cget` with an option. Another subcommand, and a wrong number of words, are errors about the
    /// path.
    pub fn call(&mut self, words: &[Txt]) -> Result<Said, Failure>
        ensures value { Gives (λ said. (said, self.new)) result (called self.old words.now) }
        ensures err { OnErr result (self.new ≡ self.old) }
        ensures class { self.new.class ≡ self.old.class }
    {
        let [path, name, rest @ ..] = words else {
            return Err(too_few_words(words));
        };
        let said = self.subcommand(path, name, rest)?;
        Ok(said)
    }
}
