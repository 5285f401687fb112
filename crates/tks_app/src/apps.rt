//! Commands by name.
ghost use Rattle.std.specs.Prelude.{◌≡◌, ◌≤◌, ◌<◌, ◌-◌, ◌^◌, [], length, true, is_some, IfOk, IfErr, IfSome, OnOk, OnErr};
ghost use Rattle.std.specs.List.{list_all};
ghost use Rattle.tks_app.specs.Applications.{command_names, is_name_byte, is_name, has, comes_before, place_for, with_name, AreNames, Joins, RefusedFor};
ghost use Rattle.tks_app.specs.declared.apps.AddRefusal.TheVariants.{NoMemory};

use crate::{AppAnswer, AppBody, AppClosure, AppCommand, AppMeaning};
use indexmap::IndexMap;
use std::alloc::{AllocError, Global};
use std::fmt;
use std::marker::Model;
use thiserror::Error;
use tks_tcl::is_built_in;
use tks_text::{Seq, Txt, begins_dot, texts_again};

/// How many bytes a name has at most.
const NAME_LEN: usize = 64;

/// How many commands there are at most.
const MAX_COMMANDS: usize = (1 << 32) - 1;

// Whether a name may hold the byte.
fn is_name_byte(byte: u8) -> bool
    ensures { result ≡ is_name_byte byte }
{
    byte.is_ascii_alphanumeric() || byte == b'_' || byte == b'.'
}

// Whether all of the bytes may stand in names.
fn are_name_bytes(bytes: &[u8]) -> bool
    ensures { result ≡ list_all is_name_byte bytes.now }
{
    bytes.iter().all(|byte| is_name_byte(*byte))
}

/// Whether a command of an application may have this name: 1 to 64 letters, digits, `_` or `.`, of which the first is no
/// dot, and no built-in command has it.
pub fn is_name(name: &Txt) -> bool
    ensures { result ≡ is_name name.now }
{
    let bytes = name.as_bytes();
    1 <= bytes.len()
        && bytes.len() <= NAME_LEN
        && are_name_bytes(bytes)
        && !begins_dot(bytes)
        && !is_built_in(name)
}

/// Whether a name comes before another, by their bytes.
pub fn comes_before(name: &Txt, other: &Txt) -> bool
    ensures { result ≡ comes_before name.now other.now }
{
    name.as_bytes().cmp(other.as_bytes()).is_lt()
}

/// Why a command doesn't join the others.
#[derive(Clone, Copy, Debug, PartialEq, Eq, Error)]
pub enum AddRefusal {
    /// No command of an application may have its name.
    #[error("a command can't have this name")]
    BadName,
    /// A command of this name is there.
    #[error("a command of this name is there")]
    Twice,
    /// An allocation was refused.
    #[error("out of memory")]
    NoMemory,
}

/// A command that didn't join the others, and why.
#[derive(Drop, Error)]
#[error("{why}")]
pub struct AddFault<T: AppMeaning, B: AppBody = AppClosure> {
    pub command: AppCommand<T, B>,
    pub why: AddRefusal,
}

// A command can't be shown, since what it runs is a closure: its name stands for it.
impl<T: AppMeaning, B: AppBody> fmt::Debug for AddFault<T, B> {
    fn fmt<W: fmt::Write>(&self, f: &mut fmt::Formatter<W>) -> fmt::Result {
        f.debug_struct("AddFault")
            .field("command", self.command.name())
            .field("why", &self.why)
            .finish()
    }
}

/// The commands of an application, each of another name, and fewer than 2^32. Contracts see their names, which rise by
/// their bytes.
#[derive(Drop)]
pub struct Apps<T: AppMeaning, B: AppBody = AppClosure> {
    // Each under its name, in the order of their names.
    commands: IndexMap<Txt, AppCommand<T, B>>,
}

impl<T: AppMeaning, B: AppBody> Model for Apps<T, B> {
    ghost use Rattle.std.specs.Prelude.{List, ℕ};
    ghost use Rattle.std.specs.Coded.{coded_list, coded_ℕ};

    ghost Value = { List (List ℕ) };

    ghost coded = { coded_list (coded_list coded_ℕ) };

    ghost use Rattle.std.specs.Prelude.{◌≡◌, ◌<◌, ◌^◌, length};
    ghost use Rattle.indexmap.specs.IndexMap.{keys, values};
    ghost use Rattle.tks_app.specs.Applications.{command_names, AreNames};

    ghost view = { λ a. keys a.commands };

    ghost invariant = { λ a. AreNames (keys a.commands) × (length (keys a.commands) < 2 ^ 32) × (command_names (values a.commands) ≡ keys a.commands) };
}

impl<T: AppMeaning, B: AppBody> Apps<T, B> {
    /// No command.
    pub fn new(alloc: Global) -> Apps<T, B>
        ensures { result ≡ [] }
    {
        Apps {
            commands: IndexMap::new(alloc),
        }
    }

    /// The commands, in the order of their names.
    pub fn commands(&self) -> &[AppCommand<T, B>]
        ensures commands { command_names result.now ≡ self.now }
        ensures names { AreNames self.now }
        ensures count { length self.now < 2 ^ 32 }
    {
        self.commands.values().as_slice()
    }

    /// Their names, in order.
    pub fn names(&self, alloc: Global) -> Result<Seq<Txt>, AllocError>
        ensures { IfOk result (λ names. names ≡ self.now) }
    {
        texts_again(alloc, self.commands.keys().as_slice())
    }

    // The command of a name.
    fn find(&self, name: &Txt) -> Option<&AppCommand<T, B>>
        ensures found { IfSome result (λ command. command.now.name ≡ name.now) }
        ensures there { is_some result ≡ has self.now name.now }
    {
        self.commands.get(name)
    }

    /// Whether a command has this name.
    pub fn has(&self, name: &Txt) -> bool
        ensures { result ≡ has self.now name.now }
    {
        self.find(name).is_some()
    }

    // The place of a name among those of the commands.
    fn place_for(&self, name: &Txt) -> usize
        ensures place { result ≡ place_for name.now self.now }
        ensures bound { result ≤ length self.now }
    {
        let mut place = 0;
        let mut rest = self.commands.keys().as_slice();
        while let Some((other, behind)) = rest.split_first() {
            if comes_before(name, other) {
                return place;
            }
            place += 1;
            rest = behind;
        }
        place
    }

    /// Adds a command, in the place of its name. One that doesn't join is itself handed back, with the reason; so is one
    /// beyond 2^32 - 1, as for want of memory.
    #[tactic(auto, using(crate::proofs::Keyed::keys_length))]
    pub fn add(&mut self, command: AppCommand<T, B>) -> Result<(), AddFault<T, B>>
        ensures ok { OnOk result (self.new ≡ with_name command self.old) }
        ensures joins { OnOk result (Joins self.old command.name) }
        ensures err { OnErr result (self.new ≡ self.old) }
        ensures handed_back { IfErr result (λ fault. fault.command ≡ command) }
        ensures why { IfErr result (λ fault. RefusedFor self.old command.name fault.why) }
    {
        if !is_name(command.name()) {
            return Err(AddFault {
                command,
                why: AddRefusal::BadName,
            });
        }
        if self.has(command.name()) {
            return Err(AddFault {
                command,
                why: AddRefusal::Twice,
            });
        }
        if MAX_COMMANDS <= self.commands.len() {
            return Err(AddFault {
                command,
                why: AddRefusal::NoMemory,
            });
        }
        self.put(command)
    }

    // Puts a command in the place of its name.
    #[tactic(auto, using(crate::proofs::Keyed::keys_length))]
    fn put(&mut self, command: AppCommand<T, B>) -> Result<(), AddFault<T, B>>
        requires joins { Joins self.old command.name }
        requires room { length self.old < 2 ^ 32 - 1 }
        ensures ok { OnOk result (self.new ≡ with_name command self.old) }
        ensures err { OnErr result (self.new ≡ self.old) }
        ensures handed_back { IfErr result (λ fault. (fault.command ≡ command) × (fault.why ≡ NoMemory)) }
    {
        let place = self.place_for(command.name());
        let Ok(name) = command.name().try_clone() else {
            return Err(AddFault {
                command,
                why: AddRefusal::NoMemory,
            });
        };
        if let Err(refused) = self.commands.shift_insert(place, name, command) {
            let (_, command) = refused.value;
            return Err(AddFault {
                command,
                why: AddRefusal::NoMemory,
            });
        }
        Ok(())
    }

    /// What the command of this name answers. Memory is refused where its body is refused it.
    pub fn call(&self, name: &Txt, memory: &Txt, words: &[Txt]) -> Result<AppAnswer, AllocError>
        requires there { has self.now name.now ≡ true }
        ensures answer { IfOk result (λ a. a ≡ T.meaning name.now memory.now words.now) }
    {
        let Some(command) = self.find(name) else {
            unreachable!()
        };
        command.call(memory, words)
    }
}
