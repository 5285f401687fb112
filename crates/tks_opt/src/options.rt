//! The options of a window: just those of its class, each with a legal value.
ghost use Rattle.std.specs.Prelude.{◌≡◌, ◌<◌, ◌^◌, length, IfOk, OnErr, [], true, Some, option_map, option_and_then, slice_get};
ghost use Rattle.std.specs.List.{zip};
ghost use Rattle.indexmap.specs.IndexMap.{insert_all};
ghost use Rattle.tks_text.specs.Fault.{Gives};
ghost use Rattle.tks_opt.specs.Table.{option_named, max_size};
ghost use Rattle.tks_opt.specs.Values.{is_normal, number_within, anchor_named, state_named};
ghost use Rattle.tks_opt.specs.Options.{Legal, first_options, had, has_option, value_in, value_of, values_in_order, with_value, configured, replaced, same_name, are_values, restored};

use crate::anchor::Anchor;
use crate::name::OptionName;
use crate::number::number_within;
use crate::state::State;
use crate::table::{MAX_SIZE, accepts, first_value, options_of};
use indexmap::IndexMap;
use std::alloc::{AllocError, Global};
use std::marker::Model;
use tks_text::{Class, ErrorNumber, Failure, Seq, Txt};

/// The options of one window: each that its class has, with a value that it may have. A value is kept as it
/// was given.
#[derive(Drop)]
pub struct Options {
    alloc: Global,
    class: Class,
    values: IndexMap<OptionName, Txt>,
}

impl Model for Options {
    ghost use Rattle.tks_opt.specs.Options.{Options, Legal};

    ghost Value = { Options };

    ghost view = { λ t. record { class = t.class; values = t.values.entries } };

    ghost invariant = { λ t. Legal (record { class = t.class; values = t.values.entries }) };
}

// Whether there is a value for each of these options of a class and no further one, and each is one that its option
// may have.
fn are_values(class: Class, names: &[OptionName], values: &[Txt]) -> bool
    ensures { result ≡ are_values class names.now values.now }
{
    let mut rest = values;
    for name in names {
        let Some((value, behind)) = rest.split_first() else {
            return false;
        };
        if !accepts(class, *name, value) {
            return false;
        }
        rest = behind;
    }
    rest.is_empty()
}

// The options of these names, each with the value that stands in its place.
fn with_values(
    alloc: Global,
    names: &[OptionName],
    values: Seq<Txt>,
) -> Result<IndexMap<OptionName, Txt>, AllocError>
    ensures { IfOk result (λ m. m.entries ≡ insert_all same_name [] (zip names.now values)) }
{
    let mut kept = IndexMap::new(alloc);
    let mut rest = names;
    for value in values.into_items() {
        let Some((name, behind)) = rest.split_first() else {
            return Ok(kept);
        };
        kept.insert(*name, value)?;
        rest = behind;
    }
    Ok(kept)
}

impl Options {
    /// The options that a window of a class has at first. The path is for the default of `-variable`.
    pub fn new(alloc: Global, class: Class, path: &Txt) -> Result<Options, AllocError>
        ensures { IfOk result (λ t. t ≡ first_options class path.now) }
    {
        let mut values = IndexMap::new(alloc);
        for name in options_of(class) {
            let value = Txt::from_text(alloc, first_value(class, path.as_bytes(), *name))?;
            values.insert(*name, value)?;
        }
        Ok(Options {
            alloc,
            class,
            values,
        })
    }

    /// The options of a class that have these values, in the order in which the class's options are kept: so they
    /// are made again from the values that they had. None where there are more values than options or fewer, or one
    /// is a value that its option may not have.
    pub fn restore(
        alloc: Global,
        class: Class,
        values: Seq<Txt>,
    ) -> Result<Option<Options>, AllocError>
        ensures { IfOk result (λ t. t ≡ restored class values) }
    {
        if !are_values(class, options_of(class), values.as_slice()) {
            return Ok(None);
        }
        let values = with_values(alloc, options_of(class), values)?;
        Ok(Some(Options {
            alloc,
            class,
            values,
        }))
    }

    /// The class of the window.
    pub fn class(&self) -> Class
        ensures value { result ≡ self.now.class }
        ensures legal { Legal self.now }
    {
        self.class
    }

    /// The value of an option, where the class has it.
    pub fn value(&self, name: OptionName) -> Option<&Txt>
        ensures { option_map (λ v. v.now) result ≡ value_in self.now.values name }
    {
        self.values.get(&name)
    }

    /// The value of an option that the class has.
    pub fn own_value(&self, name: OptionName) -> &Txt
        requires { has_option self.now.class name ≡ true }
        ensures { value_in self.now.values name ≡ Some result.now }
    {
        match self.values.get(&name) {
            Some(value) => value,
            None => unreachable!(),
        }
    }

    /// How many options the class has.
    pub fn len(&self) -> usize
        ensures value { result ≡ length (values_in_order self.now) }
        ensures few { result < 2 ^ 32 }
        ensures legal { Legal self.now }
    {
        self.values.len()
    }

    /// The value that stands behind so many others, in the order in which the class's options are kept.
    pub fn value_at(&self, index: usize) -> Option<&Txt>
        ensures { option_map (λ v. v.now) result ≡ slice_get (values_in_order self.now) index }
    {
        match self.values.get_index(index) {
            Some((_name, value)) => Some(value),
            None => None,
        }
    }

    /// The size that `-width` or `-height` says; none for another option, and where the class has none.
    pub fn size(&self, name: OptionName) -> Option<u16>
        ensures { result ≡ option_and_then (number_within 0 max_size) (value_in self.now.values name) }
    {
        number_within(0, MAX_SIZE, self.value(name)?)
    }

    /// What `-anchor` says, where the class has it.
    pub fn anchor(&self) -> Option<Anchor>
        ensures { result ≡ option_and_then anchor_named (value_in self.now.values OptionName.Anchor) }
    {
        Anchor::named(self.value(OptionName::Anchor)?)
    }

    /// What `-state` says, where the class has it.
    pub fn state(&self) -> Option<State>
        ensures { result ≡ option_and_then state_named (value_in self.now.values OptionName.State) }
    {
        State::named(self.value(OptionName::State)?)
    }

    /// Whether scripts may change what the widget holds: its state is `normal`.
    pub fn is_editable(&self) -> bool
        ensures { result ≡ is_normal (option_and_then state_named (value_in self.now.values OptionName.State)) }
    {
        match self.state() {
            Some(State::Normal) => true,
            _ => false,
        }
    }

    /// The value of the option that a text names: a class without such an option is an error about the text.
    pub fn cget(&self, name: &Txt) -> Result<&Txt, Failure>
        ensures { Gives (λ v. v.now) result (value_of self.now name.now) }
    {
        let Some(option) = OptionName::named(name.as_bytes()) else {
            return Err(Failure::about(ErrorNumber::UnknownOption, name));
        };
        match self.value(option) {
            Some(value) => Ok(value),
            None => Err(Failure::about(ErrorNumber::UnknownOption, name)),
        }
    }

    // The option that a text names, where the class has it.
    fn option_named(&self, name: &Txt) -> Option<OptionName>
        ensures { result ≡ had self.now.values (option_named name.now) }
    {
        let option = OptionName::named(name.as_bytes())?;
        if self.values.contains_key(&option) {
            Some(option)
        } else {
            None
        }
    }

    // Gives the option that a text names a value.
    fn set(&mut self, name: &Txt, value: &Txt) -> Result<(), Failure>
        ensures { Gives (λ _. self.new) result (with_value self.old name.now value.now) }
    {
        let Some(option) = self.option_named(name) else {
            return Err(Failure::about(ErrorNumber::UnknownOption, name));
        };
        if !accepts(self.class, option, value) {
            return Err(Failure::about(ErrorNumber::BadValue, name));
        }
        self.values.insert(option, value.try_clone()?)?;
        Ok(())
    }

    // Gives the options that pairs of words name their values, until one is refused.
    fn set_all(&mut self, pairs: &[Txt]) -> Result<(), Failure>
        ensures { Gives (λ _. self.new) result (configured self.old pairs.now) }
    {
        let mut rest = pairs;
        while let Some((name, behind)) = rest.split_first() {
            let Some((value, more)) = behind.split_first() else {
                return Ok(());
            };
            self.set(name, value)?;
            rest = more;
        }
        Ok(())
    }

    /// Gives options values: words that are names and values in turn, from left to right. A class without such
    /// an option, and a value that the option may not have, are errors about the name. A last name without a
    /// value is passed over.
    #[tactic(auto, using(crate::proofs::Values::same_class))]
    pub fn configure(&mut self, pairs: &[Txt]) -> Result<(), Failure>
        ensures value { Gives (λ _. self.new) result (configured self.old pairs.now) }
        ensures err { OnErr result (self.new ≡ self.old) }
        ensures class { self.new.class ≡ self.old.class }
    {
        let mut changed = self.try_clone()?;
        changed.set_all(pairs)?;
        *self = changed;
        Ok(())
    }

    /// The same options with another text, where the class has `-text`.
    pub fn with_text(&self, text: &Txt) -> Result<Options, AllocError>
        ensures { IfOk result (λ t. t ≡ record self.now { values = replaced self.now.values OptionName.Text text.now }) }
    {
        let mut options = self.try_clone()?;
        if !options.values.contains_key(&OptionName::Text) {
            return Ok(options);
        }
        options.values.insert(OptionName::Text, text.try_clone()?)?;
        Ok(options)
    }

    /// A text without bytes.
    pub(crate) fn empty_text(&self) -> Txt
        ensures { result ≡ [] }
    {
        Txt::new(self.alloc)
    }

    /// Equal options.
    pub fn try_clone(&self) -> Result<Options, AllocError>
        ensures { IfOk result (λ t. t ≡ self.now) }
    {
        Ok(Options {
            alloc: self.alloc,
            class: self.class,
            values: self.values.clone()?,
        })
    }
}
