//! The options of a window.
ghost use Rattle.std.specs.Prelude.{◌≡◌, length, None, OnOk};
ghost use Rattle.std.specs.List.{AllByRecursion};
ghost use Rattle.tks_opt.specs.Options.{values_in_order};
ghost use Rattle.tks_spelling.specs.Spelling.{text, members};
ghost use Rattle.tks_spelling.specs.Reading.{Gives};
ghost use Rattle.tks_spelling.specs.Writing.{PutsSo};
ghost use Rattle.tks_spelling.specs.Lengths.{counted};
ghost use Rattle.tks_codec_windows.specs.Options as kinds;
ghost use Rattle.tks_codec_windows.specs.Options.{options_at};

use std::alloc::{AllocError, Global};
use tks_opt::Options;
use tks_spelling::writing::{put_text, put_u32};
use tks_spelling::{Texts, Unread, list_of, text_length};
use tks_text::Class;

/// The options of a class. Bytes in front of them say which class it is.
#[tactic(auto, unfolding(crate::specs::Options::options_at))]
pub fn options_of(alloc: Global, class: Class, bytes: &[u8]) -> Result<(Options, &[u8]), Unread>
    ensures { Gives (λ x. (x.0, x.1.now)) result (options_at class bytes.now) }
{
    let (values, rest) = list_of(alloc, Texts, bytes)?;
    match Options::restore(alloc, class, values)? {
        Some(options) => Ok((options, rest)),
        None => Err(Unread::Left(rest.len() + 1)),
    }
}

// Adds each of the values.
fn put_each(out: &mut Vec<u8>, options: &Options) -> Result<(), AllocError>
    ensures puts { PutsSo result out.old.items out.new.items (members (λ before. text) None (values_in_order options.now)) }
    ensures legal { OnOk result (AllByRecursion text.Legal (values_in_order options.now)) }
{
    for index in 0..options.len() {
        let Some(value) = options.value_at(index) else {
            unreachable!()
        };
        put_text(out, value)?;
    }
    Ok(())
}

/// Adds options.
pub fn put_options(out: &mut Vec<u8>, options: &Options) -> Result<(), AllocError>
    ensures puts { PutsSo result out.old.items out.new.items ((kinds.options options.now.class).write options.now) }
    ensures legal { OnOk result ((kinds.options options.now.class).Legal options.now) }
{
    put_u32(out, options.len() as u32)?;
    put_each(out, options)
}

// The length of the values, one behind the other.
fn each_length(options: &Options) -> u64
    ensures { result ≡ counted (length (members (λ before. text) None (values_in_order options.now))) }
{
    let mut sum: u64 = 0;
    for index in 0..options.len() {
        let Some(value) = options.value_at(index) else {
            unreachable!()
        };
        sum = sum.saturating_add(text_length(value));
    }
    sum
}

/// The length of the spelling of options, in bytes.
pub fn options_length(options: &Options) -> u64
    ensures { result ≡ counted (length ((kinds.options options.now.class).write options.now)) }
{
    each_length(options).saturating_add(4)
}
