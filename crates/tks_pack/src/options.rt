//! The packer's options.
ghost use Rattle.std.specs.Prelude.{◌≡◌, drop};
ghost use Rattle.tks_text.specs.Fault.{Gives};
ghost use Rattle.tks_pack.specs.Settings.{side_of, fill_of, padding_of, option_of, changed, with_option, with_options};

use crate::padding::Padding;
use crate::settings::{Fill, Settings, Side};
use std::alloc::Global;
use tks_opt::{Anchor, boolean_of, number_within};
use tks_text::{ErrorNumber, Failure, Txt};

/// The options of `pack`.
#[derive(Clone, Copy)]
pub enum PackOption {
    Side,
    Fill,
    Expand,
    Anchor,
    PadX,
    PadY,
    InnerPadX,
    InnerPadY,
}

fn side_of(value: &[u8]) -> Option<Side>
    ensures { result ≡ side_of value.now }
{
    if value == b"top".as_slice() {
        Some(Side::Top)
    } else if value == b"bottom".as_slice() {
        Some(Side::Bottom)
    } else if value == b"left".as_slice() {
        Some(Side::Left)
    } else if value == b"right".as_slice() {
        Some(Side::Right)
    } else {
        None
    }
}

fn fill_of(value: &[u8]) -> Option<Fill>
    ensures { result ≡ fill_of value.now }
{
    if value == b"none".as_slice() {
        Some(Fill::Neither)
    } else if value == b"x".as_slice() {
        Some(Fill::X)
    } else if value == b"y".as_slice() {
        Some(Fill::Y)
    } else if value == b"both".as_slice() {
        Some(Fill::Both)
    } else {
        None
    }
}

fn padding_of(value: &Txt) -> Option<Padding>
    ensures { result ≡ padding_of value.now }
{
    match number_within(0, Padding::MAX, value) {
        Some(cells) => Some(Padding::of(cells)),
        None => None,
    }
}

fn option_of(name: &[u8]) -> Option<PackOption>
    ensures { result ≡ option_of name.now }
{
    if name == b"-side".as_slice() {
        Some(PackOption::Side)
    } else if name == b"-fill".as_slice() {
        Some(PackOption::Fill)
    } else if name == b"-expand".as_slice() {
        Some(PackOption::Expand)
    } else if name == b"-anchor".as_slice() {
        Some(PackOption::Anchor)
    } else if name == b"-padx".as_slice() {
        Some(PackOption::PadX)
    } else if name == b"-pady".as_slice() {
        Some(PackOption::PadY)
    } else if name == b"-ipadx".as_slice() {
        Some(PackOption::InnerPadX)
    } else if name == b"-ipady".as_slice() {
        Some(PackOption::InnerPadY)
    } else {
        None
    }
}

// The settings with an option's value changed; none where it may not have this one.
fn changed(settings: Settings, option: PackOption, value: &Txt) -> Option<Settings>
    ensures { result ≡ changed settings option value.now }
{
    let word = value.as_bytes();
    match option {
        PackOption::Side => side_of(word).map(|side| Settings { side, ..settings }),
        PackOption::Fill => fill_of(word).map(|fill| Settings { fill, ..settings }),
        PackOption::Expand => boolean_of(value).map(|expand| Settings { expand, ..settings }),
        PackOption::Anchor => Anchor::named(value).map(|anchor| Settings { anchor, ..settings }),
        PackOption::PadX => padding_of(value).map(|padx| Settings { padx, ..settings }),
        PackOption::PadY => padding_of(value).map(|pady| Settings { pady, ..settings }),
        PackOption::InnerPadX => padding_of(value).map(|ipadx| Settings { ipadx, ..settings }),
        PackOption::InnerPadY => padding_of(value).map(|ipady| Settings { ipady, ..settings }),
    }
}

// The settings with the option of this name changed.
#[tactic(auto, using(crate::proofs::Faults::tells))]
fn with_option(settings: Settings, name: &Txt, value: &Txt) -> Result<Settings, Failure>
    ensures { Gives (λ p. p) result (with_option settings name.now value.now) }
{
    match option_of(name.as_bytes()) {
        Some(option) => match changed(settings, option, value) {
            Some(settings) => Ok(settings),
            None => Err(Failure::about(ErrorNumber::BadValue, name)),
        },
        None => Err(Failure::about(ErrorNumber::UnknownOption, name)),
    }
}

/// The settings behind options and values in turn.
///
/// # Errors
///
/// An option that `pack` doesn't know (E34) or a value that it may not have (E35); the first that stands wrong.
pub fn with_options(alloc: Global, settings: Settings, options: &[Txt]) -> Result<Settings, Failure>
    ensures { Gives (λ p. p) result (with_options settings options.now) }
{
    let mut settings = settings;
    let mut rest = options;
    while let Some((name, behind)) = rest.split_first() {
        match behind.split_first() {
            None => return with_option(settings, name, &Txt::new(alloc)),
            Some((value, behind)) => {
                settings = with_option(settings, name, value)?;
                rest = behind;
            }
        }
    }
    Ok(settings)
}
