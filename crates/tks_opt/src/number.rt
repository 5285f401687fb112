//! Numbers and truth values as values of options.
ghost use Rattle.std.specs.Prelude.{◌≡◌};
ghost use Rattle.tks_opt.specs.Values.{number_within, boolean};

use tks_text::{Txt, integer_of, truth_of_word};

/// The integer that a text spells, where it lies from least to most.
pub fn number_within(least: u16, most: u16, text: &Txt) -> Option<u16>
    ensures { result ≡ number_within least most text.now }
{
    match integer_of(text) {
        Ok(Some(number)) if i64::from(least) <= number && number <= i64::from(most) => {
            Some(number as u16)
        }
        _ => None,
    }
}

/// The truth value that a text spells: `true`, `yes`, `on`, `false`, `no`, `off`, or an integer, which is
/// true where it isn't 0.
pub fn boolean_of(text: &Txt) -> Option<bool>
    ensures { result ≡ boolean text.now }
{
    if let Some(truth) = truth_of_word(text.as_bytes()) {
        return Some(truth);
    }
    match integer_of(text) {
        Ok(Some(number)) => Some(number != 0),
        _ => None,
    }
}
