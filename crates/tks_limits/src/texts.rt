//! Texts.
ghost use Rattle.std.specs.Prelude.{◌≡◌, length};
ghost use Rattle.tks_limits.specs.Within as kinds;

use tks_text::{Limits, Txt};

/// Whether a text passes no limit.
pub fn fits(text: &[u8], limits: &Limits) -> bool
    ensures { result ≡ kinds.fits limits.now text.now }
{
    text.len() <= limits.text as usize
}

/// Whether a list of so many members passes no limit.
pub fn may_hold(count: usize, limits: &Limits) -> bool
    ensures { result ≡ kinds.may_hold limits.now count }
{
    count <= limits.items as usize
}

/// Whether no text passes a limit.
pub fn texts_fit(texts: &[Txt], limits: &Limits) -> bool
    ensures { result ≡ kinds.texts_fit limits.now texts.now }
{
    for text in texts {
        if !fits(text.as_bytes(), limits) {
            return false;
        }
    }
    true
}
