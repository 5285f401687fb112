//! A command that keeps a word, and answers the one before.
ghost use Rattle.std.specs.Prelude.{◌≡◌, IfOk};
ghost use Rattle.tests_parts.specs.Swap.{swapped};

use std::alloc::{AllocError, Global};
use tks_app::{AppAnswer, AppCode, AppMeaning};
use tks_text::Txt;

/// An application all of whose commands keep a word.
pub struct Swap;

impl AppMeaning for Swap {
    ghost use Rattle.tests_parts.specs.Swap.{swap};

    ghost meaning = { swap };
}

/// Answers the memory, and keeps the word; an error where it isn't one word.
pub fn swapped(alloc: Global, memory: &Txt, words: &[Txt]) -> Result<AppAnswer, AllocError>
    ensures { IfOk result (λ a. a ≡ swapped memory.now words.now) }
{
    match words {
        [word] => Ok(AppAnswer {
            code: AppCode::Value,
            text: memory.try_clone()?,
            memory: word.try_clone()?,
        }),
        _ => Ok(AppAnswer {
            code: AppCode::Error,
            text: Txt::from_text(alloc, b"usage")?,
            memory: memory.try_clone()?,
        }),
    }
}
