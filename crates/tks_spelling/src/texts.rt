//! Texts and numbers as members of lists.
use crate::lengths::text_length;
use crate::member::Members;
use crate::reading::{text_of, u64_of};
use crate::unread::Unread;
use crate::writing::{put_text, put_u64};
use std::alloc::{AllocError, Global};
use tks_text::Txt;

/// Texts.
#[derive(Clone, Copy)]
pub struct Texts;

impl Members<Txt> for Texts {
    ghost use Rattle.tks_spelling.specs.Spelling.{text};

    ghost spelling = { λ texts. text };

    ghost IsSound = { λ texts t. Unit {0} };

    fn read<'a>(&self, alloc: Global, bytes: &'a [u8]) -> Result<(Txt, &'a [u8]), Unread> {
        text_of(alloc, bytes)
    }

    fn put(&self, out: &mut Vec<u8>, text: &Txt) -> Result<(), AllocError> {
        put_text(out, text)
    }

    fn spelled_length(&self, text: &Txt) -> u64 {
        text_length(text)
    }
}

/// Numbers of eight bytes.
#[derive(Clone, Copy)]
pub struct Numbers;

impl Members<u64> for Numbers {
    ghost use Rattle.std.specs.Int.{w64};
    ghost use Rattle.tks_spelling.specs.Spelling.{number};

    ghost spelling = { λ numbers. number w64 };

    ghost IsSound = { λ numbers n. Unit {0} };

    fn read<'a>(&self, _alloc: Global, bytes: &'a [u8]) -> Result<(u64, &'a [u8]), Unread> {
        u64_of(bytes)
    }

    fn put(&self, out: &mut Vec<u8>, number: &u64) -> Result<(), AllocError> {
        put_u64(out, *number)
    }

    fn spelled_length(&self, _number: &u64) -> u64 {
        8
    }
}
