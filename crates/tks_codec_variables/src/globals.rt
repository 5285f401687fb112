//! What stands under the names of globals: texts, scalars and arrays.
ghost use Rattle.std.specs.Prelude.{◌≡◌};

use crate::table::{Named, put_table, table_length, table_of};
use std::alloc::{AllocError, Global};
use tks_list::ListText;
use tks_spelling::reading::{presence_of, text_of};
use tks_spelling::writing::{put_presence, put_text};
use tks_spelling::{Members, Unread, text_length};
use tks_vars::Content;

/// Texts that may be lists.
#[derive(Clone, Copy)]
pub struct ListTexts;

impl Members<ListText> for ListTexts {
    ghost use Rattle.tks_spelling.specs.Spelling.{text};

    ghost spelling = { λ texts. text };

    ghost IsSound = { λ texts t. Unit {0} };

    fn read<'a>(&self, alloc: Global, bytes: &'a [u8]) -> Result<(ListText, &'a [u8]), Unread> {
        let (text, rest) = text_of(alloc, bytes)?;
        Ok((ListText::of(text), rest))
    }

    fn put(&self, out: &mut Vec<u8>, text: &ListText) -> Result<(), AllocError> {
        put_text(out, text.as_text())
    }

    fn spelled_length(&self, text: &ListText) -> u64 {
        text_length(text.as_text())
    }
}

impl Named<ListText> for ListTexts {
    ghost all_are_sound = { λ texts t. tt };
}

/// Scalars and arrays.
#[derive(Clone, Copy)]
pub struct Contents;

impl Members<Content> for Contents {
    ghost use Rattle.tks_codec_variables.specs.Globals.{content};

    ghost spelling = { λ contents. content };

    ghost IsSound = { λ contents c. Unit {0} };

    #[tactic(auto, unfolding(crate::specs::Table::table_at))]
    fn read<'a>(&self, alloc: Global, bytes: &'a [u8]) -> Result<(Content, &'a [u8]), Unread> {
        let (is_array, rest) = presence_of(bytes)?;
        if is_array {
            let (elements, rest) = table_of(alloc, ListTexts, rest)?;
            return Ok((Content::Array(elements), rest));
        }
        let (value, rest) = ListTexts.read(alloc, rest)?;
        Ok((Content::Scalar(value), rest))
    }

    #[tactic(auto, using(tks_spelling::proofs::Puts::put_behind))]
    fn put(&self, out: &mut Vec<u8>, content: &Content) -> Result<(), AllocError> {
        match content {
            Content::Scalar(value) => {
                put_presence(out, false)?;
                ListTexts.put(out, value)
            }
            Content::Array(elements) => {
                put_presence(out, true)?;
                put_table(out, ListTexts, elements)
            }
        }
    }

    fn spelled_length(&self, content: &Content) -> u64 {
        match content {
            Content::Scalar(value) => ListTexts.spelled_length(value).saturating_add(1),
            Content::Array(elements) => table_length(&ListTexts, elements).saturating_add(1),
        }
    }
}

impl Named<Content> for Contents {
    ghost all_are_sound = { λ contents c. tt };
}
