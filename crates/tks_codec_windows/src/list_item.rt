//! Items of listboxes.
use std::alloc::{AllocError, Global};
use tks_listbox::Item;
use tks_spelling::reading::{flag_of, text_of};
use tks_spelling::writing::{put_flag, put_text};
use tks_spelling::{Members, Unread, text_length};

/// Items.
#[derive(Clone, Copy)]
pub struct Items;

impl Members<Item> for Items {
    ghost use Rattle.tks_codec_windows.specs.Listbox.{item};

    ghost spelling = { λ items. item };

    ghost IsSound = { λ items i. Unit {0} };

    fn read<'a>(&self, alloc: Global, bytes: &'a [u8]) -> Result<(Item, &'a [u8]), Unread> {
        let (text, rest) = text_of(alloc, bytes)?;
        let (is_selected, rest) = flag_of(rest)?;
        Ok((Item { text, is_selected }, rest))
    }

    fn put(&self, out: &mut Vec<u8>, item: &Item) -> Result<(), AllocError> {
        put_text(out, &item.text)?;
        put_flag(out, item.is_selected)
    }

    #[tactic(auto, using(tks_spelling::proofs::Counting::lengths))]
    fn spelled_length(&self, item: &Item) -> u64 {
        text_length(&item.text).saturating_add(1)
    }
}
