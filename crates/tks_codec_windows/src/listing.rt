//! What a listbox holds.
ghost use Rattle.std.specs.Prelude.{◌≡◌, length, OnOk};
ghost use Rattle.tks_text.specs.declared.class.Class.TheVariants as class;
ghost use Rattle.tks_spelling.specs.Reading.{Gives};
ghost use Rattle.tks_spelling.specs.Writing.{PutsSo};
ghost use Rattle.tks_spelling.specs.Lengths.{counted};
ghost use Rattle.tks_codec_windows.specs.Listbox as kinds;

use crate::list_item::Items;
use std::alloc::{AllocError, Global};
use tks_listbox::ListWidget;
use tks_opt::Options;
use tks_share::SharedList;
use tks_spelling::reading::u32_of;
use tks_spelling::writing::put_u32;
use tks_spelling::{Unread, items_length, list_of, put_items};

/// A listbox with these options, by its items and the active one's place.
pub fn listbox_of(
    alloc: Global,
    options: Options,
    bytes: &[u8],
) -> Result<(ListWidget, &[u8]), Unread>
    requires { options.class ≡ class.Listbox }
    ensures { Gives (λ x. (x.0, x.1.now)) result ((kinds.listbox options).read bytes.now) }
{
    let (items, rest) = list_of(alloc, Items, bytes)?;
    let (active, rest) = u32_of(rest)?;
    let items = SharedList::of(alloc, items.into_items())?;
    match ListWidget::restore(alloc, options, items, active as usize) {
        Some(listbox) => Ok((listbox, rest)),
        None => Err(Unread::Left(rest.len() + 1)),
    }
}

/// Adds a listbox's items and the active one's place.
pub fn put_listbox(out: &mut Vec<u8>, listbox: &ListWidget) -> Result<(), AllocError>
    ensures puts { PutsSo result out.old.items out.new.items ((kinds.listbox listbox.now.options).write listbox.now) }
    ensures legal { OnOk result ((kinds.listbox listbox.now.options).Legal listbox.now) }
{
    let items = listbox.items();
    put_items(out, Items, items.iter(), items.len())?;
    put_u32(out, listbox.active() as u32)
}

/// The length of the spelling of a listbox's items and the active one's place, in bytes.
#[tactic(auto, using(tks_spelling::proofs::Counting::lengths))]
pub fn listbox_length(listbox: &ListWidget) -> u64
    ensures { result ≡ counted (length ((kinds.listbox listbox.now.options).write listbox.now)) }
{
    items_length(&Items, listbox.items().iter()).saturating_add(4)
}
