//! What a label asks for and shows, and a button too: a text, and where it stands.
ghost use Rattle.std.specs.Prelude.{◌≡◌, ◌<◌, ◌^◌, IfOk};
ghost use Rattle.tks_button.specs.Label.{requested_width, requested_height, shown};
ghost use Rattle.tks_button.specs.Sizes.{text_of, anchor_of};

use crate::block::{block_rows, line_count, longest_line};
use std::alloc::{AllocError, Global};
use tks_opt::{Anchor, OptionName, Options};
use tks_text::Seq;

/// The bytes of the text.
pub fn text_of(options: &Options) -> &[u8]
    ensures { result.now ≡ text_of options.now }
{
    match options.value(OptionName::Text) {
        Some(text) => text.as_bytes(),
        None => b"",
    }
}

/// Where the text stands in an area.
pub fn anchor_of(options: &Options) -> Anchor
    ensures { result ≡ anchor_of options.now }
{
    match options.anchor() {
        Some(anchor) => anchor,
        None => Anchor::Center,
    }
}

/// As many columns as `-width` says, or, where that is 0, as the longest line has.
pub fn requested_width(options: &Options) -> usize
    ensures value { result ≡ requested_width options.now }
    ensures small { result < 2 ^ 63 }
{
    match options.size(OptionName::Width) {
        Some(0) | None => longest_line(text_of(options)),
        Some(width) => usize::from(width),
    }
}

/// A row for each line.
pub fn requested_height(options: &Options) -> usize
    ensures { result ≡ requested_height options.now }
{
    line_count(text_of(options))
}

/// The lines as a block in an area, row by row.
pub fn shown(
    alloc: Global,
    options: &Options,
    width: usize,
    height: usize,
) -> Result<Seq<Seq<u8>>, AllocError>
    ensures { IfOk result (λ cells. cells ≡ shown options.now width height) }
{
    let cells = block_rows(alloc, text_of(options), anchor_of(options), width, height)?;
    Ok(cells)
}
