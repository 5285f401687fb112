//! The windows that are packed in a container.
ghost use Rattle.std.specs.Prelude.{◌≡◌, length, map, None, OnOk};
ghost use Rattle.std.specs.Int.{w64};
ghost use Rattle.std.specs.List.{AllByRecursion};
ghost use Rattle.tks_spelling.specs.Spelling.{number, members};
ghost use Rattle.tks_spelling.specs.Writing.{PutsSo};
ghost use Rattle.tks_spelling.specs.Lengths.{counted};
ghost use Rattle.tks_codec_windows.specs.Contents as kinds;

use std::alloc::AllocError;
use tks_pack::{Content, Packing};
use tks_share::Items;
use tks_spelling::writing::{put_u32, put_u64};

// Adds the number of each content.
fn put_each(out: &mut Vec<u8>, contents: Items<'_, Content>) -> Result<(), AllocError>
    ensures puts { PutsSo result out.old.items out.new.items (members (λ before. number w64) None (map (λ c. c.window) contents.entry)) }
    ensures legal { OnOk result (AllByRecursion ((number w64).Legal) (map (λ c. c.window) contents.entry)) }
{
    for content in contents {
        put_u64(out, content.window.number())?;
    }
    Ok(())
}

/// Adds the numbers of the windows that are packed in a container, in order.
pub fn put_contents(out: &mut Vec<u8>, packing: &Packing) -> Result<(), AllocError>
    ensures puts { PutsSo result out.old.items out.new.items (kinds.contents.write (map (λ c. c.window) packing.now.contents)) }
    ensures legal { OnOk result (kinds.contents.Legal (map (λ c. c.window) packing.now.contents)) }
{
    put_u32(out, packing.len() as u32)?;
    put_each(out, packing.contents())
}

/// The length of the spelling of the windows that are packed in a container, in bytes.
pub fn contents_length(packing: &Packing) -> u64
    ensures { result ≡ counted (length (kinds.contents.write (map (λ c. c.window) packing.now.contents))) }
{
    8 * packing.len() as u64 + 4
}
