//! Marks of text widgets.
ghost use Rattle.std.specs.Prelude.{OnOk};
ghost use Rattle.tks_spelling.specs.Reading.{Gives};
ghost use Rattle.tks_spelling.specs.Writing.{PutsSo, flattened};
ghost use Rattle.tks_codec_windows.specs.Lines as kinds;
ghost use Rattle.tks_codec_windows.specs.Lines.{mark_at, mark_parts, HasShortPlace};

use std::alloc::{AllocError, Global};
use tks_lines::Mark;
use tks_spelling::reading::{flag_of, text_of, u32_of};
use tks_spelling::writing::{put_flag, put_text, put_u32};
use tks_spelling::{Members, Unread, text_length};

// A mark.
#[tactic(auto, unfolding(crate::specs::Lines::mark_at))]
fn mark_of(alloc: Global, bytes: &[u8]) -> Result<(Mark, &[u8]), Unread>
    ensures { Gives (λ x. (x.0, x.1.now)) result (mark_at bytes.now) }
{
    let (name, rest) = text_of(alloc, bytes)?;
    let (place, rest) = u32_of(rest)?;
    let (left, rest) = flag_of(rest)?;
    let mark = Mark {
        name,
        place: place as usize,
        left,
    };
    Ok((mark, rest))
}

// Adds the parts of a mark.
#[tactic(auto, using(tks_spelling::proofs::Puts::flattened_puts))]
fn put_parts(out: &mut Vec<u8>, mark: &Mark) -> Result<(), AllocError>
    requires { HasShortPlace mark.now }
    ensures puts { PutsSo result out.old.items out.new.items (flattened (mark_parts mark.now)) }
    ensures legal { OnOk result (kinds.mark.Legal mark.now) }
{
    put_text(out, &mark.name)?;
    put_u32(out, mark.place as u32)?;
    put_flag(out, mark.left)
}

/// Marks.
#[derive(Clone, Copy)]
pub struct Marks;

impl Members<Mark> for Marks {
    ghost use Rattle.tks_codec_windows.specs.Lines.{mark, HasShortPlace};

    ghost spelling = { λ marks. mark };

    ghost IsSound = { λ marks m. HasShortPlace m };

    #[tactic(auto, unfolding(crate::specs::Lines::mark_at))]
    fn read<'a>(&self, alloc: Global, bytes: &'a [u8]) -> Result<(Mark, &'a [u8]), Unread> {
        mark_of(alloc, bytes)
    }

    #[tactic(auto, unfolding(tks_spelling::specs::Writing::flattened))]
    fn put(&self, out: &mut Vec<u8>, mark: &Mark) -> Result<(), AllocError> {
        put_parts(out, mark)
    }

    #[tactic(auto, using(tks_spelling::proofs::Counting::lengths))]
    fn spelled_length(&self, mark: &Mark) -> u64 {
        text_length(&mark.name).saturating_add(5)
    }
}
