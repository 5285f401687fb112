//! What a text widget holds.
ghost use Rattle.std.specs.Prelude.{◌≡◌, length, OnOk};
ghost use Rattle.tks_text.specs.declared.class.Class.TheVariants as class;
ghost use Rattle.tks_spelling.specs.Reading.{Gives};
ghost use Rattle.tks_spelling.specs.Writing.{PutsSo};
ghost use Rattle.tks_spelling.specs.Lengths.{counted};
ghost use Rattle.tks_codec_windows.specs.Lines as kinds;
ghost use Rattle.tks_codec_windows.specs.Lines.{lines_at};

use crate::mark::Marks;
use crate::tag::{put_tags, tags_length, tags_of};
use std::alloc::{AllocError, Global};
use tks_lines::TextWidget;
use tks_opt::Options;
use tks_spelling::reading::text_of;
use tks_spelling::writing::put_pieces;
use tks_spelling::{Unread, list_length, list_of, put_list};

/// A text widget with these options, by its characters, its tags and its marks.
#[tactic(auto, unfolding(crate::specs::Lines::lines_at))]
pub fn lines_of(
    alloc: Global,
    options: Options,
    bytes: &[u8],
) -> Result<(TextWidget, &[u8]), Unread>
    requires { options.class ≡ class.Text }
    ensures { Gives (λ x. (x.0, x.1.now)) result (lines_at options bytes.now) }
{
    let (text, rest) = text_of(alloc, bytes)?;
    let (tags, rest) = tags_of(alloc, &text, rest)?;
    let (marks, rest) = list_of(alloc, Marks, rest)?;
    match TextWidget::restore(alloc, options, text, tags, marks)? {
        Some(widget) => Ok((widget, rest)),
        None => Err(Unread::Left(rest.len() + 1)),
    }
}

/// Adds a text widget's characters, its tags and its marks.
pub fn put_lines(out: &mut Vec<u8>, widget: &TextWidget) -> Result<(), AllocError>
    ensures puts { PutsSo result out.old.items out.new.items ((kinds.lines widget.now.options).write widget.now) }
    ensures legal { OnOk result ((kinds.lines widget.now.options).Legal widget.now) }
{
    let marks = widget.marks();
    let (front, typed, behind) = widget.pieces();
    put_pieces(out, front, typed, behind)?;
    put_tags(out, widget)?;
    put_list(out, Marks, marks)
}

/// The length of the spelling of a text widget's characters, its tags and its marks, in bytes.
#[tactic(auto, using(tks_spelling::proofs::Counting::lengths))]
pub fn lines_length(widget: &TextWidget) -> u64
    ensures { result ≡ counted (length ((kinds.lines widget.now.options).write widget.now)) }
{
    let marks = widget.marks();
    tags_length(widget)
        .saturating_add(list_length(&Marks, marks))
        .saturating_add(widget.len() as u64 + 4)
}
