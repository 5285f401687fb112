//! Tags of text widgets.
ghost use Rattle.std.specs.Prelude.{◌≡◌, ◌<◌, ◌^◌, length, None, OnOk};
ghost use Rattle.std.specs.List.{AllByRecursion};
ghost use Rattle.tks_lines.specs.Lines.{AreLong};
ghost use Rattle.tks_spelling.specs.Spelling.{list, members};
ghost use Rattle.tks_spelling.specs.Reading.{Gives};
ghost use Rattle.tks_spelling.specs.Writing.{PutsSo};
ghost use Rattle.tks_spelling.specs.Lengths.{counted};
ghost use Rattle.tks_codec_windows.specs.Lines as kinds;
ghost use Rattle.tks_codec_windows.specs.Lines.{tag, tag_at};

use crate::range_list::{RangesWithin, flags_length, put_flags};
use std::alloc::{AllocError, Global};
use tks_lines::{Flags, Tag, TextWidget};
use tks_spelling::reading::text_of;
use tks_spelling::writing::{put_text, put_u32};
use tks_spelling::{Following, Unread, list_by, text_length};
use tks_text::{Seq, Txt};

// A tag of a text of so many characters.
#[tactic(auto, unfolding(crate::specs::Lines::tag_at))]
fn tag_of(alloc: Global, len: usize, bytes: &[u8]) -> Result<(Tag, &[u8]), Unread>
    requires { len < 2 ^ 63 }
    ensures { Gives (λ x. (x.0, x.1.now)) result (tag_at len bytes.now) }
{
    let (name, rest) = text_of(alloc, bytes)?;
    let (ranges, rest) = list_by(alloc, &RangesWithin { len }, rest)?;
    let on = Flags::of_ranges(alloc, len, ranges.as_slice())?;
    Ok((Tag { name, on }, rest))
}

/// Tags of a text of so many characters.
#[derive(Clone, Copy)]
struct TagsOf {
    len: u32,
}

impl Following<Tag> for TagsOf {
    ghost use Rattle.tks_codec_windows.specs.Lines.{tag};

    ghost member = { λ tags before. tag tags.len };

    #[tactic(auto, unfolding(crate::specs::Lines::tag_at))]
    fn read_next<'a>(
        &self,
        alloc: Global,
        _before: &[Tag],
        bytes: &'a [u8],
    ) -> Result<(Tag, &'a [u8]), Unread> {
        tag_of(alloc, self.len as usize, bytes)
    }
}

/// Tags of a text.
pub fn tags_of<'a>(
    alloc: Global,
    text: &Txt,
    bytes: &'a [u8],
) -> Result<(Seq<Tag>, &'a [u8]), Unread>
    ensures { Gives (λ x. (x.0, x.1.now)) result ((list (tag (length text.now))).read bytes.now) }
{
    let len = text.as_bytes().len() as u32;
    list_by(alloc, &TagsOf { len }, bytes)
}

// Adds a tag.
fn put_tag(out: &mut Vec<u8>, tag: &Tag) -> Result<(), AllocError>
    requires { length tag.now.on < 2 ^ 32 }
    ensures puts { PutsSo result out.old.items out.new.items ((kinds.tag (length tag.now.on)).write tag.now) }
    ensures legal { OnOk result ((kinds.tag (length tag.now.on)).Legal tag.now) }
{
    put_text(out, &tag.name)?;
    put_flags(out, &tag.on)
}

// Adds each of the tags of a text widget.
fn put_each_tag(out: &mut Vec<u8>, widget: &TextWidget) -> Result<(), AllocError>
    requires text { length widget.now.text < 2 ^ 32 }
    requires long { AreLong (length widget.now.text) widget.now.tags }
    ensures puts { PutsSo result out.old.items out.new.items (members (λ before. tag (length widget.now.text)) None widget.now.tags) }
    ensures legal { OnOk result (AllByRecursion ((tag (length widget.now.text)).Legal) widget.now.tags) }
{
    for tag in widget.tags() {
        put_tag(out, tag)?;
    }
    Ok(())
}

/// Adds the tags of a text widget.
pub fn put_tags(out: &mut Vec<u8>, widget: &TextWidget) -> Result<(), AllocError>
    requires text { length widget.now.text < 2 ^ 32 }
    requires long { AreLong (length widget.now.text) widget.now.tags }
    ensures puts { PutsSo result out.old.items out.new.items ((list (tag (length widget.now.text))).write widget.now.tags) }
    ensures legal { OnOk result ((list (tag (length widget.now.text))).Legal widget.now.tags) }
{
    put_u32(out, widget.tags().len() as u32)?;
    put_each_tag(out, widget)
}

// The length of a tag.
#[tactic(auto, using(tks_spelling::proofs::Counting::lengths))]
fn tag_length(tag: &Tag) -> u64
    ensures { result ≡ counted (length ((kinds.tag (length tag.now.on)).write tag.now)) }
{
    text_length(&tag.name).saturating_add(flags_length(&tag.on))
}

// The length of the tags of a text widget, one behind the other.
fn each_tag_length(widget: &TextWidget) -> u64
    requires { AreLong (length widget.now.text) widget.now.tags }
    ensures { result ≡ counted (length (members (λ before. tag (length widget.now.text)) None widget.now.tags)) }
{
    let mut sum: u64 = 0;
    for tag in widget.tags() {
        sum = sum.saturating_add(tag_length(tag));
    }
    sum
}

/// The length of the spelling of a text widget's tags, in bytes.
pub fn tags_length(widget: &TextWidget) -> u64
    requires { AreLong (length widget.now.text) widget.now.tags }
    ensures { result ≡ counted (length ((list (tag (length widget.now.text))).write widget.now.tags)) }
{
    each_tag_length(widget).saturating_add(4)
}
