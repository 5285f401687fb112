//! Windows, each a line of its fields.
ghost use Rattle.std.specs.Prelude.{◌≡◌, length, OnOk};
ghost use Rattle.tks_spelling.specs.Reading.{Gives};
ghost use Rattle.tks_spelling.specs.Writing.{PutsSo, flattened};
ghost use Rattle.tks_spelling.specs.Lengths.{counted};
ghost use Rattle.tks_codec.specs.Line as kinds;
ghost use Rattle.tks_codec.specs.Line.{line_at, line_parts, rest_parts, RestIsLegal, line_with};
ghost use Rattle.tks_state.specs.Widget.{class_of};
ghost use Rattle.tks_tree.specs.View.{window_seen};

use crate::class::{class_of, put_class};
use crate::content::{content_length, content_of, put_content};
use std::alloc::{AllocError, Global};
use tks_codec_windows::{
    Place, contents_length, options_length, options_of, packing_length, packing_of, put_contents,
    put_options, put_packing, put_tags, tags_length, tags_of,
};
use tks_pack::Settings;
use tks_spelling::reading::{flag_of, text_of, u64_of};
use tks_spelling::writing::{put_flag, put_text, put_u64};
use tks_spelling::{Following, Numbers, Unread, list_of, text_length};
use tks_state::{Kept, Widget};
use tks_text::{Seq, Txt};
use tks_tree::{Window, WindowId};

/// A window as it is written.
#[derive(Drop)]
pub struct Line {
    pub place: Place,
    /// The tags that were set, if any were.
    pub tags: Option<Seq<Txt>>,
    pub widget: Widget,
}

// A window.
#[tactic(auto, unfolding(crate::specs::Line::line_at, crate::specs::Content::content_at, tks_codec_windows::specs::Options::options_at, tks_codec_windows::specs::Packing::packing_at))]
fn line_of(alloc: Global, bytes: &[u8]) -> Result<(Line, &[u8]), Unread>
    ensures { Gives (λ x. (x.0, x.1.now)) result (line_at bytes.now) }
{
    let (number, rest) = u64_of(bytes)?;
    let (path, rest) = text_of(alloc, rest)?;
    let (class, rest) = class_of(rest)?;
    let (options, rest) = options_of(alloc, class, rest)?;
    let (tags, rest) = tags_of(alloc, rest)?;
    let (propagates, rest) = flag_of(rest)?;
    let (contents, rest) = list_of(alloc, Numbers, rest)?;
    let (packing, rest) = match packing_of(rest) {
        Ok(found) => found,
        Err(unread) => return Err(unread),
    };
    let (widget, rest) = content_of(alloc, options, rest)?;
    let place = Place {
        window: WindowId::of(number),
        path,
        class,
        propagates,
        contents,
        packing,
    };
    let line = Line {
        place,
        tags,
        widget,
    };
    Ok((line, rest))
}

/// Windows, each a line.
pub struct Lines;

impl Following<Line> for Lines {
    ghost use Rattle.tks_codec.specs.Line.{line};

    ghost member = { λ lines before. line };

    #[tactic(auto, unfolding(crate::specs::Line::line_at))]
    fn read_next<'a>(
        &self,
        alloc: Global,
        _before: &[Line],
        bytes: &'a [u8],
    ) -> Result<(Line, &'a [u8]), Unread> {
        line_of(alloc, bytes)
    }
}

// Adds what stands behind the options of a window.
#[tactic(auto, using(tks_spelling::proofs::Puts::flattened_puts))]
fn put_rest(out: &mut Vec<u8>, kept: &Kept, packing: Option<Settings>) -> Result<(), AllocError>
    ensures puts { PutsSo result out.old.items out.new.items (flattened (rest_parts kept.now packing)) }
    ensures legal { OnOk result (RestIsLegal kept.now packing) }
{
    put_tags(out, kept.tags())?;
    put_flag(out, kept.packing.propagates())?;
    put_contents(out, &kept.packing)?;
    put_packing(out, packing)?;
    put_content(out, kept.widget.get())
}

// Adds the parts of a window.
#[tactic(auto, using(tks_spelling::proofs::Puts::flattened_puts))]
fn put_parts(
    out: &mut Vec<u8>,
    window: &Window<'_>,
    kept: &Kept,
    packing: Option<Settings>,
) -> Result<(), AllocError>
    requires { class_of kept.now.widget ≡ (window_seen window.now).class }
    ensures puts { PutsSo result out.old.items out.new.items (flattened (line_parts (window_seen window.now) kept.now packing)) }
    ensures legal { OnOk result (kinds.line.Legal (line_with (window_seen window.now) kept.now packing)) }
{
    put_u64(out, window.id.number())?;
    put_text(out, window.path)?;
    put_class(out, window.class)?;
    put_options(out, kept.widget.get().options())?;
    put_rest(out, kept, packing)
}

/// Adds a window that is packed so, if it is.
#[tactic(auto, unfolding(tks_spelling::specs::Writing::flattened))]
pub fn put_line(
    out: &mut Vec<u8>,
    window: &Window<'_>,
    kept: &Kept,
    packing: Option<Settings>,
) -> Result<(), AllocError>
    requires { class_of kept.now.widget ≡ (window_seen window.now).class }
    ensures puts { PutsSo result out.old.items out.new.items (kinds.line.write (line_with (window_seen window.now) kept.now packing)) }
    ensures legal { OnOk result (kinds.line.Legal (line_with (window_seen window.now) kept.now packing)) }
{
    put_parts(out, window, kept, packing)
}

// The length of what stands behind the options of a window.
#[tactic(auto, unfolding(tks_spelling::specs::Writing::flattened), using(tks_spelling::proofs::Counting::lengths))]
fn rest_length(kept: &Kept, packing: Option<Settings>) -> u64
    ensures { result ≡ counted (length (flattened (rest_parts kept.now packing))) }
{
    tags_length(kept.tags())
        .saturating_add(contents_length(&kept.packing))
        .saturating_add(packing_length(packing))
        .saturating_add(content_length(kept.widget.get()))
        .saturating_add(1)
}

/// The length of the spelling of a window that is packed so, if it is, in bytes.
#[tactic(auto, unfolding(tks_spelling::specs::Writing::flattened), using(tks_spelling::proofs::Counting::lengths))]
pub fn line_length(window: &Window<'_>, kept: &Kept, packing: Option<Settings>) -> u64
    ensures { result ≡ counted (length (kinds.line.write (line_with (window_seen window.now) kept.now packing))) }
{
    text_length(window.path)
        .saturating_add(options_length(kept.widget.get().options()))
        .saturating_add(rest_length(kept, packing))
        .saturating_add(9)
}
