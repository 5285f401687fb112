//! Where windows stand, and how they are packed.
ghost use Rattle.std.specs.Prelude.{◌≡◌};
ghost use Rattle.tks_codec_windows.specs.Places.{same_paddings, same_settings, same_packing};

use tks_pack::Settings;
use tks_text::{Class, Seq, Txt};
use tks_tree::WindowId;

/// The place of a window: its number, path and class, what is packed in it, and how it is packed itself.
#[derive(Drop)]
pub struct Place {
    pub window: WindowId,
    pub path: Txt,
    pub class: Class,
    /// Whether it asks to be as large as its contents need.
    pub propagates: bool,
    /// The numbers of the windows that are packed in it, in order.
    pub contents: Seq<u64>,
    /// How it is packed, if it is.
    pub packing: Option<Settings>,
}

// Whether paddings are alike.
fn same_paddings(one: &Settings, other: &Settings) -> bool
    ensures { result ≡ same_paddings one.now other.now }
{
    one.padx.cells() == other.padx.cells()
        && one.pady.cells() == other.pady.cells()
        && one.ipadx.cells() == other.ipadx.cells()
        && one.ipady.cells() == other.ipady.cells()
}

// Whether windows are packed alike.
fn same_settings(one: &Settings, other: &Settings) -> bool
    ensures { result ≡ same_settings one.now other.now }
{
    one.side.number() == other.side.number()
        && one.fill.number() == other.fill.number()
        && one.expand == other.expand
        && one.anchor.number() == other.anchor.number()
        && same_paddings(one, other)
}

/// Whether windows are packed alike, or neither is.
pub(crate) fn same_packing(one: Option<Settings>, other: Option<Settings>) -> bool
    ensures { result ≡ same_packing one other }
{
    match (one, other) {
        (None, None) => true,
        (Some(one), Some(other)) => same_settings(&one, &other),
        _ => false,
    }
}
