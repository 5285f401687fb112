//! What is kept of a window beside its place in the tree.
ghost use Rattle.std.specs.Prelude.{◌≡◌, IfOk, Ok, option_map};
ghost use Rattle.tks_text.specs.Fault.{Gives};
ghost use Rattle.tks_opt.specs.Options.{after};
ghost use Rattle.tks_pack.specs.Packing.{packed, forgotten};
ghost use Rattle.tks_state.specs.WellFormed.{mark_of};
ghost use Rattle.tks_state.specs.Windows.{new_kept, with_widget, with_tags, with_packing};

use crate::widget::Widget;
use std::alloc::{AllocError, Global};
use tks_pack::Packing;
use tks_share::{Copied, Numbered, Share, Shared};
use tks_text::{Failure, Seq, Txt};
use tks_tree::WindowId;

/// What is kept of a window beside its place in the tree: what it is, its tags, and what is packed in it. Each change makes
/// another, which shares the widget and what is packed with it where the change leaves them.
#[derive(Drop)]
pub struct Kept {
    pub window: WindowId,
    pub widget: Shared<Widget>,
    /// The tags that were set, if any were.
    pub tags: Option<Shared<Seq<Txt>>>,
    pub packing: Packing,
}

impl Numbered for Kept {
    ghost number_of = { λ k. k.window };

    fn number(&self) -> u64 {
        self.window.number()
    }
}

impl Kept {
    /// What is kept of a new window: nothing is packed in it, and no tags were set.
    pub(crate) fn new(alloc: Global, window: WindowId, widget: Shared<Widget>) -> Kept
        ensures { result ≡ new_kept window widget }
    {
        Kept {
            window,
            widget,
            tags: None,
            packing: Packing::new(alloc),
        }
    }

    /// The tags that were set, if any were.
    pub fn tags(&self) -> Option<&Seq<Txt>>
        ensures { option_map (λ t. t.now) result ≡ self.now.tags }
    {
        match &self.tags {
            Some(tags) => Some(tags.get()),
            None => None,
        }
    }

    /// The same with another widget.
    pub(crate) fn with_widget(&self, alloc: Global, widget: Widget) -> Result<Kept, AllocError>
        ensures { IfOk result (λ k. k ≡ with_widget self.now widget) }
    {
        Ok(Kept {
            window: self.window,
            widget: Shared::new(alloc, widget)?,
            tags: same_tags(&self.tags)?,
            packing: self.packing.share()?,
        })
    }

    /// The same with other tags, or with those that windows have where none were set.
    pub(crate) fn with_tags(&self, tags: Option<Shared<Seq<Txt>>>) -> Result<Kept, AllocError>
        ensures { IfOk result (λ k. k ≡ with_tags self.now tags) }
    {
        Ok(Kept {
            window: self.window,
            widget: self.widget.share()?,
            tags,
            packing: self.packing.share()?,
        })
    }

    // The same with other contents.
    fn with_packing(&self, packing: Packing) -> Result<Kept, AllocError>
        ensures { IfOk result (λ k. k ≡ with_packing self.now packing) }
    {
        Ok(Kept {
            window: self.window,
            widget: self.widget.share()?,
            tags: same_tags(&self.tags)?,
            packing,
        })
    }

    /// The same with a window packed in it, with options and values in turn.
    pub(crate) fn packed(&self, window: WindowId, options: &[Txt]) -> Result<Kept, Failure>
        ensures value { Gives (λ k. k) result (after (packed window options.now self.now.packing) (λ p. Ok (with_packing self.now p))) }
        ensures mark { IfOk result (λ k. mark_of k ≡ mark_of self.now) }
    {
        let mut packing = self.packing.share()?;
        packing.pack(window, options)?;
        let kept = self.with_packing(packing)?;
        Ok(kept)
    }

    /// The same without a window that is packed in it, if it is.
    pub(crate) fn forgotten(&self, window: WindowId) -> Result<Kept, AllocError>
        ensures { IfOk result (λ k. k ≡ with_packing self.now (forgotten window self.now.packing)) }
    {
        let mut packing = self.packing.share()?;
        packing.forget(window)?;
        self.with_packing(packing)
    }

    /// The same where it asks to be as large as its contents need, or doesn't.
    pub(crate) fn propagating(&self, propagates: bool) -> Result<Kept, AllocError>
        ensures { IfOk result (λ k. k ≡ with_packing self.now (record self.now.packing { propagates = propagates })) }
    {
        let mut packing = self.packing.share()?;
        packing.set_propagates(propagates);
        self.with_packing(packing)
    }
}

impl Copied for Kept {
    // Nothing of what it holds is copied.
    fn copied(&self, _alloc: Global) -> Result<Kept, AllocError> {
        Ok(Kept {
            window: self.window,
            widget: self.widget.share()?,
            tags: same_tags(&self.tags)?,
            packing: self.packing.share()?,
        })
    }
}

/// Tags as they are kept.
pub(crate) fn held_tags(
    alloc: Global,
    tags: Option<Seq<Txt>>,
) -> Result<Option<Shared<Seq<Txt>>>, AllocError>
    ensures { IfOk result (λ held. held ≡ tags) }
{
    match tags {
        Some(tags) => Ok(Some(Shared::new(alloc, tags)?)),
        None => Ok(None),
    }
}

// The same tags, held once more, if there are any.
fn same_tags(tags: &Option<Shared<Seq<Txt>>>) -> Result<Option<Shared<Seq<Txt>>>, AllocError>
    ensures { IfOk result (λ same. same ≡ tags.now) }
{
    match tags {
        Some(tags) => Ok(Some(tags.share()?)),
        None => Ok(None),
    }
}
