//! The patterns of a sequence that is read.
ghost use Rattle.std.specs.Prelude.{◌≡◌, ◌++◌, IfOk, OnOk, false};
ghost use Rattle.tks_text.specs.Text.{IsText};
ghost use Rattle.tks_event.specs.Sequences.{near_ones, events_of};
ghost use Rattle.tks_event.specs.View.{pattern_seen, standing, kept, none_kept, kept_with, room};

use crate::pattern::Pattern;
use crate::reading::ParsedPattern;
use smallvec::SmallVec;
use std::alloc::{AllocError, Global};
use tks_text::Txt;

/// The most patterns that a sequence has.
pub const MAX_EVENTS: usize = 8;

/// The patterns so far, up to the most that a sequence has.
#[derive(Drop)]
pub(crate) struct Collected {
    pub patterns: SmallVec<Pattern, 2>,
    /// Whether there were more than a sequence has. Then those that came too late are not kept.
    pub is_too_long: bool,
}

/// A pattern as it is written, close behind another or not.
pub(crate) fn pattern_of(
    alloc: Global,
    written: &ParsedPattern<'_>,
    near: bool,
) -> Result<Pattern, AllocError>
    requires { IsText written.now.detail.now }
    ensures { IfOk result (λ p. p ≡ standing near (pattern_seen written.now)) }
{
    Ok(Pattern {
        near,
        kind: written.kind,
        modifiers: written.modifiers,
        detail: Txt::from_text(alloc, written.detail)?,
    })
}

// Adds a pattern so many times, each close behind the one before.
fn push_near(
    alloc: Global,
    patterns: &mut SmallVec<Pattern, 2>,
    written: &ParsedPattern<'_>,
    count: u8,
) -> Result<(), AllocError>
    requires { IsText written.now.detail.now }
    ensures { OnOk result (patterns.new.items ≡ patterns.old.items ++ near_ones (standing false (pattern_seen written.now)) count) }
{
    for done in 0..count {
        let pattern = pattern_of(alloc, written, true)?;
        patterns.push(pattern)?;
    }
    Ok(())
}

impl Collected {
    /// None yet.
    pub(crate) fn new(alloc: Global) -> Collected
        ensures { kept result ≡ none_kept }
    {
        Collected {
            patterns: SmallVec::new(alloc),
            is_too_long: false,
        }
    }

    // Whether a pattern and so many near ones fit in.
    fn has_room(&self, near: u8) -> bool
        ensures { result ≡ room (kept self.now) near }
    {
        !self.is_too_long && usize::from(near) < MAX_EVENTS.saturating_sub(self.patterns.len())
    }

    /// Adds a pattern as often as it comes.
    pub(crate) fn add(
        &mut self,
        alloc: Global,
        written: &ParsedPattern<'_>,
    ) -> Result<(), AllocError>
        requires { IsText written.now.detail.now }
        ensures { OnOk result (kept self.new ≡ kept_with (kept self.old) (events_of (pattern_seen written.now))) }
    {
        let near = written.times.saturating_sub(1);
        if !self.has_room(near) {
            self.is_too_long = true;
            return Ok(());
        }
        let first = pattern_of(alloc, written, false)?;
        self.patterns.push(first)?;
        push_near(alloc, &mut self.patterns, written, near)?;
        Ok(())
    }
}
