//! Sequences of events.
ghost use Rattle.std.specs.Prelude.{◌≡◌, ◌≤◌, true, length, IfOk, Some, None, if◌then◌else◌};

use crate::pattern::Pattern;
use crate::spelling::canonical;
use crate::validity::is_sequence;
use smallvec::SmallVec;
use std::alloc::{AllocError, Global};
use std::marker::Model;
use tks_text::Txt;

/// A sequence: one to eight patterns of physical events, or the pattern of a virtual event, which stands alone.
/// Contracts see it as the list of its patterns.
#[derive(Drop)]
pub struct Sequence {
    pub(crate) patterns: SmallVec<Pattern, 2>,
}

impl Model for Sequence {
    ghost use Rattle.std.specs.Prelude.{◌≡◌, List, true};
    ghost use Rattle.tks_event.specs.declared.pattern.Pattern.{Pattern};
    ghost use Rattle.tks_event.specs.Sequences.{is_sequence};

    ghost Value = { List Pattern };

    ghost view = { λ s. s.patterns.items };

    ghost invariant = { λ s. is_sequence s.patterns.items ≡ true };
}

impl Sequence {
    ghost use Rattle.tks_event.specs.Canonical.{canonical};
    ghost use Rattle.tks_event.specs.Spelling.{Spells};
    ghost use Rattle.tks_event.specs.Sequences.{is_sequence};

    /// The patterns, in order.
    pub fn as_slice(&self) -> &[Pattern]
        ensures { result.now ≡ self.now }
    {
        self.patterns.as_slice()
    }

    /// The patterns, which are a sequence.
    #[tactic(auto, using(crate::proofs::Short::is_short))]
    pub fn patterns(&self) -> &[Pattern]
        ensures value { result.now ≡ self.now }
        ensures legal { is_sequence self.now ≡ true }
        ensures few { length self.now ≤ 8 }
    {
        self.patterns.as_slice()
    }

    /// The canonical spelling: each pattern in brackets with its repeat word, its modifiers by rising bit, its type and
    /// its detail, joined by dashes; or the name of a virtual event in double brackets.
    #[tactic(auto, using(crate::proofs::SpelledBack::spelled_back))]
    pub fn canonical(&self, alloc: Global) -> Result<Txt, AllocError>
        ensures value { IfOk result (λ t. t ≡ canonical self.now) }
        ensures spells { IfOk result (λ t. Spells t self.now) }
    {
        canonical(alloc, self.patterns.as_slice())
    }

    /// The sequence of these patterns, so that one is made again from what it had; `None` where they are none.
    pub fn restore(patterns: Vec<Pattern>) -> Option<Sequence>
        ensures { result ≡ (if is_sequence patterns.items then Some patterns.items else None) }
    {
        if !is_sequence(&patterns) {
            return None;
        }
        let patterns = SmallVec::from_vec(patterns);
        Some(Sequence { patterns })
    }

    /// An equal sequence.
    pub fn try_clone(&self, alloc: Global) -> Result<Sequence, AllocError>
        ensures { IfOk result (λ s. s ≡ self.now) }
    {
        let patterns = cloned(alloc, self.patterns.as_slice())?;
        Ok(Sequence { patterns })
    }
}

// Equal patterns.
fn cloned(alloc: Global, patterns: &[Pattern]) -> Result<SmallVec<Pattern, 2>, AllocError>
    ensures { IfOk result (λ v. v.items ≡ patterns.now) }
{
    let mut copy = SmallVec::new(alloc);
    for pattern in patterns {
        copy.push(pattern.try_clone()?)?;
    }
    Ok(copy)
}
