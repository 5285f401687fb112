//! How sequences are spelled.
ghost use Rattle.std.specs.Prelude.{◌≡◌, ◌≤◌, ◌+◌, ◌++◌, [], length, if◌then◌else◌, IfOk, OnOk};
ghost use Rattle.tks_text.specs.Text.{IsText};
ghost use Rattle.tks_event.specs.Canonical.{dashed, repeat_text, modifiers_text, detail_text, physical_text, virtual_text, pattern_text, near_count, canonical};
ghost use Rattle.tks_event.specs.Modifiers.{has, modifier_name, all_modifiers};

use crate::kind::Kind;
use crate::modifiers::{Modifier, Modifiers};
use crate::pattern::Pattern;
use std::alloc::{AllocError, Global};
use tks_text::{TextBuilder, Txt};

// Adds a word and a dash.
fn push_dashed(text: &mut TextBuilder, word: &[u8]) -> Result<(), AllocError>
    requires { IsText word.now }
    ensures { OnOk result (text.new ≡ text.old ++ dashed word.now) }
{
    text.push_bytes(word)?;
    text.push_byte(b'-')?;
    Ok(())
}

// Adds the repeat word of a pattern that comes so often.
fn push_repeat(text: &mut TextBuilder, times: usize) -> Result<(), AllocError>
    ensures { OnOk result (text.new ≡ text.old ++ repeat_text times) }
{
    if times == 2 {
        push_dashed(text, b"Double")?;
    } else if times == 3 {
        push_dashed(text, b"Triple")?;
    } else if times == 4 {
        push_dashed(text, b"Quadruple")?;
    }
    Ok(())
}

// Adds a modifier, where it is in the set.
fn push_modifier(
    text: &mut TextBuilder,
    set: Modifiers,
    modifier: Modifier,
) -> Result<(), AllocError>
    ensures { OnOk result (text.new ≡ text.old ++ (if has set modifier then dashed (modifier_name modifier) else [])) }
{
    if set.has(modifier) {
        push_dashed(text, modifier.name())?;
    }
    Ok(())
}

// Adds the modifiers of a set, by rising bit.
fn push_modifiers(text: &mut TextBuilder, set: Modifiers) -> Result<(), AllocError>
    ensures { OnOk result (text.new ≡ text.old ++ modifiers_text set all_modifiers) }
{
    for modifier in &Modifier::ALL {
        push_modifier(text, set, *modifier)?;
    }
    Ok(())
}

// Adds a detail and a dash before it, where there is one.
fn push_detail(text: &mut TextBuilder, detail: &Txt) -> Result<(), AllocError>
    ensures { OnOk result (text.new ≡ text.old ++ detail_text detail.now) }
{
    if !detail.is_empty() {
        text.push_byte(b'-')?;
        text.push_bytes(detail.as_bytes())?;
    }
    Ok(())
}

// Adds a pattern of physical events that comes so often.
fn push_physical(text: &mut TextBuilder, pattern: &Pattern, times: usize) -> Result<(), AllocError>
    ensures { OnOk result (text.new ≡ text.old ++ physical_text pattern.now times) }
{
    text.push_byte(b'<')?;
    push_repeat(text, times)?;
    push_modifiers(text, pattern.modifiers)?;
    text.push_bytes(pattern.kind.name())?;
    push_detail(text, &pattern.detail)?;
    text.push_byte(b'>')?;
    Ok(())
}

// Adds the pattern of a virtual event.
fn push_virtual(text: &mut TextBuilder, name: &Txt) -> Result<(), AllocError>
    ensures { OnOk result (text.new ≡ text.old ++ virtual_text name.now) }
{
    text.push_byte(b'<')?;
    text.push_byte(b'<')?;
    text.push_bytes(name.as_bytes())?;
    text.push_byte(b'>')?;
    text.push_byte(b'>')?;
    Ok(())
}

// Adds a pattern that comes so often.
fn push_pattern(text: &mut TextBuilder, pattern: &Pattern, times: usize) -> Result<(), AllocError>
    ensures { OnOk result (text.new ≡ text.old ++ pattern_text pattern.now times) }
{
    if pattern.kind.is(Kind::Virtual) {
        push_virtual(text, &pattern.detail)?;
    } else {
        push_physical(text, pattern, times)?;
    }
    Ok(())
}

// How many patterns at the front are close behind the one before.
fn near_count(patterns: &[Pattern]) -> usize
    ensures value { result ≡ near_count patterns.now }
    ensures bound { result ≤ length patterns.now }
{
    patterns.iter().take_while(|pattern| pattern.near).count()
}

// Adds the first of some patterns, with its repeats, where it isn't near.
fn push_first(text: &mut TextBuilder, first: &Pattern, behind: &[Pattern]) -> Result<(), AllocError>
    ensures { OnOk result (text.new ≡ text.old ++ (if first.now.near then [] else pattern_text first.now (1 + near_count behind.now))) }
{
    if !first.near {
        push_pattern(text, first, 1 + near_count(behind))?;
    }
    Ok(())
}

/// The canonical spelling of patterns: each in brackets, its words joined by dashes; a pattern and those near behind it
/// as one, with a repeat word.
#[tactic(auto, unfolding(crate::specs::Canonical::canonical))]
pub(crate) fn canonical(alloc: Global, patterns: &[Pattern]) -> Result<Txt, AllocError>
    ensures { IfOk result (λ t. t ≡ canonical patterns.now) }
{
    let mut text = TextBuilder::new(alloc);
    let mut rest = patterns;
    'patterns: while let Some((first, behind)) = rest.split_first() {
        push_first(&mut text, first, behind)?;
        rest = behind;
    }
    text.into_text()
}
