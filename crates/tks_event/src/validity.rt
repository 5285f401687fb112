//! Which lists of patterns are sequences.
ghost use Rattle.std.specs.Prelude.{◌≡◌};
ghost use Rattle.std.specs.List.{list_all};
ghost use Rattle.tks_event.specs.Sequences.{is_name_char, is_name, is_some_text, is_physical, same_pattern, may_follow, is_physical_sequence, is_virtual, is_virtual_sequence, is_sequence};

use crate::collected::MAX_EVENTS;
use crate::kind::Kind;
use crate::pattern::Pattern;
use crate::reading::is_name_char;

// Sets of modifiers are the numbers below this.
const ALL_BITS: u16 = 8192;

/// Whether a text is the name of a virtual event: printing characters but `<` and `>`, at least one.
pub fn is_name(text: &[u8]) -> bool
    ensures { result ≡ is_name text.now }
{
    is_some_text(text) && are_name_chars(text)
}

// Whether each character may stand in the name of a virtual event.
fn are_name_chars(text: &[u8]) -> bool
    ensures { result ≡ list_all is_name_char text.now }
{
    text.iter().all(|c| is_name_char(*c))
}

// Whether a text has a character.
fn is_some_text(text: &[u8]) -> bool
    ensures { result ≡ is_some_text text.now }
{
    match text {
        [] => false,
        _ => true,
    }
}

// Whether a pattern is one of physical events: its detail goes with its kind, or there is none.
fn is_physical(pattern: &Pattern) -> bool
    ensures { result ≡ is_physical pattern.now }
{
    let detail = pattern.detail.as_bytes();
    !pattern.kind.is(Kind::Virtual)
        && pattern.modifiers.bits() < ALL_BITS
        && (!is_some_text(detail) || pattern.kind.has_detail(detail))
}

// Whether two patterns are of the same events.
fn is_same(pattern: &Pattern, other: &Pattern) -> bool
    ensures { result ≡ same_pattern pattern.now other.now }
{
    pattern.kind.is(other.kind)
        && pattern.modifiers.bits() == other.modifiers.bits()
        && pattern.detail == other.detail
}

// Whether these may stand behind a pattern that may come close behind itself so many times more.
fn may_follow(head: &Pattern, more: u8, patterns: &[Pattern]) -> bool
    ensures { result ≡ may_follow head.now more patterns.now }
{
    match patterns {
        [] => true,
        [pattern, rest @ ..] => {
            if pattern.near {
                0 < more && is_same(pattern, head) && may_follow(head, more - 1, rest)
            } else {
                is_physical(pattern) && may_follow(pattern, 3, rest)
            }
        }
    }
}

// Whether patterns are a sequence of physical events.
fn is_physical_sequence(patterns: &[Pattern]) -> bool
    ensures { result ≡ is_physical_sequence patterns.now }
{
    match patterns {
        [] => false,
        [first, rest @ ..] => {
            !first.near
                && is_physical(first)
                && may_follow(first, 3, rest)
                && patterns.len() <= MAX_EVENTS
        }
    }
}

// Whether a pattern is that of a virtual event.
fn is_virtual(pattern: &Pattern) -> bool
    ensures { result ≡ is_virtual pattern.now }
{
    !pattern.near
        && pattern.kind.is(Kind::Virtual)
        && pattern.modifiers.bits() == 0
        && is_name(pattern.detail.as_bytes())
}

// Whether patterns are the one of a virtual event.
fn is_virtual_sequence(patterns: &[Pattern]) -> bool
    ensures { result ≡ is_virtual_sequence patterns.now }
{
    match patterns {
        [pattern] => is_virtual(pattern),
        _ => false,
    }
}

/// Whether patterns are a sequence.
#[tactic(auto, unfolding(crate::specs::Sequences::is_sequence))]
pub fn is_sequence(patterns: &[Pattern]) -> bool
    ensures { result ≡ is_sequence patterns.now }
{
    is_physical_sequence(patterns) || is_virtual_sequence(patterns)
}
