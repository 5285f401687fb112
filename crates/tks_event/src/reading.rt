//! The sequence that a text spells.
ghost use Rattle.std.specs.Prelude.{◌≡◌, IfSome, ◌<◌, ◌≤◌, length};
ghost use Rattle.std.specs.List.{prefix_len};
ghost use Rattle.std.specs.Option.{option_map};
ghost use Rattle.tks_text.specs.Text.{IsText};
ghost use Rattle.tks_event.specs.Kinds.{kind_named};
ghost use Rattle.tks_event.specs.Reading.{words_at, only, both, then_behind, in_words, pressed, pattern_at, name_closed, virtual_at};
ghost use Rattle.tks_event.specs.Sequences.{is_name_char};
ghost use Rattle.tks_event.specs.Spelling.{once, is_bare};
ghost use Rattle.tks_event.specs.View.{keysym_of_text, name_then, pattern_seen, pattern_seen_then, typed_words, led_pattern, led};

use crate::keysym::{is_keysym, keysym_of};
use crate::kind::{Kind, is_button};
use crate::lead::Lead;
use crate::modifiers::Modifiers;
use crate::words::{Word, read_word};

/// A pattern as it is written, alone.
#[derive(Clone, Copy)]
pub(crate) struct ParsedPattern<'a> {
    pub kind: Kind,
    pub modifiers: Modifiers,
    /// A keysym or a button's number, or nothing.
    pub detail: &'a [u8],
    /// 1 without a repeat word, else 2 to 4.
    pub times: u8,
}

// A pattern without modifiers and repeat word.
fn once<'a>(kind: Kind, detail: &'a [u8]) -> ParsedPattern<'a>
    ensures { pattern_seen result ≡ once kind 0 detail.now }
{
    ParsedPattern {
        kind,
        modifiers: Modifiers::none(),
        detail,
        times: 1,
    }
}

// A pattern with these modifiers and this repeat word.
fn led<'a>(lead: Lead, kind: Kind, detail: &'a [u8]) -> ParsedPattern<'a>
    ensures { pattern_seen result ≡ led_pattern lead kind detail.now }
{
    ParsedPattern {
        kind,
        modifiers: lead.modifiers,
        detail,
        times: lead.times,
    }
}

// The pattern that a word says alone: a type, or a detail of a press.
fn named_alone(word: &[u8]) -> Option<ParsedPattern<'_>>
    ensures { option_map pattern_seen result ≡ only (kind_named word.now) word.now }
{
    if let Some(kind) = Kind::named(word) {
        return Some(once(kind, b""));
    }
    if is_button(word) {
        return Some(once(Kind::ButtonPress, word));
    }
    if is_keysym(word) {
        return Some(once(Kind::KeyPress, word));
    }
    None
}

// The pattern that a type and a detail say.
fn named_by<'a>(word: &[u8], detail: &'a [u8]) -> Option<ParsedPattern<'a>>
    ensures { option_map pattern_seen result ≡ both (kind_named word.now) detail.now }
{
    let kind = Kind::named(word)?;
    if !kind.has_detail(detail) {
        return None;
    }
    Some(once(kind, detail))
}

// The pattern of a last word behind these.
fn ended_by<'a>(lead: Lead, word: &'a [u8], rest: &'a [u8]) -> Option<(ParsedPattern<'a>, &'a [u8])>
    ensures value { pattern_seen_then result ≡ led lead (then_behind (only (kind_named word.now) word.now) rest.now) }
    ensures same { IfSome result (λ x. x.1.now ≡ rest.now) }
{
    let Some(written) = named_alone(word) else {
        return None;
    };
    let lead = lead.before(written.modifiers, written.times)?;
    Some((led(lead, written.kind, written.detail), rest))
}

// The pattern of a type behind these, with the detail that follows it.
#[tactic(auto, using(crate::proofs::Leads::more_words))]
fn typed<'a>(lead: Lead, word: &'a [u8], rest: &'a [u8]) -> Option<(ParsedPattern<'a>, &'a [u8])>
    requires { IsText rest.now }
    ensures value { pattern_seen_then result ≡ led lead (typed_words word.now (words_at rest.now)) }
    ensures shorter { IfSome result (λ x. length x.1.now < length rest.now) }
    ensures text { IfSome result (λ x. IsText x.1.now) }
{
    let Some(detail) = read_word(rest) else {
        return None;
    };
    if !detail.is_last {
        return None;
    }
    let Some(written) = named_by(word, detail.text) else {
        return None;
    };
    let lead = lead.before(written.modifiers, written.times)?;
    Some((led(lead, written.kind, written.detail), detail.rest))
}

// The pattern that words up to a `>` say, and what stands behind that.
fn read_words(text: &[u8]) -> Option<(ParsedPattern<'_>, &[u8])>
    requires { IsText text.now }
    ensures value { pattern_seen_then result ≡ in_words (words_at text.now) }
    ensures shorter { IfSome result (λ x. length x.1.now < length text.now) }
    ensures text { IfSome result (λ x. IsText x.1.now) }
{
    let mut lead = Lead::none();
    let mut rest = text;
    'words: while let Some(
        Word {
            text: word,
            is_last,
            rest: behind,
        },
    ) = read_word(rest)
    {
        if is_last {
            return ended_by(lead, word, behind);
        }
        let Some(longer) = lead.with_word(word) else {
            return typed(lead, word, behind);
        };
        lead = longer;
        rest = behind;
    }
    None
}

// Whether a character stands for the press of its key: it is a printing one other than space and `<`.
fn is_bare(c: u8) -> bool
    ensures { result ≡ is_bare c }
{
    (33..=126).contains(&c) && c != b'<'
}

// The press of the key of a character, and what stands behind it.
fn pressed<'a>(character: &'a [u8], rest: &'a [u8]) -> Option<(ParsedPattern<'a>, &'a [u8])>
    ensures value { pattern_seen_then result ≡ then_behind (pressed (keysym_of_text character.now)) rest.now }
    ensures same { IfSome result (λ x. x.1.now ≡ rest.now) }
{
    let Some(keysym) = keysym_of(character) else {
        return None;
    };
    Some((once(Kind::KeyPress, keysym), rest))
}

/// The pattern of physical events that the text begins with, and what stands behind it.
#[tactic(auto, unfolding(crate::specs::Reading::pattern_at))]
pub(crate) fn read_pattern(text: &[u8]) -> Option<(ParsedPattern<'_>, &[u8])>
    requires { IsText text.now }
    ensures value { pattern_seen_then result ≡ pattern_at text.now }
    ensures shorter { IfSome result (λ x. length x.1.now < length text.now) }
    ensures text { IfSome result (λ x. IsText x.1.now) }
{
    match text {
        [] => None,
        [first, rest @ ..] => {
            if *first == b'<' {
                let found = read_words(rest);
                return found;
            }
            if !is_bare(*first) {
                return None;
            }
            let found = pressed(text.split_at(1).0, rest);
            found
        }
    }
}

// Whether a character may stand in the name of a virtual event.
pub(crate) fn is_name_char(c: u8) -> bool
    ensures { result ≡ is_name_char c }
{
    (33..=126).contains(&c) && c != b'<' && c != b'>'
}

// How many characters of a name the text begins with.
fn name_len(text: &[u8]) -> usize
    ensures value { result ≡ prefix_len is_name_char text.now }
    ensures bound { result ≤ length text.now }
{
    text.iter().take_while(|c| is_name_char(**c)).count()
}

// A name, and what stands behind the two `>` that close it.
fn name_closed<'a>(name: &'a [u8], text: &'a [u8]) -> Option<(&'a [u8], &'a [u8])>
    ensures { name_then result ≡ name_closed name.now text.now }
{
    let (first, rest) = text.split_first()?;
    let (second, rest) = rest.split_first()?;
    if name.is_empty() || *first != b'>' || *second != b'>' {
        return None;
    }
    Some((name, rest))
}

/// The name of the virtual event that the text begins with, and what stands behind it.
#[tactic(auto, unfolding(crate::specs::Reading::virtual_at))]
pub(crate) fn read_virtual(text: &[u8]) -> Option<(&[u8], &[u8])>
    ensures { name_then result ≡ virtual_at text.now }
{
    let (first, rest) = text.split_first()?;
    let (second, rest) = rest.split_first()?;
    if *first != b'<' || *second != b'<' {
        return None;
    }
    let (name, rest) = rest.split_at(name_len(rest));
    name_closed(name, rest)
}
