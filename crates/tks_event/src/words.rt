//! The words of a pattern in brackets.
ghost use Rattle.std.specs.Prelude.{◌≡◌, ◌<◌, ◌≤◌, Some, length, not, IfSome};
ghost use Rattle.std.specs.List.{prefix_len};
ghost use Rattle.tks_text.specs.Text.{IsText};
ghost use Rattle.tks_event.specs.Reading.{words_at};
ghost use Rattle.tks_event.specs.Spelling.{is_separator, ends_word};
ghost use Rattle.tks_event.specs.View.{word_before, word_then, words_from};

use tks_text::is_space;

/// A word of a pattern.
#[derive(Clone, Copy)]
pub(crate) struct Word<'a> {
    pub text: &'a [u8],
    /// Whether a `>` stands behind it, or behind the separators after it.
    pub is_last: bool,
    /// What stands behind that, or behind the separators before the next word.
    pub rest: &'a [u8],
}

// Whether a byte separates words: white space or a dash.
fn is_separator(c: u8) -> bool
    ensures { result ≡ is_separator c }
{
    is_space(c) || c == b'-'
}

// Whether a byte ends a word.
fn ends_word(c: u8) -> bool
    ensures { result ≡ ends_word c }
{
    is_separator(c) || c == b'>'
}

// How many bytes the word has that the text begins with.
fn word_len(text: &[u8]) -> usize
    ensures value { result ≡ prefix_len (λ c. not (ends_word c)) text.now }
    ensures bound { result ≤ length text.now }
{
    text.iter().take_while(|c| !ends_word(**c)).count()
}

// How many separators the text begins with.
fn separators_len(text: &[u8]) -> usize
    ensures value { result ≡ prefix_len is_separator text.now }
    ensures bound { result ≤ length text.now }
{
    text.iter().take_while(|c| is_separator(**c)).count()
}

// The word before what stands behind its separators: a `>`, or another word.
#[tactic(auto, unfolding(crate::specs::Reading::words_at))]
fn followed<'a>(word: &'a [u8], behind: &'a [u8]) -> Word<'a>
    requires word { IsText word.now }
    requires behind { IsText behind.now }
    ensures words { words_from (Some result) ≡ word_before word.now behind.now }
    ensures no_longer { length result.rest.now ≤ length behind.now }
    ensures text { IsText result.text.now × IsText result.rest.now }
{
    match behind {
        [b'>', rest @ ..] => Word {
            text: word,
            is_last: true,
            rest,
        },
        _ => Word {
            text: word,
            is_last: false,
            rest: behind,
        },
    }
}

// The word before a text, which it ends at. `None` where the text ends there too.
fn ended<'a>(word: &'a [u8], behind: &'a [u8]) -> Option<Word<'a>>
    requires word { IsText word.now }
    requires behind { IsText behind.now }
    ensures words { words_from result ≡ word_then word.now behind.now }
    ensures shorter { IfSome result (λ w. length w.rest.now < length behind.now) }
    ensures text { IfSome result (λ w. IsText w.text.now × IsText w.rest.now) }
{
    match behind {
        [] => None,
        [b'>', rest @ ..] => Some(Word {
            text: word,
            is_last: true,
            rest,
        }),
        [_, rest @ ..] => Some(followed(word, rest.split_at(separators_len(rest)).1)),
    }
}

/// The word that the text begins with, which may be empty. `None` where the text ends with it.
#[tactic(auto, using(crate::proofs::WordsRead::word_reads))]
pub(crate) fn read_word(text: &[u8]) -> Option<Word<'_>>
    requires { IsText text.now }
    ensures words { words_at text.now ≡ words_from result }
    ensures shorter { IfSome result (λ w. length w.rest.now < length text.now) }
    ensures text { IfSome result (λ w. IsText w.text.now × IsText w.rest.now) }
{
    let (word, behind) = text.split_at(word_len(text));
    ended(word, behind)
}
