//! The words that name truth values.
ghost use Rattle.std.specs.Prelude.{◌≡◌};
ghost use Rattle.tks_text.specs.Truth.{is_true_word, is_false_word, truth_of_word};

fn is_true_word(text: &[u8]) -> bool
    ensures { result ≡ is_true_word text.now }
{
    text == b"true".as_slice() || text == b"yes".as_slice() || text == b"on".as_slice()
}

fn is_false_word(text: &[u8]) -> bool
    ensures { result ≡ is_false_word text.now }
{
    text == b"false".as_slice() || text == b"no".as_slice() || text == b"off".as_slice()
}

/// The truth value that a text names as a word: `true`, `yes` and `on`, or `false`, `no` and `off`. `None`
/// where it is none of these.
pub fn truth_of_word(text: &[u8]) -> Option<bool>
    ensures { result ≡ truth_of_word text.now }
{
    if is_true_word(text) {
        Some(true)
    } else if is_false_word(text) {
        Some(false)
    } else {
        None
    }
}
