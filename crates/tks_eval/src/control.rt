//! The names of the commands that run scripts.
ghost use Rattle.std.specs.Prelude.{◌≡◌, if◌then◌else◌, Some, None, option_map};
ghost use Rattle.tks_text.specs.Text.{same_text};
ghost use Rattle.tks_eval.specs.Names.{control_named};
ghost use Rattle.tks_eval.specs.Machine.{control_of};

use tks_tcl::is_word;
use tks_text::Txt;

/// The commands that run scripts, and `proc`.
#[derive(Clone, Copy)]
pub enum Control {
    Catch,
    Eval,
    Expr,
    For,
    Foreach,
    If,
    Proc,
    While,
}

// The command, where a name is this word.
fn if_word(name: &[u8], word: &[u8], control: Control) -> Option<Control>
    ensures { option_map control_of result ≡ (if same_text name.now word.now then Some (control_of control) else None) }
{
    if is_word(name, word) {
        Some(control)
    } else {
        None
    }
}

impl Control {
    /// The command of this name. The first byte of a name leaves few words that it may be.
    pub fn named(name: &Txt) -> Option<Control>
        ensures { option_map control_of result ≡ control_named name.now }
    {
        let name = name.as_bytes();
        let [first, ..] = name else {
            return None;
        };
        match *first {
            b'c' => if_word(name, b"catch", Control::Catch),
            b'e' => {
                if is_word(name, b"eval") {
                    Some(Control::Eval)
                } else {
                    if_word(name, b"expr", Control::Expr)
                }
            }
            b'f' => {
                if is_word(name, b"for") {
                    Some(Control::For)
                } else {
                    if_word(name, b"foreach", Control::Foreach)
                }
            }
            b'i' => if_word(name, b"if", Control::If),
            b'p' => if_word(name, b"proc", Control::Proc),
            b'w' => if_word(name, b"while", Control::While),
            _ => None,
        }
    }
}
