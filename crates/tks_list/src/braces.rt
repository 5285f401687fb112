//! Where a brace closes.
ghost use Rattle.std.specs.Prelude.{◌≡◌, ◌<◌, ◌≤◌, ◌+◌, ◌-◌, ◌^◌, length, IfSome};
ghost use Rattle.tks_list.specs.Reading.{brace_after, closing_brace, no_braces};

/// The braces that are open behind the characters that were read.
#[derive(Clone, Copy)]
pub struct Braces {
    /// How many are open, but for the outer one.
    pub held: usize,
    /// Whether a backslash takes its meaning from the next character.
    pub is_quoted: bool,
}

impl Braces {
    // The braces behind one more character, or `None` where it closes the outer one.
    fn after(self, c: u8) -> Option<Braces>
        requires { self.held < 2 ^ 64 - 1 }
        ensures value { result ≡ brace_after self c }
        ensures bound { IfSome result (λ b. b.held ≤ self.held + 1) }
    {
        let held = if self.is_quoted {
            self.held
        } else if c == b'}' {
            self.held.checked_sub(1)?
        } else if c == b'{' {
            self.held + 1
        } else {
            self.held
        };
        Some(Braces {
            held,
            is_quoted: !self.is_quoted && c == b'\\',
        })
    }
}

/// How many bytes stand before the brace that closes the outer one.
pub fn closing_brace(text: &[u8]) -> Option<usize>
    ensures value { result ≡ closing_brace 0 no_braces text.now }
    ensures bound { IfSome result (λ n. n < length text.now) }
{
    let mut braces = Braces {
        held: 0,
        is_quoted: false,
    };
    let mut len = 0;
    for c in text {
        match braces.after(*c) {
            Some(next) => braces = next,
            None => return Some(len),
        }
        len += 1;
    }
    None
}
