//! The rules by which the scripts of a world are run.
ghost use Rattle.std.specs.Prelude.{◌≡◌};
ghost use Rattle.tks_state.specs.Rules.{number_of, numbered};

/// The rules by which the scripts of a world are run.
#[derive(Clone, Copy, Debug, PartialEq, Eq)]
pub enum Rules {
    /// Those under which every world begins.
    One,
    /// Those under which `update` is a command.
    Two,
}

impl Rules {
    /// Their number.
    pub fn number(self) -> u8
        ensures { result ≡ number_of self }
    {
        match self {
            Rules::One => 1,
            Rules::Two => 2,
        }
    }

    /// The rules of a number, if any have it.
    pub fn numbered(number: u8) -> Option<Rules>
        ensures { result ≡ numbered number }
    {
        match number {
            1 => Some(Rules::One),
            2 => Some(Rules::Two),
            _ => None,
        }
    }
}
