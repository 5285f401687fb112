//! Inputs: what happens to a world.
use std::alloc::AllocError;
use tks_text::Txt;

/// What happens to a world.
#[derive(Debug, Drop)]
pub enum Input {
    /// A script to run.
    Script(Txt),
    /// A key goes down. The text is its name.
    KeyPress(Txt),
    /// A key goes up.
    KeyRelease(Txt),
    /// A button goes down over a cell of the grid, counted from 0.
    Press { button: u8, x: u16, y: u16 },
    /// A button goes up over a cell of the grid.
    Release { button: u8, x: u16, y: u16 },
    /// The clock goes on to this time, in milliseconds.
    Clock(u64),
    /// One queued event, or else one timer or idle script that is due.
    Turn,
    /// The rules by which scripts are run from here on, by their number.
    Rules(u8),
}

impl Input {
    ghost use Rattle.std.specs.Prelude.{◌≡◌, IfOk};

    /// An equal input.
    pub fn try_clone(&self) -> Result<Input, AllocError>
        ensures { IfOk result (λ copy. copy ≡ self.now) }
    {
        match self {
            Input::Script(text) => {
                let text = text.try_clone()?;
                Ok(Input::Script(text))
            }
            Input::KeyPress(key) => {
                let key = key.try_clone()?;
                Ok(Input::KeyPress(key))
            }
            Input::KeyRelease(key) => {
                let key = key.try_clone()?;
                Ok(Input::KeyRelease(key))
            }
            Input::Press { button, x, y } => Ok(Input::Press {
                button: *button,
                x: *x,
                y: *y,
            }),
            Input::Release { button, x, y } => Ok(Input::Release {
                button: *button,
                x: *x,
                y: *y,
            }),
            Input::Clock(time) => Ok(Input::Clock(*time)),
            Input::Turn => Ok(Input::Turn),
            Input::Rules(number) => Ok(Input::Rules(*number)),
        }
    }
}
