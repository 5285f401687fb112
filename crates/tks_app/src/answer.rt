//! What a command answers.
use tks_text::Txt;

/// How a command of the application ends.
#[derive(Clone, Copy, Debug, PartialEq, Eq)]
pub enum AppCode {
    /// With a value: code 0.
    Value,
    /// With an error of the script, which `catch` catches: code 1.
    Error,
}

/// What a command of the application answers.
#[derive(Debug, Drop)]
pub struct AppAnswer {
    pub code: AppCode,
    /// The value, or the error's text.
    pub text: Txt,
    /// What the command keeps until its next call, after an error too.
    pub memory: Txt,
}
