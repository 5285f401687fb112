//! How a script ended, for whoever ran it.
use tks_text::Txt;

/// How a script ended.
#[derive(Drop)]
pub struct Ended {
    /// 0 ok, 1 error, 2 return, 3 break or 4 continue.
    pub code: u8,
    /// The result, or the error's text.
    pub text: Txt,
    /// The steps that are left.
    pub fuel: u64,
}
