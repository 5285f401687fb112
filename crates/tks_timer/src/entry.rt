//! What waits: timers and idle scripts.
use tks_share::Numbered;
use tks_text::Txt;

/// A script that runs once its time has come.
#[derive(Drop)]
pub struct Timer {
    pub id: u64,
    /// In milliseconds of the clock.
    pub due: u64,
    pub script: Txt,
}

/// A script that runs when nothing else is to be done.
#[derive(Drop)]
pub struct Idle {
    pub id: u64,
    pub script: Txt,
}

impl Numbered for Timer {
    ghost number_of = { λ t. t.id };

    fn number(&self) -> u64 {
        self.id
    }
}

impl Numbered for Idle {
    ghost number_of = { λ i. i.id };

    fn number(&self) -> u64 {
        self.id
    }
}
