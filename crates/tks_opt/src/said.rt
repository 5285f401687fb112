//! What a widget's subcommand answers.
use tks_text::Txt;

/// What a subcommand of a widget comes to.
#[derive(Debug, Drop)]
pub enum Said {
    /// This text is its answer.
    Text(Txt),
    /// What this script answers, run at global level.
    Run(Txt),
}
