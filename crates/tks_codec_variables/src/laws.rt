//! Laws of the spellings.
ghost use Rattle.tks_spelling.specs.Spelling.{Lawful, text};
ghost use Rattle.tks_codec_variables.specs.Table.{table};
ghost use Rattle.tks_codec_variables.specs.Variables.{globals, procedures, variables};

/// Each of these has one spelling, no spelling of one is a proper front of another of its kind, and what reading says
/// of bytes is what these spellings say.
pub fn spellings_are_lawful()
    ensures texts { Lawful (table text) }
    ensures globals { Lawful globals }
    ensures procedures { Lawful procedures }
    ensures variables { Lawful variables }
{}
